//! What leaves a floor with the press, and what comes back.

ghost use Rattle.std.specs.Prelude.{◌≡◌};
ghost use Rattle.alarm_core.specs.State.{CoreState};
ghost use Rattle.alarm_journal.specs.Journal.{Content};
ghost use Rattle.alarm_journal.specs.Journal.{Site as Journal};
ghost use Rattle.alarm_journal.specs.Press.{PressState, room_of};
ghost use Rattle.floor_desk.specs.Accounts.{Account, front_of};
ghost use Rattle.state_codec.specs.Keeping.{Rests};
ghost use Rattle.state_codec.specs.Work.{FitsPress, content_with};
ghost use Rattle.floor_desk.specs.Carrying.{CountsCarried, IsCarriedOut, Lends, RestsCarried, SendsAlone, TellsCarried};

use crate::entry::Entry;
use alarm_journal::Press;
use bac_values::{Items, Send};
use ground_io::Ground;
use state_codec::{Work, write_work};
use turnstile::noted_of;

/// What a commit carries out without the floor.
pub struct Load<G: Ground> {
    /// The press.
    pub press: Press<G>,
    /// The number of the last event that is to be written.
    pub upto: u64,
    /// What is to be written.
    pub work: Work,
    /// The datagrams that are to be emitted behind it.
    pub sends: Items<Send>,
}

/// What comes back.
pub enum Carried<G: Ground> {
    /// All is written, and each datagram was sent or lost.
    Home {
        /// The press.
        press: Press<G>,
        /// The number of the last event that is written.
        upto: u64,
        /// How many datagrams were lost.
        lost: u64,
    },
    /// The disk failed, and nothing was sent.
    Broken {
        /// What is left of the press.
        device: G,
        /// The number of the last event that was to be written.
        upto: u64,
    },
}

impl<G: Ground> Carried<G> {
    // The entry that tells of it.
    pub(crate) fn entry(&self) -> Entry<G>
        ensures tells { TellsCarried self.now result }
    {
        match self {
            Carried::Home { press, upto, .. } => {
                let memo = noted_of(press);
                Entry::Returned {
                    upto: *upto,
                    press: memo,
                }
            }
            Carried::Broken { device, upto } => {
                let memo = noted_of(device);
                Entry::Failed {
                    upto: *upto,
                    device: memo,
                }
            }
        }
    }
}

impl<G: Ground> Load<G> {
    /// Writes, and then emits, without the floor. It takes no memory.
    pub fn carry_out(self) -> Carried<G>
        requires fits { FitsPress (room_of self.press.layout) self.press.layout.half self.work }
        // Whoever made the load: what the ground counts, and that all of it is written where the press comes home.
        ensures counts { CountsCarried G.size G.disk_faults G.emit_faults self.press.device result }
        ensures rests { (journal : Journal) (content : Content) → Rests journal self.press.layout (G.told self.press.device) content → RestsCarried G.told journal (content_with self.work content) result }

        // Without records nothing is written and no sync comes: just the datagrams go out.
        ensures alone { self.work ≡ Work.Nothing → SendsAlone G.told self.sends self.press result }

        // A load that was lent is carried out.
        ensures carried { (origin : CoreState × PressState G) (a : Account G) → Lends G.told origin a self → IsCarriedOut G.told G.size G.disk_faults G.emit_faults origin a self.upto (front_of a) result }
    {
        let Load {
            press,
            upto,
            work,
            sends,
        } = self;
        match write_work(press, work) {
            Ok(mut press) => {
                let emits = press.emit_all(sends.as_slice());
                Carried::Home {
                    press,
                    upto,
                    lost: emits.lost,
                }
            }
            Err(device) => Carried::Broken { device, upto },
        }
    }
}
