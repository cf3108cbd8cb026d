//! A follower: it takes a leader's packets into a journal of its own.

ghost use Rattle.std.specs.Prelude.{◌≡◌, ◌<◌, ◌+◌, ◌⊎◌, List, [], length, MatchResult, IfErr, IfOk, None, ⊤};
ghost use Rattle.ground_io.specs.Counts.{HasCause};
ghost use Rattle.alarm_core.specs.Allowed.{Represents};
ghost use Rattle.alarm_core.specs.declared.event.Event.{Event as Happening};
ghost use Rattle.alarm_journal.specs.Emissions.{EmitsAll};
ghost use Rattle.alarm_journal.specs.Journal.{Content};
ghost use Rattle.alarm_journal.specs.Journal.{Site as Journal};
ghost use Rattle.alarm_journal.specs.Press.{Throughout};
ghost use Rattle.state_codec.specs.Emission.{Emits};
ghost use Rattle.state_codec.specs.Keeping.{Commits, HoldsHistory, Rests};
ghost use Rattle.standby.specs.Followers.{HasRoomyAreas, following_of};
ghost use Rattle.standby.specs.Once.{IsAnsweredOnce};
ghost use Rattle.standby.specs.Leads.{IsTaken, LeadsOn, MayBe, MayBeTaken, MayLeadOn};
ghost use Rattle.standby.specs.TakeFaults.{Caused, IfDiskFault, KeepsFollower};
ghost use Rattle.standby.specs.Takes.{Takes};

use crate::gathering::Gathered;
use crate::judging::{Judged, judge};
use crate::{Took, answers_once};
use alarm_core::{Core, Site, site_fits};
use alarm_journal::Press;
use bac_values::{NoMemory, Send};
use ground_io::Ground;
use state_codec::write_work;
use std::alloc::Global;
use std::marker::Model;

/// Why a packet isn't taken.
#[derive(Drop)]
pub enum TakeFault<G: Ground> {
    /// Memory was refused, and the follower is as it was.
    NoMemory {
        /// The follower.
        follower: Follower<G>,
    },
    /// The disk failed. The device is opened again before anything else is done with it.
    DiskFault {
        /// The ground.
        device: G,
    },
}

/// A follower: the core that its journal stands for, the press that writes the journal, and the snapshot that it gathers.
#[derive(Drop)]
pub struct Follower<G: Ground> {
    core: Core,
    press: Press<G>,
    gathering: Option<Gathered>,
}

impl<G: Ground> Model for Follower<G> {
    ghost use Rattle.standby.specs.Followers.{FollowerState, HasRoomyAreas};

    ghost Value = { FollowerState G };

    ghost view = { λ follower. record { core = follower.core; press = follower.press; gathering = follower.gathering } };

    ghost invariant = { λ follower. HasRoomyAreas follower.core.site follower.press.layout };
}

/// To a follower whose core represents a history the table gives one answer. The call does nothing.
fn answers_once_to(core: &Core)
    ensures once { (history : List Happening) → Represents core.now history → MayBe core.now.site history → IsAnsweredOnce core.now }
{
    site_fits(core.site());
    answers_once();
}

impl<G: Ground> Follower<G> {
    // A follower of these parts.
    fn of(core: Core, press: Press<G>, gathering: Option<Gathered>) -> Follower<G>
        requires areas { HasRoomyAreas core.site press.layout }
        ensures parts { result ≡ record { core = core; press = press; gathering = gathering } }
    {
        Follower {
            core,
            press,
            gathering,
        }
    }

    /// A follower that goes on from a journal and its core. It gathers nothing.
    pub fn open(site: &Site, press: Press<G>, core: Core) -> Follower<G>
        requires site { core.site ≡ site.now }
        requires areas { HasRoomyAreas site.now press.layout }
        ensures opened { result ≡ record { core = core; press = press; gathering = None } }
    {
        let _site = site;
        Follower::of(core, press, None)
    }

    /// Takes a packet: its new events are on the disk before the answer `Taken` is there, and its whole snapshot too.
    pub fn take(self, alloc: Global, packet: &[u8]) -> Result<(Follower<G>, Took), TakeFault<G>>
        // The answer, and how far the follower has come then, are those of the table. A follower to which memory was refused
        // is as it was.
        ensures table { IfOk result (λ taken. Takes (following_of self) packet.now taken.1 (following_of taken.0)) }
        ensures same { IfErr result (KeepsFollower self) }
        ensures site { IfOk result (λ taken. taken.0.core.site ≡ self.core.site) }

        // The core and the press stand for the history to which the packet leads.
        ensures represents { (before after : List Happening) → Represents self.core before → MayBe self.core.site before → MayBe self.core.site after
            → IfOk result (λ taken. LeadsOn (following_of self) packet.now taken.1 (following_of taken.0) before after → Represents taken.0.core after) }
        ensures holds { (journal : Journal) (before after : List Happening) → HoldsHistory journal self.core.site before self.press.layout (G.told self.press.device)
            → Represents self.core before → MayBe self.core.site before → MayBe self.core.site after
            → IfOk result (λ taken. LeadsOn (following_of self) packet.now taken.1 (following_of taken.0) before after
            → HoldsHistory journal self.core.site after taken.0.press.layout (G.told taken.0.press.device)) }

        // A crash at any moment leaves the history before or the one to which the packet leads, where the disk failed too.
        ensures keeps { (journal : Journal) (before after : List Happening) → HoldsHistory journal self.core.site before self.press.layout (G.told self.press.device)
            → Represents self.core before → MayBe self.core.site before → MayBe self.core.site after
            → IfOk result (λ taken. LeadsOn (following_of self) packet.now taken.1 (following_of taken.0) before after
            → Commits journal self.core.site before after (G.told self.press.device) (G.told taken.0.press.device)) }
        ensures breaks { (journal : Journal) (before after : List Happening) → HoldsHistory journal self.core.site before self.press.layout (G.told self.press.device)
            → Represents self.core before → MayBe self.core.site before → MayBe self.core.site after → MayLeadOn (following_of self) packet.now before after
            → IfErr result (λ fault. IfDiskFault fault (λ device. Commits journal self.core.site before after (G.told self.press.device) (G.told device))) }

        // The disk fails only at a packet that the table takes.
        ensures tried { IfErr result (λ fault. IfDiskFault fault (λ device. MayBeTaken (following_of self) packet.now)) }

        // Nothing is written where nothing is taken, and nothing is ever sent.
        ensures unwritten { IfOk result (λ taken. IsTaken taken.1 ⊎ (taken.0.press ≡ self.press)) }
        ensures quiet { MatchResult result
            (λ taken. Emits (G.told self.press.device) (G.told taken.0.press.device) [])
            (λ fault. IfDiskFault fault (λ device. Emits (G.told self.press.device) (G.told device) [])) }

        ensures cause { MatchResult result
            (λ taken. G.disk_faults taken.0.press.device ≡ G.disk_faults self.press.device)
            (Caused G.disk_faults self.press.device) }
        ensures size { MatchResult result
            (λ taken. G.size taken.0.press.device ≡ G.size self.press.device)
            (λ fault. IfDiskFault fault (λ device. G.size device ≡ G.size self.press.device)) }
        ensures emitted { MatchResult result
            (λ taken. G.emit_faults taken.0.press.device ≡ G.emit_faults self.press.device)
            (λ fault. IfDiskFault fault (λ device. G.emit_faults device ≡ G.emit_faults self.press.device)) }
    {
        answers_once_to(&self.core);
        let Follower {
            core,
            press,
            mut gathering,
        } = self;
        match judge(alloc, &core, &mut gathering, &press, packet) {
            Ok(Judged::Answers(took)) => Ok((Follower::of(core, press, gathering), took)),
            Ok(Judged::Writes { core, work }) => match write_work(press, work) {
                Ok(press) => {
                    let events = core.events();
                    let follower = Follower::of(core, press, gathering);
                    Ok((follower, Took::Taken { events }))
                }
                Err(device) => Err(TakeFault::DiskFault { device }),
            },
            Err(NoMemory) => Err(TakeFault::NoMemory {
                follower: Follower::of(core, press, gathering),
            }),
        }
    }

    /// Emits each of these by the follower's ground, in order. How far the follower has come, and what its journal holds,
    /// stay as they are.
    pub fn emit_all(&mut self, sends: &[Send]) -> alarm_journal::Emits
        ensures core { self.new.core ≡ self.old.core }
        ensures gathering { self.new.gathering ≡ self.old.gathering }
        ensures layout { self.new.press.layout ≡ self.old.press.layout }
        ensures told { EmitsAll sends.now result.sent result.lost (G.told self.old.press.device) (G.told self.new.press.device) }
        ensures all { result.sent + result.lost ≡ length sends.now }
        ensures cause { HasCause (G.emit_faults self.old.press.device) (G.emit_faults self.new.press.device) (0 < result.lost) }
        ensures uncounted { result.lost ≡ 0 → G.emit_faults self.new.press.device ≡ G.emit_faults self.old.press.device }
        ensures disk { G.disk_faults self.new.press.device ≡ G.disk_faults self.old.press.device }
        ensures size { G.size self.new.press.device ≡ G.size self.old.press.device }

        // Each image that a crash may leave, now or at any moment of the emissions, opens to what stood before them.
        ensures rests { (journal : Journal) (content : Content) → Rests journal self.old.press.layout (G.told self.old.press.device) content
            → Rests journal self.new.press.layout (G.told self.new.press.device) content }
        ensures any_moment { (journal : Journal) (content : Content) → Rests journal self.old.press.layout (G.told self.old.press.device) content
            → Throughout journal content (G.told self.old.press.device) (G.told self.new.press.device) }
    {
        self.press.emit_all(sends)
    }

    /// How many events the follower has, all of them on its disk.
    pub fn events(&self) -> u64
        ensures events { result ≡ self.now.core.events }
    {
        self.core.events()
    }

    /// The press and the core, with which the journal goes on.
    pub fn take_over(self) -> (Press<G>, Core)
        ensures press { result.0 ≡ self.press }
        ensures core { result.1 ≡ self.core }
    {
        let Follower { core, press, .. } = self;
        (press, core)
    }
}
