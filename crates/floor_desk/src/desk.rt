//! A floor that callers share, each in a thread of its own.

ghost use Rattle.std.specs.Prelude.{◌≡◌, ◌≢◌, ◌<◌, ◌≤◌, List, [], ◌∷◌, ℕ, IfErr, IfOk, IsOkAnd, MatchResult, length};
ghost use Rattle.ground_io.specs.Counts.{HasCause};
ghost use Rattle.ground_io.specs.Trace.{Adds};
ghost use Rattle.ground_io.specs.declared.entry.Entry.TheVariants.{Synced};
ghost use Rattle.bac_values.specs.Moments.{IsMoment};
ghost use Rattle.bac_values.specs.declared.input.Input.{Input as Entered};
ghost use Rattle.turnstile.specs.Histories.{times};
ghost use Rattle.turnstile.specs.Passes.{IsNewFrom, IsOf, Joins, all_calls, first_pass};
ghost use Rattle.noted.specs.declared.noted.Noted.{Noted as Kept};
ghost use Rattle.alarm_core.specs.Allowed.{Represents};
ghost use Rattle.alarm_core.specs.Sites.{IsSite};
ghost use Rattle.alarm_core.specs.declared.event.Event.{Event as Happening};
ghost use Rattle.alarm_journal.specs.Press.{IsBelow, IsRefusal, IsSmall, Reopens, ReopensSynced, room_of};
ghost use Rattle.alarm_journal.specs.declared.open_fault.OpenFault.TheVariants as refusals;
ghost use Rattle.state_codec.specs.Sizes.{most_text, need};
ghost use Rattle.floor_desk.specs.declared.entry.Entry.{Entry as Step};
ghost use Rattle.floor_desk.specs.declared.entry.Entry.TheVariants.{Looked};
ghost use Rattle.floor_desk.specs.declared.entry.Look.TheVariants.{Refused};
ghost use Rattle.floor_desk.specs.Accounts.{account, entry_for};
ghost use Rattle.state_codec.specs.Work.{FitsPress};
ghost use Rattle.floor_desk.specs.Carrying.{IsCarriedOut, LeftWith, TellsCarried};
ghost use Rattle.floor_desk.specs.Desks.{HasCommitted, HasTaken, MakesEntry, TakesPress, TellsStanding};
ghost use Rattle.state_codec.specs.Emission.{Emits};
ghost use Rattle.floor_desk.specs.Ending.{IsClosed};
ghost use Rattle.state_codec.specs.Keeping.{HoldsHistory, StoodFor, journal_of};
ghost use Rattle.floor_desk.specs.Moves.{IsNotOut};
ghost use Rattle.state_codec.specs.Openings.{IsRefusedFor, OpenedTo};

use crate::entry::{Entry, Look, Ticket};
use crate::faults::{CommitFault, EnterFault};
use crate::floor::Floor;
use crate::heap_floor::HeapFloor;
use crate::load::{Carried, Load};
use alarm_core::{Core, Site};
use alarm_journal::{OpenFault, Press};
use bac_values::Input;
use ground_io::Ground;
use state_codec::open_journal;
use std::alloc::Global;
use std::marker::Model;
use std::sync::Wait;
use turnstile::{NoMemory, Pass, Turnstile, noted_of};

/// What one caller of a desk knows.
pub type DeskPass<G> = Pass<Entry<G>, (Core, Press<G>)>;

/// What is told of an event.
#[derive(Clone, Copy, Debug, PartialEq, Eq, Drop)]
pub enum Standing {
    /// It is written.
    Durable {
        /// All events up to this number are.
        mark: u64,
    },
    /// It may not be written yet.
    NotYet {
        /// All events up to this number are.
        mark: u64,
    },
}

/// What a journal held as its desk was opened.
#[derive(Clone, Copy, Debug, PartialEq, Eq, Drop)]
pub struct Opening {
    /// How many events.
    pub events: u64,
}

/// A floor that threads share.
pub struct Desk<G: Ground> {
    turnstile: Turnstile<HeapFloor<G>>,
}

impl<G: Ground> Model for Desk<G> {
    ghost use Rattle.alarm_core.specs.State.{CoreState};
    ghost use Rattle.alarm_journal.specs.Press.{IsSmall, PressState};
    ghost use Rattle.turnstile.specs.Passes.{Identity};

    ghost Value = { Identity (CoreState × PressState G) };

    ghost view = { λ desk. desk.turnstile };
}

impl<G: Ground> Desk<G> {
    // A desk over a core and a press, and its first pass. Where there is no memory the press's ground comes back.
    fn over(alloc: Global, core: Core, press: Press<G>) -> Result<(Desk<G>, DeskPass<G>), G>
        ensures origin { IfOk result (λ opened. opened.0.origin ≡ (core, press)) }
        ensures first { IfOk result (λ opened. opened.1 ≡ first_pass opened.0) }
        ensures back { IfErr result (λ device. device ≡ press.device) }
    {
        let floor = match HeapFloor::new(alloc, Floor::new(alloc, core, press)) {
            Ok(floor) => floor,
            Err(floor) => return Err(floor.into_ground()),
        };
        match Turnstile::open(alloc, floor) {
            Ok((turnstile, pass)) => Ok((Desk { turnstile }, pass)),
            Err((floor, NoMemory)) => Err(floor.into_inner().into_ground()),
        }
    }

    /// Opens the journal of a site, whose text is given, and a desk that goes on with it, with its first pass. A blank device
    /// is formatted. An `Err` gives the ground back.
    pub fn open(
        alloc: Global,
        site: &Site,
        text: &[u8],
        device: G,
    ) -> Result<(Desk<G>, DeskPass<G>, Opening), (G, OpenFault)>
        requires site { IsSite site.now }
        requires short { length text.now ≤ most_text }
        ensures site { IfOk result (λ opened. opened.0.origin.0.site ≡ site.now) }
        ensures first { IfOk result (λ opened. opened.1 ≡ first_pass opened.0) }
        ensures opening { IfOk result (λ opened. opened.2.events ≡ opened.0.origin.0.events) }

        // A device that is too small isn't opened, whether it tells its octets or not.
        ensures enough { IfOk result (λ _. need site.now (length text.now) ≤ G.size device) }

        // The octets opened, and the core is the state that they lead to.
        ensures leads { IfOk result (λ opened. OpenedTo site.now text.now (G.told device) (G.told opened.0.origin.1.device) opened.0.origin.0) }

        // A history that the device's octets stood for is what the desk's core represents and its press holds.
        ensures represents { (history : List Happening) → IfOk result (λ opened. StoodFor (journal_of site.now text.now) site.now history (G.told device) (G.told opened.0.origin.1.device)
            → Represents opened.0.origin.0 history) }
        ensures holds { (history : List Happening) → IfOk result (λ opened. StoodFor (journal_of site.now text.now) site.now history (G.told device) (G.told opened.0.origin.1.device)
            → HoldsHistory (journal_of site.now text.now) site.now history opened.0.origin.1.layout (G.told opened.0.origin.1.device)) }

        // A crash at any moment from the first sync on, which an `Ok` has done, leaves what opens as the device did before;
        // and nothing goes out.
        ensures reopens { MatchResult result
            (λ opened. ReopensSynced (journal_of site.now text.now) (G.told device) (G.told opened.0.origin.1.device))
            (λ lost. Reopens (journal_of site.now text.now) (G.told device) (G.told lost.0)) }
        ensures quiet { MatchResult result (λ opened. Emits (G.told device) (G.told opened.0.origin.1.device) []) (λ lost. Emits (G.told device) (G.told lost.0) []) }

        // The journal is refused for what its octets are, or its size; a device that is refused was synced, and nothing else.
        // It is never refused where the octets stood for a history.
        ensures refused { IfErr result (λ lost. IsRefusal lost.1 → IsRefusedFor site.now text.now (G.told device) (G.told lost.0) lost.1) }
        ensures unchanged { IfErr result (λ lost. IsRefusal lost.1 → Adds (G.told device) (G.told lost.0) (Synced ∷ [])) }
        ensures small { IfErr result (λ lost. IsSmall (G.size device) lost.1) }
        ensures below { G.size device < need site.now (length text.now) → IfErr result (λ lost. IsBelow (G.size device) (need site.now (length text.now)) lost.1) }
        ensures stands { (history : List Happening) → IfErr result (λ lost. StoodFor (journal_of site.now text.now) site.now history (G.told device) (G.told lost.0)
            → IsRefusal lost.1 → ⊥) }
        ensures same { MatchResult result (λ opened. G.size opened.0.origin.1.device ≡ G.size device) (λ lost. G.size lost.0 ≡ G.size device) }
        ensures emitted { MatchResult result (λ opened. G.emit_faults opened.0.origin.1.device ≡ G.emit_faults device) (λ lost. G.emit_faults lost.0 ≡ G.emit_faults device) }
        ensures cause { MatchResult result
            (λ opened. G.disk_faults opened.0.origin.1.device ≡ G.disk_faults device)
            (λ lost. HasCause (G.disk_faults device) (G.disk_faults lost.0) (lost.1 ≡ refusals.DiskFault)) }
        // A call of the device that failed is told as that, and not as want of memory.
        ensures unhidden { IfErr result (λ lost. lost.1 ≢ refusals.DiskFault → G.disk_faults lost.0 ≡ G.disk_faults device) }
    {
        let (press, core, _opened) = match open_journal(alloc, site, text, device) {
            Ok(opened) => opened,
            Err((device, fault)) => return Err((device, fault)),
        };
        let opening = Opening {
            events: core.events(),
        };
        match Desk::over(alloc, core, press) {
            Ok((desk, pass)) => Ok((desk, pass, opening)),
            Err(device) => Err((device, OpenFault::NoMemory)),
        }
    }

    /// Takes an input at a moment. The entry of this call tells what was answered.
    pub fn enter<R: Wait>(
        &self,
        rt: &R,
        alloc: Global,
        pass: DeskPass<G>,
        moment: u64,
        input: Input,
    ) -> (DeskPass<G>, Result<Ticket, EnterFault>)
        requires here { IsOf self.now pass }
        requires moment { IsMoment moment }
        ensures here { IsOf self.now result.0 }
        ensures entered { (memo : Kept Entered) × (memo.value ≡ input) × MakesEntry G.told G.size G.disk_faults G.emit_faults self.now.origin pass result.0 (entry_for memo moment result.1) }
    {
        self.offer(rt, alloc, pass, moment, &input)
    }

    /// Takes an input at a moment, as `enter` does. The caller keeps it, and may offer it again.
    pub(crate) fn offer<R: Wait>(
        &self,
        rt: &R,
        alloc: Global,
        pass: DeskPass<G>,
        moment: u64,
        input: &Input,
    ) -> (DeskPass<G>, Result<Ticket, EnterFault>)
        requires here { IsOf self.now pass }
        requires moment { IsMoment moment }
        ensures here { IsOf self.now result.0 }
        ensures entered { (memo : Kept Entered) × (memo.value ≡ input.now) × MakesEntry G.told G.size G.disk_faults G.emit_faults self.now.origin pass result.0 (entry_for memo moment result.1) }
    {
        let memo = noted_of(input);
        let mut turn = self.turnstile.take(rt, pass);
        let answer = turn.value.admit(alloc, moment, input);
        let entry = Entry::of(memo, moment, answer);
        (self.turnstile.give(turn, &entry), answer)
    }

    // The press leaves, where it is at home and something is pending.
    fn take_press<R: Wait>(
        &self,
        rt: &R,
        alloc: Global,
        pass: DeskPass<G>,
    ) -> (DeskPass<G>, Result<Load<G>, CommitFault>)
        requires here { IsOf self.now pass }
        ensures here { IsOf self.now result.0 }
        ensures refused { IfErr result.1 (λ fault. MakesEntry G.told G.size G.disk_faults G.emit_faults self.now.origin pass result.0 (Looked (Refused fault))) }
        ensures taken { IfOk result.1 (λ load. TakesPress G.told G.size G.disk_faults G.emit_faults self.now.origin pass result.0 load.upto) }
        ensures lends { IfOk result.1 (λ load. LeftWith G.told self.now.origin (account self.now.origin result.0.seen) load) }
        ensures fits { IfOk result.1 (λ load. FitsPress (room_of load.press.layout) load.press.layout.half load.work) }
    {
        let mut turn = self.turnstile.take(rt, pass);
        match turn.value.lend(alloc, turn.place) {
            Ok(load) => {
                let entry = Entry::Taken { upto: load.upto };
                (self.turnstile.give(turn, &entry), Ok(load))
            }
            Err(fault) => {
                let entry = Entry::Looked(Look::Refused(fault));
                (self.turnstile.give(turn, &entry), Err(fault))
            }
        }
    }

    // The press that this pass took comes back, or what is left of it.
    fn return_press<R: Wait>(&self, rt: &R, pass: DeskPass<G>, carried: Carried<G>) -> DeskPass<G>
        requires here { IsOf self.now pass }
        requires taken { (upto : ℕ) × HasTaken self.now.origin pass upto × IsCarriedOut G.told G.size G.disk_faults G.emit_faults self.now.origin (account self.now.origin pass.seen) upto (account self.now.origin pass.seen).taken carried }
        ensures here { IsOf self.now result }
        ensures adds { (entry : Step G) × TellsCarried carried entry × MakesEntry G.told G.size G.disk_faults G.emit_faults self.now.origin pass result entry }
    {
        let entry = carried.entry();
        let mut turn = self.turnstile.take(rt, pass);
        turn.value.bring(turn.place, carried);
        self.turnstile.give(turn, &entry)
    }

    /// Writes all that is pending and then emits what is owed, without the turn. `Ok` tells the number of the last event that
    /// is written, and the pass knows that the mark isn't below it.
    pub fn commit<R: Wait>(
        &self,
        rt: &R,
        alloc: Global,
        pass: DeskPass<G>,
    ) -> (DeskPass<G>, Result<u64, CommitFault>)
        requires here { IsOf self.now pass }
        ensures here { IsOf self.now result.0 }
        ensures commits { HasCommitted G.told G.size G.disk_faults G.emit_faults self.now.origin pass result.0 result.1 }
    {
        let (pass, load) = self.take_press(rt, alloc, pass);
        let load = match load {
            Ok(load) => load,
            Err(fault) => return (pass, Err(fault)),
        };
        match load.carry_out() {
            Carried::Home { press, upto, lost } => {
                let pass = self.return_press(rt, pass, Carried::Home { press, upto, lost });
                (self.turnstile.raise_mark(pass, upto), Ok(upto))
            }
            Carried::Broken { device, upto } => {
                let pass = self.return_press(rt, pass, Carried::Broken { device, upto });
                (pass, Err(CommitFault::DiskFault))
            }
        }
    }

    /// Whether the event of a ticket is written, as far as the mark tells. It never waits.
    pub fn standing(&self, pass: DeskPass<G>, ticket: &Ticket) -> (DeskPass<G>, Standing)
        requires here { IsOf self.now pass }
        ensures here { IsOf self.now result.0 }
        ensures told { TellsStanding ticket.now.number pass result.0 result.1 }
    {
        let (pass, mark) = self.turnstile.load_mark(pass);
        if ticket.number <= mark {
            (pass, Standing::Durable { mark })
        } else {
            (pass, Standing::NotYet { mark })
        }
    }

    /// The pass as it was, but that one more was split off from it, and that new one.
    pub fn split(
        &self,
        pass: DeskPass<G>,
    ) -> Result<(DeskPass<G>, DeskPass<G>), (DeskPass<G>, NoMemory)>
        requires here { IsOf self.now pass }
        ensures same { IsOkAnd result (λ both. both.0 ≡ record pass { split_off = both.1.number ∷ pass.split_off }) }
        ensures new { IsOkAnd result (λ both. IsNewFrom pass both.1) }
        ensures other { IsOkAnd result (λ both. times both.1.number (all_calls pass) ≡ 0) }
    {
        self.turnstile.split(pass)
    }

    /// One pass of two.
    pub fn join(&self, keep: DeskPass<G>, ended: DeskPass<G>) -> DeskPass<G>
        requires keep { IsOf self.now keep }
        requires ended { IsOf self.now ended }
        ensures joins { Joins keep ended result }
    {
        self.turnstile.join(keep, ended)
    }

    /// Ends the desk, once the press isn't out. What comes back stands for a history that has all calls of the pass.
    pub fn close<R: Wait>(self, rt: &R, pass: DeskPass<G>) -> Floor<G>
        requires here { IsOf self pass }
        ensures origin { result.origin ≡ self.origin }
        ensures closed { IsClosed G.told G.size G.disk_faults G.emit_faults pass result }
        ensures home { IsNotOut result.spot }
    {
        let mut pass = pass;
        for _ in rt.forever() {
            let turn = self.turnstile.take(rt, pass);
            if turn.value.is_out() {
                pass = self.turnstile.give(turn, &Entry::Looked(Look::Closing));
            } else {
                let Desk { turnstile } = self;
                let next = turn.place;
                return turnstile.close(turn).into_inner().ended_at(next);
            }
        }
        unreachable!()
    }
}
