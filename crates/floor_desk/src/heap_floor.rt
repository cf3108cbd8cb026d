//! A floor on the heap, as threads share it.

ghost use Rattle.std.specs.Prelude.{◌≡◌, ◌<◌, ◌+◌, ◌^◌, ℕ, List, [], ◌∷◌, ◌++◌, IfErr, IfOk, MatchBool, Some, length};
ghost use Rattle.alarm_journal.specs.Press.{room_of};
ghost use Rattle.bac_values.specs.Moments.{IsMoment};
ghost use Rattle.bac_values.specs.declared.input.Input.{Input as Entered};
ghost use Rattle.noted.specs.declared.noted.Noted.{Noted as Kept};
ghost use Rattle.state_codec.specs.Work.{FitsPress};
ghost use Rattle.floor_desk.specs.declared.entry.Entry.{Entry as Step};
ghost use Rattle.floor_desk.specs.declared.entry.Entry.TheVariants.{Looked, Taken};
ghost use Rattle.floor_desk.specs.declared.entry.Look.TheVariants.{Refused};
ghost use Rattle.floor_desk.specs.declared.floor.Spot.TheVariants.{Out};
ghost use Rattle.floor_desk.specs.Accounts.{Loan, account, entry_for};
ghost use Rattle.floor_desk.specs.Carrying.{IsCarriedOut, Lends, TellsCarried};
ghost use Rattle.floor_desk.specs.Moves.{IsNotOut};
ghost use Rattle.floor_desk.specs.Standing.{FloorStands};

use crate::entry::{Entry, Ticket};
use crate::faults::{CommitFault, EnterFault};
use crate::floor::Floor;
use crate::load::{Carried, Load};
use alarm_core::Core;
use alarm_journal::Press;
use bac_values::Input;
use ground_io::Ground;
use std::alloc::Global;
use std::marker::Model;
use turnstile::Chronicle;

/// A floor that lies on the heap, so that a turn hands on its place alone, and not all that it has.
#[derive(Drop)]
pub struct HeapFloor<G: Ground> {
    floor: Box<Floor<G>>,
}

impl<G: Ground> Model for HeapFloor<G> {
    ghost use Rattle.floor_desk.specs.States.{FloorState};

    ghost Value = { FloorState G };

    ghost view = { λ heap. heap.floor.value };
}

impl<G: Ground> HeapFloor<G> {
    /// The floor on the heap, or as it was where there is no memory.
    pub(crate) fn new(alloc: Global, floor: Floor<G>) -> Result<HeapFloor<G>, Floor<G>>
        ensures same { IfOk result (λ heap. heap ≡ floor) }
        ensures back { IfErr result (λ back. back ≡ floor) }
    {
        match Box::new(alloc, floor) {
            Ok(floor) => Ok(HeapFloor { floor }),
            Err(failed) => Err(failed.value),
        }
    }

    /// The floor takes an input at a moment.
    pub(crate) fn admit(
        &mut self,
        alloc: Global,
        moment: u64,
        input: &Input,
    ) -> Result<Ticket, EnterFault>
        requires moment { IsMoment moment }
        ensures stands { (h : List (ℕ × Step G)) (n : ℕ) (memo : Kept Entered) → memo.value ≡ input.now → FloorStands G.told G.size G.disk_faults G.emit_faults self.old h → FloorStands G.told G.size G.disk_faults G.emit_faults self.new (h ++ (n, entry_for memo moment result) ∷ []) }
        ensures origin { self.new.origin ≡ self.old.origin }
    {
        self.floor.admit(alloc, moment, input)
    }

    /// The press leaves the floor, with all that is pending, and the entry of this turn stands at this place.
    pub(crate) fn lend(&mut self, alloc: Global, place: u64) -> Result<Load<G>, CommitFault>
        ensures lent { IfOk result (λ load. (h : List (ℕ × Step G)) (n : ℕ) → place ≡ length h + 1 → FloorStands G.told G.size G.disk_faults G.emit_faults self.old h
            → Lends G.told self.old.origin (account self.old.origin h) load × FloorStands G.told G.size G.disk_faults G.emit_faults self.new (h ++ (n, Taken load.upto) ∷ [])) }
        ensures fits { IfOk result (λ load. FitsPress (room_of load.press.layout) load.press.layout.half load.work) }
        ensures refused { IfErr result (λ fault. (h : List (ℕ × Step G)) (n : ℕ) → FloorStands G.told G.size G.disk_faults G.emit_faults self.old h → FloorStands G.told G.size G.disk_faults G.emit_faults self.new (h ++ (n, Looked (Refused fault)) ∷ [])) }
        ensures origin { self.new.origin ≡ self.old.origin }
    {
        self.floor.lend(alloc, place)
    }

    /// The press comes back to the floor, or what is left of it, and the entry of this turn stands at this place.
    pub(crate) fn bring(&mut self, place: u64, carried: Carried<G>)
        requires out { (at : ℕ) × (upto : ℕ) × (self.old.spot ≡ Out at upto) }
        ensures stands { (h : List (ℕ × Step G)) (loan : Loan) (entry : Step G) → place ≡ length h + 1 → TellsCarried carried entry → FloorStands G.told G.size G.disk_faults G.emit_faults self.old h → (account self.old.origin h).loan ≡ Some loan
            → IsCarriedOut G.told G.size G.disk_faults G.emit_faults self.old.origin (account self.old.origin h) loan.upto (account self.old.origin h).taken carried → FloorStands G.told G.size G.disk_faults G.emit_faults self.new (h ++ (loan.number, entry) ∷ []) }
        ensures origin { self.new.origin ≡ self.old.origin }
    {
        self.floor.bring(place, carried);
    }

    /// Whether the press is out.
    pub(crate) fn is_out(&self) -> bool
        ensures out { MatchBool result ((at : ℕ) × (upto : ℕ) × (self.now.spot ≡ Out at upto)) (IsNotOut self.now.spot) }
    {
        self.floor.is_out()
    }

    /// The floor.
    pub(crate) fn into_inner(self) -> Floor<G>
        ensures same { result ≡ self }
    {
        Box::into_inner(self.floor)
    }
}

impl<G: Ground> Chronicle for HeapFloor<G> {
    ghost use Rattle.floor_desk.specs.Accounts.{Licenses, Licenses_more};
    ghost use Rattle.floor_desk.specs.Standing.{FloorStands};

    type Entry = Entry<G>;

    type Origin = (Core, Press<G>);

    ghost stands = { λ floor history. FloorStands G.told G.size G.disk_faults G.emit_faults floor history };

    ghost origin = { λ floor. floor.origin };

    ghost licenses = { Licenses };

    ghost licenses_more = { Licenses_more };
}
