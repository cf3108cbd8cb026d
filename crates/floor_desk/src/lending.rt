//! The press leaves a floor, and comes back.

ghost use Rattle.std.specs.Prelude.{◌≡◌, ◌≢◌, ◌<◌, ◌+◌, ◌-◌, ◌^◌, ℕ, List, [], ◌∷◌, ◌++◌, IfOk, IfErr, Some, Ok, Err, length, min, Result};
ghost use Rattle.alarm_journal.specs.Press.{room_of};
ghost use Rattle.floor_desk.specs.declared.entry.Entry.{Entry as Step};
ghost use Rattle.floor_desk.specs.declared.entry.Entry.TheVariants.{Looked, Taken};
ghost use Rattle.floor_desk.specs.declared.entry.Look.TheVariants.{Refused};
ghost use Rattle.floor_desk.specs.declared.faults.CommitFault.TheVariants as commits;
ghost use Rattle.floor_desk.specs.declared.floor.Spot.TheVariants.{Home, Out};
ghost use Rattle.floor_desk.specs.declared.load.Load.{Load as Lent};
ghost use Rattle.floor_desk.specs.Accounts.{Loan, account, front_of};
ghost use Rattle.state_codec.specs.Work.{FitsPress};
ghost use Rattle.floor_desk.specs.Carrying.{IsCarriedOut, Lends, TellsCarried};
ghost use Rattle.floor_desk.specs.Ending.{IsLastCommit};
ghost use Rattle.floor_desk.specs.Moves.{Hinders, IsNotOut};
ghost use Rattle.floor_desk.specs.MovesSteps.{IsLentBy};
ghost use Rattle.floor_desk.specs.Prefixes.{capped};
ghost use Rattle.floor_desk.specs.Standing.{FloorStands};

use crate::faults::CommitFault;
use crate::floor::{Floor, Spot};
use crate::load::{Carried, Load};
use bac_values::NoMemory;
use ground_io::Ground;
use state_codec::work_of;
use std::alloc::Global;
use std::mem;

/// No press leaves at so late a place of the history: it is as good as no memory for it.
const MOST_PLACES: u64 = 1 << 63;

impl<G: Ground> Floor<G> {
    // The press leaves, with all that is pending; or why it doesn't.
    fn lend_now(&mut self, alloc: Global, place: u64) -> Result<Load<G>, CommitFault>
        ensures lent { IfOk result (λ load. IsLentBy self.old self.new place load) }
        ensures few { IfOk result (λ load. place < 2 ^ 63) }
        ensures fits { IfOk result (λ load. FitsPress (room_of load.press.layout) load.press.layout.half load.work) }
        ensures hindered { IfErr result (λ fault. (self.new ≡ self.old) × Hinders self.old fault) }
    {
        let press = match &self.spot {
            Spot::Home(press) => press,
            Spot::Out { place, upto } => {
                return Err(CommitFault::Busy {
                    at: *place,
                    upto: *upto,
                });
            }
            Spot::Broken { place, .. } => return Err(CommitFault::Stopped { at: *place }),
        };
        let upto = self.core.events();
        if self.pending.calls == 0 {
            return Err(CommitFault::Nothing { upto });
        }
        if place >= MOST_PLACES {
            return Err(CommitFault::NoMemory);
        }
        let work = match work_of(alloc, &self.core, press, self.pending.records.as_slice()) {
            Ok(work) => work,
            Err(NoMemory) => return Err(CommitFault::NoMemory),
        };
        let sends = match self.pending.take_sends(alloc) {
            Ok(sends) => sends,
            Err(NoMemory) => return Err(CommitFault::NoMemory),
        };
        self.pending.records.clear();
        self.pending.calls = 0;
        let spot = mem::replace(&mut self.spot, Spot::Out { place, upto });
        let Spot::Home(press) = spot else {
            unreachable!()
        };
        Ok(Load {
            press,
            upto,
            work,
            sends,
        })
    }

    /// The press leaves, with all that is pending, and the entry of this turn stands at this place.
    pub fn lend(&mut self, alloc: Global, place: u64) -> Result<Load<G>, CommitFault>
        ensures lent { IfOk result (λ load. (h : List (ℕ × Step G)) (n : ℕ) → place ≡ length h + 1 → FloorStands G.told G.size G.disk_faults G.emit_faults self.old h
            → Lends G.told self.old.origin (account self.old.origin h) load × FloorStands G.told G.size G.disk_faults G.emit_faults self.new (h ++ (n, Taken load.upto) ∷ [])) }
        ensures fits { IfOk result (λ load. FitsPress (room_of load.press.layout) load.press.layout.half load.work) }
        ensures refused { IfErr result (λ fault. (h : List (ℕ × Step G)) (n : ℕ) → FloorStands G.told G.size G.disk_faults G.emit_faults self.old h → FloorStands G.told G.size G.disk_faults G.emit_faults self.new (h ++ (n, Looked (Refused fault)) ∷ [])) }
        ensures out { IfOk result (λ load. self.new.spot ≡ Out place load.upto) }
        ensures few { IfOk result (λ load. place < 2 ^ 63) }
        ensures hinders { IfErr result (λ fault. Hinders self.old fault) }
        ensures same { IfErr result (λ fault. self.new ≡ self.old) }
        ensures origin { self.new.origin ≡ self.old.origin }
    {
        self.lend_now(alloc, place)
    }

    // The press is no longer out, the events up to this one are written, and so many datagrams more were lost.
    fn end_loan(&mut self, spot: Spot<G>, durable: u64, lost: u64)
        requires out { (at : ℕ) × (upto : ℕ) × (self.old.spot ≡ Out at upto) }
        ensures ended { self.new ≡ record self.old { spot = spot; durable = durable; lost = min (self.old.lost + lost) (2 ^ 64 - 1) } }
    {
        self.durable = durable;
        self.lost = self.lost.saturating_add(lost);
        let before = mem::replace(&mut self.spot, spot);
        let Spot::Out { .. } = before else {
            unreachable!()
        };
    }

    /// The press comes back, or what is left of it, and the entry of this turn stands at this place. It takes no memory.
    pub fn bring(&mut self, place: u64, carried: Carried<G>)
        requires out { (at : ℕ) × (upto : ℕ) × (self.old.spot ≡ Out at upto) }
        ensures stands { (h : List (ℕ × Step G)) (loan : Loan) (entry : Step G) → place ≡ length h + 1 → TellsCarried carried entry → FloorStands G.told G.size G.disk_faults G.emit_faults self.old h → (account self.old.origin h).loan ≡ Some loan
            → IsCarriedOut G.told G.size G.disk_faults G.emit_faults self.old.origin (account self.old.origin h) loan.upto (account self.old.origin h).taken carried → FloorStands G.told G.size G.disk_faults G.emit_faults self.new (h ++ (loan.number, entry) ∷ []) }

        // What was carried out of a load that left here fits each longer history in which its loan is open.
        ensures fits { (h between : List (ℕ × Step G)) (n : ℕ) (load : Lent G) (entry : Step G) → place ≡ length ((h ++ (n, Taken load.upto) ∷ []) ++ between) + 1 → TellsCarried carried entry → Lends G.told self.old.origin (account self.old.origin h) load
            → IsCarriedOut G.told G.size G.disk_faults G.emit_faults self.old.origin (account self.old.origin h) load.upto (front_of (account self.old.origin h)) carried
            → FloorStands G.told G.size G.disk_faults G.emit_faults self.old ((h ++ (n, Taken load.upto) ∷ []) ++ between)
            → (account self.old.origin ((h ++ (n, Taken load.upto) ∷ []) ++ between)).loan ≡ Some record { number = n; place = length h + 1; upto = load.upto }
            → FloorStands G.told G.size G.disk_faults G.emit_faults self.new (((h ++ (n, Taken load.upto) ∷ []) ++ between) ++ (n, entry) ∷ []) }
        ensures home { IsNotOut self.new.spot }
        ensures origin { self.new.origin ≡ self.old.origin }
    {
        match carried {
            Carried::Home { press, upto, lost } => self.end_loan(Spot::Home(press), upto, lost),
            Carried::Broken { device, upto: _ } => {
                let durable = self.durable();
                self.end_loan(Spot::Broken { device, place }, durable, 0);
            }
        }
    }

    /// Commits on a floor whose desk was closed, as the pass that closed it would have, and the entries stand from this place
    /// on: writes all that is pending and then emits what is owed. `Ok` tells the number of the last event that is written.
    pub fn settle(self, alloc: Global, place: u64) -> (Floor<G>, Result<u64, CommitFault>)
        requires home { IsNotOut self.spot }
        ensures settled { (h : List (ℕ × Step G)) (n : ℕ) → place ≡ length h + 1 → FloorStands G.told G.size G.disk_faults G.emit_faults self h → IsLastCommit G.told G.size G.disk_faults G.emit_faults self result.0 h n result.1 }
        ensures same { IfErr result.1 (λ fault. fault ≢ commits.DiskFault → result.0 ≡ record self { next = capped (place + 1) }) }
        ensures origin { result.0.origin ≡ self.origin }
        ensures home { IsNotOut result.0.spot }
    {
        let mut floor = self;
        let load = match floor.lend(alloc, place) {
            Ok(load) => load,
            Err(fault) => return (floor.ended_at(place.saturating_add(1)), Err(fault)),
        };
        match load.carry_out() {
            Carried::Home { press, upto, lost } => {
                floor.bring(place + 1, Carried::Home { press, upto, lost });
                (floor.ended_at(place + 2), Ok(upto))
            }
            Carried::Broken { device, upto } => {
                floor.bring(place + 1, Carried::Broken { device, upto });
                (floor.ended_at(place + 2), Err(CommitFault::DiskFault))
            }
        }
    }
}
