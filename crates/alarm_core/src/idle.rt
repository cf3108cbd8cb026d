//! Whether a tick would be nothing.
ghost use Rattle.std.specs.Prelude.{◌≡◌, ◌↔◌, ◌<◌, ◌+◌, ◌∷◌, [], List, if◌then◌else◌, IsTrue};
ghost use Rattle.bac_values.specs.Moments.{IsMoment};
ghost use Rattle.alarm_core.specs.declared.event.Event.{Event as Happening};
ghost use Rattle.alarm_core.specs.Allowed.{Represents};
ghost use Rattle.alarm_core.specs.CoreSteps.{next_transitions};
ghost use Rattle.alarm_core.specs.History.{raised, tick_at, transitions_of};

use crate::evaluation_count::counted_in;
use crate::taking::raised_moment;
use crate::{Core, EvaluationCount};
use event_machine::Steps;
use std::marker::Brand;
use std::sync::ledger::{Blank, Ledger};

impl Core {
    /// Whether no object would move at the look of a moment, raised to the last one. To see it, objects that are due are
    /// evaluated, up to one that would move, and each evaluation is a step: after a history there is one where an object would
    /// move, and none else.
    pub fn is_still<L: Ledger>(&self, moment: u64, steps: &mut Steps<L>) -> bool
        requires moment { IsMoment moment }
        ensures still { IsTrue result ↔ (next_transitions (raised self.now.last_moment (tick_at moment)) self.now ≡ []) }
        ensures history { (history : List Happening) → Represents self.now history →
            (IsTrue result ↔ (transitions_of self.now.site (raised self.now.last_moment (tick_at moment) ∷ history) ≡ transitions_of self.now.site history)) }
        ensures counts { (history : List Happening) → Represents self.now history → steps.new ≡ steps.old + (if result then 0 else 1) }
    {
        let at = self.at(raised_moment(moment, self.last_moment));
        self.detections.are_still(&at, steps)
    }

    // The same in a ledger of its own.
    fn is_still_alone<L: Ledger>(&self, moment: u64, blank: Blank) -> (bool, EvaluationCount)
        requires name { blank.name ≡ L.name }
        requires parts { blank.parts ≡ L.parts }
        requires some { 0 < blank.parts }
        requires moment { IsMoment moment }
        ensures still { IsTrue result.0 ↔ (next_transitions (raised self.now.last_moment (tick_at moment)) self.now ≡ []) }
        ensures history { (history : List Happening) → Represents self.now history →
            (IsTrue result.0 ↔ (transitions_of self.now.site (raised self.now.last_moment (tick_at moment) ∷ history) ≡ transitions_of self.now.site history)) }
        ensures counts { (history : List Happening) → Represents self.now history → result.1.value ≡ (if result.0 then 0 else 1) }
    {
        let mut steps = Steps::<L>::new(blank);
        let still = self.is_still(moment, &mut steps);
        (still, counted_in(&steps))
    }

    /// Whether no object would move at the look of a moment, raised to the last one, as `is_still` tells it in a ledger of its
    /// own, and how many evaluations that took.
    pub fn idle_tick_counted(&self, moment: u64) -> (bool, EvaluationCount)
        requires moment { IsMoment moment }
        ensures still { IsTrue result.0 ↔ (next_transitions (raised self.now.last_moment (tick_at moment)) self.now ≡ []) }
        ensures history { (history : List Happening) → Represents self.now history →
            (IsTrue result.0 ↔ (transitions_of self.now.site (raised self.now.last_moment (tick_at moment) ∷ history) ≡ transitions_of self.now.site history)) }
        ensures counts { (history : List Happening) → Represents self.now history → result.1.value ≡ (if result.0 then 0 else 1) }
    {
        self.is_still_alone::<Brand>(moment, Blank::new(1))
    }

    /// The same, for those who don't ask how many evaluations that took.
    pub fn idle_tick(&self, moment: u64) -> bool
        requires moment { IsMoment moment }
        ensures still { IsTrue result ↔ (next_transitions (raised self.now.last_moment (tick_at moment)) self.now ≡ []) }
        ensures history { (history : List Happening) → Represents self.now history →
            (IsTrue result ↔ (transitions_of self.now.site (raised self.now.last_moment (tick_at moment) ∷ history) ≡ transitions_of self.now.site history)) }
    {
        let (still, _count) = self.idle_tick_counted(moment);
        still
    }
}
