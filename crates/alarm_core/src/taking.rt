//! The one way to take an event: its moment is raised to that of the last one, and it is a step, whose evaluations are
//! counted.
ghost use Rattle.std.specs.Prelude.{◌≡◌, ◌<◌, ◌≤◌, ◌+◌, ◌∷◌, ◌++◌, List, Err, Ok, IfOk, OnErr, OnOk, map, max};
ghost use Rattle.bac_values.specs.Limits.{most_events};
ghost use Rattle.bac_values.specs.Moments.{IsMoment};
ghost use Rattle.outbox.specs.Outboxes.{unfinished_in};
ghost use Rattle.alarm_core.specs.declared.event.Act.TheVariants.{Tick};
ghost use Rattle.alarm_core.specs.declared.event.Event.{Event as Happening};
ghost use Rattle.alarm_core.specs.declared.event.StepFault.TheVariants as faults;
ghost use Rattle.alarm_core.specs.Allowed.{IsAllowed, Represents};
ghost use Rattle.alarm_core.specs.CoreSteps.{next_notes, next_sends, next_state, next_transitions};
ghost use Rattle.alarm_core.specs.Deliveries.{notifications_of};
ghost use Rattle.alarm_core.specs.Fits.{FitsEvent};
ghost use Rattle.alarm_core.specs.History.{moved_by, raised, transitions_of};
ghost use Rattle.alarm_core.specs.Moving.{moving_of, touched_of};
ghost use Rattle.alarm_core.specs.Verdicts.{Answers, step_verdict};

use crate::evaluation_count::counted_in;
use crate::{Core, EvaluationCount, Event, Outcome, StepFault, event_fits};
use bac_values::MOST_EVENTS;
use event_machine::Steps;
use std::alloc::Global;
use std::marker::Brand;
use std::sync::ledger::{Blank, Ledger};

/// A moment raised to that of the last event.
pub(crate) fn raised_moment(moment: u64, last: u64) -> u64
    ensures raised { result ≡ max moment last }
    ensures range { IsMoment moment → IsMoment last → IsMoment result }
{
    moment.max(last)
}

impl Core {
    /// An event whose moment is raised to that of the last one, so that it comes after that. Once raised it stays as it is.
    pub fn raised_event(&self, event: Event) -> Event
        requires moment { IsMoment event.moment }
        ensures raised { result ≡ raised self.now.last_moment event }
        ensures moment { IsMoment result.moment }
        ensures not_before { self.now.last_moment ≤ result.moment }
        ensures again { raised self.now.last_moment result ≡ result }
        ensures fits { FitsEvent result }
    {
        let raised = Event {
            moment: raised_moment(event.moment, self.last_moment),
            act: event.act,
        };
        event_fits(&raised);
        raised
    }

    // A step, unless there are as many events as there may be.
    fn step_once<L: Ledger>(
        &mut self,
        alloc: Global,
        event: &Event,
        steps: &mut Steps<L>,
    ) -> Result<Outcome, StepFault>
        requires moment { IsMoment event.now.moment }
        requires allowed { IsAllowed self.old event.now.act }
        ensures state { OnOk result (self.new ≡ next_state (raised self.old.last_moment event.now) self.old) }
        ensures moment { IfOk result (λ outcome. outcome.moment ≡ max event.now.moment self.old.last_moment) }
        ensures moves { IfOk result (λ outcome. outcome.moves ≡ map moved_by (next_transitions (raised self.old.last_moment event.now) self.old)) }
        ensures sends { IfOk result (λ outcome. outcome.sends ≡ next_sends (raised self.old.last_moment event.now) self.old) }
        ensures same { OnErr result (self.new ≡ self.old) }
        ensures verdict { Answers result (step_verdict (raised self.old.last_moment event.now) self.old) }
        ensures many { most_events ≤ self.old.events → result ≡ Err faults.NoMemory }
        ensures represents { (history : List Happening) → Represents self.old history →
            OnOk result (Represents self.new (raised self.old.last_moment event.now ∷ history)) }
        ensures transitions { (history : List Happening) → Represents self.old history →
            transitions_of self.old.site (raised self.old.last_moment event.now ∷ history)
            ≡ transitions_of self.old.site history ++ next_transitions (raised self.old.last_moment event.now) self.old }
        ensures notifications { (history : List Happening) → Represents self.old history →
            notifications_of self.old.site (raised self.old.last_moment event.now ∷ history)
            ≡ notifications_of self.old.site history ++ next_notes (raised self.old.last_moment event.now) self.old }
        ensures ticks_fit { (history : List Happening) → Represents self.old history → unfinished_in self.old.outbox.posts ≡ 0 →
            event.now.act ≡ Tick → step_verdict (raised self.old.last_moment event.now) self.old ≡ Ok tt }
        ensures counts { (history : List Happening) → Represents self.old history →
            steps.new ≤ steps.old + (moving_of self.old.site (raised self.old.last_moment event.now) history + touched_of self.old.site (raised self.old.last_moment event.now) history) }
    {
        if self.events >= MOST_EVENTS {
            return Err(StepFault::NoMemory);
        }
        self.step(alloc, event, steps)
    }

    // The same in a ledger of its own.
    fn take_alone<L: Ledger>(
        &mut self,
        alloc: Global,
        event: &Event,
        blank: Blank,
    ) -> (Result<Outcome, StepFault>, EvaluationCount)
        requires name { blank.name ≡ L.name }
        requires parts { blank.parts ≡ L.parts }
        requires some { 0 < blank.parts }
        requires moment { IsMoment event.now.moment }
        requires allowed { IsAllowed self.old event.now.act }
        ensures state { OnOk result.0 (self.new ≡ next_state (raised self.old.last_moment event.now) self.old) }
        ensures moment { IfOk result.0 (λ outcome. outcome.moment ≡ max event.now.moment self.old.last_moment) }
        ensures moves { IfOk result.0 (λ outcome. outcome.moves ≡ map moved_by (next_transitions (raised self.old.last_moment event.now) self.old)) }
        ensures sends { IfOk result.0 (λ outcome. outcome.sends ≡ next_sends (raised self.old.last_moment event.now) self.old) }
        ensures same { OnErr result.0 (self.new ≡ self.old) }
        ensures verdict { Answers result.0 (step_verdict (raised self.old.last_moment event.now) self.old) }
        ensures many { most_events ≤ self.old.events → result.0 ≡ Err faults.NoMemory }
        ensures represents { (history : List Happening) → Represents self.old history →
            OnOk result.0 (Represents self.new (raised self.old.last_moment event.now ∷ history)) }
        ensures transitions { (history : List Happening) → Represents self.old history →
            transitions_of self.old.site (raised self.old.last_moment event.now ∷ history)
            ≡ transitions_of self.old.site history ++ next_transitions (raised self.old.last_moment event.now) self.old }
        ensures notifications { (history : List Happening) → Represents self.old history →
            notifications_of self.old.site (raised self.old.last_moment event.now ∷ history)
            ≡ notifications_of self.old.site history ++ next_notes (raised self.old.last_moment event.now) self.old }
        ensures ticks_fit { (history : List Happening) → Represents self.old history → unfinished_in self.old.outbox.posts ≡ 0 →
            event.now.act ≡ Tick → step_verdict (raised self.old.last_moment event.now) self.old ≡ Ok tt }
        ensures counts { (history : List Happening) → Represents self.old history →
            result.1.value ≤ (moving_of self.old.site (raised self.old.last_moment event.now) history + touched_of self.old.site (raised self.old.last_moment event.now) history) }
    {
        let mut steps = Steps::<L>::new(blank);
        let answer = self.step_once(alloc, event, &mut steps);
        (answer, counted_in(&steps))
    }

    /// Takes an event, as `step` does, in a ledger of its own, and tells how many evaluations that took. One event more than a
    /// history may have is as good as no memory for it.
    pub fn take_counted(
        &mut self,
        alloc: Global,
        event: &Event,
    ) -> (Result<Outcome, StepFault>, EvaluationCount)
        requires moment { IsMoment event.now.moment }
        requires allowed { IsAllowed self.old event.now.act }
        ensures state { OnOk result.0 (self.new ≡ next_state (raised self.old.last_moment event.now) self.old) }
        ensures moment { IfOk result.0 (λ outcome. outcome.moment ≡ max event.now.moment self.old.last_moment) }
        ensures moves { IfOk result.0 (λ outcome. outcome.moves ≡ map moved_by (next_transitions (raised self.old.last_moment event.now) self.old)) }
        ensures sends { IfOk result.0 (λ outcome. outcome.sends ≡ next_sends (raised self.old.last_moment event.now) self.old) }
        ensures same { OnErr result.0 (self.new ≡ self.old) }
        ensures verdict { Answers result.0 (step_verdict (raised self.old.last_moment event.now) self.old) }
        ensures many { most_events ≤ self.old.events → result.0 ≡ Err faults.NoMemory }
        ensures represents { (history : List Happening) → Represents self.old history →
            OnOk result.0 (Represents self.new (raised self.old.last_moment event.now ∷ history)) }
        ensures transitions { (history : List Happening) → Represents self.old history →
            transitions_of self.old.site (raised self.old.last_moment event.now ∷ history)
            ≡ transitions_of self.old.site history ++ next_transitions (raised self.old.last_moment event.now) self.old }
        ensures notifications { (history : List Happening) → Represents self.old history →
            notifications_of self.old.site (raised self.old.last_moment event.now ∷ history)
            ≡ notifications_of self.old.site history ++ next_notes (raised self.old.last_moment event.now) self.old }
        ensures ticks_fit { (history : List Happening) → Represents self.old history → unfinished_in self.old.outbox.posts ≡ 0 →
            event.now.act ≡ Tick → step_verdict (raised self.old.last_moment event.now) self.old ≡ Ok tt }
        ensures counts { (history : List Happening) → Represents self.old history →
            result.1.value ≤ (moving_of self.old.site (raised self.old.last_moment event.now) history + touched_of self.old.site (raised self.old.last_moment event.now) history) }
    {
        self.take_alone::<Brand>(alloc, event, Blank::new(1))
    }

    /// Takes an event, for those who don't ask how many evaluations that took.
    pub fn take(&mut self, alloc: Global, event: &Event) -> Result<Outcome, StepFault>
        requires moment { IsMoment event.now.moment }
        requires allowed { IsAllowed self.old event.now.act }
        ensures state { OnOk result (self.new ≡ next_state (raised self.old.last_moment event.now) self.old) }
        ensures moment { IfOk result (λ outcome. outcome.moment ≡ max event.now.moment self.old.last_moment) }
        ensures moves { IfOk result (λ outcome. outcome.moves ≡ map moved_by (next_transitions (raised self.old.last_moment event.now) self.old)) }
        ensures sends { IfOk result (λ outcome. outcome.sends ≡ next_sends (raised self.old.last_moment event.now) self.old) }
        ensures same { OnErr result (self.new ≡ self.old) }
        ensures verdict { Answers result (step_verdict (raised self.old.last_moment event.now) self.old) }
        ensures many { most_events ≤ self.old.events → result ≡ Err faults.NoMemory }
        ensures represents { (history : List Happening) → Represents self.old history →
            OnOk result (Represents self.new (raised self.old.last_moment event.now ∷ history)) }
        ensures transitions { (history : List Happening) → Represents self.old history →
            transitions_of self.old.site (raised self.old.last_moment event.now ∷ history)
            ≡ transitions_of self.old.site history ++ next_transitions (raised self.old.last_moment event.now) self.old }
        ensures notifications { (history : List Happening) → Represents self.old history →
            notifications_of self.old.site (raised self.old.last_moment event.now ∷ history)
            ≡ notifications_of self.old.site history ++ next_notes (raised self.old.last_moment event.now) self.old }
        ensures ticks_fit { (history : List Happening) → Represents self.old history → unfinished_in self.old.outbox.posts ≡ 0 →
            event.now.act ≡ Tick → step_verdict (raised self.old.last_moment event.now) self.old ≡ Ok tt }
    {
        let (answer, _count) = self.take_counted(alloc, event);
        answer
    }
}
