//! The evaluations of an event: of what is due at a moment, and of what a change touches.

ghost use Rattle.std.specs.Prelude.{◌≡◌, ◌↔◌, ◌<◌, ◌≤◌, ◌∷◌, ◌+◌, ◌++◌, ◌^◌, [], suc, if◌then◌else◌, IsFalse, IsTrue, OnErr, OnOk, length, map, slice_set, ℕ};
ghost use Rattle.std.specs.List.{flat_map};
ghost use Rattle.alarm_core.specs.CoreSteps.{evaluated, evaluated_all, transitions_by};
ghost use Rattle.alarm_core.specs.DueSteps.{AreEarly, AscendByObject, DetectionsState, DueOnesMove, Undoes, all_once, due_count, due_of, object_of, once, restored};

use crate::detection::{DetectedObject, place_of};
use crate::transition::{ObjectTransition, add_transition};
use bac_values::{NoMemory, ObjectId, push};
use civil_stamp::LocalMoment;
use enrollment::Objects;
use event_machine::Steps;
use held_timers::Timers;
use std::alloc::Global;
use std::sync::ledger::Ledger;

/// An alarm as it was before a look, with its index among the alarms.
#[derive(Clone, Copy)]
pub(crate) struct Former {
    pub(crate) index: u32,
    pub(crate) detected: DetectedObject,
}

/// What some looks have done: the alarms that they changed, as they were before and in the order of the looks, and the
/// transitions that were made at the last one.
#[derive(Drop)]
pub(crate) struct Round {
    pub(crate) formers: Vec<Former>,
    pub(crate) transitions: Vec<ObjectTransition>,
}

/// Alarms, and for each the moment at which it is next to be looked at.
#[derive(Drop)]
pub(crate) struct Timed {
    pub(crate) alarms: Vec<DetectedObject>,
    pub(crate) timers: Timers,
}

impl Round {
    /// No looks yet.
    pub(crate) fn new(alloc: Global) -> Round
        ensures formers { result.formers.items ≡ [] }
        ensures transitions { result.transitions.items ≡ [] }
    {
        Round {
            formers: Vec::new(alloc),
            transitions: Vec::new(alloc),
        }
    }
}

// Evaluates the object at an index, and sets its timer anew.
fn evaluate_at<L: Ledger>(
    timed: &mut Timed,
    former: Former,
    objects: &Objects,
    at: &LocalMoment,
    steps: &mut Steps<L>,
    round: &mut Round,
) -> Result<(), NoMemory>
    requires within { former.index < length timed.old.alarms.items }
    requires timed { length timed.old.timers ≡ length timed.old.alarms.items }
    ensures alarms { OnOk result (timed.new.alarms.items ≡ slice_set timed.old.alarms.items former.index (evaluated at.now objects.now former.detected)) }
    ensures timers { OnOk result (timed.new.timers ≡ slice_set timed.old.timers former.index (due_of objects.now (evaluated at.now objects.now former.detected))) }
    ensures formers { OnOk result (round.new.formers.items ≡ round.old.formers.items ++ former ∷ []) }
    ensures transitions { OnOk result (round.new.transitions.items ≡ round.old.transitions.items ++ transitions_by at.now objects.now former.detected) }
    ensures same_alarms { OnErr result (timed.new.alarms.items ≡ timed.old.alarms.items) }
    ensures same_timers { OnErr result (timed.new.timers ≡ timed.old.timers) }
    ensures same_formers { OnErr result (round.new.formers.items ≡ round.old.formers.items) }
    ensures step { steps.new ≤ suc steps.old }
{
    let (object, cause) = (former.detected.object(), former.detected.alarm().cause());
    let mut next = former.detected;
    let changed = next.evaluate(objects, at, steps);
    add_transition(&mut round.transitions, object, cause, changed.first)?;
    add_transition(&mut round.transitions, object, cause, changed.second)?;
    push(&mut round.formers, former)?;
    timed.timers.set_due(former.index, next.due(objects, at));
    timed.alarms[former.index as usize] = next;
    Ok(())
}

/// Evaluates the objects that are due, by ascending index. A timer may be set at once: then its object is evaluated.
pub(crate) fn evaluate_due<L: Ledger>(
    timed: &mut Timed,
    objects: &Objects,
    at: &LocalMoment,
    steps: &mut Steps<L>,
    round: &mut Round,
) -> Result<(), NoMemory>
    requires few { length timed.old.alarms.items < 2 ^ 32 }
    requires early { AreEarly objects.now timed.old.alarms.items timed.old.timers }
    ensures alarms { OnOk result (timed.new.alarms.items ≡ evaluated_all at.now objects.now timed.old.alarms.items) }
    ensures timers { OnOk result (timed.new.timers ≡ map (due_of objects.now) timed.new.alarms.items) }
    ensures transitions { OnOk result (round.new.transitions.items ≡ round.old.transitions.items ++ flat_map (transitions_by at.now objects.now) timed.old.alarms.items) }
    ensures undoes { (before : DetectionsState) → Undoes round.old.formers.items before timed.old.alarms.items timed.old.timers →
        Undoes round.new.formers.items before timed.new.alarms.items timed.new.timers }
    ensures objects { map object_of timed.new.alarms.items ≡ map object_of timed.old.alarms.items }
    ensures exact { timed.old.timers ≡ map (due_of objects.now) timed.old.alarms.items → timed.new.timers ≡ map (due_of objects.now) timed.new.alarms.items }
    ensures steps { steps.new ≤ steps.old + due_count at.now.moment timed.old.timers }
{
    let moment = at.moment();
    let mut from = 0;
    while let Some(index) = timed.timers.due_from(moment, from) {
        let former = Former {
            index,
            detected: timed.alarms[index as usize],
        };
        evaluate_at(timed, former, objects, at, steps, round)?;
        from = index + 1;
    }
    Ok(())
}

// Sets an object due at once, if its event detection is enabled, so that the next look is at it too.
fn touch(timed: &mut Timed, object: ObjectId, round: &mut Round) -> Result<(), NoMemory>
    requires few { length timed.old.alarms.items < 2 ^ 32 }
    requires timed { length timed.old.timers ≡ length timed.old.alarms.items }
    requires ascending { AscendByObject timed.old.alarms.items }
    ensures alarms { timed.new.alarms.items ≡ timed.old.alarms.items }
    ensures timers { OnOk result (timed.new.timers ≡ once object timed.old.alarms.items timed.old.timers) }
    ensures transitions { round.new.transitions.items ≡ round.old.transitions.items }
    ensures many { length timed.new.timers ≡ length timed.old.timers }
    ensures undoes { (before : DetectionsState) → Undoes round.old.formers.items before timed.old.alarms.items timed.old.timers →
        Undoes round.new.formers.items before timed.new.alarms.items timed.new.timers }
{
    let Ok(place) = place_of(&timed.alarms, object) else {
        return Ok(());
    };
    let index = place as u32;
    let former = Former {
        index,
        detected: timed.alarms[place],
    };
    push(&mut round.formers, former)?;
    timed.timers.set_due(index, Some(0));
    Ok(())
}

/// Sets an object and its watchers due at once, as far as their event detection is enabled.
pub(crate) fn touch_all(
    timed: &mut Timed,
    object: ObjectId,
    watchers: &[ObjectId],
    round: &mut Round,
) -> Result<(), NoMemory>
    requires few { length timed.old.alarms.items < 2 ^ 32 }
    requires timed { length timed.old.timers ≡ length timed.old.alarms.items }
    requires ascending { AscendByObject timed.old.alarms.items }
    ensures alarms { timed.new.alarms.items ≡ timed.old.alarms.items }
    ensures timers { OnOk result (timed.new.timers ≡ all_once (object ∷ watchers.now) timed.old.alarms.items timed.old.timers) }
    ensures transitions { round.new.transitions.items ≡ round.old.transitions.items }
    ensures undoes { (before : DetectionsState) → Undoes round.old.formers.items before timed.old.alarms.items timed.old.timers →
        Undoes round.new.formers.items before timed.new.alarms.items timed.new.timers }
{
    touch(timed, object, round)?;
    for watcher in watchers {
        touch(timed, *watcher, round)?;
    }
    Ok(())
}

/// Puts former alarms back, the last one first, and sets their timers anew. No memory is taken.
pub(crate) fn put_back(
    timed: &mut Timed,
    formers: &mut Vec<Former>,
    objects: &Objects,
    at: &LocalMoment,
)
    requires undoes { Undoes formers.old.items (record { values = objects.now; alarms = restored formers.old.items timed.old.alarms.items }) timed.old.alarms.items timed.old.timers }
    ensures alarms { timed.new.alarms.items ≡ restored formers.old.items timed.old.alarms.items }
    ensures timers { timed.new.timers ≡ map (due_of objects.now) timed.new.alarms.items }
    ensures none { formers.new.items ≡ [] }
{
    while let Some(former) = formers.pop() {
        let due = former.detected.due(objects, at);
        timed.timers.set_due(former.index, due);
        timed.alarms[former.index as usize] = former.detected;
    }
}

/// Whether no object would move, by those that are due, which are evaluated by ascending index up to one that would.
pub(crate) fn are_still<L: Ledger>(
    timed: &Timed,
    objects: &Objects,
    at: &LocalMoment,
    steps: &mut Steps<L>,
) -> bool
    requires few { length timed.now.alarms.items < 2 ^ 32 }
    requires exact { timed.now.timers ≡ map (due_of objects.now) timed.now.alarms.items }
    ensures still { IsTrue result ↔ (flat_map (transitions_by at.now objects.now) timed.now.alarms.items ≡ []) }
    ensures grows { steps.old ≤ steps.new }
    ensures counted { IsFalse result → steps.old < steps.new }
    ensures first { DueOnesMove at.now objects.now timed.now.alarms.items → steps.new ≤ steps.old + (if result then 0 else 1) }
{
    let moment = at.moment();
    let mut from = 0;
    while let Some(index) = timed.timers.due_from(moment, from) {
        if !timed.alarms[index as usize].is_still(objects, at, steps) {
            return false;
        }
        from = index + 1;
    }
    true
}
