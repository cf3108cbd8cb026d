//! The event detection of all objects of a site, with what is due.

ghost use Rattle.std.specs.Prelude.{◌≡◌, ◌↔◌, ◌<◌, ◌≤◌, ◌+◌, ◌^◌, [], if◌then◌else◌, IfOk, IsFalse, IsTrue, OnErr, OnOk, length, map};
ghost use Rattle.std.specs.List.{flat_map};
ghost use Rattle.enrollment.specs.Objects.{IsTaken, written};
ghost use Rattle.alarm_core.specs.CoreSteps.{acked, evaluated_all, transitions_by};
ghost use Rattle.alarm_core.specs.DueSteps.{AscendByObject, DetectionsState, DueOnesMove, LeadsBack, all_once, due_count, due_of, dues_of, start_of, touched_by};

use crate::detection::{DetectedObject, place_of};
use crate::due_looks::{Round, Timed, are_still, evaluate_due, put_back, touch_all};
use bac_values::{NoMemory, ObjectId, Transition};
use civil_stamp::LocalMoment;
use enrollment::Objects;
use event_machine::Steps;
use held_timers::Timers;
use object_table::Change;
use std::alloc::Global;
use std::marker::Model;
use std::sync::ledger::Ledger;

/// The properties of a site's objects, and their alarms, each of which is looked at as it is due.
#[derive(Drop)]
pub(crate) struct Detections {
    objects: Objects,
    timed: Timed,
}

impl Model for Detections {
    ghost use Rattle.std.specs.Prelude.{◌≡◌, ◌<◌, ◌^◌, length, map};
    ghost use Rattle.alarm_core.specs.DueSteps.{AscendByObject, DetectionsState, due_of};

    ghost Value = { DetectionsState };

    ghost view = { λ detections. record { values = detections.objects; alarms = detections.timed.alarms.items } };

    ghost invariant = { λ detections. record {
      timers : detections.timed.timers ≡ map (due_of detections.objects) detections.timed.alarms.items;
      few : length detections.timed.alarms.items < 2 ^ 32;
      ascending : AscendByObject detections.timed.alarms.items;
    } };
}

// The timers of some objects.
fn first_timers(
    alloc: Global,
    alarms: &[DetectedObject],
    objects: &Objects,
    at: &LocalMoment,
) -> Result<Timers, NoMemory>
    ensures timers { IfOk result (λ timers. timers ≡ map (due_of objects.now) alarms.now) }
    ensures few { IfOk result (λ timers. length alarms.now < 2 ^ 32) }
{
    let Ok(count) = u32::try_from(alarms.len()) else {
        return Err(NoMemory);
    };
    let mut timers = Timers::new(alloc, count)?;
    for index in 0..count {
        let due = alarms[index as usize].due(objects, at);
        timers.set_due(index, due);
    }
    Ok(timers)
}

// One transition of one object is acknowledged. No memory is taken.
fn acknowledge_in(alarms: &mut Vec<DetectedObject>, object: ObjectId, transition: Transition)
    requires ascending { AscendByObject alarms.old.items }
    ensures alarms { alarms.new.items ≡ map (acked object transition) alarms.old.items }
{
    if let Ok(place) = place_of(alarms, object) {
        alarms[place].acknowledge(object, transition);
    }
}

// Makes a change that takes another one back.
fn take_back(objects: &mut Objects, undo: Change)
    requires taken { IsTaken undo objects.old }
    ensures objects { objects.new ≡ written undo objects.old }
{
    let _redo = objects.apply(undo);
}

impl Detections {
    /// The alarms of some objects, which ascend.
    pub(crate) fn new(
        alloc: Global,
        objects: Objects,
        alarms: Vec<DetectedObject>,
        at: &LocalMoment,
    ) -> Result<Detections, NoMemory>
        requires ascending { AscendByObject alarms.items }
        ensures detections { IfOk result (λ detections. detections ≡ record { values = objects; alarms = alarms.items }) }
    {
        let timers = first_timers(alloc, &alarms, &objects, at)?;
        Ok(Detections {
            objects,
            timed: Timed { alarms, timers },
        })
    }

    /// The properties of the objects.
    pub(crate) fn objects(&self) -> &Objects
        ensures objects { result.now ≡ self.now.values }
    {
        &self.objects
    }

    /// The alarms, in the order of their objects.
    pub(crate) fn alarms(&self) -> &[DetectedObject]
        ensures alarms { result.now ≡ self.now.alarms }
        ensures ascending { AscendByObject result.now }
        ensures few { length result.now < 2 ^ 32 }
    {
        self.timed.alarms.as_slice()
    }

    /// One transition of one object is acknowledged. No memory is taken.
    pub(crate) fn acknowledge(&mut self, object: ObjectId, transition: Transition)
        ensures acked { self.new ≡ record self.old { alarms = map (acked object transition) self.old.alarms } }
    {
        acknowledge_in(&mut self.timed.alarms, object, transition);
    }

    /// Looks at all objects that are due. Where memory is wanting, some have been looked at.
    pub(crate) fn evaluate<L: Ledger>(
        &mut self,
        at: &LocalMoment,
        steps: &mut Steps<L>,
        round: &mut Round,
    ) -> Result<(), NoMemory>
        ensures values { self.new.values ≡ self.old.values }
        ensures alarms { OnOk result (self.new.alarms ≡ evaluated_all at.now self.old.values self.old.alarms) }
        ensures transitions { OnOk result (round.new.transitions.items ≡ flat_map (transitions_by at.now self.old.values) self.old.alarms) }
        ensures undoes { (before : DetectionsState) → LeadsBack round.old.formers.items before self.old → LeadsBack round.new.formers.items before self.new }
        ensures steps { steps.new ≤ steps.old + due_count at.now.moment (dues_of self.old) }
    {
        round.transitions.clear();
        evaluate_due(&mut self.timed, &self.objects, at, steps, round)
    }

    /// Makes a change, and looks at all objects that are due then, at the written one and at its watchers. It gives the
    /// change that takes it back. Where memory is wanting, the change and all looks of the round are undone.
    pub(crate) fn write<L: Ledger>(
        &mut self,
        change: Change,
        at: &LocalMoment,
        steps: &mut Steps<L>,
        round: &mut Round,
    ) -> Result<Change, NoMemory>
        requires taken { IsTaken change self.old.values }
        requires undoes { LeadsBack round.old.formers.items (start_of round.old.formers.items self.old) self.old }
        ensures values { OnOk result (self.new.values ≡ written change self.old.values) }
        ensures alarms { OnOk result (self.new.alarms ≡ evaluated_all at.now (written change self.old.values) self.old.alarms) }
        ensures transitions { OnOk result (round.new.transitions.items ≡ flat_map (transitions_by at.now (written change self.old.values)) self.old.alarms) }
        ensures back { IfOk result (λ undo. written undo self.new.values ≡ self.old.values) }
        ensures takes { IfOk result (λ undo. IsTaken undo self.new.values) }
        ensures same { OnErr result (self.new.values ≡ self.old.values) }
        ensures undoes { LeadsBack round.new.formers.items (start_of round.old.formers.items self.old) self.new }
        ensures steps { steps.new ≤ steps.old + due_count at.now.moment (all_once (touched_by change.object self.old.values) self.old.alarms (dues_of self.old)) }
    {
        round.transitions.clear();
        let object = change.object;
        let watchers = self.objects.watchers_of(object);
        let touched = touch_all(&mut self.timed, object, watchers, round);
        if let Err(fault) = touched {
            put_back(&mut self.timed, &mut round.formers, &self.objects, at);
            return Err(fault);
        }
        let undo = self.objects.apply(change);
        match evaluate_due(&mut self.timed, &self.objects, at, steps, round) {
            Ok(()) => Ok(undo),
            Err(fault) => {
                take_back(&mut self.objects, undo);
                put_back(&mut self.timed, &mut round.formers, &self.objects, at);
                Err(fault)
            }
        }
    }

    /// Whether no object would move as all are looked at. Those that are due are evaluated, up to one that would.
    pub(crate) fn are_still<L: Ledger>(&self, at: &LocalMoment, steps: &mut Steps<L>) -> bool
        ensures still { IsTrue result ↔ (flat_map (transitions_by at.now self.now.values) self.now.alarms ≡ []) }
        ensures grows { steps.old ≤ steps.new }
        ensures counted { IsFalse result → steps.old < steps.new }
        ensures first { DueOnesMove at.now self.now.values self.now.alarms → steps.new ≤ steps.old + (if result then 0 else 1) }
    {
        are_still(&self.timed, &self.objects, at, steps)
    }

    /// Undoes looks, between which nothing was written. No memory is taken.
    pub(crate) fn undo(&mut self, round: &mut Round, at: &LocalMoment)
        requires undoes { LeadsBack round.old.formers.items (start_of round.old.formers.items self.old) self.old }
        ensures undone { self.new ≡ start_of round.old.formers.items self.old }
        ensures none { round.new.formers.items ≡ [] }
    {
        put_back(&mut self.timed, &mut round.formers, &self.objects, at);
    }

    /// Undoes looks, between which there was a write, by the change that takes it back. No memory is taken.
    pub(crate) fn undo_write(&mut self, undo: Change, round: &mut Round, at: &LocalMoment)
        requires taken { IsTaken undo self.old.values }
        requires undoes { LeadsBack round.old.formers.items (record (start_of round.old.formers.items self.old) { values = written undo self.old.values }) self.old }
        ensures undone { self.new ≡ record (start_of round.old.formers.items self.old) { values = written undo self.old.values } }
        ensures none { round.new.formers.items ≡ [] }
    {
        take_back(&mut self.objects, undo);
        put_back(&mut self.timed, &mut round.formers, &self.objects, at);
    }
}
