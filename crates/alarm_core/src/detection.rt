//! The event detection of one object: its algorithm, and its alarm.

ghost use Rattle.std.specs.Prelude.{◌≡◌, ◌≤◌, ◌↔◌, ◌⊎◌, [], None, IfOk, IfSome, IsFalse, IsTrue, OnErr, length, suc};
ghost use Rattle.bac_values.specs.Limits.{most_listed_values};
ghost use Rattle.std.specs.Option.{option_map};
ghost use Rattle.bac_values.specs.Moments.{IsMoment};
ghost use Rattle.event_machine.specs.Given.{moves_in, point_of};
ghost use Rattle.alarm_core.specs.CoreSteps.{acked, change_at, change_by, evaluated, first_with};
ghost use Rattle.alarm_core.specs.DueSteps.{AscendByObject, StandsAt, due_by, due_of};
ghost use Rattle.alarm_core.specs.Found.{detected_object_in};

use crate::evaluation_input::{EvaluationInput, evaluation_input, first_input};
use algorithm_rules::Algorithm;
use bac_values::{ObjectId, Transition, Value};
use civil_stamp::LocalMoment;
use enrollment::{Objects, Subject};
use event_machine::{Alarm, Changed, Steps, begin, evaluate, is_settled, next_due};
use std::marker::Model;
use std::sync::ledger::Ledger;

/// An object whose event detection is enabled: its event algorithm, which transitions its class wants acknowledged, and its
/// alarm.
#[derive(Clone, Copy)]
pub struct DetectedObject {
    object: ObjectId,
    algorithm: Algorithm,
    ack_required: [bool; 3],
    alarm: Alarm,
}

impl Model for DetectedObject {
    ghost use Rattle.alarm_core.specs.State.{DetectedObjectState};

    ghost Value = { DetectedObjectState };

    ghost view = { λ detected. record {
      object = detected.object;
      algorithm = detected.algorithm;
      ack_required = detected.ack_required;
      alarm = detected.alarm;
    } };

    ghost inverse = { λ detected. record {
      object = detected.object;
      algorithm = detected.algorithm;
      ack_required = detected.ack_required;
      alarm = detected.alarm;
    } };
}

// One object is evaluated, if it is there.
fn evaluate_by<L: Ledger>(
    algorithm: Algorithm,
    input: Option<&EvaluationInput<'_>>,
    alarm: &mut Alarm,
    steps: &mut Steps<L>,
) -> Changed
    requires algorithm { IfSome input (λ input. input.now.snapshot.algorithm ≡ algorithm) }
    requires few { IfSome input (λ input. length input.now.snapshot.alarm_values.now ≤ most_listed_values) }
    requires moment { IfSome input (λ input. IsMoment input.now.point.moment) }
    ensures alarm { alarm.new ≡ (change_by algorithm (option_map (λ input. point_of input.now.snapshot input.now.point) input.entry) alarm.old).alarm }
    ensures moves { moves_in result ≡ (change_by algorithm (option_map (λ input. point_of input.now.snapshot input.now.point) input.entry) alarm.old).moves }
    ensures step { steps.new ≤ suc steps.old }
    ensures counted { ((moves_in result ≡ []) × (steps.new ≡ steps.old)) ⊎ (steps.new ≡ suc steps.old) }
{
    let Some(input) = input else {
        return Changed {
            first: None,
            second: None,
        };
    };
    evaluate(alarm, &input.snapshot, &input.point, steps)
}

// Whether nothing moved.
fn moves_none(changed: &Changed) -> bool
    ensures none { IsTrue result ↔ (moves_in changed.now ≡ []) }
{
    changed.first.is_none() && changed.second.is_none()
}

// When one object is next to be looked at, if it is there.
fn due_by(algorithm: Algorithm, input: Option<&EvaluationInput<'_>>, alarm: &Alarm) -> Option<u64>
    requires algorithm { IfSome input (λ input. input.now.snapshot.algorithm ≡ algorithm) }
    requires few { IfSome input (λ input. length input.now.snapshot.alarm_values.now ≤ most_listed_values) }
    ensures due { result ≡ due_by algorithm (option_map (λ input. point_of input.now.snapshot input.now.point) input.entry) alarm.now }
{
    let input = input?;
    if is_settled(alarm, &input.snapshot, &input.point) {
        next_due(alarm, &input.snapshot)
    } else {
        Some(0)
    }
}

impl DetectedObject {
    /// An object at the start, whose class wants these transitions acknowledged.
    pub(crate) fn first(
        subject: &Subject,
        ack_required: [bool; 3],
        objects: &Objects,
        at: &LocalMoment,
    ) -> DetectedObject
        ensures first { result ≡ first_with at.now ack_required objects.now subject.now }
    {
        let (object, algorithm) = (subject.object, subject.algorithm);
        let null = Value::Null;
        let input = first_input(objects, algorithm, object, at, ack_required, &null);
        let mut alarm = Alarm::new();
        begin(&mut alarm, &input.snapshot, &input.point);
        DetectedObject {
            object,
            algorithm,
            ack_required,
            alarm,
        }
    }

    /// An object with this alarm, whose class wants these transitions acknowledged.
    pub(crate) fn restored(
        subject: &Subject,
        ack_required: [bool; 3],
        alarm: Alarm,
    ) -> DetectedObject
        ensures restored { result ≡ record { object = subject.now.object; algorithm = subject.now.algorithm; ack_required = ack_required; alarm = alarm } }
    {
        DetectedObject {
            object: subject.object,
            algorithm: subject.algorithm,
            ack_required,
            alarm,
        }
    }

    /// The object.
    pub fn object(&self) -> ObjectId
        ensures object { result ≡ self.now.object }
    {
        self.object
    }

    /// Its event algorithm.
    pub(crate) fn algorithm(&self) -> Algorithm
        ensures algorithm { result ≡ self.now.algorithm }
    {
        self.algorithm
    }

    /// Its alarm.
    pub fn alarm(&self) -> &Alarm
        ensures alarm { result.now ≡ self.now.alarm }
    {
        &self.alarm
    }

    /// Evaluates the object once more, if it is there. No memory is taken.
    pub(crate) fn evaluate<L: Ledger>(
        &mut self,
        objects: &Objects,
        at: &LocalMoment,
        steps: &mut Steps<L>,
    ) -> Changed
        ensures evaluated { self.new ≡ evaluated at.now objects.now self.old }
        ensures moves { moves_in result ≡ (change_at at.now objects.now self.old).moves }
        ensures step { steps.new ≤ suc steps.old }
        ensures counted { ((moves_in result ≡ []) × (steps.new ≡ steps.old)) ⊎ (steps.new ≡ suc steps.old) }
    {
        let (object, algorithm, ack_required) = (self.object, self.algorithm, self.ack_required);
        let input = evaluation_input(objects, algorithm, object, at, ack_required);
        evaluate_by(algorithm, input.as_ref(), &mut self.alarm, steps)
    }

    /// Whether the object wouldn't move as it is evaluated once more. It is evaluated to see that, which is a step.
    pub(crate) fn is_still<L: Ledger>(
        &self,
        objects: &Objects,
        at: &LocalMoment,
        steps: &mut Steps<L>,
    ) -> bool
        ensures still { IsTrue result ↔ ((change_at at.now objects.now self.now).moves ≡ []) }
        ensures step { steps.new ≤ suc steps.old }
        ensures grows { steps.old ≤ steps.new }
        ensures counted { IsFalse result → steps.new ≡ suc steps.old }
    {
        let mut next = *self;
        let changed = next.evaluate(objects, at, steps);
        moves_none(&changed)
    }

    /// The moment at which the object is next to be looked at, if there is one: at once where it isn't settled, and else when
    /// a rule of it will be held. It is the same at every moment.
    pub(crate) fn due(&self, objects: &Objects, at: &LocalMoment) -> Option<u64>
        ensures due { result ≡ due_of objects.now self.now }
    {
        let input = evaluation_input(objects, self.algorithm, self.object, at, self.ack_required);
        due_by(self.algorithm, input.as_ref(), &self.alarm)
    }

    /// The transition is acknowledged where the object is the one that is named. No memory is taken.
    pub(crate) fn acknowledge(&mut self, named: ObjectId, transition: Transition)
        ensures acked { self.new ≡ acked named transition self.old }
    {
        if named == self.object {
            self.alarm.acknowledge(transition);
        }
    }
}

/// Where the object with this identifier stands among alarms that ascend.
pub(crate) fn place_of(alarms: &[DetectedObject], object: ObjectId) -> Result<usize, usize>
    requires ascending { AscendByObject alarms.now }
    ensures found { IfOk result (StandsAt object alarms.now) }
    ensures absent { OnErr result (detected_object_in object alarms.now ≡ None) }
{
    alarms.binary_search_by_key(&object, |detected| detected.object())
}

/// The object with this identifier among alarms that ascend.
pub(crate) fn detected_object(
    alarms: &[DetectedObject],
    object: ObjectId,
) -> Option<&DetectedObject>
    requires ascending { AscendByObject alarms.now }
    ensures found { option_map (λ detected. detected.now) result ≡ detected_object_in object alarms.now }
{
    match place_of(alarms, object) {
        Ok(place) => Some(&alarms[place]),
        Err(_place) => None,
    }
}
