//! What an evaluation of an object sees of it.

ghost use Rattle.std.specs.Prelude.{◌≡◌, ◌≤◌, IfSome, length};
ghost use Rattle.bac_values.specs.Limits.{most_listed_values};
ghost use Rattle.std.specs.Option.{option_map};
ghost use Rattle.algorithm_rules.specs.Facts.{facts_of};
ghost use Rattle.bac_values.specs.Moments.{IsMoment};
ghost use Rattle.bac_values.specs.declared.value.Value.TheVariants.{Null};
ghost use Rattle.event_machine.specs.Given.{point_of};
ghost use Rattle.enrollment.specs.Subjects.{is_inhibited};
ghost use Rattle.enrollment.specs.Objects.{reliability_at};
ghost use Rattle.alarm_core.specs.Evaluations.{no_facts, point_in, stamp_at, start_point};

use algorithm_rules::{Algorithm, Snapshot};
use bac_values::{ObjectId, Value};
use civil_stamp::LocalMoment;
use enrollment::Objects;
use event_machine::PointFacts;

/// What an evaluation of an object sees: what its event algorithm looks at, and what else there is at the point.
#[derive(Clone, Copy)]
pub(crate) struct EvaluationInput<'a> {
    pub(crate) snapshot: Snapshot<'a>,
    pub(crate) point: PointFacts,
}

// What is seen of an object beside what its event algorithm looks at.
fn point_facts(
    objects: &Objects,
    object: ObjectId,
    at: &LocalMoment,
    ack_required: [bool; 3],
) -> PointFacts
    ensures moment { result.moment ≡ at.now.moment }
    ensures within { IsMoment result.moment }
    ensures stamp { result.stamp ≡ stamp_at at.now }
    ensures reliability { result.reliability ≡ reliability_at object objects.now }
    ensures inhibited { result.inhibited ≡ is_inhibited object objects.now }
    ensures ack_required { result.ack_required ≡ ack_required }
{
    PointFacts {
        moment: at.moment(),
        stamp: at.stamp(),
        reliability: objects.reliability(object),
        inhibited: objects.is_inhibited(object),
        ack_required,
    }
}

// Nothing to look at.
fn blank(algorithm: Algorithm, null: &Value) -> Snapshot<'_>
    requires null { null.now ≡ Null }
    ensures algorithm { result.algorithm ≡ algorithm }
    ensures facts { facts_of result ≡ no_facts }
    ensures few { length result.alarm_values.now ≤ most_listed_values }
{
    Snapshot {
        algorithm,
        value: null,
        feedback: None,
        alarm_value: None,
        alarm_values: &[],
        mask: None,
        low: 0,
        high: 0,
        limit_enable: [false, false],
        deadband: 0,
        time_delay: 0,
        time_delay_normal: None,
    }
}

/// What is seen of an object under its algorithm, if it is there.
pub(crate) fn evaluation_input<'a>(
    objects: &'a Objects,
    algorithm: Algorithm,
    object: ObjectId,
    at: &LocalMoment,
    ack_required: [bool; 3],
) -> Option<EvaluationInput<'a>>
    ensures algorithm { IfSome result (λ input. input.snapshot.algorithm ≡ algorithm) }
    ensures point { option_map (λ input. point_of input.snapshot input.point) result ≡ point_in at.now ack_required object objects.now }
    ensures moment { IfSome result (λ input. IsMoment input.point.moment) }
    ensures few { IfSome result (λ input. length input.snapshot.alarm_values.now ≤ most_listed_values) }
{
    let point = point_facts(objects, object, at, ack_required);
    match objects.snapshot(object) {
        Some(snapshot) => Some(EvaluationInput {
            snapshot: Snapshot {
                algorithm,
                ..snapshot
            },
            point,
        }),
        None => None,
    }
}

/// What is seen of an object under its algorithm at the start: nothing where it isn't there.
pub(crate) fn first_input<'a>(
    objects: &'a Objects,
    algorithm: Algorithm,
    object: ObjectId,
    at: &LocalMoment,
    ack_required: [bool; 3],
    null: &'a Value,
) -> EvaluationInput<'a>
    requires null { null.now ≡ Null }
    ensures algorithm { result.snapshot.algorithm ≡ algorithm }
    ensures point { point_of result.snapshot result.point ≡ start_point at.now ack_required object objects.now }
    ensures moment { IsMoment result.point.moment }
    ensures few { length result.snapshot.alarm_values.now ≤ most_listed_values }
{
    let point = point_facts(objects, object, at, ack_required);
    match objects.snapshot(object) {
        Some(snapshot) => EvaluationInput {
            snapshot: Snapshot {
                algorithm,
                ..snapshot
            },
            point,
        },
        None => EvaluationInput {
            snapshot: blank(algorithm, null),
            point,
        },
    }
}
