//! An object is evaluated at a point: fault, inhibition, rules.

ghost use Rattle.std.specs.Prelude.{◌≡◌, ◌≤◌, ◌∷◌, [], List, length, suc};
ghost use Rattle.bac_values.specs.Limits.{most_listed_values};
ghost use Rattle.std.specs.Option.{option_to_list};
ghost use Rattle.bac_values.specs.Moments.{IsMoment};
ghost use Rattle.event_machine.specs.Detection.{fault_target, moves_at};
ghost use Rattle.event_machine.specs.Given.{moves_in, point_of};
ghost use Rattle.event_machine.specs.AlarmSteps.{begins, enters, fault_change, inhibited_change, later_change, next_look};
ghost use Rattle.event_machine.specs.Summary.{new_alarm, IsAfter};
ghost use Rattle.event_machine.specs.Points.{Incident, IsCourse, Looked, Point};

use crate::held::rule_lasting;
use crate::{Alarm, Changed, Move, PointFacts, Steps};
use algorithm_rules::Snapshot;
use bac_values::{EventState, Reliability};
use std::sync::ledger::Ledger;

/// The first point of an object, at which nothing moves: the runs of its rules begin. Memory is not asked for.
pub fn begin(alarm: &mut Alarm, snapshot: &Snapshot<'_>, point: &PointFacts)
    requires few { length snapshot.now.alarm_values.now ≤ most_listed_values }
    requires moment { IsMoment point.now.moment }
    ensures begun { alarm.new ≡ begins snapshot.now.algorithm (point_of snapshot.now point.now) alarm.old }
    ensures course { alarm.old ≡ new_alarm → IsAfter snapshot.now.algorithm (point_of snapshot.now point.now) [] alarm.new }
{
    alarm.begin_runs(snapshot, point);
}

fn enter(
    alarm: &mut Alarm,
    snapshot: &Snapshot<'_>,
    point: &PointFacts,
    to: EventState,
    by_fault: bool,
) -> Move
    requires few { length snapshot.now.alarm_values.now ≤ most_listed_values }
    requires moment { IsMoment point.now.moment }
    ensures alarm { alarm.new ≡ (enters snapshot.now.algorithm (point_of snapshot.now point.now) to by_fault alarm.old).alarm }
    ensures moves { result ∷ [] ≡ (enters snapshot.now.algorithm (point_of snapshot.now point.now) to by_fault alarm.old).moves }
{
    let from = alarm.state();
    alarm.enter(to, snapshot, point);
    Move { from, to, by_fault }
}

pub(crate) fn fault_target(
    now: Reliability,
    last: Reliability,
    state: EventState,
) -> Option<EventState>
    ensures target { result ≡ fault_target now last state }
{
    let in_fault = state == EventState::Fault;
    if now.number() == 0 {
        return if in_fault {
            Some(EventState::Normal)
        } else {
            None
        };
    }
    if in_fault && now.number() == last.number() {
        None
    } else {
        Some(EventState::Fault)
    }
}

// The object is seen at the point, and a fault comes, changes or ends, or the runs go on.
fn fault_change(alarm: &mut Alarm, snapshot: &Snapshot<'_>, point: &PointFacts) -> Option<Move>
    requires few { length snapshot.now.alarm_values.now ≤ most_listed_values }
    requires moment { IsMoment point.now.moment }
    ensures alarm { alarm.new ≡ (fault_change snapshot.now.algorithm (point_of snapshot.now point.now) alarm.old).alarm }
    ensures moves { option_to_list result ≡ (fault_change snapshot.now.algorithm (point_of snapshot.now point.now) alarm.old).moves }
{
    let target = fault_target(point.reliability, alarm.last_reliability(), alarm.state());
    alarm.rely_on(point.reliability);
    let Some(to) = target else {
        alarm.go_on(snapshot, point);
        return None;
    };
    Some(enter(alarm, snapshot, point, to, true))
}

// An inhibited object returns to NORMAL. Its rules have no runs there.
fn inhibited_change(alarm: &mut Alarm, snapshot: &Snapshot<'_>, point: &PointFacts) -> Option<Move>
    requires few { length snapshot.now.alarm_values.now ≤ most_listed_values }
    requires moment { IsMoment point.now.moment }
    ensures alarm { alarm.new ≡ (inhibited_change snapshot.now.algorithm (point_of snapshot.now point.now) alarm.old).alarm }
    ensures moves { option_to_list result ≡ (inhibited_change snapshot.now.algorithm (point_of snapshot.now point.now) alarm.old).moves }
{
    if alarm.state() == EventState::Normal {
        return None;
    }
    Some(enter(alarm, snapshot, point, EventState::Normal, false))
}

// What comes behind the fault step: nothing in FAULT, else the inhibition, else the first rule that is held.
fn later_change(alarm: &mut Alarm, snapshot: &Snapshot<'_>, point: &PointFacts) -> Option<Move>
    requires few { length snapshot.now.alarm_values.now ≤ most_listed_values }
    requires moment { IsMoment point.now.moment }
    ensures alarm { alarm.new ≡ (later_change snapshot.now.algorithm (point_of snapshot.now point.now) alarm.old).alarm }
    ensures moves { option_to_list result ≡ (later_change snapshot.now.algorithm (point_of snapshot.now point.now) alarm.old).moves }
{
    if alarm.state() == EventState::Fault {
        return None;
    }
    if point.inhibited {
        return inhibited_change(alarm, snapshot, point);
    }
    let rule = rule_lasting(snapshot, point, alarm.state(), &alarm.runs())?;
    Some(enter(alarm, snapshot, point, rule.target, false))
}

/// One more point of an object: the moves of its event state there, and its alarm from then on. It is one step. Memory is
/// not asked for.
pub fn evaluate<L: Ledger>(
    alarm: &mut Alarm,
    snapshot: &Snapshot<'_>,
    point: &PointFacts,
    steps: &mut Steps<L>,
) -> Changed
    requires few { length snapshot.now.alarm_values.now ≤ most_listed_values }
    requires moment { IsMoment point.now.moment }
    ensures alarm { alarm.new ≡ (next_look snapshot.now.algorithm (point_of snapshot.now point.now) alarm.old).alarm }
    ensures moves { moves_in result ≡ (next_look snapshot.now.algorithm (point_of snapshot.now point.now) alarm.old).moves }
    ensures first { option_to_list result.first ≡ (fault_change snapshot.now.algorithm (point_of snapshot.now point.now) alarm.old).moves }
    ensures course { (first : Point) (later : List Incident) → IsCourse first (Looked (point_of snapshot.now point.now) ∷ later) → IsAfter snapshot.now.algorithm first later alarm.old →
        IsAfter snapshot.now.algorithm first (Looked (point_of snapshot.now point.now) ∷ later) alarm.new }
    ensures course_moves { (first : Point) (later : List Incident) → IsCourse first (Looked (point_of snapshot.now point.now) ∷ later) → IsAfter snapshot.now.algorithm first later alarm.old →
        moves_in result ≡ moves_at snapshot.now.algorithm first (Looked (point_of snapshot.now point.now) ∷ later) }
    ensures step { steps.new ≡ suc steps.old }
{
    steps.tick();
    let first = fault_change(alarm, snapshot, point);
    let second = later_change(alarm, snapshot, point);
    Changed { first, second }
}
