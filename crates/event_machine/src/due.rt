//! When an object is next to be evaluated.

ghost use Rattle.std.specs.Prelude.{◌≡◌, ◌≤◌, List, is_some, length};
ghost use Rattle.bac_values.specs.Limits.{most_listed_values};
ghost use Rattle.std.specs.Option.{IfSome};
ghost use Rattle.bac_values.specs.Moments.{IsMoment};
ghost use Rattle.algorithm_rules.specs.Facts.{facts_of};
ghost use Rattle.event_machine.specs.Detection.{rule_held};
ghost use Rattle.event_machine.specs.Due.{SeesTheSame, due_by, earlier, has_come, next_due_of};
ghost use Rattle.event_machine.specs.Points.{Incident, IsCourse, Point, newest_of};
ghost use Rattle.event_machine.specs.Since.{detection_tried};
ghost use Rattle.event_machine.specs.Summary.{IsAfter};

use crate::{Alarm, Run};
use algorithm_rules::{Rule, Snapshot, delay, rule};

// When the run of a rule will have gone on for its delay.
fn due_by(rule: Option<Rule>, snapshot: &Snapshot<'_>, run: Option<Run>) -> Option<u64>
    requires few { length snapshot.now.alarm_values.now ≤ most_listed_values }
    requires range { IfSome run (λ r. IsMoment r.start) }
    ensures due { result ≡ due_by rule (facts_of snapshot.now) run }
{
    let rule = rule?;
    let run = run?;
    Some(run.start + 1000 * u64::from(delay(&rule, snapshot)))
}

fn earlier(one: Option<u64>, other: Option<u64>) -> Option<u64>
    ensures earlier { result ≡ earlier one other }
{
    match (one, other) {
        (Some(one), Some(other)) => Some(one.min(other)),
        (Some(one), None) => Some(one),
        (None, other) => other,
    }
}

/// The least moment at which a rule is held if nothing that the object sees changes, where there is one.
pub fn next_due(alarm: &Alarm, snapshot: &Snapshot<'_>) -> Option<u64>
    requires few { length snapshot.now.alarm_values.now ≤ most_listed_values }
    ensures number { result ≡ next_due_of snapshot.now.algorithm (facts_of snapshot.now) alarm.now }
    ensures tells { (first : Point) (later : List Incident) (point : Point) → IsCourse first later → IsAfter snapshot.now.algorithm first later alarm.now →
        SeesTheSame (facts_of snapshot.now) alarm.now.last_reliability (newest_of first later) point →
        is_some (rule_held snapshot.now.algorithm (detection_tried snapshot.now.algorithm first later point)) ≡ has_come result point.moment }
{
    let algorithm = snapshot.algorithm;
    let state = alarm.state();
    let runs = alarm.runs();
    let first = due_by(rule(algorithm, state, 0), snapshot, runs[0]);
    let second = due_by(rule(algorithm, state, 1), snapshot, runs[1]);
    let third = due_by(rule(algorithm, state, 2), snapshot, runs[2]);
    earlier(first, earlier(second, third))
}
