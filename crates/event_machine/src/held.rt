//! Which rule has been held for its delay.

ghost use Rattle.std.specs.Prelude.{◌≡◌, ◌≤◌, length};
ghost use Rattle.bac_values.specs.Limits.{most_listed_values};
ghost use Rattle.event_machine.specs.Given.{point_of};
ghost use Rattle.event_machine.specs.AlarmSteps.{lasting, rule_lasting};
ghost use Rattle.event_machine.specs.Runs.{has_gone_on};

use crate::{PointFacts, Run};
use algorithm_rules::{Rule, Snapshot, delay, rule};
use bac_values::EventState;

// Whether a run has gone on for the delay of its rule.
fn has_gone_on(rule: &Rule, snapshot: &Snapshot<'_>, point: &PointFacts, run: Option<Run>) -> bool
    requires few { length snapshot.now.alarm_values.now ≤ most_listed_values }
    ensures gone_on { result ≡ has_gone_on rule.now (point_of snapshot.now point.now) run }
{
    let Some(run) = run else {
        return false;
    };
    let wait = 1000 * u64::from(delay(rule, snapshot));
    run.start <= point.moment && wait <= point.moment - run.start
}

fn lasting(
    rule: Option<Rule>,
    snapshot: &Snapshot<'_>,
    point: &PointFacts,
    run: Option<Run>,
) -> Option<Rule>
    requires few { length snapshot.now.alarm_values.now ≤ most_listed_values }
    ensures rule { result ≡ lasting (point_of snapshot.now point.now) rule run }
{
    let rule = rule?;
    if has_gone_on(&rule, snapshot, point, run) {
        Some(rule)
    } else {
        None
    }
}

/// The first rule of a state whose run has gone on for its delay at a point.
pub(crate) fn rule_lasting(
    snapshot: &Snapshot<'_>,
    point: &PointFacts,
    state: EventState,
    runs: &[Option<Run>; 3],
) -> Option<Rule>
    requires few { length snapshot.now.alarm_values.now ≤ most_listed_values }
    ensures rule { result ≡ rule_lasting snapshot.now.algorithm (point_of snapshot.now point.now) state runs.now }
{
    let algorithm = snapshot.algorithm;
    if let Some(first) = lasting(rule(algorithm, state, 0), snapshot, point, runs[0]) {
        return Some(first);
    }
    if let Some(second) = lasting(rule(algorithm, state, 1), snapshot, point, runs[1]) {
        return Some(second);
    }
    lasting(rule(algorithm, state, 2), snapshot, point, runs[2])
}
