//! The keys of a state's rules at a point.

ghost use Rattle.std.specs.Prelude.{◌≡◌, ◌≤◌, length};
ghost use Rattle.bac_values.specs.Limits.{most_listed_values};
ghost use Rattle.algorithm_rules.specs.Facts.{facts_of};
ghost use Rattle.event_machine.specs.Held.{key_in_detection, other_than};
ghost use Rattle.event_machine.specs.AlarmSteps.{key_at};

use algorithm_rules::{Rule, Snapshot, Test, key, rule};
use bac_values::EventState;

fn other_than(cause: Option<u32>, key: Option<u32>) -> Option<u32>
    ensures key { result ≡ other_than cause key }
{
    let key = key?;
    match cause {
        Some(cause) if key == cause => None,
        _ => Some(key),
    }
}

fn key_in_detection(rule: &Rule, snapshot: &Snapshot<'_>, cause: Option<u32>) -> Option<u32>
    requires few { length snapshot.now.alarm_values.now ≤ most_listed_values }
    ensures key { result ≡ key_in_detection rule.now (facts_of snapshot.now) cause }
{
    let key = key(rule, snapshot);
    match rule.test {
        Test::OtherMatch => other_than(cause, key),
        _ => key,
    }
}

/// The key of the rule at a place of a state, in which the object is by a cause.
pub(crate) fn key_at(
    snapshot: &Snapshot<'_>,
    state: EventState,
    cause: Option<u32>,
    place: u8,
) -> Option<u32>
    requires few { length snapshot.now.alarm_values.now ≤ most_listed_values }
    ensures key { result ≡ key_at snapshot.now.algorithm state cause (facts_of snapshot.now) place }
{
    let rule = rule(snapshot.algorithm, state, place)?;
    key_in_detection(&rule, snapshot, cause)
}
