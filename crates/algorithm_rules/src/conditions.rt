//! Whether the condition of a rule holds, and for which case.

ghost use Rattle.std.specs.Prelude.{◌≡◌, ◌≤◌, ◌↔◌, IsTrue, length, ◌+ℤ◌, ◌-ℤ◌, ℤ};
ghost use Rattle.bac_values.specs.Limits.{most_listed_values};
ghost use Rattle.algorithm_rules.specs.Conditions.{is_above, is_below, is_met, is_within, key_of, number_in};
ghost use Rattle.algorithm_rules.specs.Facts.{facts_of};
ghost use Rattle.algorithm_rules.specs.SameValue.{same_value};

use crate::{Rule, Snapshot, Test, matched};
use bac_values::Value;

/// The key of a rule whose condition holds, or none. It is the position of the first alarm value that matches for the
/// rule on another match, and 0 for every other one.
pub fn key(rule: &Rule, snapshot: &Snapshot<'_>) -> Option<u32>
    requires few { length snapshot.now.alarm_values.now ≤ most_listed_values }
    ensures key { result ≡ key_of rule.now (facts_of snapshot.now) }
{
    match rule.test {
        Test::OtherMatch => matched(snapshot),
        test => is_met(test, snapshot).then_some(0),
    }
}

fn is_met(test: Test, snapshot: &Snapshot<'_>) -> bool
    requires few { length snapshot.now.alarm_values.now ≤ most_listed_values }
    ensures met { result ≡ is_met test (facts_of snapshot.now) }
{
    let [low_enabled, high_enabled] = snapshot.limit_enable;
    let number = number_of(snapshot.value);
    let low = i128::from(snapshot.low);
    let high = i128::from(snapshot.high);
    let deadband = i128::from(snapshot.deadband);
    match test {
        Test::SomeMatch | Test::OtherMatch => matched(snapshot).is_some(),
        Test::NoMatch => matched(snapshot).is_none(),
        Test::FeedbackDiffers => snapshot
            .feedback
            .is_some_and(|feedback| !is_same(feedback, snapshot.value)),
        Test::FeedbackEquals => snapshot
            .feedback
            .is_some_and(|feedback| is_same(feedback, snapshot.value)),
        Test::AboveEnabledHigh => high_enabled && is_above(high, number),
        Test::BelowEnabledLow => low_enabled && is_below(low, number),
        Test::HighDisabled => !high_enabled,
        Test::LowDisabled => !low_enabled,
        Test::BelowHighLessDeadband => is_below(high - deadband, number),
        Test::AboveLowPlusDeadband => is_above(low + deadband, number),
        Test::AboveHigh => is_above(high, number),
        Test::BelowLow => is_below(low, number),
        Test::Within => is_within(low, high, number),
    }
}

fn is_same(feedback: &Value, value: &Value) -> bool
    ensures same { result ≡ same_value feedback.now value.now }
    ensures equal { IsTrue result ↔ (feedback.now ≡ value.now) }
{
    feedback == value
}

/// The whole number that a value is, with a sign or without one. Sums and differences of it and of limits have room.
pub fn number_of(value: &Value) -> Option<i128>
    ensures number { result ≡ number_in value.now }
{
    match value {
        Value::Signed(number) => Some(i128::from(*number)),
        Value::Unsigned(number) => Some(i128::from(*number)),
        _ => None,
    }
}

fn is_above(bound: i128, number: Option<i128>) -> bool
    ensures above { result ≡ is_above bound number }
{
    number.is_some_and(|number| number > bound)
}

fn is_below(bound: i128, number: Option<i128>) -> bool
    ensures below { result ≡ is_below bound number }
{
    number.is_some_and(|number| number < bound)
}

fn is_within(low: i128, high: i128, number: Option<i128>) -> bool
    ensures within { result ≡ is_within low high number }
{
    number.is_some_and(|number| (low..=high).contains(&number))
}
