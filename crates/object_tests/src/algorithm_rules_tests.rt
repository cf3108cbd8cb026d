//! The rules of the algorithms.

ghost use Rattle.std.specs.Prelude.{◌≡◌, ◌≤◌, length, []};

use crate::comparing::{holds, same};
use algorithm_rules::Algorithm::*;
use algorithm_rules::Test::*;
use algorithm_rules::Waiting::*;
use algorithm_rules::*;
use bac_values::EventState::{self, Fault, HighLimit, LowLimit, Normal, Offnormal};
use bac_values::{Bits, Text, Value};
use std::alloc::Global;
use std::process::Abort;
use std::test::Fail;

/// An object with limits 20 and 80, a deadband of 5, both limits enabled, and a delay of 10 seconds.
fn object<'a>(algorithm: Algorithm, value: &'a Value, alarms: &'a [Value]) -> Snapshot<'a>
    ensures { result.alarm_values.now ≡ alarms.now }
{
    with_feedback(algorithm, value, alarms, None, None)
}

fn with_feedback<'a>(
    algorithm: Algorithm,
    value: &'a Value,
    alarm_values: &'a [Value],
    alarm_value: Option<&'a Value>,
    feedback: Option<&'a Value>,
) -> Snapshot<'a>
    ensures { result.alarm_values.now ≡ alarm_values.now }
{
    Snapshot {
        algorithm,
        value,
        feedback,
        alarm_value,
        alarm_values,
        mask: None,
        low: 20,
        high: 80,
        limit_enable: [true, true],
        deadband: 5,
        time_delay: 10,
        time_delay_normal: None,
    }
}

fn leads(target: EventState, test: Test, wait: Waiting) -> Option<Rule> {
    Some(Rule { target, test, wait })
}

fn is_met(test: Test, snapshot: &Snapshot<'_>) -> bool
    requires { length snapshot.now.alarm_values.now ≤ 32 }
{
    let rule = Rule {
        target: Normal,
        test,
        wait: AtOnce,
    };
    key(&rule, snapshot).is_some()
}

/// The rules of an algorithm in a state are these, in their order.
fn expect_rules(rt: &impl Abort, algorithm: Algorithm, state: EventState, wanted: &[Option<Rule>]) {
    let mut place: u8 = 0;
    for own in wanted {
        same(rt, &(place, rule(algorithm, state, place)), &(place, *own));
        place = place.wrapping_add(1);
    }
    same(rt, &(place, rule(algorithm, state, place)), &(place, None));
}

fn expect_matches(rt: &impl Abort, algorithm: Algorithm) {
    let normal = [leads(Offnormal, SomeMatch, TimeDelay)];
    expect_rules(rt, algorithm, Normal, &normal);
    let offnormal = [
        leads(Normal, NoMatch, NormalDelay),
        leads(Offnormal, OtherMatch, TimeDelay),
    ];
    expect_rules(rt, algorithm, Offnormal, &offnormal);
    expect_rules(rt, algorithm, Fault, &[]);
    expect_rules(rt, algorithm, HighLimit, &[]);
    expect_rules(rt, algorithm, LowLimit, &[]);
}

#[test]
fn matches_lead_to_offnormal_and_back(rt: HostRuntime) {
    expect_matches(&rt, ChangeOfState);
    expect_matches(&rt, ChangeOfBitstring);
    expect_matches(&rt, ChangeOfCharacterstring);
}

#[test]
fn a_command_that_fails_leads_to_offnormal_and_back(rt: HostRuntime) {
    let algorithm = CommandFailure;
    let normal = [leads(Offnormal, FeedbackDiffers, TimeDelay)];
    expect_rules(&rt, algorithm, Normal, &normal);
    let offnormal = [leads(Normal, FeedbackEquals, NormalDelay)];
    expect_rules(&rt, algorithm, Offnormal, &offnormal);
    expect_rules(&rt, algorithm, Fault, &[]);
    expect_rules(&rt, algorithm, HighLimit, &[]);
    expect_rules(&rt, algorithm, LowLimit, &[]);
}

fn expect_limits(rt: &impl Abort, algorithm: Algorithm) {
    let normal = [
        leads(HighLimit, AboveEnabledHigh, TimeDelay),
        leads(LowLimit, BelowEnabledLow, TimeDelay),
    ];
    expect_rules(rt, algorithm, Normal, &normal);
    let high = [
        leads(Normal, HighDisabled, AtOnce),
        leads(LowLimit, BelowEnabledLow, TimeDelay),
        leads(Normal, BelowHighLessDeadband, NormalDelay),
    ];
    expect_rules(rt, algorithm, HighLimit, &high);
    let low = [
        leads(Normal, LowDisabled, AtOnce),
        leads(HighLimit, AboveEnabledHigh, TimeDelay),
        leads(Normal, AboveLowPlusDeadband, NormalDelay),
    ];
    expect_rules(rt, algorithm, LowLimit, &low);
    expect_rules(rt, algorithm, Fault, &[]);
    expect_rules(rt, algorithm, Offnormal, &[]);
}

#[test]
fn limits_with_a_deadband_lead_up_down_and_back(rt: HostRuntime) {
    expect_limits(&rt, SignedOutOfRange);
    expect_limits(&rt, UnsignedOutOfRange);
}

#[test]
fn a_range_leads_up_down_and_back(rt: HostRuntime) {
    let algorithm = UnsignedRange;
    let normal = [
        leads(HighLimit, AboveHigh, TimeDelay),
        leads(LowLimit, BelowLow, TimeDelay),
    ];
    expect_rules(&rt, algorithm, Normal, &normal);
    let high = [
        leads(LowLimit, BelowLow, TimeDelay),
        leads(Normal, Within, NormalDelay),
    ];
    expect_rules(&rt, algorithm, HighLimit, &high);
    let low = [
        leads(HighLimit, AboveHigh, TimeDelay),
        leads(Normal, Within, NormalDelay),
    ];
    expect_rules(&rt, algorithm, LowLimit, &low);
    expect_rules(&rt, algorithm, Fault, &[]);
    expect_rules(&rt, algorithm, Offnormal, &[]);
}

/// A text matches the alarm value at this place, or none.
fn expect_text<'a>(rt: &impl Abort, alarms: &'a [Value], value: &'a Value, place: Option<u32>)
    requires few { length alarms.now ≤ 32 }
{
    let snapshot = object(ChangeOfCharacterstring, value, alarms);
    same(rt, &matched(&snapshot), &place);
    same(rt, &is_met(SomeMatch, &snapshot), &place.is_some());
    same(rt, &is_met(NoMatch, &snapshot), &place.is_none());
}

fn text(alloc: Global, text: &str) -> Result<Value, Fail> {
    Ok(Value::Text(Text::new(alloc, text)?))
}

/// Where the empty text and "fire" are alarm values, a text matches the one at this place, or none.
fn expect_fire(
    rt: &impl Abort,
    alloc: Global,
    octets: &str,
    place: Option<u32>,
) -> Result<(), Fail> {
    let alarms = [text(alloc, "")?, text(alloc, "fire")?];
    expect_text(rt, &alarms, &text(alloc, octets)?, place);
    Ok(())
}

#[test]
fn texts_match_the_empty_text_or_what_occurs_in_them(rt: HostRuntime) -> Result<(), Fail> {
    expect_fire(&rt, rt.alloc(), "", Some(0))?;
    expect_fire(&rt, rt.alloc(), "no fire here", Some(1))?;
    expect_fire(&rt, rt.alloc(), "calm", None)
}

/// Four bits match the alarm value at this place under a mask that leaves the third and the fourth bit, and the one at
/// that place without a mask, or none.
fn expect_bits(
    rt: &impl Abort,
    alarms: &[Value],
    bits: u64,
    masked: Option<u32>,
    plainly: Option<u32>,
) -> Result<(), Fail>
    requires few { length alarms.now ≤ 32 }
{
    let mask = Some(Bits::new(4, 0b1100)?);
    let value = Value::Bits(Bits::new(4, bits)?);
    let plain = object(ChangeOfBitstring, &value, alarms);
    same(rt, &(bits, matched(&plain)), &(bits, plainly));
    let seen = Snapshot { mask, ..plain };
    same(rt, &(bits, matched(&seen)), &(bits, masked));
    Ok(())
}

/// The alarm values are 10.. and 01.. under the mask, and one is shorter.
fn expect_all_bits(rt: &impl Abort, alarms: &[Value]) -> Result<(), Fail>
    requires few { length alarms.now ≤ 32 }
{
    expect_bits(rt, alarms, 0b1011, Some(0), None)?;
    expect_bits(rt, alarms, 0b0110, Some(1), Some(1))?;
    expect_bits(rt, alarms, 0b1100, None, None)?;
    expect_bits(rt, alarms, 0b0011, None, None)
}

#[test]
fn bit_strings_match_where_the_mask_has_bits(rt: HostRuntime) -> Result<(), Fail> {
    let (first, second) = (Bits::new(4, 0b1001)?, Bits::new(4, 0b0110)?);
    let third = Bits::new(3, 0b100)?;
    let alarms = [Value::Bits(first), Value::Bits(second), Value::Bits(third)];
    expect_all_bits(&rt, &alarms)
}

/// Where 2 and 3 are alarm values, a state matches the one at this place, or none.
fn expect_state(rt: &impl Abort, state: u32, place: Option<u32>) {
    let alarms = [Value::Unsigned(2), Value::Unsigned(3)];
    let value = Value::Unsigned(state);
    let snapshot = object(ChangeOfState, &value, &alarms);
    let other = Rule {
        target: Offnormal,
        test: OtherMatch,
        wait: TimeDelay,
    };
    same(rt, &matched(&snapshot), &place);
    same(rt, &key(&other, &snapshot), &place);
}

#[test]
fn states_match_where_they_are_equal(rt: HostRuntime) {
    expect_state(&rt, 1, None);
    expect_state(&rt, 2, Some(0));
    expect_state(&rt, 3, Some(1));
}

/// Where the alarm value is this one alone, a value matches it, or doesn't.
fn expect_only<'a>(rt: &impl Abort, alarm: &'a Value, value: &'a Value, place: Option<u32>) {
    let seen = with_feedback(ChangeOfState, value, &[], Some(alarm), None);
    same(rt, &matched(&seen), &place);
}

#[test]
fn a_state_matches_the_only_alarm_value_where_it_is_equal(rt: HostRuntime) {
    let (active, inactive) = (Value::Enumerated(1), Value::Enumerated(0));
    expect_only(&rt, &active, &active, Some(0));
    expect_only(&rt, &active, &inactive, None);
}

/// Which tests an integer value meets: above and below a limit that is enabled, back from each by the deadband, above
/// and below any limit, and within both.
fn limits_met(number: i32) -> [bool; 7] {
    let value = Value::Signed(number);
    let seen = object(SignedOutOfRange, &value, &[]);
    [
        is_met(AboveEnabledHigh, &seen),
        is_met(BelowEnabledLow, &seen),
        is_met(BelowHighLessDeadband, &seen),
        is_met(AboveLowPlusDeadband, &seen),
        is_met(AboveHigh, &seen),
        is_met(BelowLow, &seen),
        is_met(Within, &seen),
    ]
}

/// Where the low limit alone is enabled: the first two of these, and whether the high and the low limit are disabled.
fn low_limit_met(number: i32) -> [bool; 4] {
    let value = Value::Signed(number);
    let seen = Snapshot {
        limit_enable: [true, false],
        ..object(SignedOutOfRange, &value, &[])
    };
    [
        is_met(AboveEnabledHigh, &seen),
        is_met(BelowEnabledLow, &seen),
        is_met(HighDisabled, &seen),
        is_met(LowDisabled, &seen),
    ]
}

/// An integer value is above the high limit or below the low one, back from either, or within.
fn expect_met(rt: &impl Abort, number: i32, out: [bool; 2], back: [bool; 2], within: bool) {
    let ([above, below], [less, more]) = (out, back);
    let met = [above, below, less, more, above, below, within];
    same(rt, &(number, limits_met(number)), &(number, met));
    let met = [false, below, true, false];
    same(rt, &(number, low_limit_met(number)), &(number, met));
}

#[test]
fn limits_are_strict_and_the_deadband_lies_within(rt: HostRuntime) {
    expect_met(&rt, 81, [true, false], [false, true], false);
    expect_met(&rt, 80, [false, false], [false, true], true);
    expect_met(&rt, 75, [false, false], [false, true], true);
    expect_met(&rt, 74, [false, false], [true, true], true);
    expect_met(&rt, 26, [false, false], [true, true], true);
    expect_met(&rt, 25, [false, false], [true, false], true);
    expect_met(&rt, 20, [false, false], [true, false], true);
    expect_met(&rt, 19, [false, true], [true, false], false);
}

/// The greatest number isn't back from the low limit, which would need a value above 2,147,483,648.
fn expect_highest(rt: &impl Abort, highest: &Snapshot<'_>)
    requires few { length highest.now.alarm_values.now ≤ 32 }
{
    same(rt, &is_met(AboveLowPlusDeadband, highest), &false);
    same(rt, &is_met(AboveEnabledHigh, highest), &false);
    let narrow = Snapshot {
        low: i64::MAX,
        high: i64::MIN,
        ..*highest
    };
    same(rt, &is_met(AboveLowPlusDeadband, &narrow), &false);
    same(rt, &is_met(BelowHighLessDeadband, &narrow), &false);
}

#[test]
fn sums_have_no_bounds(rt: HostRuntime) {
    let (least, greatest) = (Value::Signed(-2_147_483_648), Value::Signed(2_147_483_647));
    let lowest = Snapshot {
        low: -2_147_483_647,
        high: 2_147_483_647,
        deadband: 4_294_967_295,
        ..object(SignedOutOfRange, &least, &[])
    };
    same(&rt, &is_met(BelowEnabledLow, &lowest), &true);
    let highest = Snapshot {
        value: &greatest,
        ..lowest
    };
    expect_highest(&rt, &highest);
}

/// Whether a command of 50 equals this feedback, and differs from it.
fn feedback_met(feedback: i32) -> [bool; 2] {
    let (value, feedback) = (Value::Signed(50), Value::Signed(feedback));
    let seen = with_feedback(CommandFailure, &value, &[], None, Some(&feedback));
    [
        is_met(FeedbackEquals, &seen),
        is_met(FeedbackDiffers, &seen),
    ]
}

#[test]
fn feedback_is_compared(rt: HostRuntime) {
    same(&rt, &feedback_met(50), &[true, false]);
    same(&rt, &feedback_met(51), &[false, true]);
}

/// The delay of a rule with this test that waits so.
fn delay_of(seen: &Snapshot<'_>, test: Test, wait: Waiting) -> u32
    requires few { length seen.now.alarm_values.now ≤ 32 }
{
    let rule = Rule {
        target: Normal,
        test,
        wait,
    };
    delay(&rule, seen)
}

/// An object has a delay of 10 seconds, and of none to normal.
fn expect_quick(rt: &impl Abort, seen: &Snapshot<'_>)
    requires few { length seen.now.alarm_values.now ≤ 32 }
{
    same(rt, &delay_of(seen, FeedbackEquals, NormalDelay), &0);
    same(rt, &delay_of(seen, Within, TimeDelay), &10);
    same(rt, &delay_of(seen, Within, NormalDelay), &0);
    same(rt, &delay_of(seen, Within, AtOnce), &0);
}

#[test]
fn delays_are_chosen(rt: HostRuntime) {
    let value = Value::Signed(50);
    let seen = with_feedback(CommandFailure, &value, &[], None, Some(&value));
    same(&rt, &delay_of(&seen, FeedbackEquals, NormalDelay), &10);
    let quick = Snapshot {
        time_delay_normal: Some(0),
        ..seen
    };
    expect_quick(&rt, &quick);
}

#[test]
fn each_algorithm_has_the_number_of_its_event_type(rt: HostRuntime) {
    let numbers = [
        ChangeOfBitstring.event_type(),
        ChangeOfState.event_type(),
        CommandFailure.event_type(),
        UnsignedRange.event_type(),
        SignedOutOfRange.event_type(),
        UnsignedOutOfRange.event_type(),
        ChangeOfCharacterstring.event_type(),
    ];
    same(&rt, &numbers, &[0, 1, 3, 11, 15, 16, 17]);
}

#[test]
fn a_value_matches_one_of_its_type(rt: HostRuntime) {
    let one = Value::Unsigned(1);
    holds(&rt, matches(None, &one, &Value::Unsigned(1)));
    holds(&rt, !matches(None, &one, &Value::Enumerated(1)));
    same(&rt, &number_of(&Value::Signed(-5)), &Some(-5));
    same(
        &rt,
        &number_of(&Value::Unsigned(u32::MAX)),
        &Some(4_294_967_295),
    );
    same(&rt, &number_of(&Value::Enumerated(1)), &None);
}
