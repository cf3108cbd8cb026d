//! Whether a value matches an alarm value.

ghost use Rattle.std.specs.Prelude.{◌≡◌, ◌<◌, ◌≤◌, IfSome, length, position};
ghost use Rattle.bac_values.specs.Limits.{most_listed_values};
ghost use Rattle.algorithm_rules.specs.Facts.{facts_of};
ghost use Rattle.algorithm_rules.specs.Matches.{matched_in, matches, matches_bits, matches_text, occurs_in};

use crate::Snapshot;
use bac_values::{Bits, Value};
use memchr::memmem;

/// The position of the first alarm value that matches the value, from 0.
pub fn matched(snapshot: &Snapshot<'_>) -> Option<u32>
    requires few { length snapshot.now.alarm_values.now ≤ most_listed_values }
    ensures matched { result ≡ matched_in (facts_of snapshot.now) }
{
    match snapshot.alarm_value {
        Some(alarm) => matches(snapshot.mask, alarm, snapshot.value).then_some(0),
        None => first_match(snapshot).map(|place| place as u32),
    }
}

fn first_match(snapshot: &Snapshot<'_>) -> Option<usize>
    ensures first { result ≡ position (λ alarm. matches snapshot.now.mask alarm snapshot.now.value.now) snapshot.now.alarm_values.now }
    ensures among { IfSome result (λ place. place < length snapshot.now.alarm_values.now) }
{
    snapshot
        .alarm_values
        .iter()
        .position(|alarm| matches(snapshot.mask, alarm, snapshot.value))
}

/// Whether an alarm value matches a value: a number, an enumeration or a truth value that is equal, a string of bits of the
/// same length with equal bits where the mask has them, all bits where there is none, or a text in which the alarm text
/// occurs, of which the empty one matches the empty text alone.
pub fn matches(mask: Option<Bits>, alarm: &Value, value: &Value) -> bool
    ensures matches { result ≡ matches mask alarm.now value.now }
{
    match (alarm, value) {
        (Value::Bool(alarm), Value::Bool(value)) => alarm == value,
        (Value::Unsigned(alarm), Value::Unsigned(value)) => alarm == value,
        (Value::Signed(alarm), Value::Signed(value)) => alarm == value,
        (Value::Enumerated(alarm), Value::Enumerated(value)) => alarm == value,
        (Value::Bits(alarm), Value::Bits(value)) => matches_bits(mask, alarm, value),
        (Value::Text(alarm), Value::Text(value)) => matches_text(alarm.octets(), value.octets()),
        _ => false,
    }
}

fn matches_bits(mask: Option<Bits>, alarm: &Bits, value: &Bits) -> bool
    ensures matches { result ≡ matches_bits mask alarm.now value.now }
{
    if alarm.length() != value.length() {
        return false;
    }
    match mask {
        None => alarm.bits() == value.bits(),
        Some(mask) => alarm.bits() & mask.bits() == value.bits() & mask.bits(),
    }
}

fn matches_text(alarm: &[u8], value: &[u8]) -> bool
    ensures matches { result ≡ matches_text alarm.now value.now }
{
    if alarm.is_empty() {
        return value.is_empty();
    }
    occurs_in(alarm, value)
}

fn occurs_in(part: &[u8], whole: &[u8]) -> bool
    ensures occurs { result ≡ occurs_in part.now whole.now }
{
    match memmem::find(whole, part) {
        Some(_) => true,
        None => false,
    }
}
