//! Changes of value objects are made, and taken back.

ghost use Rattle.std.specs.Prelude.{◌≡◌, IsTrue, IsSome, Some, length};
ghost use Rattle.bac_values.specs.declared.value.Value.TheVariants.{Bool as Truth, Unsigned};
ghost use Rattle.bac_values.specs.BitString.{string_of_flags, three_flags, two_flags};
ghost use Rattle.object_table.specs.Objects.{IsObject, IsRow};
ghost use Rattle.object_table.specs.Properties.{kind_in};
ghost use Rattle.object_table.specs.Values.{are_flags, is_truth, is_unsigned, takes_known, takes_value};
ghost use Rattle.object_table.specs.Held.{FitsAs, HoldsLimit, IsThreeFlags, IsTwoFlags, SameType};
ghost use Rattle.object_table.specs.Writes.{changed, property_set, set_known, takes};

use crate::{ObjectProperty, ObjectSite, Row, What};
use bac_values::{Bits, PropertyId, Value};
use std::mem::replace;

/// Makes a change of a row, and gives the change that takes it back.
pub fn put(row: &mut Row, what: What) -> What
    requires allowed { IsRow row.old }
    requires taken { IsTrue (takes what row.old.site) }
    ensures row { row.new ≡ changed what row.old }
    ensures allowed { IsRow row.new }
    ensures undo { changed result row.new ≡ row.old }
    ensures takes { IsTrue (takes result row.new.site) }
    ensures object { row.new.site.object ≡ row.old.site.object }
{
    match what {
        What::Property { property, value } => {
            let value = put_value(&mut row.site, property, value);
            What::Property { property, value }
        }
        What::FieldFault { reliability } => {
            let reliability = replace(&mut row.field_fault, reliability);
            What::FieldFault { reliability }
        }
    }
}

/// Gives a property a value, and gives the value back that it had.
fn put_value(site: &mut ObjectSite, property: PropertyId, value: Value) -> Value
    requires allowed { IsObject site.old }
    requires taken { IsTrue (takes_value property.0 value site.old) }
    ensures set { site.new ≡ property_set property.0 value site.old }
    ensures allowed { IsObject site.new }
    ensures undo { property_set property.0 result site.new ≡ site.old }
    ensures takes { IsTrue (takes_value property.0 result site.new) }
    ensures object { site.new.object ≡ site.old.object }
{
    match ObjectProperty::of_number(property.0) {
        Some(property) => put_known(site, property, value),
        None => unreachable!(),
    }
}

fn put_known(site: &mut ObjectSite, property: ObjectProperty, value: Value) -> Value
    requires allowed { IsObject site.old }
    requires taken { IsTrue (takes_known (kind_in site.old) site.old (Some property) value) }
    ensures set { site.new ≡ set_known property value site.old }
    ensures allowed { IsObject site.new }
    ensures undo { set_known property result site.new ≡ site.old }
    ensures takes { IsTrue (takes_known (kind_in site.new) site.new (Some property) result) }
    ensures object { site.new.object ≡ site.old.object }
{
    match property {
        ObjectProperty::PresentValue => replace(&mut site.value, value),
        ObjectProperty::OutOfService => put_truth(&mut site.out_of_service, value),
        ObjectProperty::ReliabilityEvaluationInhibit => {
            put_truth(&mut site.reliability_inhibit, value)
        }
        ObjectProperty::TimeDelay => put_unsigned(&mut site.time_delay, value),
        ObjectProperty::TimeDelayNormal => match &mut site.time_delay_normal {
            Some(seconds) => put_unsigned(seconds, value),
            None => unreachable!(),
        },
        ObjectProperty::HighLimit => put_limit(&mut site.high, value),
        ObjectProperty::LowLimit => put_limit(&mut site.low, value),
        ObjectProperty::Deadband => put_unsigned(&mut site.deadband, value),
        ObjectProperty::LimitEnable => put_two_flags(&mut site.limit_enable, value),
        ObjectProperty::AlarmValue => match &mut site.alarm_value {
            Some(alarm) => replace(alarm, value),
            None => unreachable!(),
        },
        ObjectProperty::EventEnable => put_three_flags(&mut site.enable, value),
        ObjectProperty::EventAlgorithmInhibit => put_truth(&mut site.inhibit, value),
        _ => unreachable!(),
    }
}

fn put_truth(truth: &mut bool, value: Value) -> Value
    requires truth { IsTrue (is_truth value) }
    ensures new { value ≡ Truth truth.new }
    ensures old { result ≡ Truth truth.old }
{
    match value {
        Value::Bool(new) => Value::Bool(replace(truth, new)),
        _ => unreachable!(),
    }
}

fn put_unsigned(number: &mut u32, value: Value) -> Value
    requires unsigned { IsTrue (is_unsigned value) }
    ensures new { value ≡ Unsigned number.new }
    ensures old { result ≡ Unsigned number.old }
{
    match value {
        Value::Unsigned(new) => Value::Unsigned(replace(number, new)),
        _ => unreachable!(),
    }
}

fn put_limit(limit: &mut i64, value: Value) -> Value
    requires fits { FitsAs value limit.old }
    ensures new { HoldsLimit value limit.new }
    ensures old { HoldsLimit result limit.old }
    ensures same { SameType value result }
    ensures fits { FitsAs value limit.new }
{
    match value {
        Value::Signed(new) => Value::Signed(replace(limit, i64::from(new)) as i32),
        Value::Unsigned(new) => Value::Unsigned(replace(limit, i64::from(new)) as u32),
        _ => unreachable!(),
    }
}

fn put_two_flags(flags: &mut [bool; 2], value: Value) -> Value
    requires bits { IsTrue (are_flags 2 value) }
    ensures new { IsTwoFlags value flags.new }
    ensures old { result ≡ Value.Bits (string_of_flags flags.old) }
    ensures size { length flags.new ≡ 2 }
{
    match value {
        Value::Bits(new) => Value::Bits(Bits::of_flags(&replace(flags, new.two_flags()))),
        _ => unreachable!(),
    }
}

fn put_three_flags(flags: &mut [bool; 3], value: Value) -> Value
    requires bits { IsTrue (are_flags 3 value) }
    ensures new { IsThreeFlags value flags.new }
    ensures old { result ≡ Value.Bits (string_of_flags flags.old) }
    ensures size { length flags.new ≡ 3 }
{
    match value {
        Value::Bits(new) => Value::Bits(Bits::of_flags(&replace(flags, new.three_flags()))),
        _ => unreachable!(),
    }
}
