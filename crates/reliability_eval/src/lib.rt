//! How far the present values of value objects can be relied on.
#![tactic(auto)]

ghost use Rattle.std.specs.Prelude.{◌≡◌};
ghost use Rattle.reliability_eval.specs.Reliability.{fault_of_field, is_fault_value, is_over, is_under, list_fault, range_fault, reliability_in, reliability_of, value_fault};

use algorithm_rules::{matches, number_of};
use bac_values::{ObjectId, ObjectKind, Reliability, Value};
use object_table::{ObjectSite, Row, Table};

/// The reliability of an object: that of its row, and no fault where the table has no such object.
pub fn reliability(table: &Table, object: ObjectId) -> Reliability
    ensures reliability { result ≡ reliability_in object table.now }
{
    match table.row(object) {
        Some(row) => reliability_of_row(row),
        None => Reliability::NoFaultDetected,
    }
}

/// The reliability of an object as its row shows it (ANSI/ASHRAE 135-2020, 13.4). Where its evaluation is inhibited there
/// is no fault; else a fault of what gives the object its value counts before one of the value itself.
pub fn reliability_of_row(row: &Row) -> Reliability
    ensures reliability { result ≡ reliability_of row.now }
{
    if row.site.reliability_inhibit {
        return Reliability::NoFaultDetected;
    }
    match fault_of_field(row.field_fault) {
        Reliability::NoFaultDetected => value_fault(row.site.object.kind(), &row.site),
        fault => fault,
    }
}

fn fault_of_field(number: u8) -> Reliability
    ensures fault { result ≡ fault_of_field number }
{
    match Reliability::of_number(u32::from(number)) {
        Some(reliability) => reliability,
        None => Reliability::NoFaultDetected,
    }
}

/// FAULT_STATE, FAULT_CHARACTERSTRING or FAULT_OUT_OF_RANGE, by the kind.
fn value_fault(kind: Option<ObjectKind>, site: &ObjectSite) -> Reliability
    ensures fault { result ≡ value_fault kind site.now }
{
    match kind {
        Some(ObjectKind::MultiStateValue | ObjectKind::CharacterStringValue) => {
            list_fault(site.fault_values.as_slice(), &site.value)
        }
        Some(ObjectKind::IntegerValue | ObjectKind::PositiveIntegerValue) => {
            range_fault(site.fault_low, site.fault_high, &site.value)
        }
        _ => Reliability::NoFaultDetected,
    }
}

fn list_fault(faults: &[Value], value: &Value) -> Reliability
    ensures fault { result ≡ list_fault faults.now value.now }
{
    if is_fault_value(faults, value) {
        Reliability::MultiStateFault
    } else {
        Reliability::NoFaultDetected
    }
}

/// Whether some fault value matches the value, as an alarm value would.
fn is_fault_value(faults: &[Value], value: &Value) -> bool
    ensures fault { result ≡ is_fault_value faults.now value.now }
{
    faults.iter().any(|fault| matches(None, fault, value))
}

fn range_fault(low: Option<i64>, high: Option<i64>, value: &Value) -> Reliability
    ensures fault { result ≡ range_fault low high value.now }
{
    let number = number_of(value);
    if is_over(high, number) {
        Reliability::OverRange
    } else if is_under(low, number) {
        Reliability::UnderRange
    } else {
        Reliability::NoFaultDetected
    }
}

fn is_over(high: Option<i64>, number: Option<i128>) -> bool
    ensures over { result ≡ is_over high number }
{
    match (high, number) {
        (Some(high), Some(number)) => i128::from(high) < number,
        _ => false,
    }
}

fn is_under(low: Option<i64>, number: Option<i128>) -> bool
    ensures under { result ≡ is_under low number }
{
    match (low, number) {
        (Some(low), Some(number)) => number < i128::from(low),
        _ => false,
    }
}
