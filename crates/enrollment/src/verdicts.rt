//! Writes of enrollments are checked.

ghost use Rattle.std.specs.Prelude.{◌≡◌, ◌||◌, IfErr, IsTrue};
ghost use Rattle.object_table.specs.Values.{are_flags, is_truth};
ghost use Rattle.enrollment.specs.Verdicts.{IsError, can_be, write_verdict, writable_tag};
ghost use Rattle.enrollment.specs.Writes.{takes, takes_value};

use crate::{EnrollmentProperty, EnrollmentSite};
use bac_values::{ApplicationTag, PropertyId, Value};
use object_table::{What, WriteFault, check_index, check_value, inhibit_tag};

/// Whether an enrollment takes a change.
pub fn takes(site: &EnrollmentSite, what: &What) -> bool
    ensures takes { result ≡ takes what.now site.now }
{
    match what {
        What::Property { property, value } => takes_value(site, *property, value),
        What::FieldFault { .. } => false,
    }
}

// Whether a property can be written and be the value.
fn takes_value(site: &EnrollmentSite, property: PropertyId, value: &Value) -> bool
    ensures takes { result ≡ takes_value property.0 value.now site.now }
{
    match EnrollmentProperty::of_number(property.0) {
        Some(property) => can_be(site, property, value),
        None => false,
    }
}

/// Whether an enrollment takes a write of a property; the first error that applies is told.
pub fn check_property(
    site: &EnrollmentSite,
    property: PropertyId,
    index: Option<u32>,
    value: &Value,
) -> Result<(), WriteFault>
    ensures verdict { result ≡ write_verdict site.now property.0 index value.now }
    ensures error { IfErr result IsError }
{
    match EnrollmentProperty::of_number(property.0) {
        Some(property) if site.has(property) => {
            check_index(property.array_length(), index)?;
            let possible = can_be(site, property, value);
            check_value(writable_tag(site, property), possible, value)
        }
        _ => Err(WriteFault::UNKNOWN_PROPERTY),
    }
}

/// The same value. It is none that wants memory.
pub fn copy_of(value: &Value) -> Value
    requires small { IsTrue (are_flags 3 value.now || is_truth value.now) }
    ensures same { result ≡ value.now }
{
    match value {
        Value::Bool(truth) => Value::Bool(*truth),
        Value::Bits(flags) => Value::Bits(*flags),
        _ => unreachable!(),
    }
}

/// The number of the application tag of a property that may be written.
fn writable_tag(site: &EnrollmentSite, property: EnrollmentProperty) -> Option<u8>
    ensures tag { result ≡ writable_tag site.now property }
{
    match property {
        EnrollmentProperty::EventEnable => Some(ApplicationTag::BIT_STRING.0),
        EnrollmentProperty::EventAlgorithmInhibit => inhibit_tag(site.inhibit_ref),
        _ => None,
    }
}

/// Whether a property that may be written can be the value.
fn can_be(site: &EnrollmentSite, property: EnrollmentProperty, value: &Value) -> bool
    ensures possible { result ≡ can_be site.now property value.now }
{
    match property {
        EnrollmentProperty::EventEnable => are_three_flags(value),
        EnrollmentProperty::EventAlgorithmInhibit => {
            site.inhibit_ref.is_none() && is_truth(value)
        }
        _ => false,
    }
}

fn are_three_flags(value: &Value) -> bool
    ensures flags { result ≡ are_flags 3 value.now }
{
    match value {
        Value::Bits(string) => string.length() == 3,
        _ => false,
    }
}

fn is_truth(value: &Value) -> bool
    ensures truth { result ≡ is_truth value.now }
{
    matches!(value, Value::Bool(_))
}
