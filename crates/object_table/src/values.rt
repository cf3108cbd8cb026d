//! Which values a property can be.

ghost use Rattle.std.specs.Prelude.{◌≡◌, ℕ};
ghost use Rattle.object_table.specs.Values.{are_flags, can_be, has_length_of, is_binary_value, is_field_fault, is_number, is_present_value, is_state, is_text, is_truth, is_unsigned, takes_value};
ghost use Rattle.object_table.specs.Writes.{takes};

use crate::properties::has;
use crate::{ObjectProperty, ObjectSite, What};
use bac_values::{ObjectKind, PropertyId, Reliability, Value};

/// Whether an object takes a change.
pub fn takes(what: &What, site: &ObjectSite) -> bool
    ensures takes { result ≡ takes what.now site.now }
{
    match what {
        What::Property { property, value } => takes_value(site, *property, value),
        What::FieldFault { reliability } => is_field_fault(u32::from(*reliability)),
    }
}

/// Whether a property of an object can be written and be the value.
fn takes_value(site: &ObjectSite, property: PropertyId, value: &Value) -> bool
    ensures takes { result ≡ takes_value property.0 value.now site.now }
{
    let kind = site.object.kind();
    match ObjectProperty::of_number(property.0) {
        Some(property) => has(kind, site, property) && can_be(kind, site, property, value),
        None => false,
    }
}

/// Whether a property that may be written can be the value.
pub fn can_be(
    kind: Option<ObjectKind>,
    site: &ObjectSite,
    property: ObjectProperty,
    value: &Value,
) -> bool
    ensures possible { result ≡ can_be kind site.now property value.now }
{
    match property {
        ObjectProperty::PresentValue => is_present_value(kind, site, value),
        ObjectProperty::OutOfService | ObjectProperty::ReliabilityEvaluationInhibit => {
            is_truth(value)
        }
        ObjectProperty::EventAlgorithmInhibit => site.inhibit_ref.is_none() && is_truth(value),
        ObjectProperty::TimeDelay | ObjectProperty::TimeDelayNormal | ObjectProperty::Deadband => {
            is_unsigned(value)
        }
        ObjectProperty::HighLimit | ObjectProperty::LowLimit => is_number(kind, value),
        ObjectProperty::LimitEnable => are_flags(2, value),
        ObjectProperty::EventEnable => are_flags(3, value),
        ObjectProperty::AlarmValue => is_binary_value(value),
        _ => false,
    }
}

/// Whether an object of a kind can have the value as its present one.
pub fn is_present_value(kind: Option<ObjectKind>, site: &ObjectSite, value: &Value) -> bool
    ensures possible { result ≡ is_present_value kind site.now value.now }
{
    match kind {
        Some(ObjectKind::IntegerValue | ObjectKind::PositiveIntegerValue) => is_number(kind, value),
        Some(ObjectKind::BinaryValue) => is_binary_value(value),
        Some(ObjectKind::MultiStateValue) => is_state(site.states, value),
        Some(ObjectKind::BitStringValue) => has_length_of(&site.value, value),
        Some(ObjectKind::CharacterStringValue) => is_text(value),
        _ => false,
    }
}

/// Whether a number is that of a reliability of what gives an object its value.
pub fn is_field_fault(number: u32) -> bool
    ensures fault { result ≡ is_field_fault number }
{
    number == u32::from(Reliability::NoFaultDetected.number())
        || number == u32::from(Reliability::OverRange.number())
        || number == u32::from(Reliability::UnderRange.number())
        || number == u32::from(Reliability::UnreliableOther.number())
        || number == u32::from(Reliability::CommunicationFailure.number())
}

fn is_truth(value: &Value) -> bool
    ensures truth { result ≡ is_truth value.now }
{
    matches!(value, Value::Bool(_))
}

fn is_unsigned(value: &Value) -> bool
    ensures unsigned { result ≡ is_unsigned value.now }
{
    matches!(value, Value::Unsigned(_))
}

fn is_text(value: &Value) -> bool
    ensures text { result ≡ is_text value.now }
{
    matches!(value, Value::Text(_))
}

fn is_binary_value(value: &Value) -> bool
    ensures binary { result ≡ is_binary_value value.now }
{
    match value {
        Value::Enumerated(number) => *number <= 1,
        _ => false,
    }
}

fn is_state(states: u32, value: &Value) -> bool
    ensures state { result ≡ is_state states value.now }
{
    match value {
        Value::Unsigned(state) => 1 <= *state && *state <= states,
        _ => false,
    }
}

fn are_flags(size: u8, value: &Value) -> bool
    ensures flags { result ≡ are_flags size value.now }
{
    match value {
        Value::Bits(string) => string.length() == size,
        _ => false,
    }
}

fn has_length_of(old: &Value, value: &Value) -> bool
    ensures length { result ≡ has_length_of old.now value.now }
{
    match (old, value) {
        (Value::Bits(old), Value::Bits(string)) => string.length() == old.length(),
        _ => false,
    }
}

fn is_number(kind: Option<ObjectKind>, value: &Value) -> bool
    ensures number { result ≡ is_number kind value.now }
{
    match kind {
        Some(ObjectKind::IntegerValue) => matches!(value, Value::Signed(_)),
        Some(ObjectKind::PositiveIntegerValue) => is_unsigned(value),
        _ => false,
    }
}
