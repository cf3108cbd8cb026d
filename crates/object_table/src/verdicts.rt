//! Writes of value objects, and what comes from the field, are checked in the order of the errors.

ghost use Rattle.std.specs.Prelude.{◌≡◌, Ok, Err, if◌then◌else◌};
ghost use Rattle.object_table.specs.Objects.{IsObject};
ghost use Rattle.object_table.specs.Properties.{kind_in};
ghost use Rattle.object_table.specs.Verdicts.{content_verdict, index_verdict, inhibit_tag, set_verdict, tag_of, value_out_of_range, value_tag, value_verdict, writable_tag, write_verdict};

use crate::properties::{has, length_of};
use crate::values::{can_be, is_present_value};
use crate::{ObjectProperty, ObjectSite, WriteFault};
use bac_values::{ApplicationTag, Foreign, ObjectId, ObjectKind, PropertyId, SetFault, Value};

/// Whether an object takes a write of a property; the first error that applies is told.
pub fn check_object(
    site: &ObjectSite,
    property: PropertyId,
    index: Option<u32>,
    value: &Value,
) -> Result<(), WriteFault>
    requires allowed { IsObject site.now }
    ensures verdict { result ≡ write_verdict site.now property.0 index value.now }
{
    let kind = site.object.kind();
    match ObjectProperty::of_number(property.0) {
        Some(property) if has(kind, site, property) => {
            check_index(length_of(kind, site, property), index)?;
            let possible = can_be(kind, site, property, value);
            check_value(writable_tag(kind, site, property), possible, value)
        }
        _ => Err(WriteFault::UNKNOWN_PROPERTY),
    }
}

/// Whether an object takes a present value that comes from the field; the first cause against it is told.
pub fn check_present_value(site: &ObjectSite, value: &Value) -> Result<(), SetFault>
    ensures verdict { result ≡ set_verdict (kind_in site.now) site.now value.now }
{
    if site.out_of_service {
        return Err(SetFault::OutOfService);
    }
    let kind = site.object.kind();
    if value_tag(kind) != Some(tag_of(value)) {
        return Err(SetFault::WrongKind);
    }
    if !is_present_value(kind, site, value) {
        return Err(SetFault::ValueRange);
    }
    Ok(())
}

/// Whether an index may be given for a property that is an array of a length, or none.
pub fn check_index(length: Option<u32>, index: Option<u32>) -> Result<(), WriteFault>
    ensures verdict { result ≡ index_verdict length index }
{
    match (length, index) {
        (_, None) => Ok(()),
        (None, Some(_)) => Err(WriteFault::PROPERTY_IS_NOT_AN_ARRAY),
        (Some(length), Some(index)) if length < index => Err(WriteFault::INVALID_ARRAY_INDEX),
        (Some(_), Some(_)) => Ok(()),
    }
}

/// Whether a property takes a value, by the number of its type's application tag, which is none where it can't be
/// written, and by whether it can be the value.
pub fn check_value(tag: Option<u8>, possible: bool, value: &Value) -> Result<(), WriteFault>
    ensures verdict { result ≡ value_verdict tag possible value.now }
{
    let Some(tag) = tag else {
        return Err(WriteFault::WRITE_ACCESS_DENIED);
    };
    if tag_of(value) != tag {
        return Err(WriteFault::INVALID_DATA_TYPE);
    }
    check_content(possible, value)
}

fn check_content(possible: bool, value: &Value) -> Result<(), WriteFault>
    ensures verdict { result ≡ content_verdict possible value.now }
{
    match value {
        Value::Opaque { why, .. } => match why {
            Foreign::CharacterSet => Err(WriteFault::CHARACTER_SET_NOT_SUPPORTED),
            Foreign::TooLong => Err(WriteFault::NO_SPACE_TO_WRITE_PROPERTY),
            _ => in_range(possible),
        },
        _ => in_range(possible),
    }
}

fn in_range(possible: bool) -> Result<(), WriteFault>
    ensures verdict { result ≡ (if possible then Ok tt else Err value_out_of_range) }
{
    if possible {
        Ok(())
    } else {
        Err(WriteFault::VALUE_OUT_OF_RANGE)
    }
}

/// The number of the application tag of a value.
fn tag_of(value: &Value) -> u8
    ensures tag { result ≡ tag_of value.now }
{
    match value {
        Value::Null => ApplicationTag::NULL.0,
        Value::Bool(_) => ApplicationTag::BOOLEAN.0,
        Value::Unsigned(_) => ApplicationTag::UNSIGNED.0,
        Value::Signed(_) => ApplicationTag::SIGNED.0,
        Value::Text(_) => ApplicationTag::CHARACTER_STRING.0,
        Value::Bits(_) => ApplicationTag::BIT_STRING.0,
        Value::Enumerated(_) => ApplicationTag::ENUMERATED.0,
        Value::DateTime(_) => ApplicationTag::DATE.0,
        Value::Object(_) => ApplicationTag::OBJECT_IDENTIFIER.0,
        Value::Opaque { tag, .. } => *tag,
    }
}

/// The number of the application tag of a kind's present value.
fn value_tag(kind: Option<ObjectKind>) -> Option<u8>
    ensures tag { result ≡ value_tag kind }
{
    match kind? {
        ObjectKind::PositiveIntegerValue | ObjectKind::MultiStateValue => Some(
            ApplicationTag::UNSIGNED.0,
        ),
        ObjectKind::IntegerValue => Some(ApplicationTag::SIGNED.0),
        ObjectKind::CharacterStringValue => Some(ApplicationTag::CHARACTER_STRING.0),
        ObjectKind::BitStringValue => Some(ApplicationTag::BIT_STRING.0),
        ObjectKind::BinaryValue => Some(ApplicationTag::ENUMERATED.0),
        _ => None,
    }
}

/// The number of the application tag of Event_Algorithm_Inhibit, which may be written where no reference inhibits.
pub fn inhibit_tag(reference: Option<ObjectId>) -> Option<u8>
    ensures tag { result ≡ inhibit_tag reference }
{
    match reference {
        None => Some(ApplicationTag::BOOLEAN.0),
        Some(_) => None,
    }
}

/// The number of the application tag of a property that may be written.
fn writable_tag(kind: Option<ObjectKind>, site: &ObjectSite, property: ObjectProperty) -> Option<u8>
    ensures tag { result ≡ writable_tag kind site.now property }
{
    match property {
        ObjectProperty::PresentValue | ObjectProperty::HighLimit | ObjectProperty::LowLimit => {
            value_tag(kind)
        }
        ObjectProperty::OutOfService | ObjectProperty::ReliabilityEvaluationInhibit => Some(
            ApplicationTag::BOOLEAN.0,
        ),
        ObjectProperty::EventAlgorithmInhibit => inhibit_tag(site.inhibit_ref),
        ObjectProperty::TimeDelay | ObjectProperty::TimeDelayNormal | ObjectProperty::Deadband => {
            Some(ApplicationTag::UNSIGNED.0)
        }
        ObjectProperty::LimitEnable | ObjectProperty::EventEnable => Some(
            ApplicationTag::BIT_STRING.0,
        ),
        ObjectProperty::AlarmValue => Some(ApplicationTag::ENUMERATED.0),
        _ => None,
    }
}
