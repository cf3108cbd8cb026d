//! The properties of logs, as they are read, and writes of them, as they are checked.

ghost use Rattle.std.specs.Prelude.{◌≡◌, IfOk, IsTrue, OnOk};
ghost use Rattle.event_log.specs.Log.{EventLogState};
ghost use Rattle.event_log.specs.declared.log_site.LogSite.{LogSite as Site};
ghost use Rattle.property_values.specs.LogProperties.{log_content, log_property, log_write, takes, takes_value, writable_tag, write_with};
ghost use Rattle.property_values.specs.Reading.{AnswersContent};

use crate::encoding::{boolean, enumerated, object, text, unsigned};
use crate::{Content, LogProperty, ReadFault};
use bac_values::{ApplicationTag, NoMemory, ObjectKind, PropertyId, Value};
use event_log::{EventLog, LogSite};
use object_table::{Change, What, WriteFault, check_index, check_value};
use std::alloc::Global;

// What a property of an event log is.
fn log_property(
    alloc: Global,
    site: &LogSite,
    log: &EventLog,
    property: LogProperty,
) -> Result<Content, NoMemory>
    ensures content { IfOk result (λ content. content ≡ log_property site.now log.now property) }
{
    match property {
        LogProperty::ObjectIdentifier => object(alloc, site.object),
        LogProperty::ObjectName => text(alloc, &site.name),
        LogProperty::ObjectType => enumerated(alloc, u32::from(ObjectKind::EventLog.number())),
        LogProperty::Enable => boolean(alloc, log.enabled()),
        LogProperty::RecordCount => unsigned(alloc, log.len()),
        LogProperty::BufferSize => unsigned(alloc, site.size),
        LogProperty::StopWhenFull => boolean(alloc, site.stop_when_full),
        LogProperty::TotalRecordCount => unsigned(alloc, log.total()),
    }
}

/// What a property of an event log is (ANSI/ASHRAE 135-2020, 12.27), or that there is none.
pub fn log_content(
    alloc: Global,
    site: &LogSite,
    log: &EventLog,
    property: PropertyId,
) -> Result<Content, ReadFault>
    ensures content { AnswersContent result (log_content site.now log.now property.0) }
{
    let Some(known) = LogProperty::of_number(property.0) else {
        return Err(ReadFault::UNKNOWN_PROPERTY);
    };
    Ok(log_property(alloc, site, log, known)?)
}

// The tag of a property that may be written.
fn writable_tag(property: PropertyId) -> Option<u8>
    ensures tag { result ≡ writable_tag property.0 }
{
    match property {
        PropertyId::ENABLE => Some(ApplicationTag::BOOLEAN.0),
        PropertyId::RECORD_COUNT => Some(ApplicationTag::UNSIGNED.0),
        _ => None,
    }
}

// Whether a property that may be written can be the value.
fn can_be(property: PropertyId, value: &Value) -> bool
    ensures possible { result ≡ takes_value property.0 value.now }
{
    match value {
        Value::Bool(_) => property == PropertyId::ENABLE,
        Value::Unsigned(0) => property == PropertyId::RECORD_COUNT,
        _ => false,
    }
}

/// Whether a log takes a change.
pub fn log_takes(what: &What) -> bool
    ensures takes { result ≡ takes what.now }
{
    match what {
        What::Property { property, value } => can_be(*property, value),
        What::FieldFault { .. } => false,
    }
}

// Whether a log takes a write of a property; the first error that applies is told.
fn check_log(property: PropertyId, index: Option<u32>, value: &Value) -> Result<(), WriteFault>
    ensures verdict { (site : Site) (log : EventLogState) → result ≡ write_with (log_content site log property.0) property.0 index value.now }
    ensures taken { OnOk result (IsTrue (takes_value property.0 value.now)) }
{
    let Some(_known) = LogProperty::of_number(property.0) else {
        return Err(WriteFault::UNKNOWN_PROPERTY);
    };
    check_index(None, index)?;
    check_value(writable_tag(property), can_be(property, value), value)
}

// The same value. It is none that wants memory.
fn copy_of(property: PropertyId, value: &Value) -> Value
    requires taken { IsTrue (takes_value property.0 value.now) }
    ensures same { result ≡ value.now }
{
    match value {
        Value::Bool(truth) => Value::Bool(*truth),
        Value::Unsigned(number) => Value::Unsigned(*number),
        _ => unreachable!(),
    }
}

/// The change that a write of a property makes, or the first error that applies to it: no such property, an index, a
/// property that can't be written, another type, and a value that the property can't be. No memory is taken.
pub fn log_write(
    site: &LogSite,
    property: PropertyId,
    index: Option<u32>,
    value: &Value,
) -> Result<Change, WriteFault>
    ensures answer { (log : EventLogState) → result ≡ log_write site.now log property.0 index value.now }
    ensures takes { IfOk result (λ change. IsTrue (takes change.what)) }
    ensures object { IfOk result (λ change. change.object ≡ site.now.object) }
{
    check_log(property, index, value)?;
    Ok(Change {
        object: site.object,
        what: What::Property {
            property,
            value: copy_of(property, value),
        },
    })
}
