//! The properties of value objects, as they are read.

ghost use Rattle.std.specs.Prelude.{◌≡◌, All, IfOk, IsTrue, None};
ghost use Rattle.std.specs.Option.{option_copied};
ghost use Rattle.bac_values.specs.declared.value.Value.TheVariants as values;
ghost use Rattle.bac_tags.specs.Values.{IsWritable};
ghost use Rattle.object_table.specs.Objects.{IsObject, IsObjectOf, IsWithin};
ghost use Rattle.object_table.specs.Properties.{has};
ghost use Rattle.property_values.specs.Properties.{is_of_alarm, limit_of, object_content, one, or_null, or_zero, row_content, status_of, values_of};
ghost use Rattle.property_values.specs.Reading.{AnswersContent};

use crate::encoding::{
    array_of_stamps, array_of_values, boolean, enumerated, four_flags, list_of_values, object, one,
    reference_to, text, three_flags, two_flags, unsigned,
};
use crate::texts::{array_of_texts, texts_that_came};
use crate::{Content, ReadFault};
use bac_values::{EventState, NoMemory, ObjectKind, PropertyId, Value};
use event_machine::Alarm;
use object_table::{ObjectProperty, Row};
use reliability_eval::reliability_of_row;
use std::alloc::Global;

// Status_Flags: in alarm, in fault, overridden, out of service.
fn status_of(alarm: &Alarm, row: &Row) -> [bool; 4]
    ensures status { result ≡ status_of alarm.now.state row.now }
{
    let in_alarm = !matches!(alarm.state(), EventState::Normal);
    let in_fault = reliability_of_row(row).number() != 0;
    [in_alarm, in_fault, false, row.site.out_of_service]
}

fn limit_of(kind: Option<ObjectKind>, limit: i64) -> Value
    requires within { IsWithin kind limit }
    ensures limit { result ≡ limit_of kind limit }
    ensures writable { IsWritable result }
{
    match kind {
        Some(ObjectKind::IntegerValue) => Value::Signed(limit as i32),
        _ => Value::Unsigned(limit as u32),
    }
}

fn limit_content(alloc: Global, kind: Option<ObjectKind>, limit: i64) -> Result<Content, NoMemory>
    requires within { IsWithin kind limit }
    ensures one { IfOk result (λ content. content ≡ one (limit_of kind limit)) }
{
    one(alloc, &limit_of(kind, limit))
}

fn optional_value(alloc: Global, value: Option<&Value>) -> Result<Content, NoMemory>
    requires writable { IsWritable (or_null (option_copied value)) }
    ensures one { IfOk result (λ content. content ≡ one (or_null (option_copied value.entry))) }
{
    match value {
        Some(value) => one(alloc, value),
        None => one(alloc, &Value::Null),
    }
}

fn optional_number(alloc: Global, number: Option<u32>) -> Result<Content, NoMemory>
    ensures one { IfOk result (λ content. content ≡ one (values.Unsigned (or_zero number))) }
{
    unsigned(alloc, number.unwrap_or(0))
}

// The values of a multi-state value are a list, those of other kinds an array.
fn values_of(alloc: Global, kind: Option<ObjectKind>, values: &[Value]) -> Result<Content, NoMemory>
    requires writable { All IsWritable values.now }
    ensures values { IfOk result (λ content. content ≡ values_of kind values.now) }
{
    match kind {
        Some(ObjectKind::MultiStateValue) => list_of_values(alloc, values),
        _ => array_of_values(alloc, values),
    }
}

// What a property that a value object has for its alarm is, by the alarm and by whether the object is inhibited.
fn alarm_content(
    alloc: Global,
    alarm: &Alarm,
    inhibited: bool,
    row: &Row,
    property: ObjectProperty,
) -> Result<Content, NoMemory>
    requires of_alarm { IsTrue (is_of_alarm property) }
    ensures content { IfOk result (λ content. content ≡ object_content None alarm.now inhibited row.now property) }
{
    let site = &row.site;
    match property {
        ObjectProperty::EventState => enumerated(alloc, u32::from(alarm.state().number())),
        ObjectProperty::EventEnable => three_flags(alloc, site.enable),
        ObjectProperty::EventAlgorithmInhibit => boolean(alloc, inhibited),
        ObjectProperty::EventAlgorithmInhibitRef => reference_to(alloc, site.inhibit_ref),
        ObjectProperty::AckedTransitions => three_flags(alloc, alarm.acked()),
        ObjectProperty::NotifyType => enumerated(alloc, u32::from(site.notify)),
        ObjectProperty::EventDetectionEnable => boolean(alloc, site.detection),
        ObjectProperty::NotificationClass => optional_number(alloc, site.class),
        ObjectProperty::EventTimeStamps => array_of_stamps(alloc, &alarm.stamps()),
        ObjectProperty::EventMessageTexts => texts_that_came(alloc, alarm, site.texts.as_slice()),
        _ => array_of_texts(alloc, site.texts.as_slice()),
    }
}

// What a property that a value object has is, by the object's alarm and by whether it is inhibited.
fn object_content(
    alloc: Global,
    kind: Option<ObjectKind>,
    alarm: &Alarm,
    inhibited: bool,
    row: &Row,
    property: ObjectProperty,
) -> Result<Content, NoMemory>
    requires allowed { IsObjectOf kind row.now.site }
    requires has { IsTrue (has kind row.now.site property) }
    ensures content { IfOk result (λ content. content ≡ object_content kind alarm.now inhibited row.now property) }
{
    let site = &row.site;
    match property {
        ObjectProperty::ObjectIdentifier => object(alloc, site.object),
        ObjectProperty::ObjectName => text(alloc, &site.name),
        ObjectProperty::ObjectType => enumerated(alloc, u32::from(site.object.number())),
        ObjectProperty::PresentValue => one(alloc, &site.value),
        ObjectProperty::StatusFlags => four_flags(alloc, status_of(alarm, row)),
        ObjectProperty::Reliability => {
            enumerated(alloc, u32::from(reliability_of_row(row).number()))
        }
        ObjectProperty::OutOfService => boolean(alloc, site.out_of_service),
        ObjectProperty::ReliabilityEvaluationInhibit => boolean(alloc, site.reliability_inhibit),
        ObjectProperty::NumberOfStates => unsigned(alloc, site.states),
        ObjectProperty::TimeDelay => unsigned(alloc, site.time_delay),
        ObjectProperty::TimeDelayNormal => optional_number(alloc, site.time_delay_normal),
        ObjectProperty::HighLimit => limit_content(alloc, kind, site.high),
        ObjectProperty::LowLimit => limit_content(alloc, kind, site.low),
        ObjectProperty::Deadband => unsigned(alloc, site.deadband),
        ObjectProperty::LimitEnable => two_flags(alloc, site.limit_enable),
        ObjectProperty::AlarmValue => optional_value(alloc, site.alarm_value.as_ref()),
        ObjectProperty::AlarmValues => values_of(alloc, kind, site.alarm_values.as_slice()),
        ObjectProperty::FaultValues => values_of(alloc, kind, site.fault_values.as_slice()),
        _ => alarm_content(alloc, alarm, inhibited, row, property),
    }
}

/// What a property of a value object with an alarm is, or why there is none. Event_Algorithm_Inhibit is whether the object
/// is inhibited.
pub fn row_content(
    alloc: Global,
    alarm: &Alarm,
    inhibited: bool,
    row: &Row,
    property: PropertyId,
) -> Result<Content, ReadFault>
    requires allowed { IsObject row.now.site }
    ensures content { AnswersContent result (row_content alarm.now inhibited row.now property.0) }
{
    let Some(known) = ObjectProperty::of_number(property.0) else {
        return Err(ReadFault::UNKNOWN_PROPERTY);
    };
    if !row.site.has_property(property) {
        return Err(ReadFault::UNKNOWN_PROPERTY);
    }
    let kind = row.site.object.kind();
    Ok(object_content(alloc, kind, alarm, inhibited, row, known)?)
}
