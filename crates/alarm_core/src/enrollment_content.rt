//! The properties of event enrollments, as they are read.

ghost use Rattle.std.specs.Prelude.{◌≡◌, IfOk};
ghost use Rattle.enrollment.specs.Properties.{property_of};
ghost use Rattle.alarm_core.specs.EnrollmentProperties.{enrollment_property, enrollment_status, known_enrollment_content};
ghost use Rattle.property_values.specs.Reading.{AnswersContent};

use crate::ReadFault;
use bac_values::{EventState, NoMemory, PropertyId, Reliability};
use enrollment::{EnrollmentProperty, EnrollmentSite};
use event_machine::Alarm;
use property_values::{
    Content, array_of_stamps, array_of_texts, boolean, enumerated, four_flags, object,
    reference_to, text, texts_that_came, three_flags, unsigned,
};
use std::alloc::Global;

// Status_Flags: in alarm, in fault, overridden, out of service.
fn enrollment_status(alarm: &Alarm, reliability: Reliability) -> [bool; 4]
    ensures status { result ≡ enrollment_status alarm.now.state reliability }
{
    let in_alarm = !matches!(alarm.state(), EventState::Normal);
    let in_fault = reliability.number() != 0;
    [in_alarm, in_fault, false, false]
}

// What a property that enrollments have is.
fn enrollment_property(
    alloc: Global,
    alarm: &Alarm,
    reliability: Reliability,
    inhibited: bool,
    site: &EnrollmentSite,
    property: EnrollmentProperty,
) -> Result<Content, NoMemory>
    ensures content { IfOk result (λ content. content ≡ enrollment_property alarm.now reliability inhibited site.now property) }
{
    match property {
        EnrollmentProperty::ObjectIdentifier => object(alloc, site.object),
        EnrollmentProperty::ObjectName => text(alloc, &site.name),
        EnrollmentProperty::ObjectType => enumerated(alloc, u32::from(site.object.number())),
        EnrollmentProperty::StatusFlags => four_flags(alloc, enrollment_status(alarm, reliability)),
        EnrollmentProperty::EventState => enumerated(alloc, u32::from(alarm.state().number())),
        EnrollmentProperty::Reliability => enumerated(alloc, u32::from(reliability.number())),
        EnrollmentProperty::EventEnable => three_flags(alloc, site.enable),
        EnrollmentProperty::EventAlgorithmInhibit => boolean(alloc, inhibited),
        EnrollmentProperty::EventAlgorithmInhibitRef => reference_to(alloc, site.inhibit_ref),
        EnrollmentProperty::AckedTransitions => three_flags(alloc, alarm.acked()),
        EnrollmentProperty::NotifyType => enumerated(alloc, u32::from(site.notify)),
        EnrollmentProperty::EventDetectionEnable => boolean(alloc, site.detection),
        EnrollmentProperty::NotificationClass => unsigned(alloc, site.class),
        EnrollmentProperty::EventTimeStamps => array_of_stamps(alloc, &alarm.stamps()),
        EnrollmentProperty::EventMessageTexts => {
            texts_that_came(alloc, alarm, site.texts.as_slice())
        }
        EnrollmentProperty::EventMessageTextsConfig => {
            array_of_texts(alloc, site.texts.as_slice())
        }
        EnrollmentProperty::EventType => {
            enumerated(alloc, u32::from(site.algorithm.event_type()))
        }
    }
}

/// What a property of an event enrollment is, by the enrollment's alarm, its reliability and whether it is inhibited, or that
/// there is none.
pub(crate) fn enrollment_content(
    alloc: Global,
    alarm: &Alarm,
    reliability: Reliability,
    inhibited: bool,
    site: &EnrollmentSite,
    property: PropertyId,
) -> Result<Content, ReadFault>
    ensures content { AnswersContent result (known_enrollment_content alarm.now reliability inhibited site.now (property_of property.0)) }
{
    let Some(known) = EnrollmentProperty::of_number(property.0) else {
        return Err(ReadFault::UNKNOWN_PROPERTY);
    };
    if !site.has(known) {
        return Err(ReadFault::UNKNOWN_PROPERTY);
    }
    Ok(enrollment_property(alloc, alarm, reliability, inhibited, site, known)?)
}
