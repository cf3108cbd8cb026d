//! The properties that an enrollment has.

ghost use Rattle.std.specs.Prelude.{◌≡◌};
ghost use Rattle.enrollment.specs.Properties.{has, length_of, property_of};

use crate::EnrollmentSite;
use bac_values::PropertyId;

/// The properties of event enrollments (ANSI/ASHRAE 135-2020, 12.12).
#[derive(Clone, Copy, Debug, PartialEq, Eq)]
pub enum EnrollmentProperty {
    /// Object_Identifier.
    ObjectIdentifier,
    /// Object_Name.
    ObjectName,
    /// Object_Type.
    ObjectType,
    /// Status_Flags.
    StatusFlags,
    /// Event_State.
    EventState,
    /// Reliability.
    Reliability,
    /// Event_Enable.
    EventEnable,
    /// Event_Algorithm_Inhibit.
    EventAlgorithmInhibit,
    /// Event_Algorithm_Inhibit_Ref.
    EventAlgorithmInhibitRef,
    /// Acked_Transitions.
    AckedTransitions,
    /// Notify_Type.
    NotifyType,
    /// Event_Detection_Enable.
    EventDetectionEnable,
    /// Notification_Class.
    NotificationClass,
    /// Event_Time_Stamps.
    EventTimeStamps,
    /// Event_Message_Texts.
    EventMessageTexts,
    /// Event_Message_Texts_Config.
    EventMessageTextsConfig,
    /// Event_Type.
    EventType,
}

impl EnrollmentProperty {
    /// The property with a number (BACnetPropertyIdentifier), if enrollments know it.
    #[tactic(auto, unfolding(crate::specs::Properties::property_of))]
    pub fn of_number(number: u32) -> Option<EnrollmentProperty>
        ensures property { result ≡ property_of number }
    {
        match PropertyId(number) {
            PropertyId::ACKED_TRANSITIONS => Some(EnrollmentProperty::AckedTransitions),
            PropertyId::NOTIFICATION_CLASS => Some(EnrollmentProperty::NotificationClass),
            PropertyId::EVENT_ENABLE => Some(EnrollmentProperty::EventEnable),
            PropertyId::EVENT_STATE => Some(EnrollmentProperty::EventState),
            PropertyId::EVENT_TYPE => Some(EnrollmentProperty::EventType),
            PropertyId::NOTIFY_TYPE => Some(EnrollmentProperty::NotifyType),
            PropertyId::OBJECT_IDENTIFIER => Some(EnrollmentProperty::ObjectIdentifier),
            PropertyId::OBJECT_NAME => Some(EnrollmentProperty::ObjectName),
            PropertyId::OBJECT_TYPE => Some(EnrollmentProperty::ObjectType),
            PropertyId::RELIABILITY => Some(EnrollmentProperty::Reliability),
            PropertyId::STATUS_FLAGS => Some(EnrollmentProperty::StatusFlags),
            PropertyId::EVENT_TIME_STAMPS => Some(EnrollmentProperty::EventTimeStamps),
            PropertyId::EVENT_MESSAGE_TEXTS => Some(EnrollmentProperty::EventMessageTexts),
            PropertyId::EVENT_MESSAGE_TEXTS_CONFIG => Some(
                EnrollmentProperty::EventMessageTextsConfig,
            ),
            PropertyId::EVENT_DETECTION_ENABLE => Some(EnrollmentProperty::EventDetectionEnable),
            PropertyId::EVENT_ALGORITHM_INHIBIT => Some(EnrollmentProperty::EventAlgorithmInhibit),
            PropertyId::EVENT_ALGORITHM_INHIBIT_REF => Some(
                EnrollmentProperty::EventAlgorithmInhibitRef,
            ),
            _ => None,
        }
    }

    /// The length of a property that is an array.
    pub fn array_length(self) -> Option<u32>
        ensures length { result ≡ length_of self }
    {
        match self {
            EnrollmentProperty::EventTimeStamps
            | EnrollmentProperty::EventMessageTexts
            | EnrollmentProperty::EventMessageTextsConfig => Some(3),
            _ => None,
        }
    }
}

impl EnrollmentSite {
    /// Whether the enrollment has a property: only texts and a reference may be absent.
    pub fn has(&self, property: EnrollmentProperty) -> bool
        ensures has { result ≡ has self.now property }
    {
        match property {
            EnrollmentProperty::EventAlgorithmInhibitRef => self.inhibit_ref.is_some(),
            EnrollmentProperty::EventMessageTexts | EnrollmentProperty::EventMessageTextsConfig => {
                !self.texts.as_slice().is_empty()
            }
            _ => true,
        }
    }
}
