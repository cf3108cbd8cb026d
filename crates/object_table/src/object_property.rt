//! The properties that value objects have.

ghost use Rattle.std.specs.Prelude.{◌≡◌};
ghost use Rattle.object_table.specs.Properties.{property_of};

use bac_values::PropertyId;

/// The properties of value objects (ANSI/ASHRAE 135-2020, clause 12).
#[derive(Clone, Copy, Debug, PartialEq, Eq)]
pub enum ObjectProperty {
    /// Object_Identifier.
    ObjectIdentifier,
    /// Object_Name.
    ObjectName,
    /// Object_Type.
    ObjectType,
    /// Present_Value.
    PresentValue,
    /// Status_Flags.
    StatusFlags,
    /// Event_State.
    EventState,
    /// Reliability.
    Reliability,
    /// Out_Of_Service.
    OutOfService,
    /// Reliability_Evaluation_Inhibit.
    ReliabilityEvaluationInhibit,
    /// Number_Of_States.
    NumberOfStates,
    /// Time_Delay.
    TimeDelay,
    /// Time_Delay_Normal.
    TimeDelayNormal,
    /// High_Limit.
    HighLimit,
    /// Low_Limit.
    LowLimit,
    /// Deadband.
    Deadband,
    /// Limit_Enable.
    LimitEnable,
    /// Alarm_Value.
    AlarmValue,
    /// Alarm_Values.
    AlarmValues,
    /// Fault_Values.
    FaultValues,
    /// Event_Enable.
    EventEnable,
    /// Event_Algorithm_Inhibit.
    EventAlgorithmInhibit,
    /// Event_Algorithm_Inhibit_Ref.
    EventAlgorithmInhibitRef,
    /// Acked_Transitions.
    AckedTransitions,
    /// Notify_Type.
    NotifyType,
    /// Event_Detection_Enable.
    EventDetectionEnable,
    /// Notification_Class.
    NotificationClass,
    /// Event_Time_Stamps.
    EventTimeStamps,
    /// Event_Message_Texts.
    EventMessageTexts,
    /// Event_Message_Texts_Config.
    EventMessageTextsConfig,
}

impl ObjectProperty {
    /// The property with a number (BACnetPropertyIdentifier), if value objects know it.
    #[tactic(auto, unfolding(crate::specs::Properties::property_of))]
    pub fn of_number(number: u32) -> Option<ObjectProperty>
        ensures property { result ≡ property_of number }
    {
        match PropertyId(number) {
            PropertyId::ACKED_TRANSITIONS => Some(ObjectProperty::AckedTransitions),
            PropertyId::ALARM_VALUE => Some(ObjectProperty::AlarmValue),
            PropertyId::ALARM_VALUES => Some(ObjectProperty::AlarmValues),
            PropertyId::NOTIFICATION_CLASS => Some(ObjectProperty::NotificationClass),
            PropertyId::DEADBAND => Some(ObjectProperty::Deadband),
            PropertyId::EVENT_ENABLE => Some(ObjectProperty::EventEnable),
            PropertyId::EVENT_STATE => Some(ObjectProperty::EventState),
            PropertyId::FAULT_VALUES => Some(ObjectProperty::FaultValues),
            PropertyId::HIGH_LIMIT => Some(ObjectProperty::HighLimit),
            PropertyId::LIMIT_ENABLE => Some(ObjectProperty::LimitEnable),
            PropertyId::LOW_LIMIT => Some(ObjectProperty::LowLimit),
            PropertyId::NOTIFY_TYPE => Some(ObjectProperty::NotifyType),
            PropertyId::NUMBER_OF_STATES => Some(ObjectProperty::NumberOfStates),
            PropertyId::OBJECT_IDENTIFIER => Some(ObjectProperty::ObjectIdentifier),
            PropertyId::OBJECT_NAME => Some(ObjectProperty::ObjectName),
            PropertyId::OBJECT_TYPE => Some(ObjectProperty::ObjectType),
            PropertyId::OUT_OF_SERVICE => Some(ObjectProperty::OutOfService),
            PropertyId::PRESENT_VALUE => Some(ObjectProperty::PresentValue),
            PropertyId::RELIABILITY => Some(ObjectProperty::Reliability),
            PropertyId::STATUS_FLAGS => Some(ObjectProperty::StatusFlags),
            PropertyId::TIME_DELAY => Some(ObjectProperty::TimeDelay),
            PropertyId::EVENT_TIME_STAMPS => Some(ObjectProperty::EventTimeStamps),
            PropertyId::EVENT_MESSAGE_TEXTS => Some(ObjectProperty::EventMessageTexts),
            PropertyId::EVENT_MESSAGE_TEXTS_CONFIG => Some(ObjectProperty::EventMessageTextsConfig),
            PropertyId::EVENT_DETECTION_ENABLE => Some(ObjectProperty::EventDetectionEnable),
            PropertyId::EVENT_ALGORITHM_INHIBIT => Some(ObjectProperty::EventAlgorithmInhibit),
            PropertyId::EVENT_ALGORITHM_INHIBIT_REF => Some(
                ObjectProperty::EventAlgorithmInhibitRef,
            ),
            PropertyId::TIME_DELAY_NORMAL => Some(ObjectProperty::TimeDelayNormal),
            PropertyId::RELIABILITY_EVALUATION_INHIBIT => Some(
                ObjectProperty::ReliabilityEvaluationInhibit,
            ),
            _ => None,
        }
    }
}
