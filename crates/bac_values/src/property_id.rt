/// The number of a property (ANSI/ASHRAE 135-2020, BACnetPropertyIdentifier).
#[derive(Clone, Copy, Debug, PartialEq, Eq, PartialOrd, Ord)]
pub struct PropertyId(pub u32);

impl PropertyId {
    /// Acked_Transitions.
    pub const ACKED_TRANSITIONS: PropertyId = PropertyId(0);
    /// Ack_Required.
    pub const ACK_REQUIRED: PropertyId = PropertyId(1);
    /// Alarm_Value.
    pub const ALARM_VALUE: PropertyId = PropertyId(6);
    /// Alarm_Values.
    pub const ALARM_VALUES: PropertyId = PropertyId(7);
    /// All properties of an object, in ReadPropertyMultiple (15.7.3.1.2).
    pub const ALL: PropertyId = PropertyId(8);
    /// Notification_Class.
    pub const NOTIFICATION_CLASS: PropertyId = PropertyId(17);
    /// Deadband.
    pub const DEADBAND: PropertyId = PropertyId(25);
    /// Event_Enable.
    pub const EVENT_ENABLE: PropertyId = PropertyId(35);
    /// Event_State.
    pub const EVENT_STATE: PropertyId = PropertyId(36);
    /// Event_Type.
    pub const EVENT_TYPE: PropertyId = PropertyId(37);
    /// Fault_Values.
    pub const FAULT_VALUES: PropertyId = PropertyId(39);
    /// High_Limit.
    pub const HIGH_LIMIT: PropertyId = PropertyId(45);
    /// Limit_Enable.
    pub const LIMIT_ENABLE: PropertyId = PropertyId(52);
    /// Low_Limit.
    pub const LOW_LIMIT: PropertyId = PropertyId(59);
    /// Max_APDU_Length_Accepted.
    pub const MAX_APDU_LENGTH_ACCEPTED: PropertyId = PropertyId(62);
    /// Notify_Type.
    pub const NOTIFY_TYPE: PropertyId = PropertyId(72);
    /// Number_Of_States.
    pub const NUMBER_OF_STATES: PropertyId = PropertyId(74);
    /// Object_Identifier.
    pub const OBJECT_IDENTIFIER: PropertyId = PropertyId(75);
    /// Object_List.
    pub const OBJECT_LIST: PropertyId = PropertyId(76);
    /// Object_Name.
    pub const OBJECT_NAME: PropertyId = PropertyId(77);
    /// Object_Type.
    pub const OBJECT_TYPE: PropertyId = PropertyId(79);
    /// Out_Of_Service.
    pub const OUT_OF_SERVICE: PropertyId = PropertyId(81);
    /// Present_Value.
    pub const PRESENT_VALUE: PropertyId = PropertyId(85);
    /// Priority.
    pub const PRIORITY: PropertyId = PropertyId(86);
    /// Recipient_List.
    pub const RECIPIENT_LIST: PropertyId = PropertyId(102);
    /// Reliability.
    pub const RELIABILITY: PropertyId = PropertyId(103);
    /// Segmentation_Supported.
    pub const SEGMENTATION_SUPPORTED: PropertyId = PropertyId(107);
    /// Status_Flags.
    pub const STATUS_FLAGS: PropertyId = PropertyId(111);
    /// Time_Delay.
    pub const TIME_DELAY: PropertyId = PropertyId(113);
    /// Vendor_Identifier.
    pub const VENDOR_IDENTIFIER: PropertyId = PropertyId(120);
    /// Buffer_Size.
    pub const BUFFER_SIZE: PropertyId = PropertyId(126);
    /// Event_Time_Stamps.
    pub const EVENT_TIME_STAMPS: PropertyId = PropertyId(130);
    /// Log_Buffer.
    pub const LOG_BUFFER: PropertyId = PropertyId(131);
    /// Enable.
    pub const ENABLE: PropertyId = PropertyId(133);
    /// Record_Count.
    pub const RECORD_COUNT: PropertyId = PropertyId(141);
    /// Stop_When_Full.
    pub const STOP_WHEN_FULL: PropertyId = PropertyId(144);
    /// Total_Record_Count.
    pub const TOTAL_RECORD_COUNT: PropertyId = PropertyId(145);
    /// Event_Message_Texts.
    pub const EVENT_MESSAGE_TEXTS: PropertyId = PropertyId(351);
    /// Event_Message_Texts_Config.
    pub const EVENT_MESSAGE_TEXTS_CONFIG: PropertyId = PropertyId(352);
    /// Event_Detection_Enable.
    pub const EVENT_DETECTION_ENABLE: PropertyId = PropertyId(353);
    /// Event_Algorithm_Inhibit.
    pub const EVENT_ALGORITHM_INHIBIT: PropertyId = PropertyId(354);
    /// Event_Algorithm_Inhibit_Ref.
    pub const EVENT_ALGORITHM_INHIBIT_REF: PropertyId = PropertyId(355);
    /// Time_Delay_Normal.
    pub const TIME_DELAY_NORMAL: PropertyId = PropertyId(356);
    /// Reliability_Evaluation_Inhibit.
    pub const RELIABILITY_EVALUATION_INHIBIT: PropertyId = PropertyId(357);
}
