//! A value object as a site describes it.

use bac_values::{Bits, Items, ObjectId, Text, Value};

/// A value object as a site describes it. A key that its kind doesn't have, or that only an object with a class has, is
/// none, an empty list, false or 0 where the object lacks it.
#[derive(Debug, Drop)]
pub struct ObjectSite {
    /// Object_Identifier.
    pub object: ObjectId,
    /// Object_Name.
    pub name: Text,
    /// Present_Value.
    pub value: Value,
    /// Out_Of_Service.
    pub out_of_service: bool,
    /// Reliability_Evaluation_Inhibit.
    pub reliability_inhibit: bool,
    /// Number_Of_States, of a multi-state value.
    pub states: u32,
    /// The least value that is no fault, of an integer or a positive integer value.
    pub fault_low: Option<i64>,
    /// The greatest value that is no fault, of an integer or a positive integer value.
    pub fault_high: Option<i64>,
    /// Fault_Values, of a multi-state or a character string value: at most `MOST_LISTED_VALUES`.
    pub fault_values: Items<Value>,
    /// Notification_Class: the instance of the class whose recipients are told of the object's events. An object without
    /// a class has none of the keys below.
    pub class: Option<u32>,
    /// Notify_Type: 0 for an alarm, 1 for an event.
    pub notify: u8,
    /// Event_Enable, to-offnormal, to-fault, to-normal.
    pub enable: [bool; 3],
    /// Time_Delay, in seconds.
    pub time_delay: u32,
    /// Time_Delay_Normal, in seconds, where the object has it.
    pub time_delay_normal: Option<u32>,
    /// Event_Detection_Enable.
    pub detection: bool,
    /// Event_Algorithm_Inhibit. With a reference it is false.
    pub inhibit: bool,
    /// Event_Algorithm_Inhibit_Ref: the binary value whose Present_Value inhibits the object while it is active.
    pub inhibit_ref: Option<ObjectId>,
    /// Event_Message_Texts_Config: no text, or three, to-offnormal, to-fault, to-normal.
    pub texts: Items<Text>,
    /// Low_Limit, of an integer or a positive integer value.
    pub low: i64,
    /// High_Limit, of an integer or a positive integer value.
    pub high: i64,
    /// Deadband, of an integer or a positive integer value.
    pub deadband: u32,
    /// Limit_Enable, of an integer or a positive integer value: that of the low limit, then that of the high one.
    pub limit_enable: [bool; 2],
    /// Alarm_Value, of a binary value.
    pub alarm_value: Option<Value>,
    /// Alarm_Values, of a multi-state, a bit string or a character string value: at most `MOST_LISTED_VALUES`.
    pub alarm_values: Items<Value>,
    /// Bit_Mask: the bits that are compared, of a bit string value.
    pub mask: Option<Bits>,
}
