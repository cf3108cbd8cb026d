//! An enrollment as a site describes it.

use algorithm_rules::Algorithm;
use bac_values::{Items, ObjectId, Text};

/// An event enrollment of a site (ANSI/ASHRAE 135-2020, 12.12). Lists of three are for to-offnormal, to-fault and
/// to-normal.
#[derive(Debug, Drop)]
pub struct EnrollmentSite {
    /// Its identifier.
    pub object: ObjectId,
    /// Its Object_Name.
    pub name: Text,
    /// The instance of its notification class.
    pub class: u32,
    /// COMMAND_FAILURE or UNSIGNED_RANGE.
    pub algorithm: Algorithm,
    /// The object whose value is monitored.
    pub monitored: ObjectId,
    /// The object whose value is the feedback of COMMAND_FAILURE.
    pub feedback: Option<ObjectId>,
    /// The low limit of UNSIGNED_RANGE, else 0.
    pub low: u32,
    /// The high limit of UNSIGNED_RANGE, else 0.
    pub high: u32,
    /// Notify_Type: 0 is alarm, 1 is event.
    pub notify: u8,
    /// Event_Enable.
    pub enable: [bool; 3],
    /// Time_Delay, in seconds.
    pub time_delay: u32,
    /// Time_Delay_Normal, in seconds, where the enrollment has it.
    pub time_delay_normal: Option<u32>,
    /// Event_Detection_Enable.
    pub detection: bool,
    /// Event_Algorithm_Inhibit. With a reference it is false.
    pub inhibit: bool,
    /// Event_Algorithm_Inhibit_Ref: the binary value whose Present_Value inhibits the enrollment while it is active.
    pub inhibit_ref: Option<ObjectId>,
    /// Event_Message_Texts_Config: no text, or three.
    pub texts: Items<Text>,
}
