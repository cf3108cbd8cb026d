//! What a rule looks at.

use crate::Algorithm;
use bac_values::{Bits, Value};

/// What a rule looks at: an object's values at one moment, and its settings.
#[derive(Clone, Copy, Debug)]
pub struct Snapshot<'a> {
    /// The algorithm of the object.
    pub algorithm: Algorithm,
    /// The value that is monitored.
    pub value: &'a Value,
    /// The feedback value of COMMAND_FAILURE.
    pub feedback: Option<&'a Value>,
    /// The one alarm value of a binary object; the list is not looked at where it is given.
    pub alarm_value: Option<&'a Value>,
    /// The alarm values of every other object, at most 32, in their order.
    pub alarm_values: &'a [Value],
    /// The bits that CHANGE_OF_BITSTRING compares: all where there is no mask.
    pub mask: Option<Bits>,
    /// The low limit, in the units of the value.
    pub low: i64,
    /// The high limit, in the units of the value.
    pub high: i64,
    /// Whether the low limit is enabled, then whether the high one is (Limit_Enable).
    pub limit_enable: [bool; 2],
    /// How far behind a limit the value must be to return, in the units of the value.
    pub deadband: u32,
    /// Time_Delay, in seconds.
    pub time_delay: u32,
    /// Time_Delay_Normal, in seconds, where the object has it.
    pub time_delay_normal: Option<u32>,
}
