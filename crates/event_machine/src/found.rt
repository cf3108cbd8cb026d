//! What is found under an identifier.

use crate::Alarm;

/// What is known of the alarm of an object that somebody names.
#[derive(Clone, Copy, Debug)]
pub enum Found<'a> {
    /// There is no such object.
    NoObject,
    /// The object has no event detection, or it isn't enabled.
    NoAlarm,
    /// The object has this alarm.
    Has(&'a Alarm),
}
