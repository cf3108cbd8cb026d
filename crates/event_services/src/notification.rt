//! A notification, as it is told (13.8, 13.9).

use bac_values::{Bits, EventState, ObjectId, Reliability, Stamp, StatusFlags, Text, Value};

/// A notification of an event (ANSI/ASHRAE 135-2020, 13.8 and 13.9).
#[derive(Debug, Drop, PartialEq)]
pub struct Notification {
    /// The recipient's process.
    pub process: u32,
    /// The device that notifies.
    pub device: ObjectId,
    /// The object whose event it is.
    pub object: ObjectId,
    /// When the event was.
    pub stamp: Stamp,
    /// The number of the notification class.
    pub class: u32,
    /// The priority, from 0 for the highest.
    pub priority: u8,
    /// The number of the event type (BACnetEventType).
    pub event_type: u8,
    /// A text.
    pub text: Option<Text>,
    /// The number of the notify type: 0 alarm, 1 event, 2 acknowledgement.
    pub notify: u8,
    /// Whether the event is to be acknowledged.
    pub ack_required: Option<bool>,
    /// The state before the event.
    pub from: Option<EventState>,
    /// The state that was entered, or that was acknowledged.
    pub to: EventState,
    /// What is told of the event by its type.
    pub values: Option<EventValues>,
}

/// What a notification tells of an event, by the event's type (BACnetNotificationParameters).
#[derive(Debug, Drop, PartialEq)]
pub enum EventValues {
    /// Of a change of bits.
    Bitstring {
        /// The bits.
        referenced: Bits,
        /// The status of the object.
        flags: StatusFlags,
    },
    /// Of a change of state.
    State {
        /// Whether the number is that of a binary value, and else of a multi-state value.
        binary: bool,
        /// The state's number.
        number: u32,
        /// The status of the object.
        flags: StatusFlags,
    },
    /// Of a command that the feedback doesn't follow.
    Command {
        /// The value that was commanded.
        command: Value,
        /// The status of the object.
        flags: StatusFlags,
        /// The value of the feedback.
        feedback: Value,
    },
    /// Of a number without a sign outside its range.
    UnsignedRange {
        /// The number.
        value: u32,
        /// The status of the object.
        flags: StatusFlags,
        /// The limit that it exceeds.
        limit: u32,
    },
    /// Of a number with a sign outside its range with a deadband.
    SignedOutOfRange {
        /// The number.
        value: i32,
        /// The status of the object.
        flags: StatusFlags,
        /// The deadband.
        deadband: u32,
        /// The limit that it exceeds.
        limit: i32,
    },
    /// Of a number without a sign outside its range with a deadband.
    UnsignedOutOfRange {
        /// The number.
        value: u32,
        /// The status of the object.
        flags: StatusFlags,
        /// The deadband.
        deadband: u32,
        /// The limit that it exceeds.
        limit: u32,
    },
    /// Of a change of text.
    Characterstring {
        /// The text.
        changed: Text,
        /// The status of the object.
        flags: StatusFlags,
        /// The alarm value that it holds.
        alarm: Text,
    },
    /// Of a change of reliability.
    Reliability {
        /// The reliability.
        reliability: Reliability,
        /// The status of the object.
        flags: StatusFlags,
        /// The object's present value.
        property: Option<Value>,
    },
}
