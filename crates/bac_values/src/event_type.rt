/// The number of an event type (ANSI/ASHRAE 135-2020, BACnetEventType).
#[derive(Clone, Copy, Debug, PartialEq, Eq)]
pub struct EventType(pub u8);

impl EventType {
    /// CHANGE_OF_BITSTRING.
    pub const CHANGE_OF_BITSTRING: EventType = EventType(0);
    /// CHANGE_OF_STATE.
    pub const CHANGE_OF_STATE: EventType = EventType(1);
    /// COMMAND_FAILURE.
    pub const COMMAND_FAILURE: EventType = EventType(3);
    /// UNSIGNED_RANGE.
    pub const UNSIGNED_RANGE: EventType = EventType(11);
    /// SIGNED_OUT_OF_RANGE.
    pub const SIGNED_OUT_OF_RANGE: EventType = EventType(15);
    /// UNSIGNED_OUT_OF_RANGE.
    pub const UNSIGNED_OUT_OF_RANGE: EventType = EventType(16);
    /// CHANGE_OF_CHARACTERSTRING.
    pub const CHANGE_OF_CHARACTERSTRING: EventType = EventType(17);
    /// CHANGE_OF_RELIABILITY.
    pub const CHANGE_OF_RELIABILITY: EventType = EventType(19);
}

/// The number of a notify type (ANSI/ASHRAE 135-2020, BACnetNotifyType).
#[derive(Clone, Copy, Debug, PartialEq, Eq)]
pub struct NotifyType(pub u8);

impl NotifyType {
    /// ALARM.
    pub const ALARM: NotifyType = NotifyType(0);
    /// EVENT.
    pub const EVENT: NotifyType = NotifyType(1);
    /// ACK_NOTIFICATION.
    pub const ACK_NOTIFICATION: NotifyType = NotifyType(2);
}
