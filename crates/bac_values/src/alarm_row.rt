//! What summaries tell of an object.

use crate::{EventState, ObjectId};

/// What a summary tells of an object or an enrollment whose event detection is enabled (ANSI/ASHRAE 135-2020, 13.10 and
/// 13.11).
#[derive(Clone, Copy, Debug, PartialEq, Eq)]
pub struct AlarmRow {
    /// The object.
    pub object: ObjectId,
    /// Its Event_State.
    pub state: EventState,
    /// Its Acked_Transitions: to-offnormal, to-fault, to-normal.
    pub acked: [bool; 3],
    /// Its Notify_Type.
    pub notify: u8,
    /// The number of its algorithm's event type.
    pub event_type: u8,
    /// The instance of its notification class.
    pub class: u32,
}
