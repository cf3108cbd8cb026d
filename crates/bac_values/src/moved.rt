//! A change of an object's event state, as it is reported.

use crate::{EventState, ObjectId};

/// An object's event state has changed.
#[derive(Clone, Copy, Debug, PartialEq, Eq)]
pub struct Moved {
    /// The object.
    pub object: ObjectId,
    /// The state before.
    pub from: EventState,
    /// The state after.
    pub to: EventState,
}
