//! The object whose events are told.

use algorithm_rules::Algorithm;
use bac_values::ObjectId;

/// The object whose events are told.
#[derive(Clone, Copy, Debug)]
pub struct Source {
    /// The device that notifies (Initiating Device Identifier).
    pub device: ObjectId,
    /// The object (Event Object Identifier).
    pub object: ObjectId,
    /// The event algorithm of the object.
    pub algorithm: Algorithm,
    /// Its Notify_Type: 0 for an alarm, 1 for an event.
    pub notify: u8,
}
