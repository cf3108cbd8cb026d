//! What is seen of an object at a point.

use bac_values::{Reliability, Stamp};

/// What is seen of an object at a point beside what its event algorithm sees.
#[derive(Clone, Copy, Debug)]
pub struct PointFacts {
    /// When it is, in milliseconds since 1970.
    pub moment: u64,
    /// The local date and time of the moment.
    pub stamp: Stamp,
    /// The object's reliability.
    pub reliability: Reliability,
    /// Whether Event_Algorithm_Inhibit is TRUE.
    pub inhibited: bool,
    /// Ack_Required of the object's notification class: for to-offnormal, to-fault and to-normal.
    pub ack_required: [bool; 3],
}
