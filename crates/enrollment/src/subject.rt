//! What event detection is set to.

ghost use Rattle.std.specs.Prelude.{◌≡◌};
ghost use Rattle.enrollment.specs.Subjects.{is_detecting, is_enabled};

use algorithm_rules::Algorithm;
use bac_values::{ObjectId, Transition};

/// What the event detection of an object is set to, alike for a value object and for an event enrollment (ANSI/ASHRAE
/// 135-2020, 12.12 and 13.2). Lists of three are for to-offnormal, to-fault and to-normal.
#[derive(Clone, Copy, Debug, PartialEq, Eq)]
pub struct Subject {
    /// The object.
    pub object: ObjectId,
    /// Its event algorithm.
    pub algorithm: Algorithm,
    /// The instance of its notification class. Without one it has no event detection.
    pub class: Option<u32>,
    /// Notify_Type: 0 is alarm, 1 is event.
    pub notify: u8,
    /// Event_Enable.
    pub enable: [bool; 3],
    /// Event_Detection_Enable.
    pub detection: bool,
    /// Event_Algorithm_Inhibit. With a reference it is false.
    pub inhibit: bool,
    /// Event_Algorithm_Inhibit_Ref: the binary value whose Present_Value inhibits the object while it is active.
    pub inhibit_ref: Option<ObjectId>,
}

impl Subject {
    /// Whether the object has event detection, and that is enabled.
    pub fn is_detecting(&self) -> bool
        ensures detecting { result ≡ is_detecting self.now }
    {
        self.class.is_some() && self.detection
    }

    /// Whether transitions of a kind are told of (Event_Enable).
    pub fn is_enabled(&self, transition: Transition) -> bool
        ensures enabled { result ≡ is_enabled transition self.now }
    {
        self.enable[transition.place()]
    }
}
