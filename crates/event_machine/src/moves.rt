//! What moves at a point.

use bac_values::EventState;

/// An event-state transition of an object (ANSI/ASHRAE 135-2020, 13.2.2).
#[derive(Clone, Copy, Debug, PartialEq, Eq)]
pub struct Move {
    /// The state before.
    pub from: EventState,
    /// The state after.
    pub to: EventState,
    /// Whether the object's reliability made it.
    pub by_fault: bool,
}

/// The moves at one point, of which there are at most two.
#[derive(Clone, Copy, Debug, PartialEq, Eq)]
pub struct Changed {
    /// The move that the object's reliability made.
    pub first: Option<Move>,
    /// The move that came after it, made by the inhibition or by a rule.
    pub second: Option<Move>,
}
