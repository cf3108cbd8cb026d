//! The kinds of transitions.

ghost use Rattle.std.specs.Prelude.{◌≡◌, ◌<◌};
ghost use Rattle.bac_values.specs.EventStates.{place_of_transition};

/// The kinds of event-state transitions (ANSI/ASHRAE 135-2020, 13.2.2). Lists of three go in this order.
#[derive(Clone, Copy, Debug, PartialEq, Eq)]
pub enum Transition {
    /// To any state but NORMAL and FAULT.
    ToOffnormal,
    /// To FAULT.
    ToFault,
    /// To NORMAL.
    ToNormal,
}

impl Transition {
    /// The place in lists of three, from 0.
    pub fn place(self) -> usize
        ensures place { result ≡ place_of_transition self }
        ensures within { result < 3 }
    {
        match self {
            Transition::ToOffnormal => 0,
            Transition::ToFault => 1,
            Transition::ToNormal => 2,
        }
    }
}
