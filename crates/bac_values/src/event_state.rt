//! The states of event detection.

ghost use Rattle.std.specs.Prelude.{◌≡◌};
ghost use Rattle.bac_values.specs.EventStates.{number_of_state, state_of_number, transition_to};

use crate::Transition;

/// The states of event detection (ANSI/ASHRAE 135-2020, 13.2.2).
#[derive(Clone, Copy, Debug, PartialEq, Eq)]
pub enum EventState {
    /// Nothing is to be reported.
    Normal,
    /// The object's reliability shows a fault.
    Fault,
    /// The value is one that is to be reported.
    Offnormal,
    /// The value is above its limit.
    HighLimit,
    /// The value is below its limit.
    LowLimit,
}

impl EventState {
    /// The number of the state (BACnetEventState).
    pub fn number(self) -> u8
        ensures number { result ≡ number_of_state self }
    {
        match self {
            EventState::Normal => 0,
            EventState::Fault => 1,
            EventState::Offnormal => 2,
            EventState::HighLimit => 3,
            EventState::LowLimit => 4,
        }
    }

    /// The state with a number, if there is one.
    pub fn of_number(number: u32) -> Option<EventState>
        ensures state { result ≡ state_of_number number }
    {
        match number {
            0 => Some(EventState::Normal),
            1 => Some(EventState::Fault),
            2 => Some(EventState::Offnormal),
            3 => Some(EventState::HighLimit),
            4 => Some(EventState::LowLimit),
            _ => None,
        }
    }

    /// The transition by which the state is entered.
    pub fn transition(self) -> Transition
        ensures transition { result ≡ transition_to self }
    {
        match self {
            EventState::Normal => Transition::ToNormal,
            EventState::Fault => Transition::ToFault,
            EventState::Offnormal | EventState::HighLimit | EventState::LowLimit => {
                Transition::ToOffnormal
            }
        }
    }
}
