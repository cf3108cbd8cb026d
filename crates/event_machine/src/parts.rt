//! The parts of which an alarm is made.

use crate::Run;
use bac_values::{EventState, Reliability, Stamp};

/// What an alarm is made of. Lists of three are for to-offnormal, to-fault and to-normal, but for the runs.
#[derive(Clone, Copy, Debug)]
pub struct AlarmParts {
    /// The event state (Event_State).
    pub state: EventState,
    /// Which transitions are acknowledged (Acked_Transitions).
    pub acked: [bool; 3],
    /// When each transition last came, in local time (Event_Time_Stamps).
    pub stamps: [Stamp; 3],
    /// The state that each transition entered when it last came.
    pub last_states: [Option<EventState>; 3],
    /// The position of the alarm value by which OFFNORMAL was last entered.
    pub cause: Option<u32>,
    /// The reliability at the last point.
    pub last_reliability: Reliability,
    /// The runs of the rules of the state, in their order; none at a place where there is no run, or no such rule.
    pub runs: [Option<Run>; 3],
}
