//! Whether a transition may be acknowledged.

ghost use Rattle.std.specs.Prelude.{◌≡◌, ◌↔◌, IsTrue};
ghost use Rattle.event_machine.specs.Finding.{IsUnacknowledged, MayAcknowledge, as_finding, names_last, names_state};

use crate::{Alarm, Found};
use bac_values::{EventState, Transition};

// Whether the state that is named is the one that was entered.
fn names_state(last: EventState, named: EventState) -> bool
    ensures names { result ≡ names_state last named }
{
    match (last, named) {
        (EventState::Normal, EventState::Normal)
        | (EventState::Fault, EventState::Fault)
        | (EventState::Offnormal, EventState::Offnormal)
        | (EventState::HighLimit, EventState::HighLimit)
        | (EventState::LowLimit, EventState::LowLimit)
        | (EventState::HighLimit, EventState::Offnormal)
        | (EventState::LowLimit, EventState::Offnormal) => true,
        _ => false,
    }
}

/// Whether a state is the one that a transition entered when it last came, if it came; OFFNORMAL stands for the limits too.
pub fn names_last(last: Option<EventState>, named: EventState) -> bool
    ensures names { result ≡ names_last last named }
{
    match last {
        Some(last) => names_state(last, named),
        None => false,
    }
}

// Whether a transition of an alarm entered a state when it last came, and isn't acknowledged.
fn is_unacknowledged(alarm: &Alarm, transition: Transition, named: EventState) -> bool
    ensures unacknowledged { IsTrue result ↔ IsUnacknowledged alarm.now transition named }
{
    let place = transition.place();
    named.transition() == transition
        && names_last(alarm.last_states()[place], named)
        && !alarm.acked()[place]
}

/// Whether a transition of what is found under an identifier may be acknowledged, where a state is named: it is the one by
/// which the state is entered, it came and entered that state, and it isn't acknowledged (ANSI/ASHRAE 135-2020, 13.5).
pub fn may_acknowledge(found: Found<'_>, transition: Transition, named: EventState) -> bool
    ensures may { IsTrue result ↔ MayAcknowledge (as_finding found.entry) transition named }
{
    match found {
        Found::NoObject | Found::NoAlarm => false,
        Found::Has(alarm) => is_unacknowledged(alarm, transition, named),
    }
}
