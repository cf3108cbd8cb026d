//! The names of states, of types of objects, and of refusals.

ghost use Rattle.std.specs.Prelude.{◌≡◌};
ghost use Rattle.script_lines.specs.Report.{state_name, kind_name, refusal_word};

use bac_values::{EventState, ObjectKind, SetFault};

/// The name of an event state.
pub fn state_name(state: EventState) -> &'static str
    ensures name { result.now ≡ state_name state }
{
    match state {
        EventState::Normal => "normal",
        EventState::Fault => "fault",
        EventState::Offnormal => "offnormal",
        EventState::HighLimit => "high-limit",
        EventState::LowLimit => "low-limit",
    }
}

/// The name of a type of objects.
pub fn kind_name(kind: ObjectKind) -> &'static str
    ensures name { result.now ≡ kind_name kind }
{
    match kind {
        ObjectKind::BinaryValue => "binary-value",
        ObjectKind::Device => "device",
        ObjectKind::EventEnrollment => "event-enrollment",
        ObjectKind::NotificationClass => "notification-class",
        ObjectKind::MultiStateValue => "multi-state-value",
        ObjectKind::EventLog => "event-log",
        ObjectKind::BitStringValue => "bitstring-value",
        ObjectKind::CharacterStringValue => "characterstring-value",
        ObjectKind::IntegerValue => "integer-value",
        ObjectKind::PositiveIntegerValue => "positive-integer-value",
    }
}

/// The word for a cause of refusal.
pub fn refusal_word(why: SetFault) -> &'static str
    ensures word { result.now ≡ refusal_word why }
{
    match why {
        SetFault::UnknownObject => "unknown-object",
        SetFault::WrongKind => "wrong-kind",
        SetFault::OutOfService => "out-of-service",
        SetFault::ValueRange => "value-range",
    }
}
