//! Notifications are read (13.8, 13.9).

ghost use Rattle.std.specs.Prelude.{◌≡◌, ◌↔◌, ◌⊎◌, ℕ, ◌<◌, ◌≤◌, length, IfOk};
ghost use Rattle.bac_values.specs.Reasons.{missing_required_parameter_reason};
ghost use Rattle.event_services.specs.declared.read_note.NoteFault.TheVariants as faults;
ghost use Rattle.bac_tags.specs.ParameterReadingSteps.{required, optional};
ghost use Rattle.bac_tags.specs.ReadingSteps.{boolean_at};
ghost use Rattle.event_services.specs.NoteReadingSteps.{octet_number_at, state_at, text_at, moment_at, values_at};
ghost use Rattle.event_services.specs.declared.notification.Notification.{Notification};
ghost use Rattle.event_services.specs.Notifications.{written_notification};
ghost use Rattle.event_services.specs.NoteGrammar.{SpellsNotification};
ghost use Rattle.event_services.specs.NoteRanges.{IsNotable};
ghost use Rattle.event_services.specs.NoteTexts.{IsText, IsTextOfValues, HasText};
ghost use Rattle.event_services.specs.NoteRefusals.{RefusesNotification, EndsBeforeRequired};
ghost use Rattle.event_services.specs.NoteServiceSteps.{source_at, kind_at, states_at, notification_of, fault_of, as_note, GivesNote};

use crate::read_elements::{moment_at, octet_number_at, state_at, text_at};
use crate::read_values::values_at;
use crate::{EventValues, Notification};
use bac_tags::{
    Malformed, TagFault, nothing_follows, optional, read_bool, required, required_object,
    required_unsigned,
};
use bac_values::{EventState, ObjectId, Stamp, Text};
use std::alloc::Global;

/// Why octets weren't read as a notification.
#[derive(Clone, Copy, Debug, PartialEq, Eq)]
pub enum NoteFault {
    /// They aren't one.
    Malformed {
        /// The reason of the Reject: 4 for an invalid tag, 5 for a missing required parameter, 7 for too many arguments.
        reject: u8,
        /// The first place of the parameter that isn't one, the length of the octets where one is missing, or the
        /// first octet too many.
        at: usize,
    },
    /// Memory was refused.
    NoMemory,
}

impl From<Malformed> for NoteFault {
    ghost use Rattle.event_services.specs.NoteServiceSteps.{fault_of};

    ghost from_gives = { λ why fault. fault ≡ fault_of why };

    fn from(why: Malformed) -> NoteFault {
        NoteFault::Malformed {
            reject: why.reject,
            at: why.at,
        }
    }
}

/// A required time stamp in the form of a date and a time, and the place after it.
fn required_moment(input: &[u8], at: usize, number: u8) -> Result<(Stamp, usize), Malformed>
    requires { at ≤ length input.now }
    ensures exact { result ≡ required input.now at (moment_at number input.now at) }
    ensures within { IfOk result (λ x. (at < x.1) × (x.1 ≤ length input.now)) }
{
    required(input, at, moment_at(input, at, number))
}

/// A required number of one octet, and the place after it.
fn required_octet(input: &[u8], at: usize, number: u8) -> Result<(u8, usize), Malformed>
    requires { at ≤ length input.now }
    ensures exact { result ≡ required input.now at (octet_number_at number input.now at) }
    ensures within { IfOk result (λ x. (at < x.1) × (x.1 ≤ length input.now)) }
{
    required(input, at, octet_number_at(input, at, number))
}

/// A required event state, and the place after it.
fn required_state(input: &[u8], at: usize, number: u8) -> Result<(EventState, usize), Malformed>
    requires { at ≤ length input.now }
    ensures exact { result ≡ required input.now at (state_at number input.now at) }
    ensures within { IfOk result (λ x. (at < x.1) × (x.1 ≤ length input.now)) }
{
    required(input, at, state_at(input, at, number))
}

/// An event state, if one is there, and the place after it.
fn optional_state(
    input: &[u8],
    at: usize,
    number: u8,
) -> Result<(Option<EventState>, usize), Malformed>
    requires { at ≤ length input.now }
    ensures exact { result ≡ optional input.now at (state_at number input.now at) }
    ensures within { IfOk result (λ x. (at ≤ x.1) × (x.1 ≤ length input.now)) }
{
    optional(input, at, state_at(input, at, number))
}

/// A Boolean, if one is there, and the place after it.
fn optional_bool(input: &[u8], at: usize, number: u8) -> Result<(Option<bool>, usize), Malformed>
    requires { at ≤ length input.now }
    ensures exact { result ≡ optional input.now at (boolean_at input.now at (Some number)) }
    ensures within { IfOk result (λ x. (at ≤ x.1) × (x.1 ≤ length input.now)) }
{
    optional(input, at, read_bool(input, at, Some(number)))
}

/// A text, if one is there, and the place after it.
fn optional_text(alloc: Global, input: &[u8], at: usize) -> Result<(Option<Text>, usize), NoteFault>
    requires { at ≤ length input.now }
    ensures exact { GivesNote (IsText 7 input.now at) result (optional input.now at (text_at 7 input.now at)) }
    ensures within { IfOk result (λ x. (at ≤ x.1) × (x.1 ≤ length input.now)) }
{
    match text_at(alloc, input, at, 7) {
        Err(TagFault::NoMemory) => Err(NoteFault::NoMemory),
        read => Ok(optional(input, at, read)?),
    }
}

/// The values of an event of that type, if they are there, and the place after them.
fn optional_values(
    alloc: Global,
    kind: u8,
    input: &[u8],
    at: usize,
) -> Result<(Option<EventValues>, usize), NoteFault>
    requires { at ≤ length input.now }
    ensures exact { GivesNote (IsTextOfValues kind input.now at) result (optional input.now at (values_at kind input.now at)) }
    ensures within { IfOk result (λ x. (at ≤ x.1) × (x.1 ≤ length input.now)) }
{
    match values_at(alloc, kind, input, at) {
        Err(TagFault::NoMemory) => Err(NoteFault::NoMemory),
        read => Ok(optional(input, at, read)?),
    }
}

/// The process, the device, the object and the time stamp, and the place after them.
#[tactic(auto, unfolding(crate::specs::NoteServiceSteps::source_at))]
fn source_at(bytes: &[u8]) -> Result<((u32, ObjectId, ObjectId, Stamp), usize), Malformed>
    ensures exact { result ≡ source_at bytes.now }
    ensures within { IfOk result (λ x. x.1 ≤ length bytes.now) }
{
    let (process, at) = required_unsigned(bytes, 0, 0)?;
    let (device, at) = required_object(bytes, at, 1)?;
    let (object, at) = required_object(bytes, at, 2)?;
    let (stamp, after) = required_moment(bytes, at, 3)?;
    Ok(((process, device, object, stamp), after))
}

/// The class, the priority and the event type, and the place after them.
#[tactic(auto, unfolding(crate::specs::NoteServiceSteps::kind_at))]
fn kind_at(bytes: &[u8], at: usize) -> Result<((u32, u8, u8), usize), Malformed>
    requires { at ≤ length bytes.now }
    ensures exact { result ≡ kind_at bytes.now at }
    ensures within { IfOk result (λ x. x.1 ≤ length bytes.now) }
{
    let (class, at) = required_unsigned(bytes, at, 4)?;
    let (priority, at) = required_octet(bytes, at, 5)?;
    let (kind, after) = required_octet(bytes, at, 6)?;
    Ok(((class, priority, kind), after))
}

/// The notify type, whether the event is to be acknowledged, and the states before and after it.
type States = (u8, Option<bool>, Option<EventState>, EventState);

/// What is notified and the states, and the place after them.
#[tactic(auto, unfolding(crate::specs::NoteServiceSteps::states_at))]
fn states_at(bytes: &[u8], at: usize) -> Result<(States, usize), Malformed>
    requires { at ≤ length bytes.now }
    ensures exact { result ≡ states_at bytes.now at }
    ensures within { IfOk result (λ x. x.1 ≤ length bytes.now) }
{
    let (notify, at) = required_octet(bytes, at, 8)?;
    let (ack_required, at) = optional_bool(bytes, at, 9)?;
    let (from, at) = optional_state(bytes, at, 10)?;
    let (to, after) = required_state(bytes, at, 11)?;
    Ok(((notify, ack_required, from, to), after))
}

/// The notification that the octets are.
#[tactic(auto, unfolding(crate::specs::NoteServiceSteps::notification_of))]
fn notification_of(alloc: Global, bytes: &[u8]) -> Result<Notification, NoteFault>
    ensures exact { GivesNote (HasText bytes.now) result (notification_of bytes.now) }
{
    let ((process, device, object, stamp), at) = source_at(bytes)?;
    let ((class, priority, event_type), at) = kind_at(bytes, at)?;
    let (text, at) = optional_text(alloc, bytes, at)?;
    let ((notify, ack_required, from, to), at) = states_at(bytes, at)?;
    let (values, at) = optional_values(alloc, event_type, bytes, at)?;
    nothing_follows(bytes, at)?;
    Ok(Notification {
        process,
        device,
        object,
        stamp,
        class,
        priority,
        event_type,
        text,
        notify,
        ack_required,
        from,
        to,
        values,
    })
}

/// Reads the parameters of a notification, which begin at the first octet. Each that may be absent may be so by
/// itself. What a field doesn't hold isn't read. Texts take memory.
pub fn read_notification(alloc: Global, bytes: &[u8]) -> Result<Notification, NoteFault>
    // What is read is spelled so.
    ensures found { IfOk result (λ note. SpellsNotification bytes.now note) }
    // What is spelled so is read, but that a text may get no memory.
    ensures only { (note : Notification) → SpellsNotification bytes.now note → GivesNote (HasText bytes.now) result (Ok note) }
    // Each refusal, and exactly where it comes, but that a text before it may get no memory.
    ensures refused { (result ≡ Err NoteFault.NoMemory) ⊎ ((reject at : ℕ) → (result ≡ Err (NoteFault.Malformed reject at)) ↔ RefusesNotification bytes.now (record { reject = reject; at = at })) }
    ensures missing { (result ≡ Err NoteFault.NoMemory) ⊎ ((result ≡ Err (NoteFault.Malformed missing_required_parameter_reason (length bytes.now))) ↔ EndsBeforeRequired bytes.now) }
    // Memory is refused only where the message text stands, or a text in the values of an event.
    ensures no_memory { result ≡ Err NoteFault.NoMemory → HasText bytes.now }

    ensures exact { GivesNote (HasText bytes.now) result (notification_of bytes.now) }
{
    notification_of(alloc, bytes)
}

/// A notification that was written is read back, where its fields are in the ranges of their types and its values, if
/// there are any, are those of its event type and none of them is `Opaque` or a `DateTime`.
pub fn reads_back()
    ensures notification { (note : Notification) → IsNotable note → notification_of (written_notification note) ≡ Ok note }
{}
