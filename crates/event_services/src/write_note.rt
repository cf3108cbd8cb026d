//! Notifications are written (13.8, 13.9).

ghost use Rattle.std.specs.Prelude.{◌≡◌, ◌++◌, List, ◌<◌, ◌≤◌, ◌^◌, length, OnOk, IfOk, MatchOption};
ghost use Rattle.bac_values.specs.Limits.{most_note_octets, most_text_octets};
ghost use Rattle.bac_tags.specs.Writing.{written_unsigned, written_boolean, written_stamp, written_value};
ghost use Rattle.bac_values.specs.EventStates.{number_of_state};
ghost use Rattle.event_services.specs.Notifications.{IsOneValue, IsOneOrNone, HasOneValues, IsTold, type_of_values, written_text_in, bits_of_flags, written_flags, written_property, written_told, written_values, written_kind, written_states, written_notification};
ghost use Rattle.event_services.specs.NoteTails.{LeavesRoom, written_objects, written_occurrence, written_tail};
ghost use Rattle.bac_tags.specs.ParameterWriting.{written_enclosed, written_if_given};
ghost use Rattle.event_services.specs.NoteLengths.{IsShort, AreShort, HasShortText};
ghost use Rattle.event_services.specs.NoteRanges.{IfAny};

use crate::notification::{EventValues, Notification};
use bac_tags::{
    Shape, Tag, write_bits, write_bool, write_closing, write_object, write_opening, write_signed,
    write_stamp, write_tag, write_unsigned, write_value,
};
use bac_values::{
    Bits, EventState, EventType, NoMemory, PropertyId, Reliability, Stamp, StatusFlags, Text, Value,
};
use std::alloc::Global;

/// The most octets that a process identifier has: its tag, and a number of four octets.
const LONGEST_PROCESS: usize = 5;

/// Appends a text with that number in a context.
fn write_text(out: &mut Vec<u8>, number: u8, text: &Text) -> Result<(), NoMemory>
    ensures written { OnOk result (out.new.items ≡ out.old.items ++ written_text_in number text.now) }
    ensures short { length text.now ≤ most_text_octets }
{
    let octets = text.octets();
    write_tag(
        out,
        Tag {
            number,
            context: true,
            shape: Shape::Primitive {
                length: octets.len() as u32 + 1,
            },
        },
    )?;
    out.extend_from_slice(&[0])?;
    out.extend_from_slice(octets)?;
    Ok(())
}

/// The flags as a string of bits.
fn bits_of_flags(flags: StatusFlags) -> Bits
    ensures { result ≡ bits_of_flags flags }
{
    let bits = u64::from(flags.in_alarm)
        + 2 * u64::from(flags.fault)
        + 4 * u64::from(flags.overridden)
        + 8 * u64::from(flags.out_of_service);
    let Ok(string) = Bits::new(4, bits) else {
        unreachable!()
    };
    string
}

/// Appends the status flags.
fn write_flags(out: &mut Vec<u8>, flags: StatusFlags) -> Result<(), NoMemory>
    ensures { OnOk result (out.new.items ≡ out.old.items ++ written_flags flags) }
{
    write_bits(out, Some(1), bits_of_flags(flags))
}

/// Appends a value between the tags of a number.
fn write_enclosed_value(out: &mut Vec<u8>, number: u8, value: &Value) -> Result<(), NoMemory>
    requires { IsOneValue value.now }
    ensures written { OnOk result (out.new.items ≡ out.old.items ++ written_enclosed number (written_value value.now)) }
    ensures short { OnOk result (IsShort value.now) }
{
    write_opening(out, number)?;
    write_value(out, value)?;
    write_closing(out, number)
}

/// Appends a date and a time between the tags of a number.
pub(crate) fn write_enclosed_stamp(
    out: &mut Vec<u8>,
    number: u8,
    stamp: Stamp,
) -> Result<(), NoMemory>
    ensures written { OnOk result (out.new.items ≡ out.old.items ++ written_enclosed number (written_stamp stamp)) }
    ensures whole { length stamp.octets ≡ 8 }
{
    write_opening(out, number)?;
    write_stamp(out, None, stamp)?;
    write_closing(out, number)
}

/// Appends a property's value, if there is one.
fn write_property(out: &mut Vec<u8>, property: &Option<Value>) -> Result<(), NoMemory>
    requires { IsOneOrNone property.now }
    ensures written { OnOk result (out.new.items ≡ out.old.items ++ written_property property.now) }
    ensures short { OnOk result (IfAny IsShort property.now) }
{
    let Some(value) = property else {
        return Ok(());
    };
    write_unsigned(out, Some(0), PropertyId::PRESENT_VALUE.0)?;
    write_enclosed_value(out, 2, value)
}

/// Appends the values of an event that hold a property's value.
fn write_commanded(
    out: &mut Vec<u8>,
    command: &Value,
    flags: StatusFlags,
    feedback: &Value,
) -> Result<(), NoMemory>
    requires command { IsOneValue command.now }
    requires feedback { IsOneValue feedback.now }
    ensures written { OnOk result (out.new.items ≡ out.old.items ++ written_told (EventValues.Command command.now flags feedback.now)) }
    ensures short { OnOk result (IsShort command.now × IsShort feedback.now) }
{
    write_enclosed_value(out, 0, command)?;
    write_flags(out, flags)?;
    write_enclosed_value(out, 2, feedback)
}

/// Appends the state that a value has entered.
fn write_state(
    out: &mut Vec<u8>,
    binary: bool,
    number: u32,
    flags: StatusFlags,
) -> Result<(), NoMemory>
    ensures { OnOk result (out.new.items ≡ out.old.items ++ written_told (EventValues.State binary number flags)) }
{
    let form = if binary { 1 } else { 11 };
    write_opening(out, 0)?;
    write_unsigned(out, Some(form), number)?;
    write_closing(out, 0)?;
    write_flags(out, flags)
}

/// Appends the values of a number without a sign outside its range with a deadband.
fn write_unsigned_out_of_range(
    out: &mut Vec<u8>,
    value: u32,
    flags: StatusFlags,
    deadband: u32,
    limit: u32,
) -> Result<(), NoMemory>
    ensures { OnOk result (out.new.items ≡ out.old.items ++ written_told (EventValues.UnsignedOutOfRange value flags deadband limit)) }
{
    write_unsigned(out, Some(0), value)?;
    write_flags(out, flags)?;
    write_unsigned(out, Some(2), deadband)?;
    write_unsigned(out, Some(3), limit)
}

/// Appends the values of a number with a sign outside its range with a deadband.
fn write_signed_out_of_range(
    out: &mut Vec<u8>,
    value: i32,
    flags: StatusFlags,
    deadband: u32,
    limit: i32,
) -> Result<(), NoMemory>
    ensures { OnOk result (out.new.items ≡ out.old.items ++ written_told (EventValues.SignedOutOfRange value flags deadband limit)) }
{
    write_signed(out, Some(0), value)?;
    write_flags(out, flags)?;
    write_unsigned(out, Some(2), deadband)?;
    write_signed(out, Some(3), limit)
}

/// Appends the values of a number without a sign outside its range.
fn write_unsigned_range(
    out: &mut Vec<u8>,
    value: u32,
    flags: StatusFlags,
    limit: u32,
) -> Result<(), NoMemory>
    ensures { OnOk result (out.new.items ≡ out.old.items ++ written_told (EventValues.UnsignedRange value flags limit)) }
{
    write_unsigned(out, Some(0), value)?;
    write_flags(out, flags)?;
    write_unsigned(out, Some(2), limit)
}

/// Appends the values of a change of text.
fn write_changed(
    out: &mut Vec<u8>,
    changed: &Text,
    flags: StatusFlags,
    alarm: &Text,
) -> Result<(), NoMemory>
    ensures written { OnOk result (out.new.items ≡ out.old.items ++ written_told (EventValues.Characterstring changed.now flags alarm.now)) }
    ensures short { OnOk result ((length changed.now ≤ most_text_octets) × (length alarm.now ≤ most_text_octets)) }
{
    write_text(out, 0, changed)?;
    write_flags(out, flags)?;
    write_text(out, 2, alarm)
}

/// Appends the values of a change of reliability.
fn write_reliability(
    out: &mut Vec<u8>,
    reliability: Reliability,
    flags: StatusFlags,
    property: &Option<Value>,
) -> Result<(), NoMemory>
    requires { IsOneOrNone property.now }
    ensures written { OnOk result (out.new.items ≡ out.old.items ++ written_told (EventValues.Reliability reliability flags property.now)) }
    ensures short { OnOk result (IfAny IsShort property.now) }
{
    write_unsigned(out, Some(0), u32::from(reliability.number()))?;
    write_flags(out, flags)?;
    write_opening(out, 2)?;
    write_property(out, property)?;
    write_closing(out, 2)
}

/// Appends what stands between the tags of the event's type.
fn write_told(out: &mut Vec<u8>, told: &EventValues) -> Result<(), NoMemory>
    requires { HasOneValues told.now }
    ensures written { OnOk result (out.new.items ≡ out.old.items ++ written_told told.now) }
    ensures short { OnOk result (AreShort told.now) }
{
    match told {
        EventValues::Bitstring { referenced, flags } => {
            write_bits(out, Some(0), *referenced)?;
            write_flags(out, *flags)
        }
        EventValues::State {
            binary,
            number,
            flags,
        } => write_state(out, *binary, *number, *flags),
        EventValues::Command {
            command,
            flags,
            feedback,
        } => write_commanded(out, command, *flags, feedback),
        EventValues::UnsignedRange {
            value,
            flags,
            limit,
        } => write_unsigned_range(out, *value, *flags, *limit),
        EventValues::SignedOutOfRange {
            value,
            flags,
            deadband,
            limit,
        } => write_signed_out_of_range(out, *value, *flags, *deadband, *limit),
        EventValues::UnsignedOutOfRange {
            value,
            flags,
            deadband,
            limit,
        } => write_unsigned_out_of_range(out, *value, *flags, *deadband, *limit),
        EventValues::Characterstring {
            changed,
            flags,
            alarm,
        } => write_changed(out, changed, *flags, alarm),
        EventValues::Reliability {
            reliability,
            flags,
            property,
        } => write_reliability(out, *reliability, *flags, property),
    }
}

/// The number of the event type that tells these values.
fn type_of_values(told: &EventValues) -> u8
    ensures { result ≡ type_of_values told.now }
{
    match told {
        EventValues::Bitstring { .. } => EventType::CHANGE_OF_BITSTRING.0,
        EventValues::State { .. } => EventType::CHANGE_OF_STATE.0,
        EventValues::Command { .. } => EventType::COMMAND_FAILURE.0,
        EventValues::UnsignedRange { .. } => EventType::UNSIGNED_RANGE.0,
        EventValues::SignedOutOfRange { .. } => EventType::SIGNED_OUT_OF_RANGE.0,
        EventValues::UnsignedOutOfRange { .. } => EventType::UNSIGNED_OUT_OF_RANGE.0,
        EventValues::Characterstring { .. } => EventType::CHANGE_OF_CHARACTERSTRING.0,
        EventValues::Reliability { .. } => EventType::CHANGE_OF_RELIABILITY.0,
    }
}

/// Appends the values of an event, if there are any.
fn write_values(out: &mut Vec<u8>, values: &Option<EventValues>) -> Result<(), NoMemory>
    requires { MatchOption values.now (Unit {0}) HasOneValues }
    ensures written { OnOk result (out.new.items ≡ out.old.items ++ written_if_given written_values values.now) }
    ensures short { OnOk result (IfAny AreShort values.now) }
{
    let Some(told) = values else {
        return Ok(());
    };
    let number = type_of_values(told);
    write_opening(out, 12)?;
    write_opening(out, number)?;
    write_told(out, told)?;
    write_closing(out, number)?;
    write_closing(out, 12)
}

/// Appends a text, if there is one.
fn write_message(out: &mut Vec<u8>, text: &Option<Text>) -> Result<(), NoMemory>
    ensures written { OnOk result (out.new.items ≡ out.old.items ++ written_if_given (written_text_in 7) text.now) }
    ensures short { OnOk result (IfAny HasShortText text.now) }
{
    match text {
        Some(text) => write_text(out, 7, text),
        None => Ok(()),
    }
}

/// Appends by whom is told, and of what.
fn write_source(out: &mut Vec<u8>, note: &Notification) -> Result<(), NoMemory>
    ensures { OnOk result (out.new.items ≡ out.old.items ++ written_objects note.now) }
{
    write_object(out, Some(1), note.device)?;
    write_object(out, Some(2), note.object)
}

/// Appends a time stamp between the tags of a number.
fn write_time_stamp(out: &mut Vec<u8>, number: u8, stamp: Stamp) -> Result<(), NoMemory>
    ensures written { OnOk result (out.new.items ≡ out.old.items ++ written_enclosed number (written_enclosed 2 (written_stamp stamp))) }
    ensures whole { length stamp.octets ≡ 8 }
{
    write_opening(out, number)?;
    write_enclosed_stamp(out, 2, stamp)?;
    write_closing(out, number)
}

/// Appends the class, the priority and the type.
fn write_kind(out: &mut Vec<u8>, note: &Notification) -> Result<(), NoMemory>
    ensures { OnOk result (out.new.items ≡ out.old.items ++ written_kind note.now) }
{
    write_unsigned(out, Some(4), note.class)?;
    write_unsigned(out, Some(5), u32::from(note.priority))?;
    write_unsigned(out, Some(6), u32::from(note.event_type))
}

/// Appends what says which event it is.
fn write_event(out: &mut Vec<u8>, note: &Notification) -> Result<(), NoMemory>
    ensures written { OnOk result (out.new.items ≡ out.old.items ++ written_occurrence note.now) }
    ensures whole { OnOk result (length note.now.stamp.octets ≡ 8) }
{
    write_source(out, note)?;
    write_time_stamp(out, 3, note.stamp)?;
    write_kind(out, note)
}

/// Appends a state with a number in a context, if there is one.
fn write_from(out: &mut Vec<u8>, from: Option<EventState>) -> Result<(), NoMemory>
    ensures { OnOk result (out.new.items ≡ out.old.items ++ written_if_given (λ state. written_unsigned (Some 10) (number_of_state state)) from) }
{
    match from {
        Some(state) => write_unsigned(out, Some(10), u32::from(state.number())),
        None => Ok(()),
    }
}

/// Appends whether the event is to be acknowledged, if it is said.
fn write_ack_required(out: &mut Vec<u8>, ack_required: Option<bool>) -> Result<(), NoMemory>
    ensures { OnOk result (out.new.items ≡ out.old.items ++ written_if_given (written_boolean (Some 9)) ack_required) }
{
    match ack_required {
        Some(required) => write_bool(out, Some(9), required),
        None => Ok(()),
    }
}

/// Appends what is notified, and the states.
fn write_states(out: &mut Vec<u8>, note: &Notification) -> Result<(), NoMemory>
    ensures { OnOk result (out.new.items ≡ out.old.items ++ written_states note.now) }
{
    write_unsigned(out, Some(8), u32::from(note.notify))?;
    write_ack_required(out, note.ack_required)?;
    write_from(out, note.from)?;
    write_unsigned(out, Some(11), u32::from(note.to.number()))
}

/// The parameters of a notification behind the process identifier, each in its one spelling. Parameters that it lacks are
/// left out. There is room for a process identifier before them.
#[tactic(auto, unfolding(crate::specs::NoteTails::written_tail))]
pub(crate) fn write_tail(alloc: Global, note: &Notification) -> Result<Vec<u8>, NoMemory>
    // The values are those of the event type, and each is one element.
    requires told { IsTold note.now.event_type note.now.values }
    ensures tail { IfOk result (λ octets. octets.items ≡ written_tail note.now) }
    ensures room { IfOk result (λ octets. LeavesRoom octets.items) }
{
    let mut out = Vec::new(alloc);
    write_event(&mut out, note)?;
    write_message(&mut out, &note.text)?;
    write_states(&mut out, note)?;
    write_values(&mut out, &note.values)?;
    Ok(out)
}

/// A process identifier, and what stands behind it. No more memory is taken than these octets want.
#[tactic(auto, using(crate::proofs::NoteLengthLaws::before_octets))]
pub(crate) fn write_before(alloc: Global, process: u32, tail: &[u8]) -> Result<Vec<u8>, NoMemory>
    requires room { LeavesRoom tail.now }
    ensures written { IfOk result (λ octets. octets.items ≡ written_unsigned (Some 0) process ++ tail.now) }
    ensures short { IfOk result (λ octets. length octets.items ≤ most_note_octets) }
{
    let mut out = Vec::with_capacity(alloc, LONGEST_PROCESS + tail.len())?;
    write_unsigned(&mut out, Some(0), process)?;
    out.extend_from_slice(tail)?;
    Ok(out)
}

/// Writes the parameters of a notification, each in its one spelling. Parameters that it lacks are left out. There are
/// at most 1,024 octets.
#[tactic(auto, using(crate::proofs::NoteTailLaws::own_behind))]
pub fn write_notification(alloc: Global, note: &Notification) -> Result<Vec<u8>, NoMemory>
    // The values are those of the event type, and each is one element.
    requires told { IsTold note.now.event_type note.now.values }
    ensures written { IfOk result (λ octets. octets.items ≡ written_notification note.now) }
    ensures short { IfOk result (λ octets. length octets.items ≤ most_note_octets) }
{
    let tail = write_tail(alloc, note)?;
    write_before(alloc, note.process, &tail)
}
