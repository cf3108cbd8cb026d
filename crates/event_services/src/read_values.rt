//! The event values of a notification are read, by the event's type.

ghost use Rattle.std.specs.Prelude.{◌≡◌, ◌<◌, ◌≤◌, length, IfOk};
ghost use Rattle.bac_tags.specs.ReadingSteps.{value_at};
ghost use Rattle.bac_tags.specs.EnclosingSteps.{enclosed_at};
ghost use Rattle.event_services.specs.NoteTexts.{HoldsText, IsTextOfChange, IsTextOfCommand, IsTextOfProperties, IsTextOfProperty, IsTextOfReliability, IsTextOfValues, IsTextTold};
ghost use Rattle.event_services.specs.NoteReadingSteps.{GivesRead, property_state_in, property_state_at, present_value, property_value_at, properties_at, reliability_number_at, bitstring_at, changed_state_at, commanded_at, unsigned_range_at, signed_out_of_range_at, unsigned_out_of_range_at, changed_text_at, reliability_at, told_at, values_at};

use crate::EventValues;
use crate::read_elements::{flags_at, text_at};
use bac_tags::{
    Shape, TagFault, read_bits, read_closing, read_opening, read_signed, read_tag, read_unsigned,
    read_value,
};
use bac_values::{EventType, PropertyId, Reliability, Value};
use std::alloc::Global;

/// The state of a property whose tag has that number, and the place after it.
fn property_state_in(number: u8, input: &[u8], at: usize) -> Result<((bool, u32), usize), TagFault>
    requires { at ≤ length input.now }
    ensures exact { result ≡ property_state_in number input.now at }
    ensures within { IfOk result (λ x. (at < x.1) × (x.1 ≤ length input.now)) }
{
    match number {
        1 => {
            let (value, after) = read_unsigned(input, at, Some(1))?;
            Ok(((true, value), after))
        }
        11 => {
            let (value, after) = read_unsigned(input, at, Some(11))?;
            Ok(((false, value), after))
        }
        _ => Err(TagFault::WrongTag { at }),
    }
}

/// The state of a property, and the place after it.
#[tactic(auto, unfolding(crate::specs::NoteReadingSteps::property_state_at))]
fn property_state_at(input: &[u8], at: usize) -> Result<((bool, u32), usize), TagFault>
    requires { at ≤ length input.now }
    ensures exact { result ≡ property_state_at input.now at }
    ensures within { IfOk result (λ x. (at < x.1) × (x.1 ≤ length input.now)) }
{
    let (tag, _) = read_tag(input, at)?;
    property_state_in(tag.number, input, at)
}

/// The state of a property between the tags 0, and the place after them.
fn enclosed_state(input: &[u8], at: usize) -> Result<((bool, u32), usize), TagFault>
    requires { at ≤ length input.now }
    ensures exact { result ≡ enclosed_at property_state_at 0 input.now at }
    ensures within { IfOk result (λ x. (at < x.1) × (x.1 ≤ length input.now)) }
{
    let start = read_opening(input, at, 0)?;
    let (state, end) = property_state_at(input, start)?;
    let after = read_closing(input, end, 0)?;
    Ok((state, after))
}

/// The value between the tags of a number, and the place after them.
fn enclosed_value(
    alloc: Global,
    input: &[u8],
    at: usize,
    number: u8,
) -> Result<(Value, usize), TagFault>
    requires { at ≤ length input.now }
    ensures exact { GivesRead (HoldsText number input.now at) result (enclosed_at value_at number input.now at) }
    ensures within { IfOk result (λ x. (at < x.1) × (x.1 ≤ length input.now)) }
{
    let start = read_opening(input, at, number)?;
    let (value, end) = read_value(alloc, input, start)?;
    let after = read_closing(input, end, number)?;
    Ok((value, after))
}

/// The reliability with that number in a context, and the place after it.
#[tactic(auto, unfolding(crate::specs::NoteReadingSteps::reliability_number_at))]
fn reliability_number_at(
    input: &[u8],
    at: usize,
    number: u8,
) -> Result<(Reliability, usize), TagFault>
    requires { at ≤ length input.now }
    ensures exact { result ≡ reliability_number_at number input.now at }
    ensures within { IfOk result (λ x. (at < x.1) × (x.1 ≤ length input.now)) }
{
    let (value, after) = read_unsigned(input, at, Some(number))?;
    match Reliability::of_number(value) {
        Some(reliability) => Ok((reliability, after)),
        None => Err(TagFault::BadLength { at }),
    }
}

/// The present value of a list of properties' values, and the place after it.
#[tactic(auto, unfolding(crate::specs::NoteReadingSteps::property_value_at))]
fn property_value_at(alloc: Global, input: &[u8], at: usize) -> Result<(Value, usize), TagFault>
    requires { at ≤ length input.now }
    ensures exact { GivesRead (IsTextOfProperty input.now at) result (property_value_at input.now at) }
    ensures within { IfOk result (λ x. (at < x.1) × (x.1 ≤ length input.now)) }
{
    let (property, after) = read_unsigned(input, at, Some(0))?;
    if property != PropertyId::PRESENT_VALUE.0 {
        return Err(TagFault::BadLength { at });
    }
    enclosed_value(alloc, input, after, 2)
}

/// The present value of an object between the tags 2, or none, and the place after them.
#[tactic(auto, unfolding(crate::specs::NoteReadingSteps::properties_at))]
fn properties_at(alloc: Global, input: &[u8], at: usize) -> Result<(Option<Value>, usize), TagFault>
    requires { at ≤ length input.now }
    ensures exact { GivesRead (IsTextOfProperties input.now at) result (properties_at input.now at) }
    ensures within { IfOk result (λ x. (at < x.1) × (x.1 ≤ length input.now)) }
{
    let start = read_opening(input, at, 2)?;
    let (tag, _) = read_tag(input, start)?;
    if tag.shape == Shape::Closing {
        let after = read_closing(input, start, 2)?;
        return Ok((None, after));
    }
    let (value, end) = property_value_at(alloc, input, start)?;
    let after = read_closing(input, end, 2)?;
    Ok((Some(value), after))
}

/// What is told of a change of bits, and the place after it.
#[tactic(auto, unfolding(crate::specs::NoteReadingSteps::bitstring_at))]
fn bitstring_at(input: &[u8], at: usize) -> Result<(EventValues, usize), TagFault>
    requires { at ≤ length input.now }
    ensures exact { result ≡ bitstring_at input.now at }
    ensures within { IfOk result (λ x. (at < x.1) × (x.1 ≤ length input.now)) }
{
    let (referenced, at) = read_bits(input, at, Some(0))?;
    let (flags, after) = flags_at(input, at)?;
    Ok((EventValues::Bitstring { referenced, flags }, after))
}

/// What is told of a change of state, and the place after it.
#[tactic(auto, unfolding(crate::specs::NoteReadingSteps::changed_state_at))]
fn changed_state_at(input: &[u8], at: usize) -> Result<(EventValues, usize), TagFault>
    requires { at ≤ length input.now }
    ensures exact { result ≡ changed_state_at input.now at }
    ensures within { IfOk result (λ x. (at < x.1) × (x.1 ≤ length input.now)) }
{
    let ((binary, number), at) = enclosed_state(input, at)?;
    let (flags, after) = flags_at(input, at)?;
    Ok((
        EventValues::State {
            binary,
            number,
            flags,
        },
        after,
    ))
}

/// What is told of a command that isn't followed, and the place after it.
#[tactic(auto, unfolding(crate::specs::NoteReadingSteps::commanded_at))]
fn commanded_at(alloc: Global, input: &[u8], at: usize) -> Result<(EventValues, usize), TagFault>
    requires { at ≤ length input.now }
    ensures exact { GivesRead (IsTextOfCommand input.now at) result (commanded_at input.now at) }
    ensures within { IfOk result (λ x. (at < x.1) × (x.1 ≤ length input.now)) }
{
    let (command, at) = enclosed_value(alloc, input, at, 0)?;
    let (flags, at) = flags_at(input, at)?;
    let (feedback, after) = enclosed_value(alloc, input, at, 2)?;
    Ok((
        EventValues::Command {
            command,
            flags,
            feedback,
        },
        after,
    ))
}

/// What is told of a number without a sign outside its range, and the place after it.
#[tactic(auto, unfolding(crate::specs::NoteReadingSteps::unsigned_range_at))]
fn unsigned_range_at(input: &[u8], at: usize) -> Result<(EventValues, usize), TagFault>
    requires { at ≤ length input.now }
    ensures exact { result ≡ unsigned_range_at input.now at }
    ensures within { IfOk result (λ x. (at < x.1) × (x.1 ≤ length input.now)) }
{
    let (value, at) = read_unsigned(input, at, Some(0))?;
    let (flags, at) = flags_at(input, at)?;
    let (limit, after) = read_unsigned(input, at, Some(2))?;
    Ok((
        EventValues::UnsignedRange {
            value,
            flags,
            limit,
        },
        after,
    ))
}

/// What is told of a number with a sign outside its range with a deadband, and the place after it.
#[tactic(auto, unfolding(crate::specs::NoteReadingSteps::signed_out_of_range_at))]
fn signed_out_of_range_at(input: &[u8], at: usize) -> Result<(EventValues, usize), TagFault>
    requires { at ≤ length input.now }
    ensures exact { result ≡ signed_out_of_range_at input.now at }
    ensures within { IfOk result (λ x. (at < x.1) × (x.1 ≤ length input.now)) }
{
    let (value, at) = read_signed(input, at, Some(0))?;
    let (flags, at) = flags_at(input, at)?;
    let (deadband, at) = read_unsigned(input, at, Some(2))?;
    let (limit, after) = read_signed(input, at, Some(3))?;
    Ok((
        EventValues::SignedOutOfRange {
            value,
            flags,
            deadband,
            limit,
        },
        after,
    ))
}

/// What is told of a number without a sign outside its range with a deadband, and the place after it.
#[tactic(auto, unfolding(crate::specs::NoteReadingSteps::unsigned_out_of_range_at))]
fn unsigned_out_of_range_at(input: &[u8], at: usize) -> Result<(EventValues, usize), TagFault>
    requires { at ≤ length input.now }
    ensures exact { result ≡ unsigned_out_of_range_at input.now at }
    ensures within { IfOk result (λ x. (at < x.1) × (x.1 ≤ length input.now)) }
{
    let (value, at) = read_unsigned(input, at, Some(0))?;
    let (flags, at) = flags_at(input, at)?;
    let (deadband, at) = read_unsigned(input, at, Some(2))?;
    let (limit, after) = read_unsigned(input, at, Some(3))?;
    Ok((
        EventValues::UnsignedOutOfRange {
            value,
            flags,
            deadband,
            limit,
        },
        after,
    ))
}

/// What is told of a change of text, and the place after it.
#[tactic(auto, unfolding(crate::specs::NoteReadingSteps::changed_text_at))]
fn changed_text_at(alloc: Global, input: &[u8], at: usize) -> Result<(EventValues, usize), TagFault>
    requires { at ≤ length input.now }
    ensures exact { GivesRead (IsTextOfChange input.now at) result (changed_text_at input.now at) }
    ensures within { IfOk result (λ x. (at < x.1) × (x.1 ≤ length input.now)) }
{
    let (changed, at) = text_at(alloc, input, at, 0)?;
    let (flags, at) = flags_at(input, at)?;
    let (alarm, after) = text_at(alloc, input, at, 2)?;
    Ok((
        EventValues::Characterstring {
            changed,
            flags,
            alarm,
        },
        after,
    ))
}

/// What is told of a change of reliability, and the place after it.
#[tactic(auto, unfolding(crate::specs::NoteReadingSteps::reliability_at))]
fn reliability_at(alloc: Global, input: &[u8], at: usize) -> Result<(EventValues, usize), TagFault>
    requires { at ≤ length input.now }
    ensures exact { GivesRead (IsTextOfReliability input.now at) result (reliability_at input.now at) }
    ensures within { IfOk result (λ x. (at < x.1) × (x.1 ≤ length input.now)) }
{
    let (reliability, at) = reliability_number_at(input, at, 0)?;
    let (flags, at) = flags_at(input, at)?;
    let (property, after) = properties_at(alloc, input, at)?;
    Ok((
        EventValues::Reliability {
            reliability,
            flags,
            property,
        },
        after,
    ))
}

/// What is told of an event of that type, and the place after it.
#[tactic(auto, unfolding(crate::specs::NoteReadingSteps::told_at))]
fn told_at(
    alloc: Global,
    kind: u8,
    input: &[u8],
    at: usize,
) -> Result<(EventValues, usize), TagFault>
    requires { at ≤ length input.now }
    ensures exact { GivesRead (IsTextTold kind input.now at) result (told_at kind input.now at) }
    ensures within { IfOk result (λ x. (at < x.1) × (x.1 ≤ length input.now)) }
{
    match EventType(kind) {
        EventType::CHANGE_OF_BITSTRING => bitstring_at(input, at),
        EventType::CHANGE_OF_STATE => changed_state_at(input, at),
        EventType::COMMAND_FAILURE => commanded_at(alloc, input, at),
        EventType::UNSIGNED_RANGE => unsigned_range_at(input, at),
        EventType::SIGNED_OUT_OF_RANGE => signed_out_of_range_at(input, at),
        EventType::UNSIGNED_OUT_OF_RANGE => unsigned_out_of_range_at(input, at),
        EventType::CHANGE_OF_CHARACTERSTRING => changed_text_at(alloc, input, at),
        EventType::CHANGE_OF_RELIABILITY => reliability_at(alloc, input, at),
        _ => Err(TagFault::WrongTag { at }),
    }
}

/// The values of an event of that type, and the place after them.
#[tactic(auto, unfolding(crate::specs::NoteReadingSteps::values_at))]
pub(crate) fn values_at(
    alloc: Global,
    kind: u8,
    input: &[u8],
    at: usize,
) -> Result<(EventValues, usize), TagFault>
    requires { at ≤ length input.now }
    ensures exact { GivesRead (IsTextOfValues kind input.now at) result (values_at kind input.now at) }
    ensures within { IfOk result (λ x. (at < x.1) × (x.1 ≤ length input.now)) }
{
    let outer = read_opening(input, at, 12)?;
    let start = read_opening(input, outer, kind)?;
    let (told, end) = told_at(alloc, kind, input, start)?;
    let inner = read_closing(input, end, kind)?;
    let after = read_closing(input, inner, 12)?;
    Ok((told, after))
}
