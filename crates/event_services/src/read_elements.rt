//! Elements that only notifications have are read.

ghost use Rattle.std.specs.Prelude.{◌≡◌, ◌<◌, ◌≤◌, length, IfOk, IfSome, MatchOption};
ghost use Rattle.bac_values.specs.Limits.{most_text_octets};
ghost use Rattle.event_services.specs.NoteTexts.{IsText};
ghost use Rattle.event_services.specs.NoteReadingSteps.{GivesRead, octet_number_at, state_at, flags_of, flags_at, text_of, text_at, moment_at};

use crate::time_stamp::enclosed_stamp;
use bac_tags::{TagFault, read_bits, read_closing, read_octets, read_opening, read_unsigned};
use bac_values::{Bits, EventState, MOST_TEXT_OCTETS, Stamp, StatusFlags, Text};
use std::alloc::Global;

/// The number of one octet with that number in a context, and the place after it.
pub(crate) fn octet_number_at(input: &[u8], at: usize, number: u8) -> Result<(u8, usize), TagFault>
    requires { at ≤ length input.now }
    ensures exact { result ≡ octet_number_at number input.now at }
    ensures within { IfOk result (λ x. (at < x.1) × (x.1 ≤ length input.now)) }
{
    let (value, after) = read_unsigned(input, at, Some(number))?;
    if value < 256 {
        Ok((value as u8, after))
    } else {
        Err(TagFault::BadLength { at })
    }
}

/// The event state with that number in a context, and the place after it.
#[tactic(auto, unfolding(crate::specs::NoteReadingSteps::state_at))]
pub(crate) fn state_at(input: &[u8], at: usize, number: u8) -> Result<(EventState, usize), TagFault>
    requires { at ≤ length input.now }
    ensures exact { result ≡ state_at number input.now at }
    ensures within { IfOk result (λ x. (at < x.1) × (x.1 ≤ length input.now)) }
{
    let (value, after) = read_unsigned(input, at, Some(number))?;
    match EventState::of_number(value) {
        Some(state) => Ok((state, after)),
        None => Err(TagFault::BadLength { at }),
    }
}

/// The flags of a string of four bits.
fn flags_of(string: Bits) -> Option<StatusFlags>
    ensures { result ≡ flags_of string }
{
    if string.length() != 4 {
        return None;
    }
    let bits = string.bits();
    Some(StatusFlags {
        in_alarm: bits % 2 == 1,
        fault: bits / 2 % 2 == 1,
        overridden: bits / 4 % 2 == 1,
        out_of_service: bits / 8 % 2 == 1,
    })
}

/// The status flags, and the place after them.
#[tactic(auto, unfolding(crate::specs::NoteReadingSteps::flags_at))]
pub(crate) fn flags_at(input: &[u8], at: usize) -> Result<(StatusFlags, usize), TagFault>
    requires { at ≤ length input.now }
    ensures exact { result ≡ flags_at input.now at }
    ensures within { IfOk result (λ x. (at < x.1) × (x.1 ≤ length input.now)) }
{
    let (string, after) = read_bits(input, at, Some(1))?;
    match flags_of(string) {
        Some(flags) => Ok((flags, after)),
        None => Err(TagFault::BadLength { at }),
    }
}

/// The date and the time of a time stamp between the tags of a number, and the place after them.
#[tactic(auto, unfolding(crate::specs::NoteReadingSteps::moment_at))]
pub(crate) fn moment_at(input: &[u8], at: usize, number: u8) -> Result<(Stamp, usize), TagFault>
    requires { at ≤ length input.now }
    ensures exact { result ≡ moment_at number input.now at }
    ensures within { IfOk result (λ x. (at < x.1) × (x.1 ≤ length input.now)) }
{
    let start = read_opening(input, at, number)?;
    let (stamp, end) = enclosed_stamp(input, start, 2)?;
    let after = read_closing(input, end, number)?;
    Ok((stamp, after))
}

/// The text of a content, which begins with the number of its character set.
fn text_of(content: &[u8]) -> Option<&str>
    ensures exact { MatchOption result (text_of content.now ≡ None) (λ text. text_of content.now ≡ Some text.now) }
    ensures short { IfSome result (λ text. length text.now ≤ most_text_octets) }
{
    let [set, text @ ..] = content else {
        return None;
    };
    if *set != 0 || text.len() > MOST_TEXT_OCTETS {
        return None;
    }
    match str::from_utf8(text) {
        Ok(text) => Some(text),
        Err(_) => None,
    }
}

/// The text with that number in a context, and the place after it.
#[tactic(auto, unfolding(crate::specs::NoteReadingSteps::text_at))]
pub(crate) fn text_at(
    alloc: Global,
    input: &[u8],
    at: usize,
    number: u8,
) -> Result<(Text, usize), TagFault>
    requires { at ≤ length input.now }
    ensures exact { GivesRead (IsText number input.now at) result (text_at number input.now at) }
    ensures within { IfOk result (λ x. (at < x.1) × (x.1 ≤ length input.now)) }
{
    let (content, after) = read_octets(input, at, number, 1, 257)?;
    let Some(text) = text_of(content) else {
        return Err(TagFault::BadLength { at });
    };
    match Text::new(alloc, text) {
        Ok(text) => Ok((text, after)),
        Err(_) => Err(TagFault::NoMemory),
    }
}
