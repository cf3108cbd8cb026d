//! Values and datagrams in text.

ghost use Rattle.std.specs.Prelude.{◌≡◌, ◌/◌, ◌≤◌, true, false, Some, None, IfOk, IsErr, IsSome, IsSomeAnd, MatchBool, MatchOption, length};
ghost use Rattle.bac_values.specs.Limits.{most_datagram_octets};
ghost use Rattle.std.specs.Str.{is_utf8};
ghost use Rattle.script_lines.specs.SessionLine.{IsText, bit_of, bits_number, bits_of, datagram_from, datagram_of, name_of, octets_of, text_from, text_of, value_named, value_of, behind, colon};

use crate::number::{signed, unsigned};
use crate::words::place_of;
use bac_values::{Bits, Items, MOST_DATAGRAM_OCTETS, NoMemory, Text, Value};
use std::alloc::Global;

// The bit that a digit stands for.
fn bit(digit: u8) -> Option<u64>
    ensures bit { result ≡ bit_of digit }
{
    match digit {
        b'0' => Some(0),
        b'1' => Some(1),
        _ => None,
    }
}

// The number whose lowest bit is the first digit.
fn bits_value(digits: &[u8]) -> Option<u64>
    requires { length digits.now ≤ 64 }
    ensures value { result ≡ bits_number digits.now }
{
    let mut number = 0;
    for digit in digits.iter().rev() {
        number = bit(*digit)? + 2 * number;
    }
    Some(number)
}

/// The string of at most 64 bits that digits 0 and 1 spell, whose first bit is the first digit.
pub fn read_bits(digits: &[u8]) -> Option<Bits>
    ensures bits { result ≡ bits_of digits.now }
{
    if digits.len() > 64 {
        return None;
    }
    let number = bits_value(digits)?;
    Bits::new(digits.len() as u8, number).ok()
}

/// Puts the octets that pairs of hexadecimal digits spell into a room for just so many. `false` if none are spelled.
#[tactic(auto, using(crate::proofs::Octets::sized_halves))]
pub fn fill(digits: &[u8], room: &mut [u8]) -> bool
    requires half { length room.old ≡ length digits.now / 2 }
    ensures octets { MatchBool result (octets_of digits.now ≡ Some room.new) (octets_of digits.now ≡ None) }
    ensures size { length room.new ≡ length room.old }
{
    hex::decode_to_slice(digits, room).is_ok()
}

// The octets as a text, if they are UTF-8.
#[tactic(auto, using(crate::proofs::Utf8::passes_utf8, crate::proofs::Utf8::fails_utf8))]
fn utf8(octets: &[u8]) -> Option<&str>
    ensures text { MatchOption result (is_utf8 octets.now ≡ false) (λ text. (text.now ≡ octets.now) × (is_utf8 octets.now ≡ true)) }
{
    std::str::from_utf8(octets).ok()
}

// How many octets a text may have.
const LONGEST_TEXT: usize = 256;

// The text of these octets.
fn text_from(alloc: Global, octets: &[u8]) -> Result<Option<Text>, NoMemory>
    requires size { length octets.now ≤ 256 }
    ensures text { IfOk result (λ found. found ≡ text_from octets.now) }
    ensures wants { IsErr result → IsSome (text_from octets.now) }
{
    let Some(source) = utf8(octets) else {
        return Ok(None);
    };
    match Text::new(alloc, source) {
        Ok(text) => Ok(Some(text)),
        Err(_refused) => Err(NoMemory),
    }
}

// The text whose octets are spelled.
#[tactic(auto, using(crate::proofs::Octets::long_text))]
fn text(alloc: Global, digits: &[u8]) -> Result<Option<Text>, NoMemory>
    ensures text { IfOk result (λ found. found ≡ text_of digits.now) }
    ensures wants { IsErr result → IsSome (text_of digits.now) }
{
    if digits.len() > 2 * LONGEST_TEXT {
        return Ok(None);
    }
    let mut room = [0; LONGEST_TEXT];
    let octets = &mut room[..digits.len() / 2];
    if !fill(digits, octets) {
        return Ok(None);
    }
    text_from(alloc, octets)
}

/// The same octets, in memory of their own.
pub fn copied(alloc: Global, octets: &[u8]) -> Result<Items<u8>, NoMemory>
    ensures same { IfOk result (λ items. items ≡ octets.now) }
{
    let mut bytes = Vec::new(alloc);
    bytes.extend_from_slice(octets)?;
    Ok(Items::of(bytes))
}

// A datagram of these octets.
fn datagram_from(alloc: Global, octets: &[u8]) -> Result<Option<Items<u8>>, NoMemory>
    requires size { length octets.now ≤ most_datagram_octets }
    ensures datagram { IfOk result (λ found. found ≡ datagram_from octets.now) }
    ensures wants { IsErr result → IsSome (datagram_from octets.now) }
{
    if octets.is_empty() {
        return Ok(None);
    }
    Ok(Some(copied(alloc, octets)?))
}

/// The datagram whose octets pairs of hexadecimal digits spell. It has 1 to 1,497 octets.
#[tactic(auto, using(crate::proofs::Octets::long_datagram))]
pub fn read_datagram(alloc: Global, digits: &[u8]) -> Result<Option<Items<u8>>, NoMemory>
    ensures datagram { IfOk result (λ found. found ≡ datagram_of digits.now) }
    ensures wants { IsErr result → IsSome (datagram_of digits.now) }
{
    if digits.len() > 2 * MOST_DATAGRAM_OCTETS {
        return Ok(None);
    }
    let mut room = [0; MOST_DATAGRAM_OCTETS];
    let octets = &mut room[..digits.len() / 2];
    if !fill(digits, octets) {
        return Ok(None);
    }
    datagram_from(alloc, octets)
}

// A name and the colon behind it, and what follows.
fn split_name(text: &[u8]) -> (&[u8], &[u8])
    ensures name { result.0.now ≡ name_of text.now }
    ensures others { result.1.now ≡ behind colon text.now }
{
    match place_of(b':', text) {
        Some(place) => text.split_at(place + 1),
        None => (text, &[]),
    }
}

// The value that is spelled behind a name.
fn value_named(alloc: Global, name: &[u8], digits: &[u8]) -> Result<Option<Value>, NoMemory>
    ensures value { IfOk result (λ found. found ≡ value_named name.now digits.now) }
    ensures wants { IsErr result → IsSomeAnd (value_named name.now digits.now) IsText }
{
    if name == b"signed:".as_slice() {
        return Ok(signed(digits).map(Value::Signed));
    }
    if name == b"unsigned:".as_slice() {
        let number = unsigned(digits, u64::from(u32::MAX));
        return Ok(number.map(|number| Value::Unsigned(number as u32)));
    }
    if name == b"bits:".as_slice() {
        return Ok(read_bits(digits).map(Value::Bits));
    }
    if name == b"text:".as_slice() {
        return Ok(text(alloc, digits)?.map(Value::Text));
    }
    Ok(None)
}

/// The value that a text names: `signed:N`, `unsigned:N`, `active`, `inactive`, `bits:0101` or `text:HEX`.
pub fn read_value(alloc: Global, text: &[u8]) -> Result<Option<Value>, NoMemory>
    ensures value { IfOk result (λ found. found ≡ value_of text.now) }
    ensures wants { IsErr result → IsSomeAnd (value_of text.now) IsText }
{
    if text == b"active".as_slice() {
        return Ok(Some(Value::Enumerated(1)));
    }
    if text == b"inactive".as_slice() {
        return Ok(Some(Value::Enumerated(0)));
    }
    let (name, digits) = split_name(text);
    value_named(alloc, name, digits)
}
