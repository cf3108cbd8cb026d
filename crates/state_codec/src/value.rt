//! Values in octets.

ghost use Rattle.state_codec.specs.ReadingSteps.{Gives, bits_at, content_at, text_at, text_of, value_at};

use crate::parts::{take_flag, take_octet, take_octets, take_u16, take_u32, take_u64};
use crate::reading::ReadFault;
use bac_values::{ApplicationTag, Bits, Text, Value};
use std::alloc::Global;

pub(crate) const BOOLEAN: u8 = ApplicationTag::BOOLEAN.0;

pub(crate) const UNSIGNED: u8 = ApplicationTag::UNSIGNED.0;

pub(crate) const SIGNED: u8 = ApplicationTag::SIGNED.0;

pub(crate) const CHARACTER_STRING: u8 = ApplicationTag::CHARACTER_STRING.0;

pub(crate) const BIT_STRING: u8 = ApplicationTag::BIT_STRING.0;

pub(crate) const ENUMERATED: u8 = ApplicationTag::ENUMERATED.0;

/// The text of octets, which are at most 256 of UTF-8.
fn text_of(alloc: Global, octets: &[u8]) -> Result<Text, ReadFault>
    ensures exact { Gives (λ text. text) result (text_of octets.now) }
{
    if octets.len() > 256 {
        return Err(ReadFault::NothingThere);
    }
    let Ok(text) = str::from_utf8(octets) else {
        return Err(ReadFault::NothingThere);
    };
    match Text::new(alloc, text) {
        Ok(text) => Ok(text),
        Err(_) => Err(ReadFault::NoMemory),
    }
}

/// Takes the text at the front.
#[tactic(auto, unfolding(crate::specs::ReadingSteps::text_at))]
fn take_text(alloc: Global, bytes: &mut &[u8]) -> Result<Text, ReadFault>
    ensures exact { Gives (λ x. (x, bytes.new.now)) result (text_at bytes.old.now) }
{
    let count = take_u16(bytes)?;
    let octets = take_octets(bytes, usize::from(count))?;
    text_of(alloc, octets)
}

/// Takes the string of bits at the front, of at most 64.
#[tactic(auto, unfolding(crate::specs::ReadingSteps::bits_at))]
fn take_bits(bytes: &mut &[u8]) -> Result<Bits, ReadFault>
    ensures exact { Gives (λ x. (x, bytes.new.now)) result (bits_at bytes.old.now) }
{
    let size = take_octet(bytes)?;
    let bits = take_u64(bytes)?;
    match Bits::new(size, bits) {
        Ok(string) => Ok(string),
        Err(_) => Err(ReadFault::NothingThere),
    }
}

/// Takes the content at the front of a value with an application tag.
#[tactic(auto, unfolding(crate::specs::ReadingSteps::content_at))]
fn take_content(alloc: Global, tag: u8, bytes: &mut &[u8]) -> Result<Value, ReadFault>
    ensures exact { Gives (λ x. (x, bytes.new.now)) result (content_at tag bytes.old.now) }
{
    match tag {
        BOOLEAN => Ok(Value::Bool(take_flag(bytes)?)),
        UNSIGNED => Ok(Value::Unsigned(take_u32(bytes)?)),
        SIGNED => Ok(Value::Signed(take_u32(bytes)?.cast_signed())),
        CHARACTER_STRING => Ok(Value::Text(take_text(alloc, bytes)?)),
        BIT_STRING => Ok(Value::Bits(take_bits(bytes)?)),
        ENUMERATED => Ok(Value::Enumerated(take_u32(bytes)?)),
        _ => Err(ReadFault::NothingThere),
    }
}

/// Takes the value at the front, behind the number of its application tag.
#[tactic(auto, unfolding(crate::specs::ReadingSteps::value_at))]
pub(crate) fn take_value(alloc: Global, bytes: &mut &[u8]) -> Result<Value, ReadFault>
    ensures exact { Gives (λ x. (x, bytes.new.now)) result (value_at bytes.old.now) }
{
    let tag = take_octet(bytes)?;
    take_content(alloc, tag, bytes)
}
