//! One application value of any type.

ghost use Rattle.std.specs.Prelude.{◌≡◌, ◌↔◌, ◌⊎◌, ℕ, ◌<◌, ◌≤◌, List, IsTrue, ◌++◌, length, drop, IfOk, OnOk, OnErr};
ghost use Rattle.bac_values.specs.ApplicationTags.{character_string_tag};
ghost use Rattle.bac_values.specs.declared.value.Value.{Value};
ghost use Rattle.bac_tags.specs.Places.{IsSpelledAt};
ghost use Rattle.bac_tags.specs.Tags.{EndsInTag};
ghost use Rattle.bac_tags.specs.Values.{has_length, SpellsValue, EndsInValue, HasNoValueTag, HasNoLength, HasNoString, IsWritable, SpellsWritten};
ghost use Rattle.bac_tags.specs.ReadingSteps.{application_at, characters_in, text_in, string_in, value_in, value_at, IsText, GivesValue};
ghost use Rattle.bac_tags.specs.Writing.{written_value};

use crate::bits::bits_of;
use crate::element::{
    BIT_STRING, BOOLEAN, CHARACTER_STRING, DATE, DOUBLE, ENUMERATED, NULL, OBJECT_IDENTIFIER, REAL,
    SIGNED, TIME, UNSIGNED, write_element,
};
use crate::object::identifier_of;
use crate::octets::octets_at;
use crate::signed::signed_of;
use crate::unsigned::{unsigned_of, write_enumerated};
use crate::{
    Shape, TagFault, read_tag, write_bits, write_bool, write_object, write_signed, write_stamp,
    write_unsigned,
};
use bac_values::{Foreign, MOST_TEXT_OCTETS, NoMemory, Text, Value};
use std::alloc::Global;

/// The type and the length in the tag of an application's primitive element, and the place after the tag.
#[tactic(auto, unfolding(crate::specs::ReadingSteps::application_at))]
fn application_at(input: &[u8], at: usize) -> Result<(u8, u32, usize), TagFault>
    requires { at ≤ length input.now }
    ensures exact { result ≡ application_at input.now at }
    ensures within { IfOk result (λ x. (at < x.2) × (x.2 ≤ length input.now)) }
{
    let (tag, after) = read_tag(input, at)?;
    let Shape::Primitive { length } = tag.shape else {
        return Err(TagFault::WrongTag { at });
    };
    if tag.context {
        return Err(TagFault::WrongTag { at });
    }
    Ok((tag.number, length, after))
}

/// Whether the type has the length.
fn has_length(kind: u8, length: u32) -> bool
    ensures { result ≡ has_length kind length }
{
    match kind {
        NULL => length == 0,
        BOOLEAN => length <= 1,
        REAL | DATE | TIME | OBJECT_IDENTIFIER => length == 4,
        DOUBLE => length == 8,
        UNSIGNED | SIGNED | CHARACTER_STRING | BIT_STRING | ENUMERATED => length >= 1,
        _ => true,
    }
}

/// The value of a CharacterString's octets in UTF-8.
fn characters_in(alloc: Global, octets: &[u8]) -> Result<Value, NoMemory>
    ensures value { IfOk result (λ value. value ≡ characters_in octets.now) }
    ensures no_memory { OnErr result (IsText (characters_in octets.now)) }
{
    let tag = CHARACTER_STRING;
    if octets.len() > MOST_TEXT_OCTETS {
        let why = Foreign::TooLong;
        return Ok(Value::Opaque { tag, why });
    }
    let Ok(text) = str::from_utf8(octets) else {
        let why = Foreign::NotUtf8;
        return Ok(Value::Opaque { tag, why });
    };
    match Text::new(alloc, text) {
        Ok(text) => Ok(Value::Text(text)),
        Err(_) => Err(NoMemory),
    }
}

/// The value of a CharacterString's content, which begins with the number of its character set.
fn text_in(alloc: Global, content: &[u8]) -> Result<Value, NoMemory>
    ensures value { IfOk result (λ value. value ≡ text_in content.now) }
    ensures no_memory { OnErr result (IsText (text_in content.now)) }
{
    match content {
        [0, octets @ ..] => characters_in(alloc, octets),
        _ => Ok(Value::Opaque {
            tag: CHARACTER_STRING,
            why: Foreign::CharacterSet,
        }),
    }
}

/// The string of a BitString's content, if it is one that is taken; None where the content isn't of its form.
fn string_in(content: &[u8]) -> Option<Value>
    ensures { result ≡ string_in content.now }
{
    let [unused, octets @ ..] = content else {
        return None;
    };
    if octets.len() <= 8 {
        return bits_of(content).map(Value::Bits);
    }
    if *unused > 7 {
        return None;
    }
    Some(Value::Opaque {
        tag: BIT_STRING,
        why: Foreign::OutOfRange,
    })
}

/// The value of a content of that type, whose length the type has. None where the content isn't of its form.
#[tactic(auto, unfolding(crate::specs::ReadingSteps::value_in))]
fn value_in(alloc: Global, kind: u8, content: &[u8]) -> Result<Option<Value>, NoMemory>
    requires { IsTrue (has_length kind (length content.now)) }
    ensures value { IfOk result (λ value. value ≡ value_in kind content.now) }
    ensures no_memory { OnErr result (IsText (text_in content.now) × (kind ≡ character_string_tag)) }
{
    let short = content.len() <= 4;
    let value = match kind {
        NULL => Value::Null,
        UNSIGNED if short => Value::Unsigned(unsigned_of(content)),
        SIGNED if short => Value::Signed(signed_of(content)),
        ENUMERATED if short => Value::Enumerated(unsigned_of(content)),
        UNSIGNED | SIGNED | ENUMERATED => Value::Opaque {
            tag: kind,
            why: Foreign::OutOfRange,
        },
        CHARACTER_STRING => text_in(alloc, content)?,
        BIT_STRING => return Ok(string_in(content)),
        OBJECT_IDENTIFIER => Value::Object(identifier_of(content)),
        _ => Value::Opaque {
            tag: kind,
            why: Foreign::OtherType,
        },
    };
    Ok(Some(value))
}

/// The value at a place, and the place after it.
#[tactic(auto, unfolding(crate::specs::ReadingSteps::value_at))]
fn value_at(alloc: Global, input: &[u8], at: usize) -> Result<(Value, usize), TagFault>
    requires { at ≤ length input.now }
    ensures exact { GivesValue result (value_at input.now at) }
    ensures within { IfOk result (λ x. (at < x.1) × (x.1 ≤ length input.now)) }
{
    let (kind, length, start) = application_at(input, at)?;
    if !has_length(kind, length) {
        return Err(TagFault::BadLength { at });
    }
    if kind == BOOLEAN {
        return Ok((Value::Bool(length == 1), start));
    }
    let content = octets_at(input, start, length as usize)?;
    match value_in(alloc, kind, content) {
        Ok(Some(value)) => Ok((value, start + length as usize)),
        Ok(None) => Err(TagFault::BadLength { at }),
        Err(NoMemory) => Err(TagFault::NoMemory),
    }
}

/// Reads one application value at a place, and answers it with the place after it. What isn't taken is `Opaque`,
/// with the number of its type and the reason. A text takes memory, and nothing else does.
pub fn read_value(alloc: Global, input: &[u8], at: usize) -> Result<(Value, usize), TagFault>
    requires { at ≤ length input.now }
    ensures found { IfOk result (λ x. IsSpelledAt SpellsValue input.now at x.0 x.1) }
    ensures only { (value : Value) (end : ℕ) → IsSpelledAt SpellsValue input.now at value end → GivesValue result (Ok (value, end)) }

    ensures truncated { (result ≡ Err (TagFault.Truncated (length input.now))) ↔ (EndsInTag (drop at input.now) ⊎ EndsInValue (drop at input.now)) }
    ensures wrong_tag { (result ≡ Err (TagFault.WrongTag at)) ↔ HasNoValueTag (drop at input.now) }
    ensures bad_length { (result ≡ Err (TagFault.BadLength at)) ↔ (HasNoLength (drop at input.now) ⊎ HasNoString (drop at input.now)) }
    // Memory is refused only where a text stands.
    ensures no_memory { result ≡ Err TagFault.NoMemory → (text : List ℕ) × (end : ℕ) × IsSpelledAt SpellsValue input.now at (Value.Text text) end }

    ensures exact { GivesValue result (value_at input.now at) }
    ensures within { IfOk result (λ x. (at < x.1) × (x.1 ≤ length input.now)) }
{
    value_at(alloc, input, at)
}

/// Appends a value that isn't `Opaque`: a date with a time as two elements, every other value as one.
pub fn write_value(out: &mut Vec<u8>, value: &Value) -> Result<(), NoMemory>
    requires { IsWritable value.now }
    ensures written { OnOk result (out.new.items ≡ out.old.items ++ written_value value.now) }
    ensures same { OnErr result (out.new.items ≡ out.old.items) }
    // What is written spells the value, so it is read again.
    ensures spelled { SpellsWritten (written_value value.now) value.now }
{
    match value {
        Value::Null => write_element(out, NULL, None, &[], &[]),
        Value::Bool(value) => write_bool(out, None, *value),
        Value::Unsigned(number) => write_unsigned(out, None, *number),
        Value::Signed(number) => write_signed(out, None, *number),
        Value::Text(text) => write_element(out, CHARACTER_STRING, None, &[0], text.octets()),
        Value::Bits(bits) => write_bits(out, None, *bits),
        Value::Enumerated(number) => write_enumerated(out, *number),
        Value::Object(object) => write_object(out, None, *object),
        Value::DateTime(stamp) => write_stamp(out, None, *stamp),
        Value::Opaque { .. } => unreachable!(),
    }
}
