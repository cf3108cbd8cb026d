//! What all elements share: the types of an application, and whether a tag has a number in a context.

ghost use Rattle.std.specs.Prelude.{◌≡◌, ◌+◌, ◌<◌, ◌≤◌, ◌^◌, ◌++◌, length, IfOk, OnOk, OnErr};
ghost use Rattle.bac_tags.specs.Elements.{element_tag};
ghost use Rattle.bac_tags.specs.ReadingSteps.{Gives, header_at, content_at};
ghost use Rattle.bac_tags.specs.Writing.{written_element};

use crate::octets::octets_at;
use crate::{Shape, Tag, TagFault, read_tag, write_tag};
use bac_values::{ApplicationTag, NoMemory};

/// The numbers of the types that an application's tag has (20.2.1.4).
pub(crate) const NULL: u8 = ApplicationTag::NULL.0;

pub(crate) const BOOLEAN: u8 = ApplicationTag::BOOLEAN.0;

pub(crate) const UNSIGNED: u8 = ApplicationTag::UNSIGNED.0;

pub(crate) const SIGNED: u8 = ApplicationTag::SIGNED.0;

pub(crate) const REAL: u8 = ApplicationTag::REAL.0;

pub(crate) const DOUBLE: u8 = ApplicationTag::DOUBLE.0;

pub(crate) const OCTET_STRING: u8 = ApplicationTag::OCTET_STRING.0;

pub(crate) const CHARACTER_STRING: u8 = ApplicationTag::CHARACTER_STRING.0;

pub(crate) const BIT_STRING: u8 = ApplicationTag::BIT_STRING.0;

pub(crate) const ENUMERATED: u8 = ApplicationTag::ENUMERATED.0;

pub(crate) const DATE: u8 = ApplicationTag::DATE.0;

pub(crate) const TIME: u8 = ApplicationTag::TIME.0;

pub(crate) const OBJECT_IDENTIFIER: u8 = ApplicationTag::OBJECT_IDENTIFIER.0;

/// The length in the tag of a primitive element of that type, or with that number in a context, and the place
/// after the tag.
#[tactic(auto, unfolding(crate::specs::ReadingSteps::header_at))]
pub(crate) fn header_at(
    input: &[u8],
    at: usize,
    kind: u8,
    context: Option<u8>,
) -> Result<(u32, usize), TagFault>
    requires { at ≤ length input.now }
    ensures exact { result ≡ header_at input.now at kind context }
    ensures within { IfOk result (λ x. (at < x.1) × (x.1 ≤ length input.now)) }
{
    let (tag, after) = read_tag(input, at)?;
    let Shape::Primitive { length } = tag.shape else {
        return Err(TagFault::WrongTag { at });
    };
    if tag.number != context.unwrap_or(kind) || tag.context != context.is_some() {
        return Err(TagFault::WrongTag { at });
    }
    Ok((length, after))
}

/// The content of a primitive element of that type, or with that number in a context, whose length is from
/// `least` to `most`, and the place after it.
#[tactic(auto, unfolding(crate::specs::ReadingSteps::content_at))]
pub(crate) fn content_at(
    input: &[u8],
    at: usize,
    kind: u8,
    context: Option<u8>,
    least: u32,
    most: u32,
) -> Result<(&[u8], usize), TagFault>
    requires { at ≤ length input.now }
    ensures exact { Gives (λ x. (x.0.now, x.1)) result (content_at input.now at kind context least most) }
    ensures within { IfOk result (λ x. (at < x.1) × (x.1 ≤ length input.now)) }
    ensures long { IfOk result (λ x. (least ≤ length x.0.now) × (length x.0.now ≤ most)) }
    ensures behind { IfOk result (λ x. at + length x.0.now < x.1) }
{
    let (length, start) = header_at(input, at, kind, context)?;
    if length < least || length > most {
        return Err(TagFault::BadLength { at });
    }
    let content = octets_at(input, start, length as usize)?;
    Ok((content, start + length as usize))
}

/// The tag of an element of that type, or with that number in a context.
pub(crate) fn element_tag(kind: u8, context: Option<u8>, length: u32) -> Tag
    ensures { result ≡ element_tag kind context length }
{
    Tag {
        number: context.unwrap_or(kind),
        context: context.is_some(),
        shape: Shape::Primitive { length },
    }
}

/// Appends two parts, or neither.
fn append(out: &mut Vec<u8>, lead: &[u8], rest: &[u8]) -> Result<(), NoMemory>
    requires { length lead.now + length rest.now < 2 ^ 32 }
    ensures written { OnOk result (out.new.items ≡ out.old.items ++ (lead.now ++ rest.now)) }
    ensures same { OnErr result (out.new.items ≡ out.old.items) }
{
    out.reserve(lead.len() + rest.len())?;
    out.extend_from_slice(lead)?;
    out.extend_from_slice(rest)?;
    Ok(())
}

/// Appends an element of that type, or with that number in a context. Its content is given in two parts.
pub(crate) fn write_element(
    out: &mut Vec<u8>,
    kind: u8,
    context: Option<u8>,
    lead: &[u8],
    rest: &[u8],
) -> Result<(), NoMemory>
    requires { length lead.now + length rest.now < 2 ^ 32 }
    ensures written { OnOk result (out.new.items ≡ out.old.items ++ written_element kind context (lead.now ++ rest.now)) }
    ensures same { OnErr result (out.new.items ≡ out.old.items) }
{
    let before = out.len();
    let length = (lead.len() + rest.len()) as u32;
    write_tag(out, element_tag(kind, context, length))?;
    match append(out, lead, rest) {
        Ok(()) => Ok(()),
        Err(refused) => {
            out.truncate(before);
            Err(refused)
        }
    }
}
