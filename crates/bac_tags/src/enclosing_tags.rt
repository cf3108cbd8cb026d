//! Tags that open and close, and elements of plain octets.

ghost use Rattle.std.specs.Prelude.{◌≡◌, ◌↔◌, ℕ, ◌<◌, ◌≤◌, ◌++◌, Some, length, drop, IfOk, OnOk, OnErr};
ghost use Rattle.bac_tags.specs.Places.{IsSpelledAt};
ghost use Rattle.bac_tags.specs.Tags.{EndsInTag};
ghost use Rattle.bac_tags.specs.ReadingSteps.{Gives, content_at};
ghost use Rattle.bac_tags.specs.Writing.{written_tag};
ghost use Rattle.bac_tags.specs.EnclosingTags.{in_context, opening, closing, SpellsOnly, IsOtherTag};
ghost use Rattle.bac_tags.specs.EnclosingSteps.{opening_at, closing_at};

use crate::element::{NULL, content_at};
use crate::{Shape, Tag, TagFault, read_tag, write_tag};
use bac_values::NoMemory;

/// The place after an opening tag with that number.
#[tactic(auto, unfolding(crate::specs::EnclosingSteps::opening_at))]
fn opening_at(input: &[u8], at: usize, number: u8) -> Result<usize, TagFault>
    requires { at ≤ length input.now }
    ensures exact { result ≡ opening_at input.now at number }
    ensures within { IfOk result (λ end. (at < end) × (end ≤ length input.now)) }
{
    let (tag, after) = read_tag(input, at)?;
    match tag.shape {
        Shape::Opening if tag.context && tag.number == number => Ok(after),
        _ => Err(TagFault::WrongTag { at }),
    }
}

/// Reads an opening tag with that number in a context (20.2.1.3.2), and answers the place after it.
pub fn read_opening(input: &[u8], at: usize, number: u8) -> Result<usize, TagFault>
    requires { at ≤ length input.now }
    ensures found { IfOk result (λ end. IsSpelledAt (SpellsOnly (opening number)) input.now at tt end) }
    ensures only { (end : ℕ) → IsSpelledAt (SpellsOnly (opening number)) input.now at tt end → result ≡ Ok end }
    ensures truncated { (result ≡ Err (TagFault.Truncated (length input.now))) ↔ EndsInTag (drop at input.now) }
    ensures wrong_tag { (result ≡ Err (TagFault.WrongTag at)) ↔ IsOtherTag (opening number) (drop at input.now) }

    ensures exact { result ≡ opening_at input.now at number }
    ensures within { IfOk result (λ end. (at < end) × (end ≤ length input.now)) }
{
    opening_at(input, at, number)
}

/// The place after a closing tag with that number.
#[tactic(auto, unfolding(crate::specs::EnclosingSteps::closing_at))]
fn closing_at(input: &[u8], at: usize, number: u8) -> Result<usize, TagFault>
    requires { at ≤ length input.now }
    ensures exact { result ≡ closing_at input.now at number }
    ensures within { IfOk result (λ end. (at < end) × (end ≤ length input.now)) }
{
    let (tag, after) = read_tag(input, at)?;
    match tag.shape {
        Shape::Closing if tag.context && tag.number == number => Ok(after),
        _ => Err(TagFault::WrongTag { at }),
    }
}

/// Reads a closing tag with that number in a context (20.2.1.3.2), and answers the place after it.
pub fn read_closing(input: &[u8], at: usize, number: u8) -> Result<usize, TagFault>
    requires { at ≤ length input.now }
    ensures found { IfOk result (λ end. IsSpelledAt (SpellsOnly (closing number)) input.now at tt end) }
    ensures only { (end : ℕ) → IsSpelledAt (SpellsOnly (closing number)) input.now at tt end → result ≡ Ok end }
    ensures truncated { (result ≡ Err (TagFault.Truncated (length input.now))) ↔ EndsInTag (drop at input.now) }
    ensures wrong_tag { (result ≡ Err (TagFault.WrongTag at)) ↔ IsOtherTag (closing number) (drop at input.now) }

    ensures exact { result ≡ closing_at input.now at number }
    ensures within { IfOk result (λ end. (at < end) × (end ≤ length input.now)) }
{
    closing_at(input, at, number)
}

/// The content of a primitive element with that number in a context, which has from `least` to `most` octets, and the
/// place after it. No memory is taken.
pub fn read_octets(
    input: &[u8],
    at: usize,
    number: u8,
    least: u32,
    most: u32,
) -> Result<(&[u8], usize), TagFault>
    requires { at ≤ length input.now }
    ensures exact { Gives (λ x. (x.0.now, x.1)) result (content_at input.now at 0 (Some number) least most) }
    ensures within { IfOk result (λ x. (at < x.1) × (x.1 ≤ length input.now)) }
    ensures long { IfOk result (λ x. (least ≤ length x.0.now) × (length x.0.now ≤ most)) }
{
    content_at(input, at, NULL, Some(number), least, most)
}

/// A tag with that number in a context.
fn in_context(number: u8, shape: Shape) -> Tag
    ensures { result ≡ in_context number shape }
{
    Tag {
        number,
        context: true,
        shape,
    }
}

/// Appends the tag that opens what stands between the tags of a number in a context (20.2.1.3.2).
pub fn write_opening(out: &mut Vec<u8>, number: u8) -> Result<(), NoMemory>
    ensures written { OnOk result (out.new.items ≡ out.old.items ++ written_tag (opening number)) }
    ensures same { OnErr result (out.new.items ≡ out.old.items) }
{
    write_tag(out, in_context(number, Shape::Opening))
}

/// Appends the tag that closes what stands between the tags of a number in a context (20.2.1.3.2).
pub fn write_closing(out: &mut Vec<u8>, number: u8) -> Result<(), NoMemory>
    ensures written { OnOk result (out.new.items ≡ out.old.items ++ written_tag (closing number)) }
    ensures same { OnErr result (out.new.items ≡ out.old.items) }
{
    write_tag(out, in_context(number, Shape::Closing))
}
