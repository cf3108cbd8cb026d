//! Tags (20.2.1).

ghost use Rattle.std.specs.Prelude.{◌≡◌, ◌↔◌, ℕ, ◌<◌, ◌≤◌, ◌++◌, length, drop, IfErr, IfOk, OnOk, OnErr};
ghost use Rattle.bac_tags.specs.Places.{IsSpelledAt};
ghost use Rattle.bac_tags.specs.Tags.{SpellsTag, EndsInTag};
ghost use Rattle.bac_tags.specs.ReadingSteps.{number_at, extended_at, shape_at, tag_at};
ghost use Rattle.bac_tags.specs.Writing.{written_low, written_tag};

use crate::TagFault;
use crate::octets::{octet_at, octets_at};
use bac_values::NoMemory;
use byteorder::{BigEndian, ByteOrder};

/// What stands before an element, and says what it is (20.2.1).
#[derive(Clone, Copy, Debug, PartialEq, Eq)]
pub struct Tag {
    /// The number: of an application's type, or in the context of a service.
    pub number: u8,
    /// Whether the number is one in a context.
    pub context: bool,
    /// What follows the tag.
    pub shape: Shape,
}

/// What follows a tag.
#[derive(Clone, Copy, Debug, PartialEq, Eq)]
pub enum Shape {
    /// A content that is no list of elements.
    Primitive {
        /// How many octets the content has; of an application's Boolean the value itself.
        length: u32,
    },
    /// Elements, up to the closing tag.
    Opening,
    /// The end of the elements of an opening tag.
    Closing,
}

/// The tag's number, and the place after it.
#[tactic(auto, unfolding(crate::specs::ReadingSteps::number_at))]
fn number_at(input: &[u8], place: usize, high: u8) -> Result<(u8, usize), TagFault>
    requires { place ≤ length input.now }
    ensures exact { result ≡ number_at input.now place high }
    ensures within { IfOk result (λ x. (place ≤ x.1) × (x.1 ≤ length input.now)) }
{
    if high == 15 {
        let number = octet_at(input, place)?;
        return Ok((number, place + 1));
    }
    Ok((high, place))
}

/// A length of its own octets, and the place after them.
#[tactic(auto, unfolding(crate::specs::ReadingSteps::extended_at))]
fn extended_at(input: &[u8], place: usize) -> Result<(u32, usize), TagFault>
    ensures exact { result ≡ extended_at input.now place }
    ensures within { IfOk result (λ x. (place < x.1) × (x.1 ≤ length input.now)) }
{
    let first = octet_at(input, place)?;
    match first {
        254 => {
            let octets = octets_at(input, place + 1, 2)?;
            Ok((u32::from(BigEndian::read_u16(octets)), place + 3))
        }
        255 => {
            let octets = octets_at(input, place + 1, 4)?;
            Ok((BigEndian::read_u32(octets), place + 5))
        }
        _ => Ok((u32::from(first), place + 1)),
    }
}

/// What follows the tag, and the place after its length.
#[tactic(auto, unfolding(crate::specs::ReadingSteps::shape_at))]
fn shape_at(input: &[u8], place: usize, low: u8) -> Result<(Shape, usize), TagFault>
    requires { place ≤ length input.now }
    ensures exact { result ≡ shape_at input.now place low }
    ensures within { IfOk result (λ x. (place ≤ x.1) × (x.1 ≤ length input.now)) }
{
    match low {
        5 => {
            let (length, after) = extended_at(input, place)?;
            Ok((Shape::Primitive { length }, after))
        }
        6 => Ok((Shape::Opening, place)),
        7 => Ok((Shape::Closing, place)),
        _ => Ok((
            Shape::Primitive {
                length: u32::from(low),
            },
            place,
        )),
    }
}

/// The tag at a place, and the place after it.
#[tactic(auto, unfolding(crate::specs::ReadingSteps::tag_at))]
fn tag_at(input: &[u8], at: usize) -> Result<(Tag, usize), TagFault>
    ensures exact { result ≡ tag_at input.now at }
    ensures within { IfOk result (λ x. (at < x.1) × (x.1 ≤ length input.now)) }
{
    let first = octet_at(input, at)?;
    let (number, after_number) = number_at(input, at + 1, first / 16)?;
    let (shape, after) = shape_at(input, after_number, first % 8)?;
    let context = first / 8 % 2 == 1;
    Ok((
        Tag {
            number,
            context,
            shape,
        },
        after,
    ))
}

/// Reads the tag at a place, in any spelling, and answers it with the place after it. Three bits open and close
/// elements in either class. The only fault is `Truncated`, and no memory is taken.
pub fn read_tag(input: &[u8], at: usize) -> Result<(Tag, usize), TagFault>
    requires { at ≤ length input.now }
    // What is read is spelled so.
    ensures found { IfOk result (λ x. IsSpelledAt SpellsTag input.now at x.0 x.1) }
    // What is spelled so is read, whatever follows.
    ensures only { (tag : Tag) (end : ℕ) → IsSpelledAt SpellsTag input.now at tag end → result ≡ Ok (tag, end) }
    // The only fault, and exactly where it comes.
    ensures truncated { (result ≡ Err (TagFault.Truncated (length input.now))) ↔ EndsInTag (drop at input.now) }
    ensures only_truncated { IfErr result (λ fault. fault ≡ TagFault.Truncated (length input.now)) }

    ensures exact { result ≡ tag_at input.now at }
    ensures within { IfOk result (λ x. (at < x.1) × (x.1 ≤ length input.now)) }
{
    tag_at(input, at)
}

/// Appends a tag in its shortest spelling.
#[tactic(auto, unfolding(crate::specs::Writing::written_tag))]
pub fn write_tag(out: &mut Vec<u8>, tag: Tag) -> Result<(), NoMemory>
    ensures written { OnOk result (out.new.items ≡ out.old.items ++ written_tag tag) }
    ensures same { OnErr result (out.new.items ≡ out.old.items) }
    // What is written spells the tag, so it is read again.
    ensures spelled { SpellsTag (written_tag tag) tag }
{
    out.reserve(7)?;
    let high = tag.number.min(15);
    let class = if tag.context { 8 } else { 0 };
    let low = low_of(tag.shape);
    out.extend_from_slice(&[16 * high + class + low])?;
    if high == 15 {
        out.extend_from_slice(&[tag.number])?;
    }
    if let Shape::Primitive { length } = tag.shape {
        if length < 5 {
            return Ok(());
        }
        if length < 254 {
            out.extend_from_slice(&[length as u8])?;
        } else if length < 65_536 {
            out.extend_from_slice(&[254])?;
            out.extend_from_slice(&(length as u16).to_be_bytes())?;
        } else {
            out.extend_from_slice(&[255])?;
            out.extend_from_slice(&length.to_be_bytes())?;
        }
    }
    Ok(())
}

/// The low three bits of the initial octet.
fn low_of(shape: Shape) -> u8
    ensures low { result ≡ written_low shape }
    ensures small { result < 8 }
{
    match shape {
        Shape::Primitive { length } => length.min(5) as u8,
        Shape::Opening => 6,
        Shape::Closing => 7,
    }
}
