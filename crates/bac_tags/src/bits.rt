//! BitStrings (20.2.10).

ghost use Rattle.std.specs.Prelude.{◌≡◌, ◌↔◌, ◌⊎◌, ℕ, ◌*◌, ◌<◌, ◌≤◌, ◌^◌, ◌++◌, None, Option, length, drop, IfOk, OnOk, OnErr};
ghost use Rattle.bac_values.specs.BitString.{BitsData};
ghost use Rattle.bac_values.specs.ApplicationTags.{bit_string_tag};
ghost use Rattle.bac_tags.specs.Places.{IsSpelledAt};
ghost use Rattle.bac_tags.specs.Elements.{EndsInElement, HasOtherTag, HasOtherLength, HasOtherForm, longest_content};
ghost use Rattle.bac_tags.specs.Contents.{IsAnyBits, IsBits, SpellsAnyBits, SpellsBits, mirrored};
ghost use Rattle.bac_tags.specs.ReadingSteps.{unsigned_of, string_of, bits_of, bits_at, any_bits_of, any_bits_at};
ghost use Rattle.bac_tags.specs.Writing.{written_bits};

use crate::TagFault;
use crate::element::{BIT_STRING, content_at, write_element};
use bac_values::{Bits, NoMemory};
use byteorder::{BigEndian, ByteOrder};

/// So many of the lowest bits, the last of them first.
pub(crate) fn mirrored(size: u8, number: u64) -> u64
    requires most { size ≤ 64 }
    requires fits { number < 2 ^ size }
    ensures value { result ≡ mirrored size number }
    ensures small { result < 2 ^ size }
{
    if size == 0 {
        return 0;
    }
    number.reverse_bits() >> (64 - size)
}

/// The number of at most eight octets, the high one first.
fn number_in(octets: &[u8]) -> u64
    requires { length octets.now ≤ 8 }
    ensures { result ≡ unsigned_of octets.now }
{
    if octets.is_empty() {
        return 0;
    }
    BigEndian::read_uint(octets, octets.len())
}

/// The string of at most eight octets with so many unused bits at the end.
fn string_of(unused: u8, octets: &[u8]) -> Bits
    requires few { unused ≤ 7 }
    requires there { unused ≤ 8 * length octets.now }
    requires short { length octets.now ≤ 8 }
    ensures { result ≡ string_of unused octets.now }
{
    let size = 8 * octets.len() as u8 - unused;
    let used = number_in(octets) >> unused;
    let Ok(bits) = Bits::new(size, mirrored(size, used)) else {
        unreachable!()
    };
    bits
}

/// The string of one to nine octets, the first of which is the number of unused bits. None where this number is
/// above 7, or above 0 with no octet after it.
pub(crate) fn bits_of(content: &[u8]) -> Option<Bits>
    requires some { 1 ≤ length content.now }
    requires short { length content.now ≤ 9 }
    ensures { result ≡ bits_of content.now }
{
    match content {
        [] => None,
        [unused, octets @ ..] => {
            if *unused > 7 || usize::from(*unused) > 8 * octets.len() {
                return None;
            }
            Some(string_of(*unused, octets))
        }
    }
}

/// The BitString at a place, and the place after it.
#[tactic(auto, unfolding(crate::specs::ReadingSteps::bits_at))]
fn bits_at(input: &[u8], at: usize, context: Option<u8>) -> Result<(Bits, usize), TagFault>
    requires { at ≤ length input.now }
    ensures exact { result ≡ bits_at input.now at context }
    ensures within { IfOk result (λ x. (at < x.1) × (x.1 ≤ length input.now)) }
{
    let (content, after) = content_at(input, at, BIT_STRING, context, 1, 9)?;
    match bits_of(content) {
        Some(bits) => Ok((bits, after)),
        None => Err(TagFault::BadLength { at }),
    }
}

/// Reads a BitString of at most 64 bits at a place (20.2.10), and answers it with the place after it. With
/// `Some(n)` it has the number `n` in a context. No memory is taken.
pub fn read_bits(input: &[u8], at: usize, context: Option<u8>) -> Result<(Bits, usize), TagFault>
    requires { at ≤ length input.now }
    ensures found { IfOk result (λ x. IsSpelledAt (SpellsBits context) input.now at x.0 x.1) }
    ensures only { (string : BitsData) (end : ℕ) → IsSpelledAt (SpellsBits context) input.now at string end → result ≡ Ok (string, end) }

    ensures truncated { (result ≡ Err (TagFault.Truncated (length input.now))) ↔ EndsInElement bit_string_tag context 1 9 (drop at input.now) }
    ensures wrong_tag { (result ≡ Err (TagFault.WrongTag at)) ↔ HasOtherTag bit_string_tag context (drop at input.now) }
    // The string would have more than 64 bits, or a number of unused bits that it can't have.
    ensures bad_length { (result ≡ Err (TagFault.BadLength at)) ↔ (HasOtherLength bit_string_tag context 1 9 (drop at input.now) ⊎ HasOtherForm bit_string_tag context 1 9 IsBits (drop at input.now)) }

    ensures exact { result ≡ bits_at input.now at context }
    ensures within { IfOk result (λ x. (at < x.1) × (x.1 ≤ length input.now)) }
{
    bits_at(input, at, context)
}

/// The string of a content of any length, which begins with the number of unused bits: no value where it has more than
/// `MOST_BITS` bits. None where the number of unused bits is above 7, or above 0 with no octet after it.
fn any_bits_of(content: &[u8]) -> Option<Option<Bits>>
    requires some { 1 ≤ length content.now }
    ensures { result ≡ any_bits_of content.now }
{
    if content.len() <= 9 {
        return bits_of(content).map(Some);
    }
    if content[0] > 7 {
        return None;
    }
    Some(None)
}

/// The BitString of any length at a place, and the place after it.
#[tactic(auto, unfolding(crate::specs::ReadingSteps::any_bits_at))]
fn any_bits_at(input: &[u8], at: usize) -> Result<(Option<Bits>, usize), TagFault>
    requires { at ≤ length input.now }
    ensures exact { result ≡ any_bits_at input.now at }
    ensures within { IfOk result (λ x. (at < x.1) × (x.1 ≤ length input.now)) }
{
    let (content, after) = content_at(input, at, BIT_STRING, None, 1, u32::MAX)?;
    match any_bits_of(content) {
        Some(bits) => Ok((bits, after)),
        None => Err(TagFault::BadLength { at }),
    }
}

/// Reads an application's BitString of any length at a place (20.2.10), and answers it with the place after it. One of
/// more than `MOST_BITS` bits has no value here, and is None. No memory is taken.
pub fn read_any_bits(input: &[u8], at: usize) -> Result<(Option<Bits>, usize), TagFault>
    requires { at ≤ length input.now }
    ensures found { IfOk result (λ x. IsSpelledAt SpellsAnyBits input.now at x.0 x.1) }
    ensures only { (string : Option BitsData) (end : ℕ) → IsSpelledAt SpellsAnyBits input.now at string end → result ≡ Ok (string, end) }

    ensures truncated { (result ≡ Err (TagFault.Truncated (length input.now))) ↔ EndsInElement bit_string_tag None 1 longest_content (drop at input.now) }
    ensures wrong_tag { (result ≡ Err (TagFault.WrongTag at)) ↔ HasOtherTag bit_string_tag None (drop at input.now) }
    // The string would have no octet, or a number of unused bits that it can't have.
    ensures bad_length { (result ≡ Err (TagFault.BadLength at)) ↔ (HasOtherLength bit_string_tag None 1 longest_content (drop at input.now) ⊎ HasOtherForm bit_string_tag None 1 longest_content IsAnyBits (drop at input.now)) }

    ensures exact { result ≡ any_bits_at input.now at }
    ensures within { IfOk result (λ x. (at < x.1) × (x.1 ≤ length input.now)) }
{
    any_bits_at(input, at)
}

/// Appends a BitString in the fewest octets; with `Some(n)` it has the number `n` in a context.
pub fn write_bits(out: &mut Vec<u8>, context: Option<u8>, bits: Bits) -> Result<(), NoMemory>
    ensures written { OnOk result (out.new.items ≡ out.old.items ++ written_bits context bits) }
    ensures same { OnErr result (out.new.items ≡ out.old.items) }
    // What is written spells the string, so it is read again.
    ensures spelled { SpellsBits context (written_bits context bits) bits }
{
    let size = bits.length();
    let count = (size + 7) / 8;
    let unused = 8 * count - size;
    let octets = (mirrored(size, bits.bits()) << unused).to_be_bytes();
    write_element(
        out,
        BIT_STRING,
        context,
        &[unused],
        &octets[8 - usize::from(count)..],
    )
}
