//! Signed numbers (20.2.5).

ghost use Rattle.std.specs.Prelude.{◌≡◌, ◌↔◌, ℕ, ℤ, ◌<◌, ◌≤◌, ◌++◌, length, drop, IfOk, OnOk, OnErr};
ghost use Rattle.bac_values.specs.ApplicationTags.{signed_tag};
ghost use Rattle.bac_tags.specs.Places.{IsSpelledAt};
ghost use Rattle.bac_tags.specs.Elements.{EndsInElement, HasOtherTag, HasOtherLength};
ghost use Rattle.bac_tags.specs.Contents.{SpellsSigned};
ghost use Rattle.bac_tags.specs.ReadingSteps.{signed_of, signed_at};
ghost use Rattle.bac_tags.specs.Writing.{signed_size, written_signed};

use crate::TagFault;
use crate::element::{SIGNED, content_at, write_element};
use bac_values::NoMemory;
use byteorder::{BigEndian, ByteOrder};

/// The number of one to four octets, the high one first, in two's complement.
pub(crate) fn signed_of(content: &[u8]) -> i32
    requires some { 1 ≤ length content.now }
    requires short { length content.now ≤ 4 }
    ensures { result ≡ signed_of content.now }
{
    BigEndian::read_int(content, content.len()) as i32
}

/// The Signed at a place, and the place after it.
#[tactic(auto, unfolding(crate::specs::ReadingSteps::signed_at))]
fn signed_at(input: &[u8], at: usize, context: Option<u8>) -> Result<(i32, usize), TagFault>
    requires { at ≤ length input.now }
    ensures exact { result ≡ signed_at input.now at context }
    ensures within { IfOk result (λ x. (at < x.1) × (x.1 ≤ length input.now)) }
{
    let (content, after) = content_at(input, at, SIGNED, context, 1, 4)?;
    Ok((signed_of(content), after))
}

/// Reads a Signed of one to four octets at a place (20.2.5), and answers it with the place after it. With
/// `Some(n)` it has the number `n` in a context. No memory is taken.
pub fn read_signed(input: &[u8], at: usize, context: Option<u8>) -> Result<(i32, usize), TagFault>
    requires { at ≤ length input.now }
    ensures found { IfOk result (λ x. IsSpelledAt (SpellsSigned context) input.now at x.0 x.1) }
    ensures only { (number : ℤ) (end : ℕ) → IsSpelledAt (SpellsSigned context) input.now at number end → result ≡ Ok (number, end) }

    ensures truncated { (result ≡ Err (TagFault.Truncated (length input.now))) ↔ EndsInElement signed_tag context 1 4 (drop at input.now) }
    ensures wrong_tag { (result ≡ Err (TagFault.WrongTag at)) ↔ HasOtherTag signed_tag context (drop at input.now) }
    ensures bad_length { (result ≡ Err (TagFault.BadLength at)) ↔ HasOtherLength signed_tag context 1 4 (drop at input.now) }

    ensures exact { result ≡ signed_at input.now at context }
    ensures within { IfOk result (λ x. (at < x.1) × (x.1 ≤ length input.now)) }
{
    signed_at(input, at, context)
}

/// How many octets the number needs in two's complement, at least one.
fn signed_size(number: i32) -> usize
    ensures size { result ≡ signed_size number }
    ensures some { 1 ≤ result }
    ensures most { result ≤ 4 }
{
    match number {
        -0x80..=0x7f => 1,
        -0x8000..=0x7fff => 2,
        -0x80_0000..=0x7f_ffff => 3,
        _ => 4,
    }
}

/// Appends a Signed in the fewest octets; with `Some(n)` it has the number `n` in a context.
pub fn write_signed(out: &mut Vec<u8>, context: Option<u8>, number: i32) -> Result<(), NoMemory>
    ensures written { OnOk result (out.new.items ≡ out.old.items ++ written_signed context number) }
    ensures same { OnErr result (out.new.items ≡ out.old.items) }
    // What is written spells the number, so it is read again.
    ensures spelled { SpellsSigned context (written_signed context number) number }
{
    let octets = number.to_be_bytes();
    let unused = 4 - signed_size(number);
    write_element(out, SIGNED, context, &[], &octets[unused..])
}
