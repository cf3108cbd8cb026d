//! Unsigned and Enumerated numbers (20.2.4, 20.2.11).

ghost use Rattle.std.specs.Prelude.{◌≡◌, ◌↔◌, ℕ, ◌<◌, ◌≤◌, ◌++◌, length, drop, IfOk, OnOk, OnErr, None};
ghost use Rattle.bac_values.specs.ApplicationTags.{unsigned_tag};
ghost use Rattle.bac_tags.specs.Places.{IsSpelledAt};
ghost use Rattle.bac_tags.specs.Elements.{EndsInElement, HasOtherTag, HasOtherLength};
ghost use Rattle.bac_tags.specs.Contents.{SpellsUnsigned, SpellsEnumerated};
ghost use Rattle.bac_tags.specs.ReadingSteps.{unsigned_of, unsigned_at};
ghost use Rattle.bac_tags.specs.Writing.{unsigned_size, written_unsigned, written_enumerated};

use crate::TagFault;
use crate::element::{ENUMERATED, UNSIGNED, content_at, write_element};
use bac_values::NoMemory;
use byteorder::{BigEndian, ByteOrder};

/// The number of one to four octets, the high one first.
pub(crate) fn unsigned_of(content: &[u8]) -> u32
    requires some { 1 ≤ length content.now }
    requires short { length content.now ≤ 4 }
    ensures { result ≡ unsigned_of content.now }
{
    BigEndian::read_uint(content, content.len()) as u32
}

/// The Unsigned at a place, and the place after it.
#[tactic(auto, unfolding(crate::specs::ReadingSteps::unsigned_at))]
fn unsigned_at(input: &[u8], at: usize, context: Option<u8>) -> Result<(u32, usize), TagFault>
    requires { at ≤ length input.now }
    ensures exact { result ≡ unsigned_at input.now at context }
    ensures within { IfOk result (λ x. (at < x.1) × (x.1 ≤ length input.now)) }
{
    let (content, after) = content_at(input, at, UNSIGNED, context, 1, 4)?;
    Ok((unsigned_of(content), after))
}

/// Reads an Unsigned of one to four octets at a place (20.2.4), and answers it with the place after it. With
/// `Some(n)` it has the number `n` in a context, and an Enumerated (20.2.11) is read alike. No memory is taken.
pub fn read_unsigned(input: &[u8], at: usize, context: Option<u8>) -> Result<(u32, usize), TagFault>
    requires { at ≤ length input.now }
    ensures found { IfOk result (λ x. IsSpelledAt (SpellsUnsigned context) input.now at x.0 x.1) }
    ensures only { (number end : ℕ) → IsSpelledAt (SpellsUnsigned context) input.now at number end → result ≡ Ok (number, end) }

    ensures truncated { (result ≡ Err (TagFault.Truncated (length input.now))) ↔ EndsInElement unsigned_tag context 1 4 (drop at input.now) }
    ensures wrong_tag { (result ≡ Err (TagFault.WrongTag at)) ↔ HasOtherTag unsigned_tag context (drop at input.now) }
    ensures bad_length { (result ≡ Err (TagFault.BadLength at)) ↔ HasOtherLength unsigned_tag context 1 4 (drop at input.now) }

    ensures exact { result ≡ unsigned_at input.now at context }
    ensures within { IfOk result (λ x. (at < x.1) × (x.1 ≤ length input.now)) }
{
    unsigned_at(input, at, context)
}

/// How many octets the number needs, at least one.
pub fn unsigned_size(number: u32) -> usize
    ensures size { result ≡ unsigned_size number }
    ensures some { 1 ≤ result }
    ensures most { result ≤ 4 }
{
    match number {
        0..=0xff => 1,
        0x100..=0xffff => 2,
        0x1_0000..=0xff_ffff => 3,
        _ => 4,
    }
}

/// Appends an Unsigned in the fewest octets; with `Some(n)` it has the number `n` in a context.
pub fn write_unsigned(out: &mut Vec<u8>, context: Option<u8>, number: u32) -> Result<(), NoMemory>
    ensures written { OnOk result (out.new.items ≡ out.old.items ++ written_unsigned context number) }
    ensures same { OnErr result (out.new.items ≡ out.old.items) }
    // What is written spells the number, so it is read again.
    ensures spelled { SpellsUnsigned context (written_unsigned context number) number }
{
    let octets = number.to_be_bytes();
    let unused = 4 - unsigned_size(number);
    write_element(out, UNSIGNED, context, &[], &octets[unused..])
}

/// Appends an application's Enumerated in the fewest octets.
pub fn write_enumerated(out: &mut Vec<u8>, number: u32) -> Result<(), NoMemory>
    ensures written { OnOk result (out.new.items ≡ out.old.items ++ written_enumerated None number) }
    ensures same { OnErr result (out.new.items ≡ out.old.items) }
    // What is written spells the number, so it is read again.
    ensures spelled { SpellsEnumerated None (written_enumerated None number) number }
{
    let octets = number.to_be_bytes();
    let unused = 4 - unsigned_size(number);
    write_element(out, ENUMERATED, None, &[], &octets[unused..])
}
