//! OctetStrings (20.2.8).

ghost use Rattle.std.specs.Prelude.{◌≡◌, ◌↔◌, ◌⊎◌, ℕ, ◌<◌, ◌≤◌, ◌^◌, ◌++◌, None, List, length, drop, slice_range, IfErr, IfOk, IsOkAnd, OnOk, OnErr};
ghost use Rattle.bac_values.specs.ApplicationTags.{octet_string_tag};
ghost use Rattle.bac_tags.specs.Places.{IsSpelledAt};
ghost use Rattle.bac_tags.specs.Elements.{EndsInElement, HasOtherTag, longest_content};
ghost use Rattle.bac_tags.specs.Contents.{SpellsOctetString};
ghost use Rattle.bac_tags.specs.ReadingSteps.{Gives, octet_string_at};
ghost use Rattle.bac_tags.specs.Writing.{written_octet_string};

use crate::TagFault;
use crate::element::{OCTET_STRING, content_at, write_element};
use bac_values::NoMemory;

/// Where the octets of the OctetString at a place begin and end.
#[tactic(auto, unfolding(crate::specs::ReadingSteps::octet_string_at))]
fn octet_string_at(input: &[u8], at: usize) -> Result<(usize, usize), TagFault>
    requires { at ≤ length input.now }
    ensures exact { Gives (λ x. (slice_range input.now x.0 x.1, x.1)) result (octet_string_at input.now at) }
    ensures within { IfOk result (λ x. (at < x.0) × (x.0 ≤ x.1) × (x.1 ≤ length input.now)) }
{
    let (content, after) = content_at(input, at, OCTET_STRING, None, 0, u32::MAX)?;
    Ok((after - content.len(), after))
}

/// Reads an OctetString of any length at a place (20.2.8), and answers where its octets stand, from the first place to the
/// one after the last, which is the place after the element. It has no number in a context. No memory is taken.
pub fn read_octet_string(input: &[u8], at: usize) -> Result<(usize, usize), TagFault>
    requires { at ≤ length input.now }
    ensures found { IfOk result (λ x. IsSpelledAt SpellsOctetString input.now at (slice_range input.now x.0 x.1) x.1) }
    ensures only { (octets : List ℕ) (end : ℕ) → IsSpelledAt SpellsOctetString input.now at octets end → IsOkAnd result (λ x. (slice_range input.now x.0 x.1 ≡ octets) × (x.1 ≡ end)) }

    ensures truncated { (result ≡ Err (TagFault.Truncated (length input.now))) ↔ EndsInElement octet_string_tag None 0 longest_content (drop at input.now) }
    ensures wrong_tag { (result ≡ Err (TagFault.WrongTag at)) ↔ HasOtherTag octet_string_tag None (drop at input.now) }
    // Every length is right.
    ensures no_other { IfErr result (λ fault. (fault ≡ TagFault.Truncated (length input.now)) ⊎ (fault ≡ TagFault.WrongTag at)) }

    ensures exact { Gives (λ x. (slice_range input.now x.0 x.1, x.1)) result (octet_string_at input.now at) }
    ensures within { IfOk result (λ x. (at < x.0) × (x.0 ≤ x.1) × (x.1 ≤ length input.now)) }
{
    octet_string_at(input, at)
}

/// Appends an application's OctetString.
pub fn write_octet_string(out: &mut Vec<u8>, octets: &[u8]) -> Result<(), NoMemory>
    requires { length octets.now < 2 ^ 32 }
    ensures written { OnOk result (out.new.items ≡ out.old.items ++ written_octet_string octets.now) }
    ensures same { OnErr result (out.new.items ≡ out.old.items) }
    // What is written spells the octets, so it is read again.
    ensures spelled { SpellsOctetString (written_octet_string octets.now) octets.now }
{
    write_element(out, OCTET_STRING, None, &[], octets)
}
