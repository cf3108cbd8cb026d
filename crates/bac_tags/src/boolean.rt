//! Booleans (20.2.3).

ghost use Rattle.std.specs.Prelude.{◌≡◌, ◌↔◌, ℕ, ◌<◌, ◌≤◌, Bool, ◌++◌, length, drop, IfOk, OnOk, OnErr};
ghost use Rattle.std.specs.Option.{ok_or};
ghost use Rattle.bac_values.specs.ApplicationTags.{boolean_tag};
ghost use Rattle.bac_tags.specs.Places.{IsSpelledAt};
ghost use Rattle.bac_tags.specs.Elements.{HasOtherTag};
ghost use Rattle.bac_tags.specs.Contents.{SpellsBoolean, EndsInBoolean, IsNoBoolean};
ghost use Rattle.bac_tags.specs.ReadingSteps.{boolean_in, boolean_at};
ghost use Rattle.bac_tags.specs.Writing.{written_boolean};

use crate::element::{BOOLEAN, content_at, element_tag, header_at, write_element};
use crate::{TagFault, write_tag};
use bac_values::NoMemory;

/// The value of 0 or 1.
fn boolean_in(number: u32) -> Option<bool>
    ensures { result ≡ boolean_in number }
{
    match number {
        0 => Some(false),
        1 => Some(true),
        _ => None,
    }
}

/// The Boolean at a place, and the place after it.
#[tactic(auto, unfolding(crate::specs::ReadingSteps::boolean_at))]
fn boolean_at(input: &[u8], at: usize, context: Option<u8>) -> Result<(bool, usize), TagFault>
    requires { at ≤ length input.now }
    ensures exact { result ≡ boolean_at input.now at context }
    ensures within { IfOk result (λ x. (at < x.1) × (x.1 ≤ length input.now)) }
{
    let (number, after) = match context {
        None => header_at(input, at, BOOLEAN, context)?,
        Some(_) => {
            let (content, after) = content_at(input, at, BOOLEAN, context, 1, 1)?;
            (u32::from(content[0]), after)
        }
    };
    match boolean_in(number) {
        Some(value) => Ok((value, after)),
        None => Err(TagFault::BadLength { at }),
    }
}

/// Reads a Boolean at a place (20.2.3), and answers it with the place after it. With None it is an application's,
/// whose value is in its tag; with `Some(n)` it has the number `n` in a context, and one octet of content. No
/// memory is taken.
pub fn read_bool(input: &[u8], at: usize, context: Option<u8>) -> Result<(bool, usize), TagFault>
    requires { at ≤ length input.now }
    ensures found { IfOk result (λ x. IsSpelledAt (SpellsBoolean context) input.now at x.0 x.1) }
    ensures only { (value : Bool) (end : ℕ) → IsSpelledAt (SpellsBoolean context) input.now at value end → result ≡ Ok (value, end) }

    ensures truncated { (result ≡ Err (TagFault.Truncated (length input.now))) ↔ EndsInBoolean context (drop at input.now) }
    ensures wrong_tag { (result ≡ Err (TagFault.WrongTag at)) ↔ HasOtherTag boolean_tag context (drop at input.now) }
    ensures bad_length { (result ≡ Err (TagFault.BadLength at)) ↔ IsNoBoolean context (drop at input.now) }

    ensures exact { result ≡ boolean_at input.now at context }
    ensures within { IfOk result (λ x. (at < x.1) × (x.1 ≤ length input.now)) }
{
    boolean_at(input, at, context)
}

/// Appends a Boolean: an application's with its value in the tag; with `Some(n)` one with the number `n` in a
/// context, and one octet of content.
pub fn write_bool(out: &mut Vec<u8>, context: Option<u8>, value: bool) -> Result<(), NoMemory>
    ensures written { OnOk result (out.new.items ≡ out.old.items ++ written_boolean context value) }
    ensures same { OnErr result (out.new.items ≡ out.old.items) }
    // What is written spells the value, so it is read again.
    ensures spelled { SpellsBoolean context (written_boolean context value) value }
{
    match context {
        None => write_tag(out, element_tag(BOOLEAN, context, u32::from(value))),
        Some(_) => write_element(out, BOOLEAN, context, &[], &[u8::from(value)]),
    }
}
