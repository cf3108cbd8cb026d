//! Times (20.2.13).

ghost use Rattle.std.specs.Prelude.{◌≡◌, ◌↔◌, ℕ, ◌<◌, ◌≤◌, ◌++◌, None, List, length, drop, IfOk, OnOk, OnErr};
ghost use Rattle.bac_values.specs.ApplicationTags.{time_tag};
ghost use Rattle.bac_tags.specs.Places.{IsSpelledAt};
ghost use Rattle.bac_tags.specs.Elements.{EndsInElement, HasOtherTag, HasOtherLength};
ghost use Rattle.bac_tags.specs.Stamps.{SpellsTime};
ghost use Rattle.bac_tags.specs.ReadingSteps.{time_at};
ghost use Rattle.bac_tags.specs.Writing.{written_time};

use crate::TagFault;
use crate::element::{TIME, content_at, write_element};
use bac_values::NoMemory;

/// The four octets of a time.
fn time_of(content: &[u8]) -> [u8; 4]
    requires { length content.now ≡ 4 }
    ensures { result ≡ content.now }
{
    [content[0], content[1], content[2], content[3]]
}

/// The Time at a place, and the place after it.
#[tactic(auto, unfolding(crate::specs::ReadingSteps::time_at))]
fn time_at(input: &[u8], at: usize) -> Result<([u8; 4], usize), TagFault>
    requires { at ≤ length input.now }
    ensures exact { result ≡ time_at input.now at }
    ensures within { IfOk result (λ x. (at < x.1) × (x.1 ≤ length input.now)) }
{
    let (content, after) = content_at(input, at, TIME, None, 4, 4)?;
    Ok((time_of(content), after))
}

/// Reads a Time at a place (20.2.13), and answers its four octets with the place after it: the hour, the minute, the
/// second and the hundredth, each of any value. It has no number in a context. No memory is taken.
pub fn read_time(input: &[u8], at: usize) -> Result<([u8; 4], usize), TagFault>
    requires { at ≤ length input.now }
    ensures found { IfOk result (λ x. IsSpelledAt SpellsTime input.now at x.0 x.1) }
    ensures only { (time : List ℕ) (end : ℕ) → IsSpelledAt SpellsTime input.now at time end → result ≡ Ok (time, end) }

    ensures truncated { (result ≡ Err (TagFault.Truncated (length input.now))) ↔ EndsInElement time_tag None 4 4 (drop at input.now) }
    ensures wrong_tag { (result ≡ Err (TagFault.WrongTag at)) ↔ HasOtherTag time_tag None (drop at input.now) }
    ensures bad_length { (result ≡ Err (TagFault.BadLength at)) ↔ HasOtherLength time_tag None 4 4 (drop at input.now) }

    ensures exact { result ≡ time_at input.now at }
    ensures within { IfOk result (λ x. (at < x.1) × (x.1 ≤ length input.now)) }
{
    time_at(input, at)
}

/// Appends an application's Time.
pub fn write_time(out: &mut Vec<u8>, time: [u8; 4]) -> Result<(), NoMemory>
    ensures written { OnOk result (out.new.items ≡ out.old.items ++ written_time time) }
    ensures same { OnErr result (out.new.items ≡ out.old.items) }
    // What is written spells the time, so it is read again.
    ensures spelled { SpellsTime (written_time time) time }
{
    write_element(out, TIME, None, &[], &time)
}
