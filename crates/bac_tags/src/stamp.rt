//! A Date and a Time, one behind the other (20.2.12, 20.2.13).

ghost use Rattle.std.specs.Prelude.{◌≡◌, ◌↔◌, ◌⊎◌, ℕ, ◌<◌, ◌≤◌, ◌++◌, None, length, drop, IfOk, OnOk, OnErr};
ghost use Rattle.bac_values.specs.declared.stamp.Stamp.{Stamp};
ghost use Rattle.bac_values.specs.ApplicationTags.{date_tag, time_tag};
ghost use Rattle.bac_tags.specs.Places.{IsSpelledAt};
ghost use Rattle.bac_tags.specs.Elements.{EndsInElement, HasOtherTag, HasOtherLength};
ghost use Rattle.bac_tags.specs.Stamps.{SpellsStamp, HasDate};
ghost use Rattle.bac_tags.specs.ReadingSteps.{stamp_at};
ghost use Rattle.bac_tags.specs.Writing.{written_stamp};

use crate::TagFault;
use crate::element::{DATE, TIME, content_at, write_element};
use bac_values::{NoMemory, Stamp};

/// The stamp of a date and a time of four octets each.
fn stamp_of(date: &[u8], time: &[u8]) -> Stamp
    requires date { length date.now ≡ 4 }
    requires time { length time.now ≡ 4 }
    ensures { result.octets ≡ date.now ++ time.now }
{
    Stamp {
        octets: [
            date[0], date[1], date[2], date[3], time[0], time[1], time[2], time[3],
        ],
    }
}

/// The stamp at a place, and the place after it.
#[tactic(auto, unfolding(crate::specs::ReadingSteps::stamp_at))]
fn stamp_at(input: &[u8], at: usize) -> Result<(Stamp, usize), TagFault>
    requires { at ≤ length input.now }
    ensures exact { result ≡ stamp_at input.now at }
    ensures within { IfOk result (λ x. (at < x.1) × (x.1 ≤ length input.now)) }
{
    let (date, after_date) = content_at(input, at, DATE, None, 4, 4)?;
    let (time, after) = content_at(input, after_date, TIME, None, 4, 4)?;
    Ok((stamp_of(date, time), after))
}

/// Reads a Date (20.2.12) at a place and a Time (20.2.13) behind it, and answers them with the place after them.
/// They have no number in a context. A fault of the time has the time's place. No memory is taken.
pub fn read_stamp(input: &[u8], at: usize, context: Option<u8>) -> Result<(Stamp, usize), TagFault>
    requires within { at ≤ length input.now }
    requires application { context ≡ None }
    ensures found { IfOk result (λ x. IsSpelledAt SpellsStamp input.now at x.0 x.1) }
    ensures only { (stamp : Stamp) (end : ℕ) → IsSpelledAt SpellsStamp input.now at stamp end → result ≡ Ok (stamp, end) }

    ensures truncated { (result ≡ Err (TagFault.Truncated (length input.now))) ↔ (EndsInElement date_tag None 4 4 (drop at input.now) ⊎ HasDate input.now at (λ end. EndsInElement time_tag None 4 4 (drop end input.now))) }
    ensures wrong_tag { (place : ℕ) → (result ≡ Err (TagFault.WrongTag place)) ↔ (((place ≡ at) × HasOtherTag date_tag None (drop at input.now)) ⊎ HasDate input.now at (λ end. (place ≡ end) × HasOtherTag time_tag None (drop end input.now))) }
    ensures bad_length { (place : ℕ) → (result ≡ Err (TagFault.BadLength place)) ↔ (((place ≡ at) × HasOtherLength date_tag None 4 4 (drop at input.now)) ⊎ HasDate input.now at (λ end. (place ≡ end) × HasOtherLength time_tag None 4 4 (drop end input.now))) }

    ensures exact { result ≡ stamp_at input.now at }
    ensures within { IfOk result (λ x. (at < x.1) × (x.1 ≤ length input.now)) }
{
    stamp_at(input, at)
}

/// Appends a Date and a Time, which have no number in a context.
pub fn write_stamp(out: &mut Vec<u8>, context: Option<u8>, stamp: Stamp) -> Result<(), NoMemory>
    requires { context ≡ None }
    ensures written { OnOk result (out.new.items ≡ out.old.items ++ written_stamp stamp) }
    ensures same { OnErr result (out.new.items ≡ out.old.items) }
    // What is written spells the stamp, so it is read again.
    ensures spelled { SpellsStamp (written_stamp stamp) stamp }
{
    let before = out.len();
    write_element(out, DATE, None, &[], &stamp.octets[..4])?;
    match write_element(out, TIME, None, &[], &stamp.octets[4..]) {
        Ok(()) => Ok(()),
        Err(refused) => {
            out.truncate(before);
            Err(refused)
        }
    }
}
