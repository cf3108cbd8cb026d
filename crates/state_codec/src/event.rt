//! Events in octets: records.

ghost use Rattle.std.specs.Prelude.{◌≡◌, ◌≤◌, ◌⊎◌, ℕ, drop, length, IfOk};
ghost use Rattle.bac_tags.specs.Places.{IsSpelledAt};
ghost use Rattle.alarm_core.specs.declared.event.Event.{Event};
ghost use Rattle.state_codec.specs.Records.{HasRecord, IsNowhere, SpellsEvent, written_event};
ghost use Rattle.state_codec.specs.ReadingSteps.{Gives, GivesEvent, event_at};

use crate::CodecFault;
use crate::act::{put_act, take_act};
use crate::parts::take_u64;
use crate::reading::ReadFault;
use alarm_core::Event;
use bac_values::{FIRST_MOMENT, LAST_MOMENT, NoMemory};
use std::alloc::Global;

/// Takes the event at the front, at a moment in range.
#[tactic(auto, unfolding(crate::specs::ReadingSteps::event_at))]
fn take_event(alloc: Global, bytes: &mut &[u8]) -> Result<Event, ReadFault>
    ensures exact { Gives (λ x. (x, bytes.new.now)) result (event_at bytes.old.now) }
{
    let moment = take_u64(bytes)?;
    let act = take_act(alloc, bytes)?;
    if moment < FIRST_MOMENT || moment > LAST_MOMENT {
        return Err(ReadFault::NothingThere);
    }
    Ok(Event { moment, act })
}

/// The record of an event.
pub fn write_event(alloc: Global, event: &Event) -> Result<Vec<u8>, NoMemory>
    requires record { HasRecord event.now }
    ensures text { IfOk result (λ octets. octets.items ≡ written_event event.now) }
{
    let mut octets = Vec::new(alloc);
    octets.extend_from_slice(&event.moment.to_be_bytes())?;
    put_act(&mut octets, &event.act)?;
    Ok(octets)
}

/// The event at a place, and the place after its record.
fn event_from(alloc: Global, bytes: &[u8], at: usize) -> Result<(Event, usize), CodecFault>
    requires within { at ≤ length bytes.now }
    ensures exact { GivesEvent bytes.now at result (event_at (drop at bytes.now)) }
{
    let mut rest = &bytes[at..];
    match take_event(alloc, &mut rest) {
        Ok(event) => Ok((event, bytes.len() - rest.len())),
        Err(ReadFault::NothingThere) => Err(CodecFault::Malformed { at }),
        Err(ReadFault::NoMemory) => Err(CodecFault::NoMemory),
    }
}

/// The event whose record stands at a place, whatever follows it, and the place after its record. A text and a list of
/// recipients take memory.
pub fn read_event(alloc: Global, bytes: &[u8], at: usize) -> Result<(Event, usize), CodecFault>
    requires within { at ≤ length bytes.now }
    // What is answered is spelled there.
    ensures found { IfOk result (λ x. IsSpelledAt SpellsEvent bytes.now at x.0 x.1) }
    // What is spelled there is answered, or memory is refused.
    ensures only { (event : Event) (end : ℕ) → IsSpelledAt SpellsEvent bytes.now at event end → (result ≡ Ok (event, end)) ⊎ (result ≡ Err CodecFault.NoMemory) }
    // Malformed comes only where nothing is spelled; where nothing is, it comes, or memory is refused.
    ensures refused { (place : ℕ) → result ≡ Err (CodecFault.Malformed place) → (place ≡ at) × IsNowhere bytes.now at }
    ensures nothing { IsNowhere bytes.now at → (result ≡ Err (CodecFault.Malformed at)) ⊎ (result ≡ Err CodecFault.NoMemory) }
{
    event_from(alloc, bytes, at)
}
