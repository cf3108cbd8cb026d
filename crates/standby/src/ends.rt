//! Where records end that stand one behind the other.
ghost use Rattle.std.specs.Prelude.{◌≡◌, ◌≤◌, ◌<◌, ◌+◌, ◌-◌, ℕ, Err, IfOk, length, min, slice_index};
ghost use Rattle.bac_tags.specs.Places.{IsSpelledAt};
ghost use Rattle.ground_io.specs.Disk.{octets_at};
ghost use Rattle.alarm_core.specs.declared.event.Event.{Event as Happening};
ghost use Rattle.alarm_journal.specs.Opened.{sum_of};
ghost use Rattle.state_codec.specs.Records.{IsNowhere, SpellsEvent};
ghost use Rattle.standby.specs.Offers.{AreEnds, IsCutAt, start_of};
ghost use Rattle.standby.specs.Packets.{most_packet_octets};

use crate::packet::MOST_PACKET_OCTETS;
use alarm_journal::Body;
use bac_values::{NoMemory, push};
use state_codec::{CodecFault, read_event};
use std::alloc::Global;

/// Where the record ends that stands at a place.
fn end_at(alloc: Global, records: &[u8], at: usize) -> Result<usize, CodecFault>
    requires within { at ≤ length records.now }
    ensures found { IfOk result (λ end. (event : Happening) × IsSpelledAt SpellsEvent records.now at event end) }
    ensures refused { (place : ℕ) → result ≡ Err (CodecFault.Malformed place) → (place ≡ at) × IsNowhere records.now at }
{
    let (_event, end) = read_event(alloc, records, at)?;
    Ok(end)
}

/// Where each record ends. `Malformed` has the offset of the first that is no record.
pub(crate) fn ends_of(alloc: Global, records: &[u8]) -> Result<Vec<usize>, CodecFault>
    ensures ends { IfOk result (λ ends. AreEnds records.now ends.items) }
    ensures refused { (at : ℕ) → result ≡ Err (CodecFault.Malformed at) → IsCutAt records.now at }
{
    let mut ends = Vec::new(alloc);
    let mut at = 0;
    while at < records.len() {
        at = end_at(alloc, records, at)?;
        if let Err(NoMemory) = push(&mut ends, at) {
            return Err(CodecFault::NoMemory);
        }
    }
    Ok(ends)
}

/// How many of some octets, so many in all, bodies have together that stand in them one behind the other.
pub(crate) fn length_of(bodies: &[Body], octets: usize) -> usize
    ensures length { result ≡ min (sum_of bodies.now) octets }
{
    let mut length: usize = 0;
    for body in bodies {
        length = octets.min(length.saturating_add(body.length as usize));
    }
    length
}

/// Where the record with a number begins, or where all of them end.
pub(crate) fn start_of(ends: &[usize], number: usize) -> usize
    requires there { number ≤ length ends.now }
    ensures start { result ≡ start_of ends.now number }
{
    if number == 0 { 0 } else { ends[number - 1] }
}

/// The first record, from one of them on, that ends too far behind an offset for a packet that begins there.
pub(crate) fn first_beyond(ends: &[usize], next: usize, start: usize) -> usize
    requires there { next ≤ length ends.now }
    requires behind { (k : ℕ) → next ≤ k → k < length ends.now → start ≤ slice_index ends.now k }
    ensures from { next ≤ result }
    ensures there { result ≤ length ends.now }
    ensures fit { (k : ℕ) → next ≤ k → k < result → slice_index ends.now k ≤ start + most_packet_octets }
    ensures beyond { result < length ends.now → start + most_packet_octets < slice_index ends.now result }
{
    let mut last = next;
    while last < ends.len() && ends[last] - start <= MOST_PACKET_OCTETS {
        last += 1;
    }
    last
}

/// The octets of the records from one number up to another one.
pub(crate) fn between<'a>(records: &'a [u8], ends: &[usize], first: usize, last: usize) -> &'a [u8]
    requires ends { AreEnds records.now ends.now }
    requires order { first ≤ last }
    requires there { last ≤ length ends.now }
    ensures octets { result.now ≡ octets_at (start_of ends.now first) (start_of ends.now last - start_of ends.now first) records.now }
{
    let start = start_of(ends, first);
    let end = start_of(ends, last);
    &records[start..end]
}
