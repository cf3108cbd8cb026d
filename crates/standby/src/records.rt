//! What the records of a packet come to.

ghost use Rattle.std.specs.Prelude.{◌≡◌, ◌≤◌, List, Option, ℕ, IfOk, length};
ghost use Rattle.alarm_journal.specs.Press.{room_of};
ghost use Rattle.standby.specs.Judging.{ComesTo, FitsIfWritten, TriesFresh};
ghost use Rattle.standby.specs.Packets.{most_packet_octets, written_records};
ghost use Rattle.standby.specs.Takes.{Gathering};

use crate::Took;
use crate::copying::copy_of;
use crate::judging::Judged;
use crate::packet::RecordsFrame;
use crate::walking::walk;
use alarm_core::{Core, site_fits};
use alarm_journal::Press;
use bac_values::NoMemory;
use ground_io::Ground;
use state_codec::{CodecFault, follow_records, work_of};
use std::alloc::Global;

/// What fresh records come to: they are tried on a copy of the core, and written where all of them may come.
fn try_fresh<G: Ground>(
    alloc: Global,
    core: &Core,
    press: &Press<G>,
    fresh: &[u8],
) -> Result<Judged, NoMemory>
    requires few { length fresh.now ≤ most_packet_octets }
    ensures tried { IfOk result (TriesFresh core.now fresh.now (room_of press.now.layout)) }
    ensures fits { IfOk result (FitsIfWritten (room_of press.now.layout) press.now.layout.half) }
{
    let mut copy = copy_of(alloc, core)?;
    match follow_records(alloc, &mut copy, fresh) {
        Ok(()) => {}
        Err(CodecFault::Malformed { .. }) => return Ok(Judged::Answers(Took::Malformed)),
        Err(CodecFault::NoMemory) => return Err(NoMemory),
    }
    let work = work_of(alloc, &copy, press, fresh)?;
    Ok(Judged::Writes { core: copy, work })
}

/// What the records of a packet come to.
pub(crate) fn judge_records<G: Ground>(
    alloc: Global,
    core: &Core,
    press: &Press<G>,
    frame: &RecordsFrame<'_>,
) -> Result<Judged, NoMemory>
    requires short { length frame.now.octets.now ≤ most_packet_octets }
    ensures comes { (packet : List ℕ) (gathering : Option Gathering) → packet ≡ written_records frame.now.before frame.now.count frame.now.octets.now
        → IfOk result (ComesTo core.now packet gathering gathering) }
    ensures fits { IfOk result (FitsIfWritten (room_of press.now.layout) press.now.layout.half) }
{
    site_fits(core.site());
    let known = core.events();
    let walked = match walk(alloc, frame.octets, known.saturating_sub(frame.before)) {
        Ok(walked) => walked,
        Err(CodecFault::Malformed { .. }) => return Ok(Judged::Answers(Took::Malformed)),
        Err(CodecFault::NoMemory) => return Err(NoMemory),
    };
    if walked.count == 0 || walked.count != u64::from(frame.count) {
        return Ok(Judged::Answers(Took::Malformed));
    }
    if frame.before > known {
        return Ok(Judged::Answers(Took::Gap { events: known }));
    }
    if walked.count <= known - frame.before {
        return Ok(Judged::Answers(Took::Repeat { events: known }));
    }
    try_fresh(alloc, core, press, &frame.octets[walked.at..])
}
