//! What a piece of a snapshot comes to.

ghost use Rattle.std.specs.Prelude.{◌≡◌, ◌≤◌, ◌++◌, List, Some, ℕ, IfOk, OnErr, length};
ghost use Rattle.alarm_journal.specs.Press.{room_of};
ghost use Rattle.alarm_journal.specs.declared.layout.Layout.{Layout};
ghost use Rattle.standby.specs.Followers.{HasRoomyAreas};
ghost use Rattle.standby.specs.Judging.{ComesTo, FitsIfWritten, GatheredIs, PieceIs, WholeIs};
ghost use Rattle.standby.specs.Packets.{most_packet_octets, piece_seen, written_piece};
ghost use Rattle.standby.specs.Takes.{gathered_by};

use crate::Took;
use crate::gathering::Gathered;
use crate::judging::{Judged, bound_is_low};
use crate::packet::PieceFrame;
use alarm_core::{Core, site_fits};
use alarm_journal::Job;
use bac_values::NoMemory;
use state_codec::{
    CodecFault, Work, bounds_are_low, read_state, snapshot_bound, snapshots_are_short,
    snapshots_have_one_spelling,
};
use std::alloc::Global;

/// What a whole snapshot comes to: it is written where it is one of the site, of as many events as it tells of.
fn judge_whole(alloc: Global, core: &Core, whole: &Gathered) -> Result<Judged, NoMemory>
    ensures whole { IfOk result (WholeIs core.now.site whole.now) }
    ensures fits { (layout : Layout) → HasRoomyAreas core.now.site layout → IfOk result (FitsIfWritten (room_of layout) layout.half) }
{
    snapshots_have_one_spelling();
    snapshots_are_short();
    bounds_are_low();
    let octets = whole.octets();
    let state = match read_state(alloc, core.site(), octets) {
        Ok(state) => state,
        Err(CodecFault::Malformed { .. }) => return Ok(Judged::Answers(Took::Malformed)),
        Err(CodecFault::NoMemory) => return Err(NoMemory),
    };
    if state.events() != whole.events() {
        return Ok(Judged::Answers(Took::Malformed));
    }
    let work = Work::Snapshot(Job::snapshot(alloc, octets)?);
    Ok(Judged::Writes { core: state, work })
}

/// What a gathering comes to.
fn judge_gathered(alloc: Global, core: &Core, gathered: &Gathered) -> Result<Judged, NoMemory>
    ensures comes { IfOk result (GatheredIs core.now.site gathered.now) }
    ensures fits { (layout : Layout) → HasRoomyAreas core.now.site layout → IfOk result (FitsIfWritten (room_of layout) layout.half) }
{
    match gathered.part() {
        Some(place) => Ok(Judged::Answers(Took::Part { place })),
        None => judge_whole(alloc, core, gathered),
    }
}

/// What a piece at place 0 comes to: it begins anew.
fn begin(
    alloc: Global,
    core: &Core,
    gathering: &mut Option<Gathered>,
    frame: &PieceFrame<'_>,
) -> Result<Judged, NoMemory>
    ensures begins { IfOk result (PieceIs core.now (piece_seen frame.now) (Some frame.now.octets.now) gathering.old gathering.new) }
    ensures fits { (layout : Layout) → HasRoomyAreas core.now.site layout → IfOk result (FitsIfWritten (room_of layout) layout.half) }
    ensures same { OnErr result (gathering.new ≡ gathering.old) }
{
    let begun = Gathered::begin(alloc, frame)?;
    let judged = judge_gathered(alloc, core, &begun)?;
    *gathering = begun.unless_whole();
    Ok(judged)
}

/// What a gathering comes to with more octets. Where memory is refused, it is as it was.
fn go_on(
    alloc: Global,
    core: &Core,
    gathered: &mut Gathered,
    octets: &[u8],
) -> Result<Judged, NoMemory>
    ensures comes { IfOk result (GatheredIs core.now.site gathered.new) }
    ensures longer { IfOk result (λ judged. gathered.new ≡ record gathered.old { octets = gathered.old.octets ++ octets.now }) }
    ensures fits { (layout : Layout) → HasRoomyAreas core.now.site layout → IfOk result (FitsIfWritten (room_of layout) layout.half) }
    ensures same { OnErr result (gathered.new ≡ gathered.old) }
{
    let before = gathered.octets().len();
    gathered.append(octets)?;
    match judge_gathered(alloc, core, gathered) {
        Ok(judged) => Ok(judged),
        Err(NoMemory) => {
            gathered.cut(before);
            Err(NoMemory)
        }
    }
}

/// What a piece behind others comes to: it has to go on from what is gathered.
fn continue_with(
    alloc: Global,
    core: &Core,
    gathering: &mut Option<Gathered>,
    frame: &PieceFrame<'_>,
) -> Result<Judged, NoMemory>
    ensures goes_on { IfOk result (PieceIs core.now (piece_seen frame.now) (gathered_by gathering.old (piece_seen frame.now)) gathering.old gathering.new) }
    ensures fits { (layout : Layout) → HasRoomyAreas core.now.site layout → IfOk result (FitsIfWritten (room_of layout) layout.half) }
    ensures same { OnErr result (gathering.new ≡ gathering.old) }
{
    let gap = Took::Gap {
        events: core.events(),
    };
    let Some(gathered) = gathering else {
        return Ok(Judged::Answers(gap));
    };
    if !gathered.takes(frame) {
        return Ok(Judged::Answers(gap));
    }
    let judged = go_on(alloc, core, gathered, frame.octets)?;
    if gathered.is_whole() {
        *gathering = None;
    }
    Ok(judged)
}

/// What a piece of a snapshot comes to.
pub(crate) fn judge_piece(
    alloc: Global,
    core: &Core,
    gathering: &mut Option<Gathered>,
    frame: &PieceFrame<'_>,
) -> Result<Judged, NoMemory>
    requires short { length frame.now.octets.now ≤ most_packet_octets }
    ensures comes { (packet : List ℕ) → packet ≡ written_piece (piece_seen frame.now) → IfOk result (ComesTo core.now packet gathering.old gathering.new) }
    ensures fits { (layout : Layout) → HasRoomyAreas core.now.site layout → IfOk result (FitsIfWritten (room_of layout) layout.half) }
    ensures same { OnErr result (gathering.new ≡ gathering.old) }
{
    site_fits(core.site());
    bound_is_low(core);
    snapshots_are_short();
    let whole = u64::from(frame.whole);
    if whole > snapshot_bound(core.site())
        || u64::from(frame.place) + frame.octets.len() as u64 > whole
    {
        return Ok(Judged::Answers(Took::Malformed));
    }
    let events = core.events();
    if frame.events <= events {
        return Ok(Judged::Answers(Took::Repeat { events }));
    }
    if frame.place == 0 {
        return begin(alloc, core, gathering, frame);
    }
    continue_with(alloc, core, gathering, frame)
}
