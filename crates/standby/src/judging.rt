//! What a packet comes to, before anything is written.

ghost use Rattle.std.specs.Prelude.{◌≡◌, ◌<◌, ◌^◌, IfOk, OnErr};
ghost use Rattle.alarm_journal.specs.Press.{room_of};
ghost use Rattle.state_codec.specs.Sizes.{snapshot_bound};
ghost use Rattle.standby.specs.Followers.{HasRoomyAreas};
ghost use Rattle.standby.specs.Judging.{ComesTo, FitsIfWritten};

use crate::Took;
use crate::gathering::Gathered;
use crate::packet::{read_piece, read_records};
use crate::pieces::judge_piece;
use crate::records::judge_records;
use alarm_core::Core;
use alarm_journal::Press;
use bac_values::NoMemory;
use ground_io::Ground;
use state_codec::{ReadFault, Work, bounds_are_low};
use std::alloc::Global;

/// What a packet comes to.
#[derive(Drop)]
pub(crate) enum Judged {
    /// An answer, for which nothing is written.
    Answers(Took),
    /// Events or a whole snapshot: what the core is then, and what is written before that is answered.
    Writes {
        /// The core then.
        core: Core,
        /// What is written.
        work: Work,
    },
}

/// A number of 32 bits counts the octets of every snapshot of a core's site. The call does nothing.
pub(crate) fn bound_is_low(core: &Core)
    ensures low { snapshot_bound core.now.site < 2 ^ 32 }
{
    let _site = core.site();
    bounds_are_low();
}

/// What a packet comes to, for a follower with this core, which gathers this, and this press. What is gathered then is put in
/// place; where memory is refused, it is as it was.
pub(crate) fn judge<G: Ground>(
    alloc: Global,
    core: &Core,
    gathering: &mut Option<Gathered>,
    press: &Press<G>,
    packet: &[u8],
) -> Result<Judged, NoMemory>
    requires areas { HasRoomyAreas core.now.site press.now.layout }
    ensures comes { IfOk result (ComesTo core.now packet.now gathering.old gathering.new) }
    ensures fits { IfOk result (FitsIfWritten (room_of press.now.layout) press.now.layout.half) }
    ensures same { OnErr result (gathering.new ≡ gathering.old) }
{
    match read_records(packet) {
        Ok(frame) => return judge_records(alloc, core, press, &frame),
        Err(ReadFault::NoMemory) => return Err(NoMemory),
        Err(ReadFault::NothingThere) => {}
    }
    bound_is_low(core);
    match read_piece(packet) {
        Ok(frame) => judge_piece(alloc, core, gathering, &frame),
        Err(ReadFault::NoMemory) => Err(NoMemory),
        Err(ReadFault::NothingThere) => Ok(Judged::Answers(Took::Malformed)),
    }
}
