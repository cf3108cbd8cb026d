//! What is written of a core in one commit: nothing, some records, or its state.

ghost use Rattle.std.specs.Prelude.{◌≡◌, ◌≤◌, IfOk, MatchResult, Ok, [], length, ⊤};
ghost use Rattle.bac_values.specs.Limits.{most_batch_octets};
ghost use Rattle.ground_io.specs.Counts.{HasCause};
ghost use Rattle.alarm_journal.specs.Journal.{Content};
ghost use Rattle.alarm_journal.specs.Journal.{Site as Journal};
ghost use Rattle.alarm_journal.specs.Press.{Between, room_of};
ghost use Rattle.state_codec.specs.Work.{FitsPress, IsWorkOf, content_with};
ghost use Rattle.state_codec.specs.Emission.{Emits};
ghost use Rattle.state_codec.specs.Keeping.{Rests};

use crate::snapshot::snapshot_of;
use alarm_core::Core;
use alarm_journal::{Job, Press};
use bac_values::NoMemory;
use ground_io::Ground;
use std::alloc::Global;

/// What is to be written.
#[derive(Drop)]
pub enum Work {
    /// Nothing: no event is pending.
    Nothing,
    /// The records of the pending events, behind what the journal holds.
    Batch(Job),
    /// The state, in the place of all that the journal holds.
    Snapshot(Job),
}

/// What is to be written of a core behind these records, with a press at rest.
pub fn work_of<G: Ground>(
    alloc: Global,
    core: &Core,
    press: &Press<G>,
    records: &[u8],
) -> Result<Work, NoMemory>
    requires few { length records.now ≤ most_batch_octets }
    ensures work { IfOk result (λ work. IsWorkOf core.now records.now (room_of press.now.layout) work) }
    ensures fits { IfOk result (λ work. FitsPress (room_of press.now.layout) press.now.layout.half work) }
{
    if records.is_empty() {
        return Ok(Work::Nothing);
    }
    if records.len() as u64 <= press.room() {
        return Ok(Work::Batch(Job::batch(alloc, records)?));
    }
    Ok(Work::Snapshot(snapshot_of(alloc, core, press.area())?))
}

/// Writes, and gives the press back; or the ground, where the disk failed. Where nothing is to be written nothing is done.
pub fn write_work<G: Ground>(press: Press<G>, work: Work) -> Result<Press<G>, G>
    requires fits { FitsPress (room_of press.layout) press.layout.half work }
    ensures nothing { work ≡ Work.Nothing → result ≡ Ok press }
    ensures rests { (journal : Journal) (content : Content) → Rests journal press.layout (G.told press.device) content
        → IfOk result (λ kept. Rests journal kept.layout (G.told kept.device) (content_with work content)) }
    ensures any_moment { (journal : Journal) (content : Content) → Rests journal press.layout (G.told press.device) content
        → MatchResult result
        (λ kept. Between journal content (content_with work content) (G.told press.device) (G.told kept.device))
        (λ device. Between journal content (content_with work content) (G.told press.device) (G.told device)) }
    ensures quiet { MatchResult result (λ kept. Emits (G.told press.device) (G.told kept.device) []) (λ device. Emits (G.told press.device) (G.told device) []) }
    ensures cause { MatchResult result
        (λ kept. G.disk_faults kept.device ≡ G.disk_faults press.device)
        (λ device. HasCause (G.disk_faults press.device) (G.disk_faults device) ⊤) }
    ensures half { IfOk result (λ kept. kept.layout.half ≡ press.layout.half) }
    ensures same { MatchResult result (λ kept. G.size kept.device ≡ G.size press.device) (λ device. G.size device ≡ G.size press.device) }
    ensures emitted { MatchResult result (λ kept. G.emit_faults kept.device ≡ G.emit_faults press.device) (λ device. G.emit_faults device ≡ G.emit_faults press.device) }
{
    match work {
        Work::Nothing => Ok(press),
        Work::Batch(job) => press.commit_batch(&job),
        Work::Snapshot(job) => press.commit_snapshot(&job),
    }
}
