//! The state of a core as a snapshot of its journal.

ghost use Rattle.std.specs.Prelude.{◌≤◌, ◌<◌, ◌+◌, IfOk, IsTrue, length};
ghost use Rattle.bac_values.specs.Limits.{most_events, snapshot_octets_limit};
ghost use Rattle.state_codec.specs.Work.{IsSnapshotOf};

use crate::{snapshots_are_short, write_state};
use alarm_core::{Core, site_fits};
use alarm_journal::Job;
use bac_values::{MOST_EVENTS, NoMemory, SNAPSHOT_OCTETS_LIMIT};
use std::alloc::Global;

/// How many octets a snapshot takes of its area beside its own.
const FRAME: u64 = 5;

// Whether the state after so many events is a snapshot, and one of so many octets fits an area.
fn takes_state(events: u64, length: u64, area: u64) -> bool
    ensures few { IsTrue result → events < most_events }
    ensures short { IsTrue result → length < snapshot_octets_limit }
    ensures fits { IsTrue result → length + 5 ≤ area }
{
    events < MOST_EVENTS && length < SNAPSHOT_OCTETS_LIMIT && length + FRAME <= area
}

/// The state of a core as a snapshot. One that is longer than an area takes, or has no snapshot for the number of its
/// events, is as good as no memory for it.
pub(crate) fn snapshot_of(alloc: Global, core: &Core, area: u64) -> Result<Job, NoMemory>
    ensures snapshot { IfOk result (IsSnapshotOf core.now) }
    ensures some { IfOk result (λ job. 0 < length job) }
    ensures fits { IfOk result (λ job. length job + 5 ≤ area) }
{
    let octets = write_state(alloc, core)?;
    if !takes_state(core.events(), octets.len() as u64, area) {
        return Err(NoMemory);
    }
    site_fits(core.site());
    snapshots_are_short();
    Job::snapshot(alloc, octets.as_slice())
}
