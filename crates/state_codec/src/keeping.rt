//! Events that a core has taken are written, in one commit.

ghost use Rattle.std.specs.Prelude.{◌≡◌, ◌≢◌, ◌≤◌, List, [], ◌∷◌, ◌++◌, MatchResult, IfErr, IfOk, length, reverse};
ghost use Rattle.bac_values.specs.Limits.{most_batch_octets};
ghost use Rattle.ground_io.specs.Counts.{HasCause};
ghost use Rattle.alarm_journal.specs.Journal.{Site as Journal};
ghost use Rattle.alarm_core.specs.Allowed.{Represents};
ghost use Rattle.alarm_core.specs.declared.event.Event.{Event as Happening};
ghost use Rattle.state_codec.specs.Records.{HasRecord};
ghost use Rattle.state_codec.specs.declared.keep_fault.KeepFault.TheVariants as faults;
ghost use Rattle.state_codec.specs.Emission.{Emits};
ghost use Rattle.state_codec.specs.Keeping.{AreRecordsOf, Commits, HoldsHistory};

use crate::work::{work_of, write_work};
use crate::{KeepFault, records_are_short, write_event};
use alarm_core::{Core, Event, event_fits};
use alarm_journal::Press;
use bac_values::NoMemory;
use ground_io::Ground;
use std::alloc::Global;

/// Commits events that a core has taken, whose records are given, the oldest first: as one batch, or the core's state as a
/// snapshot where they are longer than the room. Nothing is written where there are none. An `Err` gives the ground back.
pub fn keep_events<G: Ground>(
    alloc: Global,
    press: Press<G>,
    core: &Core,
    records: &[u8],
) -> Result<Press<G>, (G, KeepFault)>
    requires few { length records.now ≤ most_batch_octets }

    // Where the core represents a history with the events of these records, the press then holds that; and a crash at any
    // moment leaves what it held before, or that.
    ensures holds { (journal : Journal) (events older : List Happening) → AreRecordsOf records.now events → Represents core.now (reverse events ++ older) → HoldsHistory journal core.now.site older press.layout (G.told press.device)
        → IfOk result (λ kept. HoldsHistory journal core.now.site (reverse events ++ older) kept.layout (G.told kept.device)) }
    ensures keeps { (journal : Journal) (events older : List Happening) → AreRecordsOf records.now events → Represents core.now (reverse events ++ older) → HoldsHistory journal core.now.site older press.layout (G.told press.device)
        → MatchResult result
        (λ kept. Commits journal core.now.site older (reverse events ++ older) (G.told press.device) (G.told kept.device))
        (λ lost. Commits journal core.now.site older (reverse events ++ older) (G.told press.device) (G.told lost.0)) }
    ensures unwritten { IfErr result (λ lost. lost.1 ≡ faults.NoMemory → lost.0 ≡ press.device) }
    ensures quiet { MatchResult result (λ kept. Emits (G.told press.device) (G.told kept.device) []) (λ lost. Emits (G.told press.device) (G.told lost.0) []) }
    ensures cause { MatchResult result
        (λ kept. G.disk_faults kept.device ≡ G.disk_faults press.device)
        (λ lost. HasCause (G.disk_faults press.device) (G.disk_faults lost.0) (lost.1 ≡ faults.DiskFault)) }
    ensures unhidden { IfErr result (λ lost. lost.1 ≢ faults.DiskFault → G.disk_faults lost.0 ≡ G.disk_faults press.device) }
    ensures same { MatchResult result (λ kept. G.size kept.device ≡ G.size press.device) (λ lost. G.size lost.0 ≡ G.size press.device) }
    ensures emitted { MatchResult result (λ kept. G.emit_faults kept.device ≡ G.emit_faults press.device) (λ lost. G.emit_faults lost.0 ≡ G.emit_faults press.device) }
{
    match work_of(alloc, core, &press, records) {
        Ok(work) => match write_work(press, work) {
            Ok(press) => Ok(press),
            Err(device) => Err((device, KeepFault::DiskFault)),
        },
        Err(NoMemory) => Err((press.into_ground(), KeepFault::NoMemory)),
    }
}

/// Commits an event that a core has taken: its record as a batch of its own, or the core's state as a snapshot where the
/// record is longer than the room. An `Err` gives the ground back.
pub fn keep_event<G: Ground>(
    alloc: Global,
    press: Press<G>,
    core: &Core,
    event: &Event,
) -> Result<Press<G>, (G, KeepFault)>
    requires record { HasRecord event.now }

    // Where the core represents a history with the event, the press then holds that; and a crash at any moment leaves what
    // it held before, or that.
    ensures holds { (journal : Journal) (older : List Happening) → Represents core.now (event.now ∷ older) → HoldsHistory journal core.now.site older press.layout (G.told press.device)
        → IfOk result (λ kept. HoldsHistory journal core.now.site (event.now ∷ older) kept.layout (G.told kept.device)) }
    ensures keeps { (journal : Journal) (older : List Happening) → Represents core.now (event.now ∷ older) → HoldsHistory journal core.now.site older press.layout (G.told press.device)
        → MatchResult result
        (λ kept. Commits journal core.now.site older (event.now ∷ older) (G.told press.device) (G.told kept.device))
        (λ lost. Commits journal core.now.site older (event.now ∷ older) (G.told press.device) (G.told lost.0)) }
    ensures unwritten { IfErr result (λ lost. lost.1 ≡ faults.NoMemory → lost.0 ≡ press.device) }
    ensures quiet { MatchResult result (λ kept. Emits (G.told press.device) (G.told kept.device) []) (λ lost. Emits (G.told press.device) (G.told lost.0) []) }
    ensures cause { MatchResult result
        (λ kept. G.disk_faults kept.device ≡ G.disk_faults press.device)
        (λ lost. HasCause (G.disk_faults press.device) (G.disk_faults lost.0) (lost.1 ≡ faults.DiskFault)) }
    ensures unhidden { IfErr result (λ lost. lost.1 ≢ faults.DiskFault → G.disk_faults lost.0 ≡ G.disk_faults press.device) }
    ensures same { MatchResult result (λ kept. G.size kept.device ≡ G.size press.device) (λ lost. G.size lost.0 ≡ G.size press.device) }
    ensures emitted { MatchResult result (λ kept. G.emit_faults kept.device ≡ G.emit_faults press.device) (λ lost. G.emit_faults lost.0 ≡ G.emit_faults press.device) }
{
    let octets = match write_event(alloc, event) {
        Ok(octets) => octets,
        Err(NoMemory) => return Err((press.into_ground(), KeepFault::NoMemory)),
    };
    records_are_short();
    event_fits(event);
    keep_events(alloc, press, core, octets.as_slice())
}
