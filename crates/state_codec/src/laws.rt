//! The laws of records and snapshots.

ghost use Rattle.std.specs.Prelude.{◌≡◌, IfErr, IfOk};
ghost use Rattle.alarm_core.specs.SiteStates.{IsStateOf};
ghost use Rattle.alarm_core.specs.Sites.{IsSite};
ghost use Rattle.state_codec.specs.Laws.{BoundsAreLow, DamageByHistories, HasRecordWhereAllowed, LeadsOnce, OneSnapshot, OneSpelling, RecordsAreShort, SnapshotsAreShort};
ghost use Rattle.state_codec.specs.Spelled.{FitsState};

use crate::CodecFault;
use crate::reading_state::read_state;
use crate::types::event_fits;
use crate::writing_state::write_state;
use alarm_core::{Core, Event, Site, restores_what_it_tells};
use outbox::tests_posts;
use std::alloc::Global;

/// Each event has one record, no two events have the same one, and no record begins another.
pub fn records_have_one_spelling()
    ensures spelling { OneSpelling }
{}

/// No record is longer than that of an edit with 32 recipients.
pub fn records_are_short()
    ensures short { RecordsAreShort }
{}

/// An event that may come next in some state, at a moment in range, has a record. The call does nothing.
pub fn allowed_event_has_record(event: &Event)
    ensures allowed { HasRecordWhereAllowed event.now }
{
    event_fits(event);
}

/// No snapshot is longer than the bound of its site, and none is empty.
pub fn snapshots_are_short()
    ensures short { SnapshotsAreShort }
{}

/// No site needs 36,000,000 octets for a snapshot, nor 72,000,000 for its device.
pub fn bounds_are_low()
    ensures low { BoundsAreLow }
{}

/// No two states of a site have the same snapshot, and no state has two.
pub fn snapshots_have_one_spelling()
    ensures spelling { OneSnapshot }
{
    tests_posts();
    restores_what_it_tells();
}

/// What was opened leads to one state of its site at most, and where it does it is damaged nowhere.
pub fn contents_lead_once()
    ensures once { LeadsOnce }
{
    tests_posts();
    restores_what_it_tells();
}

/// Damage by states is damage by histories, where the snapshot is that of the state after one.
pub fn damage_is_told_by_histories()
    ensures told { DamageByHistories }
{
    tests_posts();
    restores_what_it_tells();
}

/// What is read of the snapshot of a core is that core again, where its state is one of the site; or memory is refused. It
/// writes the snapshot, and reads it.
pub fn reads_what_it_writes(alloc: Global, site: &Site, core: &Core) -> Result<Core, CodecFault>
    requires site { IsSite site.now }
    requires own { IsStateOf site.now core.now }
    requires types { FitsState core.now }
    ensures again { IfOk result (λ read. read ≡ core.now) }
    ensures memory { IfErr result (λ fault. fault ≡ CodecFault.NoMemory) }
{
    match write_state(alloc, core) {
        Ok(octets) => read_state(alloc, site, &octets),
        Err(_) => Err(CodecFault::NoMemory),
    }
}
