//! The logs of a snapshot are read.

ghost use Rattle.std.specs.Prelude.{◌≡◌, IfOk, Some, length, true};
ghost use Rattle.std.specs.Int.{w32};
ghost use Rattle.event_log.specs.Log.{AreNumbered};
ghost use Rattle.state_codec.specs.ReadingSteps.{Gives, number_at};
ghost use Rattle.state_codec.specs.SnapshotSteps.{each_at, entry_at, kept_with, log_at, may_hold, numbers_up_to, where_at};

use crate::parts::{take_flag, take_u32};
use crate::reading::ReadFault;
use crate::reading_lists::take_entries;
use crate::reading_rest::may_hold;
use civil_stamp::Zone;
use event_log::{EventLog, LogRecord, LogSite};
use std::alloc::Global;

/// Takes how many records a log of a size has, where it may hold so many.
fn take_count(size: u32, total: u32, bytes: &mut &[u8]) -> Result<u32, ReadFault>
    ensures exact { Gives (λ x. (x, bytes.new.now)) result (where_at (number_at w32) (may_hold size total) bytes.old.now) }
    ensures held { IfOk result (λ count. may_hold size total count ≡ true) }
{
    let count = take_u32(bytes)?;
    if may_hold(size, total, count) {
        Ok(count)
    } else {
        Err(ReadFault::NothingThere)
    }
}

/// Takes so many records of a log, which have their numbers.
fn take_records(
    alloc: Global,
    has_rule: bool,
    zone: &Zone,
    total: u32,
    count: u32,
    bytes: &mut &[u8],
) -> Result<Vec<LogRecord>, ReadFault>
    ensures exact { Gives (λ x. (x.items, bytes.new.now)) result (each_at (entry_at has_rule zone.now) (numbers_up_to total count) bytes.old.now) }
    ensures numbered { IfOk result (λ x. AreNumbered total x.items × (length x.items ≡ count)) }
{
    take_entries(alloc, has_rule, zone, total, count, bytes)
}

/// A log of a site with its records.
#[tactic(auto, using(crate::proofs::LogsHeld::is_log))]
fn restored(
    alloc: Global,
    listed: &LogSite,
    enabled: bool,
    total: u32,
    records: Vec<LogRecord>,
) -> Result<EventLog, ReadFault>
    requires held { may_hold listed.now.size total (length records.items) ≡ true }
    requires numbered { AreNumbered total records.items }
    ensures exact { Gives (λ x. x) result (Some (record { size = listed.now.size; stops = listed.now.stop_when_full; enabled = enabled; total = total; records = records.items })) }
{
    let size = listed.size;
    match EventLog::restore(alloc, size, listed.stop_when_full, enabled, total, records) {
        Ok(log) => Ok(log),
        Err(_) => Err(ReadFault::NoMemory),
    }
}

/// Takes what a log of a site holds.
#[tactic(auto, unfolding(crate::specs::SnapshotSteps::log_at, crate::specs::SnapshotSteps::entries_at))]
pub(crate) fn take_log(
    alloc: Global,
    has_rule: bool,
    zone: &Zone,
    listed: &LogSite,
    bytes: &mut &[u8],
) -> Result<EventLog, ReadFault>
    ensures exact { Gives (λ x. (kept_with listed.now x, bytes.new.now)) result (log_at has_rule zone.now listed.now bytes.old.now) }
{
    let enabled = take_flag(bytes)?;
    let total = take_u32(bytes)?;
    let count = take_count(listed.size, total, bytes)?;
    let records = take_records(alloc, has_rule, zone, total, count, bytes)?;
    restored(alloc, listed, enabled, total, records)
}
