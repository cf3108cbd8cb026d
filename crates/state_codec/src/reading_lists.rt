//! The lists of a snapshot are read, of objects, classes, notifications and records.

ghost use Rattle.state_codec.specs.ReadingSteps.{Gives};
ghost use Rattle.state_codec.specs.SnapshotSteps.{classes_at, each_at, entry_at, note_at, numbers_up_to, row_at, times_at};

use crate::reading::ReadFault;
use crate::reading_rest::{number_back, take_class, take_entry, take_note};
use crate::reading_rows::take_row;
use bac_values::{Note, Peer, push};
use civil_stamp::Zone;
use event_log::LogRecord;
use notify_class::{Class, ClassSite};
use object_table::{ObjectSite, Row};
use std::alloc::Global;

/// Takes the rows of the objects of a site.
pub(crate) fn take_rows(
    alloc: Global,
    sites: Vec<ObjectSite>,
    bytes: &mut &[u8],
) -> Result<Vec<Row>, ReadFault>
    ensures exact { Gives (λ x. (x.items, bytes.new.now)) result (each_at row_at sites.items bytes.old.now) }
{
    let mut rows = Vec::new(alloc);
    let mut left = sites.into_iter();
    while let Some(site) = left.next() {
        let row = take_row(alloc, site, bytes)?;
        push(&mut rows, row)?;
    }
    Ok(rows)
}

/// Takes the classes of a site.
pub(crate) fn take_classes(
    alloc: Global,
    sites: &[ClassSite],
    bytes: &mut &[u8],
) -> Result<Vec<Class>, ReadFault>
    ensures exact { Gives (λ x. (x.items, bytes.new.now)) result (classes_at sites.now bytes.old.now) }
{
    let mut classes = Vec::new(alloc);
    for listed in sites {
        let class = take_class(alloc, &listed.class, bytes)?;
        push(&mut classes, class)?;
    }
    Ok(classes)
}

/// Takes so many notifications to a peer.
pub(crate) fn take_notes(
    alloc: Global,
    peer: Peer,
    count: u16,
    bytes: &mut &[u8],
) -> Result<Vec<Note>, ReadFault>
    ensures exact { Gives (λ x. (x.items, bytes.new.now)) result (times_at (note_at peer) count bytes.old.now) }
{
    let mut notes = Vec::new(alloc);
    for _ in 0..count {
        let note = take_note(alloc, peer, bytes)?;
        push(&mut notes, note)?;
    }
    Ok(notes)
}

/// Takes so many records of a log, of which the last has the total as its number.
pub(crate) fn take_entries(
    alloc: Global,
    has_rule: bool,
    zone: &Zone,
    total: u32,
    count: u32,
    bytes: &mut &[u8],
) -> Result<Vec<LogRecord>, ReadFault>
    ensures exact { Gives (λ x. (x.items, bytes.new.now)) result (each_at (entry_at has_rule zone.now) (numbers_up_to total count) bytes.old.now) }
{
    let mut entries = Vec::new(alloc);
    let mut left = count;
    while left > 0 {
        left -= 1;
        let entry = take_entry(alloc, has_rule, zone, number_back(total, left), bytes)?;
        push(&mut entries, entry)?;
    }
    Ok(entries)
}
