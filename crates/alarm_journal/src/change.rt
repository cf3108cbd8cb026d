//! What two writes bring onto a device.

ghost use Rattle.std.specs.Prelude.{◌≡◌};
ghost use Rattle.alarm_journal.specs.declared.change.Change.TheVariants as changes;

use crate::{Job, Layout};

/// What two writes bring onto a device: octets, and then the gate or the selector by which they count.
#[derive(Clone, Copy)]
pub(crate) enum Change<'a> {
    /// The beginning of a site's journal, on a blank device that must have at least so many octets.
    Beginning { text: &'a [u8], need: u64 },
    /// A batch behind what stands.
    Batch { layout: Layout, job: &'a Job },
    /// A snapshot in the place of all that stands.
    Snapshot { layout: Layout, job: &'a Job },
}

impl<'a> Change<'a> {
    /// The beginning of a site's journal.
    pub(crate) fn beginning(text: &'a [u8], need: u64) -> Change<'a>
        ensures made { result ≡ changes.Beginning text.entry need }
    {
        Change::Beginning { text, need }
    }

    /// A batch.
    pub(crate) fn batch(layout: Layout, job: &'a Job) -> Change<'a>
        ensures made { result ≡ changes.Batch layout job.entry }
    {
        Change::Batch { layout, job }
    }

    /// A snapshot.
    pub(crate) fn snapshot(layout: Layout, job: &'a Job) -> Change<'a>
        ensures made { result ≡ changes.Snapshot layout job.entry }
    {
        Change::Snapshot { layout, job }
    }
}
