//! Whether there is too much of something.

ghost use Rattle.std.specs.Prelude.{◌≡◌, ◌≤◌, nat_lt, length, sum_by, IfOk};
ghost use Rattle.bac_values.specs.Limits.{most_logs, most_records};
ghost use Rattle.toml_items.specs.Answers.{Gives};
ghost use Rattle.site_config.specs.Limits.{count_of, are_crowded, size_of, limits_of};

use crate::counts::{count_in, counts_of};
use crate::destination::DestinationSite;
use crate::draft::Draft;
use crate::fault::{Counted, Section, SiteFault};
use alarm_core::LogSite;
use bac_values::{
    MOST_BINDINGS, MOST_CLASSES, MOST_DESTINATIONS, MOST_LOGS, MOST_OBJECTS, MOST_RECORDS, NoMemory,
};
use std::alloc::Global;

/// How many destinations the class has.
pub fn count_of(class: u32, destinations: &[DestinationSite]) -> usize
    ensures count { result ≡ count_of class destinations.now }
{
    destinations
        .iter()
        .filter(|site| site.class.instance() == class)
        .count()
}

/// Whether more destinations name one class than a class may have.
fn are_crowded(alloc: Global, destinations: &[DestinationSite]) -> Result<bool, NoMemory>
    ensures crowded { IfOk result (λ crowded. crowded ≡ are_crowded destinations.now) }
{
    let counts = counts_of(alloc, destinations)?;
    Ok(
        destinations.iter().any(|site| count_in(&counts, site.class.instance())
            > MOST_DESTINATIONS as u64),
    )
}

/// Whether the logs have room for more records together than logs may have.
fn are_large(logs: &[LogSite]) -> bool
    requires { length logs.now ≤ most_logs }
    ensures large { result ≡ nat_lt most_records (sum_by size_of logs.now) }
{
    let mut total: u64 = 0;
    for log in logs {
        total += u64::from(log.size);
    }
    total > u64::from(MOST_RECORDS)
}

/// There are too many items of a section.
fn too_many(section: Section) -> SiteFault
    ensures fault { result ≡ SiteFault.TooMany (Counted.Section section) }
{
    SiteFault::TooMany {
        what: Counted::Section(section),
    }
}

/// Whether there is too much of something, section by section, and then of the records of logs.
pub fn limits_of(alloc: Global, draft: &Draft) -> Result<(), SiteFault>
    ensures verdict { Gives SiteFault.NoMemory result (limits_of draft.now) }
{
    let objects = draft.objects.as_slice().len();
    if draft.classes.as_slice().len() > MOST_CLASSES {
        return Err(too_many(Section::Class));
    }
    if are_crowded(alloc, draft.destinations.as_slice())? {
        return Err(too_many(Section::Destination));
    }
    if objects > MOST_OBJECTS {
        return Err(too_many(Section::Object));
    }
    if draft.enrollments.as_slice().len() > MOST_OBJECTS - objects {
        return Err(too_many(Section::Enrollment));
    }
    if draft.logs.as_slice().len() > MOST_LOGS {
        return Err(too_many(Section::Log));
    }
    if draft.bindings.as_slice().len() > MOST_BINDINGS {
        return Err(too_many(Section::Binding));
    }
    if are_large(draft.logs.as_slice()) {
        return Err(SiteFault::TooMany {
            what: Counted::Records,
        });
    }
    Ok(())
}
