//! An item of the section `destination`.

ghost use Rattle.toml.specs.View.{table_view};
ghost use Rattle.toml_items.specs.Answers.{Gives};
ghost use Rattle.site_config.specs.Destinations.{destination_of};

use crate::members::{address, days_or_all};
use crate::objects::identifier;
use crate::values::LAST_INSTANCE;
use bac_values::{ObjectId, ObjectKind};
use notify_class::Destination;
use std::alloc::Global;
use toml::Table;
use toml_items::{ItemFault, three_flags_or_all, time_or, truth_or, unsigned, unsigned_or};

/// A destination, and the class to which it belongs.
#[derive(Clone, Copy)]
pub struct DestinationSite {
    /// The class.
    pub class: ObjectId,
    /// The destination.
    pub destination: Destination,
}

/// The destination of a table, whose keys are all known.
#[tactic(auto, unfolding(crate::specs::Destinations::destination_of))]
pub fn destination_of(alloc: Global, table: &Table) -> Result<DestinationSite, ItemFault>
    ensures answer { Gives ItemFault.NoMemory result (destination_of (table_view table.now)) }
{
    let class = unsigned(alloc, table, "class", 0, LAST_INSTANCE)?;
    let peer = address(alloc, table)?;
    let process = unsigned_or(alloc, table, "process", 0, u32::MAX, 0)?;
    let days = days_or_all(alloc, table, "days")?;
    let from = time_or(alloc, table, "from", 0)?;
    let to = time_or(alloc, table, "to", 8_639_999)?;
    let confirmed = truth_or(alloc, table, "confirmed", false)?;
    let transitions = three_flags_or_all(alloc, table, "transitions")?;
    Ok(DestinationSite {
        class: identifier(ObjectKind::NotificationClass, class),
        destination: Destination {
            days,
            from,
            to,
            peer,
            process,
            confirmed,
            transitions,
        },
    })
}
