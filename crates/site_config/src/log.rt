//! An item of the section `log`.

ghost use Rattle.std.specs.Prelude.{codes};
ghost use Rattle.bac_values.specs.Limits.{most_classes};
ghost use Rattle.toml.specs.View.{table_view};
ghost use Rattle.toml_items.specs.Answers.{Gives};
ghost use Rattle.site_config.specs.Logs.{log_of};
ghost use Rattle.toml_items.specs.Members.{required};
ghost use Rattle.toml_items.specs.Lists.{list_in};
ghost use Rattle.site_config.specs.Values.{instance_in};

use crate::members::name_or;
use crate::objects::identifier;
use crate::values::LAST_INSTANCE;
use alarm_core::LogSite;
use bac_values::{Items, MOST_CLASSES, MOST_RECORDS, ObjectKind};
use std::alloc::Global;
use toml::Table;
use toml_items::{ItemFault, required_member, truth_or, unsigned, unsigned_list_in, valid_value};

/// The classes whose notifications are recorded.
fn classes(alloc: Global, table: &Table) -> Result<Items<u32>, ItemFault>
    ensures answer { Gives ItemFault.NoMemory result (required (list_in 1 most_classes instance_in) (codes "classes") (table_view table.now)) }
{
    let value = required_member(alloc, table, "classes")?;
    let found = unsigned_list_in(alloc, value, 1, MOST_CLASSES, LAST_INSTANCE)?;
    valid_value(alloc, "classes", found)
}

/// The log of a table, whose keys are all known.
#[tactic(auto, unfolding(crate::specs::Logs::log_of))]
pub fn log_of(alloc: Global, table: &Table) -> Result<LogSite, ItemFault>
    ensures answer { Gives ItemFault.NoMemory result (log_of (table_view table.now)) }
{
    let instance = unsigned(alloc, table, "instance", 0, LAST_INSTANCE)?;
    let object = identifier(ObjectKind::EventLog, instance);
    let name = name_or(alloc, table, object)?;
    let size = unsigned(alloc, table, "size", 1, MOST_RECORDS)?;
    let stop_when_full = truth_or(alloc, table, "stop_when_full", false)?;
    let enable = truth_or(alloc, table, "enable", true)?;
    let classes = classes(alloc, table)?;
    Ok(LogSite {
        object,
        name,
        size,
        stop_when_full,
        enable,
        classes,
    })
}
