//! What an item of a section is.

ghost use Rattle.toml.specs.View.{table_view};
ghost use Rattle.toml_items.specs.Answers.{Gives};
ghost use Rattle.site_config.specs.Items.{class_item, destination_item, object_item, enrollment_item, log_item, binding_item};

use crate::binding_item::{BindingItem, binding_of};
use crate::class::{ClassItem, class_of};
use crate::destination::{DestinationSite, destination_of};
use crate::enrollment_item::{enrollment_of, keys_of_enrollment};
use crate::keys::Keys;
use crate::log::log_of;
use crate::object::{keys_of_object, object_of};
use alarm_core::{EnrollmentSite, LogSite};
use object_table::ObjectSite;
use std::alloc::Global;
use toml::Table;
use toml_items::{ItemFault, check_keys};

/// An item of a section that is an array of tables.
pub trait Item: Sized + Drop {
    ghost use Rattle.std.specs.Prelude.{Result};
    ghost use Rattle.toml.specs.Data.{Members};
    ghost use Rattle.toml_items.specs.declared.item_fault.ItemFault.{ItemFault as AnItemFault};

    /// The item that a table is, or its first fault.
    ghost item_of: { Members → Result Self AnItemFault };

    /// The item that the table is.
    fn read(alloc: Global, table: &Table) -> Result<Self, ItemFault>
        ensures answer { Gives ItemFault.NoMemory result (item_of (table_view table.now)) };
}

impl Item for ClassItem {
    ghost item_of = { class_item };

    fn read(alloc: Global, table: &Table) -> Result<ClassItem, ItemFault> {
        check_keys(alloc, table, Keys::Class)?;
        class_of(alloc, table)
    }
}

impl Item for DestinationSite {
    ghost item_of = { destination_item };

    fn read(alloc: Global, table: &Table) -> Result<DestinationSite, ItemFault> {
        check_keys(alloc, table, Keys::Destination)?;
        destination_of(alloc, table)
    }
}

impl Item for ObjectSite {
    ghost item_of = { object_item };

    fn read(alloc: Global, table: &Table) -> Result<ObjectSite, ItemFault> {
        check_keys(alloc, table, keys_of_object(table))?;
        object_of(alloc, table)
    }
}

impl Item for EnrollmentSite {
    ghost item_of = { enrollment_item };

    fn read(alloc: Global, table: &Table) -> Result<EnrollmentSite, ItemFault> {
        check_keys(alloc, table, keys_of_enrollment(table))?;
        enrollment_of(alloc, table)
    }
}

impl Item for LogSite {
    ghost item_of = { log_item };

    fn read(alloc: Global, table: &Table) -> Result<LogSite, ItemFault> {
        check_keys(alloc, table, Keys::Log)?;
        log_of(alloc, table)
    }
}

impl Item for BindingItem {
    ghost item_of = { binding_item };

    fn read(alloc: Global, table: &Table) -> Result<BindingItem, ItemFault> {
        check_keys(alloc, table, Keys::Binding)?;
        binding_of(alloc, table)
    }
}
