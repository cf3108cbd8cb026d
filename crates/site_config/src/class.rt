//! An item of the section `class`.

ghost use Rattle.std.specs.Prelude.{false, [], ◌∷◌, codes};
ghost use Rattle.toml.specs.Data.{as_bool};
ghost use Rattle.toml.specs.View.{table_view};
ghost use Rattle.toml_items.specs.Answers.{Gives};
ghost use Rattle.site_config.specs.Classes.{class_of};
ghost use Rattle.toml_items.specs.Members.{required, or_else};
ghost use Rattle.toml_items.specs.Values.{unsigned_in};
ghost use Rattle.toml_items.specs.Lists.{three_in};

use crate::members::name_or;
use crate::objects::identifier;
use crate::values::LAST_INSTANCE;
use bac_values::{ObjectId, ObjectKind, Text};
use std::alloc::Global;
use toml::Table;
use toml_items::{
    ItemFault, member_at, required_member, three_octets_in, three_truths_in, unsigned, valid_value,
};

/// A class, whose destinations stand in a section of their own.
#[derive(Drop)]
pub struct ClassItem {
    /// Its identifier.
    pub object: ObjectId,
    /// Its name.
    pub name: Text,
    /// The priority of notifications of each kind of transition.
    pub priority: [u8; 3],
    /// Whether transitions of each kind ask for an acknowledgement.
    pub ack_required: [bool; 3],
}

/// The priorities of the notifications of a class.
fn priority(alloc: Global, table: &Table) -> Result<[u8; 3], ItemFault>
    ensures answer { Gives ItemFault.NoMemory result (required (three_in (unsigned_in 0 255)) (codes "priority") (table_view table.now)) }
{
    let value = required_member(alloc, table, "priority")?;
    valid_value(alloc, "priority", three_octets_in(value))
}

/// Whether transitions ask for an acknowledgement.
fn ack_required(alloc: Global, table: &Table) -> Result<[bool; 3], ItemFault>
    ensures answer { Gives ItemFault.NoMemory result (or_else (false ∷ false ∷ false ∷ []) (three_in as_bool) (codes "ack_required") (table_view table.now)) }
{
    match member_at(table, "ack_required") {
        Some(value) => valid_value(alloc, "ack_required", three_truths_in(value)),
        None => Ok([false, false, false]),
    }
}

/// The class of a table, whose keys are all known.
#[tactic(auto, unfolding(crate::specs::Classes::class_of))]
pub fn class_of(alloc: Global, table: &Table) -> Result<ClassItem, ItemFault>
    ensures answer { Gives ItemFault.NoMemory result (class_of (table_view table.now)) }
{
    let instance = unsigned(alloc, table, "instance", 0, LAST_INSTANCE)?;
    let object = identifier(ObjectKind::NotificationClass, instance);
    let name = name_or(alloc, table, object)?;
    let priority = priority(alloc, table)?;
    let ack_required = ack_required(alloc, table)?;
    Ok(ClassItem {
        object,
        name,
        priority,
        ack_required,
    })
}
