//! An item of the section `binding`.

ghost use Rattle.toml.specs.View.{table_view};
ghost use Rattle.toml_items.specs.Answers.{Gives};
ghost use Rattle.site_config.specs.Bindings.{binding_of};

use crate::members::address;
use crate::objects::identifier;
use crate::values::LAST_INSTANCE;
use bac_values::{ObjectId, ObjectKind, Peer};
use std::alloc::Global;
use toml::Table;
use toml_items::{ItemFault, unsigned};

/// A device, and the peer at which it is.
#[derive(Clone, Copy)]
pub struct BindingItem {
    /// The identifier of the device.
    pub object: ObjectId,
    /// The peer.
    pub peer: Peer,
}

/// The binding of a table, whose keys are all known.
#[tactic(auto, unfolding(crate::specs::Bindings::binding_of))]
pub fn binding_of(alloc: Global, table: &Table) -> Result<BindingItem, ItemFault>
    ensures answer { Gives ItemFault.NoMemory result (binding_of (table_view table.now)) }
{
    let device = unsigned(alloc, table, "device", 0, LAST_INSTANCE)?;
    let peer = address(alloc, table)?;
    Ok(BindingItem {
        object: identifier(ObjectKind::Device, device),
        peer,
    })
}
