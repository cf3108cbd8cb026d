//! Keys that several sections have.

ghost use Rattle.std.specs.Prelude.{◌≡◌, ◌<◌, codes, IfOk};
ghost use Rattle.toml.specs.View.{table_view};
ghost use Rattle.script_lines.specs.Report.{object_text};
ghost use Rattle.toml_items.specs.Answers.{Gives};
ghost use Rattle.toml_items.specs.Members.{named, required, or_else};
ghost use Rattle.toml_items.specs.Values.{text_in};
ghost use Rattle.site_config.specs.Values.{days_in, limit_in, peer_in};

use crate::values::{days_in, limit_in, peer_in};
use bac_values::{ObjectId, ObjectKind, Peer, Text};
use std::alloc::Global;
use toml::Table;
use toml_items::{ItemFault, member_at, named, required_member, text_in, valid_value};

/// The limit of a value of the kind at a key.
pub fn limit(alloc: Global, table: &Table, key: &str, kind: ObjectKind) -> Result<i64, ItemFault>
    ensures answer { Gives ItemFault.NoMemory result (required (limit_in kind) key.now (table_view table.now)) }
{
    let value = required_member(alloc, table, key)?;
    valid_value(alloc, key, limit_in(value, kind))
}

/// The name of an object, or its identifier's text.
pub fn name_or(alloc: Global, table: &Table, object: ObjectId) -> Result<Text, ItemFault>
    ensures answer { Gives ItemFault.NoMemory result (or_else (named (object_text object)) text_in (codes "name") (table_view table.now)) }
{
    match member_at(table, "name") {
        Some(value) => valid_value(alloc, "name", text_in(alloc, value)?),
        None => {
            let text = script_lines::object_text(alloc, object)?;
            Ok(named(alloc, text.as_str())?)
        }
    }
}

/// The peer at the key `address`.
pub fn address(alloc: Global, table: &Table) -> Result<Peer, ItemFault>
    ensures answer { Gives ItemFault.NoMemory result (required peer_in (codes "address") (table_view table.now)) }
{
    let value = required_member(alloc, table, "address")?;
    valid_value(alloc, "address", peer_in(value))
}

/// The days of the week at a key, or all of them.
pub fn days_or_all(alloc: Global, table: &Table, key: &str) -> Result<u8, ItemFault>
    ensures answer { Gives ItemFault.NoMemory result (or_else 127 days_in key.now (table_view table.now)) }
    ensures range { IfOk result (λ days. days < 128) }
{
    match member_at(table, key) {
        Some(value) => valid_value(alloc, key, days_in(value)),
        None => Ok(127),
    }
}
