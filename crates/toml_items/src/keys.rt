//! Keys that an item doesn't have.

ghost use Rattle.std.specs.Prelude.{◌≡◌, not, find, option_copied, string_bytes};
ghost use Rattle.std.specs.List.{list_any};
ghost use Rattle.std.specs.Map.{keys_of};
ghost use Rattle.std.specs.Str.{bytes_eq};
ghost use Rattle.toml.specs.View.{table_view};
ghost use Rattle.toml_items.specs.Answers.{Gives};
ghost use Rattle.toml_items.specs.Members.{first_unknown, refused_key};

use crate::item_fault::{ItemFault, unknown};
use std::alloc::Global;
use toml::Table;

/// Which keys an item has.
pub trait KnownKeys: Copy + Drop {
    ghost use Rattle.std.specs.Prelude.{List, ℕ, Bool};

    /// Whether it has the key.
    ghost has_key: { Self → List ℕ → Bool };

    /// Whether it has the key.
    fn has(self, key: &str) -> bool
        ensures has { result ≡ has_key self key.now };
}

/// Whether the key is among these.
pub fn is_among(names: &[&str], key: &str) -> bool
    ensures among { result ≡ list_any (λ name. bytes_eq name.now key.now) names.now }
{
    names.iter().any(|name| *name == key)
}

/// The least key of the table that items with these keys don't have.
pub fn unknown_key<K: KnownKeys>(table: &Table, keys: K) -> Option<&String>
    ensures first { option_copied result ≡ find (λ key. not (K.has_key keys (string_bytes key))) (keys_of table.now.entries) }
{
    table.keys().find(|key| !keys.has(key.as_str()))
}

/// Refuses an item that has a key of its own.
#[tactic(auto, using(crate::proofs::FirstUnknown::first_unknown_find))]
pub fn check_keys<K: KnownKeys>(alloc: Global, table: &Table, keys: K) -> Result<(), ItemFault>
    ensures answer { Gives ItemFault.NoMemory result (refused_key (first_unknown (K.has_key keys) (table_view table.now))) }
{
    match unknown_key(table, keys) {
        Some(key) => Err(unknown(alloc, key.as_str())),
        None => Ok(()),
    }
}
