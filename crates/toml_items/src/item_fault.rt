//! Why an item isn't read.

ghost use Rattle.std.specs.Prelude.{◌≡◌, ◌⊎◌, IfOk};
ghost use Rattle.toml_items.specs.Members.{named};

use bac_values::{NoMemory, Text, TextFault};
use std::alloc::{AllocError, Global};

/// What is wrong with an item, or want of memory.
#[derive(Clone, Debug, Drop, PartialEq)]
pub enum ItemFault {
    /// It has a key that it doesn't know.
    Unknown {
        /// The key.
        key: Text,
    },
    /// It lacks a key that it needs.
    Missing {
        /// The key.
        key: Text,
    },
    /// It has a value that the key can't have.
    BadValue {
        /// The key.
        key: Text,
    },
    /// Memory was refused.
    NoMemory,
}

impl From<NoMemory> for ItemFault {
    ghost use Rattle.std.specs.Prelude.{◌≡◌};
    ghost use Rattle.toml_items.specs.declared.item_fault.ItemFault.TheVariants as item_faults;

    ghost from_gives = { λ _ fault. fault ≡ item_faults.NoMemory };

    fn from(_refused: NoMemory) -> ItemFault {
        ItemFault::NoMemory
    }
}

impl From<AllocError> for ItemFault {
    ghost use Rattle.std.specs.Prelude.{◌≡◌};
    ghost use Rattle.toml_items.specs.declared.item_fault.ItemFault.TheVariants as item_faults;

    ghost from_gives = { λ _ fault. fault ≡ item_faults.NoMemory };

    fn from(_refused: AllocError) -> ItemFault {
        ItemFault::NoMemory
    }
}

/// The name of a key, and the empty text for one of more than 256 octets.
pub fn named(alloc: Global, key: &str) -> Result<Text, NoMemory>
    ensures name { IfOk result (λ text. text ≡ named key.now) }
{
    let source = if key.len() > 256 { "" } else { key };
    match Text::new(alloc, source) {
        Ok(text) => Ok(text),
        Err(TextFault::TooLong { .. }) => Err(NoMemory),
        Err(TextFault::NoMemory) => Err(NoMemory),
    }
}

/// The key isn't known.
pub fn unknown(alloc: Global, key: &str) -> ItemFault
    ensures fault { (result ≡ ItemFault.NoMemory) ⊎ (result ≡ ItemFault.Unknown (named key.now)) }
{
    match named(alloc, key) {
        Ok(key) => ItemFault::Unknown { key },
        Err(NoMemory) => ItemFault::NoMemory,
    }
}

/// The key isn't there.
pub fn missing(alloc: Global, key: &str) -> ItemFault
    ensures fault { (result ≡ ItemFault.NoMemory) ⊎ (result ≡ ItemFault.Missing (named key.now)) }
{
    match named(alloc, key) {
        Ok(key) => ItemFault::Missing { key },
        Err(NoMemory) => ItemFault::NoMemory,
    }
}

/// The key has a bad value.
pub fn bad_value(alloc: Global, key: &str) -> ItemFault
    ensures fault { (result ≡ ItemFault.NoMemory) ⊎ (result ≡ ItemFault.BadValue (named key.now)) }
{
    match named(alloc, key) {
        Ok(key) => ItemFault::BadValue { key },
        Err(NoMemory) => ItemFault::NoMemory,
    }
}
