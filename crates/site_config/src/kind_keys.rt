//! The alarm keys that only some kinds have.

ghost use Rattle.std.specs.Prelude.{◌≡◌, ◌≤◌, [], IfOk, OnOk, All, Some, codes, length};
ghost use Rattle.bac_values.specs.Limits.{most_listed_values};
ghost use Rattle.toml.specs.View.{table_view};
ghost use Rattle.toml_items.specs.Answers.{Gives};
ghost use Rattle.site_config.specs.KindKeys.{limit_keys_of, binary_keys_of, value_keys_of, bits_keys_of, kind_keys_of, no_kind_keys};
ghost use Rattle.toml_items.specs.Members.{required};
ghost use Rattle.site_config.specs.Values.{value_in, bits_in};
ghost use Rattle.toml_items.specs.Lists.{list_in};

use crate::lists::{value_in, values_in};
use crate::members::limit;
use crate::values::bits_in;
use bac_values::{Bits, Items, MOST_LISTED_VALUES, ObjectKind, Value};
use std::alloc::Global;
use toml::Table;
use toml_items::{ItemFault, required_member, two_flags_or_both, unsigned_or, valid_value};

/// The alarm keys that only objects of some kinds have.
#[derive(Drop)]
pub struct KindKeys {
    /// Low_Limit.
    pub low: i64,
    /// High_Limit.
    pub high: i64,
    /// Deadband.
    pub deadband: u32,
    /// Limit_Enable, that of the low limit first.
    pub limit_enable: [bool; 2],
    /// Alarm_Value.
    pub alarm_value: Option<Value>,
    /// Alarm_Values.
    pub alarm_values: Items<Value>,
    /// Bit_Mask.
    pub mask: Option<Bits>,
}

/// None of them.
pub fn no_kind_keys(alloc: Global) -> KindKeys
    ensures none { result ≡ no_kind_keys }
{
    KindKeys {
        low: 0,
        high: 0,
        deadband: 0,
        limit_enable: [false, false],
        alarm_value: None,
        alarm_values: Items::of(Vec::new(alloc)),
        mask: None,
    }
}

/// Those of an integer or a positive integer value.
#[tactic(auto, unfolding(crate::specs::KindKeys::limit_keys_of))]
fn limit_keys_of(alloc: Global, table: &Table, kind: ObjectKind) -> Result<KindKeys, ItemFault>
    ensures answer { Gives ItemFault.NoMemory result (limit_keys_of kind (table_view table.now)) }
{
    let low = limit(alloc, table, "low", kind)?;
    let high = limit(alloc, table, "high", kind)?;
    let deadband = unsigned_or(alloc, table, "deadband", 0, u32::MAX, 0)?;
    let limit_enable = two_flags_or_both(alloc, table, "limit_enable")?;
    Ok(KindKeys {
        low,
        high,
        deadband,
        limit_enable,
        alarm_value: None,
        alarm_values: Items::of(Vec::new(alloc)),
        mask: None,
    })
}

/// That of a binary value.
#[tactic(auto, unfolding(crate::specs::KindKeys::binary_keys_of))]
fn binary_keys_of(alloc: Global, table: &Table) -> Result<KindKeys, ItemFault>
    ensures answer { Gives ItemFault.NoMemory result (binary_keys_of (table_view table.now)) }
{
    let value = required_member(alloc, table, "alarm_value")?;
    let found = value_in(alloc, value, ObjectKind::BinaryValue)?;
    let value = valid_value(alloc, "alarm_value", found)?;
    let none = no_kind_keys(alloc);
    Ok(KindKeys {
        alarm_value: Some(value),
        ..none
    })
}

/// The alarm values of the kind, 1 to `MOST_LISTED_VALUES`.
fn alarm_values(alloc: Global, table: &Table, kind: ObjectKind) -> Result<Items<Value>, ItemFault>
    ensures answer { Gives ItemFault.NoMemory result (required (list_in 1 most_listed_values (value_in kind)) (codes "alarm_values") (table_view table.now)) }
{
    let value = required_member(alloc, table, "alarm_values")?;
    let found = values_in(alloc, value, kind, 1, MOST_LISTED_VALUES)?;
    valid_value(alloc, "alarm_values", found)
}

/// Those of a multi-state or a character string value.
#[tactic(auto, unfolding(crate::specs::KindKeys::value_keys_of))]
fn value_keys_of(alloc: Global, table: &Table, kind: ObjectKind) -> Result<KindKeys, ItemFault>
    ensures answer { Gives ItemFault.NoMemory result (value_keys_of kind (table_view table.now)) }
{
    let alarm_values = alarm_values(alloc, table, kind)?;
    let none = no_kind_keys(alloc);
    Ok(KindKeys {
        alarm_values,
        ..none
    })
}

/// The bits that are compared.
fn mask(alloc: Global, table: &Table) -> Result<Bits, ItemFault>
    ensures answer { Gives ItemFault.NoMemory result (required bits_in (codes "mask") (table_view table.now)) }
{
    let value = required_member(alloc, table, "mask")?;
    valid_value(alloc, "mask", bits_in(value))
}

/// Those of a bit string value.
#[tactic(auto, unfolding(crate::specs::KindKeys::bits_keys_of))]
fn bits_keys_of(alloc: Global, table: &Table) -> Result<KindKeys, ItemFault>
    ensures answer { Gives ItemFault.NoMemory result (bits_keys_of (table_view table.now)) }
{
    let alarm_values = alarm_values(alloc, table, ObjectKind::BitStringValue)?;
    let mask = mask(alloc, table)?;
    let none = no_kind_keys(alloc);
    Ok(KindKeys {
        alarm_values,
        mask: Some(mask),
        ..none
    })
}

/// The alarm keys of objects of the kind.
pub fn kind_keys_of(alloc: Global, table: &Table, kind: ObjectKind) -> Result<KindKeys, ItemFault>
    ensures answer { Gives ItemFault.NoMemory result (kind_keys_of kind (table_view table.now)) }
{
    match kind {
        ObjectKind::IntegerValue | ObjectKind::PositiveIntegerValue => {
            limit_keys_of(alloc, table, kind)
        }
        ObjectKind::BinaryValue => binary_keys_of(alloc, table),
        ObjectKind::MultiStateValue | ObjectKind::CharacterStringValue => {
            value_keys_of(alloc, table, kind)
        }
        ObjectKind::BitStringValue => bits_keys_of(alloc, table),
        _ => Ok(no_kind_keys(alloc)),
    }
}
