//! The keys of an object's faults.

ghost use Rattle.std.specs.Prelude.{◌≡◌, ◌≤◌, [], IfOk, codes};
ghost use Rattle.bac_values.specs.Limits.{most_listed_values};
ghost use Rattle.toml.specs.View.{table_view};
ghost use Rattle.toml_items.specs.Answers.{Gives};
ghost use Rattle.site_config.specs.FaultKeys.{state_number, fault_limits_of, state_fault_keys_of, text_fault_keys_of, limit_fault_keys_of, fault_keys_of, no_fault_keys};
ghost use Rattle.toml_items.specs.Members.{or_else};
ghost use Rattle.site_config.specs.Values.{value_in};
ghost use Rattle.toml_items.specs.Lists.{list_in};

use crate::lists::values_in;
use crate::members::limit;
use bac_values::{Items, MOST_LISTED_VALUES, ObjectKind, Value};
use std::alloc::Global;
use toml::Table;
use toml_items::{ItemFault, member_at, unsigned, valid_value};

/// The keys of an object of some kinds that have to do with its faults, and with the states among which it is.
#[derive(Drop)]
pub struct FaultKeys {
    /// Number_Of_States.
    pub states: u32,
    /// The least value that is no fault.
    pub fault_low: Option<i64>,
    /// The greatest value that is no fault.
    pub fault_high: Option<i64>,
    /// Fault_Values.
    pub fault_values: Items<Value>,
}

/// None of them.
fn no_fault_keys(alloc: Global) -> FaultKeys
    ensures none { result ≡ no_fault_keys }
{
    FaultKeys {
        states: 0,
        fault_low: None,
        fault_high: None,
        fault_values: Items::of(Vec::new(alloc)),
    }
}

/// At most `MOST_LISTED_VALUES` fault values of the kind, or none.
fn fault_values(alloc: Global, table: &Table, kind: ObjectKind) -> Result<Items<Value>, ItemFault>
    ensures answer { Gives ItemFault.NoMemory result (or_else [] (list_in 0 most_listed_values (value_in kind)) (codes "fault_values") (table_view table.now)) }
{
    match member_at(table, "fault_values") {
        Some(value) => valid_value(
            alloc,
            "fault_values",
            values_in(alloc, value, kind, 0, MOST_LISTED_VALUES)?,
        ),
        None => Ok(Items::of(Vec::new(alloc))),
    }
}

/// The number of a state.
fn state_number(value: &Value) -> u32
    ensures number { result ≡ state_number value.now }
{
    match value {
        Value::Unsigned(number) => *number,
        _ => 0,
    }
}

/// Those of a multi-state value.
#[tactic(auto, unfolding(crate::specs::FaultKeys::state_fault_keys_of))]
fn state_fault_keys_of(alloc: Global, table: &Table, value: &Value) -> Result<FaultKeys, ItemFault>
    ensures answer { Gives ItemFault.NoMemory result (state_fault_keys_of value.now (table_view table.now)) }
{
    let states = unsigned(alloc, table, "states", state_number(value), u32::MAX)?;
    let fault_values = fault_values(alloc, table, ObjectKind::MultiStateValue)?;
    Ok(FaultKeys {
        states,
        fault_low: None,
        fault_high: None,
        fault_values,
    })
}

/// That of a character string value.
#[tactic(auto, unfolding(crate::specs::FaultKeys::text_fault_keys_of))]
fn text_fault_keys_of(alloc: Global, table: &Table) -> Result<FaultKeys, ItemFault>
    ensures answer { Gives ItemFault.NoMemory result (text_fault_keys_of (table_view table.now)) }
{
    let fault_values = fault_values(alloc, table, ObjectKind::CharacterStringValue)?;
    Ok(FaultKeys {
        states: 0,
        fault_low: None,
        fault_high: None,
        fault_values,
    })
}

/// Both fault limits, or none.
#[tactic(auto, unfolding(crate::specs::FaultKeys::fault_limits_of))]
fn fault_limits_of(
    alloc: Global,
    table: &Table,
    kind: ObjectKind,
) -> Result<(Option<i64>, Option<i64>), ItemFault>
    ensures answer { Gives ItemFault.NoMemory result (fault_limits_of kind (table_view table.now)) }
{
    if member_at(table, "fault_low").is_none() && member_at(table, "fault_high").is_none() {
        return Ok((None, None));
    }
    let low = limit(alloc, table, "fault_low", kind)?;
    let high = limit(alloc, table, "fault_high", kind)?;
    Ok((Some(low), Some(high)))
}

/// Those of an integer or a positive integer value.
#[tactic(auto, unfolding(crate::specs::FaultKeys::limit_fault_keys_of))]
fn limit_fault_keys_of(
    alloc: Global,
    table: &Table,
    kind: ObjectKind,
) -> Result<FaultKeys, ItemFault>
    ensures answer { Gives ItemFault.NoMemory result (limit_fault_keys_of kind (table_view table.now)) }
{
    let (fault_low, fault_high) = fault_limits_of(alloc, table, kind)?;
    Ok(FaultKeys {
        states: 0,
        fault_low,
        fault_high,
        fault_values: Items::of(Vec::new(alloc)),
    })
}

/// Those of objects of the kind with the value.
pub fn fault_keys_of(
    alloc: Global,
    table: &Table,
    kind: ObjectKind,
    value: &Value,
) -> Result<FaultKeys, ItemFault>
    ensures answer { Gives ItemFault.NoMemory result (fault_keys_of kind value.now (table_view table.now)) }
{
    match kind {
        ObjectKind::MultiStateValue => state_fault_keys_of(alloc, table, value),
        ObjectKind::CharacterStringValue => text_fault_keys_of(alloc, table),
        ObjectKind::IntegerValue | ObjectKind::PositiveIntegerValue => {
            limit_fault_keys_of(alloc, table, kind)
        }
        _ => Ok(no_fault_keys(alloc)),
    }
}
