//! Values at a key, needed or with a default.

ghost use Rattle.std.specs.Prelude.{◌≡◌, ◌≤◌, ◌<◌, ◌≤ℤ◌, pos, true, [], ◌∷◌, Some, option_map, IfOk};
ghost use Rattle.toml.specs.Data.{get_member, as_bool};
ghost use Rattle.toml.specs.View.{table_view, view};
ghost use Rattle.bac_values.specs.Moments.{IsMoment};
ghost use Rattle.toml_items.specs.Answers.{Gives, GivesSeen};
ghost use Rattle.toml_items.specs.Members.{valid_value, required_member, required, or_else, optional};
ghost use Rattle.toml_items.specs.Values.{whole_in, unsigned_in, moment_in, three_flags_in, two_flags_in, time_in};

use crate::item_fault::{ItemFault, bad_value, missing};
use crate::values::{moment_in, three_flags_in, time_in, two_flags_in, unsigned_in, whole_in};
use std::alloc::Global;
use toml::{Table, Value};

/// The value at a key.
pub fn member_at<'a>(table: &'a Table, key: &str) -> Option<&'a Value>
    ensures member { option_map (λ v. view v.now) result ≡ get_member key.now (table_view table.now) }
{
    table.get(key)
}

/// What the value of a key says, if it can be that.
pub fn valid_value<T>(alloc: Global, key: &str, found: Option<T>) -> Result<T, ItemFault>
where
    T: Drop,
    ensures answer { Gives ItemFault.NoMemory result (valid_value key.now found) }
    ensures same { IfOk result (λ value. found ≡ Some value) }
{
    match found {
        Some(value) => Ok(value),
        None => Err(bad_value(alloc, key)),
    }
}

/// The value at a key that has to be there.
pub fn required_member<'a>(
    alloc: Global,
    table: &'a Table,
    key: &str,
) -> Result<&'a Value, ItemFault>
    ensures answer { GivesSeen (λ v. view v.now) ItemFault.NoMemory result (required_member key.now (get_member key.now (table_view table.now))) }
{
    match member_at(table, key) {
        Some(value) => Ok(value),
        None => Err(missing(alloc, key)),
    }
}

/// The number without a sign at a key.
pub fn unsigned(
    alloc: Global,
    table: &Table,
    key: &str,
    least: u32,
    most: u32,
) -> Result<u32, ItemFault>
    ensures answer { Gives ItemFault.NoMemory result (required (unsigned_in least most) key.now (table_view table.now)) }
    ensures range { IfOk result (λ n. (least ≤ n) × (n ≤ most)) }
{
    let value = required_member(alloc, table, key)?;
    valid_value(alloc, key, unsigned_in(value, least, most))
}

/// The number without a sign at a key, or the usual one.
pub fn unsigned_or(
    alloc: Global,
    table: &Table,
    key: &str,
    least: u32,
    most: u32,
    usual: u32,
) -> Result<u32, ItemFault>
    requires low { least ≤ usual }
    requires high { usual ≤ most }
    ensures answer { Gives ItemFault.NoMemory result (or_else usual (unsigned_in least most) key.now (table_view table.now)) }
    ensures range { IfOk result (λ n. (least ≤ n) × (n ≤ most)) }
{
    match member_at(table, key) {
        Some(value) => valid_value(alloc, key, unsigned_in(value, least, most)),
        None => Ok(usual),
    }
}

/// The number without a sign at a key, if it is there.
pub fn optional_unsigned(
    alloc: Global,
    table: &Table,
    key: &str,
    most: u32,
) -> Result<Option<u32>, ItemFault>
    ensures answer { Gives ItemFault.NoMemory result (optional (unsigned_in 0 most) key.now (table_view table.now)) }
{
    match member_at(table, key) {
        Some(value) => Ok(Some(valid_value(alloc, key, unsigned_in(value, 0, most))?)),
        None => Ok(None),
    }
}

/// The whole number at a key, or 0.
pub fn whole_or_zero(
    alloc: Global,
    table: &Table,
    key: &str,
    least: i64,
    most: i64,
) -> Result<i64, ItemFault>
    requires low { least ≤ℤ pos 0 }
    requires high { pos 0 ≤ℤ most }
    ensures answer { Gives ItemFault.NoMemory result (or_else (pos 0) (whole_in least most) key.now (table_view table.now)) }
    ensures range { IfOk result (λ n. (least ≤ℤ n) × (n ≤ℤ most)) }
{
    match member_at(table, key) {
        Some(value) => valid_value(alloc, key, whole_in(value, least, most)),
        None => Ok(0),
    }
}

/// The moment at a key.
pub fn moment(alloc: Global, table: &Table, key: &str) -> Result<u64, ItemFault>
    ensures answer { Gives ItemFault.NoMemory result (required moment_in key.now (table_view table.now)) }
    ensures range { IfOk result IsMoment }
{
    let value = required_member(alloc, table, key)?;
    valid_value(alloc, key, moment_in(value))
}

/// Whether a key says so, or the usual.
pub fn truth_or(alloc: Global, table: &Table, key: &str, usual: bool) -> Result<bool, ItemFault>
    ensures answer { Gives ItemFault.NoMemory result (or_else usual as_bool key.now (table_view table.now)) }
{
    match member_at(table, key) {
        Some(value) => valid_value(alloc, key, value.as_bool()),
        None => Ok(usual),
    }
}

/// The three flags at a key, or all of them set.
pub fn three_flags_or_all(alloc: Global, table: &Table, key: &str) -> Result<[bool; 3], ItemFault>
    ensures answer { Gives ItemFault.NoMemory result (or_else (true ∷ true ∷ true ∷ []) three_flags_in key.now (table_view table.now)) }
{
    match member_at(table, key) {
        Some(value) => valid_value(alloc, key, three_flags_in(value)),
        None => Ok([true, true, true]),
    }
}

/// The two flags at a key, or both set.
pub fn two_flags_or_both(alloc: Global, table: &Table, key: &str) -> Result<[bool; 2], ItemFault>
    ensures answer { Gives ItemFault.NoMemory result (or_else (true ∷ true ∷ []) two_flags_in key.now (table_view table.now)) }
{
    match member_at(table, key) {
        Some(value) => valid_value(alloc, key, two_flags_in(value)),
        None => Ok([true, true]),
    }
}

/// The time of day at a key, or the usual one.
pub fn time_or(alloc: Global, table: &Table, key: &str, usual: u32) -> Result<u32, ItemFault>
    requires { usual < 8640000 }
    ensures answer { Gives ItemFault.NoMemory result (or_else usual time_in key.now (table_view table.now)) }
    ensures range { IfOk result (λ time. time < 8640000) }
{
    match member_at(table, key) {
        Some(value) => valid_value(alloc, key, time_in(value)),
        None => Ok(usual),
    }
}
