//! Values that are arrays.

ghost use Rattle.std.specs.Prelude.{◌≡◌, option_map, option_and_then, is_some, IfOk};
ghost use Rattle.std.specs.List.{list_all};
ghost use Rattle.toml.specs.Data.{as_array, as_bool, as_table};
ghost use Rattle.toml.specs.View.{view, array_view};
ghost use Rattle.toml_items.specs.Lists.{all_in, list_in, sized, tables, three_in};
ghost use Rattle.toml_items.specs.Values.{unsigned_in};

use crate::values::unsigned_in;
use bac_values::{Items, NoMemory, push};
use std::alloc::Global;
use toml::Value;
use toml::value::Array;

/// The array that a value is, of so many items at least and so many at most.
#[tactic(auto, using(crate::proofs::Fronts::items_count_view))]
pub fn array_in(value: &Value, least: usize, most: usize) -> Option<&Array>
    ensures array { option_map (λ a. array_view a.now) result ≡ option_and_then (sized least most) (as_array (view value.now)) }
{
    let array = value.as_array()?;
    let size = array.len();
    if size < least || most < size {
        return None;
    }
    Some(array)
}

/// The numbers without a sign up to the greatest that the items of an array are.
fn all_unsigned(alloc: Global, array: &Array, greatest: u32) -> Result<Option<Items<u32>>, NoMemory>
    ensures numbers { IfOk result (λ found. found ≡ all_in (unsigned_in 0 greatest) (array_view array.now)) }
{
    let mut numbers = Vec::new(alloc);
    for item in array {
        let Some(number) = unsigned_in(item, 0, greatest) else {
            return Ok(None);
        };
        push(&mut numbers, number)?;
    }
    Ok(Some(Items::of(numbers)))
}

/// The array of numbers without a sign up to the greatest that a value is, of so many items at least and so many at most.
pub fn unsigned_list_in(
    alloc: Global,
    value: &Value,
    least: usize,
    most: usize,
    greatest: u32,
) -> Result<Option<Items<u32>>, NoMemory>
    ensures numbers { IfOk result (λ found. found ≡ list_in least most (unsigned_in 0 greatest) (view value.now)) }
{
    match array_in(value, least, most) {
        Some(array) => all_unsigned(alloc, array, greatest),
        None => Ok(None),
    }
}

/// The three numbers of an octet that a value is.
pub fn three_octets_in(value: &Value) -> Option<[u8; 3]>
    ensures octets { result ≡ three_in (unsigned_in 0 255) (view value.now) }
{
    match value.as_array()?.as_slice() {
        [a, b, c] => Some([
            unsigned_in(a, 0, 255)? as u8,
            unsigned_in(b, 0, 255)? as u8,
            unsigned_in(c, 0, 255)? as u8,
        ]),
        _ => None,
    }
}

/// The three truths that a value is.
pub fn three_truths_in(value: &Value) -> Option<[bool; 3]>
    ensures truths { result ≡ three_in as_bool (view value.now) }
{
    match value.as_array()?.as_slice() {
        [a, b, c] => Some([a.as_bool()?, b.as_bool()?, c.as_bool()?]),
        _ => None,
    }
}

/// Whether each value is a table.
fn all_tables(values: &[Value]) -> bool
    ensures tables { result ≡ list_all (λ v. is_some (as_table (view v))) values.now }
{
    values.iter().all(|value| value.is_table())
}

/// The array of tables that a value is.
#[tactic(auto, using(crate::proofs::Fronts::all_are_tables))]
pub fn tables_in(value: &Value) -> Option<&Array>
    ensures tables { option_map (λ a. array_view a.now) result ≡ option_and_then tables (as_array (view value.now)) }
{
    let array = value.as_array()?;
    if all_tables(array.as_slice()) {
        Some(array)
    } else {
        None
    }
}
