//! Values of a kind, and arrays of values and of texts.

ghost use Rattle.std.specs.Prelude.{◌≡◌, IfOk};
ghost use Rattle.toml.specs.View.{view, array_view};
ghost use Rattle.site_config.specs.Values.{present_in, value_in};
ghost use Rattle.toml_items.specs.Lists.{all_in, list_in};
ghost use Rattle.toml_items.specs.Values.{text_in};

use crate::values::{binary_in, bits_in, limit_in};
use bac_values::{Items, NoMemory, ObjectKind, Text, Value, push};
use std::alloc::Global;
use toml::value::Array;
use toml_items::{array_in, text_in, unsigned_in};

/// The value of the kind that a value of the document is.
pub fn value_in(
    alloc: Global,
    value: &toml::Value,
    kind: ObjectKind,
) -> Result<Option<Value>, NoMemory>
    ensures value { IfOk result (λ found. found ≡ value_in kind (view value.now)) }
{
    let found = match kind {
        ObjectKind::IntegerValue => limit_in(value, kind).map(|number| Value::Signed(
            number as i32,
        )),
        ObjectKind::PositiveIntegerValue | ObjectKind::MultiStateValue => {
            unsigned_in(value, 0, u32::MAX).map(Value::Unsigned)
        }
        ObjectKind::BinaryValue => binary_in(value).map(Value::Enumerated),
        ObjectKind::BitStringValue => bits_in(value).map(Value::Bits),
        ObjectKind::CharacterStringValue => return Ok(text_in(alloc, value)?.map(Value::Text)),
        _ => None,
    };
    Ok(found)
}

/// What Present_Value of the kind can be.
pub fn present_in(
    alloc: Global,
    value: &toml::Value,
    kind: ObjectKind,
) -> Result<Option<Value>, NoMemory>
    ensures value { IfOk result (λ found. found ≡ present_in kind (view value.now)) }
{
    match kind {
        ObjectKind::MultiStateValue => Ok(unsigned_in(value, 1, u32::MAX).map(Value::Unsigned)),
        _ => value_in(alloc, value, kind),
    }
}

/// The values of the kind that the items of an array are.
#[tactic(auto, using(toml_items::proofs::Fronts::one_more_read, toml_items::proofs::Fronts::one_bad, toml_items::proofs::Fronts::all_read, toml_items::proofs::Fronts::none_read))]
fn all_values(
    alloc: Global,
    array: &Array,
    kind: ObjectKind,
) -> Result<Option<Items<Value>>, NoMemory>
    ensures values { IfOk result (λ found. found ≡ all_in (value_in kind) (array_view array.now)) }
{
    let mut values = Vec::new(alloc);
    for item in array {
        let Some(value) = value_in(alloc, item, kind)? else {
            return Ok(None);
        };
        push(&mut values, value)?;
    }
    Ok(Some(Items::of(values)))
}

/// The array of values of the kind that a value of the document is, of so many at least and so many at most.
pub fn values_in(
    alloc: Global,
    value: &toml::Value,
    kind: ObjectKind,
    least: usize,
    most: usize,
) -> Result<Option<Items<Value>>, NoMemory>
    ensures values { IfOk result (λ found. found ≡ list_in least most (value_in kind) (view value.now)) }
{
    match array_in(value, least, most) {
        Some(array) => all_values(alloc, array, kind),
        None => Ok(None),
    }
}

/// The texts that the items of an array are.
#[tactic(auto, using(toml_items::proofs::Fronts::one_more_read, toml_items::proofs::Fronts::one_bad, toml_items::proofs::Fronts::all_read, toml_items::proofs::Fronts::none_read))]
fn all_texts(alloc: Global, array: &Array) -> Result<Option<Items<Text>>, NoMemory>
    ensures texts { IfOk result (λ found. found ≡ all_in text_in (array_view array.now)) }
{
    let mut texts = Vec::new(alloc);
    for item in array {
        let Some(text) = text_in(alloc, item)? else {
            return Ok(None);
        };
        push(&mut texts, text)?;
    }
    Ok(Some(Items::of(texts)))
}

/// The array of so many texts that a value of the document is.
pub fn texts_in(
    alloc: Global,
    value: &toml::Value,
    count: usize,
) -> Result<Option<Items<Text>>, NoMemory>
    ensures texts { IfOk result (λ found. found ≡ list_in count count text_in (view value.now)) }
{
    match array_in(value, count, count) {
        Some(array) => all_texts(alloc, array),
        None => Ok(None),
    }
}
