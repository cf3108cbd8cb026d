//! The sections of a document are read.

ghost use Rattle.std.specs.Prelude.{◌≡◌, ◌⊎◌, ◌∷◌, option_map, string_bytes, Some, None};
ghost use Rattle.toml.specs.View.{array_view, table_view};
ghost use Rattle.toml_items.specs.Answers.{Gives};
ghost use Rattle.site_config.specs.Keys.{has_key};
ghost use Rattle.toml_items.specs.Members.{first_unknown};
ghost use Rattle.site_config.specs.Sections.{placed, section_name, section_fault, lesser_key, device_item, device_from, device_section, items_of, section_of};

use crate::device::device_of;
use crate::fault::{Section, SiteFault};
use crate::item::Item;
use crate::keys::Keys;
use crate::place::at_place;
use alarm_core::DeviceSite;
use bac_values::{Items, push};
use std::alloc::Global;
use std::cmp::Ordering;
use toml::Table;
use toml::value::Array;
use toml_items::{ItemFault, bad_value, member_at, tables_in, unknown, unknown_key};

/// The key of a section.
pub fn section_name(section: Section) -> &'static str
    ensures name { result.now ≡ section_name section }
{
    match section {
        Section::Device => "device",
        Section::Class => "class",
        Section::Destination => "destination",
        Section::Object => "object",
        Section::Enrollment => "enrollment",
        Section::Log => "log",
        Section::Binding => "binding",
    }
}

/// The section isn't a table, or isn't an array of tables.
fn section_fault(alloc: Global, section: Section) -> SiteFault
    ensures fault { (result ≡ SiteFault.NoMemory) ⊎ (result ≡ section_fault section) }
{
    at_place(bad_value(alloc, section_name(section)), section, 0)
}

/// The lesser of two keys.
fn lesser_key<'a>(key: Option<&'a String>, other: Option<&'a String>) -> Option<&'a String>
    ensures key { option_map (λ k. string_bytes k.now) result ≡ lesser_key (option_map (λ k. string_bytes k.now) key.entry) (option_map (λ k. string_bytes k.now) other.entry) }
{
    let Some(first) = key else {
        return other;
    };
    let Some(second) = other else {
        return key;
    };
    match second.as_str().cmp(first.as_str()) {
        Ordering::Less => other,
        _ => key,
    }
}

/// The least key that neither the device nor the document has.
fn unknown_of_device<'a>(document: &'a Table, table: &'a Table) -> Option<&'a String>
    ensures key { option_map (λ k. string_bytes k.now) result ≡ lesser_key (first_unknown (has_key Keys.Device) (table_view table.now)) (first_unknown (has_key Keys.Top) (table_view document.now)) }
{
    let own = unknown_key(table, Keys::Device);
    let other = unknown_key(document, Keys::Top);
    lesser_key(own, other)
}

/// The device of a table of the document.
fn device_item(alloc: Global, document: &Table, table: &Table) -> Result<DeviceSite, ItemFault>
    ensures answer { Gives ItemFault.NoMemory result (device_item (table_view document.now) (table_view table.now)) }
{
    match unknown_of_device(document, table) {
        Some(key) => Err(unknown(alloc, key.as_str())),
        None => device_of(alloc, table),
    }
}

/// The device of a table of the document, or its fault with its place.
fn device_from(alloc: Global, document: &Table, table: &Table) -> Result<DeviceSite, SiteFault>
    ensures answer { Gives SiteFault.NoMemory result (device_from (table_view document.now) (Some (table_view table.now))) }
{
    match device_item(alloc, document, table) {
        Ok(device) => Ok(device),
        Err(fault) => Err(at_place(fault, Section::Device, 0)),
    }
}

/// The device of a document.
pub fn device_section(alloc: Global, document: &Table) -> Result<DeviceSite, SiteFault>
    ensures answer { Gives SiteFault.NoMemory result (device_section (table_view document.now)) }
{
    let Some(value) = member_at(document, "device") else {
        return device_from(alloc, document, &Table::new(alloc));
    };
    match value.as_table() {
        Some(table) => device_from(alloc, document, table),
        None => Err(section_fault(alloc, Section::Device)),
    }
}

/// The item of a table, or its fault with its place.
fn read_item<T: Item>(
    alloc: Global,
    section: Section,
    number: u32,
    table: &Table,
) -> Result<T, SiteFault>
    ensures answer { Gives SiteFault.NoMemory result (placed section number (T.item_of (table_view table.now))) }
{
    match T::read(alloc, table) {
        Ok(item) => Ok(item),
        Err(fault) => Err(at_place(fault, section, number)),
    }
}

/// The items of tables, in their order, which are counted from 1.
#[tactic(auto, using(crate::proofs::Tables::table_read, crate::proofs::Tables::table_refused, crate::proofs::Tables::other_passed, crate::proofs::Tables::tables_read, crate::proofs::Tables::nothing_read))]
fn read_items<T: Item>(
    alloc: Global,
    section: Section,
    array: &Array,
) -> Result<Items<T>, SiteFault>
    ensures answer { Gives SiteFault.NoMemory result (items_of T.item_of section 1 (array_view array.now)) }
{
    let mut items = Vec::new(alloc);
    let mut number: u32 = 1;
    for value in array {
        let Some(table) = value.as_table() else {
            continue;
        };
        let item = read_item::<T>(alloc, section, number, table)?;
        push(&mut items, item)?;
        number = number.saturating_add(1);
    }
    Ok(Items::of(items))
}

/// The items of a section that is an array of tables.
pub fn read_section<T: Item>(
    alloc: Global,
    section: Section,
    document: &Table,
) -> Result<Items<T>, SiteFault>
    ensures answer { Gives SiteFault.NoMemory result (section_of T.item_of section (table_view document.now)) }
{
    let Some(value) = member_at(document, section_name(section)) else {
        return Ok(Items::of(Vec::new(alloc)));
    };
    match tables_in(value) {
        Some(array) => read_items(alloc, section, array),
        None => Err(section_fault(alloc, section)),
    }
}
