//! Reliabilities of values.

use crate::comparing::same;
use bac_values::{Items, ObjectId, ObjectKind, Reliability, Text, Value};
use object_table::{ObjectSite, Row, Table};
use reliability_eval::*;
use sample_objects::plain;
use std::alloc::Global;
use std::process::Abort;
use std::test::Fail;

/// Two fault values.
fn two(alloc: Global, first: Value, second: Value) -> Result<Items<Value>, Fail> {
    Ok(Items::of(vec![in alloc; first, second]?))
}

/// An object without a class, whose fault limits are 10 and 20, with these fault values.
fn faulted(mut site: ObjectSite, fault_values: Items<Value>) -> Row {
    site.fault_low = Some(10);
    site.fault_high = Some(20);
    site.fault_values = fault_values;
    Row {
        site,
        field_fault: 0,
    }
}

/// A row of such an object of a kind, with two fault values.
fn row(
    alloc: Global,
    kind: ObjectKind,
    value: Value,
    first: Value,
    second: Value,
) -> Result<Row, Fail> {
    let object = ObjectId::of_kind(kind, 1)?;
    let faults = two(alloc, first, second)?;
    let name = Text::new(alloc, "Object")?;
    Ok(faulted(plain(alloc, object, name, value), faults))
}

fn level(alloc: Global, value: i32) -> Result<Row, Fail> {
    row(
        alloc,
        ObjectKind::IntegerValue,
        Value::Signed(value),
        Value::Signed(15),
        Value::Signed(5),
    )
}

fn number_of_level(alloc: Global, value: i32) -> Result<u8, Fail> {
    Ok(reliability_of_row(&level(alloc, value)?).number())
}

#[test]
fn a_value_outside_its_fault_limits_is_a_fault(rt: HostRuntime) -> Result<(), Fail> {
    let alloc = rt.alloc();
    let numbers = [
        number_of_level(alloc, 9)?,
        number_of_level(alloc, 10)?,
        number_of_level(alloc, 15)?,
        number_of_level(alloc, 20)?,
        number_of_level(alloc, 21)?,
        number_of_level(alloc, -5)?,
    ];
    same(&rt, &numbers, &[3, 0, 0, 0, 2, 3]);
    Ok(())
}

/// A row that has a value of 21 or a fault of its field, counts the field's first, and none where it is inhibited.
fn expect_field_first(rt: &impl Abort, row: &mut Row) {
    row.field_fault = 7;
    same(rt, &reliability_of_row(row), &Reliability::UnreliableOther);
    row.field_fault = 0;
    same(rt, &reliability_of_row(row), &Reliability::OverRange);
    row.site.reliability_inhibit = true;
    same(rt, &reliability_of_row(row), &Reliability::NoFaultDetected);
    row.field_fault = 12;
    same(rt, &reliability_of_row(row), &Reliability::NoFaultDetected);
}

#[test]
fn a_field_fault_counts_first_and_inhibition_ends_all(rt: HostRuntime) -> Result<(), Fail> {
    expect_field_first(&rt, &mut level(rt.alloc(), 21)?);
    Ok(())
}

/// The number of the reliability of a multi-state value, whose fault values are 5 and 3.
fn number_of_state(alloc: Global, state: u32) -> Result<u8, Fail> {
    let row = row(
        alloc,
        ObjectKind::MultiStateValue,
        Value::Unsigned(state),
        Value::Unsigned(5),
        Value::Unsigned(3),
    )?;
    Ok(reliability_of_row(&row).number())
}

#[test]
fn a_fault_value_is_a_fault(rt: HostRuntime) -> Result<(), Fail> {
    let alloc = rt.alloc();
    same(&rt, &number_of_state(alloc, 2)?, &0);
    same(&rt, &number_of_state(alloc, 3)?, &9);
    same(&rt, &number_of_state(alloc, 5)?, &9);
    Ok(())
}

fn text(alloc: Global, text: &str) -> Result<Value, Fail> {
    Ok(Value::Text(Text::new(alloc, text)?))
}

/// The number of the reliability of a character string value, whose fault values are the empty text and "leak".
fn number_of_label(alloc: Global, label: Value) -> Result<u8, Fail> {
    let kind = ObjectKind::CharacterStringValue;
    let row = row(alloc, kind, label, text(alloc, "")?, text(alloc, "leak")?)?;
    Ok(reliability_of_row(&row).number())
}

fn expect_text(rt: &impl Abort, alloc: Global, label: &str, number: u8) -> Result<(), Fail> {
    let answered = number_of_label(alloc, text(alloc, label)?)?;
    same(rt, &(label, answered), &(label, number));
    Ok(())
}

#[test]
fn a_text_that_has_a_fault_text_is_a_fault(rt: HostRuntime) -> Result<(), Fail> {
    expect_text(&rt, rt.alloc(), "calm", 0)?;
    expect_text(&rt, rt.alloc(), "pump leaks", 9)?;
    expect_text(&rt, rt.alloc(), "", 9)?;
    expect_text(&rt, rt.alloc(), "lea", 0)
}

#[test]
fn no_object_no_fault(rt: HostRuntime) -> Result<(), Fail> {
    let table = Table::new(rt.alloc(), Vec::new(rt.alloc()))?;
    let object = ObjectId::of_kind(ObjectKind::IntegerValue, 1)?;
    same(
        &rt,
        &reliability(&table, object),
        &Reliability::NoFaultDetected,
    );
    Ok(())
}
