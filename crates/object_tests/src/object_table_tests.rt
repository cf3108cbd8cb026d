//! Tables of value objects.

ghost use Rattle.std.specs.Prelude.{IfOk};
ghost use Rattle.object_table.specs.Writes.{IsTaken};

use crate::comparing::holds;
use bac_values::{ObjectId, ObjectKind, PropertyId, Text, Value};
use object_table::*;
use sample_objects::label;
use std::alloc::Global;
use std::process::Abort;
use std::test::Fail;

fn label_id() -> Result<ObjectId, Fail> {
    Ok(ObjectId::of_kind(ObjectKind::CharacterStringValue, 1)?)
}

/// Writes a text to the label, and answers what takes it back.
fn write(alloc: Global, table: &mut Table, text: &str) -> Result<Change, Fail>
    ensures taken { IfOk result (λ change. IsTaken change table.new) }
{
    let text = Value::Text(Text::new(alloc, text)?);
    let change = table.check_write(label_id()?, PropertyId::PRESENT_VALUE, None, &text)?;
    Ok(table.apply(change))
}

/// The label has this text.
fn expect_text(rt: &impl Abort, alloc: Global, table: &Table, text: &str) -> Result<(), Fail> {
    let text = Value::Text(Text::new(alloc, text)?);
    holds(rt, table.value_of(label_id()?) == Some(&text));
    Ok(())
}

fn expect_taken_back(rt: &impl Abort, alloc: Global, table: &mut Table) -> Result<(), Fail> {
    let back = write(alloc, table, "hi")?;
    expect_text(rt, alloc, table, "hi")?;
    let _ = table.apply(back);
    expect_text(rt, alloc, table, "ok")
}

#[test]
fn a_text_is_written_and_taken_back(rt: HostRuntime) -> Result<(), Fail> {
    let alloc = rt.alloc();
    let mut table = Table::new(alloc, vec![in alloc; label(alloc)?]?)?;
    expect_taken_back(&rt, alloc, &mut table)
}

fn has_field_fault(table: &Table, reliability: u8) -> bool {
    matches!(table.rows(), [row] if row.field_fault == reliability)
}

#[test]
fn a_restored_row_keeps_its_field_fault(rt: HostRuntime) -> Result<(), Fail> {
    let alloc = rt.alloc();
    let row = Row {
        site: label(alloc)?,
        field_fault: 7,
    };
    let table = Table::restore(vec![in alloc; row]?);
    holds(&rt, has_field_fault(&table, 7));
    Ok(())
}
