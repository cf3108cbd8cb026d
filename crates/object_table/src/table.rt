//! The value objects of a site.

ghost use Rattle.std.specs.Prelude.{◌≡◌, ◌↔◌, All, IfOk, IfSome, IsTrue, None, OnErr};
ghost use Rattle.std.specs.Option.{option_copied, option_map};
ghost use Rattle.object_table.specs.Objects.{IsObject, IsRow};
ghost use Rattle.object_table.specs.Rows.{AscendsById, RowsAscend, StandsAt, row_of, rows_of};
ghost use Rattle.object_table.specs.Verdicts.{AnswersWrite, checked_fault, checked_set, checked_write};
ghost use Rattle.object_table.specs.Writes.{IsTaken, written};

use crate::settings::put;
use crate::values::{is_field_fault, takes};
use crate::verdicts::{check_object, check_present_value};
use crate::{Change, ObjectSite, Row, What, WriteFault};
use bac_values::{NoMemory, ObjectId, PropertyId, SetFault, Value};
use std::alloc::Global;
use std::marker::Model;

/// The value objects of a site, ascending by identifier, as the writes have left them. Contracts see the list of rows.
#[derive(Debug, Drop)]
pub struct Table {
    rows: Vec<Row>,
}

impl Model for Table {
    ghost use Rattle.std.specs.Prelude.{List};
    ghost use Rattle.object_table.specs.declared.row.Row.{Row};
    ghost use Rattle.object_table.specs.Tables.{IsTable};

    ghost Value = { List Row };

    ghost view = { λ table. table.rows.items };

    ghost invariant = { λ table. IsTable table.rows.items };
}

impl Table {
    /// A table of objects, none of which has a field fault.
    pub fn new(alloc: Global, objects: Vec<ObjectSite>) -> Result<Table, NoMemory>
        requires ascending { AscendsById objects.items }
        requires allowed { All IsObject objects.items }
        ensures rows { IfOk result (λ table. table ≡ rows_of objects.items) }
    {
        let rows = first_rows(alloc, objects)?;
        Ok(Table { rows })
    }

    /// A table of these rows, which have what writes and faults have left in them.
    pub fn restore(rows: Vec<Row>) -> Table
        requires ascending { RowsAscend rows.items }
        requires allowed { All IsRow rows.items }
        ensures rows { result ≡ rows.items }
    {
        Table { rows }
    }

    /// The objects, ascending.
    pub fn rows(&self) -> &[Row]
        ensures rows { result.now ≡ self.now }
        ensures ascending { RowsAscend self.now }
        ensures allowed { All IsRow self.now }
    {
        self.rows.as_slice()
    }

    /// The row of an object, if it is one of the table. It takes as many looks as the number of objects has binary digits.
    pub fn row(&self, object: ObjectId) -> Option<&Row>
        ensures row { option_copied result ≡ row_of object self.now }
        ensures allowed { IfSome result (λ row. IsObject row.now.site) }
    {
        match self.place_of(object) {
            Ok(place) => Some(&self.rows[place]),
            Err(_) => None,
        }
    }

    /// The present value of an object, if it is one of the table.
    pub fn value_of(&self, object: ObjectId) -> Option<&Value>
        ensures value { option_copied result ≡ option_map (λ row. row.site.value) (row_of object self.now) }
    {
        match self.row(object) {
            Some(row) => Some(&row.site.value),
            None => None,
        }
    }

    /// The change that a write of a property makes, or the first error that applies to it: no such object or property, an
    /// index where there is no array or above its length, a property that can't be written, another type, a text in
    /// another character set or above 256 octets, and a value that the property can't be. An object with the identifier
    /// is looked for among the table's alone.
    pub fn check_write(
        &self,
        object: ObjectId,
        property: PropertyId,
        index: Option<u32>,
        value: &Value,
    ) -> Result<Change, WriteFault>
        ensures verdict { AnswersWrite value.now result (checked_write self.now object property.0 index value.now) }
        ensures takes { IfOk result (λ change. IsTaken change self.now) }
    {
        let Some(row) = self.row(object) else {
            return Err(WriteFault::UNKNOWN_OBJECT);
        };
        check_object(&row.site, property, index, value)?;
        let value = value.clone()?;
        Ok(Change {
            object,
            what: What::Property { property, value },
        })
    }

    /// The change that a present value from the field makes, or the first cause against it: no such object, one that is out
    /// of service, a value of another type, or out of its range.
    pub fn check_set(&self, object: ObjectId, value: Value) -> Result<Change, SetFault>
        ensures verdict { result ≡ checked_set self.now object value }
        ensures takes { IfOk result (λ change. IsTaken change self.now) }
    {
        let Some(row) = self.row(object) else {
            return Err(SetFault::UnknownObject);
        };
        check_present_value(&row.site, &value)?;
        Ok(Change {
            object,
            what: What::Property {
                property: PropertyId::PRESENT_VALUE,
                value,
            },
        })
    }

    /// The change that a reliability of what gives an object its value makes, or the first cause against it: no such
    /// object, or a number other than 0, 2, 3, 7 and 12.
    pub fn check_fault(&self, object: ObjectId, reliability: u32) -> Result<Change, SetFault>
        ensures verdict { result ≡ checked_fault self.now object reliability }
        ensures takes { IfOk result (λ change. IsTaken change self.now) }
    {
        if self.row(object).is_none() {
            return Err(SetFault::UnknownObject);
        }
        if !is_field_fault(reliability) {
            return Err(SetFault::ValueRange);
        }
        Ok(Change {
            object,
            what: What::FieldFault {
                reliability: reliability as u8,
            },
        })
    }

    /// Whether the table has the object of a change, and the object takes it.
    pub fn takes(&self, change: &Change) -> bool
        ensures takes { IsTrue result ↔ IsTaken change.now self.now }
    {
        match self.row(change.object) {
            Some(row) => takes(&change.what, &row.site),
            None => false,
        }
    }

    /// Makes a change that an object of the table takes, and gives the change that takes it back.
    pub fn apply(&mut self, change: Change) -> Change
        requires taken { IsTaken change self.old }
        ensures rows { self.new ≡ written change self.old }
        ensures undo { written result self.new ≡ self.old }
        ensures takes { IsTaken result self.new }
        ensures object { result.object ≡ change.object }
    {
        let Change { object, what } = change;
        match self.place_of(object) {
            Ok(place) => Change {
                object,
                what: put(&mut self.rows[place], what),
            },
            Err(_) => unreachable!(),
        }
    }

    fn place_of(&self, object: ObjectId) -> Result<usize, usize>
        ensures found { IfOk result (StandsAt object self.now) }
        ensures absent { OnErr result (row_of object self.now ≡ None) }
    {
        self.rows
            .binary_search_by_key(&object, |row| row.site.object)
    }
}

/// Rows of objects, none of which has a field fault.
fn first_rows(alloc: Global, objects: Vec<ObjectSite>) -> Result<Vec<Row>, NoMemory>
    ensures rows { IfOk result (λ rows. rows.items ≡ rows_of objects.items) }
{
    let rows = objects
        .into_iter()
        .map(|site| Row {
            site,
            field_fault: 0,
        })
        .collect(alloc)?;
    Ok(rows)
}
