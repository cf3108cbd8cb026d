//! Writes of properties are checked.

ghost use Rattle.std.specs.Prelude.{IfOk, IsErr};
ghost use Rattle.alarm_core.specs.Contents.{other_content};
ghost use Rattle.alarm_core.specs.Reading.{AnswersSize, AnswersWrite, denied, size_in, write_of};
ghost use Rattle.alarm_core.specs.declared.event.Act.TheVariants.{Write};
ghost use Rattle.alarm_core.specs.Allowed.{IsAllowed};

use crate::identifiers::device_size;
use crate::logs::kept_log;
use crate::read_property::other_content;
use crate::site::is_device;
use crate::{Core, ReadFault};
use bac_values::{ObjectId, PropertyId, Value};
use object_table::{Change, WriteFault, check_index};
use property_values::{log_write, size_of};
use std::alloc::Global;

impl Core {
    // The length of a property that is an array, or why there is no property. Nothing of Object_List is built to tell it.
    fn size_of_other(
        &self,
        alloc: Global,
        object: ObjectId,
        property: PropertyId,
    ) -> Result<Option<u32>, ReadFault>
        ensures size { AnswersSize result (size_in (other_content self.now.site self.now.classes object property.0)) }
    {
        if is_device(&self.site, object) {
            return device_size(&self.site, &self.identifiers, property);
        }
        let content = other_content(alloc, &self.site, &self.classes, object, property)?;
        size_of(&content)
    }

    // No property of an object beside the value objects and the enrollments can be written.
    fn denied(
        &self,
        alloc: Global,
        object: ObjectId,
        property: PropertyId,
        index: Option<u32>,
    ) -> Result<Change, WriteFault>
        ensures denied { AnswersWrite result (denied (other_content self.now.site self.now.classes object property.0) index) }
        ensures none { IsErr result }
    {
        let size = self.size_of_other(alloc, object, property)?;
        check_index(size, index)?;
        Err(WriteFault::WRITE_ACCESS_DENIED)
    }

    /// The change that a write of a property makes, or the first error that applies to it: no such object or property, an
    /// index where there is no array or above its length, a property that can't be written, another type, a text in
    /// another character set or above 256 octets, and a value that the property can't be.
    pub fn check_write(
        &self,
        alloc: Global,
        object: ObjectId,
        property: PropertyId,
        index: Option<u32>,
        value: &Value,
    ) -> Result<Change, WriteFault>
        ensures answer { AnswersWrite result (write_of self.now object property.0 index value.now) }
        ensures takes { IfOk result (λ change. IsAllowed self.now (Write change)) }
    {
        let (enrollments, table) = (self.enrollments(), self.table());
        if enrollments.row(object).is_some() {
            return enrollments.check_write(object, property, index, value);
        }
        if table.row(object).is_some() {
            return table.check_write(object, property, index, value);
        }
        match kept_log(&self.logs, object) {
            Some(kept) => log_write(kept.site(), property, index, value),
            None => self.denied(alloc, object, property, index),
        }
    }
}
