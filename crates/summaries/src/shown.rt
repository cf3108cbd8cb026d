//! What a state shows to whoever sums it up.

use crate::Part;
use bac_values::{AlarmRow, NoMemory, ObjectId, PropertyId};
use notify_class::Class;
use std::alloc::Global;

/// A state of a site, as summaries see it.
pub trait Shown {
    ghost use Rattle.std.specs.Prelude.{◌≡◌, ◌<◌, ◌^◌, ℕ, List, Option, IfOk, length, slice_get};
    ghost use Rattle.std.specs.Option.{option_copied};
    ghost use Rattle.bac_values.specs.Identifier.{ObjectIdData};
    ghost use Rattle.notify_class.specs.declared.class.Class.{Class as Listed};
    ghost use Rattle.bac_values.specs.declared.alarm_row.AlarmRow.{AlarmRow as Row};
    ghost use Rattle.summaries.specs.declared.part.Part.{Part as Read};

    /// The objects and enrollments whose event detection is enabled, by ascending identifier.
    ghost rows: { Self → List Row };

    /// The notification class with an instance, if there is one.
    ghost class_of: { Self → ℕ → Option Listed };

    /// What is read of a property.
    ghost reads: { Self → ObjectIdData → ℕ → Option ℕ → Read };

    /// The object or enrollment at a place among them, from 0.
    fn alarm_row(&self, place: u32) -> Option<AlarmRow>
        ensures row { result ≡ slice_get (rows self.now) place }
        ensures few { length (rows self.now) < 2 ^ 32 };

    /// The notification class with this instance.
    fn class(&self, instance: u32) -> Option<&Class>
        ensures class { option_copied result ≡ class_of self.now instance };

    /// What is read of a property: its octets, or the first error that applies.
    fn part(
        &self,
        alloc: Global,
        object: ObjectId,
        property: PropertyId,
        index: Option<u32>,
    ) -> Result<Part, NoMemory>
        ensures part { IfOk result (λ part. part ≡ reads self.now object property.0 index) };
}
