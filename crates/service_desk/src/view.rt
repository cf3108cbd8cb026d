//! What summaries see of a core.

ghost use Rattle.std.specs.Prelude.{◌≡◌};

use alarm_core::Core;
use bac_values::{AlarmRow, Items, NoMemory, ObjectId, PropertyId};
use notify_class::Class;
use property_values::ReadFault;
use std::alloc::Global;
use std::marker::Model;
use summaries::{Part, Shown};

/// The state of a core, as summaries see it. All that one answer tells is of this one state.
#[derive(Drop)]
pub(crate) struct View<'a> {
    core: &'a Core,
}

impl<'a> Model for View<'a> {
    ghost use Rattle.alarm_core.specs.State.{CoreState};

    ghost Value = { CoreState };

    ghost view = { λ view. view.core.now };
}

impl<'a> View<'a> {
    /// What is seen of a core.
    pub(crate) fn of(core: &'a Core) -> View<'a>
        ensures state { result ≡ core.now }
    {
        View { core }
    }
}

impl<'a> Shown for View<'a> {
    ghost use Rattle.std.specs.Prelude.{◌≡◌, ◌<◌, ◌^◌, IfOk, length, slice_get};
    ghost use Rattle.std.specs.Option.{option_copied};
    ghost use Rattle.alarm_core.specs.AlarmRows.{alarm_rows};
    ghost use Rattle.service_desk.specs.SummaryDecisions.{classes_in, reads_in};

    ghost rows = { alarm_rows };

    ghost class_of = { classes_in };

    ghost reads = { reads_in };

    fn alarm_row(&self, place: u32) -> Option<AlarmRow>
        ensures row { result ≡ slice_get (alarm_rows self.now) place }
        ensures few { length (alarm_rows self.now) < 2 ^ 32 }
    {
        self.core.alarm_row(place)
    }

    fn class(&self, instance: u32) -> Option<&Class>
        ensures class { option_copied result ≡ classes_in self.now instance }
    {
        self.core.class(instance)
    }

    fn part(
        &self,
        alloc: Global,
        object: ObjectId,
        property: PropertyId,
        index: Option<u32>,
    ) -> Result<Part, NoMemory>
        ensures part { IfOk result (λ part. part ≡ reads_in self.now object property.0 index) }
    {
        match self.core.read(alloc, object, property, index) {
            Ok(octets) => Ok(Part::Octets(Items::of(octets))),
            Err(ReadFault::Error { class, code }) => Ok(Part::Error { class, code }),
            Err(ReadFault::NoMemory) => Err(NoMemory),
        }
    }
}
