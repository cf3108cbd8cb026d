//! What all sections say, before it is looked at together.

ghost use Rattle.toml.specs.View.{table_view};
ghost use Rattle.toml_items.specs.Answers.{Gives};
ghost use Rattle.site_config.specs.Drafts.{draft_of};

use crate::binding_item::BindingItem;
use crate::class::ClassItem;
use crate::destination::DestinationSite;
use crate::fault::{Section, SiteFault};
use crate::sections::{device_section, read_section};
use alarm_core::{DeviceSite, EnrollmentSite, LogSite};
use bac_values::Items;
use object_table::ObjectSite;
use std::alloc::Global;
use toml::Table;

/// What the sections of a document say, in the order of the text.
#[derive(Drop)]
pub struct Draft {
    /// The device.
    pub device: DeviceSite,
    /// The classes.
    pub classes: Items<ClassItem>,
    /// The destinations.
    pub destinations: Items<DestinationSite>,
    /// The objects.
    pub objects: Items<ObjectSite>,
    /// The enrollments.
    pub enrollments: Items<EnrollmentSite>,
    /// The logs.
    pub logs: Items<LogSite>,
    /// The bindings.
    pub bindings: Items<BindingItem>,
}

/// What the sections of a document say, or the first fault in one.
#[tactic(auto, unfolding(crate::specs::Drafts::draft_of))]
pub fn draft_of(alloc: Global, document: &Table) -> Result<Draft, SiteFault>
    ensures answer { Gives SiteFault.NoMemory result (draft_of (table_view document.now)) }
{
    let device = device_section(alloc, document)?;
    let classes = read_section::<ClassItem>(alloc, Section::Class, document)?;
    let destinations = read_section::<DestinationSite>(alloc, Section::Destination, document)?;
    let objects = read_section::<ObjectSite>(alloc, Section::Object, document)?;
    let enrollments = read_section::<EnrollmentSite>(alloc, Section::Enrollment, document)?;
    let logs = read_section::<LogSite>(alloc, Section::Log, document)?;
    let bindings = read_section::<BindingItem>(alloc, Section::Binding, document)?;
    Ok(Draft {
        device,
        classes,
        destinations,
        objects,
        enrollments,
        logs,
        bindings,
    })
}
