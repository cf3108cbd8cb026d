//! Properties are read.

ghost use Rattle.std.specs.Prelude.{◌≡◌, IsTrue, None, Ok, map};
ghost use Rattle.bac_tags.specs.Writing.{written_object};
ghost use Rattle.enrollment.specs.Subjects.{is_inhibited};
ghost use Rattle.property_values.specs.DeviceProperties.{object_list};
ghost use Rattle.property_values.specs.Reading.{AnswersContent, AnswersRead};
ghost use Rattle.property_values.specs.declared.content.Content.TheVariants.{Elements};
ghost use Rattle.alarm_core.specs.Classes.{class_in};
ghost use Rattle.alarm_core.specs.Contents.{content_of, other_content, recipients_of};
ghost use Rattle.alarm_core.specs.Devices.{identifiers_of};
ghost use Rattle.alarm_core.specs.ListLimits.{InstancesAscend};
ghost use Rattle.alarm_core.specs.Reading.{read_of};
ghost use Rattle.alarm_core.specs.Sites.{IsSite};

use crate::class_search::class_among;
use crate::enrollment_content::enrollment_content;
use crate::identifiers::{device_content, part_of_identifiers};
use crate::logs::kept_log;
use crate::site::{is_device, is_other_object, listed_class};
use crate::{Core, ReadFault, Site};
use bac_values::{ObjectId, PropertyId};
use notify_class::{Class, Destination};
use property_values::{Content, class_content, log_content, part_of, row_content};
use std::alloc::Global;

// The recipients of the class with this instance, if there is one.
fn recipients_of(classes: &[Class], instance: u32) -> &[Destination]
    requires ascending { InstancesAscend classes.now }
    ensures recipients { result.now ≡ recipients_of (class_in instance classes.now) }
{
    match class_among(classes, instance) {
        Some(class) => class.destinations.as_slice(),
        None => &[],
    }
}

/// What a property of an object beside the value objects and the enrollments is, or why there is none.
pub(crate) fn other_content(
    alloc: Global,
    site: &Site,
    classes: &[Class],
    object: ObjectId,
    property: PropertyId,
) -> Result<Content, ReadFault>
    requires site { IsSite site.now }
    requires ascending { InstancesAscend classes.now }
    ensures content { AnswersContent result (other_content site.now classes.now object property.0) }
{
    if is_device(site, object) {
        return device_content(alloc, site, property);
    }
    if let Some(listed) = listed_class(site.classes.as_slice(), object) {
        let recipients = recipients_of(classes, listed.class.instance);
        return class_content(alloc, listed, recipients, property);
    }
    if is_other_object(site, object) {
        Err(ReadFault::UNKNOWN_PROPERTY)
    } else {
        Err(ReadFault::UNKNOWN_OBJECT)
    }
}

impl Core {
    // Whether an object is inhibited, by its Event_Algorithm_Inhibit or by reference.
    fn is_inhibited(&self, object: ObjectId) -> bool
        ensures inhibited { result ≡ is_inhibited object self.now.values }
    {
        self.detections.objects().is_inhibited(object)
    }

    fn content_of(
        &self,
        alloc: Global,
        object: ObjectId,
        property: PropertyId,
    ) -> Result<Content, ReadFault>
        ensures content { AnswersContent result (content_of self.now object property.0) }
    {
        let (enrollments, table) = (self.enrollments(), self.table());
        if let Some(site) = enrollments.row(object) {
            let (alarm, inhibited) = (self.alarm_of(object), self.is_inhibited(object));
            let reliability = enrollments.reliability_of(table, object);
            return enrollment_content(alloc, &alarm, reliability, inhibited, site, property);
        }
        if let Some(row) = table.row(object) {
            let (alarm, inhibited) = (self.alarm_of(object), self.is_inhibited(object));
            return row_content(alloc, &alarm, inhibited, row, property);
        }
        match kept_log(&self.logs, object) {
            Some(kept) => log_content(alloc, kept.site(), kept.log(), property),
            None => other_content(alloc, self.site(), self.classes(), object, property),
        }
    }

    // Whether a property is the Object_List of the device, whose identifier is that of no other object.
    fn is_object_list(&self, object: ObjectId, property: PropertyId) -> bool
        ensures list { IsTrue result → content_of self.now object property.0 ≡ Ok (Elements (map (written_object None) (object_list (identifiers_of self.now.site)))) }
    {
        if property.0 != PropertyId::OBJECT_LIST.0 {
            return false;
        }
        if !is_device(self.site(), object) {
            return false;
        }
        if self.enrollments().row(object).is_some() {
            return false;
        }
        if self.table().row(object).is_some() {
            return false;
        }
        kept_log(self.logs(), object).is_none()
    }

    /// The octets of a property, or of one element of its array, whose length stands at index 0; or the first error that
    /// applies: no such object or property, an index where there is no array, or above its length.
    pub fn read(
        &self,
        alloc: Global,
        object: ObjectId,
        property: PropertyId,
        index: Option<u32>,
    ) -> Result<Vec<u8>, ReadFault>
        ensures answer { AnswersRead result (read_of self.now object property.0 index) }
    {
        if let Some(place) = index {
            if self.is_object_list(object, property) {
                return part_of_identifiers(alloc, &self.identifiers, place);
            }
        }
        let content = self.content_of(alloc, object, property)?;
        part_of(alloc, content, index)
    }
}
