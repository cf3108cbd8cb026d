//! The identifiers of all objects of a site, in their order.

ghost use Rattle.std.specs.Prelude.{◌≡◌, ◌++◌, All, IfOk, None, OnOk, Some, length, map};
ghost use Rattle.bac_tags.specs.Writing.{written_object, written_unsigned};
ghost use Rattle.property_values.specs.DeviceProperties.{device_content, device_property, object_list};
ghost use Rattle.property_values.specs.Devices.{HasInstance, class_object};
ghost use Rattle.property_values.specs.Reading.{AnswersContent, AnswersRead, part_of, size_of};
ghost use Rattle.property_values.specs.declared.content.Content.TheVariants.{Elements};
ghost use Rattle.alarm_core.specs.Devices.{device_object, identifiers_of};
ghost use Rattle.alarm_core.specs.Reading.{AnswersSize, size_in};
ghost use Rattle.alarm_core.specs.Sites.{IsSite};

use crate::{ClassSite, EnrollmentSite, LogSite, ReadFault, Site};
use bac_tags::{write_object, write_unsigned};
use bac_values::{NoMemory, ObjectId, PropertyId, part_count, push};
use object_table::ObjectSite;
use property_values::{
    Content, DeviceProperty, class_object, device_property, object_list, object_of_device,
};
use std::alloc::Global;

/// The identifier of a site's device.
pub(crate) fn device_object(site: &Site) -> ObjectId
    requires site { IsSite site.now }
    ensures object { result ≡ device_object site.now }
{
    object_of_device(&site.device)
}

fn add_objects(identifiers: &mut Vec<ObjectId>, objects: &[ObjectSite]) -> Result<(), NoMemory>
    ensures added { OnOk result (identifiers.new.items ≡ identifiers.old.items ++ map (λ (object : ObjectSite). object.object) objects.now) }
{
    for object in objects {
        push(identifiers, object.object)?;
    }
    Ok(())
}

fn add_classes(identifiers: &mut Vec<ObjectId>, classes: &[ClassSite]) -> Result<(), NoMemory>
    requires instances { All HasInstance classes.now }
    ensures added { OnOk result (identifiers.new.items ≡ identifiers.old.items ++ map class_object classes.now) }
{
    for listed in classes {
        push(identifiers, class_object(listed))?;
    }
    Ok(())
}

fn add_enrollments(
    identifiers: &mut Vec<ObjectId>,
    enrollments: &[EnrollmentSite],
) -> Result<(), NoMemory>
    ensures added { OnOk result (identifiers.new.items ≡ identifiers.old.items ++ map (λ (enrollment : EnrollmentSite). enrollment.object) enrollments.now) }
{
    for enrollment in enrollments {
        push(identifiers, enrollment.object)?;
    }
    Ok(())
}

fn add_logs(identifiers: &mut Vec<ObjectId>, logs: &[LogSite]) -> Result<(), NoMemory>
    ensures added { OnOk result (identifiers.new.items ≡ identifiers.old.items ++ map (λ (log : LogSite). log.object) logs.now) }
{
    for log in logs {
        push(identifiers, log.object)?;
    }
    Ok(())
}

// The device, and the site's objects list by list.
fn identifiers_of(alloc: Global, site: &Site) -> Result<Vec<ObjectId>, NoMemory>
    requires site { IsSite site.now }
    ensures identifiers { IfOk result (λ identifiers. identifiers.items ≡ identifiers_of site.now) }
{
    let mut identifiers = Vec::new(alloc);
    push(&mut identifiers, device_object(site))?;
    add_objects(&mut identifiers, site.objects.as_slice())?;
    add_classes(&mut identifiers, site.classes.as_slice())?;
    add_enrollments(&mut identifiers, site.enrollments.as_slice())?;
    add_logs(&mut identifiers, site.logs.as_slice())?;
    Ok(identifiers)
}

/// The identifiers of a site in the order of Object_List.
pub(crate) fn listed_identifiers(alloc: Global, site: &Site) -> Result<Vec<ObjectId>, NoMemory>
    requires site { IsSite site.now }
    ensures list { IfOk result (λ list. list.items ≡ object_list (identifiers_of site.now)) }
{
    let identifiers = identifiers_of(alloc, site)?;
    object_list(alloc, &identifiers)
}

fn length_octets(alloc: Global, length: usize) -> Result<Vec<u8>, NoMemory>
    ensures octets { IfOk result (λ octets. octets.items ≡ written_unsigned None length) }
{
    let mut octets = Vec::new(alloc);
    write_unsigned(&mut octets, None, part_count(length)?)?;
    Ok(octets)
}

fn identifier_octets(alloc: Global, object: ObjectId) -> Result<Vec<u8>, NoMemory>
    ensures octets { IfOk result (λ octets. octets.items ≡ written_object None object) }
{
    let mut octets = Vec::new(alloc);
    write_object(&mut octets, None, object)?;
    Ok(octets)
}

/// An element of an array of identifiers, counted from 1, or the array's length at index 0. No other element is looked at.
pub(crate) fn part_of_identifiers(
    alloc: Global,
    identifiers: &[ObjectId],
    index: u32,
) -> Result<Vec<u8>, ReadFault>
    ensures part { AnswersRead result (part_of (Elements (map (written_object None) identifiers.now)) (Some index)) }
{
    if index == 0 {
        return Ok(length_octets(alloc, identifiers.len())?);
    }
    match identifiers.get(index as usize - 1) {
        Some(object) => Ok(identifier_octets(alloc, *object)?),
        None => Err(ReadFault::INVALID_ARRAY_INDEX),
    }
}

// The identifiers that a property of the device shows: all of the site for Object_List, and none for any other.
fn identifiers_for(
    alloc: Global,
    site: &Site,
    property: DeviceProperty,
) -> Result<Vec<ObjectId>, NoMemory>
    requires site { IsSite site.now }
    ensures same { IfOk result (λ identifiers. device_property site.now.device identifiers.items property ≡ device_property site.now.device (identifiers_of site.now) property) }
{
    match property {
        DeviceProperty::ObjectList => identifiers_of(alloc, site),
        _ => Ok(Vec::new(alloc)),
    }
}

/// What a property of the site's device is, or that there is none.
pub(crate) fn device_content(
    alloc: Global,
    site: &Site,
    property: PropertyId,
) -> Result<Content, ReadFault>
    requires site { IsSite site.now }
    ensures content { AnswersContent result (device_content site.now.device (identifiers_of site.now) property.0) }
{
    let Some(known) = DeviceProperty::of_number(property.0) else {
        return Err(ReadFault::UNKNOWN_PROPERTY);
    };
    let identifiers = identifiers_for(alloc, site, known)?;
    Ok(device_property(alloc, &site.device, &identifiers, known)?)
}

// The length of a property of the device that is an array, where its Object_List is this one.
fn size_of_property(
    site: &Site,
    list: &[ObjectId],
    property: DeviceProperty,
) -> Result<Option<u32>, NoMemory>
    requires list { list.now ≡ object_list (identifiers_of site.now) }
    ensures size { IfOk result (λ size. size ≡ size_of (device_property site.now.device (identifiers_of site.now) property)) }
{
    match property {
        DeviceProperty::ObjectList => Ok(Some(part_count(list.len())?)),
        _ => Ok(None),
    }
}

/// The length of a property of the site's device that is an array, or that there is no such property, where its Object_List
/// is this one. No element of it is looked at.
pub(crate) fn device_size(
    site: &Site,
    list: &[ObjectId],
    property: PropertyId,
) -> Result<Option<u32>, ReadFault>
    requires list { list.now ≡ object_list (identifiers_of site.now) }
    ensures size { AnswersSize result (size_in (device_content site.now.device (identifiers_of site.now) property.0)) }
{
    let Some(known) = DeviceProperty::of_number(property.0) else {
        return Err(ReadFault::UNKNOWN_PROPERTY);
    };
    Ok(size_of_property(site, list, known)?)
}
