//! The properties of devices, as they are read.

ghost use Rattle.std.specs.Prelude.{◌≡◌, ◌≤◌, ◌==◌, ◌++◌, IfOk, OnOk, filter};
ghost use Rattle.std.specs.List.{flat_map};
ghost use Rattle.bac_values.specs.Identifier.{number_of_kind, ObjectIdData};
ghost use Rattle.property_values.specs.DeviceProperties.{device_property, object_list};
ghost use Rattle.property_values.specs.Devices.{object_of_device};

use crate::encoding::{array_of_objects, enumerated, object, text, unsigned};
use crate::{Content, DeviceProperty, DeviceSite};
use bac_values::{LONGEST_APDU, NO_SEGMENTATION, NoMemory, ObjectId, ObjectKind, push};
use std::alloc::Global;

/// The identifier of a device.
pub fn object_of_device(device: &DeviceSite) -> ObjectId
    requires instance { device.now.instance ≤ 4194302 }
    ensures object { result ≡ object_of_device device.now }
{
    ObjectId::of_kind(ObjectKind::Device, device.instance).unwrap()
}

// Puts the identifiers of one type behind the others.
fn add_of_kind(
    list: &mut Vec<ObjectId>,
    kind: ObjectKind,
    identifiers: &[ObjectId],
) -> Result<(), NoMemory>
    ensures added { OnOk result (list.new.items ≡ list.old.items ++ filter (λ (object : ObjectIdData). object.number == number_of_kind kind) identifiers.now) }
{
    for object in identifiers {
        if object.number() == kind.number() {
            push(list, *object)?;
        }
    }
    Ok(())
}

// The identifiers of these types, type by type.
fn of_kinds(
    alloc: Global,
    kinds: &[ObjectKind],
    identifiers: &[ObjectId],
) -> Result<Vec<ObjectId>, NoMemory>
    ensures list { IfOk result (λ list. list.items ≡ flat_map (λ kind. filter (λ (object : ObjectIdData). object.number == number_of_kind kind) identifiers.now) kinds.now) }
{
    let mut list = Vec::new(alloc);
    for kind in kinds {
        add_of_kind(&mut list, *kind, identifiers)?;
    }
    Ok(list)
}

/// Object_List: identifiers type by type, whose numbers ascend.
pub fn object_list(alloc: Global, identifiers: &[ObjectId]) -> Result<Vec<ObjectId>, NoMemory>
    ensures list { IfOk result (λ list. list.items ≡ object_list identifiers.now) }
{
    of_kinds(alloc, &ObjectKind::ALL, identifiers)
}

/// What a property of a device is (ANSI/ASHRAE 135-2020, 12.11), whose site has the objects with these identifiers. Only
/// Object_List looks at them.
pub fn device_property(
    alloc: Global,
    device: &DeviceSite,
    identifiers: &[ObjectId],
    property: DeviceProperty,
) -> Result<Content, NoMemory>
    requires instance { device.now.instance ≤ 4194302 }
    ensures content { IfOk result (λ content. content ≡ device_property device.now identifiers.now property) }
{
    match property {
        DeviceProperty::ObjectIdentifier => object(alloc, object_of_device(device)),
        DeviceProperty::ObjectName => text(alloc, &device.name),
        DeviceProperty::ObjectType => enumerated(alloc, u32::from(ObjectKind::Device.number())),
        DeviceProperty::ObjectList => array_of_objects(alloc, &object_list(alloc, identifiers)?),
        DeviceProperty::MaxApduLengthAccepted => unsigned(alloc, u32::from(LONGEST_APDU)),
        DeviceProperty::SegmentationSupported => enumerated(alloc, u32::from(NO_SEGMENTATION)),
        DeviceProperty::VendorIdentifier => unsigned(alloc, u32::from(device.vendor)),
    }
}
