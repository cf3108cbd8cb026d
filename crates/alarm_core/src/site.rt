//! A site, as its file says it, and copies of it.

ghost use Rattle.std.specs.Prelude.{◌≡◌, ◌==◌, All, IfOk, IfSome, None, OnErr, find};
ghost use Rattle.std.specs.List.{list_any};
ghost use Rattle.std.specs.Option.{option_copied};
ghost use Rattle.bac_values.specs.Identifier.{number_of_kind};
ghost use Rattle.notify_class.specs.declared.class_site.ClassSite.{ClassSite as Named};
ghost use Rattle.object_table.specs.Rows.{is_object};
ghost use Rattle.enrollment.specs.Enrollments.{AscendById};
ghost use Rattle.alarm_core.specs.Devices.{listed_class};
ghost use Rattle.alarm_core.specs.Found.{class_object, device_object, is_other_object};
ghost use Rattle.alarm_core.specs.Places.{IsAt};
ghost use Rattle.alarm_core.specs.Sites.{ClassesAscend, HasInstance, IsSite, LogsAscend};

use bac_values::{Items, NoMemory, ObjectId, ObjectKind};
use enrollment::{EnrollmentSite, copy_of_enrollments};
use event_log::{LogSite, copy_of_logs};
use notify_class::{Binding, ClassSite, copy_of_classes};
use object_table::{ObjectSite, copy_of_objects};
use property_values::DeviceSite;
use std::alloc::Global;

/// A site: what its file says. Lists ascend by instance or identifier.
#[derive(Debug, Drop)]
pub struct Site {
    /// The device.
    pub device: DeviceSite,
    /// The notification classes.
    pub classes: Items<ClassSite>,
    /// The value objects.
    pub objects: Items<ObjectSite>,
    /// The event enrollments.
    pub enrollments: Items<EnrollmentSite>,
    /// The event logs.
    pub logs: Items<LogSite>,
    /// The devices that a request may name as recipients, with their peers.
    pub bindings: Items<Binding>,
}

fn copy_of_device(site: &DeviceSite) -> Result<DeviceSite, NoMemory>
    ensures same { IfOk result (λ copy. copy ≡ site.now) }
{
    Ok(site.clone()?)
}

/// The same site once more.
pub(crate) fn copy_of_site(alloc: Global, site: &Site) -> Result<Site, NoMemory>
    ensures same { IfOk result (λ copy. copy ≡ site.now) }
{
    Ok(Site {
        device: copy_of_device(&site.device)?,
        classes: copy_of_classes(alloc, site.classes.as_slice())?,
        objects: Items::of(copy_of_objects(alloc, site.objects.as_slice())?),
        enrollments: Items::of(copy_of_enrollments(alloc, site.enrollments.as_slice())?),
        logs: copy_of_logs(alloc, site.logs.as_slice())?,
        bindings: Items::of(site.bindings.as_slice().to_vec(alloc)?),
    })
}

// Whether an identifier is that of an object of a kind with this instance.
fn is_of_kind(object: ObjectId, kind: ObjectKind, instance: u32) -> bool
    ensures same { result ≡ is_object object (record { number = number_of_kind kind; instance = instance }) }
{
    object.number() == kind.number() && object.instance() == instance
}

/// Whether an identifier is that of the site's device.
pub(crate) fn is_device(site: &Site, object: ObjectId) -> bool
    ensures same { result ≡ is_object object (device_object site.now) }
{
    is_of_kind(object, ObjectKind::Device, site.device.instance)
}

// Where the class with this instance stands among classes that ascend: found by halving.
fn place_of_listed(classes: &[ClassSite], instance: u32) -> Result<usize, usize>
    requires ascending { ClassesAscend classes.now }
    ensures found { IfOk result (IsAt (λ (listed : Named). listed.class.instance == instance) classes.now) }
    ensures absent { OnErr result (find (λ (listed : Named). listed.class.instance == instance) classes.now ≡ None) }
{
    classes.binary_search_by_key(&instance, |listed| listed.class.instance)
}

/// The notification class with this identifier, among classes that ascend.
pub(crate) fn listed_class(classes: &[ClassSite], object: ObjectId) -> Option<&ClassSite>
    requires instances { All HasInstance classes.now }
    requires ascending { ClassesAscend classes.now }
    ensures class { option_copied result ≡ listed_class object classes.now }
    ensures instance { IfSome result (λ listed. HasInstance listed.now) }
{
    if object.number() != ObjectKind::NotificationClass.number() {
        return None;
    }
    match place_of_listed(classes, object.instance()) {
        Ok(place) => Some(&classes[place]),
        Err(_place) => None,
    }
}

fn some_class(classes: &[ClassSite], object: ObjectId) -> bool
    requires instances { All HasInstance classes.now }
    requires ascending { ClassesAscend classes.now }
    ensures some { result ≡ list_any (λ (listed : Named). is_object object (class_object listed)) classes.now }
{
    listed_class(classes, object).is_some()
}

fn some_enrollment(enrollments: &[EnrollmentSite], object: ObjectId) -> bool
    requires ascending { AscendById enrollments.now }
    ensures some { result ≡ list_any (λ (listed : EnrollmentSite). is_object object listed.object) enrollments.now }
{
    enrollments
        .binary_search_by_key(&object, |listed| listed.object)
        .is_ok()
}

fn some_log(logs: &[LogSite], object: ObjectId) -> bool
    requires ascending { LogsAscend logs.now }
    ensures some { result ≡ list_any (λ (listed : LogSite). is_object object listed.object) logs.now }
{
    logs.binary_search_by_key(&object, |listed| listed.object)
        .is_ok()
}

/// Whether a site has the object beside its value objects.
pub(crate) fn is_other_object(site: &Site, object: ObjectId) -> bool
    requires site { IsSite site.now }
    ensures other { result ≡ is_other_object site.now object }
{
    is_device(site, object)
        || some_class(site.classes.as_slice(), object)
        || some_enrollment(site.enrollments.as_slice(), object)
        || some_log(site.logs.as_slice(), object)
}
