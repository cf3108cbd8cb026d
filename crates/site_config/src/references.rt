//! Whether what an item refers to is there.

ghost use Rattle.std.specs.Prelude.{◌≡◌, None, map, filter};
ghost use Rattle.site_config.specs.Identifiers.{id_of_object, id_of_enrollment, id_of_log, least_with};
ghost use Rattle.site_config.specs.References.{has_class, destination_dangles, lacks_class, object_dangles, is_there, reference_dangles, can_monitor, feedback_dangles, enrollment_dangles, log_dangles, least_dangling, id_of_destination};

use crate::class::ClassItem;
use crate::destination::DestinationSite;
use crate::draft::Draft;
use crate::identifiers::lesser;
use alarm_core::{EnrollmentSite, LogSite};
use algorithm_rules::Algorithm;
use bac_values::{ObjectId, ObjectKind};
use object_table::ObjectSite;

/// Whether the class is there.
fn has_class(classes: &[ClassItem], instance: u32) -> bool
    ensures there { result ≡ has_class classes.now instance }
{
    classes
        .iter()
        .any(|item| item.object.instance() == instance)
}

/// Whether the class of an object, if it has one, isn't there.
fn lacks_class(classes: &[ClassItem], class: Option<u32>) -> bool
    ensures lacks { result ≡ lacks_class classes.now class }
{
    match class {
        Some(instance) => !has_class(classes, instance),
        None => false,
    }
}

/// Whether the object is there.
fn is_there(objects: &[ObjectSite], object: ObjectId) -> bool
    ensures there { result ≡ is_there objects.now object }
{
    objects.iter().any(|site| site.object == object)
}

/// Whether the binary value that inhibits, if there is one, isn't there.
fn reference_dangles(objects: &[ObjectSite], reference: Option<ObjectId>) -> bool
    ensures dangles { result ≡ reference_dangles objects.now reference }
{
    match reference {
        Some(referred) => !is_there(objects, referred),
        None => false,
    }
}

/// Whether the class of an object or the binary value that inhibits it isn't there.
fn object_dangles(classes: &[ClassItem], objects: &[ObjectSite], site: &ObjectSite) -> bool
    ensures dangles { result ≡ object_dangles classes.now objects.now site.now }
{
    lacks_class(classes, site.class) || reference_dangles(objects, site.inhibit_ref)
}

/// Whether the algorithm can monitor the object.
fn can_monitor(algorithm: Algorithm, object: ObjectId) -> bool
    ensures can { result ≡ can_monitor algorithm object }
{
    match algorithm {
        Algorithm::UnsignedRange => {
            object.number() == ObjectKind::PositiveIntegerValue.number()
                || object.number() == ObjectKind::MultiStateValue.number()
        }
        _ => true,
    }
}

/// Whether the feedback, if there is one, isn't there or isn't of the kind of the monitored object.
fn feedback_dangles(objects: &[ObjectSite], monitored: ObjectId, feedback: Option<ObjectId>) -> bool
    ensures dangles { result ≡ feedback_dangles objects.now monitored feedback }
{
    match feedback {
        Some(feedback) => {
            !is_there(objects, feedback) || feedback.number() != monitored.number()
        }
        None => false,
    }
}

/// Whether the class of an enrollment or an object to which it refers isn't there, or is of the wrong kind.
fn enrollment_dangles(classes: &[ClassItem], objects: &[ObjectSite], site: &EnrollmentSite) -> bool
    ensures dangles { result ≡ enrollment_dangles classes.now objects.now site.now }
{
    !has_class(classes, site.class)
        || !is_there(objects, site.monitored)
        || !can_monitor(site.algorithm, site.monitored)
        || feedback_dangles(objects, site.monitored, site.feedback)
        || reference_dangles(objects, site.inhibit_ref)
}

/// Whether a class of a log isn't there.
fn log_dangles(classes: &[ClassItem], site: &LogSite) -> bool
    ensures dangles { result ≡ log_dangles classes.now site.now }
{
    site.classes
        .as_slice()
        .iter()
        .any(|instance| !has_class(classes, *instance))
}

/// The least class that isn't there and to which a destination belongs.
fn of_destinations(classes: &[ClassItem], destinations: &[DestinationSite]) -> Option<ObjectId>
    ensures least { result ≡ least_with None (map id_of_destination (filter (destination_dangles classes.now) destinations.now)) }
{
    destinations
        .iter()
        .filter(|site| !has_class(classes, site.class.instance()))
        .map(|site| site.class)
        .fold(None, lesser)
}

/// The least of what was found and of the objects that refer to what isn't there.
fn of_objects(
    found: Option<ObjectId>,
    classes: &[ClassItem],
    objects: &[ObjectSite],
) -> Option<ObjectId>
    ensures least { result ≡ least_with found (map id_of_object (filter (object_dangles classes.now objects.now) objects.now)) }
{
    objects
        .iter()
        .filter(|site| object_dangles(classes, objects, site))
        .map(|site| site.object)
        .fold(found, lesser)
}

/// The least of what was found and of the enrollments that refer to what isn't there.
fn of_enrollments(
    found: Option<ObjectId>,
    classes: &[ClassItem],
    objects: &[ObjectSite],
    enrollments: &[EnrollmentSite],
) -> Option<ObjectId>
    ensures least { result ≡ least_with found (map id_of_enrollment (filter (enrollment_dangles classes.now objects.now) enrollments.now)) }
{
    enrollments
        .iter()
        .filter(|site| enrollment_dangles(classes, objects, site))
        .map(|site| site.object)
        .fold(found, lesser)
}

/// The least of what was found and of the logs of a class that isn't there.
fn of_logs(found: Option<ObjectId>, classes: &[ClassItem], logs: &[LogSite]) -> Option<ObjectId>
    ensures least { result ≡ least_with found (map id_of_log (filter (log_dangles classes.now) logs.now)) }
{
    logs.iter()
        .filter(|site| log_dangles(classes, site))
        .map(|site| site.object)
        .fold(found, lesser)
}

/// The least object that refers to what isn't there.
pub fn least_dangling(draft: &Draft) -> Option<ObjectId>
    ensures least { result ≡ least_dangling draft.now }
{
    let classes = draft.classes.as_slice();
    let objects = draft.objects.as_slice();
    let found = of_destinations(classes, draft.destinations.as_slice());
    let found = of_objects(found, classes, objects);
    let found = of_enrollments(found, classes, objects, draft.enrollments.as_slice());
    of_logs(found, classes, draft.logs.as_slice())
}
