//! The properties and the alarms with which a site begins.

ghost use Rattle.std.specs.Prelude.{◌≡◌, ◌==◌, ◌++◌, ◌∷◌, [], IfOk, OnOk, filter, find, if◌then◌else◌, map};
ghost use Rattle.std.specs.Option.{option_copied};
ghost use Rattle.notify_class.specs.declared.class_site.ClassSite.{ClassSite as Listed};
ghost use Rattle.enrollment.specs.Subjects.{is_detecting};
ghost use Rattle.alarm_core.specs.CoreSteps.{first_with};
ghost use Rattle.alarm_core.specs.DueSteps.{AscendByObject};
ghost use Rattle.alarm_core.specs.Sites.{IsSite};
ghost use Rattle.alarm_core.specs.Subjects.{ack_required_of, detecting_subjects, site_class_of};
ghost use Rattle.alarm_core.specs.Values.{first_values};

use crate::detection::DetectedObject;
use crate::detections::Detections;
use crate::{ClassSite, Site};
use bac_values::{NoMemory, push};
use civil_stamp::LocalMoment;
use enrollment::{Enrollments, Objects, Subject, copy_of_enrollments, subjects_of};
use object_table::{Table, copy_of_objects};
use std::alloc::Global;

/// The properties of all objects of a site at its start.
pub(crate) fn first_objects(alloc: Global, site: &Site) -> Result<Objects, NoMemory>
    requires site { IsSite site.now }
    ensures objects { IfOk result (λ objects. objects ≡ first_values site.now) }
{
    let listed = copy_of_objects(alloc, site.objects.as_slice())?;
    let table = Table::new(alloc, listed)?;
    let listed = copy_of_enrollments(alloc, site.enrollments.as_slice())?;
    let enrollments = Enrollments::new(alloc, listed, site.objects.as_slice())?;
    let objects = Objects::new(table, enrollments);
    Ok(objects)
}

fn has_instance(listed: &ClassSite, instance: u32) -> bool
    ensures same { result ≡ (listed.now.class.instance == instance) }
{
    listed.class.instance == instance
}

fn class_of(classes: &[ClassSite], instance: u32) -> Option<&ClassSite>
    ensures class { option_copied result ≡ find (λ (listed : Listed). listed.class.instance == instance) classes.now }
{
    classes.iter().find(|listed| has_instance(listed, instance))
}

/// Ack_Required of a subject's notification class.
pub(crate) fn ack_required_of(site: &Site, subject: &Subject) -> [bool; 3]
    ensures ack_required { result ≡ ack_required_of site.now subject.now }
{
    let Some(instance) = subject.class else {
        return [false; 3];
    };
    match class_of(site.classes.as_slice(), instance) {
        Some(listed) => listed.class.ack_required,
        None => [false; 3],
    }
}

// One more, if its event detection is enabled.
fn add_first(
    site: &Site,
    objects: &Objects,
    subject: &Subject,
    at: &LocalMoment,
    alarms: &mut Vec<DetectedObject>,
) -> Result<(), NoMemory>
    ensures added { OnOk result (alarms.new.items ≡ alarms.old.items ++
        (if is_detecting subject.now then first_with at.now (ack_required_of site.now subject.now) objects.now subject.now ∷ [] else [])) }
{
    if !subject.is_detecting() {
        return Ok(());
    }
    let ack_required = ack_required_of(site, subject);
    push(
        alarms,
        DetectedObject::first(subject, ack_required, objects, at),
    )
}

fn alarms_of(
    alloc: Global,
    site: &Site,
    objects: &Objects,
    subjects: &[Subject],
    at: &LocalMoment,
) -> Result<Vec<DetectedObject>, NoMemory>
    ensures alarms { IfOk result (λ alarms. alarms.items ≡ map (λ subject. first_with at.now (ack_required_of site.now subject) objects.now subject) (filter is_detecting subjects.now)) }
{
    let mut alarms = Vec::new(alloc);
    for subject in subjects {
        add_first(site, objects, subject, at, &mut alarms)?;
    }
    Ok(alarms)
}

/// The objects whose event detection is enabled, at the start.
pub(crate) fn first_alarms(
    alloc: Global,
    site: &Site,
    objects: &Objects,
    at: &LocalMoment,
) -> Result<Vec<DetectedObject>, NoMemory>
    requires site { IsSite site.now }
    ensures ascending { IfOk result (λ alarms. AscendByObject alarms.items) }
    ensures alarms { IfOk result (λ alarms. alarms.items ≡ map (λ subject. first_with at.now (ack_required_of site.now subject) objects.now subject) (detecting_subjects site.now)) }
{
    let subjects = subjects_of(alloc, site.objects.as_slice(), site.enrollments.as_slice())?;
    alarms_of(alloc, site, objects, &subjects, at)
}

/// The values of a site's objects at its start, and what is detected then.
pub(crate) fn first_detections(
    alloc: Global,
    site: &Site,
    at: &LocalMoment,
) -> Result<Detections, NoMemory>
    requires site { IsSite site.now }
    ensures values { IfOk result (λ first. first.values ≡ first_values site.now) }
    ensures alarms { IfOk result (λ first. first.alarms ≡ map (λ subject. first_with at.now (ack_required_of site.now subject) (first_values site.now) subject) (detecting_subjects site.now)) }
{
    let objects = first_objects(alloc, site)?;
    let alarms = first_alarms(alloc, site, &objects, at)?;
    let detections = Detections::new(alloc, objects, alarms, at)?;
    Ok(detections)
}
