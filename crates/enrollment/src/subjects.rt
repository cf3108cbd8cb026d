//! What the event detection of each object is set to, in the order of identifiers.

ghost use Rattle.std.specs.Prelude.{◌≡◌, ◌++◌, ◌∷◌, [], All, IfOk, OnOk, filter, if◌then◌else◌, map};
ghost use Rattle.object_table.specs.Objects.{IsObject};
ghost use Rattle.object_table.specs.Rows.{Ascends, AscendsById};
ghost use Rattle.enrollment.specs.Enrollments.{AscendById, IsEnrollment};
ghost use Rattle.enrollment.specs.Snapshots.{algorithm_for};
ghost use Rattle.enrollment.specs.Subjects.{is_before_enrollments, is_behind_enrollments, object_of, subject_of_enrollment, subject_of_object, subjects_of};

use crate::snapshots::algorithm_of;
use crate::{EnrollmentSite, Subject};
use algorithm_rules::Algorithm;
use bac_values::{NoMemory, ObjectId, ObjectKind, push};
use object_table::ObjectSite;
use std::alloc::Global;

// The event algorithm that a value object of this type applies.
fn algorithm_for(object: ObjectId) -> Algorithm
    ensures algorithm { result ≡ algorithm_for object }
{
    algorithm_of(object.kind())
}

/// What the event detection of a value object is set to.
pub(crate) fn subject_of_object(site: &ObjectSite) -> Subject
    ensures subject { result ≡ subject_of_object site.now }
{
    Subject {
        object: site.object,
        algorithm: algorithm_for(site.object),
        class: site.class,
        notify: site.notify,
        enable: site.enable,
        detection: site.detection,
        inhibit: site.inhibit,
        inhibit_ref: site.inhibit_ref,
    }
}

/// What the event detection of an enrollment is set to.
pub(crate) fn subject_of_enrollment(site: &EnrollmentSite) -> Subject
    ensures subject { result ≡ subject_of_enrollment site.now }
{
    Subject {
        object: site.object,
        algorithm: site.algorithm,
        class: Some(site.class),
        notify: site.notify,
        enable: site.enable,
        detection: site.detection,
        inhibit: site.inhibit,
        inhibit_ref: site.inhibit_ref,
    }
}

/// Whether a value object stands before the enrollments, by the number of its type.
pub(crate) fn is_before_enrollments(site: &ObjectSite) -> bool
    ensures before { result ≡ is_before_enrollments site.now }
{
    site.object.number() < ObjectKind::EventEnrollment.number()
}

// The value objects whose types have lower numbers than enrollments.
fn add_before(subjects: &mut Vec<Subject>, sites: &[ObjectSite]) -> Result<(), NoMemory>
    ensures added { OnOk result (subjects.new.items ≡ subjects.old.items ++ map subject_of_object (filter is_before_enrollments sites.now)) }
{
    for site in sites {
        if is_before_enrollments(site) {
            push(subjects, subject_of_object(site))?;
        }
    }
    Ok(())
}

fn add_enrollments(subjects: &mut Vec<Subject>, sites: &[EnrollmentSite]) -> Result<(), NoMemory>
    ensures added { OnOk result (subjects.new.items ≡ subjects.old.items ++ map subject_of_enrollment sites.now) }
{
    for site in sites {
        push(subjects, subject_of_enrollment(site))?;
    }
    Ok(())
}

// The other value objects.
fn add_behind(subjects: &mut Vec<Subject>, sites: &[ObjectSite]) -> Result<(), NoMemory>
    ensures added { OnOk result (subjects.new.items ≡ subjects.old.items ++ map subject_of_object (filter is_behind_enrollments sites.now)) }
{
    for site in sites {
        if !is_before_enrollments(site) {
            push(subjects, subject_of_object(site))?;
        }
    }
    Ok(())
}

/// What the event detection of value objects and enrollments is set to (ANSI/ASHRAE 135-2020, 12.12 and 13.2), those of
/// both by ascending identifier. Each of the two lists ascends.
pub fn subjects_of(
    alloc: Global,
    objects: &[ObjectSite],
    enrollments: &[EnrollmentSite],
) -> Result<Vec<Subject>, NoMemory>
    requires objects_ascend { AscendsById objects.now }
    requires objects { All IsObject objects.now }
    requires enrollments_ascend { AscendById enrollments.now }
    requires enrollments { All IsEnrollment enrollments.now }
    ensures subjects { IfOk result (λ subjects. subjects.items ≡ subjects_of objects.now enrollments.now) }
    ensures ascending { IfOk result (λ subjects. Ascends (map object_of subjects.items)) }
{
    let mut subjects = Vec::new(alloc);
    add_before(&mut subjects, objects)?;
    add_enrollments(&mut subjects, enrollments)?;
    add_behind(&mut subjects, objects)?;
    Ok(subjects)
}
