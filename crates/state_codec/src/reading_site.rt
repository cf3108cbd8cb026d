//! The alarms of a site are read, in the order of identifiers, and what its logs hold.

ghost use Rattle.std.specs.Prelude.{◌≡◌, IfOk, filter, length, nat_lt, zip};
ghost use Rattle.bac_values.specs.Identifier.{number_of_kind};
ghost use Rattle.bac_values.specs.declared.object_kind.ObjectKind.TheVariants.{EventEnrollment};
ghost use Rattle.enrollment.specs.Subjects.{subject_of_enrollment};
ghost use Rattle.alarm_core.specs.Sites.{IsSite};
ghost use Rattle.state_codec.specs.ReadingSteps.{Gives};
ghost use Rattle.state_codec.specs.SnapshotSteps.{alarms_at, all_enrolled_at, enrolled_at, held_at, is_before, is_behind, logs_at, object_subjects};

use crate::reading::ReadFault;
use crate::reading_logs::take_log;
use crate::reading_rest::take_enrollment;
use crate::reading_subjects::take_subject;
use alarm_core::{EnrollmentSite, LogSite, Site};
use bac_values::{NoMemory, ObjectKind, push};
use civil_stamp::Zone;
use enrollment::{Subject, subjects_of};
use event_log::EventLog;
use event_machine::Alarm;
use object_table::Table;
use std::alloc::Global;

/// Takes the alarms of subjects.
pub(crate) fn take_alarms(
    alloc: Global,
    table: &Table,
    last: u64,
    subjects: &[Subject],
    bytes: &mut &[u8],
) -> Result<Vec<Alarm>, ReadFault>
    ensures exact { Gives (λ x. (x.items, bytes.new.now)) result (alarms_at table.now last subjects.now bytes.old.now) }
{
    let mut alarms = Vec::new(alloc);
    for subject in subjects {
        let alarm = take_subject(table, last, subject, bytes)?;
        push(&mut alarms, alarm)?;
    }
    Ok(alarms)
}

/// What the event detection of an enrollment is set to.
fn subject_of(site: &EnrollmentSite) -> Subject
    ensures subject { result ≡ subject_of_enrollment site.now }
{
    Subject {
        object: site.object,
        algorithm: site.algorithm,
        class: Some(site.class),
        notify: site.notify,
        enable: site.enable,
        detection: site.detection,
        inhibit: site.inhibit,
        inhibit_ref: site.inhibit_ref,
    }
}

/// Takes the alarm of an enrollment, and its settings.
#[tactic(auto, unfolding(crate::specs::SnapshotSteps::enrolled_at))]
fn take_enrolled(
    table: &Table,
    last: u64,
    site: EnrollmentSite,
    bytes: &mut &[u8],
) -> Result<(Alarm, EnrollmentSite), ReadFault>
    ensures exact { Gives (λ x. (x, bytes.new.now)) result (enrolled_at table.now last site bytes.old.now) }
{
    let alarm = take_subject(table, last, &subject_of(&site), bytes)?;
    let site = take_enrollment(site, bytes)?;
    Ok((alarm, site))
}

/// Takes the enrollments of a site, and the alarm of each.
pub(crate) fn take_all_enrolled(
    alloc: Global,
    table: &Table,
    last: u64,
    sites: Vec<EnrollmentSite>,
    bytes: &mut &[u8],
) -> Result<(Vec<Alarm>, Vec<EnrollmentSite>), ReadFault>
    ensures exact { Gives (λ x. (zip x.0.items x.1.items, bytes.new.now)) result (all_enrolled_at table.now last sites.items bytes.old.now) }
    ensures paired { IfOk result (λ x. length x.0.items ≡ length x.1.items) }
{
    let mut alarms = Vec::new(alloc);
    let mut enrollments = Vec::new(alloc);
    let mut left = sites.into_iter();
    while let Some(site) = left.next() {
        let (alarm, enrollment) = take_enrolled(table, last, site, bytes)?;
        push(&mut alarms, alarm)?;
        push(&mut enrollments, enrollment)?;
    }
    Ok((alarms, enrollments))
}

/// Whether a value object stands before the enrollments, by the number of its type.
fn has_lower_number(subject: &Subject) -> bool
    ensures exact { result ≡ nat_lt subject.now.object.number (number_of_kind EventEnrollment) }
{
    subject.object.number() < ObjectKind::EventEnrollment.number()
}

fn is_before(subject: &Subject) -> bool
    ensures exact { result ≡ is_before subject.now }
{
    subject.class.is_some() && has_lower_number(subject)
}

fn is_behind(subject: &Subject) -> bool
    ensures exact { result ≡ is_behind subject.now }
{
    subject.class.is_some() && !has_lower_number(subject)
}

/// The value objects with alarms that stand before the enrollments.
pub(crate) fn those_before(alloc: Global, subjects: &[Subject]) -> Result<Vec<Subject>, NoMemory>
    ensures those { IfOk result (λ those. those.items ≡ filter is_before subjects.now) }
{
    let mut those = Vec::new(alloc);
    for subject in subjects {
        if is_before(subject) {
            push(&mut those, *subject)?;
        }
    }
    Ok(those)
}

/// The value objects with alarms that stand behind the enrollments.
pub(crate) fn those_behind(alloc: Global, subjects: &[Subject]) -> Result<Vec<Subject>, NoMemory>
    ensures those { IfOk result (λ those. those.items ≡ filter is_behind subjects.now) }
{
    let mut those = Vec::new(alloc);
    for subject in subjects {
        if is_behind(subject) {
            push(&mut those, *subject)?;
        }
    }
    Ok(those)
}

/// What the event detection of the value objects of a site is set to.
pub(crate) fn object_subjects(alloc: Global, site: &Site) -> Result<Vec<Subject>, NoMemory>
    requires site { IsSite site.now }
    ensures subjects { IfOk result (λ subjects. subjects.items ≡ object_subjects site.now) }
{
    subjects_of(alloc, site.objects.as_slice(), &[])
}

/// Takes what a log of a site holds.
#[tactic(auto, unfolding(crate::specs::SnapshotSteps::held_at))]
fn take_held(
    alloc: Global,
    has_rule: bool,
    zone: &Zone,
    listed: &LogSite,
    bytes: &mut &[u8],
) -> Result<EventLog, ReadFault>
    ensures exact { Gives (λ x. (x, bytes.new.now)) result (held_at has_rule zone.now listed.now bytes.old.now) }
{
    let log = take_log(alloc, has_rule, zone, listed, bytes)?;
    Ok(log)
}

/// Takes what the logs of a site hold.
pub(crate) fn take_logs(
    alloc: Global,
    has_rule: bool,
    zone: &Zone,
    sites: &[LogSite],
    bytes: &mut &[u8],
) -> Result<Vec<EventLog>, ReadFault>
    ensures exact { Gives (λ x. (x.items, bytes.new.now)) result (logs_at has_rule zone.now sites.now bytes.old.now) }
{
    let mut logs = Vec::new(alloc);
    for listed in sites {
        let log = take_held(alloc, has_rule, zone, listed, bytes)?;
        push(&mut logs, log)?;
    }
    Ok(logs)
}
