//! What is told of transitions and acknowledgements, and to whom.

ghost use Rattle.std.specs.Prelude.{◌≡◌, ◌+◌, ◌++◌, All, false, IfOk, None, OnOk, if◌then◌else◌, length, map};
ghost use Rattle.std.specs.List.{flat_map};
ghost use Rattle.std.specs.Option.{option_copied, option_map_or, option_to_list};
ghost use Rattle.event_services.specs.Notifications.{IsTold};
ghost use Rattle.note_maker.specs.EventTypes.{transition_type};
ghost use Rattle.notify_class.specs.Chosen.{chosen_destinations};
ghost use Rattle.object_table.specs.declared.row.Row.{Row as ValueRow};
ghost use Rattle.enrollment.specs.Enrollments.{site_of};
ghost use Rattle.enrollment.specs.Snapshots.{algorithm_with};
ghost use Rattle.enrollment.specs.Subjects.{is_enabled, subject_in};
ghost use Rattle.alarm_core.specs.ListLimits.{InstancesAscend};
ghost use Rattle.alarm_core.specs.History.{state_in};
ghost use Rattle.alarm_core.specs.CoreSteps.{states_of};
ghost use Rattle.alarm_core.specs.DueSteps.{AscendByObject};
ghost use Rattle.alarm_core.specs.Notes.{IsShort, class_for, flags_at, notes_of_acknowledgement, notes_of_transition, notes_of_transitions, notification_of, source_of, text_of, told_flags, told_value, values_of};
ghost use Rattle.alarm_core.specs.Sites.{IsSite};
ghost use Rattle.alarm_core.specs.ViewSteps.{addressed_in, notes_to, transition_in};

use crate::class_search::class_among;
use crate::detection::{DetectedObject, detected_object};
use crate::identifiers::device_object;
use crate::transition::ObjectTransition;
use crate::view::{Addressed, SiteView};
use crate::{EnrollmentSite, Site};
use bac_values::{
    EventState, NoMemory, Note, ObjectId, StatusFlags, Text, Transition, Value, push,
};
use civil_stamp::LocalMoment;
use enrollment::Subject;
use event_services::{EventValues, Notification, WrittenNotification};
use note_maker::{
    Source, acknowledgement_notification, notes_of, status_flags, transition_notification,
    values_of,
};
use notify_class::{Class, uses_at};
use object_table::{Row, Table};
use reliability_eval::reliability;
use std::alloc::Global;

fn source_of(site: &Site, subject: &Subject) -> Source
    requires site { IsSite site.now }
    ensures source { result ≡ source_of site.now subject.now }
{
    Source {
        device: device_object(site),
        object: subject.object,
        algorithm: subject.algorithm,
        notify: subject.notify,
    }
}

/// The notification class of an object, among classes that ascend.
pub(crate) fn class_for<'a>(subject: &Subject, classes: &'a [Class]) -> Option<&'a Class>
    requires ascending { InstancesAscend classes.now }
    ensures class { option_copied result ≡ class_for subject.now classes.now }
{
    match subject.class {
        Some(instance) => class_among(classes, instance),
        None => None,
    }
}

// The class whose recipients are told of an object's transitions of a kind, if these are told of.
fn class_told<'a>(subject: &Subject, kind: Transition, classes: &'a [Class]) -> Option<&'a Class>
    requires ascending { InstancesAscend classes.now }
    ensures class { option_copied result ≡ (if is_enabled kind subject.now then class_for subject.now classes.now else None) }
{
    if subject.is_enabled(kind) {
        class_for(subject, classes)
    } else {
        None
    }
}

/// The event state of an object, which is NORMAL where its detection isn't enabled.
pub(crate) fn state_of(alarms: &[DetectedObject], object: ObjectId) -> EventState
    requires ascending { AscendByObject alarms.now }
    ensures state { result ≡ state_in object (states_of alarms.now) }
{
    match detected_object(alarms, object) {
        Some(detected) => detected.alarm().state(),
        None => EventState::Normal,
    }
}

fn is_out_of_service(row: Option<&Row>) -> bool
    ensures out_of_service { result ≡ option_map_or (λ (found : ValueRow). found.site.out_of_service) (option_copied row.entry) false }
{
    match row {
        Some(row) => row.site.out_of_service,
        None => false,
    }
}

// Status_Flags of a value object in an event state.
fn flags_at(table: &Table, state: EventState, object: ObjectId) -> StatusFlags
    ensures flags { result ≡ flags_at state object table.now }
{
    let out_of_service = is_out_of_service(table.row(object));
    status_flags(state, reliability(table, object), out_of_service)
}

// The flags that an enrollment tells.
fn enrollment_flags(
    view: &SiteView<'_>,
    site: &EnrollmentSite,
    transition: &ObjectTransition,
) -> StatusFlags
    ensures flags { result ≡ told_flags (Some site.now) (transition_in view.now transition.now) }
{
    let made = transition.made;
    if made.by_fault {
        let reliability = view.objects.reliability(transition.object);
        return status_flags(made.to, reliability, false);
    }
    let state = state_of(view.alarms, site.monitored);
    flags_at(view.objects.table(), state, site.monitored)
}

// The flags that are told of a transition.
fn told_flags(view: &SiteView<'_>, transition: &ObjectTransition) -> StatusFlags
    ensures flags { result ≡ told_flags (site_of transition.now.object view.now.values.enrollments) (transition_in view.now transition.now) }
{
    match view.objects.enrollments().row(transition.object) {
        Some(site) => enrollment_flags(view, site, transition),
        None => flags_at(view.objects.table(), transition.made.to, transition.object),
    }
}

// The present value that is told: an enrollment has none.
fn told_value<'a>(view: &SiteView<'a>, transition: &ObjectTransition) -> Option<&'a Value>
    ensures value { option_copied result ≡ told_value (site_of transition.now.object view.now.values.enrollments) (transition_in view.now transition.now) }
{
    match view.objects.enrollments().row(transition.object) {
        Some(_site) => None,
        None => view.objects.table().value_of(transition.object),
    }
}

// What is told of a transition.
fn told_values(
    view: &SiteView<'_>,
    transition: &ObjectTransition,
) -> Result<Option<EventValues>, NoMemory>
    ensures values { IfOk result (λ values. values ≡ values_of (transition_in view.now transition.now)) }
    ensures told { IfOk result (λ values. IsTold (transition_type (algorithm_with transition.now.object view.now.values.enrollments) transition.now.made) values) }
{
    let Some(snapshot) = view.objects.snapshot(transition.object) else {
        return Ok(None);
    };
    let reliability = view.objects.reliability(transition.object);
    let flags = told_flags(view, transition);
    let value = told_value(view, transition);
    let (made, cause) = (transition.made, transition.cause);
    values_of(&snapshot, made, cause, reliability, flags, value)
}

fn copy_of_text(text: &Text) -> Result<Text, NoMemory>
    ensures same { IfOk result (λ copy. copy ≡ text.now) }
{
    Ok(text.clone()?)
}

// The text that is told of a transition: the object's for one to the state that it enters.
fn text_of(view: &SiteView<'_>, transition: &ObjectTransition) -> Result<Option<Text>, NoMemory>
    ensures text { IfOk result (λ text. text ≡ text_of (transition_in view.now transition.now)) }
{
    let kind = transition.made.to.transition();
    match view.objects.message_text(transition.object, kind) {
        Some(text) => Ok(Some(copy_of_text(text)?)),
        None => Ok(None),
    }
}

// The notification of a transition, before it is told to a process.
fn notification_of(
    view: &SiteView<'_>,
    transition: &ObjectTransition,
    subject: &Subject,
    class: &Class,
) -> Result<Notification, NoMemory>
    requires algorithm { subject.now.algorithm ≡ algorithm_with transition.now.object view.now.values.enrollments }
    ensures notification { IfOk result (λ facts. facts ≡ notification_of view.now.site (transition_in view.now transition.now) subject.now class.now) }
    ensures told { IfOk result (λ facts. IsTold facts.event_type facts.values) }
{
    let values = told_values(view, transition)?;
    let text = text_of(view, transition)?;
    let source = source_of(view.site, subject);
    let (made, stamp) = (transition.made, view.at.stamp());
    Ok(transition_notification(&source, class, made, stamp, values, text))
}

// The notification of a transition with the class whose recipients are told, if there is one.
fn addressed_notification<'a>(
    alloc: Global,
    view: &SiteView<'a>,
    transition: &ObjectTransition,
) -> Result<Option<Addressed<'a>>, NoMemory>
    ensures addressed { IfOk result (λ told. told ≡ addressed_in view.now (transition_in view.now transition.now)) }
{
    let kind = transition.made.to.transition();
    let Some(subject) = view.objects.subject(transition.object) else {
        return Ok(None);
    };
    let Some(class) = class_told(&subject, kind, view.classes) else {
        return Ok(None);
    };
    let facts = notification_of(view, transition, &subject, class)?;
    let facts = WrittenNotification::new(alloc, facts)?;
    Ok(Some(Addressed { class, kind, facts }))
}

// One more, where it is there.
fn add_addressed<'a>(
    list: &mut Vec<Addressed<'a>>,
    addressed: Option<Addressed<'a>>,
) -> Result<(), NoMemory>
    ensures added { OnOk result (list.new.items ≡ list.old.items ++ option_to_list addressed.entry) }
{
    match addressed {
        Some(addressed) => push(list, addressed),
        None => Ok(()),
    }
}

/// The notifications of some transitions with the classes whose recipients are told, each made once.
pub(crate) fn addressed_notifications<'a>(
    alloc: Global,
    view: &SiteView<'a>,
    transitions: &[ObjectTransition],
) -> Result<Vec<Addressed<'a>>, NoMemory>
    ensures addressed { IfOk result (λ list. list.items ≡ flat_map (λ transition. option_to_list (addressed_in view.now (transition_in view.now transition))) transitions.now) }
{
    let mut list = Vec::new(alloc);
    for transition in transitions {
        let addressed = addressed_notification(alloc, view, transition)?;
        add_addressed(&mut list, addressed)?;
    }
    Ok(list)
}

/// Some notes go behind others.
pub(crate) fn add_notes(notes: &mut Vec<Note>, mut more: Vec<Note>) -> Result<(), NoMemory>
    requires old { All IsShort notes.old.items }
    requires more { All IsShort more.items }
    ensures added { OnOk result (notes.new.items ≡ notes.old.items ++ more.items) }
    ensures short { OnOk result (All IsShort notes.new.items) }
{
    match notes.append(&mut more) {
        Ok(()) => Ok(()),
        Err(_refused) => Err(NoMemory),
    }
}

// How many recipients of a class are told of a transition of this kind at a moment.
fn count_chosen(class: &Class, kind: Transition, at: &LocalMoment) -> usize
    ensures count { result ≡ length (chosen_destinations class.now.destinations kind at.now.moment at.now.zone) }
{
    class
        .destinations
        .as_slice()
        .iter()
        .filter(|destination| uses_at(destination, kind, at))
        .count()
}

// How many notes tell of a transition.
fn count_of(view: &SiteView<'_>, transition: &ObjectTransition) -> usize
    ensures count { result ≡ length (notes_of_transition view.now.site view.now.classes (transition_in view.now transition.now)) }
{
    let kind = transition.made.to.transition();
    let Some(subject) = view.objects.subject(transition.object) else {
        return 0;
    };
    match class_told(&subject, kind, view.classes) {
        Some(class) => count_chosen(class, kind, view.at),
        None => 0,
    }
}

// Some more of what is counted. More than can be counted is nothing that there is memory for.
fn counted(count: usize, more: usize) -> Result<usize, NoMemory>
    ensures sum { IfOk result (λ sum. sum ≡ count + more) }
{
    match count.checked_add(more) {
        Some(sum) => Ok(sum),
        None => Err(NoMemory),
    }
}

/// How many notes tell of some transitions, behind so many others. None of them is made.
pub(crate) fn count_notes(
    view: &SiteView<'_>,
    transitions: &[ObjectTransition],
    others: usize,
) -> Result<usize, NoMemory>
    ensures count { IfOk result (λ count. count ≡ others + length (notes_of_transitions view.now.site view.now.classes (map (transition_in view.now) transitions.now))) }
{
    let mut count = others;
    for transition in transitions {
        count = counted(count, count_of(view, transition))?;
    }
    Ok(count)
}

/// The notes of some notifications at a moment.
pub(crate) fn notes_of_all(
    alloc: Global,
    addressed: &[Addressed<'_>],
    at: &LocalMoment,
) -> Result<Vec<Note>, NoMemory>
    ensures notes { IfOk result (λ notes. notes.items ≡ flat_map (notes_to at.now) addressed.now) }
    ensures short { IfOk result (λ notes. All IsShort notes.items) }
{
    let mut notes = Vec::new(alloc);
    for told in addressed {
        let more = notes_of(alloc, &told.facts, told.class, told.kind, at)?;
        add_notes(&mut notes, more)?;
    }
    Ok(notes)
}

/// The notes of an acknowledgement of an object, if it is there.
pub(crate) fn notes_of_acknowledgement(
    alloc: Global,
    view: &SiteView<'_>,
    object: ObjectId,
    transition: Transition,
    named: EventState,
) -> Result<Vec<Note>, NoMemory>
    ensures notes { IfOk result (λ notes. notes.items ≡ notes_of_acknowledgement view.now.site view.now.classes view.now.moment (subject_in object view.now.values) transition named) }
    ensures short { IfOk result (λ notes. All IsShort notes.items) }
{
    let Some(subject) = view.objects.subject(object) else {
        return Ok(Vec::new(alloc));
    };
    let Some(class) = class_for(&subject, view.classes) else {
        return Ok(Vec::new(alloc));
    };
    let source = source_of(view.site, &subject);
    let facts = acknowledgement_notification(&source, class, named, view.at.stamp());
    let facts = WrittenNotification::new(alloc, facts)?;
    notes_of(alloc, &facts, class, transition, view.at)
}
