//! Value objects and enrollments as one: what each is set to, what it sees, and what a change does to it.

ghost use Rattle.std.specs.Prelude.{◌≡◌, ◌↔◌, ◌≤◌, IfSome, IsFalse, IsTrue, None, length};
ghost use Rattle.bac_values.specs.Limits.{most_listed_values};
ghost use Rattle.std.specs.Option.{option_copied, option_map};
ghost use Rattle.algorithm_rules.specs.Facts.{facts_of};
ghost use Rattle.object_table.specs.Rows.{Ascends, row_of};
ghost use Rattle.enrollment.specs.Enrollments.{site_of};
ghost use Rattle.enrollment.specs.Objects.{IsTaken, ObjectsState, facts_at, reliability_at, written};
ghost use Rattle.enrollment.specs.References.{enrollments_in};
ghost use Rattle.enrollment.specs.Snapshots.{algorithm_with, value_in};
ghost use Rattle.enrollment.specs.Subjects.{inhibited_by, is_active, is_inhibited, subject_in};
ghost use Rattle.enrollment.specs.Texts.{if_not_empty, texts_in, told_text};
ghost use Rattle.enrollment.specs.Watchers.{referrers_in, watchers};

use crate::subjects::{subject_of_enrollment, subject_of_object};
use crate::{Enrollments, Subject};
use algorithm_rules::Snapshot;
use bac_values::{ObjectId, Reliability, Text, Transition, Value};
use object_table::{Change, Table};
use std::marker::Model;

/// The properties of all objects, value objects and event enrollments alike, as the writes have left them (ANSI/ASHRAE
/// 135-2020, 12.12). Contracts see the two lists; who watches an object is told by the enrollments. Nothing takes memory.
#[derive(Debug, Drop)]
pub struct Objects {
    table: Table,
    enrollments: Enrollments,
}

impl Model for Objects {
    ghost use Rattle.std.specs.Prelude.{◌≡◌};
    ghost use Rattle.enrollment.specs.Objects.{ObjectsState};
    ghost use Rattle.enrollment.specs.References.{enrollments_in};

    ghost Value = { ObjectsState };

    ghost view = { λ objects. record {
      rows = objects.table;
      enrollments = objects.enrollments.sites;
    } };

    ghost invariant = { λ objects. objects.enrollments ≡ enrollments_in (record { rows = objects.table; enrollments = objects.enrollments.sites }) };
}

// Whether a value is that of an active binary value.
fn is_active(value: Option<&Value>) -> bool
    ensures active { result ≡ is_active (option_copied value.entry) }
{
    match value {
        Some(Value::Enumerated(number)) => *number == 1,
        _ => false,
    }
}

// Whether an object is inhibited by the value to which it refers, or else by its own property.
fn inhibited_by(table: &Table, reference: Option<ObjectId>, inhibit: bool) -> bool
    ensures inhibited { result ≡ inhibited_by reference inhibit table.now }
{
    match reference {
        Some(referred) => is_active(table.value_of(referred)),
        None => inhibit,
    }
}

// A text that isn't empty.
fn if_not_empty(text: &Text) -> Option<&Text>
    ensures text { option_copied result ≡ if_not_empty text.now }
{
    if text.octets().is_empty() {
        None
    } else {
        Some(text)
    }
}

impl Objects {
    /// These value objects and enrollments together, where the enrollments were made with the references of both.
    pub fn new(table: Table, enrollments: Enrollments) -> Objects
        requires watchers { enrollments ≡ enrollments_in (record { rows = table; enrollments = enrollments.sites }) }
        ensures objects { result ≡ record { rows = table; enrollments = enrollments.sites } }
    {
        Objects { table, enrollments }
    }

    /// The value objects, ascending.
    pub fn table(&self) -> &Table
        ensures table { result.now ≡ self.now.rows }
    {
        &self.table
    }

    /// The event enrollments, ascending, which know who refers to an object.
    pub fn enrollments(&self) -> &Enrollments
        ensures enrollments { result.now ≡ enrollments_in self.now }
    {
        &self.enrollments
    }

    /// What the event detection of an object is set to, if it is there (13.2).
    pub fn subject(&self, object: ObjectId) -> Option<Subject>
        ensures subject { result ≡ subject_in object self.now }
        ensures algorithm { IfSome result (λ subject. subject.algorithm ≡ algorithm_with object self.now.enrollments) }
    {
        match self.enrollments.row(object) {
            Some(site) => Some(subject_of_enrollment(site)),
            None => match self.table.row(object) {
                Some(row) => Some(subject_of_object(&row.site)),
                None => None,
            },
        }
    }

    /// What the event algorithm of an object looks at, if it is there (13.3).
    pub fn snapshot(&self, object: ObjectId) -> Option<Snapshot<'_>>
        ensures algorithm { IfSome result (λ snapshot. snapshot.algorithm ≡ algorithm_with object self.now.enrollments) }
        ensures facts { option_map facts_of result ≡ facts_at object self.now }
        ensures few { IfSome result (λ snapshot. length snapshot.alarm_values.now ≤ most_listed_values) }
    {
        self.enrollments.snapshot_of(&self.table, object)
    }

    /// The reliability of an object: that of a value object is its own, and an enrollment has a fault where its monitored
    /// object or its feedback has one. There is no fault where the object isn't there.
    pub fn reliability(&self, object: ObjectId) -> Reliability
        ensures reliability { result ≡ reliability_at object self.now }
    {
        self.enrollments.reliability_of(&self.table, object)
    }

    /// Whether the event algorithm of an object is inhibited (13.3): where the object refers to a binary value, whether that
    /// one is active; otherwise its own Event_Algorithm_Inhibit. An object that isn't there isn't inhibited.
    pub fn is_inhibited(&self, object: ObjectId) -> bool
        ensures inhibited { result ≡ is_inhibited object self.now }
    {
        match self.subject(object) {
            Some(subject) => inhibited_by(&self.table, subject.inhibit_ref, subject.inhibit),
            None => false,
        }
    }

    /// The texts of an object's transitions to-offnormal, to-fault and to-normal. There are none where the object has none,
    /// or isn't there.
    pub fn message_texts(&self, object: ObjectId) -> &[Text]
        ensures texts { result.now ≡ texts_in object self.now }
    {
        match self.enrollments.row(object) {
            Some(site) => site.texts.as_slice(),
            None => match self.table.row(object) {
                Some(row) => row.site.texts.as_slice(),
                None => &[],
            },
        }
    }

    /// The text with which a transition of an object is told: the object's text for it, where the object has texts and this
    /// one isn't empty (13.8.1.6).
    pub fn message_text(&self, object: ObjectId, transition: Transition) -> Option<&Text>
        ensures text { option_copied result ≡ told_text transition (texts_in object self.now) }
    {
        match self.message_texts(object).get(transition.place()) {
            Some(text) => if_not_empty(text),
            None => None,
        }
    }

    /// Those that look at an object: the enrollments that monitor it or have it as their feedback, and the value objects and
    /// enrollments that it inhibits; ascending, each once.
    pub fn watchers_of(&self, object: ObjectId) -> &[ObjectId]
        ensures watchers { result.now ≡ watchers object (referrers_in self.now) }
        ensures ascending { Ascends result.now }
    {
        self.enrollments.watchers_of(object)
    }

    // Whether an identifier is that of a value object. Enrollments have another type.
    fn is_value_object(&self, object: ObjectId) -> bool
        ensures none { IsFalse result → row_of object self.now.rows ≡ None }
        ensures no_enrollment { IsTrue result → site_of object self.now.enrollments ≡ None }
    {
        match self.table.row(object) {
            Some(_row) => match self.enrollments.row(object) {
                Some(_site) => unreachable!(),
                None => true,
            },
            None => false,
        }
    }

    /// Whether there is the value object or the enrollment of a change, and it takes it.
    pub fn takes(&self, change: &Change) -> bool
        ensures takes { IsTrue result ↔ IsTaken change.now self.now }
    {
        self.table.takes(change) || self.enrollments.takes(change)
    }

    /// Makes a change that an object takes, and gives the change that takes it back.
    pub fn apply(&mut self, change: Change) -> Change
        requires taken { IsTaken change self.old }
        ensures objects { self.new ≡ written change self.old }
        ensures undo { written result self.new ≡ self.old }
        ensures takes { IsTaken result self.new }
    {
        if self.is_value_object(change.object) {
            self.table.apply(change)
        } else {
            self.enrollments.apply(change)
        }
    }
}
