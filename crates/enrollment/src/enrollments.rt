//! The enrollments of a site, as writes leave them.

ghost use Rattle.std.specs.Prelude.{◌≡◌, ◌↔◌, ◌≤◌, All, IfErr, IfOk, IfSome, IsNone, IsTrue, None, OnErr, length};
ghost use Rattle.bac_values.specs.Limits.{most_listed_values};
ghost use Rattle.std.specs.Option.{option_copied, option_map};
ghost use Rattle.algorithm_rules.specs.Facts.{facts_of};
ghost use Rattle.bac_values.specs.Identifier.{ObjectIdData};
ghost use Rattle.object_table.specs.Objects.{IsObject};
ghost use Rattle.object_table.specs.Rows.{Ascends, AscendsById, row_of};
ghost use Rattle.enrollment.specs.Enrollments.{AscendById, IsEnrollment, StandsAt, site_of};
ghost use Rattle.enrollment.specs.References.{enrollments_of, watchers_in};
ghost use Rattle.enrollment.specs.Reliabilities.{reliability_with};
ghost use Rattle.enrollment.specs.Snapshots.{Holds, algorithm_with, facts_with};
ghost use Rattle.enrollment.specs.Verdicts.{IsError, checked_write};
ghost use Rattle.enrollment.specs.Watchers.{referrers_of, watchers};
ghost use Rattle.enrollment.specs.Writes.{IsTaken, written};

use crate::EnrollmentSite;
use crate::references::References;
use crate::reliabilities::reliability_of_enrollment;
use crate::settings::put;
use crate::snapshots::{snapshot_of_enrollment, snapshot_of_object};
use crate::verdicts::{check_property, copy_of, takes};
use algorithm_rules::Snapshot;
use bac_values::{NoMemory, ObjectId, PropertyId, Reliability, Value};
use object_table::{Change, ObjectSite, Table, What, WriteFault};
use reliability_eval::reliability;
use std::alloc::Global;
use std::marker::Model;

/// The event enrollments of a site, ascending by identifier, as the writes have left them, and who refers to an object of
/// the site. Contracts see the list of enrollments, and that of all references. Only `new` takes memory.
#[derive(Debug, Drop)]
pub struct Enrollments {
    rows: Vec<EnrollmentSite>,
    references: References,
}

impl Model for Enrollments {
    ghost use Rattle.enrollment.specs.Objects.{EnrollmentsState};
    ghost use Rattle.enrollment.specs.References.{AreEnrollments};

    ghost Value = { EnrollmentsState };

    ghost view = { λ enrollments. record {
      sites = enrollments.rows.items;
      references = enrollments.references;
    } };

    ghost invariant = { λ enrollments. AreEnrollments enrollments.rows.items enrollments.references };
}

impl Enrollments {
    /// The enrollments of a site, whose value objects are looked at for their references.
    pub fn new(
        alloc: Global,
        site: Vec<EnrollmentSite>,
        objects: &[ObjectSite],
    ) -> Result<Enrollments, NoMemory>
        requires ascending { AscendById site.items }
        requires allowed { All IsEnrollment site.items }
        requires objects_ascend { AscendsById objects.now }
        requires objects { All IsObject objects.now }
        ensures enrollments { IfOk result (λ enrollments. enrollments ≡ enrollments_of objects.now site.items) }
        ensures watchers { IfOk result (λ enrollments. (object : ObjectIdData) → watchers_in object enrollments.references ≡ watchers object (referrers_of objects.now site.items)) }
    {
        let references = References::of(alloc, objects, &site)?;
        Ok(Enrollments {
            rows: site,
            references,
        })
    }

    /// The enrollments, ascending.
    pub fn rows(&self) -> &[EnrollmentSite]
        ensures rows { result.now ≡ self.now.sites }
        ensures ascending { AscendById self.now.sites }
        ensures allowed { All IsEnrollment self.now.sites }
    {
        self.rows.as_slice()
    }

    /// The enrollment with an identifier, if there is one. It takes as many looks as the number of enrollments has binary
    /// digits.
    pub fn row(&self, object: ObjectId) -> Option<&EnrollmentSite>
        ensures row { option_copied result ≡ site_of object self.now.sites }
        ensures allowed { IfSome result (λ site. IsEnrollment site.now) }
    {
        match self.place_of(object) {
            Ok(place) => Some(&self.rows[place]),
            Err(_) => None,
        }
    }

    /// The change that a write of a property makes, or the first error that applies to it: no such enrollment or property,
    /// an index where there is no array or above its length, a property that can't be written, another type, and a value
    /// that the property can't be.
    pub fn check_write(
        &self,
        object: ObjectId,
        property: PropertyId,
        index: Option<u32>,
        value: &Value,
    ) -> Result<Change, WriteFault>
        ensures verdict { result ≡ checked_write self.now.sites object property.0 index value.now }
        ensures error { IfErr result IsError }
        ensures takes { IfOk result (λ change. IsTaken change self.now.sites) }
    {
        let Some(site) = self.row(object) else {
            return Err(WriteFault::UNKNOWN_OBJECT);
        };
        check_property(site, property, index, value)?;
        Ok(Change {
            object,
            what: What::Property {
                property,
                value: copy_of(value),
            },
        })
    }

    /// Whether there is the enrollment of a change, and it takes it.
    pub fn takes(&self, change: &Change) -> bool
        ensures takes { IsTrue result ↔ IsTaken change.now self.now.sites }
    {
        match self.row(change.object) {
            Some(site) => takes(site, &change.what),
            None => false,
        }
    }

    /// Makes a change that an enrollment takes, and gives the change that takes it back.
    pub fn apply(&mut self, change: Change) -> Change
        requires taken { IsTaken change self.old.sites }
        ensures rows { self.new.sites ≡ written change self.old.sites }
        ensures references { self.new.references ≡ self.old.references }
        ensures undo { written result self.new.sites ≡ self.old.sites }
        ensures takes { IsTaken result self.new.sites }
        ensures object { result.object ≡ change.object }
    {
        let Change { object, what } = change;
        match self.place_of(object) {
            Ok(place) => Change {
                object,
                what: put(&mut self.rows[place], what),
            },
            Err(_) => unreachable!(),
        }
    }

    /// What the event algorithm of an enrollment or a value object looks at. There is nothing where the identifier is that of
    /// neither, or the table lacks the object that the enrollment monitors.
    pub fn snapshot_of<'a>(&self, table: &'a Table, object: ObjectId) -> Option<Snapshot<'a>>
        ensures algorithm { IfSome result (λ snapshot. snapshot.algorithm ≡ algorithm_with object self.now.sites) }
        ensures facts { option_map facts_of result ≡ facts_with object self.now.sites table.now }
        ensures few { IfSome result (λ snapshot. length snapshot.alarm_values.now ≤ most_listed_values) }
        ensures absent { Holds table.now self.now.sites → IsNone result ↔ (site_of object self.now.sites ≡ None) × (row_of object table.now ≡ None) }
    {
        match self.row(object) {
            Some(site) => snapshot_of_enrollment(table, site),
            None => match table.row(object) {
                Some(row) => Some(snapshot_of_object(object, &row.site)),
                None => None,
            },
        }
    }

    /// The reliability of an enrollment or a value object: that of a value object is its own, and an enrollment has a fault
    /// where its monitored object or its feedback has one. There is no fault where the identifier is that of neither.
    pub fn reliability_of(&self, table: &Table, object: ObjectId) -> Reliability
        ensures reliability { result ≡ reliability_with object self.now.sites table.now }
    {
        match self.row(object) {
            Some(site) => reliability_of_enrollment(table, site),
            None => reliability(table, object),
        }
    }

    /// The enrollments that monitor an object or have it as their feedback, and the value objects and enrollments that it
    /// inhibits; ascending, each once.
    pub fn watchers_of(&self, object: ObjectId) -> &[ObjectId]
        ensures watchers { result.now ≡ watchers_in object self.now.references }
        ensures ascending { Ascends result.now }
    {
        self.references.watchers_of(object)
    }

    fn place_of(&self, object: ObjectId) -> Result<usize, usize>
        ensures found { IfOk result (StandsAt object self.now.sites) }
        ensures absent { OnErr result (site_of object self.now.sites ≡ None) }
    {
        self.rows.binary_search_by_key(&object, |site| site.object)
    }
}
