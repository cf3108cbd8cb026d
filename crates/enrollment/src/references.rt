//! Who refers to whom, found by the one that is referred to.

ghost use Rattle.std.specs.Prelude.{◌≡◌, ◌≤◌, ◌++◌, ◌∷◌, [], true, false, IfOk, OnOk, filter, length, map, slice_range, if◌then◌else◌};
ghost use Rattle.std.specs.List.{flat_map, list_any};
ghost use Rattle.std.specs.List.Sorted.{IsPartitionPoint, IsSortedByKey};
ghost use Rattle.std.specs.Option.{option_to_list};
ghost use Rattle.bac_values.specs.Identifier.{ObjectIdData};
ghost use Rattle.bac_values.specs.Orders.{identifier_order};
ghost use Rattle.object_table.specs.Rows.{is_object};
ghost use Rattle.enrollment.specs.References.{in_order, is_below, is_to, is_up_to, reference_if_new, reference_to, references_by, references_of, referred_by, stands, watcher_of, watchers_in};
ghost use Rattle.enrollment.specs.Watchers.{referrer_of_enrollment, referrer_of_object, referrers_of};

use crate::EnrollmentSite;
use crate::subjects::is_before_enrollments;
use bac_values::{NoMemory, ObjectId, push};
use object_table::ObjectSite;
use std::alloc::Global;
use std::marker::Model;

/// That a value object or an enrollment refers to an object.
#[derive(Clone, Copy, Debug)]
pub struct Reference {
    /// The object.
    pub referred: ObjectId,
    /// The one that refers.
    pub watcher: ObjectId,
}

/// The references of value objects and enrollments, in the order of the objects to which they refer.
#[derive(Debug, Drop)]
pub struct References {
    references: Vec<Reference>,
    watchers: Vec<ObjectId>,
}

impl Model for References {
    ghost use Rattle.std.specs.Prelude.{List};
    ghost use Rattle.enrollment.specs.declared.references.Reference.{Reference};
    ghost use Rattle.enrollment.specs.References.{AreOrdered};

    ghost Value = { List Reference };

    ghost view = { λ index. index.references.items };

    ghost invariant = { λ index. AreOrdered index.references.items index.watchers.items };
}

impl References {
    /// The references of value objects and enrollments, each list of which ascends.
    pub fn of(
        alloc: Global,
        objects: &[ObjectSite],
        enrollments: &[EnrollmentSite],
    ) -> Result<References, NoMemory>
        ensures references { IfOk result (λ index. index ≡ references_of (referrers_of objects.now enrollments.now)) }
    {
        let references = in_order(collected(alloc, objects, enrollments)?)?;
        let watchers = all_watchers(alloc, &references)?;
        Ok(References {
            references,
            watchers,
        })
    }

    /// Those that refer to an object, in their order; two binary searches find them.
    pub fn watchers_of(&self, object: ObjectId) -> &[ObjectId]
        ensures watchers { result.now ≡ watchers_in object self.now }
    {
        let (start, end) = stretch_to(&self.references, object);
        &self.watchers[start..end]
    }
}

/// Where the references to an object begin and end, of references that ascend.
fn stretch_to(references: &[Reference], object: ObjectId) -> (usize, usize)
    requires ascending { IsSortedByKey referred_by identifier_order references.now }
    ensures order { result.0 ≤ result.1 }
    ensures within { result.1 ≤ length references.now }
    ensures stretch { filter (is_to object) references.now ≡ slice_range references.now result.0 result.1 }
{
    let start = count_below(references, object);
    let end = count_up_to(references, object);
    (start, end)
}

/// The references of value objects and enrollments, in the order of the identifiers of those that refer.
fn collected(
    alloc: Global,
    objects: &[ObjectSite],
    enrollments: &[EnrollmentSite],
) -> Result<Vec<Reference>, NoMemory>
    ensures references { IfOk result (λ references. references.items ≡ flat_map references_by (referrers_of objects.now enrollments.now)) }
{
    let mut references = Vec::new(alloc);
    add_objects(&mut references, objects, true)?;
    add_enrollments(&mut references, enrollments)?;
    add_objects(&mut references, objects, false)?;
    Ok(references)
}

/// The references of the value objects that stand before the enrollments, or of those behind them.
fn add_objects(
    references: &mut Vec<Reference>,
    sites: &[ObjectSite],
    before: bool,
) -> Result<(), NoMemory>
    ensures added { OnOk result (references.new.items ≡ references.old.items ++ flat_map (λ site. references_by (referrer_of_object site)) (filter (stands before) sites.now)) }
{
    for site in sites {
        add_object(references, site, stands(before, site))?;
    }
    Ok(())
}

fn add_enrollments(
    references: &mut Vec<Reference>,
    sites: &[EnrollmentSite],
) -> Result<(), NoMemory>
    ensures added { OnOk result (references.new.items ≡ references.old.items ++ flat_map (λ site. references_by (referrer_of_enrollment site)) sites.now) }
{
    for site in sites {
        add_enrollment(references, site)?;
    }
    Ok(())
}

fn stands(before: bool, site: &ObjectSite) -> bool
    ensures stands { result ≡ stands before site.now }
{
    is_before_enrollments(site) == before
}

/// The references of a value object, where it is to be looked at.
fn add_object(
    references: &mut Vec<Reference>,
    site: &ObjectSite,
    stands: bool,
) -> Result<(), NoMemory>
    ensures added { OnOk result (references.new.items ≡ references.old.items ++ (if stands then references_by (referrer_of_object site.now) else [])) }
{
    match site.inhibit_ref {
        Some(referred) if stands => push(references, reference_to(referred, site.object)),
        _ => Ok(()),
    }
}

fn add_enrollment(references: &mut Vec<Reference>, site: &EnrollmentSite) -> Result<(), NoMemory>
    ensures added { OnOk result (references.new.items ≡ references.old.items ++ references_by (referrer_of_enrollment site.now)) }
{
    let (watcher, monitored) = (site.object, site.monitored);
    push(references, reference_to(monitored, watcher))?;
    add_if_new(references, watcher, monitored, None, site.feedback)?;
    add_if_new(
        references,
        watcher,
        monitored,
        site.feedback,
        site.inhibit_ref,
    )
}

/// One more reference, if there is one, and it isn't to an object to which the watcher refers already.
fn add_if_new(
    references: &mut Vec<Reference>,
    watcher: ObjectId,
    first: ObjectId,
    second: Option<ObjectId>,
    referred: Option<ObjectId>,
) -> Result<(), NoMemory>
    ensures added { OnOk result (references.new.items ≡ references.old.items ++ reference_if_new watcher (option_to_list second ++ first ∷ []) referred) }
{
    match referred {
        Some(referred) if !is_it(referred, second) && referred != first => {
            push(references, reference_to(referred, watcher))
        }
        _ => Ok(()),
    }
}

/// Whether there is an object, and it is this one.
fn is_it(object: ObjectId, other: Option<ObjectId>) -> bool
    ensures same { result ≡ list_any (is_object object) (option_to_list other) }
{
    match other {
        Some(other) => other == object,
        None => false,
    }
}

fn reference_to(object: ObjectId, watcher: ObjectId) -> Reference
    ensures reference { result ≡ reference_to object watcher }
{
    Reference {
        referred: object,
        watcher,
    }
}

/// The references in the order of the objects to which they refer; those to one object keep theirs.
fn in_order(mut references: Vec<Reference>) -> Result<Vec<Reference>, NoMemory>
    ensures ascending { IfOk result (λ ordered. IsSortedByKey referred_by identifier_order ordered.items) }
    ensures same { IfOk result (λ ordered. ordered.items ≡ in_order references.items) }
{
    references.sort_by_key(|reference| reference.referred)?;
    Ok(references)
}

/// Who refers, in the order of the references.
fn all_watchers(alloc: Global, references: &[Reference]) -> Result<Vec<ObjectId>, NoMemory>
    ensures watchers { IfOk result (λ watchers. watchers.items ≡ map watcher_of references.now) }
{
    let watchers = references
        .iter()
        .map(|reference| reference.watcher)
        .collect(alloc)?;
    Ok(watchers)
}

/// How many of the references, which ascend, are to objects below one.
fn count_below(references: &[Reference], object: ObjectId) -> usize
    requires ascending { IsSortedByKey referred_by identifier_order references.now }
    ensures point { IsPartitionPoint (λ reference. is_below object reference ≡ true) (λ reference. is_below object reference ≡ false) references.now result }
    ensures within { result ≤ length references.now }
{
    references.partition_point(|reference| reference.referred < object)
}

/// How many of the references, which ascend, are to objects below one or to this one.
fn count_up_to(references: &[Reference], object: ObjectId) -> usize
    requires ascending { IsSortedByKey referred_by identifier_order references.now }
    ensures point { IsPartitionPoint (λ reference. is_up_to object reference ≡ true) (λ reference. is_up_to object reference ≡ false) references.now result }
    ensures within { result ≤ length references.now }
{
    references.partition_point(|reference| reference.referred <= object)
}
