//! Identifiers that are given twice.

ghost use Rattle.std.specs.Prelude.{◌≡◌, ◌++◌, map, IfOk, OnOk};
ghost use Rattle.site_config.specs.Identifiers.{identifiers, lesser, is_twice, least_twice};

use crate::draft::Draft;
use crate::order::Identified;
use bac_values::{NoMemory, ObjectId, push};
use std::alloc::Global;
use std::cmp::Ordering;

/// The lesser identifier.
pub fn lesser(least: Option<ObjectId>, object: ObjectId) -> Option<ObjectId>
    ensures lesser { result ≡ lesser least object }
{
    match least {
        Some(least) => match object.cmp(&least) {
            Ordering::Less => Some(object),
            _ => Some(least),
        },
        None => Some(object),
    }
}

/// Puts the identifiers of the items behind the others.
fn add_identifiers<T: Identified>(objects: &mut Vec<ObjectId>, items: &[T]) -> Result<(), NoMemory>
    ensures added { OnOk result (objects.new.items ≡ objects.old.items ++ map T.id_of items.now) }
{
    for item in items {
        push(objects, item.object())?;
    }
    Ok(())
}

/// Every identifier of a site but the device's own, as often as it is given.
pub fn identifiers(alloc: Global, draft: &Draft) -> Result<Vec<ObjectId>, NoMemory>
    ensures identifiers { IfOk result (λ objects. objects.items ≡ identifiers draft.now) }
{
    let mut objects = Vec::new(alloc);
    add_identifiers(&mut objects, draft.classes.as_slice())?;
    add_identifiers(&mut objects, draft.objects.as_slice())?;
    add_identifiers(&mut objects, draft.enrollments.as_slice())?;
    add_identifiers(&mut objects, draft.logs.as_slice())?;
    add_identifiers(&mut objects, draft.bindings.as_slice())?;
    Ok(objects)
}

/// Whether the identifier is given twice.
fn is_twice(objects: &[ObjectId], object: ObjectId) -> bool
    ensures twice { result ≡ is_twice objects.now object }
{
    objects.iter().filter(|other| **other == object).count() > 1
}

/// The least identifier that is given twice.
pub fn least_twice(objects: &[ObjectId]) -> Option<ObjectId>
    ensures least { result ≡ least_twice objects.now }
{
    objects
        .iter()
        .copied()
        .filter(|object| is_twice(objects, *object))
        .fold(None, lesser)
}
