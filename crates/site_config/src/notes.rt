//! Whether the notifications of a tick fit the outbox.

ghost use Rattle.std.specs.Prelude.{◌≡◌, ◌++◌, map, nat_lt, IfOk, OnOk};
ghost use Rattle.std.specs.List.{filter_map};
ghost use Rattle.site_config.specs.Notes.{class_of_object, class_of_enrollment, members_of, notes_of};

use crate::destination::DestinationSite;
use crate::draft::Draft;
use crate::limits::count_of;
use alarm_core::EnrollmentSite;
use bac_values::{NoMemory, push};
use object_table::ObjectSite;
use std::alloc::Global;

/// Puts the class of each object that has one behind the others.
#[tactic(auto, using(crate::proofs::Named::one_named, crate::proofs::Named::none_named, crate::proofs::Named::all_named))]
fn add_objects(members: &mut Vec<u32>, objects: &[ObjectSite]) -> Result<(), NoMemory>
    ensures added { OnOk result (members.new.items ≡ members.old.items ++ filter_map class_of_object objects.now) }
{
    for site in objects {
        if let Some(class) = site.class {
            push(members, class)?;
        }
    }
    Ok(())
}

/// Puts the class of each enrollment behind the others.
fn add_enrollments(members: &mut Vec<u32>, enrollments: &[EnrollmentSite]) -> Result<(), NoMemory>
    ensures added { OnOk result (members.new.items ≡ members.old.items ++ map class_of_enrollment enrollments.now) }
{
    for site in enrollments {
        push(members, site.class)?;
    }
    Ok(())
}

/// The class of each object and enrollment that has one.
pub fn members_of(alloc: Global, draft: &Draft) -> Result<Vec<u32>, NoMemory>
    ensures members { IfOk result (λ members. members.items ≡ members_of draft.now) }
{
    let mut members = Vec::new(alloc);
    add_objects(&mut members, draft.objects.as_slice())?;
    add_enrollments(&mut members, draft.enrollments.as_slice())?;
    Ok(members)
}

/// Whether one notification of each member of a class to each of its destinations are more than the limit.
pub fn exceed(destinations: &[DestinationSite], members: &[u32], limit: u32) -> bool
    ensures exceed { result ≡ nat_lt limit (notes_of destinations.now members.now) }
{
    let mut room = limit as usize;
    for class in members {
        let count = count_of(*class, destinations);
        if count > room {
            return true;
        }
        room -= count;
    }
    false
}
