//! Elements are added to a list (15.1).

ghost use Rattle.std.specs.Prelude.{◌≡◌, ◌<◌, ◌^◌, IfOk, length};
ghost use Rattle.bac_values.specs.Orders.{IsAscending};
ghost use Rattle.list_binding.specs.Edits.{Tells, limits_of};
ghost use Rattle.list_binding.specs.EditSteps.{added_of, has_room};

use crate::equality::is_in;
use crate::refusal::at_element;
use crate::{EditRefusal, ListLimits};
use bac_values::{NoMemory, ServiceError, push};
use notify_class::{Destination, check_edit};
use std::alloc::Global;

// Whether a list is within the limits.
fn has_room(limits: &ListLimits, list: &[Destination]) -> bool
    requires ascending { IsAscending limits.now.known.now }
    ensures room { result ≡ has_room (limits_of limits.now) list.now }
{
    check_edit(limits.known, list, limits.members, limits.room).is_ok()
}

fn copy_of(alloc: Global, list: &[Destination]) -> Result<Vec<Destination>, NoMemory>
    ensures same { IfOk result (λ copy. copy.items ≡ list.now) }
{
    Ok(list.to_vec(alloc)?)
}

/// The list followed by the elements that aren't equal to one before them, unless one of these finds no space.
pub(crate) fn list_with(
    alloc: Global,
    limits: &ListLimits,
    list: &[Destination],
    elements: &[Destination],
) -> Result<Vec<Destination>, EditRefusal>
    requires ascending { IsAscending limits.now.known.now }
    requires few { length elements.now < 2 ^ 32 }
    ensures exact { Tells (λ left. left.items) (λ answer. answer ≡ added_of (limits_of limits.now) list.now elements.now) result }
{
    let mut left = copy_of(alloc, list)?;
    for (place, element) in elements.iter().enumerate() {
        if !is_in(left.as_slice(), element) {
            push(&mut left, *element)?;
            if !has_room(limits, left.as_slice()) {
                let number = place as u32 + 1;
                return Err(at_element(ServiceError::NO_SPACE_TO_ADD_LIST_ELEMENT, number));
            }
        }
    }
    Ok(left)
}
