//! Elements are removed from a list (15.2).

ghost use Rattle.std.specs.Prelude.{◌≡◌, ◌<◌, ◌^◌, IfOk, length, not, position};
ghost use Rattle.list_binding.specs.Edits.{Tells, is_in, list_without};
ghost use Rattle.list_binding.specs.EditSteps.{removed_of};

use crate::EditRefusal;
use crate::equality::is_in;
use crate::refusal::at_element;
use bac_values::{NoMemory, ServiceError, push};
use notify_class::Destination;
use std::alloc::Global;

// The place of the first element that isn't in the list.
fn first_not_found(list: &[Destination], elements: &[Destination]) -> Option<usize>
    ensures first { result ≡ position (λ element. not (is_in list.now element)) elements.now }
{
    elements.iter().position(|element| !is_in(list, element))
}

// The list without those equal to an element.
fn all_without(
    alloc: Global,
    list: &[Destination],
    elements: &[Destination],
) -> Result<Vec<Destination>, NoMemory>
    ensures list { IfOk result (λ left. left.items ≡ list_without list.now elements.now) }
{
    let mut left = Vec::new(alloc);
    for one in list {
        if !is_in(elements, one) {
            push(&mut left, *one)?;
        }
    }
    Ok(left)
}

/// The list without those equal to an element, unless one of the elements isn't in it.
pub(crate) fn list_without(
    alloc: Global,
    list: &[Destination],
    elements: &[Destination],
) -> Result<Vec<Destination>, EditRefusal>
    requires few { length elements.now < 2 ^ 32 }
    ensures exact { Tells (λ left. left.items) (λ answer. answer ≡ removed_of list.now elements.now) result }
{
    if let Some(place) = first_not_found(list, elements) {
        return Err(at_element(ServiceError::LIST_ELEMENT_NOT_FOUND, place as u32 + 1));
    }
    Ok(all_without(alloc, list, elements)?)
}
