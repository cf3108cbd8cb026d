//! A list is edited, or it is said which element fails, and why.

ghost use Rattle.std.specs.Prelude.{◌≡◌, ◌≢◌, ◌<◌, ◌^◌, length, Ok, IfOk, true, false, All, Contains};
ghost use Rattle.bac_values.specs.Orders.{IsAscending};
ghost use Rattle.notify_class.specs.Edits.{edit_verdict};
ghost use Rattle.list_binding.specs.Edits.{EditAnswer, EditsTo, Tells, limits_of};
ghost use Rattle.list_binding.specs.EditSteps.{changed_of, edit_of};

use crate::adding::list_with;
use crate::elements::destinations_of;
use crate::removing::list_without;
use crate::{Binding, EditRefusal, ListLimits};
use notify_class::{Class, Destination};
use std::alloc::Global;

// The elements, once they are read, are added or removed.
fn changed_of(
    alloc: Global,
    limits: &ListLimits,
    list: &[Destination],
    adding: bool,
    elements: &[Destination],
) -> Result<Vec<Destination>, EditRefusal>
    requires ascending { IsAscending limits.now.known.now }
    requires few { length elements.now < 2 ^ 32 }
    ensures exact { Tells (λ left. left.items) (λ answer. answer ≡ changed_of (limits_of limits.now) list.now adding elements.now) result }
{
    if adding {
        list_with(alloc, limits, list, elements)
    } else {
        list_without(alloc, list, elements)
    }
}

// The list that the edit leaves.
#[tactic(auto, unfolding(crate::specs::EditSteps::edit_of))]
fn edit_of(
    alloc: Global,
    limits: &ListLimits,
    bindings: &[Binding],
    list: &[Destination],
    adding: bool,
    octets: &[u8],
) -> Result<Vec<Destination>, EditRefusal>
    requires ascending { IsAscending limits.now.known.now }
    requires short { length octets.now < 2 ^ 32 }
    ensures exact { Tells (λ left. left.items) (λ answer. answer ≡ edit_of (limits_of limits.now) bindings.now list.now adding octets.now) result }
{
    let elements = destinations_of(alloc, bindings, octets)?;
    changed_of(alloc, limits, list, adding, elements.as_slice())
}

/// The list of a class once the elements that the octets spell were added to it (15.1), or removed from it (15.2), or the first
/// error.
///
/// All elements are read before any is added or removed, and the number in the error is that of the first that fails: it is an
/// invalid data type where it is no element of a Recipient_List, and a value out of range where it stands for no destination.
/// A removed one that isn't in the list isn't found; an added one that isn't equal to one before it, and by which the list is
/// above its limits, has no space. The list is the same as before where nothing changes.
pub fn edit(
    alloc: Global,
    class: &Class,
    limits: &ListLimits,
    bindings: &[Binding],
    adding: bool,
    elements: &[u8],
) -> Result<Vec<Destination>, EditRefusal>
    requires ascending { IsAscending limits.now.known.now }
    requires short { length elements.now < 2 ^ 32 }
    ensures edited { Tells (λ left. left.items) (EditsTo (limits_of limits.now) bindings.now class.now.destinations adding elements.now) result }
    ensures only { (answer : EditAnswer) → EditsTo (limits_of limits.now) bindings.now class.now.destinations adding elements.now answer → Tells (λ left. left.items) (λ told. told ≡ answer) result }
    // A list that grew is within its limits, and one of which something was removed has nothing new.
    ensures limits { adding ≡ true → IfOk result (λ left. left.items ≢ class.now.destinations → edit_verdict limits.now.known.now left.items limits.now.members limits.now.room ≡ Ok tt) }
    ensures part { adding ≡ false → IfOk result (λ left. All (λ one. Contains class.now.destinations one) left.items) }

    ensures exact { Tells (λ left. left.items) (λ answer. answer ≡ edit_of (limits_of limits.now) bindings.now class.now.destinations adding elements.now) result }
{
    edit_of(
        alloc,
        limits,
        bindings,
        class.destinations.as_slice(),
        adding,
        elements,
    )
}
