//! What an edit of a list comes to, by its object, its property and its elements.

ghost use Rattle.std.specs.Prelude.{◌≡◌, ◌<◌, ◌^◌, length};
ghost use Rattle.list_binding.specs.Edits.{Tells};
ghost use Rattle.alarm_core.specs.Classes.{class_in};
ghost use Rattle.service_desk.specs.ListDecisions.{class_answer, list_answer};

use crate::list_property::property_error;
use alarm_core::Core;
use bac_values::ServiceError;
use list_binding::{EditRefusal, ListLimits, ListRequest, edit};
use notify_class::Destination;
use std::alloc::Global;

// An error that is that of no element.
fn of_no_element(error: ServiceError) -> EditRefusal
    ensures refusal { result ≡ EditRefusal.Error error.class error.code 0 }
{
    EditRefusal::Error {
        class: error.class,
        code: error.code,
        element: 0,
    }
}

// The list of a class with an instance, as the edit leaves it, or the error of the first element that fails.
fn class_answer(
    alloc: Global,
    core: &Core,
    number: u32,
    adding: bool,
    elements: &[u8],
) -> Result<Vec<Destination>, EditRefusal>
    requires short { length elements.now < 2 ^ 16 }
    ensures answer { Tells (λ left. left.items) (λ answer. answer ≡ class_answer core.now number adding elements.now (class_in number core.now.classes)) result }
{
    let Some(class) = core.class(number) else {
        return Err(of_no_element(ServiceError::UNKNOWN_OBJECT));
    };
    let Some((members, room)) = core.edit_room(number) else {
        return Err(of_no_element(ServiceError::UNKNOWN_OBJECT));
    };
    let limits = ListLimits {
        known: core.known_peers(),
        members,
        room,
    };
    edit(alloc, class, &limits, core.bindings(), adding, elements)
}

/// The list that an edit leaves, or the first error: that of the object or the property, and then that of the first element that
/// fails.
pub(crate) fn list_answer(
    alloc: Global,
    core: &Core,
    request: &ListRequest,
    adding: bool,
    elements: &[u8],
) -> Result<Vec<Destination>, EditRefusal>
    requires short { length elements.now < 2 ^ 16 }
    ensures answer { Tells (λ left. left.items) (λ answer. answer ≡ list_answer core.now adding
        (record { object = request.now.object; property = request.now.property.0; index = request.now.index; elements = elements.now })) result }
{
    let (object, property, index) = (request.object, request.property, request.index);
    if let Some(error) = property_error(alloc, core, object, property, index)? {
        return Err(of_no_element(error));
    }
    class_answer(alloc, core, object.instance(), adding, elements)
}
