//! Why the elements of a property aren't edited.

ghost use Rattle.std.specs.Prelude.{◌≡◌, IfOk};
ghost use Rattle.service_desk.specs.ListDecisions.{any_index, is_list_of_values, list_verdict, property_error};

use alarm_core::{Core, ReadFault};
use bac_values::{NoMemory, ObjectId, ObjectKind, PropertyId, ServiceError};
use std::alloc::Global;

// Whether a property is one of the lists of a multi-state value, whose elements can't be edited.
fn is_list_of_values(object: ObjectId, property: PropertyId) -> bool
    ensures list { result ≡ is_list_of_values object property.0 }
{
    object.number() == ObjectKind::MultiStateValue.number()
        && (property.0 == PropertyId::ALARM_VALUES.0 || property.0 == PropertyId::FAULT_VALUES.0)
}

// Why the elements of a property that there is aren't edited.
fn list_verdict(object: ObjectId, property: PropertyId) -> Option<ServiceError>
    ensures verdict { result ≡ list_verdict object property.0 }
{
    if property.0 == PropertyId::RECIPIENT_LIST.0 {
        return None;
    }
    if is_list_of_values(object, property) {
        return Some(ServiceError::WRITE_ACCESS_DENIED);
    }
    Some(ServiceError::PROPERTY_IS_NOT_A_LIST)
}

// An index that each array has, where one is given.
fn any_index(index: Option<u32>) -> Option<u32>
    ensures index { result ≡ any_index index }
{
    match index {
        Some(_index) => Some(0),
        None => None,
    }
}

/// Why the elements of a property aren't edited, whatever they are.
pub(crate) fn property_error(
    alloc: Global,
    core: &Core,
    object: ObjectId,
    property: PropertyId,
    index: Option<u32>,
) -> Result<Option<ServiceError>, NoMemory>
    ensures error { IfOk result (λ error. error ≡ property_error core.now object property.0 index) }
{
    match core.read(alloc, object, property, any_index(index)) {
        Ok(_octets) => Ok(list_verdict(object, property)),
        Err(ReadFault::Error { class, code }) => Ok(Some(ServiceError { class, code })),
        Err(ReadFault::NoMemory) => Err(NoMemory),
    }
}
