/// An error that the server answers (ANSI/ASHRAE 135-2020, clause 18).
#[derive(Clone, Copy, Debug, PartialEq, Eq)]
pub struct ServiceError {
    /// The number of the class (BACnetErrorClass).
    pub class: u8,
    /// The number of the code (BACnetErrorCode).
    pub code: u8,
}

// The numbers of the classes.
const OBJECT: u8 = 1;

const PROPERTY: u8 = 2;

const RESOURCES: u8 = 3;

const SERVICES: u8 = 5;

impl ServiceError {
    /// There is no such object.
    pub const UNKNOWN_OBJECT: ServiceError = ServiceError {
        class: OBJECT,
        code: 31,
    };
    /// The object reports no events.
    pub const NO_ALARM_CONFIGURED: ServiceError = ServiceError {
        class: OBJECT,
        code: 74,
    };
    /// The value is of another type than the property.
    pub const INVALID_DATA_TYPE: ServiceError = ServiceError {
        class: PROPERTY,
        code: 9,
    };
    /// The object has no such property.
    pub const UNKNOWN_PROPERTY: ServiceError = ServiceError {
        class: PROPERTY,
        code: 32,
    };
    /// The value is of the type that is wanted, and outside its range.
    pub const VALUE_OUT_OF_RANGE: ServiceError = ServiceError {
        class: PROPERTY,
        code: 37,
    };
    /// The property can't be written.
    pub const WRITE_ACCESS_DENIED: ServiceError = ServiceError {
        class: PROPERTY,
        code: 40,
    };
    /// The text is in a character set that the server doesn't know.
    pub const CHARACTER_SET_NOT_SUPPORTED: ServiceError = ServiceError {
        class: PROPERTY,
        code: 41,
    };
    /// The index is above the length of the array.
    pub const INVALID_ARRAY_INDEX: ServiceError = ServiceError {
        class: PROPERTY,
        code: 42,
    };
    /// An index is given for a property that is no array.
    pub const PROPERTY_IS_NOT_AN_ARRAY: ServiceError = ServiceError {
        class: PROPERTY,
        code: 50,
    };
    /// The list has no space for the element.
    pub const NO_SPACE_TO_ADD_LIST_ELEMENT: ServiceError = ServiceError {
        class: RESOURCES,
        code: 19,
    };
    /// The value is longer than the server keeps.
    pub const NO_SPACE_TO_WRITE_PROPERTY: ServiceError = ServiceError {
        class: RESOURCES,
        code: 20,
    };
    /// The property is no list whose elements can be edited.
    pub const PROPERTY_IS_NOT_A_LIST: ServiceError = ServiceError {
        class: SERVICES,
        code: 22,
    };
    /// The time stamp isn't that of the transition.
    pub const INVALID_TIME_STAMP: ServiceError = ServiceError {
        class: SERVICES,
        code: 14,
    };
    /// The element isn't in the list.
    pub const LIST_ELEMENT_NOT_FOUND: ServiceError = ServiceError {
        class: SERVICES,
        code: 81,
    };
    /// The state isn't the one that was entered.
    pub const INVALID_EVENT_STATE: ServiceError = ServiceError {
        class: SERVICES,
        code: 73,
    };
}
