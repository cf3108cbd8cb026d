//! Why a write isn't taken.

use bac_values::ServiceError;
use std::alloc::AllocError;

/// Why a write isn't taken.
#[derive(Clone, Copy, Debug, PartialEq, Eq)]
pub enum WriteFault {
    /// The error that is answered (ANSI/ASHRAE 135-2020, clause 18).
    Error {
        /// The number of the error class.
        class: u8,
        /// The number of the error code.
        code: u8,
    },
    /// Memory was refused.
    NoMemory,
}

impl WriteFault {
    /// There is no such object.
    pub const UNKNOWN_OBJECT: WriteFault = WriteFault::Error {
        class: ServiceError::UNKNOWN_OBJECT.class,
        code: ServiceError::UNKNOWN_OBJECT.code,
    };
    /// The object has no such property.
    pub const UNKNOWN_PROPERTY: WriteFault = WriteFault::Error {
        class: ServiceError::UNKNOWN_PROPERTY.class,
        code: ServiceError::UNKNOWN_PROPERTY.code,
    };
    /// An index is given for a property that is no array.
    pub const PROPERTY_IS_NOT_AN_ARRAY: WriteFault = WriteFault::Error {
        class: ServiceError::PROPERTY_IS_NOT_AN_ARRAY.class,
        code: ServiceError::PROPERTY_IS_NOT_AN_ARRAY.code,
    };
    /// The index is above the length of the array.
    pub const INVALID_ARRAY_INDEX: WriteFault = WriteFault::Error {
        class: ServiceError::INVALID_ARRAY_INDEX.class,
        code: ServiceError::INVALID_ARRAY_INDEX.code,
    };
    /// The property can't be written.
    pub const WRITE_ACCESS_DENIED: WriteFault = WriteFault::Error {
        class: ServiceError::WRITE_ACCESS_DENIED.class,
        code: ServiceError::WRITE_ACCESS_DENIED.code,
    };
    /// The value is of another type than the property.
    pub const INVALID_DATA_TYPE: WriteFault = WriteFault::Error {
        class: ServiceError::INVALID_DATA_TYPE.class,
        code: ServiceError::INVALID_DATA_TYPE.code,
    };
    /// The text is in a character set other than UTF-8.
    pub const CHARACTER_SET_NOT_SUPPORTED: WriteFault = WriteFault::Error {
        class: ServiceError::CHARACTER_SET_NOT_SUPPORTED.class,
        code: ServiceError::CHARACTER_SET_NOT_SUPPORTED.code,
    };
    /// The text has more than 256 octets.
    pub const NO_SPACE_TO_WRITE_PROPERTY: WriteFault = WriteFault::Error {
        class: ServiceError::NO_SPACE_TO_WRITE_PROPERTY.class,
        code: ServiceError::NO_SPACE_TO_WRITE_PROPERTY.code,
    };
    /// The value is of the property's type, and the property can't be it.
    pub const VALUE_OUT_OF_RANGE: WriteFault = WriteFault::Error {
        class: ServiceError::VALUE_OUT_OF_RANGE.class,
        code: ServiceError::VALUE_OUT_OF_RANGE.code,
    };
}

impl From<AllocError> for WriteFault {
    ghost use Rattle.std.specs.Prelude.{◌≡◌};
    ghost use Rattle.object_table.specs.declared.faults.WriteFault.TheVariants.{NoMemory};

    ghost from_gives = { λ _ fault. fault ≡ NoMemory };

    fn from(_refused: AllocError) -> WriteFault {
        WriteFault::NoMemory
    }
}
