//! What a property is on the wire, and why none is read.

use bac_values::{Items, NoMemory, ServiceError};
use object_table::WriteFault;
use std::alloc::AllocError;

/// What a property of an object is on the wire.
#[derive(Debug, Drop)]
pub enum Content {
    /// One value, or a list, whose elements stand one after the other.
    Whole {
        /// The octets.
        octets: Items<u8>,
    },
    /// An array.
    Elements {
        /// The octets of each element.
        elements: Items<Items<u8>>,
    },
}

/// Why a property isn't read.
#[derive(Clone, Copy, Debug, PartialEq, Eq)]
pub enum ReadFault {
    /// The error that is answered (ANSI/ASHRAE 135-2020, clause 18).
    Error {
        /// The number of the error class.
        class: u8,
        /// The number of the error code.
        code: u8,
    },
    /// Memory was refused.
    NoMemory,
}

impl ReadFault {
    /// There is no such object.
    pub const UNKNOWN_OBJECT: ReadFault = ReadFault::Error {
        class: ServiceError::UNKNOWN_OBJECT.class,
        code: ServiceError::UNKNOWN_OBJECT.code,
    };
    /// The object has no such property.
    pub const UNKNOWN_PROPERTY: ReadFault = ReadFault::Error {
        class: ServiceError::UNKNOWN_PROPERTY.class,
        code: ServiceError::UNKNOWN_PROPERTY.code,
    };
    /// An index is given for a property that is no array.
    pub const PROPERTY_IS_NOT_AN_ARRAY: ReadFault = ReadFault::Error {
        class: ServiceError::PROPERTY_IS_NOT_AN_ARRAY.class,
        code: ServiceError::PROPERTY_IS_NOT_AN_ARRAY.code,
    };
    /// The index is above the length of the array.
    pub const INVALID_ARRAY_INDEX: ReadFault = ReadFault::Error {
        class: ServiceError::INVALID_ARRAY_INDEX.class,
        code: ServiceError::INVALID_ARRAY_INDEX.code,
    };
}

impl From<AllocError> for ReadFault {
    ghost use Rattle.std.specs.Prelude.{◌≡◌};
    ghost use Rattle.property_values.specs.declared.content.ReadFault.TheVariants.{NoMemory as Refused};

    ghost from_gives = { λ _ fault. fault ≡ Refused };

    fn from(_refused: AllocError) -> ReadFault {
        ReadFault::NoMemory
    }
}

impl From<NoMemory> for ReadFault {
    ghost use Rattle.std.specs.Prelude.{◌≡◌};
    ghost use Rattle.property_values.specs.declared.content.ReadFault.TheVariants.{NoMemory as Refused};

    ghost from_gives = { λ _ fault. fault ≡ Refused };

    fn from(_refused: NoMemory) -> ReadFault {
        ReadFault::NoMemory
    }
}

impl From<ReadFault> for WriteFault {
    ghost use Rattle.std.specs.Prelude.{◌≡◌};
    ghost use Rattle.property_values.specs.Properties.{as_write_fault};

    ghost from_gives = { λ fault write. write ≡ as_write_fault fault };

    fn from(fault: ReadFault) -> WriteFault {
        match fault {
            ReadFault::Error { class, code } => WriteFault::Error { class, code },
            ReadFault::NoMemory => WriteFault::NoMemory,
        }
    }
}
