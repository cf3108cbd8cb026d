//! Why a list isn't edited.

ghost use Rattle.std.specs.Prelude.{◌≡◌};

use bac_values::{NoMemory, ServiceError};

/// Why a list isn't edited.
#[derive(Clone, Copy, Debug, Drop, PartialEq, Eq)]
pub enum EditRefusal {
    /// One of the elements fails.
    Error {
        /// The class of the error (BACnetErrorClass).
        class: u8,
        /// Its code (BACnetErrorCode).
        code: u8,
        /// The number of the first element that fails, from 1.
        element: u32,
    },
    /// Memory was refused.
    NoMemory,
}

impl From<NoMemory> for EditRefusal {
    ghost use Rattle.list_binding.specs.declared.refusal.EditRefusal.{EditRefusal};

    ghost from_gives = { λ fault refusal. refusal ≡ EditRefusal.NoMemory };

    fn from(_: NoMemory) -> EditRefusal {
        EditRefusal::NoMemory
    }
}

/// The error of the element with a number.
pub(crate) fn at_element(error: ServiceError, element: u32) -> EditRefusal
    ensures refusal { result ≡ EditRefusal.Error error.class error.code element }
{
    EditRefusal::Error {
        class: error.class,
        code: error.code,
        element,
    }
}
