//! Why a device isn't opened.

ghost use Rattle.std.specs.Prelude.{◌≡◌};

use ground_io::Failed;
use std::alloc::{AllocError, AllocFailed};

/// Why a journal isn't opened; the first of these that applies.
#[derive(Clone, Copy, Debug, PartialEq, Eq)]
pub enum OpenFault {
    /// A call of the device failed.
    DiskFault,
    /// The device is smaller than it must be, or than it was when it was formatted.
    SmallDevice {
        /// How many octets the device has.
        size: u64,
        /// How many it must have.
        need: u64,
    },
    /// The device holds another journal.
    Foreign {
        /// The first place of the header whose octet isn't this site's.
        at: u64,
    },
    /// The journal is damaged.
    Damaged {
        /// The place of the length that is wrong.
        at: u64,
    },
    /// Memory was refused.
    NoMemory,
}

impl From<Failed> for OpenFault {
    ghost use Rattle.alarm_journal.specs.declared.open_fault.OpenFault.TheVariants.{DiskFault};

    ghost from_gives = { λ _ fault. fault ≡ DiskFault };

    fn from(_failed: Failed) -> Self {
        OpenFault::DiskFault
    }
}

impl From<AllocError> for OpenFault {
    ghost use Rattle.alarm_journal.specs.declared.open_fault.OpenFault.TheVariants.{NoMemory};

    ghost from_gives = { λ _ fault. fault ≡ NoMemory };

    fn from(_refused: AllocError) -> Self {
        OpenFault::NoMemory
    }
}

impl<T: Drop> From<AllocFailed<T>> for OpenFault {
    ghost use Rattle.alarm_journal.specs.declared.open_fault.OpenFault.TheVariants.{NoMemory};

    ghost from_gives = { λ _ fault. fault ≡ NoMemory };

    fn from(_refused: AllocFailed<T>) -> Self {
        OpenFault::NoMemory
    }
}
