//! Why a part has nothing to print.

use bac_values::NoMemory;
use std::alloc::{AllocError, AllocFailed};

/// Why a part of the run has nothing to print.
#[derive(Clone, Copy, Debug, PartialEq, Eq, Drop)]
pub(crate) enum Missed {
    /// Memory was refused to this program's own work. The part is played again from the start.
    Own,
    /// A call answered want of memory twice.
    Twice,
    /// A call answered what it doesn't answer here.
    Other,
}

impl From<AllocError> for Missed {
    fn from(_refused: AllocError) -> Missed {
        Missed::Own
    }
}

impl<T: Drop> From<AllocFailed<T>> for Missed {
    fn from(_refused: AllocFailed<T>) -> Missed {
        Missed::Own
    }
}

impl From<NoMemory> for Missed {
    fn from(_refused: NoMemory) -> Missed {
        Missed::Twice
    }
}
