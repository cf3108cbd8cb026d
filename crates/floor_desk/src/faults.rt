//! Why a call of a floor isn't carried out. In each the causes are looked at in the order in which they stand.

use bac_values::NoMemory;

/// Why an input isn't taken. Nothing has changed then, but that the requester of a `Full` one is told.
#[derive(Clone, Copy, Debug, PartialEq, Eq, Drop)]
pub enum EnterFault {
    /// A commit failed, and the device has to be opened again.
    Stopped {
        /// The place of its entry in the history, from 1.
        at: u64,
    },
    /// Too much is pending: a commit comes first.
    Behind {
        /// How many calls with a record or a datagram are pending.
        pending: u64,
        /// How many octets of records are.
        octets: u64,
    },
    /// The event's notifications don't fit the outbox.
    Full {
        /// How many notifications would then wait.
        would: u32,
        /// How many may.
        limit: u32,
    },
    /// Memory was refused.
    NoMemory,
}

/// Why nothing is committed.
#[derive(Clone, Copy, Debug, PartialEq, Eq, Drop)]
pub enum CommitFault {
    /// A commit failed, and the device has to be opened again.
    Stopped {
        /// The place of its entry in the history, from 1.
        at: u64,
    },
    /// The press is out for another commit.
    Busy {
        /// The place of the entry with which it left, from 1.
        at: u64,
        /// It writes the events up to this number.
        upto: u64,
    },
    /// Nothing is pending.
    Nothing {
        /// How many events there are.
        upto: u64,
    },
    /// Memory was refused before the press left.
    NoMemory,
    /// The disk failed.
    DiskFault,
}

impl From<NoMemory> for EnterFault {
    ghost use Rattle.std.specs.Prelude.{◌≡◌};
    ghost use Rattle.floor_desk.specs.declared.faults.EnterFault.TheVariants as faults;

    ghost from_gives = { λ _ fault. fault ≡ faults.NoMemory };

    fn from(_refused: NoMemory) -> EnterFault {
        EnterFault::NoMemory
    }
}

impl From<NoMemory> for CommitFault {
    ghost use Rattle.std.specs.Prelude.{◌≡◌};
    ghost use Rattle.floor_desk.specs.declared.faults.CommitFault.TheVariants as faults;

    ghost from_gives = { λ _ fault. fault ≡ faults.NoMemory };

    fn from(_refused: NoMemory) -> CommitFault {
        CommitFault::NoMemory
    }
}
