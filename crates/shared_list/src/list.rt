//! The list, and what it stands for.

ghost use Rattle.std.specs.Prelude.{◌≡◌, [], ◌∷◌, ◌++◌, OnOk, OnErr};

use std::alloc::{AllocError, Global};
use std::marker::Model;
use turnstile::{Chronicle, Pass};

/// What a call of the list did, as the history keeps it.
#[derive(Drop, Clone, Copy)]
pub enum Call {
    /// The entry was appended.
    Appended(u64),
    /// There was no memory for an entry, and the list stayed as it was.
    Refused,
}

/// A list of entries. Contracts see it as the list of its numbers.
#[derive(Drop)]
pub struct SharedList {
    entries: Vec<u64>,
}

impl Model for SharedList {
    ghost use Rattle.std.specs.Prelude.{List, ℕ};

    ghost Value = { List ℕ };

    ghost view = { λ list. list.entries.items };
}

impl SharedList {
    /// The empty list.
    pub fn new(alloc: Global) -> SharedList
        ensures { result ≡ [] }
    {
        SharedList {
            entries: Vec::new(alloc),
        }
    }

    /// The entries, in order.
    pub fn as_slice(&self) -> &[u64]
        ensures { result.now ≡ self.now }
    {
        self.entries.as_slice()
    }

    /// Appends an entry. Where there is no memory the list stays as it was.
    pub fn push(&mut self, entry: u64) -> Result<(), AllocError>
        ensures ok { OnOk result (self.new ≡ self.old ++ entry ∷ []) }
        ensures refused { OnErr result (self.new ≡ self.old) }
    {
        self.entries.push(entry)?;
        Ok(())
    }
}

impl Chronicle for SharedList {
    ghost use Rattle.std.specs.Prelude.{◌≡◌, ◌≤◌, length};
    ghost use Rattle.std.proofs.Common.{arith, length-append};
    ghost use Rattle.shared_list.specs.Calls.{appended};

    type Entry = Call;

    type Origin = ();

    /// The list is what the calls of the history have appended.
    ghost stands = { λ list history. list ≡ appended history };

    ghost origin = { λ _. tt };

    /// A mark is a number of calls that were made.
    ghost licenses = { λ history to. to ≤ length history };

    ghost licenses_more = { λ log more to licensed. Prim.omega (arith, length-append log more, licensed) };
}

/// A pass of a turnstile round a shared list.
pub type ListPass = Pass<Call, ()>;
