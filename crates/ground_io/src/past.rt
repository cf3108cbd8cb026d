//! What a ground in memory remembers, while there is memory for it.

ghost use Rattle.std.specs.Prelude.{◌≡◌, ◌+◌, ◌≤◌, [], ◌∷◌, ◌++◌, List, ℕ, length, IfOk, Some, unwrap_or};
ghost use Rattle.ground_io.specs.Disk.{octets_at, with_octets};
ghost use Rattle.ground_io.specs.Past.{GoesOn};
ghost use Rattle.ground_io.specs.Trace.{sending};
ghost use Rattle.ground_io.specs.declared.entry.Entry.{Entry};
ghost use Rattle.ground_io.specs.declared.entry.Entry.TheVariants.{Wrote, Broke, Synced};

use crate::Entry;
use bac_values::{Items, Peer};
use std::alloc::{AllocError, Global};

/// What a ground in memory tells of its past.
#[derive(Debug, Drop)]
pub struct Past {
    /// The first contents; none until octets are written, since till then they still stand.
    pub first: Option<Items<u8>>,
    /// All that happened, the oldest first.
    pub entries: Vec<Entry>,
}

impl Past {
    /// The past with an entry more.
    pub fn with_entry(self, entry: Entry) -> Result<Past, AllocError>
        ensures first { IfOk result (λ more. more.first ≡ self.first) }
        ensures entries { IfOk result (λ more. more.entries.items ≡ self.entries.items ++ entry ∷ []) }
    {
        let Past { first, mut entries } = self;
        entries.push(entry)?;
        Ok(Past { first, entries })
    }

    /// The past with the first contents put aside, which are those that stand where none were.
    pub fn with_first(self, alloc: Global, contents: &[u8]) -> Result<Past, AllocError>
        ensures first { IfOk result (λ more. more.first ≡ Some (unwrap_or self.first contents.now)) }
        ensures entries { IfOk result (λ more. more.entries ≡ self.entries) }
    {
        let Past { first, entries } = self;
        let first = match first {
            Some(first) => first,
            None => Items::of(contents.to_vec(alloc)?),
        };
        Ok(Past {
            first: Some(first),
            entries,
        })
    }

    /// The past with a write of octets over these contents.
    pub fn with_write(
        self,
        alloc: Global,
        contents: &[u8],
        place: u64,
        octets: &[u8],
    ) -> Result<Past, AllocError>
        ensures first { IfOk result (λ more. more.first ≡ Some (unwrap_or self.first contents.now)) }
        ensures entries { IfOk result (λ more. more.entries.items ≡ self.entries.items ++ Wrote place octets.now ∷ []) }
    {
        let octets = Items::of(octets.to_vec(alloc)?);
        self.with_first(alloc, contents)?
            .with_entry(Entry::Wrote { place, octets })
    }

    /// The past with a failed write of octets, which left those that stand there.
    pub fn with_failed_write(
        self,
        alloc: Global,
        contents: &[u8],
        place: u64,
        octets: &[u8],
    ) -> Result<Past, AllocError>
        requires { place + length octets.now ≤ length contents.now }
        ensures first { IfOk result (λ more. more.first ≡ self.first) }
        ensures entries { IfOk result (λ more. more.entries.items ≡ self.entries.items ++ Broke place octets.now (octets_at place (length octets.now) contents.now) ∷ []) }
    {
        let from = place as usize;
        let left = Items::of(contents[from..from + octets.len()].to_vec(alloc)?);
        let tried = Items::of(octets.to_vec(alloc)?);
        self.with_entry(Entry::Broke { place, tried, left })
    }

    /// The past with an emission of octets, which was done or lost.
    pub fn with_emission(
        self,
        alloc: Global,
        peer: Peer,
        octets: &[u8],
        lost: bool,
    ) -> Result<Past, AllocError>
        ensures first { IfOk result (λ more. more.first ≡ self.first) }
        ensures entries { IfOk result (λ more. more.entries.items ≡ self.entries.items ++ sending lost peer octets.now ∷ []) }
    {
        let octets = Items::of(octets.to_vec(alloc)?);
        self.with_entry(if lost {
            Entry::Lost { peer, octets }
        } else {
            Entry::Emitted { peer, octets }
        })
    }
}

/// The past after a write of octets over these contents. It is none from the moment on where there was no memory for
/// an entry.
pub fn after_write(
    alloc: Global,
    past: Option<Past>,
    contents: &[u8],
    place: u64,
    octets: &[u8],
) -> Option<Past>
    requires { place + length octets.now ≤ length contents.now }
    ensures goes_on { GoesOn past result contents.now (with_octets place octets.now contents.now) (Wrote place octets.now) }
{
    match past {
        Some(past) => past.with_write(alloc, contents, place, octets).ok(),
        None => None,
    }
}

/// The past after a failed write of octets, which left those that stand there.
pub fn after_failed_write(
    alloc: Global,
    past: Option<Past>,
    contents: &[u8],
    place: u64,
    octets: &[u8],
) -> Option<Past>
    requires { place + length octets.now ≤ length contents.now }
    ensures goes_on { GoesOn past result contents.now contents.now (Broke place octets.now (octets_at place (length octets.now) contents.now)) }
{
    match past {
        Some(past) => past.with_failed_write(alloc, contents, place, octets).ok(),
        None => None,
    }
}

/// The past after a sync.
pub fn after_sync(past: Option<Past>) -> Option<Past>
    ensures goes_on { (contents : List ℕ) → GoesOn past result contents contents Synced }
{
    match past {
        Some(past) => past.with_entry(Entry::Synced).ok(),
        None => None,
    }
}

/// The past after an emission of octets, which was done or lost.
pub fn after_emission(
    alloc: Global,
    past: Option<Past>,
    peer: Peer,
    octets: &[u8],
    lost: bool,
) -> Option<Past>
    ensures goes_on { (contents : List ℕ) → GoesOn past result contents contents (sending lost peer octets.now) }
{
    match past {
        Some(past) => past.with_emission(alloc, peer, octets, lost).ok(),
        None => None,
    }
}
