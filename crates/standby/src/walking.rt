//! Records are counted.
ghost use Rattle.std.specs.Prelude.{◌≡◌, ◌≤◌, ◌<◌, ◌+◌, ◌^◌, ℕ, List, IfOk, Err, nat_lt, if◌then◌else◌, length};
ghost use Rattle.standby.specs.Walks.{IsWalked, NoEvents};

use state_codec::{CodecFault, read_event};
use std::alloc::Global;

/// How many records there are, and where those past the first ones begin.
#[derive(Clone, Copy, Debug)]
pub(crate) struct Counted {
    /// How many there are.
    pub(crate) count: u64,
    /// The offset behind the ones that are to be skipped.
    pub(crate) at: usize,
}

impl Counted {
    /// With one more record, which ends at an offset.
    fn further(self, skip: u64, end: usize) -> Counted
        requires { self.count < 2 ^ 63 }
        ensures count { result.count ≡ self.count + 1 }
        ensures at { result.at ≡ (if nat_lt self.count skip then end else self.at) }
    {
        let at = if self.count < skip { end } else { self.at };
        Counted {
            count: self.count + 1,
            at,
        }
    }
}

/// Counts whole records, and finds the offset behind the first ones, as many as are to be skipped.
pub(crate) fn walk(alloc: Global, octets: &[u8], skip: u64) -> Result<Counted, CodecFault>
    ensures walked { IfOk result (λ walk. IsWalked octets.now skip walk.count walk.at) }
    ensures refused { (place : ℕ) → result ≡ Err (CodecFault.Malformed place) → NoEvents octets.now }
{
    let mut at = 0;
    let mut walked = Counted { count: 0, at: 0 };
    while at < octets.len() {
        let (event, end) = read_event(alloc, octets, at)?;
        drop(event);
        at = end;
        walked = walked.further(skip, end);
    }
    Ok(walked)
}
