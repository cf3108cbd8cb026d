//! What is to be written in one commit, in the octets in which it stands.

ghost use Rattle.std.specs.Prelude.{◌≡◌, ◌<◌, ◌≤◌, ◌+◌, length, IfOk};
ghost use Rattle.bac_values.specs.Limits.{most_batch_octets, snapshot_octets_limit};
ghost use Rattle.alarm_journal.specs.Journal.{framed};

use bac_values::NoMemory;
use byteorder::{BigEndian, ByteOrder};
use std::alloc::{AllocError, Global};
use std::marker::Model;

/// The records of a batch or the state of a snapshot, ready to be written. Contracts see these octets.
#[derive(Debug, Drop)]
pub struct Job {
    octets: Vec<u8>,
}

impl Model for Job {
    ghost use Rattle.std.specs.Prelude.{◌≡◌, ◌≤◌, ◌<◌, List, ℕ, ◌-◌, take, drop, length};
    ghost use Rattle.alarm_journal.specs.Journal.{framed};

    ghost Value = { List ℕ };

    ghost view = { λ job. take (length job.octets.items - 5) (drop 4 job.octets.items) };

    ghost invariant = { λ job. (job.octets.items ≡ framed (take (length job.octets.items - 5) (drop 4 job.octets.items))) × (length job.octets.items ≤ 36000004) };
}

// The length of a body, the body, and a closed gate behind it.
fn frame(alloc: Global, body: &[u8]) -> Result<Vec<u8>, AllocError>
    requires { length body.now < snapshot_octets_limit }
    ensures framed { IfOk result (λ octets. octets.items ≡ framed body.now) }
{
    let mut count = [0; 4];
    BigEndian::write_u32(&mut count, body.len() as u32);
    let mut octets = count.to_vec(alloc)?;
    octets.extend_from_slice(body)?;
    octets.push(0)?;
    Ok(octets)
}

impl Job {
    /// A batch of these records, ready to be written.
    pub fn batch(alloc: Global, records: &[u8]) -> Result<Job, NoMemory>
        requires few { length records.now ≤ most_batch_octets }
        ensures made { IfOk result (λ job. job ≡ records.now) }
    {
        let octets = frame(alloc, records)?;
        Ok(Job { octets })
    }

    /// A snapshot of this state, ready to be written.
    pub fn snapshot(alloc: Global, state: &[u8]) -> Result<Job, NoMemory>
        requires some { 0 < length state.now }
        requires few { length state.now < snapshot_octets_limit }
        ensures made { IfOk result (λ job. job ≡ state.now) }
    {
        let octets = frame(alloc, state)?;
        Ok(Job { octets })
    }

    /// How many octets there are: so many of the room a batch takes, and with five more so many of its area a snapshot.
    pub fn length(&self) -> u64
        ensures length { result ≡ length self.now }
    {
        self.framed().len() as u64 - 5
    }

    /// What is written: the length of the octets, the octets, and a closed gate.
    pub(crate) fn framed(&self) -> &[u8]
        ensures framed { result.now ≡ framed self.now }
        ensures length { length result.now ≡ length self.now + 5 }
        ensures few { length self.now < snapshot_octets_limit }
    {
        self.octets.as_slice()
    }
}
