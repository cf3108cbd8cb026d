//! What waits for a commit: the records of events, and the datagrams that calls owe.

ghost use Rattle.std.specs.Prelude.{◌≡◌, ◌↔◌, ◌⊎◌, ◌<◌, ◌≤◌, ◌+◌, ◌^◌, ◌++◌, ◌∷◌, [], IfErr, IfOk, IsTrue, OnErr, OnOk, length, vec_len, vec_capacity};
ghost use Rattle.bac_values.specs.Limits.{most_pending_calls, most_events};
ghost use Rattle.floor_desk.specs.Accounts.{most_pending_octets};
ghost use Rattle.std.specs.VecDeque.{deque_len, deque_capacity};
ghost use Rattle.std.specs.List.{flat_map};
ghost use Rattle.floor_desk.specs.Owed.{sends_of};
ghost use Rattle.floor_desk.specs.declared.pending.Owed.{Owed as Owing};

use bac_values::{
    Items, MOST_BATCH_OCTETS, MOST_PENDING_CALLS, MOST_RECORD_OCTETS, NoMemory, Send,
};
use std::alloc::Global;
use std::collections::VecDeque;

/// A commit comes first where more octets of records wait: one more record fits a batch then.
const MOST_PENDING_OCTETS: u64 = MOST_BATCH_OCTETS - MOST_RECORD_OCTETS;

/// What a call owes.
#[derive(Drop)]
pub enum Owed {
    /// One datagram.
    One(Send),
    /// Several datagrams, or none.
    Several(Items<Send>),
}

/// What waits for a commit.
#[derive(Drop)]
pub struct Pending {
    /// The records, the oldest first.
    pub(crate) records: Vec<u8>,
    /// The datagrams: those of each call that owes some, or those of its event and then its reply.
    pub(crate) sends: VecDeque<Owed>,
    /// How many calls are an event or owe a datagram.
    pub(crate) calls: u64,
}

impl Pending {
    /// Nothing waits.
    pub(crate) fn new(alloc: Global) -> Pending
        ensures none { (result.records.items ≡ []) × (result.sends.items ≡ []) × (result.calls ≡ 0) }
    {
        Pending {
            records: Vec::new(alloc),
            sends: VecDeque::new(alloc),
            calls: 0,
        }
    }

    /// Whether a commit has to come first.
    pub(crate) fn is_behind(&self) -> bool
        ensures behind { IsTrue result ↔ ((most_pending_calls ≤ self.now.calls) ⊎ (most_pending_octets < length self.now.records.items)) }
    {
        self.calls >= MOST_PENDING_CALLS || self.octets() > MOST_PENDING_OCTETS
    }

    /// How many octets of records wait.
    pub(crate) fn octets(&self) -> u64
        ensures octets { result ≡ length self.now.records.items }
    {
        self.records.len() as u64
    }

    /// Room for one call more: for so many octets, and for what its event and its reply owe.
    pub(crate) fn make_room(&mut self, octets: usize) -> Result<(), NoMemory>
        ensures same { (self.new.records.items ≡ self.old.records.items) × (self.new.sends.items ≡ self.old.sends.items) × (self.new.calls ≡ self.old.calls) }
        ensures records { OnOk result (vec_len self.new.records + octets ≤ vec_capacity self.new.records) }
        ensures sends { OnOk result (deque_len self.new.sends + 2 ≤ deque_capacity self.new.sends) }
    {
        self.records.reserve(octets)?;
        self.sends.reserve(2)?;
        Ok(())
    }

    /// A call with a record, with what its event sends, and with its reply.
    pub(crate) fn add_event(&mut self, mut octets: Vec<u8>, sends: Items<Send>, reply: Owed)
        requires few { self.old.calls < most_events }
        requires records { vec_len self.old.records + length octets.items ≤ vec_capacity self.old.records }
        requires sends { deque_len self.old.sends + 2 ≤ deque_capacity self.old.sends }
        ensures records { self.new.records.items ≡ self.old.records.items ++ octets.items }
        ensures sends { self.new.sends.items ≡ (self.old.sends.items ++ Owing.Several sends ∷ []) ++ reply ∷ [] }
        ensures calls { self.new.calls ≡ self.old.calls + 1 }
    {
        let Ok(()) = self.records.append(&mut octets) else {
            unreachable!()
        };
        self.sends.push_back_reserved(Owed::Several(sends));
        self.sends.push_back_reserved(reply);
        self.calls += 1;
    }

    /// A call that owes datagrams alone.
    pub(crate) fn add_reply(&mut self, sends: Owed)
        requires few { self.old.calls < most_events }
        requires sends { deque_len self.old.sends + 2 ≤ deque_capacity self.old.sends }
        ensures records { self.new.records.items ≡ self.old.records.items }
        ensures sends { self.new.sends.items ≡ self.old.sends.items ++ sends ∷ [] }
        ensures calls { self.new.calls ≡ self.old.calls + 1 }
    {
        self.sends.push_back_reserved(sends);
        self.calls += 1;
    }

    /// All datagrams in one list; then none waits. Where memory is refused all go on waiting.
    pub(crate) fn take_sends(&mut self, alloc: Global) -> Result<Items<Send>, NoMemory>
        ensures taken { IfOk result (λ all. all ≡ flat_map sends_of self.old.sends.items) }
        ensures none { OnOk result (self.new.sends.items ≡ []) }
        ensures refused { OnErr result (flat_map sends_of self.new.sends.items ≡ flat_map sends_of self.old.sends.items) }
        ensures same { (self.new.records.items ≡ self.old.records.items) × (self.new.calls ≡ self.old.calls) }
    {
        joined(alloc, &mut self.sends)
    }
}

// One datagram more; or, where memory is refused, it comes back.
fn pushed(all: &mut Vec<Send>, send: Send) -> Result<(), Owed>
    ensures pushed { OnOk result (all.new.items ≡ all.old.items ++ send ∷ []) }
    ensures back { IfErr result (λ back. (all.new.items ≡ all.old.items) × (sends_of back ≡ send ∷ [])) }
{
    if all.reserve(1).is_err() {
        return Err(Owed::One(send));
    }
    all.push_reserved(send);
    Ok(())
}

// Some datagrams more; or, where memory is refused, they come back.
fn appended(all: &mut Vec<Send>, sends: Items<Send>) -> Result<(), Owed>
    ensures appended { OnOk result (all.new.items ≡ all.old.items ++ sends) }
    ensures back { IfErr result (λ back. (all.new.items ≡ all.old.items) × (sends_of back ≡ sends)) }
{
    let mut more = sends.into_vec();
    if all.append(&mut more).is_err() {
        return Err(Owed::Several(Items::of(more)));
    }
    Ok(())
}

// All datagrams in one list, and none of them waits any more; or, where memory is refused, all go on waiting.
fn joined(alloc: Global, waiting: &mut VecDeque<Owed>) -> Result<Items<Send>, NoMemory>
    ensures all { IfOk result (λ all. all ≡ flat_map sends_of waiting.old.items) }
    ensures none { OnOk result (waiting.new.items ≡ []) }
    ensures refused { OnErr result (flat_map sends_of waiting.new.items ≡ flat_map sends_of waiting.old.items) }
{
    waiting.reserve(1)?;
    let mut all = Vec::with_capacity(alloc, waiting.len())?;
    while let Some(owed) = waiting.pop_front() {
        let more = match owed {
            Owed::One(send) => pushed(&mut all, send),
            Owed::Several(sends) => appended(&mut all, sends),
        };
        if let Err(back) = more {
            waiting.push_front_reserved(back);
            waiting.push_front_reserved(Owed::Several(Items::of(all)));
            return Err(NoMemory);
        }
    }
    Ok(Items::of(all))
}
