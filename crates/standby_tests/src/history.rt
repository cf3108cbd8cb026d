//! Leaders of a history.

ghost use Rattle.std.specs.Prelude.{◌≡◌, IfOk};

use alarm_core::Core;
use standby::Leader;
use state_codec::{follow_records, write_state};
use std::alloc::Global;
use std::test::Fail;

/// More events than any test has.
const MANY: u64 = 1_000_000;

/// A leader of a snapshot after so many events, or none, and of the records behind it.
pub(crate) fn leader_of(
    alloc: Global,
    events: u64,
    snapshot: Vec<u8>,
    records: Vec<u8>,
) -> Result<Leader, Fail> {
    let is_bare = snapshot.is_empty() && events > 0;
    if is_bare || events > MANY || snapshot.len() > MANY as usize {
        return Err(Fail::new("no leader has such a snapshot"));
    }
    Ok(Leader::new(alloc, events, snapshot, records)?)
}

/// What a leader has had: the records of its events, where each ends, and the state after each number of them.
#[derive(Drop)]
pub(crate) struct History {
    records: Vec<u8>,
    ends: Vec<usize>,
    states: Vec<Vec<u8>>,
}

impl History {
    /// Nothing yet, at a core that has had no event.
    pub(crate) fn begin(alloc: Global, core: &Core) -> Result<History, Fail> {
        let mut history = History {
            records: Vec::new(alloc),
            ends: Vec::new(alloc),
            states: Vec::new(alloc),
        };
        history.note(alloc, core)?;
        Ok(history)
    }

    fn note(&mut self, alloc: Global, core: &Core) -> Result<(), Fail> {
        self.ends.push(self.records.len())?;
        self.states.push(write_state(alloc, core)?)?;
        Ok(())
    }

    /// The core takes the event of a record.
    pub(crate) fn add(
        &mut self,
        alloc: Global,
        core: &mut Core,
        record: &[u8],
    ) -> Result<(), Fail> {
        follow_records(alloc, core, record)?;
        self.records.extend_from_slice(record)?;
        self.note(alloc, core)
    }

    /// How many events there were.
    pub(crate) fn events(&self) -> u64 {
        (self.states.len() as u64).saturating_sub(1)
    }

    /// Whether this is the state after so many of them.
    pub(crate) fn is_state(&self, events: u64, state: &[u8]) -> bool {
        match self.states.get(events as usize) {
            Some(wanted) => wanted.as_slice() == state,
            None => false,
        }
    }

    /// The snapshot after so many events; none where these are none.
    fn snapshot(&self, alloc: Global, events: u64) -> Result<Vec<u8>, Fail> {
        match self.states.get(events as usize) {
            Some(state) if events > 0 => Ok(state.as_slice().to_vec(alloc)?),
            _ => Ok(Vec::new(alloc)),
        }
    }

    /// The records behind so many events.
    fn records_behind(&self, alloc: Global, events: u64) -> Result<Vec<u8>, Fail> {
        let records = self.records.as_slice();
        match self.ends.get(events as usize) {
            Some(end) if *end <= records.len() => Ok(records[*end..].to_vec(alloc)?),
            _ => Ok(Vec::new(alloc)),
        }
    }

    /// A leader whose snapshot is that after so many events, and who has all records behind it.
    pub(crate) fn leader(&self, alloc: Global, events: u64) -> Result<Leader, Fail> {
        let snapshot = self.snapshot(alloc, events)?;
        let records = self.records_behind(alloc, events)?;
        leader_of(alloc, events, snapshot, records)
    }
}
