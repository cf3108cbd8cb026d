//! One log: records come in, and ranges of them are found.

ghost use Rattle.std.specs.Prelude.{◌≡◌, ℕ, List, [], ◌∷◌, IfOk, option_copied, slice_get, length, ◌≤◌, ◌<◌, IfSome};
ghost use Rattle.circular_buffer.specs.Buffer.{buffer};
ghost use Rattle.event_log.specs.Log.{IsLog, LoggedEvent, new_log, is_taken, recorded, with_entry, cleared, switched, EventLogState};
ghost use Rattle.event_log.specs.Ranges.{is_before, first_after, last_before, place_by_hundredths, place_by_time, range_from, place_of_position, place_of_sequence};
ghost use Rattle.event_log.specs.History.{Recorded, Cleared, Switched, log_after, FollowsCall};

use crate::by_hundredths::{first_later, last_earlier};
use crate::numbers::{back_of, number_after};
use crate::order::is_before;
use crate::{LogRange, LogRecord};
use bac_values::{Items, NoMemory, Stamp};
use circular_buffer::HeapCircularBuffer;
use std::alloc::Global;
use std::marker::Model;

/// A log of at most a number of records.
#[derive(Debug, Drop)]
pub struct EventLog {
    size: u32,
    stops: bool,
    enabled: bool,
    total: u32,
    records: HeapCircularBuffer<LogRecord>,
}

impl Model for EventLog {
    ghost use Rattle.std.specs.Prelude.{◌≡◌};
    ghost use Rattle.event_log.specs.Log.{IsLog, EventLogState};

    ghost Value = { EventLogState };

    ghost view = { λ log. record { size = log.size; stops = log.stops; enabled = log.enabled; total = log.total; records = log.records.items } };

    ghost invariant = { λ log. (log.records.capacity ≡ log.size) × IsLog (record { size = log.size; stops = log.stops; enabled = log.enabled; total = log.total; records = log.records.items }) };
}

impl EventLog {
    /// A log that has taken nothing yet, of at most `size` records.
    #[tactic(auto, using(crate::proofs::Looking::new_after))]
    pub fn new(
        alloc: Global,
        size: u32,
        stop_when_full: bool,
        enabled: bool,
    ) -> Result<EventLog, NoMemory>
        ensures made { IfOk result (λ log. log ≡ new_log size stop_when_full enabled) }
        ensures looking_back { IfOk result (λ log. log ≡ log_after (new_log size stop_when_full enabled) []) }
    {
        Ok(EventLog {
            size,
            stops: stop_when_full,
            enabled,
            total: 0,
            records: HeapCircularBuffer::with_capacity(alloc, size as usize)?,
        })
    }

    /// A log with these settings, this total and these records, the oldest first. There are at most `size` records,
    /// none where the total is 0, and they are numbered up to the total.
    pub fn restore(
        alloc: Global,
        size: u32,
        stop_when_full: bool,
        enabled: bool,
        total: u32,
        records: Vec<LogRecord>,
    ) -> Result<EventLog, NoMemory>
        requires { IsLog (record { size = size; stops = stop_when_full; enabled = enabled; total = total; records = records.items }) }
        ensures restored { IfOk result (λ log. log ≡ record { size = size; stops = stop_when_full; enabled = enabled; total = total; records = records.items }) }
    {
        let records = filled(alloc, size, records)?;
        Ok(EventLog {
            size,
            stops: stop_when_full,
            enabled,
            total,
            records,
        })
    }

    /// How many records were ever taken; 1 follows the greatest number of 32 bits. What is so of every log is told here.
    pub fn total(&self) -> u32
        ensures total { result ≡ self.now.total }
        ensures always { IsLog self.now }
    {
        self.total
    }

    /// How many records there are.
    pub fn len(&self) -> u32
        ensures length { result ≡ length self.now.records }
    {
        self.records.len() as u32
    }

    /// Whether records are taken.
    pub fn enabled(&self) -> bool
        ensures enabled { result ≡ self.now.enabled }
    {
        self.enabled
    }

    /// The record at a place, from 0 for the oldest; none exactly past the last.
    pub fn item(&self, place: u32) -> Option<&LogRecord>
        ensures item { option_copied result ≡ slice_get self.now.records place }
    {
        self.records.get(place as usize)
    }

    // Whether a record that comes now is taken.
    fn takes(&self) -> bool
        ensures taken { result ≡ is_taken self.now.enabled self.now.stops self.now.size (length self.now.records) }
    {
        self.enabled && !(self.stops && self.size as usize <= self.records.len())
    }

    // The place of the record with a number. Numbers run on without a gap, and 1 follows the greatest of 32 bits.
    #[tactic(auto, using(crate::proofs::Sequences::place_found, crate::proofs::Sequences::place_absent))]
    fn place_of_sequence(&self, sequence: u32) -> Option<usize>
        ensures place { result ≡ place_of_sequence sequence self.now.records }
        ensures within { IfSome result (λ place. place < length self.now.records) }
    {
        let back = back_of(self.total, sequence);
        let length = self.len();
        if sequence == 0 || back >= length {
            return None;
        }
        Some((length - 1 - back) as usize)
    }

    // Takes a record; the oldest goes if there is no room.
    #[tactic(auto, using(crate::proofs::Numbering::is_log_with_entry))]
    fn push(&mut self, stamp: Stamp, hundredths: u64, body: Vec<u8>)
        ensures now { self.new ≡ with_entry (record { stamp = stamp; hundredths = hundredths; body = body.items }) self.old }
    {
        self.total = number_after(self.total);
        let _oldest = self.records.push_back(LogRecord {
            stamp,
            hundredths,
            sequence: self.total,
            body: Items::of(body),
        });
    }

    /// A record comes. It is kept where the log is enabled and isn't both full and set to stop when it is; then the
    /// oldest record goes if there is no room. Otherwise nothing changes.
    #[tactic(auto, using(crate::proofs::Looking::follows))]
    pub fn record(&mut self, stamp: Stamp, hundredths: u64, body: Vec<u8>)
        ensures now { self.new ≡ recorded (record { stamp = stamp; hundredths = hundredths; body = body.items }) self.old }
        ensures looking_back { FollowsCall (Recorded (record { stamp = stamp; hundredths = hundredths; body = body.items })) self.old self.new }
    {
        if self.takes() {
            self.push(stamp, hundredths, body);
        }
    }

    /// Forgets all records. The total stays.
    #[tactic(auto, using(crate::proofs::Looking::follows))]
    pub fn clear(&mut self)
        ensures now { self.new ≡ cleared self.old }
        ensures looking_back { FollowsCall Cleared self.old self.new }
    {
        self.records.clear();
    }

    /// Writes Enable.
    #[tactic(auto, using(crate::proofs::Looking::follows))]
    pub fn set_enabled(&mut self, on: bool)
        ensures now { self.new ≡ switched on self.old }
        ensures looking_back { FollowsCall (Switched on) self.old self.new }
    {
        self.enabled = on;
    }

    /// The range from, or up to, a position, from 1 for the oldest record; empty where it is 0 or past the end.
    pub fn range_by_position(&self, reference: u32, count: i32) -> LogRange
        ensures range { let length = length self.now.records in result ≡ range_from count length (place_of_position reference length) }
    {
        let length = self.len();
        LogRange::from(count, length, place_of_position(reference, length))
    }

    /// The range by time: a positive count begins at the first record that is strictly after the reference, and a
    /// negative one ends at the last that is strictly before it. The weekday isn't looked at.
    pub fn range_by_time(&self, reference: &Stamp, count: i32) -> LogRange
        ensures range { let length = length self.now.records in result ≡ range_from count length (place_by_time count reference.now self.now.records) }
    {
        let place = if count < 0 {
            last_before(&self.records, reference)
        } else {
            first_after(&self.records, reference)
        };
        LogRange::from(count, self.len(), place)
    }

    /// The range by hundredths of a second since 1970-01-01T00:00Z: a positive count begins at the first record whose
    /// hundredths are strictly after the reference, and a negative one ends at the last whose are strictly before it.
    pub fn range_by_hundredths(&self, reference: i64, count: i32) -> LogRange
        ensures range { let length = length self.now.records in result ≡ range_from count length (place_by_hundredths count reference self.now.records) }
    {
        let place = if count < 0 {
            last_earlier(&self.records, reference)
        } else {
            first_later(&self.records, reference)
        };
        LogRange::from(count, self.len(), place)
    }

    /// The range from, or up to, the record with a number; empty where there is no such record.
    pub fn range_by_sequence(&self, reference: u32, count: i32) -> LogRange
        ensures range { let length = length self.now.records in result ≡ range_from count length (place_of_sequence reference self.now.records) }
    {
        LogRange::from(count, self.len(), self.place_of_sequence(reference))
    }
}

// The place of the first record that is strictly after a stamp.
#[tactic(auto, using(crate::proofs::Latest::position_within))]
fn first_after(records: &HeapCircularBuffer<LogRecord>, reference: &Stamp) -> Option<usize>
    ensures place { result ≡ first_after reference.now records.now.items }
    ensures within { IfSome result (λ place. place < length records.now.items) }
{
    records
        .iter()
        .position(|entry| is_before(reference, &entry.stamp))
}

// The place of the last record that is strictly before a stamp.
#[tactic(auto, using(crate::proofs::Latest::last_position_within))]
fn last_before(records: &HeapCircularBuffer<LogRecord>, reference: &Stamp) -> Option<usize>
    ensures place { result ≡ last_before reference.now records.now.items }
    ensures within { IfSome result (λ place. place < length records.now.items) }
{
    records
        .iter()
        .rposition(|entry| is_before(&entry.stamp, reference))
}

// A buffer of a size with these records, which fit.
fn filled(
    alloc: Global,
    size: u32,
    records: Vec<LogRecord>,
) -> Result<HeapCircularBuffer<LogRecord>, NoMemory>
    requires { length records.items ≤ size }
    ensures filled { IfOk result (λ kept. kept ≡ buffer records.items size) }
{
    let mut kept = HeapCircularBuffer::with_capacity(alloc, size as usize)?;
    for entry in records {
        let _none = kept.push_back(entry);
    }
    Ok(kept)
}

// The place of a position, from 1, in a log of some length.
fn place_of_position(position: u32, length: u32) -> Option<usize>
    ensures place { result ≡ place_of_position position length }
    ensures within { IfSome result (λ place. place < length) }
{
    let place = position.checked_sub(1)?;
    (place < length).then_some(place as usize)
}
