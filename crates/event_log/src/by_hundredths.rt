//! Where a time stands in a log by hundredths of a second since 1970-01-01T00:00Z.
ghost use Rattle.std.specs.Prelude.{◌≡◌, ◌<◌, pos, int_lt, length, IfSome};
ghost use Rattle.event_log.specs.Ranges.{first_later, last_earlier};

use crate::LogRecord;
use circular_buffer::HeapCircularBuffer;

// Whether a record is strictly after a reference.
fn is_later(entry: &LogRecord, reference: i64) -> bool
    ensures { result ≡ int_lt reference (pos entry.now.hundredths) }
{
    i128::from(reference) < i128::from(entry.hundredths)
}

// Whether a record is strictly before a reference.
fn is_earlier(entry: &LogRecord, reference: i64) -> bool
    ensures { result ≡ int_lt (pos entry.now.hundredths) reference }
{
    i128::from(entry.hundredths) < i128::from(reference)
}

/// The place of the first record that is strictly after a reference.
#[tactic(auto, using(crate::proofs::Latest::position_within))]
pub(crate) fn first_later(records: &HeapCircularBuffer<LogRecord>, reference: i64) -> Option<usize>
    ensures place { result ≡ first_later reference records.now.items }
    ensures within { IfSome result (λ place. place < length records.now.items) }
{
    records.iter().position(|entry| is_later(entry, reference))
}

/// The place of the last record that is strictly before a reference.
#[tactic(auto, using(crate::proofs::Latest::last_position_within))]
pub(crate) fn last_earlier(records: &HeapCircularBuffer<LogRecord>, reference: i64) -> Option<usize>
    ensures place { result ≡ last_earlier reference records.now.items }
    ensures within { IfSome result (λ place. place < length records.now.items) }
{
    records
        .iter()
        .rposition(|entry| is_earlier(entry, reference))
}
