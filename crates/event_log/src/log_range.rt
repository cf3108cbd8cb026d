//! Stretches of records.

ghost use Rattle.std.specs.Prelude.{◌≡◌, ◌≤◌, ◌<◌, IfSome};
ghost use Rattle.event_log.specs.Ranges.{range_at, range_from, range_of};

/// Records that follow one another in a log: the place of the first, from 0, and how many there are.
#[derive(Clone, Copy, Debug, PartialEq, Eq)]
pub struct LogRange {
    /// The place of the first record; 0 where there is none.
    pub first: u32,
    /// How many records there are.
    pub count: u32,
}

impl LogRange {
    // No records.
    const EMPTY: LogRange = LogRange { first: 0, count: 0 };

    // The range at a place of a log of some length.
    pub(crate) fn at(count: i32, length: u32, place: u32) -> LogRange
        requires { place < length }
        ensures range { result ≡ range_at count length place }
    {
        if count == 0 {
            return LogRange::EMPTY;
        }
        let wanted = count.unsigned_abs();
        if count > 0 {
            return LogRange {
                first: place,
                count: wanted.min(length - place),
            };
        }
        let taken = wanted.min(place + 1);
        LogRange {
            first: place + 1 - taken,
            count: taken,
        }
    }

    // The range at a place, or an empty one where there is none.
    pub(crate) fn from(count: i32, length: u32, place: Option<usize>) -> LogRange
        requires { IfSome place (λ found. found < length) }
        ensures range { result ≡ range_from count length place }
    {
        match place {
            Some(place) => LogRange::at(count, length, place as u32),
            None => LogRange::EMPTY,
        }
    }
}
