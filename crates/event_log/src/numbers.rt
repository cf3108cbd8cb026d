//! The numbers of records run on without a gap, and 1 follows the greatest of 32 bits.
ghost use Rattle.std.specs.Prelude.{◌≡◌};
ghost use Rattle.event_log.specs.Log.{number_after, number_back};
ghost use Rattle.event_log.specs.Ranges.{back_of};

/// The number that follows a number of records.
pub(crate) fn number_after(total: u32) -> u32
    ensures number { result ≡ number_after total }
{
    if total == u32::MAX {
        return 1;
    }
    total + 1
}

/// The number of the record that lies so many records back from the newest, whose number is the total. In a log of some
/// length the record at a place, from 0 for the oldest, lies `length - 1 - place` back.
pub fn number_back(total: u32, back: u32) -> u32
    ensures number { result ≡ number_back total back }
{
    if back < total {
        return total - back;
    }
    total + (u32::MAX - back)
}

/// How many records back the one with a number lies from the newest, whose number is the total.
pub(crate) fn back_of(total: u32, sequence: u32) -> u32
    ensures back { result ≡ back_of total sequence }
{
    if sequence <= total {
        return total - sequence;
    }
    total + (u32::MAX - sequence)
}
