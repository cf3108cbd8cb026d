/// The first moment of the year 2000 in UTC, in milliseconds since 1970. No moment is before it.
pub const FIRST_MOMENT: u64 = 946_684_800_000;

/// The last millisecond of the year 2099 in UTC, in milliseconds since 1970. No moment is after it.
pub const LAST_MOMENT: u64 = 4_102_444_799_999;
