/// A date and a time of day (ANSI/ASHRAE 135-2020, 20.2.12 and 20.2.13): the year less 1900, the month, the day,
/// the weekday from 1 for Monday, the hour, the minute, the second and the hundredth.
#[derive(Clone, Copy, Debug, PartialEq, Eq)]
pub struct Stamp {
    /// The eight octets, in this order.
    pub octets: [u8; 8],
}

impl Stamp {
    /// The stamp of what has never been: each octet is unspecified.
    pub const NEVER: Stamp = Stamp { octets: [255; 8] };
}
