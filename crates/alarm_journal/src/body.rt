/// Where the body of a batch lies on the device, so that each of its octets has a place.
#[derive(Clone, Copy, Debug, PartialEq, Eq)]
pub struct Body {
    /// The place of its first octet.
    pub place: u64,
    /// How many octets it has.
    pub length: u32,
}
