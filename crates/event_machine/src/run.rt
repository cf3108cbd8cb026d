/// Since when the condition of a rule has held without a break.
#[derive(Clone, Copy, Debug, PartialEq, Eq)]
pub struct Run {
    /// The moment from which on the rule has had its key, in milliseconds since 1970.
    pub start: u64,
    /// The key.
    pub key: u32,
}
