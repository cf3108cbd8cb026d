/// What stands after a crash where octets were written since the last sync.
#[derive(Clone, Copy, Debug, PartialEq, Eq)]
pub enum Filling {
    /// The octets from before the writes.
    Old,
    /// The octets that were to be written.
    New,
    /// This octet everywhere.
    Octet(u8),
}
