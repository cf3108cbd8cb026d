//! What is told of one recipient.

use bac_values::Peer;

/// What there is of one recipient.
#[derive(Clone, Copy, Debug, PartialEq, Eq)]
pub struct Post {
    /// The recipient.
    pub peer: Peer,
    /// The invoke ID of its next note that is to be confirmed.
    pub next_invoke: u8,
    /// How often its first note was sent. A note that was sent is in flight.
    pub attempts: u8,
    /// Until when an answer is awaited, in milliseconds since 1970; 0 where no note is in flight.
    pub deadline: u64,
    /// How many of its notes are not finished.
    pub notes: u32,
}
