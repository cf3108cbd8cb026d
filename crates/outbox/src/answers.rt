//! What the calls of an outbox come to.

use bac_values::{Items, Note};

/// Why notes are not queued. They come back, and nothing has changed.
#[derive(Debug, Drop)]
pub enum QueueFault {
    /// There would be more notes that are not finished than there may be.
    Full {
        /// How many there would be.
        would: u32,
        /// How many there may be.
        limit: u32,
        /// The notes.
        notes: Items<Note>,
    },
    /// Memory was refused.
    NoMemory {
        /// The notes.
        notes: Items<Note>,
    },
}

/// What an answer of a recipient comes to.
#[derive(Clone, Copy, Debug, PartialEq, Eq)]
pub enum Answered {
    /// It finishes the note in flight.
    Answered,
    /// No note of this recipient with this invoke ID is in flight.
    Stray,
}
