//! Why octets aren't read.

use thiserror::Error;

/// Why octets aren't read.
#[derive(Clone, Copy, Debug, Drop, PartialEq, Eq, Error)]
pub enum CodecFault {
    /// No record stands there.
    #[error("no record at {at}")]
    Malformed {
        /// The first place of what should be the record.
        at: usize,
    },
    /// Memory was refused.
    #[error("no memory")]
    NoMemory,
}
