//! What a ground tells of what happened to it.

use bac_values::{Items, Peer};

/// What has happened to a ground.
#[derive(Debug, Drop)]
pub enum Entry {
    /// Octets were written at a place.
    Wrote {
        /// The first place.
        place: u64,
        /// The octets.
        octets: Items<u8>,
    },
    /// A write failed.
    Broke {
        /// The first place.
        place: u64,
        /// The octets that were to be written.
        tried: Items<u8>,
        /// As many octets, which stand there since.
        left: Items<u8>,
    },
    /// All that was written is on the disk.
    Synced,
    /// Octets went out to a peer.
    Emitted {
        /// The peer; the console is the peer of zeros.
        peer: Peer,
        /// The octets.
        octets: Items<u8>,
    },
    /// Octets that may have gone out in part, or not at all.
    Lost {
        /// The peer; the console is the peer of zeros.
        peer: Peer,
        /// The octets.
        octets: Items<u8>,
    },
}
