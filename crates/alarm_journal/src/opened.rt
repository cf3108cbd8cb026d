//! What an opened journal hands up.

use crate::Body;
use bac_values::Items;

/// What a journal holds: a snapshot and the bodies of the batches behind it, and where they lie on the device.
#[derive(Debug, Drop)]
pub struct Opened {
    /// Whether the device was blank, and was formatted.
    pub fresh: bool,
    /// The snapshot's octets; none where there is no snapshot.
    pub snapshot: Items<u8>,
    /// The place of the snapshot's first octet.
    pub snapshot_place: u64,
    /// The bodies of the batches, one after the other.
    pub batches: Items<u8>,
    /// The bodies by themselves, in the same order: each is as many of these octets as its length says.
    pub bodies: Items<Body>,
}
