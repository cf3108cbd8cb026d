//! Notifications and datagrams on their way.

use crate::{Items, Peer};

/// A notification on its way to a recipient.
#[derive(Clone, Debug, Drop)]
pub struct Note {
    /// The recipient.
    pub peer: Peer,
    /// Whether the recipient is to answer.
    pub confirmed: bool,
    /// The octets of the service's parameters.
    pub body: Items<u8>,
}

/// A datagram on its way to a peer.
#[derive(Clone, Debug, Drop)]
pub struct Send {
    /// The peer.
    pub peer: Peer,
    /// The whole datagram.
    pub bytes: Items<u8>,
}
