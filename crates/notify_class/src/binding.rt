//! Where a device is that may be a recipient.

use bac_values::Peer;

/// Where a device is that may be a recipient (ANSI/ASHRAE 135-2020, clause 21, BACnetRecipient): the peer of its instance.
#[derive(Clone, Copy, Debug, PartialEq, Eq)]
pub struct Binding {
    /// The instance of its Device object.
    pub device: u32,
    /// The peer to which its notifications go.
    pub peer: Peer,
}
