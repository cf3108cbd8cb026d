//! A recipient, as a request names it.

use bac_values::ObjectId;

/// An address among the octets that it was read from.
#[derive(Clone, Copy, Debug, PartialEq, Eq)]
pub struct Address {
    /// The number of the network, or 0 for the local one.
    pub network: u32,
    /// The place of the station's first octet.
    pub start: usize,
    /// The place behind the station's last octet.
    pub end: usize,
}

/// Who is meant.
#[derive(Clone, Copy, Debug, PartialEq, Eq)]
pub enum Recipient {
    /// The device with an identifier, which may be one of any type.
    Device(ObjectId),
    /// The station at an address.
    Address(Address),
}

/// The numbers of the two parameters.
pub(crate) const DEVICE: u8 = 0;

pub(crate) const ADDRESS: u8 = 1;
