//! The octets that frames begin with.

/// The type of a BVLL message for BACnet/IP.
pub(crate) const BVLL_OF_IP: u8 = 0x81;
/// The function Forwarded-NPDU.
pub(crate) const FORWARDED: u8 = 0x04;
/// The function Original-Unicast-NPDU.
pub(crate) const ORIGINAL_UNICAST: u8 = 0x0a;
/// The function Original-Broadcast-NPDU.
pub(crate) const ORIGINAL_BROADCAST: u8 = 0x0b;
/// The version of the network layer's protocol.
pub(crate) const VERSION: u8 = 1;
/// The bit of the control octet that marks a message of the network layer.
pub(crate) const IS_NETWORK_MESSAGE: u8 = 0x80;
/// The bit of the control octet with which a destination and a hop count come.
pub(crate) const HAS_DESTINATION: u8 = 0x20;
/// The bit of the control octet with which a source comes.
pub(crate) const HAS_SOURCE: u8 = 0x08;
/// The bit of the control octet that says that a reply is expected.
pub(crate) const EXPECTS_REPLY: u8 = 0x04;
/// The network number that stands for all networks.
pub(crate) const ALL_NETWORKS: u16 = 0xffff;
/// The hop count of what is written, the greatest.
pub(crate) const HOP_COUNT: u8 = 255;
