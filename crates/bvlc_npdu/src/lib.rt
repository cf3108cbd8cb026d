//! The frames of BACnet/IP: the BVLL message and the NPDU in it (ANSI/ASHRAE 135-2020, annex J.2 and
//! clause 6.2).
//!
//! `unwrap` finds the APDU in a datagram and the peer to which an answer goes, and ignores everything else
//! that stands on the port. `wrap` writes the one frame that this server sends.
#![tactic(auto)]

mod layout;
mod reading;
mod writing;

pub use reading::{Incoming, unwrap};
pub use writing::wrap;
