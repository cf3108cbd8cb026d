//! Recipients on octets (ANSI/ASHRAE 135-2020, clause 21, BACnetRecipient and BACnetAddress): a device, or the address of a
//! station. They are read wherever they stand in a request, and the address of a peer is written.
#![tactic(auto)]

mod laws;
mod reading;
mod recipient;
mod stations;
mod writing;

pub use laws::written_peers_are_read;
pub use reading::read_recipient;
pub use recipient::{Address, Recipient};
pub use stations::peer_at;
pub use writing::write_peer;
