//! The peer at an address.

ghost use Rattle.std.specs.Prelude.{◌≡◌, ◌≤◌, length};
ghost use Rattle.recipients.specs.Recipients.{address_in, peer_at};

use crate::Address;
use bac_values::Peer;
use byteorder::{BigEndian, ByteOrder};

/// The peer at an address that was read from these octets: none where its network isn't the local one, or its station hasn't
/// the six octets of an IP address and a port (annex J.1.2). The port may be 0.
pub fn peer_at(input: &[u8], address: Address) -> Option<Peer>
    requires ordered { address.start ≤ address.end }
    requires within { address.end ≤ length input.now }
    ensures peer { result ≡ peer_at (address_in input.now address) }
{
    let station = &input[address.start..address.end];
    if address.network != 0 || station.len() != 6 {
        return None;
    }
    let ip = BigEndian::read_u32(&station[..4]);
    let port = BigEndian::read_u16(&station[4..]);
    Some(Peer::local(ip, port))
}
