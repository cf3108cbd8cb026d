//! Recipients are written.

ghost use Rattle.std.specs.Prelude.{◌≡◌, ◌++◌, OnOk};
ghost use Rattle.recipients.specs.Recipients.{written_address, written_peer, written_station};

use crate::recipient::ADDRESS;
use bac_tags::{write_closing, write_octet_string, write_opening, write_unsigned};
use bac_values::{NoMemory, Peer};

// The station of a peer: on the local network its IP address and its port.
fn write_station(out: &mut Vec<u8>, peer: Peer) -> Result<(), NoMemory>
    ensures written { OnOk result (out.new.items ≡ out.old.items ++ written_station peer) }
{
    if peer.net != 0 {
        return write_octet_string(out, peer.mac.octets());
    }
    let [first, second, third, fourth] = peer.ip.to_be_bytes();
    let [high, low] = peer.port.to_be_bytes();
    write_octet_string(out, &[first, second, third, fourth, high, low])
}

// The number of a peer's network and its station there.
fn write_address(out: &mut Vec<u8>, peer: Peer) -> Result<(), NoMemory>
    ensures written { OnOk result (out.new.items ≡ out.old.items ++ written_address peer) }
{
    write_unsigned(out, None, u32::from(peer.net))?;
    write_station(out, peer)
}

/// Appends the address of a peer as a recipient, between its tags. After an `Err` a part of it may stand there.
pub fn write_peer(out: &mut Vec<u8>, peer: Peer) -> Result<(), NoMemory>
    ensures written { OnOk result (out.new.items ≡ out.old.items ++ written_peer peer) }
{
    write_opening(out, ADDRESS)?;
    write_address(out, peer)?;
    write_closing(out, ADDRESS)
}
