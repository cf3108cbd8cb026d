//! Peers in text, `A.B.C.D:PORT`.

ghost use Rattle.std.specs.Prelude.{◌≡◌, ◌↔◌, ◌≤◌, IfSome};
ghost use Rattle.bac_values.specs.Address.{PeerData};
ghost use Rattle.script_lines.specs.Number.{unsigned_of};
ghost use Rattle.script_lines.specs.Report.{address_text};
ghost use Rattle.script_lines.specs.SessionLine.{IsNamedPeer, ip_of, port_of, peer_of};

use crate::number::unsigned;
use crate::words::split_at;
use bac_values::Peer;

// One of the four numbers of an address.
fn octet(text: &[u8]) -> Option<u32>
    ensures number { result ≡ unsigned_of 255 text.now }
    ensures small { IfSome result (λ number. number ≤ 255) }
{
    Some(unsigned(text, 255)? as u32)
}

// The address of IPv4 that a text `A.B.C.D` names, its first octet highest.
fn ip(text: &[u8]) -> Option<u32>
    ensures ip { result ≡ ip_of text.now }
{
    let (a, text) = split_at(b'.', text);
    let (b, text) = split_at(b'.', text);
    let (c, d) = split_at(b'.', text);
    let a = octet(a)?;
    let b = octet(b)?;
    let c = octet(c)?;
    let d = octet(d)?;
    Some(a * 16_777_216 + b * 65_536 + c * 256 + d)
}

// The port of UDP that a text names, from 1.
fn port(text: &[u8]) -> Option<u16>
    ensures port { result ≡ port_of text.now }
{
    let port = unsigned(text, 65_535).filter(|port| *port != 0)?;
    Some(port as u16)
}

// The peer that a text names.
fn peer(text: &[u8]) -> Option<Peer>
    ensures peer { result ≡ peer_of text.now }
{
    let (address, number) = split_at(b':', text);
    Some(Peer::local(ip(address)?, port(number)?))
}

/// The peer of the local network that a text `A.B.C.D:PORT` names, with a port from 1. The text is just how a report writes
/// the peer's address.
pub fn read_peer(text: &[u8]) -> Option<Peer>
    ensures peer { result ≡ peer_of text.now }
    ensures written { (peer : PeerData) → (result ≡ Some peer) ↔ ((text.now ≡ address_text peer) × IsNamedPeer peer) }
{
    peer(text)
}
