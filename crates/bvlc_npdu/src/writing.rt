//! The message and the NPDU are written round an APDU (clause 6, annex J).

ghost use Rattle.std.specs.Prelude.{◌≡◌, ◌+◌, ◌≤◌, ◌<◌, ◌++◌, length, IfOk, OnOk};
ghost use Rattle.bac_values.specs.Address.{PeerData};
ghost use Rattle.bac_values.specs.Services.{longest_apdu};
ghost use Rattle.bvlc_npdu.specs.Frame.{IsFrame};
ghost use Rattle.bvlc_npdu.specs.Writing.{written_control, written_destination, written_frame};

use crate::layout::{
    BVLL_OF_IP, EXPECTS_REPLY, HAS_DESTINATION, HOP_COUNT, ORIGINAL_UNICAST, VERSION,
};
use bac_values::{NoMemory, Peer};
use std::alloc::{AllocError, Global};

/// The control octet: whether a destination is named, and whether a reply is expected.
fn control(peer: &Peer, expects_reply: bool) -> u8
    ensures { result ≡ written_control peer.now expects_reply }
{
    let destination = if peer.net == 0 { 0 } else { HAS_DESTINATION };
    let reply = if expects_reply { EXPECTS_REPLY } else { 0 };
    destination + reply
}

/// Writes the destination of a peer behind a router at the end, and its hop count.
fn append_destination(octets: &mut Vec<u8>, peer: &Peer) -> Result<(), AllocError>
    ensures { OnOk result (octets.new.items ≡ octets.old.items ++ written_destination peer.now) }
{
    if peer.net == 0 {
        return Ok(());
    }
    let mac = peer.mac.octets();
    octets.extend_from_slice(&peer.net.to_be_bytes())?;
    octets.push(mac.len() as u8)?;
    octets.extend_from_slice(mac)?;
    octets.push(HOP_COUNT)?;
    Ok(())
}

/// How many octets the destination and its hop count take.
fn destination_len(peer: &Peer) -> usize
    ensures exact { result ≡ length (written_destination peer.now) }
    ensures short { result ≤ 11 }
{
    if peer.net == 0 {
        0
    } else {
        4 + peer.mac.octets().len()
    }
}

/// How many octets the frame takes that carries an APDU to a peer.
fn frame_len(peer: &Peer, apdu: &[u8]) -> u16
    requires short { length apdu.now ≤ longest_apdu }
    ensures { result ≡ 6 + length (written_destination peer.now) + length apdu.now }
{
    (6 + destination_len(peer) + apdu.len()) as u16
}

/// The frame that carries an APDU of at most 1476 octets to a peer, which says whether a reply is expected.
pub fn wrap(
    alloc: Global,
    peer: &Peer,
    expects_reply: bool,
    apdu: &[u8],
) -> Result<Vec<u8>, NoMemory>
    requires { length apdu.now ≤ longest_apdu }
    ensures text { IfOk result (λ octets. octets.items ≡ written_frame peer.now expects_reply apdu.now) }

    // To a peer of the local network it is a frame with this APDU, from whoever sends it.
    ensures read_back { peer.now.net ≡ 0 → (sender : PeerData) → 0 < sender.port
        → IfOk result (λ octets. IsFrame sender octets.items sender apdu.now) }
{
    let len = frame_len(peer, apdu);
    let mut octets = Vec::with_capacity(alloc, usize::from(len))?;
    octets.extend_from_slice(&[BVLL_OF_IP, ORIGINAL_UNICAST])?;
    octets.extend_from_slice(&len.to_be_bytes())?;
    octets.extend_from_slice(&[VERSION, control(peer, expects_reply)])?;
    append_destination(&mut octets, peer)?;
    octets.extend_from_slice(apdu)?;
    Ok(octets)
}
