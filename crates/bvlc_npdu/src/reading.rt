//! The message and the NPDU are read, down to the APDU and to whom it is answered (clause 6, annex J).

ghost use Rattle.std.specs.Prelude.{◌≡◌, ◌≢◌, ◌≤◌, List, ℕ, drop, length, IfSome, IsSomeAnd};
ghost use Rattle.bac_values.specs.Address.{PeerData};
ghost use Rattle.bvlc_npdu.specs.Frame.{IsFrame};
ghost use Rattle.bvlc_npdu.specs.ReadingSteps.{Answers, past, message_at, forwarded_at, origin_at, after_global_broadcast, after_destination, station_at, source_at, after_hop_count, addressed_at, npdu_at, frame_at, incoming_at};

use crate::layout::{
    ALL_NETWORKS, BVLL_OF_IP, FORWARDED, HAS_DESTINATION, HAS_SOURCE, IS_NETWORK_MESSAGE,
    ORIGINAL_BROADCAST, ORIGINAL_UNICAST, VERSION,
};
use bac_values::{Mac, Peer};
use byteorder::{BigEndian, ByteOrder};

/// An APDU that came in.
#[derive(Clone, Copy, Debug, PartialEq, Eq)]
pub struct Incoming {
    /// The peer that sent it, to which an answer goes.
    pub peer: Peer,
    /// The place in the datagram at which it begins.
    pub start: usize,
}

/// The octets behind the first `count`.
fn past(count: usize, octets: &[u8]) -> Option<&[u8]>
    ensures { Answers (λ rest. rest.now) result (past count octets.now) }
{
    if octets.len() < count {
        return None;
    }
    Some(&octets[count..])
}

/// The function of a message that is as long as it says, and what it carries.
#[tactic(auto, unfolding(crate::specs::ReadingSteps::message_at))]
fn read_message(octets: &[u8]) -> Option<(u8, &[u8])>
    ensures { Answers (λ message. (message.0, message.1.now)) result (message_at octets.now) }
{
    if octets.len() < 4 {
        return None;
    }
    let length = usize::from(BigEndian::read_u16(&octets[2..]));
    if octets[0] == BVLL_OF_IP && length == octets.len() {
        Some((octets[1], &octets[4..]))
    } else {
        None
    }
}

/// The device that a Forwarded-NPDU names, and the NPDU.
#[tactic(auto, unfolding(crate::specs::ReadingSteps::forwarded_at))]
fn read_forwarded(content: &[u8]) -> Option<(Peer, &[u8])>
    ensures { Answers (λ carried. (carried.0, carried.1.now)) result (forwarded_at content.now) }
{
    if content.len() < 6 {
        return None;
    }
    let ip = BigEndian::read_u32(content);
    let port = BigEndian::read_u16(&content[4..]);
    Some((Peer::local(ip, port), &content[6..]))
}

/// The device from which the NPDU comes that a function carries, and the NPDU.
#[tactic(auto, unfolding(crate::specs::ReadingSteps::origin_at))]
fn read_origin(sender: Peer, function: u8, content: &[u8]) -> Option<(Peer, &[u8])>
    ensures { Answers (λ carried. (carried.0, carried.1.now)) result (origin_at sender function content.now) }
{
    match function {
        ORIGINAL_UNICAST | ORIGINAL_BROADCAST => Some((sender, content)),
        FORWARDED => read_forwarded(content),
        _ => None,
    }
}

/// The octets behind a destination that stands for all networks.
#[tactic(auto, unfolding(crate::specs::ReadingSteps::after_global_broadcast))]
fn skip_global_broadcast(octets: &[u8]) -> Option<&[u8]>
    ensures { Answers (λ rest. rest.now) result (after_global_broadcast octets.now) }
{
    if octets.len() < 3 {
        return None;
    }
    if BigEndian::read_u16(octets) != ALL_NETWORKS {
        return None;
    }
    past(usize::from(octets[2]), &octets[3..])
}

/// The octets behind the destination, where the control octet says that there is one.
#[tactic(auto, unfolding(crate::specs::ReadingSteps::after_destination))]
fn skip_destination(control: u8, octets: &[u8]) -> Option<&[u8]>
    ensures { Answers (λ rest. rest.now) result (after_destination control octets.now) }
{
    if control & HAS_DESTINATION == 0 {
        return Some(octets);
    }
    skip_global_broadcast(octets)
}

/// The network and the address of a station, and the octets behind them.
#[tactic(auto, unfolding(crate::specs::ReadingSteps::station_at))]
fn read_station(octets: &[u8]) -> Option<(u16, Mac, &[u8])>
    ensures exact { Answers (λ station. (station.0, station.1, station.2.now)) result
        (station_at octets.now) }
    ensures remote { IfSome result (λ station. station.0 ≢ 0) }
{
    if octets.len() < 3 {
        return None;
    }
    let net = BigEndian::read_u16(octets);
    let size = usize::from(octets[2]);
    if net == 0 || size == 0 {
        return None;
    }
    let rest = &octets[3..];
    if rest.len() < size {
        return None;
    }
    let (address, rest) = rest.split_at(size);
    let mac = Mac::new(address)?;
    Some((net, mac, rest))
}

/// The peer, which is a station behind the device where the control octet says that there is a source.
#[tactic(auto, unfolding(crate::specs::ReadingSteps::source_at))]
fn read_source(control: u8, origin: Peer, octets: &[u8]) -> Option<(Peer, &[u8])>
    ensures { Answers (λ source. (source.0, source.1.now)) result (source_at control origin octets.now) }
{
    if control & HAS_SOURCE == 0 {
        return Some((origin, octets));
    }
    let Some((net, mac, rest)) = read_station(octets) else {
        return None;
    };
    Some((Peer { net, mac, ..origin }, rest))
}

/// The octets behind the hop count, which goes with a destination.
#[tactic(auto, unfolding(crate::specs::ReadingSteps::after_hop_count))]
fn skip_hop_count(control: u8, octets: &[u8]) -> Option<&[u8]>
    ensures { Answers (λ rest. rest.now) result (after_hop_count control octets.now) }
{
    if control & HAS_DESTINATION == 0 {
        return Some(octets);
    }
    past(1, octets)
}

/// The peer and the APDU behind the control octet.
#[tactic(auto, unfolding(crate::specs::ReadingSteps::addressed_at))]
fn read_addressed(origin: Peer, control: u8, octets: &[u8]) -> Option<(Peer, &[u8])>
    ensures { Answers (λ found. (found.0, found.1.now)) result (addressed_at origin control octets.now) }
{
    let rest = skip_destination(control, octets)?;
    let Some((peer, rest)) = read_source(control, origin, rest) else {
        return None;
    };
    let apdu = skip_hop_count(control, rest)?;
    Some((peer, apdu))
}

/// The peer and the APDU of an NPDU that is no message of the network layer.
#[tactic(auto, unfolding(crate::specs::ReadingSteps::npdu_at))]
fn read_npdu(origin: Peer, octets: &[u8]) -> Option<(Peer, &[u8])>
    ensures { Answers (λ found. (found.0, found.1.now)) result (npdu_at origin octets.now) }
{
    if octets.len() < 2 {
        return None;
    }
    let control = octets[1];
    if octets[0] != VERSION || control & IS_NETWORK_MESSAGE != 0 {
        return None;
    }
    read_addressed(origin, control, &octets[2..])
}

/// The peer and the APDU of a datagram.
#[tactic(auto, unfolding(crate::specs::ReadingSteps::frame_at))]
fn read_frame(sender: Peer, bytes: &[u8]) -> Option<(Peer, &[u8])>
    ensures { Answers (λ found. (found.0, found.1.now)) result (frame_at sender bytes.now) }
{
    let (function, content) = read_message(bytes)?;
    let Some((origin, npdu)) = read_origin(sender, function, content) else {
        return None;
    };
    let Some((peer, apdu)) = read_npdu(origin, npdu) else {
        return None;
    };
    if peer.port == 0 {
        return None;
    }
    Some((peer, apdu))
}

/// The APDU in a datagram that came from `sender`, and the peer to which an answer goes. None is given for what
/// isn't taken: a datagram that isn't a whole message of BACnet/IP, carries no APDU or one for another network,
/// or comes from where no answer can go.
pub fn unwrap(sender: Peer, bytes: &[u8]) -> Option<Incoming>
    ensures exact { result ≡ incoming_at sender bytes.now }
    ensures within { IfSome result (λ incoming. incoming.start ≤ length bytes.now) }
    ensures found { IfSome result (λ incoming.
        IsFrame sender bytes.now incoming.peer (drop incoming.start bytes.now)) }
    ensures only { (peer : PeerData) (apdu : List ℕ) → IsFrame sender bytes.now peer apdu
        → IsSomeAnd result (λ incoming. (incoming.peer ≡ peer) × (drop incoming.start bytes.now ≡ apdu)) }
{
    let Some(found) = read_frame(sender, bytes) else {
        return None;
    };
    let (peer, apdu) = found;
    Some(Incoming {
        peer,
        start: bytes.len() - apdu.len(),
    })
}
