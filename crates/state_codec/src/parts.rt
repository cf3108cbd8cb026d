//! Numbers, flags, identifiers and peers are read from the front of octets.

ghost use Rattle.std.specs.Prelude.{◌≡◌, ◌==◌, length, IfOk};
ghost use Rattle.std.specs.Int.{w16, w32, w64};
ghost use Rattle.std.specs.List.{list_all};
ghost use Rattle.state_codec.specs.ReadingSteps.{Gives, flag_at, flags_at, number_at, object_at, octet_at, octets_at, peer_at, station_at};

use crate::reading::ReadFault;
use bac_values::{Bits, Mac, ObjectId, Peer};

/// Takes the octet at the front, and leaves what is behind it.
#[tactic(auto, unfolding(crate::specs::ReadingSteps::octet_at))]
pub fn take_octet(bytes: &mut &[u8]) -> Result<u8, ReadFault>
    ensures exact { Gives (λ x. (x, bytes.new.now)) result (octet_at bytes.old.now) }
{
    match *bytes {
        [octet, rest @ ..] => {
            *bytes = rest;
            Ok(*octet)
        }
        [] => Err(ReadFault::NothingThere),
    }
}

/// Takes so many octets from the front.
#[tactic(auto, unfolding(crate::specs::ReadingSteps::octets_at))]
pub fn take_octets<'a>(bytes: &mut &'a [u8], count: usize) -> Result<&'a [u8], ReadFault>
    ensures exact { Gives (λ x. (x.now, bytes.new.now)) result (octets_at count bytes.old.now) }
    ensures whole { IfOk result (λ front. length front.now ≡ count) }
{
    if bytes.len() < count {
        return Err(ReadFault::NothingThere);
    }
    let (front, rest) = bytes.split_at(count);
    *bytes = rest;
    Ok(front)
}

/// Takes the number of two octets at the front.
#[tactic(auto, unfolding(crate::specs::ReadingSteps::number_at, crate::specs::ReadingSteps::octets_at))]
pub fn take_u16(bytes: &mut &[u8]) -> Result<u16, ReadFault>
    ensures exact { Gives (λ x. (x, bytes.new.now)) result (number_at w16 bytes.old.now) }
{
    let front = take_octets(bytes, 2)?;
    Ok(u16::from_be_bytes([front[0], front[1]]))
}

/// Takes the number of four octets at the front.
#[tactic(auto, unfolding(crate::specs::ReadingSteps::number_at, crate::specs::ReadingSteps::octets_at))]
pub fn take_u32(bytes: &mut &[u8]) -> Result<u32, ReadFault>
    ensures exact { Gives (λ x. (x, bytes.new.now)) result (number_at w32 bytes.old.now) }
{
    let front = take_octets(bytes, 4)?;
    Ok(u32::from_be_bytes([front[0], front[1], front[2], front[3]]))
}

/// Takes the number of eight octets at the front.
#[tactic(auto, unfolding(crate::specs::ReadingSteps::number_at, crate::specs::ReadingSteps::octets_at))]
pub fn take_u64(bytes: &mut &[u8]) -> Result<u64, ReadFault>
    ensures exact { Gives (λ x. (x, bytes.new.now)) result (number_at w64 bytes.old.now) }
{
    let front = take_octets(bytes, 8)?;
    Ok(u64::from_be_bytes([
        front[0], front[1], front[2], front[3], front[4], front[5], front[6], front[7],
    ]))
}

/// Takes the flag at the front: 0 or 1.
#[tactic(auto, unfolding(crate::specs::ReadingSteps::flag_at))]
pub(crate) fn take_flag(bytes: &mut &[u8]) -> Result<bool, ReadFault>
    ensures exact { Gives (λ x. (x, bytes.new.now)) result (flag_at bytes.old.now) }
{
    match take_octet(bytes)? {
        0 => Ok(false),
        1 => Ok(true),
        _ => Err(ReadFault::NothingThere),
    }
}

/// Takes the three flags at the front, the first one in the lowest bit.
#[tactic(auto, unfolding(crate::specs::ReadingSteps::flags_at))]
pub(crate) fn take_flags(bytes: &mut &[u8]) -> Result<[bool; 3], ReadFault>
    ensures exact { Gives (λ x. (x, bytes.new.now)) result (flags_at bytes.old.now) }
{
    let octet = take_octet(bytes)?;
    match Bits::new(3, u64::from(octet)) {
        Ok(bits) => Ok(bits.three_flags()),
        Err(_) => Err(ReadFault::NothingThere),
    }
}

/// Takes the object identifier at the front.
#[tactic(auto, unfolding(crate::specs::ReadingSteps::object_at))]
pub(crate) fn take_object(bytes: &mut &[u8]) -> Result<ObjectId, ReadFault>
    ensures exact { Gives (λ x. (x, bytes.new.now)) result (object_at bytes.old.now) }
{
    let number = take_u32(bytes)?;
    match ObjectId::new((number / 4_194_304) as u16, number % 4_194_304) {
        Ok(object) => Ok(object),
        Err(_) => unreachable!(),
    }
}

/// Takes the station of a peer at the front: the places behind its octets are 0.
#[tactic(auto, unfolding(crate::specs::ReadingSteps::station_at))]
pub(crate) fn take_station(bytes: &mut &[u8]) -> Result<Mac, ReadFault>
    ensures exact { Gives (λ x. (x, bytes.new.now)) result (station_at bytes.old.now) }
{
    let size = usize::from(take_octet(bytes)?);
    let places = take_octets(bytes, 7)?;
    if size > 7 || !are_zeros(&places[size..]) {
        return Err(ReadFault::NothingThere);
    }
    match Mac::new(&places[..size]) {
        Some(mac) => Ok(mac),
        None => unreachable!(),
    }
}

/// Whether each octet is 0.
fn are_zeros(octets: &[u8]) -> bool
    ensures zeros { result ≡ list_all (λ octet. octet == 0) octets.now }
{
    octets.iter().all(|octet| *octet == 0)
}

/// Takes the peer at the front.
#[tactic(auto, unfolding(crate::specs::ReadingSteps::peer_at))]
pub(crate) fn take_peer(bytes: &mut &[u8]) -> Result<Peer, ReadFault>
    ensures exact { Gives (λ x. (x, bytes.new.now)) result (peer_at bytes.old.now) }
{
    let ip = take_u32(bytes)?;
    let port = take_u16(bytes)?;
    let net = take_u16(bytes)?;
    let mac = take_station(bytes)?;
    if net == 0 && !mac.octets().is_empty() {
        return Err(ReadFault::NothingThere);
    }
    Ok(Peer { ip, port, net, mac })
}
