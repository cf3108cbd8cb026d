// Packets, as the page of their octets has them.

use crate::sites::START;
use std::alloc::Global;
use std::test::Fail;

/// The records of three events: 90 is written at the site's start, 50 a millisecond later, and 90 again a millisecond later.
pub(crate) const SETS: &[u8] = &[
    0, 0, 0x01, 0x8B, 0xCF, 0xE5, 0x68, 0, 2, 0x0B, 0x40, 0, 1, 0, 0, 0, 85, 3, 0, 0, 0, 90, //
    0, 0, 0x01, 0x8B, 0xCF, 0xE5, 0x68, 1, 2, 0x0B, 0x40, 0, 1, 0, 0, 0, 85, 3, 0, 0, 0, 50, //
    0, 0, 0x01, 0x8B, 0xCF, 0xE5, 0x68, 2, 2, 0x0B, 0x40, 0, 1, 0, 0, 0, 85, 3, 0, 0, 0, 90,
];

/// Each of these records has so many octets.
pub(crate) const SET: usize = 22;

/// A packet.
#[derive(Clone, Copy, Debug)]
pub(crate) enum Packet<'a> {
    /// These octets.
    Octets(&'a [u8]),
    /// So many records behind so many events.
    Records {
        before: u64,
        count: u16,
        records: &'a [u8],
    },
    /// A piece, at a place, of a snapshot after so many events.
    Piece {
        events: u64,
        whole: u32,
        place: u32,
        octets: &'a [u8],
    },
}

/// Octets behind the number of them, which stands in two.
fn counted(out: &mut Vec<u8>, octets: &[u8]) -> Result<(), Fail> {
    let length = octets.len().to_be_bytes();
    out.extend_from_slice(&length[6..])?;
    out.extend_from_slice(octets)?;
    Ok(())
}

fn records_packet(alloc: Global, before: u64, count: u16, records: &[u8]) -> Result<Vec<u8>, Fail> {
    let mut out = Vec::from_slice(alloc, &[1])?;
    out.extend_from_slice(&before.to_be_bytes())?;
    out.extend_from_slice(&count.to_be_bytes())?;
    counted(&mut out, records)?;
    Ok(out)
}

/// The octets of a packet.
pub(crate) fn octets_of(alloc: Global, packet: Packet<'_>) -> Result<Vec<u8>, Fail> {
    match packet {
        Packet::Octets(octets) => Ok(octets.to_vec(alloc)?),
        Packet::Records {
            before,
            count,
            records,
        } => records_packet(alloc, before, count, records),
        Packet::Piece {
            events,
            whole,
            place,
            octets,
        } => {
            let mut out = Vec::from_slice(alloc, &[2])?;
            out.extend_from_slice(&events.to_be_bytes())?;
            out.extend_from_slice(&whole.to_be_bytes())?;
            out.extend_from_slice(&place.to_be_bytes())?;
            counted(&mut out, octets)?;
            Ok(out)
        }
    }
}

/// The record of an act, so many milliseconds behind the start of a site.
pub(crate) fn record_of(alloc: Global, later: u64, act: &[u8]) -> Result<Vec<u8>, Fail> {
    let moment = START.saturating_add(later);
    let mut out = Vec::from_slice(alloc, &moment.to_be_bytes())?;
    out.extend_from_slice(act)?;
    Ok(out)
}

/// A record, so many times.
pub(crate) fn repeated(alloc: Global, record: &[u8], count: u32) -> Result<Vec<u8>, Fail> {
    let mut out = Vec::new(alloc);
    for _ in 0..count {
        out.extend_from_slice(record)?;
    }
    Ok(out)
}

/// What happens where the value of a tank is set.
pub(crate) fn set(tank: u8, value: u8) -> [u8; 14] {
    [2, 0x0B, 0x40, 0, tank, 0, 0, 0, 85, 3, 0, 0, 0, value]
}

/// The snapshot of the site of one tank after so many events, all at its start, that set values within the limits, this one
/// last: one recipient, and no notification. The tank's delay is in seconds.
pub(crate) fn snapshot_of(
    alloc: Global,
    events: u64,
    value: u8,
    delay: u8,
) -> Result<Vec<u8>, Fail> {
    let mut out = Vec::from_slice(alloc, &[1])?;
    out.extend_from_slice(&events.to_be_bytes())?;
    out.extend_from_slice(&START.to_be_bytes())?;
    out.extend_from_slice(&[3, 0, 0, 0, value, 0, 0, 0, 0, 7, 0, 0, 0, delay])?;
    out.extend_from_slice(&[0, 0, 0, 0, 0, 0, 0, 0, 80, 0, 0, 0, 20, 0, 0, 0, 5, 3])?;
    out.extend_from_slice(&[0, 7])?;
    out.extend_from_slice(&[255; 27])?;
    out.extend_from_slice(&[0; 44])?;
    out.extend_from_slice(&[1, 127, 0, 0, 0, 0, 0, 0x83, 0xD5, 0xFF])?;
    out.extend_from_slice(&[10, 0, 0, 5, 0xBA, 0xC0, 0, 0, 0, 0, 0, 0, 0, 0, 0, 0])?;
    out.extend_from_slice(&[0, 0, 0, 1, 1, 7])?;
    out.extend_from_slice(&[0, 1, 10, 0, 0, 5, 0xBA, 0xC0])?;
    out.extend_from_slice(&[0; 22])?;
    Ok(out)
}

/// So many octets of a snapshot, from a place on; none where there are fewer.
pub(crate) fn stretch(octets: &[u8], place: usize, count: usize) -> &[u8] {
    match octets.get(place..) {
        Some(behind) => match behind.get(..count) {
            Some(stretch) => stretch,
            None => &[],
        },
        None => &[],
    }
}
