//! Packets octet for octet, offered and taken.

ghost use Rattle.alarm_core.specs.Sites.{IsSite};

use crate::comparing::{counts, same};
use crate::history::leader_of;
use crate::packets::{Packet, SET, SETS, octets_of, record_of, set, snapshot_of, stretch};
use crate::sites::{Question, TANK, TWO_TANKS, ask_of};
use crate::standing::{Lines, state_of};
use alarm_core::{Core, Site};
use standby::{Leader, Took};
use state_codec::follow_records;
use std::alloc::Global;
use std::process::Abort;
use std::test::Fail;

/// The three sets, in one packet.
const THREE: [u8; 79] = [
    1, 0, 0, 0, 0, 0, 0, 0, 0, 0, 3, 0, 0x42, //
    0, 0, 0x01, 0x8B, 0xCF, 0xE5, 0x68, 0, 2, 0x0B, 0x40, 0, 1, 0, 0, 0, 85, 3, 0, 0, 0, 90, //
    0, 0, 0x01, 0x8B, 0xCF, 0xE5, 0x68, 1, 2, 0x0B, 0x40, 0, 1, 0, 0, 0, 85, 3, 0, 0, 0, 50, //
    0, 0, 0x01, 0x8B, 0xCF, 0xE5, 0x68, 2, 2, 0x0B, 0x40, 0, 1, 0, 0, 0, 85, 3, 0, 0, 0, 90,
];

/// The last two of them, behind one event.
fn last_two() -> Packet<'static> {
    Packet::Records {
        before: 1,
        count: 2,
        records: &SETS[SET..],
    }
}

/// What a leader offers next is this packet, or nothing.
fn offers(
    rt: &impl Abort,
    alloc: Global,
    leader: &mut Leader,
    wanted: Option<Packet<'_>>,
) -> Result<(), Fail> {
    let offered = leader.offer(alloc)?;
    let wanted = match wanted {
        Some(packet) => Some(octets_of(alloc, packet)?),
        None => None,
    };
    same(rt, &offered, &wanted);
    Ok(())
}

/// A leader that has heard of so many events offers these packets, and then none.
fn offers_all(
    rt: &impl Abort,
    alloc: Global,
    leader: &mut Leader,
    heard: u64,
    packets: &[Packet<'_>],
) -> Result<(), Fail> {
    leader.hear(heard);
    for packet in packets {
        offers(rt, alloc, leader, Some(*packet))?;
    }
    offers(rt, alloc, leader, None)
}

/// From each number on it offers what is behind it.
fn offers_three(rt: &impl Abort, alloc: Global, leader: &mut Leader) -> Result<(), Fail> {
    offers_all(rt, alloc, leader, 0, &[Packet::Octets(&THREE)])?;
    offers_all(rt, alloc, leader, 1, &[last_two()])?;
    offers_all(rt, alloc, leader, 3, &[])?;
    offers_all(rt, alloc, leader, 4, &[])
}

#[test]
fn three_records_are_offered_in_one_packet(rt: HostRuntime) -> Result<(), Fail> {
    let alloc = rt.alloc();
    let mut leader = leader_of(alloc, 0, Vec::new(alloc), SETS.to_vec(alloc)?)?;
    let told = offers_three(&rt, alloc, &mut leader);
    drop(leader);
    told
}

#[test]
fn three_records_are_taken_once(rt: HostRuntime) -> Result<(), Fail> {
    let lines = [
        (Packet::Octets(&THREE), Took::Taken { events: 3 }),
        (Packet::Octets(&THREE), Took::Repeat { events: 3 }),
    ];
    let taken = Lines {
        lines: &lines,
        left: 3,
    };
    ask_of(&rt, rt.alloc(), TANK, &taken)
}

#[test]
fn what_is_behind_a_gap_is_not_taken(rt: HostRuntime) -> Result<(), Fail> {
    let lines = [
        (last_two(), Took::Gap { events: 0 }),
        (Packet::Octets(&[3]), Took::Malformed),
    ];
    let left = Lines {
        lines: &lines,
        left: 0,
    };
    ask_of(&rt, rt.alloc(), TANK, &left)
}

/// The head of the packet of a snapshot of 184 octets after 20,510 events.
const HEAD: [u8; 19] = [
    2, 0, 0, 0, 0, 0, 0, 0x50, 0x1E, 0, 0, 0, 0xB8, 0, 0, 0, 0, 0, 0xB8,
];

/// The packet of the snapshot after 20,510 events, of which each other one set 51.
fn whole_snapshot(alloc: Global) -> Result<Vec<u8>, Fail> {
    let mut packet = HEAD.to_vec(alloc)?;
    packet.extend_from_slice(&snapshot_of(alloc, 20_510, 51, 10)?)?;
    Ok(packet)
}

#[test]
fn a_short_snapshot_is_offered_in_one_packet(rt: HostRuntime) -> Result<(), Fail> {
    let alloc = rt.alloc();
    let packet = whole_snapshot(alloc)?;
    let snapshot = snapshot_of(alloc, 20_510, 51, 10)?;
    let mut leader = leader_of(alloc, 20_510, snapshot, Vec::new(alloc))?;
    let packets = [Packet::Octets(&packet)];
    let told = offers_all(&rt, alloc, &mut leader, 0, &packets);
    drop(leader);
    told
}

#[test]
fn a_short_snapshot_is_taken(rt: HostRuntime) -> Result<(), Fail> {
    let alloc = rt.alloc();
    let packet = whole_snapshot(alloc)?;
    let taken = Took::Taken { events: 20_510 };
    let lines = [(Packet::Octets(&packet), taken)];
    let taken = Lines {
        lines: &lines,
        left: 20_510,
    };
    let text = format!(in alloc; "{TANK}time_delay = 10\n")?;
    ask_of(&rt, alloc, text.as_str(), &taken)
}

/// The first tank rises and falls in turn, 63 times, a millisecond after the other.
fn rises_and_falls(alloc: Global) -> Result<Vec<u8>, Fail> {
    let mut records = Vec::new(alloc);
    for later in 0..63 {
        let value = if later % 2 == 0 { 90 } else { 50 };
        records.extend_from_slice(&record_of(alloc, later, &set(1, value))?)?;
    }
    Ok(records)
}

/// The snapshot behind the events of these records.
fn snapshot_behind(alloc: Global, site: &Site, records: &[u8]) -> Result<Vec<u8>, Fail>
    requires site { IsSite site.now }
{
    let mut core = Core::start(alloc, site)?;
    let followed = follow_records(alloc, &mut core, records);
    let snapshot = state_of(alloc, core)?;
    followed?;
    Ok(snapshot)
}

/// The piece at a place of a snapshot after 63 events.
fn piece_at(place: u32, octets: &[u8]) -> Packet<'_> {
    Packet::Piece {
        events: 63,
        whole: 4_062,
        place,
        octets,
    }
}

/// A snapshot of 4,062 octets after 63 events is offered and taken in three pieces, and not without the second.
struct IsTakenInPieces;

impl Question for IsTakenInPieces {
    fn ask(&self, rt: &impl Abort, alloc: Global, site: &Site) -> Result<(), Fail>
        requires site { IsSite site.now }
    {
        let snapshot = snapshot_behind(alloc, site, &rises_and_falls(alloc)?)?;
        counts(rt, snapshot.len(), 4_062);
        let first = piece_at(0, stretch(&snapshot, 0, 1_400));
        let second = piece_at(1_400, stretch(&snapshot, 1_400, 1_400));
        let third = piece_at(2_800, &snapshot[2_800..]);
        offers_pieces(rt, alloc, &snapshot, &[first, second, third])?;
        let begun = (first, Took::Part { place: 1_400 });
        let more = (second, Took::Part { place: 2_800 });
        let taken = (third, Took::Taken { events: 63 });
        let gap = (third, Took::Gap { events: 0 });
        Lines {
            lines: &[begun, more, taken],
            left: 63,
        }
        .ask(rt, alloc, site)?;
        Lines {
            lines: &[begun, gap],
            left: 0,
        }
        .ask(rt, alloc, site)
    }
}

/// A leader of a snapshot after 63 events offers these pieces.
fn offers_pieces(
    rt: &impl Abort,
    alloc: Global,
    snapshot: &[u8],
    pieces: &[Packet<'_>],
) -> Result<(), Fail> {
    let mut leader = leader_of(alloc, 63, snapshot.to_vec(alloc)?, Vec::new(alloc))?;
    let told = offers_all(rt, alloc, &mut leader, 0, pieces);
    drop(leader);
    told
}

#[test]
fn a_long_snapshot_goes_in_pieces(rt: HostRuntime) -> Result<(), Fail> {
    ask_of(&rt, rt.alloc(), TWO_TANKS, &IsTakenInPieces)
}
