// Each line of the table, for each of its causes.

use crate::comparing::counts;
use crate::packets::{Packet, SET, SETS, record_of, repeated, set, snapshot_of, stretch};
use crate::sites::{TANK, ask_of};
use crate::standing::{Line, Lines};
use standby::Took;
use std::alloc::Global;
use std::process::Abort;
use std::test::Fail;

const MALFORMED: Took = Took::Malformed;

fn gap(events: u64) -> Took {
    Took::Gap { events }
}

fn repeat(events: u64) -> Took {
    Took::Repeat { events }
}

fn part(place: u32) -> Took {
    Took::Part { place }
}

fn taken(events: u64) -> Took {
    Took::Taken { events }
}

fn records(before: u64, count: u16, records: &[u8]) -> Packet<'_> {
    Packet::Records {
        before,
        count,
        records,
    }
}

/// A piece of a snapshot of 184 octets.
fn piece(events: u64, place: u32, octets: &[u8]) -> Packet<'_> {
    Packet::Piece {
        events,
        whole: 184,
        place,
        octets,
    }
}

/// A follower of a tank answers so, and has so many events then.
fn answers(rt: &impl Abort, alloc: Global, lines: &[Line<'_>], left: u64) -> Result<(), Fail> {
    ask_of(rt, alloc, TANK, &Lines { lines, left })
}

/// The packet of one tick, and an octet behind it.
const TICK: [u8; 23] = [
    1, 0, 0, 0, 0, 0, 0, 0, 0, 0, 1, 0, 9, 0, 0, 0x01, 0x8B, 0xCF, 0xE5, 0x68, 0, 1, 0,
];

/// The first octet of a snapshot of two after five events, and an octet behind it.
const PIECE: [u8; 21] = [
    2, 0, 0, 0, 0, 0, 0, 0, 5, 0, 0, 0, 2, 0, 0, 0, 0, 0, 1, 1, 0,
];

#[test]
fn octets_that_are_no_packet_are_malformed(rt: HostRuntime) -> Result<(), Fail> {
    let lines = [
        (Packet::Octets(&[]), MALFORMED),
        (Packet::Octets(&[3]), MALFORMED),
        (Packet::Octets(&TICK[..21]), MALFORMED),
        (Packet::Octets(&TICK), MALFORMED),
        (Packet::Octets(&TICK[1..22]), MALFORMED),
        (Packet::Octets(&PIECE[..19]), MALFORMED),
        (Packet::Octets(&PIECE), MALFORMED),
        (Packet::Octets(&TICK[..22]), taken(1)),
        (Packet::Octets(&PIECE[..20]), part(1)),
    ];
    answers(&rt, rt.alloc(), &lines, 1)
}

#[test]
fn a_count_that_is_not_that_of_the_records_is_malformed(rt: HostRuntime) -> Result<(), Fail> {
    let lines = [
        (records(0, 0, &[]), MALFORMED),
        (records(0, 0, SETS), MALFORMED),
        (records(0, 2, SETS), MALFORMED),
        (records(0, 4, SETS), MALFORMED),
        (records(0, 1, &[]), MALFORMED),
        (records(0, 3, &SETS[..65]), MALFORMED),
        (records(9, 0, &[]), MALFORMED),
        (records(0, 3, SETS), taken(3)),
    ];
    answers(&rt, rt.alloc(), &lines, 3)
}

/// The fault of the tank goes, in 14 octets.
const FAULT_GOES: [u8; 14] = [
    0, 0, 0x01, 0x8B, 0xCF, 0xE5, 0x68, 0, 3, 0x0B, 0x40, 0, 1, 0,
];

#[test]
fn records_of_more_than_1400_octets_are_malformed(rt: HostRuntime) -> Result<(), Fail> {
    let alloc = rt.alloc();
    let all = repeated(alloc, &FAULT_GOES, 101)?;
    counts(&rt, all.len(), 1_414);
    let lines = [
        (records(0, 101, &all), MALFORMED),
        (records(0, 100, &all[14..]), taken(100)),
    ];
    answers(&rt, alloc, &lines, 100)
}

/// Three records, of which the third is of no act, behind these.
fn broken_third(alloc: Global) -> Result<Vec<u8>, Fail> {
    let mut broken = SETS[..2 * SET].to_vec(alloc)?;
    broken.extend_from_slice(&record_of(alloc, 2, &[9])?)?;
    Ok(broken)
}

#[test]
fn a_broken_record_is_malformed_wherever_its_packet_is(rt: HostRuntime) -> Result<(), Fail> {
    let alloc = rt.alloc();
    let broken = broken_third(alloc)?;
    let lines = [
        (records(5, 3, &broken), MALFORMED),
        (records(0, 3, &broken), MALFORMED),
        (records(0, 3, SETS), taken(3)),
        // Its events were taken.
        (records(0, 3, &broken), MALFORMED),
    ];
    answers(&rt, alloc, &lines, 3)
}

/// The second set, and one of a tank that isn't there.
fn one_of_no_tank(alloc: Global) -> Result<Vec<u8>, Fail> {
    let mut records = SETS[SET..2 * SET].to_vec(alloc)?;
    records.extend_from_slice(&record_of(alloc, 2, &set(2, 90))?)?;
    Ok(records)
}

#[test]
fn an_event_that_may_not_come_is_malformed(rt: HostRuntime) -> Result<(), Fail> {
    let alloc = rt.alloc();
    let other = one_of_no_tank(alloc)?;
    counts(&rt, other.len(), 44);
    let lines = [
        (records(0, 1, &other[SET..]), MALFORMED),
        (records(0, 1, &SETS[..SET]), taken(1)),
        // The first of the two may come, and isn't taken.
        (records(1, 2, &other), MALFORMED),
        (records(1, 1, &SETS[2 * SET..]), taken(2)),
        // It was before the last one.
        (records(2, 1, &SETS[SET..2 * SET]), MALFORMED),
    ];
    answers(&rt, alloc, &lines, 2)
}

#[test]
fn records_behind_what_is_known_are_a_gap(rt: HostRuntime) -> Result<(), Fail> {
    let lines = [
        (records(1, 2, &SETS[SET..]), gap(0)),
        (records(u64::MAX, 3, SETS), gap(0)),
        (records(0, 1, &SETS[..SET]), taken(1)),
        (records(2, 1, &SETS[2 * SET..]), gap(1)),
        (records(1, 2, &SETS[SET..]), taken(3)),
    ];
    answers(&rt, rt.alloc(), &lines, 3)
}

#[test]
fn records_that_are_known_are_repeated_and_overlap(rt: HostRuntime) -> Result<(), Fail> {
    let lines = [
        (records(0, 2, &SETS[..2 * SET]), taken(2)),
        (records(0, 2, &SETS[..2 * SET]), repeat(2)),
        (records(0, 1, &SETS[..SET]), repeat(2)),
        (records(1, 1, &SETS[SET..2 * SET]), repeat(2)),
        (records(0, 3, SETS), taken(3)),
        (records(0, 3, SETS), repeat(3)),
    ];
    answers(&rt, rt.alloc(), &lines, 3)
}

/// A piece, at a place, of a snapshot of so many octets after five events.
fn piece_of(whole: u32, place: u32, octets: &[u8]) -> Packet<'_> {
    Packet::Piece {
        events: 5,
        whole,
        place,
        octets,
    }
}

#[test]
fn a_piece_that_no_snapshot_has_is_malformed(rt: HostRuntime) -> Result<(), Fail> {
    let lines = [
        // The longest snapshot of this site may have 493,748 octets.
        (piece_of(493_749, 0, SETS), MALFORMED),
        (piece_of(493_748, 0, SETS), part(66)),
        (piece_of(u32::MAX, u32::MAX, SETS), MALFORMED),
        (piece_of(65, 0, SETS), MALFORMED),
        (piece_of(493_748, 493_683, SETS), MALFORMED),
        (piece_of(493_748, 493_682, SETS), gap(0)),
        (piece_of(0, 0, &[]), MALFORMED),
        (piece_of(66, 0, SETS), MALFORMED),
    ];
    answers(&rt, rt.alloc(), &lines, 0)
}

#[test]
fn a_piece_of_more_than_1400_octets_is_malformed(rt: HostRuntime) -> Result<(), Fail> {
    let octets = [0; 1_401];
    let lines = [
        (piece_of(2_000, 0, &octets), MALFORMED),
        (piece_of(2_000, 0, &octets[1..]), part(1_400)),
    ];
    answers(&rt, rt.alloc(), &lines, 0)
}

/// A snapshot of another version.
fn broken_snapshot(alloc: Global) -> Result<Vec<u8>, Fail> {
    let mut snapshot = snapshot_of(alloc, 5, 50, 0)?;
    if let Some(version) = snapshot.get_mut(0) {
        *version = 2;
    }
    Ok(snapshot)
}

#[test]
fn a_whole_snapshot_that_is_none_is_malformed(rt: HostRuntime) -> Result<(), Fail> {
    let alloc = rt.alloc();
    let other = snapshot_of(alloc, 4, 50, 0)?;
    let broken = broken_snapshot(alloc)?;
    counts(&rt, other.len(), 184);
    let lines = [
        (piece(5, 0, stretch(&other, 0, 100)), part(100)),
        (piece(5, 100, &other[100..]), MALFORMED),
        // Nothing is gathered any more.
        (piece(5, 100, &other[100..]), gap(0)),
        (piece(5, 0, &other), MALFORMED),
        (piece(5, 0, &broken), MALFORMED),
        (piece(4, 0, &other), taken(4)),
    ];
    answers(&rt, alloc, &lines, 4)
}

/// A piece after other events, or of another whole.
fn other_piece(events: u64, whole: u32, octets: &[u8]) -> Packet<'_> {
    Packet::Piece {
        events,
        whole,
        place: 100,
        octets,
    }
}

#[test]
fn a_piece_that_goes_on_from_no_other_is_a_gap(rt: HostRuntime) -> Result<(), Fail> {
    let alloc = rt.alloc();
    let snapshot = snapshot_of(alloc, 5, 50, 0)?;
    counts(&rt, snapshot.len(), 184);
    let lines = [
        (piece(5, 100, &snapshot[100..]), gap(0)),
        (piece(5, 0, stretch(&snapshot, 0, 100)), part(100)),
        (other_piece(6, 184, &snapshot[100..]), gap(0)),
        (other_piece(5, 185, &snapshot[100..]), gap(0)),
        (piece(5, 99, &snapshot[99..]), gap(0)),
        (piece(5, 101, &snapshot[101..]), gap(0)),
        // Neither of them, nor records, changes what is gathered.
        (records(9, 3, SETS), gap(0)),
        (records(0, 3, SETS), taken(3)),
        (records(0, 0, SETS), MALFORMED),
        (piece(5, 100, &snapshot[100..]), taken(5)),
    ];
    answers(&rt, alloc, &lines, 5)
}

#[test]
fn a_piece_of_what_is_known_is_repeated(rt: HostRuntime) -> Result<(), Fail> {
    let alloc = rt.alloc();
    let snapshot = snapshot_of(alloc, 5, 50, 0)?;
    counts(&rt, snapshot.len(), 184);
    let lines = [
        (piece(0, 7, &snapshot[7..]), repeat(0)),
        (piece(5, 0, &snapshot), taken(5)),
        (piece(5, 0, &snapshot), repeat(5)),
        (piece(4, 100, &snapshot[100..]), repeat(5)),
        (piece(6, 100, &snapshot[100..]), gap(5)),
    ];
    answers(&rt, alloc, &lines, 5)
}

#[test]
fn a_piece_at_place_0_begins_anew(rt: HostRuntime) -> Result<(), Fail> {
    let alloc = rt.alloc();
    let snapshot = snapshot_of(alloc, 5, 50, 0)?;
    counts(&rt, snapshot.len(), 184);
    let lines = [
        (piece(5, 0, stretch(&snapshot, 0, 100)), part(100)),
        (piece(5, 100, &[]), part(100)),
        (piece(5, 100, stretch(&snapshot, 100, 50)), part(150)),
        (piece(5, 0, stretch(&snapshot, 0, 50)), part(50)),
        (piece(6, 0, stretch(&snapshot, 0, 60)), part(60)),
        (piece(5, 0, &[]), part(0)),
        (piece(5, 0, stretch(&snapshot, 0, 70)), part(70)),
        (piece(5, 70, &snapshot[70..]), taken(5)),
    ];
    answers(&rt, alloc, &lines, 5)
}
