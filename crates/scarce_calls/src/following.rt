//! A leader and a follower whose calls are made again.

ghost use Rattle.alarm_core.specs.Sites.{IsSite};

use crate::missed::Missed;
use crate::report::{DISK_FAULT, Text, say};
use alarm_core::{Core, Site};
use alarm_journal::OpenFault;
use ground_io::MemoryGround;
use standby::{Follower, Leader, TakeFault, Took};
use state_codec::{follow_records, need, open_journal, write_state};
use std::alloc::Global;

type Standby = Follower<MemoryGround>;

// What the journal is to have as the site's text.
const TEXT: &[u8] = b"site";

// 90 is written at the site's start, and 50.
const RISES: &[u8] = b"\0\0\x01\x8B\xCF\xE5\x68\0\x02\x0B\x40\0\x01\0\0\0\x55\x03\0\0\0\x5A";

const FALLS: &[u8] = b"\0\0\x01\x8B\xCF\xE5\x68\0\x02\x0B\x40\0\x01\0\0\0\x55\x03\0\0\0\x32";

// How often the tank rises and falls, and how many events that is. The snapshot is longer than a packet then.
const TIMES: u32 = 14;

const EVENTS: u64 = 28;

// More packets than are offered.
const MOST_PACKETS: usize = 4;

// The records of the first events.
fn first_records(alloc: Global) -> Result<Vec<u8>, Missed> {
    let mut records = Vec::new(alloc);
    for _ in 0..TIMES {
        records.extend_from_slice(RISES)?;
        records.extend_from_slice(FALLS)?;
    }
    Ok(records)
}

// The snapshot behind these records; none where memory was refused.
fn snapshot_in(alloc: Global, core: &mut Core, records: &[u8]) -> Result<Vec<u8>, Missed> {
    if follow_records(alloc, core, records).is_err() {
        return Err(Missed::Own);
    }
    match write_state(alloc, core) {
        Ok(octets) => Ok(octets),
        Err(_) => Ok(write_state(alloc, core)?),
    }
}

fn snapshot_of(alloc: Global, site: &Site) -> Result<Vec<u8>, Missed>
    requires site { IsSite site.now }
{
    let records = first_records(alloc)?;
    match Core::start(alloc, site) {
        Ok(mut core) => {
            let snapshot = snapshot_in(alloc, &mut core, &records);
            drop(core);
            snapshot
        }
        Err(_) => Err(Missed::Own),
    }
}

// A leader of that snapshot, and of one event behind it.
fn leader_at(alloc: Global, site: &Site) -> Result<Leader, Missed>
    requires site { IsSite site.now }
{
    let snapshot = snapshot_of(alloc, site)?;
    if snapshot.is_empty() || snapshot.len() > 100_000 {
        return Err(Missed::Other);
    }
    match Leader::new(alloc, EVENTS, snapshot, RISES.to_vec(alloc)?) {
        Ok(leader) => Ok(leader),
        Err(_) => Err(Missed::Own),
    }
}

// A follower on a ground, or the ground and why its journal isn't opened.
fn opened(
    alloc: Global,
    site: &Site,
    device: MemoryGround,
) -> Result<Standby, (MemoryGround, OpenFault)>
    requires site { IsSite site.now }
{
    match open_journal(alloc, site, TEXT, device) {
        Ok((press, core, read)) => {
            drop(read);
            Ok(Follower::open(site, press, core))
        }
        Err(refused) => Err(refused),
    }
}

// A follower on these octets; none where the disk failed. One whose opening was refused memory is opened again.
fn follower_on(alloc: Global, site: &Site, contents: Vec<u8>) -> Result<Option<Standby>, Missed>
    requires site { IsSite site.now }
{
    let device = MemoryGround::new(alloc, contents, Vec::new(alloc));
    let first = match opened(alloc, site, device) {
        Err((device, OpenFault::NoMemory)) => opened(alloc, site, device),
        first => first,
    };
    match first {
        Ok(follower) => Ok(Some(follower)),
        Err((_, OpenFault::DiskFault)) => Ok(None),
        Err((_, OpenFault::NoMemory)) => Err(Missed::Twice),
        Err(_) => Err(Missed::Other),
    }
}

// What a leader offers next, where it is asked again after it was refused memory.
fn offered(alloc: Global, leader: &mut Leader) -> Result<Option<Vec<u8>>, Missed> {
    match leader.offer(alloc) {
        Ok(packet) => Ok(packet),
        Err(_) => Ok(leader.offer(alloc)?),
    }
}

// A follower takes a packet, again where it was refused memory; none where the disk failed.
fn take(
    alloc: Global,
    follower: Standby,
    packet: &[u8],
) -> Result<Option<(Standby, Took)>, Missed> {
    let taken = match follower.take(alloc, packet) {
        Err(TakeFault::NoMemory { follower }) => follower.take(alloc, packet),
        taken => taken,
    };
    match taken {
        Ok(taken) => Ok(Some(taken)),
        Err(TakeFault::NoMemory { follower }) => {
            drop(follower);
            Err(Missed::Twice)
        }
        Err(TakeFault::DiskFault { device }) => {
            drop(device);
            Ok(None)
        }
    }
}

// All that a leader offers.
fn all_offered(alloc: Global, leader: &mut Leader) -> Result<Vec<Vec<u8>>, Missed> {
    let mut packets = Vec::new(alloc);
    for _ in 0..MOST_PACKETS {
        match offered(alloc, leader)? {
            Some(packet) => packets.push(packet)?,
            None => return Ok(packets),
        }
    }
    Ok(packets)
}

// A follower takes packets, one after the other; none where the disk failed. The answers are kept.
fn take_all(
    alloc: Global,
    follower: Standby,
    packets: &[Vec<u8>],
    answers: &mut [Option<Took>],
) -> Result<Option<Standby>, Missed> {
    let mut follower = follower;
    for (packet, answer) in packets.iter().zip(answers) {
        match take(alloc, follower, packet.as_slice()) {
            Ok(Some((next, took))) => {
                follower = next;
                *answer = Some(took);
            }
            Ok(None) => return Ok(None),
            Err(missed) => return Err(missed),
        }
    }
    Ok(Some(follower))
}

// The octets of a follower's device, which is given up.
fn contents_of(alloc: Global, follower: Standby) -> Result<Vec<u8>, Missed> {
    let (press, core) = follower.take_over();
    drop(core);
    let device = press.into_ground();
    let contents = device.contents().to_vec(alloc);
    drop(device);
    Ok(contents?)
}

// The octets of a blank device on which a follower took packets; none where the disk failed.
fn behind(
    alloc: Global,
    site: &Site,
    packets: &[Vec<u8>],
    answers: &mut [Option<Took>],
) -> Result<Option<Vec<u8>>, Missed>
    requires site { IsSite site.now }
{
    let contents = vec![in alloc; 0u8; need(site, TEXT.len() as u64) as usize]?;
    let Some(follower) = follower_on(alloc, site, contents)? else {
        return Ok(None);
    };
    match take_all(alloc, follower, packets, answers)? {
        Some(follower) => Ok(Some(contents_of(alloc, follower)?)),
        None => Ok(None),
    }
}

fn say_following(
    alloc: Global,
    text: &mut Text,
    site: &Site,
    packets: &[Vec<u8>],
) -> Result<bool, Missed>
    requires site { IsSite site.now }
{
    let mut answers = [None; MOST_PACKETS];
    let contents = behind(alloc, site, packets, &mut answers)?;
    for answer in &answers {
        if let Some(took) = answer {
            say(text, format!(in alloc; "{took:?}")?.as_str())?;
        }
    }
    let Some(contents) = contents else {
        return Ok(false);
    };
    let Some(follower) = follower_on(alloc, site, contents)? else {
        return Ok(false);
    };
    let events = follower.events();
    drop(follower);
    say(text, format!(in alloc; "opened: {events} events")?.as_str())?;
    Ok(true)
}

/// A follower takes what a leader offers: a snapshot in two pieces, and an event. Its device is opened again.
pub(crate) fn followed(alloc: Global, site: &Site) -> Result<Text, Missed>
    requires site { IsSite site.now }
{
    let mut leader = leader_at(alloc, site)?;
    let packets = all_offered(alloc, &mut leader);
    drop(leader);
    let packets = packets?;
    let mut text = Vec::new(alloc);
    if !say_following(alloc, &mut text, site, &packets)? {
        say(&mut text, DISK_FAULT)?;
    }
    Ok(text)
}
