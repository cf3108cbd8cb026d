//! Snapshots, octet by octet, and damaged ones.

ghost use Rattle.alarm_core.specs.Sites.{IsSite};

use crate::alarm_core_plant::{Play, play_on, play_to};
use crate::comparing::holds;
use crate::sites::{Question, ask_of_plant};
use alarm_core::{Core, Site};
use state_codec::{CodecFault, need, read_state, snapshot_bound, write_state};
use std::alloc::Global;
use std::process::Abort;
use std::test::Fail;

/// Version 1, no event yet, and the site's start: 1700000000000.
const HEAD: [u8; 17] = [
    1, 0, 0, 0, 0, 0, 0, 0, 0, 0, 0, 0x01, 0x8B, 0xCF, 0xE5, 0x68, 0,
];

/// The value 50; in service, nothing inhibited, no fault; all transitions are told, after 10 seconds, with no other delay
/// to normal; the limits 80 and 20, the deadband 5, both limits enabled.
const ROW: [u8; 32] = [
    3, 0, 0, 0, 50, 0, 0, 0, 0, 7, 0, 0, 0, 10, 0, 0, 0, 0, 0, 0, 0, 0, 80, 0, 0, 0, 20, 0, 0, 0,
    5, 3,
];

/// Normal, all transitions acknowledged, which never came; no cause, no fault, and no runs.
const ALARM: [u8; 73] = [
    0, 7, //
    255, 255, 255, 255, 255, 255, 255, 255, 255, 255, 255, 255, 255, 255, 255, 255, 255, 255, 255,
    255, 255, 255, 255, 255, //
    255, 255, 255, //
    0, 0, 0, 0, 0, //
    0, 0, 0, 0, 0, 0, 0, 0, 0, 0, 0, 0, 0, //
    0, 0, 0, 0, 0, 0, 0, 0, 0, 0, 0, 0, 0, //
    0, 0, 0, 0, 0, 0, 0, 0, 0, 0, 0, 0, 0,
];

/// One recipient, at all times and of all transitions, to be confirmed with process identifier 1.
const CLASS: [u8; 32] = [
    1, 127, 0, 0, 0, 0, 0, 0x83, 0xD5, 0xFF, 10, 0, 0, 5, 0xBA, 0xC0, 0, 0, 0, 0, 0, 0, 0, 0, 0, 0,
    0, 0, 0, 1, 1, 7,
];

/// One known peer, whose next invoke ID is 0, and for whom nothing waits.
const OUTBOX: [u8; 30] = [
    0, 1, 10, 0, 0, 5, 0xBA, 0xC0, 0, 0, 0, 0, 0, 0, 0, 0, 0, 0, //
    0, 0, 0, 0, 0, 0, 0, 0, 0, 0, 0, 0,
];

/// Whether octets are these parts, one behind the other.
fn are_parts(octets: &[u8], parts: &[&[u8]]) -> bool {
    let mut rest = octets;
    for part in parts {
        match rest.strip_prefix(*part) {
            Some(behind) => rest = behind,
            None => return false,
        }
    }
    rest.is_empty()
}

/// The core at the start.
struct Begun;

impl Play for Begun {
    fn play(&self, rt: &impl Abort, alloc: Global, core: &mut Core) -> Result<(), Fail> {
        let octets = write_state(alloc, core)?;
        holds(rt, octets.len() == 184);
        holds(
            rt,
            are_parts(&octets, &[&HEAD, &ROW, &ALARM, &CLASS, &OUTBOX]),
        );
        Ok(())
    }
}

/// How the plant starts.
struct Start;

impl Question for Start {
    fn ask(&self, rt: &impl Abort, alloc: Global, site: &Site) -> Result<(), Fail>
        requires site { IsSite site.now }
    {
        play_on(rt, alloc, site, &Begun)
    }
}

#[test]
fn the_start_has_184_octets(rt: HostRuntime) -> Result<(), Fail> {
    ask_of_plant(&rt, rt.alloc(), &Start)
}

/// How many octets the plant needs.
struct Needs;

impl Question for Needs {
    fn ask(&self, rt: &impl Abort, _alloc: Global, site: &Site) -> Result<(), Fail>
        requires site { IsSite site.now }
    {
        holds(rt, snapshot_bound(site) == 493_748);
        holds(rt, need(site, 100) == 22 + 100 + 2 * (60_010 + 493_748));
        Ok(())
    }
}

#[test]
fn a_site_of_one_object_needs_493748_octets(rt: HostRuntime) -> Result<(), Fail> {
    ask_of_plant(&rt, rt.alloc(), &Needs)
}

/// The snapshot of the start.
fn first_octets(alloc: Global) -> Result<Vec<u8>, Fail> {
    let mut octets = Vec::new(alloc);
    octets.extend_from_slice(&HEAD)?;
    octets.extend_from_slice(&ROW)?;
    octets.extend_from_slice(&ALARM)?;
    octets.extend_from_slice(&CLASS)?;
    octets.extend_from_slice(&OUTBOX)?;
    Ok(octets)
}

/// The core is written as the octets of the start.
struct Again;

impl Play for Again {
    fn play(&self, rt: &impl Abort, alloc: Global, core: &mut Core) -> Result<(), Fail> {
        let octets = first_octets(alloc)?;
        let again = write_state(alloc, core)?;
        holds(rt, again == octets);
        Ok(())
    }
}

/// The core that is read of the octets of the start.
fn read_again(alloc: Global, site: &Site) -> Result<Core, Fail>
    requires site { IsSite site.now }
{
    let octets = first_octets(alloc)?;
    Ok(read_state(alloc, site, &octets)?)
}

/// What is read of the octets of the start is written as these.
struct Reads;

impl Question for Reads {
    fn ask(&self, rt: &impl Abort, alloc: Global, site: &Site) -> Result<(), Fail>
        requires site { IsSite site.now }
    {
        play_to(rt, alloc, read_again(alloc, site)?, &Again)
    }
}

#[test]
fn a_snapshot_is_read_and_written_again(rt: HostRuntime) -> Result<(), Fail> {
    ask_of_plant(&rt, rt.alloc(), &Reads)
}

/// A place, and an octet with which no state of the site has the snapshot.
const DAMAGED: [(usize, u8); 30] = [
    // Version 2 at a site without a zone rule; 2^63 events; a moment before the start, and one after 2^48.
    (0, 2),
    (1, 0x80),
    (11, 0),
    (9, 1),
    // An unsigned value of an integer value; a flag of 2; a fault that the field doesn't have; a fourth transition.
    (17, 2),
    (22, 2),
    (25, 1),
    (26, 8),
    // Time_Delay_Normal where the site has none, with its flag and without it; a third limit.
    (31, 1),
    (35, 1),
    (48, 4),
    // A state to which the limits don't lead; a fourth acknowledged transition; to-offnormal and to-fault entered others.
    (49, 2),
    (50, 8),
    (75, 0),
    (76, 2),
    // A cause where there are no alarm values; no reliability; a run that starts in 1970; a start and a key without a run.
    (81, 1),
    (82, 99),
    (83, 1),
    (91, 1),
    (95, 1),
    // 33 recipients; an eighth day; a first time behind the day's end; a recipient that is not known.
    (122, 33),
    (123, 128),
    (124, 1),
    (135, 6),
    // A station on the local network, and behind it; a flag of 2.
    (140, 1),
    (147, 1),
    (152, 2),
    // Two posts where there is one; an attempt, and a deadline, where nothing is in flight.
    (155, 2),
    (173, 1),
    (181, 1),
];

/// Whether octets are refused as those of no state of the site.
fn is_refused(alloc: Global, site: &Site, octets: &[u8]) -> bool
    requires site { IsSite site.now }
{
    read_state(alloc, site, octets).err() == Some(CodecFault::Malformed { at: 0 })
}

/// Octets with another one at a place.
fn with_octet(alloc: Global, octets: &[u8], place: usize, octet: u8) -> Result<Vec<u8>, Fail> {
    let mut damaged = octets.to_vec(alloc)?;
    if let Some(slot) = damaged.get_mut(place) {
        *slot = octet;
    }
    Ok(damaged)
}

/// Whether octets are refused with an octet at a place.
fn is_refused_with(
    alloc: Global,
    site: &Site,
    octets: &[u8],
    damage: (usize, u8),
) -> Result<bool, Fail>
    requires site { IsSite site.now }
{
    let damaged = with_octet(alloc, octets, damage.0, damage.1)?;
    Ok(is_refused(alloc, site, &damaged))
}

/// Whether the octets of the start are refused with each of the damages.
fn are_refused(alloc: Global, site: &Site) -> Result<bool, Fail>
    requires site { IsSite site.now }
{
    let octets = first_octets(alloc)?;
    for damage in DAMAGED {
        if !is_refused_with(alloc, site, &octets, damage)? {
            return Ok(false);
        }
    }
    Ok(true)
}

/// The octets of the start are refused with each of the damages.
struct Damages;

impl Question for Damages {
    fn ask(&self, rt: &impl Abort, alloc: Global, site: &Site) -> Result<(), Fail>
        requires site { IsSite site.now }
    {
        holds(rt, are_refused(alloc, site)?);
        Ok(())
    }
}

#[test]
fn each_damaged_snapshot_is_refused(rt: HostRuntime) -> Result<(), Fail> {
    ask_of_plant(&rt, rt.alloc(), &Damages)
}

/// Whether the octets of the start are refused without their last one.
fn is_refused_when_cut(alloc: Global, site: &Site) -> Result<bool, Fail>
    requires site { IsSite site.now }
{
    let mut cut = first_octets(alloc)?;
    let _last = cut.pop();
    Ok(is_refused(alloc, site, &cut))
}

/// Whether the octets of the start are refused with one more.
fn is_refused_when_longer(alloc: Global, site: &Site) -> Result<bool, Fail>
    requires site { IsSite site.now }
{
    let mut longer = first_octets(alloc)?;
    longer.push(0)?;
    Ok(is_refused(alloc, site, &longer))
}

/// The octets of the start are refused without their last one, and with one more.
struct Ends;

impl Question for Ends {
    fn ask(&self, rt: &impl Abort, alloc: Global, site: &Site) -> Result<(), Fail>
        requires site { IsSite site.now }
    {
        holds(rt, is_refused_when_cut(alloc, site)?);
        holds(rt, is_refused_when_longer(alloc, site)?);
        Ok(())
    }
}

#[test]
fn a_snapshot_ends_where_it_ends(rt: HostRuntime) -> Result<(), Fail> {
    ask_of_plant(&rt, rt.alloc(), &Ends)
}
