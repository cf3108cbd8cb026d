//! What journals lead to.

ghost use Rattle.std.specs.Prelude.{◌≡◌, ◌<◌, ◌≤◌, All, length};
ghost use Rattle.alarm_core.specs.Sites.{IsSite};
ghost use Rattle.alarm_journal.specs.Opened.{EndsOnDevice, sum_of};

use crate::comparing::holds;
use crate::sites::{Question, ask_of_plant};
use alarm_core::{Core, Site};
use alarm_journal::{Job, Opened, Press};
use ground_io::MemoryGround;
use state_codec::{RecoverFault, recover};
use std::alloc::Global;
use std::process::Abort;
use std::test::Fail;

/// The records of three events: 90 is written at the site's start, 50 a millisecond later, and 90 again a millisecond later.
const FIRST: &[u8] = b"\0\0\x01\x8B\xCF\xE5\x68\0\x02\x0B\x40\0\x01\0\0\0\x55\x03\0\0\0\x5A";

const SECOND: &[u8] = b"\0\0\x01\x8B\xCF\xE5\x68\x01\x02\x0B\x40\0\x01\0\0\0\x55\x03\0\0\0\x32";

const THIRD: &[u8] = b"\0\0\x01\x8B\xCF\xE5\x68\x02\x02\x0B\x40\0\x01\0\0\0\x55\x03\0\0\0\x5A";

/// The second and the third, one after the other.
const LATER: &[u8] =
    b"\0\0\x01\x8B\xCF\xE5\x68\x01\x02\x0B\x40\0\x01\0\0\0\x55\x03\0\0\0\x32\0\0\x01\x8B\xCF\xE5\x68\x02\x02\x0B\x40\0\x01\0\0\0\x55\x03\0\0\0\x5A";

/// The first, and half of the second.
const HALF: &[u8] =
    b"\0\0\x01\x8B\xCF\xE5\x68\0\x02\x0B\x40\0\x01\0\0\0\x55\x03\0\0\0\x5A\0\0\x01\x8B\xCF\xE5\x68\x01\x02\x0B\x40";

/// The other half of the second.
const REST: &[u8] = b"\0\x01\0\0\0\x55\x03\0\0\0\x32";

/// A value of a tank that isn't there is written.
const OTHER: &[u8] = b"\0\0\x01\x8B\xCF\xE5\x68\x01\x02\x0B\x40\0\x02\0\0\0\x55\x03\0\0\0\x32";

/// What a journal leaves of a site.
#[derive(Clone, Copy, Debug, PartialEq, Eq)]
enum Left {
    /// A core that has had so many events.
    Core { events: u64 },
    /// Nothing, since it is damaged at a place.
    Damaged { at: u64 },
    /// Nothing, for another reason.
    Refused,
}

/// A device with a journal of these batches, if there was memory for it.
fn committed(alloc: Global, bodies: &[&'static [u8]]) -> Result<MemoryGround, Fail> {
    let contents = vec![in alloc; 0u8; 400]?;
    let mut device = MemoryGround::new(alloc, contents, Vec::new(alloc));
    for body in bodies {
        device = with_batch(alloc, device, body)?;
    }
    Ok(device)
}

/// The device with one batch more, where there is room for it.
fn with_batch(alloc: Global, device: MemoryGround, body: &[u8]) -> Result<MemoryGround, Fail> {
    if body.is_empty() || body.len() >= 60_000 {
        return Ok(device);
    }
    let job = Job::batch(alloc, body)?;
    Ok(with_job(alloc, device, &job))
}

fn with_job(alloc: Global, device: MemoryGround, job: &Job) -> MemoryGround
    requires some { 0 < length job.now }
{
    match Press::open(alloc, device, b"site", 60) {
        Ok((press, _)) => pressed(press, job),
        Err((device, _)) => device,
    }
}

fn pressed(press: Press<MemoryGround>, job: &Job) -> MemoryGround
    requires some { 0 < length job.now }
{
    if job.length() > press.room() {
        return press.into_ground();
    }
    match press.commit_batch(job) {
        Ok(press) => press.into_ground(),
        Err(device) => device,
    }
}

/// What is left where there is a core, which is given up.
fn left_in(core: Core) -> Left {
    let events = core.events();
    drop(core);
    Left::Core { events }
}

fn left_of(alloc: Global, site: &Site, opened: &Opened) -> Left
    requires site { IsSite site.now }
    requires whole { sum_of opened.now.bodies ≡ length opened.now.batches }
    requires places { All EndsOnDevice opened.now.bodies }
{
    match recover(alloc, site, opened) {
        Ok(core) => left_in(core),
        Err(RecoverFault::Damaged { at }) => Left::Damaged { at },
        Err(RecoverFault::NoMemory) => Left::Refused,
    }
}

fn left_on(alloc: Global, site: &Site, device: MemoryGround) -> Left
    requires site { IsSite site.now }
{
    match Press::open(alloc, device, b"site", 60) {
        Ok((_, opened)) => left_of(alloc, site, &opened),
        Err(_) => Left::Refused,
    }
}

/// That a journal of these batches leaves this of the plant.
#[derive(Clone, Copy)]
struct LeftOfBatches<'a> {
    bodies: &'a [&'static [u8]],
    wanted: Left,
}

impl Question for LeftOfBatches<'_> {
    fn ask(&self, rt: &impl Abort, alloc: Global, site: &Site) -> Result<(), Fail>
        requires site { IsSite site.now }
    {
        let device = committed(alloc, self.bodies)?;
        holds(rt, left_on(alloc, site, device) == self.wanted);
        Ok(())
    }
}

fn leaves(
    rt: &impl Abort,
    alloc: Global,
    bodies: &[&'static [u8]],
    wanted: Left,
) -> Result<(), Fail> {
    ask_of_plant(rt, alloc, &LeftOfBatches { bodies, wanted })
}

#[test]
fn each_record_of_each_batch_is_an_event(rt: HostRuntime) -> Result<(), Fail> {
    let alloc = rt.alloc();
    leaves(&rt, alloc, &[], Left::Core { events: 0 })?;
    leaves(&rt, alloc, &[FIRST], Left::Core { events: 1 })?;
    leaves(
        &rt,
        alloc,
        &[FIRST, SECOND, THIRD],
        Left::Core { events: 3 },
    )?;
    leaves(&rt, alloc, &[FIRST, LATER], Left::Core { events: 3 })
}

/// Where the octets of the first batch begin, behind the header, the snapshot's length, and a gate and a length.
const FIRST_BODY: u64 = 35;

/// And those of a second one, behind a first one with one record.
const SECOND_BODY: u64 = 62;

#[test]
fn what_cannot_follow_is_damaged_at_its_place(rt: HostRuntime) -> Result<(), Fail> {
    let alloc = rt.alloc();
    let at = SECOND_BODY;
    // The moment is before the last one.
    leaves(&rt, alloc, &[SECOND, FIRST], Left::Damaged { at })?;
    // The site has no such object.
    leaves(&rt, alloc, &[FIRST, OTHER], Left::Damaged { at })?;
    // There is no record.
    leaves(&rt, alloc, &[FIRST, REST], Left::Damaged { at })
}

#[test]
fn no_record_runs_on_in_the_next_batch(rt: HostRuntime) -> Result<(), Fail> {
    let at = FIRST_BODY + 22;
    leaves(&rt, rt.alloc(), &[HALF, REST], Left::Damaged { at })
}

/// A device whose journal holds this octet as a snapshot, where there is room for it.
fn with_snapshot(alloc: Global, octet: u8) -> Result<MemoryGround, Fail> {
    let job = Job::snapshot(alloc, &[octet])?;
    Ok(with_snapshot_job(alloc, committed(alloc, &[])?, &job))
}

fn with_snapshot_job(alloc: Global, device: MemoryGround, job: &Job) -> MemoryGround
    requires few { length job.now ≤ 1 }
{
    match Press::open(alloc, device, b"site", 60) {
        Ok((press, _)) => snapshot_pressed(press, job),
        Err((device, _)) => device,
    }
}

fn snapshot_pressed(press: Press<MemoryGround>, job: &Job) -> MemoryGround
    requires few { length job.now ≤ 1 }
{
    if job.length() + 5 > press.area() {
        return press.into_ground();
    }
    match press.commit_snapshot(job) {
        Ok(press) => press.into_ground(),
        Err(device) => device,
    }
}

/// A journal whose snapshot is that of no state, and a batch behind it, leave this of the plant.
#[derive(Clone, Copy)]
struct LeftOfSnapshot {
    wanted: Left,
}

impl Question for LeftOfSnapshot {
    fn ask(&self, rt: &impl Abort, alloc: Global, site: &Site) -> Result<(), Fail>
        requires site { IsSite site.now }
    {
        let device = with_batch(alloc, with_snapshot(alloc, 9)?, FIRST)?;
        holds(rt, left_on(alloc, site, device) == self.wanted);
        Ok(())
    }
}

#[test]
fn a_snapshot_of_no_state_is_damaged_at_its_first_octet(rt: HostRuntime) -> Result<(), Fail> {
    // The second area begins behind the header, of 26 octets, and the first one, of 187; the snapshot behind its length.
    let wanted = Left::Damaged { at: 217 };
    ask_of_plant(&rt, rt.alloc(), &LeftOfSnapshot { wanted })
}
