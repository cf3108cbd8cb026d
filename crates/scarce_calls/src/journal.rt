//! A journal on a ground in memory, each call made again where memory was refused.

ghost use Rattle.std.specs.Prelude.{◌≡◌, ◌≤◌, ◌<◌, All, IfOk, length};
ghost use Rattle.bac_values.specs.Limits.{most_batch_octets};
ghost use Rattle.alarm_core.specs.Sites.{IsSite};
ghost use Rattle.alarm_journal.specs.Opened.{EndsOnDevice, sum_of};

use crate::missed::Missed;
use crate::report::{DISK_FAULT, Text, say};
use alarm_core::{Core, Site};
use alarm_journal::{Job, OpenFault, Opened, Press};
use bac_values::MOST_BATCH_OCTETS;
use ground_io::{Filling, MemoryGround};
use state_codec::{RecoverFault, recover};
use std::alloc::Global;

/// The records of three events: 90 is written at the site's start, 50 a millisecond later, and 90 again a millisecond later.
const RECORDS: [&[u8]; 3] = [
    b"\0\0\x01\x8B\xCF\xE5\x68\0\x02\x0B\x40\0\x01\0\0\0\x55\x03\0\0\0\x5A",
    b"\0\0\x01\x8B\xCF\xE5\x68\x01\x02\x0B\x40\0\x01\0\0\0\x55\x03\0\0\0\x32",
    b"\0\0\x01\x8B\xCF\xE5\x68\x02\x02\x0B\x40\0\x01\0\0\0\x55\x03\0\0\0\x5A",
];

// How many octets the device has, and how many it must have.
const SIZE: usize = 400;

const NEED: u64 = 60;

type Device = MemoryGround;

// A journal that was opened, or why not. A device that was refused memory is opened again.
fn opened(alloc: Global, device: Device) -> Result<(Press<Device>, Opened), (Device, OpenFault)>
    ensures whole { IfOk result (λ read. sum_of read.1.bodies ≡ length read.1.batches) }
    ensures places { IfOk result (λ read. All EndsOnDevice read.1.bodies) }
{
    match Press::open(alloc, device, b"site", NEED) {
        Err((device, OpenFault::NoMemory)) => Press::open(alloc, device, b"site", NEED),
        read => read,
    }
}

fn job_of(alloc: Global, octets: &[u8]) -> Result<Job, Missed>
    requires few { length octets.now ≤ most_batch_octets }
    ensures made { IfOk result (λ job. job ≡ octets.now) }
{
    match Job::batch(alloc, octets) {
        Ok(job) => Ok(job),
        Err(_) => Ok(Job::batch(alloc, octets)?),
    }
}

// The device with a record more in its journal; `false` where it failed.
fn committed(press: Press<Device>, job: &Job) -> (Device, bool) {
    if job.length() == 0 || job.length() > press.room() {
        return (press.into_ground(), false);
    }
    match press.commit_batch(job) {
        Ok(press) => (press.into_ground(), true),
        Err(device) => (device, false),
    }
}

// The device with a record more in its journal; `false` where it failed.
fn with_record(alloc: Global, device: Device, octets: &[u8]) -> Result<(Device, bool), Missed>
    requires few { length octets.now ≤ most_batch_octets }
{
    let job = job_of(alloc, octets)?;
    match opened(alloc, device) {
        Ok((press, _)) => Ok(committed(press, &job)),
        Err((device, OpenFault::DiskFault)) => Ok((device, false)),
        Err((_, OpenFault::NoMemory)) => Err(Missed::Twice),
        Err(_) => Err(Missed::Other),
    }
}

// How many events a core that is given up has had.
fn events_of(core: Core) -> u64 {
    let events = core.events();
    drop(core);
    events
}

// How many events are recovered of what was opened.
fn recovered(alloc: Global, site: &Site, opened: &Opened) -> Result<u64, Missed>
    requires site { IsSite site.now }
    requires whole { sum_of opened.now.bodies ≡ length opened.now.batches }
    requires places { All EndsOnDevice opened.now.bodies }
{
    let core = match recover(alloc, site, opened) {
        Err(RecoverFault::NoMemory) => recover(alloc, site, opened),
        core => core,
    };
    match core {
        Ok(core) => Ok(events_of(core)),
        Err(RecoverFault::NoMemory) => Err(Missed::Twice),
        Err(_) => Err(Missed::Other),
    }
}

// How many events a journal holds; none where its device fails.
fn events_on(alloc: Global, site: &Site, device: Device) -> Result<Option<u64>, Missed>
    requires site { IsSite site.now }
{
    match opened(alloc, device) {
        Ok((_, read)) => Ok(Some(recovered(alloc, site, &read)?)),
        Err((_, OpenFault::DiskFault)) => Ok(None),
        Err((_, OpenFault::NoMemory)) => Err(Missed::Twice),
        Err(_) => Err(Missed::Other),
    }
}

// What a crash may leave behind the last sync but one of a device, as it is written.
fn image_of(alloc: Global, device: &Device) -> Result<Vec<u8>, Missed> {
    let upto = match device.trace() {
        Some(trace) => trace.len().saturating_sub(1) as u64,
        None => return Err(Missed::Other),
    };
    match device.image(alloc, upto, Filling::New) {
        Ok(image) => Ok(image),
        Err(_) => Ok(device.image(alloc, upto, Filling::New)?),
    }
}

// How many events are there after a crash, on a device of its own.
fn say_image(alloc: Global, text: &mut Text, site: &Site, image: Vec<u8>) -> Result<bool, Missed>
    requires site { IsSite site.now }
{
    match events_on(
        alloc,
        site,
        MemoryGround::new(alloc, image, Vec::new(alloc)),
    )? {
        Some(events) => {
            say(
                text,
                format!(in alloc; "after a crash: {events} events")?.as_str(),
            )?;
            Ok(true)
        }
        None => Ok(false),
    }
}

// The device behind all records; `false` where it failed.
fn with_records(alloc: Global, device: Device, text: &mut Text) -> Result<(Device, bool), Missed> {
    let mut device = device;
    for octets in RECORDS {
        if octets.len() as u64 > MOST_BATCH_OCTETS {
            return Err(Missed::Other);
        }
        let (next, is_written) = with_record(alloc, device, octets)?;
        device = next;
        if !is_written {
            return Ok((device, false));
        }
        say(text, "a record is written")?;
    }
    Ok((device, true))
}

fn say_journal(alloc: Global, text: &mut Text, site: &Site) -> Result<bool, Missed>
    requires site { IsSite site.now }
{
    let contents = vec![in alloc; 0u8; SIZE]?;
    let device = MemoryGround::new(alloc, contents, Vec::new(alloc));
    let (device, is_written) = with_records(alloc, device, text)?;
    if !is_written {
        return Ok(false);
    }
    let image = image_of(alloc, &device)?;
    if !say_image(alloc, text, site, image)? {
        return Ok(false);
    }
    match events_on(alloc, site, device)? {
        Some(events) => {
            say(text, format!(in alloc; "opened: {events} events")?.as_str())?;
            Ok(true)
        }
        None => Ok(false),
    }
}

/// A journal on a ground in memory: three records are written, what a crash may leave of the last is opened, and the device.
pub(crate) fn kept(alloc: Global, site: &Site) -> Result<Text, Missed>
    requires site { IsSite site.now }
{
    let mut text = Vec::new(alloc);
    if !say_journal(alloc, &mut text, site)? {
        say(&mut text, DISK_FAULT)?;
    }
    Ok(text)
}
