//! Records and snapshots of a core, each made again where memory was refused.

ghost use Rattle.alarm_core.specs.Sites.{IsSite};
ghost use Rattle.state_codec.specs.Records.{HasRecord};

use crate::missed::Missed;
use crate::report::{Text, say, say_octets};
use alarm_core::{Core, Event, Site};
use state_codec::{CodecFault, read_event, read_state, write_event, write_state};
use std::alloc::Global;

fn record_of(alloc: Global, event: &Event) -> Result<Vec<u8>, Missed>
    requires record { HasRecord event.now }
{
    match write_event(alloc, event) {
        Ok(octets) => Ok(octets),
        Err(_) => Ok(write_event(alloc, event)?),
    }
}

// The moment of the event whose record octets are, if they are one.
fn moment_of(alloc: Global, octets: &[u8]) -> Result<u64, Missed> {
    let read = match read_event(alloc, octets, 0) {
        Err(CodecFault::NoMemory) => read_event(alloc, octets, 0),
        read => read,
    };
    match read {
        Ok((event, end)) if end == octets.len() => Ok(event.moment),
        Err(CodecFault::NoMemory) => Err(Missed::Twice),
        _ => Err(Missed::Other),
    }
}

/// The record of an event, which is read back.
pub(crate) fn say_record(alloc: Global, text: &mut Text, event: &Event) -> Result<(), Missed>
    requires record { HasRecord event.now }
{
    let octets = record_of(alloc, event)?;
    if moment_of(alloc, octets.as_slice())? != event.moment {
        return Err(Missed::Other);
    }
    say_octets(alloc, text, "record", octets.as_slice())
}

fn snapshot_of(alloc: Global, core: &Core) -> Result<Vec<u8>, Missed> {
    match write_state(alloc, core) {
        Ok(octets) => Ok(octets),
        Err(_) => Ok(write_state(alloc, core)?),
    }
}

fn core_of(alloc: Global, site: &Site, octets: &[u8]) -> Result<Core, Missed>
    requires site { IsSite site.now }
{
    let read = match read_state(alloc, site, octets) {
        Err(CodecFault::NoMemory) => read_state(alloc, site, octets),
        read => read,
    };
    match read {
        Ok(core) => Ok(core),
        Err(CodecFault::NoMemory) => Err(Missed::Twice),
        Err(_) => Err(Missed::Other),
    }
}

// The snapshot of a core that is given up. It has one way out, since what owns a core is dear to prove at each.
fn last_snapshot_of(alloc: Global, core: Core) -> Result<Vec<u8>, Missed> {
    let octets = snapshot_of(alloc, &core);
    drop(core);
    octets
}

// The snapshot of the core that is read of a snapshot.
fn written_again(alloc: Global, site: &Site, octets: &[u8]) -> Result<Vec<u8>, Missed>
    requires site { IsSite site.now }
{
    last_snapshot_of(alloc, core_of(alloc, site, octets)?)
}

/// How long the snapshot of a core is, and whether what is read of it has the same.
pub(crate) fn say_state(
    alloc: Global,
    text: &mut Text,
    site: &Site,
    core: &Core,
) -> Result<(), Missed>
    requires site { IsSite site.now }
{
    let octets = snapshot_of(alloc, core)?;
    let again = written_again(alloc, site, octets.as_slice())?;
    let same = if again == octets {
        "again"
    } else {
        "not again"
    };
    let length = octets.len();
    say(
        text,
        format!(in alloc; "snapshot of {length} octets, read and {same} written")?.as_str(),
    )
}
