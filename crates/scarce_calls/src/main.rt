//! What public calls answer that want memory, each of them made again where it answered that memory was refused.
//!
//! It prints the reports of three sessions with the records of their events and their last snapshots, what a journal on a ground
//! in memory holds, what a floor answers to its callers, and what a follower answers to a leader. `checks/refused-memory` runs it once for each of its allocations,
//! with that one refused, and wants the same octets: a call that is refused memory has changed nothing, and gives the good
//! answer as it is made again. A ground in memory that can't keep an entry of its trace fails, as its contract says; the
//! part then ends with `disk fault`, or has lost a datagram.
#![tactic(auto)]

mod desk;
mod following;
mod journal;
mod missed;
mod play;
mod records;
mod report;
mod script;
mod sites;

use crate::desk::shared;
use crate::following::followed;
use crate::journal::kept;
use crate::missed::Missed;
use crate::play::played;
use crate::report::Text;
use crate::script::full_script;
use crate::sites::{FULL, PLANT, TANK, site_of};
use std::alloc::Global;
use std::io;
use std::io::{Print, Write};
use std::process::ExitCode;
use std::sync::Wait;

// A fault, a value that it hides, and its end, which is an alarm.
const FAULT: &[u8] = b"fault 1700000000000 integer-value:1 7
set 1700000000001 integer-value:1 signed:90
fault 1700000000002 integer-value:1 0
";

// An alarm, its acknowledgement, what is sent and sent again, and what is asked and written over the network.
const ASKED: &[u8] = b"set 1700000000000 integer-value:1 signed:90
tick 1700000010000
from 1700000020000 10.0.0.9:47808 810a003301040005070009011c0b40000129023e2ea47b0b0e02b4160d1e002f3f4b006f705e2ea47b0b0e02b4160d28002f5f
from 1700000020000 10.0.0.9:47808 810a003301040005080009011c0b40000129023e2ea47b0b0e02b4160d1e002f3f4b006f705e2ea47b0b0e02b4160d28002f5f
pump 1700000020000
from 1700000020100 10.0.0.5:47808 810a00090100200002
pump 1700000020100
from 1700000020200 10.0.0.9:47808 810a001101040005011a0c064000011983
from 1700000020200 10.0.0.9:47808 810a000a01040005011d
from 1700000020200 10.0.0.9:47808 810a001101040005010c0c0b4000011924
from 1700000020300 10.0.0.9:47808 810a001501040005010f0c0b4000011a01623e113f
set 1700000020400 characterstring-value:1 text:66697265
from 1700000020400 10.0.0.9:47808 810a001101040005010c0c0a0000011955
set 1700000020500 positive-integer-value:1 unsigned:90
from 1700000020500 10.0.0.9:47808 810a000801001008
from 1700000020500 10.0.0.9:47808 810a001801040005010f0c0b40000119553e443f8000003f
from 1700000020500 10.0.0.9:47808 810a001101040005010c0c03c000071966
from 1700000020500 10.0.0.9:47808 810a001101040005010c0c020003e9194c
from 1700000020600 10.0.0.5:47808 810a00090100200102
pump 1700000020600
fault 1700000020700 integer-value:1 7
set 1700000020700 integer-value:9 signed:1
from 1700000020700 10.0.0.9:47808 ff
pump 1700000020700
from 1700000020700 10.0.0.9:47808 810a001201040005010c0c0b4000011a015f
from 1700000020700 10.0.0.9:47808 810a001201040005010c0c0b4000011a0160
from 1700000020700 10.0.0.9:47808 810a001201040005010c0c024000011a0163
from 1700000020700 10.0.0.9:47808 810a001201040005010c0c024000011a0162
";

// One part of the run.
enum Part {
    Fault,
    Plant,
    Full,
    Journal,
    Desk,
    Following,
}

// A site is dropped by a call in each of these, since it is dear to drop where it stands.

fn fault(alloc: Global) -> Result<Text, Missed> {
    let site = site_of(alloc, TANK)?;
    let text = played(alloc, &site, FAULT);
    drop(site);
    text
}

fn plant(alloc: Global) -> Result<Text, Missed> {
    let site = site_of(alloc, PLANT)?;
    let text = played(alloc, &site, ASKED);
    drop(site);
    text
}

fn full(alloc: Global) -> Result<Text, Missed> {
    let script = full_script(alloc)?;
    let site = site_of(alloc, FULL)?;
    let text = played(alloc, &site, script.as_slice());
    drop(site);
    text
}

fn journal_of_three(alloc: Global) -> Result<Text, Missed> {
    let site = site_of(alloc, TANK)?;
    let text = kept(alloc, &site);
    drop(site);
    text
}

fn desk_of_two<R: Wait>(rt: &R, alloc: Global) -> Result<Text, Missed> {
    let site = site_of(alloc, TANK)?;
    let text = shared(rt, alloc, &site);
    drop(site);
    text
}

fn following_of_one(alloc: Global) -> Result<Text, Missed> {
    let site = site_of(alloc, TANK)?;
    let text = followed(alloc, &site);
    drop(site);
    text
}

impl Part {
    fn name(&self) -> &'static str {
        match self {
            Part::Fault => "fault",
            Part::Plant => "plant",
            Part::Full => "full",
            Part::Journal => "journal",
            Part::Desk => "desk",
            Part::Following => "following",
        }
    }

    fn text<R: Wait>(&self, rt: &R, alloc: Global) -> Result<Text, Missed> {
        match self {
            Part::Fault => fault(alloc),
            Part::Plant => plant(alloc),
            Part::Full => full(alloc),
            Part::Journal => journal_of_three(alloc),
            Part::Desk => desk_of_two(rt, alloc),
            Part::Following => following_of_one(alloc),
        }
    }
}

// The text of a part, which is played again where this program's own work was refused memory.
fn text_of<R: Wait>(rt: &R, alloc: Global, part: &Part) -> Result<Text, Missed> {
    match part.text(rt, alloc) {
        Err(Missed::Own) => part.text(rt, alloc),
        text => text,
    }
}

fn show<R: Wait + Print>(rt: &R, alloc: Global, part: &Part) -> io::Result<()> {
    let name = part.name();
    println!(rt; "{name}")?;
    match text_of(rt, alloc, part) {
        Ok(text) => io::writer(rt).write_all(text.as_slice()),
        Err(missed) => println!(rt; "{missed:?}"),
    }
}

fn main(rt: HostRuntime) -> io::Result<ExitCode> {
    let alloc = rt.alloc();
    show(&rt, alloc, &Part::Fault)?;
    show(&rt, alloc, &Part::Plant)?;
    show(&rt, alloc, &Part::Full)?;
    show(&rt, alloc, &Part::Journal)?;
    show(&rt, alloc, &Part::Desk)?;
    show(&rt, alloc, &Part::Following)?;
    Ok(ExitCode::SUCCESS)
}
