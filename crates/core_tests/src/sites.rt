//! The sites of these tests.

ghost use Rattle.std.specs.Prelude.{IfOk};
ghost use Rattle.alarm_core.specs.Sites.{IsSite};

use alarm_core::Site;
use bac_values::Peer;
use notify_class::Destination;
use site_config::read_site;
use std::alloc::Global;
use std::process::Abort;
use std::test::Fail;

/// When the sites start.
pub(crate) const START: u64 = 1_700_000_000_000;

/// Class 7, which tells the operator of everything at any time, to be confirmed.
const OPERATORS: &str = "
[[class]]
instance = 7
name = \"Operators\"
priority = [100, 90, 200]
ack_required = [true, true, false]

[[destination]]
class = 7
address = \"10.0.0.5:47808\"
process = 1
confirmed = true
";

pub(crate) fn operator() -> Peer {
    Peer::local(167_772_165, 47808)
}

/// Another recipient, whom the plant doesn't list.
pub(crate) fn guard() -> Peer {
    Peer::local(167_772_166, 47808)
}

/// One that is told of everything at any time, and confirms it.
pub(crate) fn told(peer: Peer, process: u32) -> Destination {
    Destination {
        days: 127,
        from: 0,
        to: 8_639_999,
        peer,
        process,
        confirmed: true,
        transitions: [true; 3],
    }
}

/// The site of a text.
pub(crate) fn site_of(alloc: Global, text: &str) -> Result<Site, Fail>
    ensures keeps { IfOk result IsSite }
{
    match read_site(alloc, text.as_bytes()) {
        Ok(site) => Ok(site),
        Err(_) => Err(Fail::new("it is no site")),
    }
}

/// A device in UTC, with an outbox of so many notes, and the operators' class.
fn device(alloc: Global, outbox: u32) -> Result<String, Fail> {
    Ok(format!(in alloc;
        "[device]
instance = 1001
name = \"Plant\"
vendor = 999
start = 1700000000000
outbox = {outbox}
{OPERATORS}"
    )?)
}

/// An integer value of 50 of class 7, with limits 20 and 80, and a delay in seconds.
fn tank(alloc: Global, instance: u32, time_delay: u32) -> Result<String, Fail> {
    Ok(format!(in alloc;
        "
[[object]]
kind = \"integer-value\"
instance = {instance}
name = \"Tank\"
value = 50
class = 7
low = 20
high = 80
deadband = 5
time_delay = {time_delay}
"
    )?)
}

/// So many tanks, whose transitions the operator is told after a delay in seconds, and an outbox of so many notes.
fn plant_text(alloc: Global, tanks: u32, time_delay: u32, outbox: u32) -> Result<String, Fail> {
    let mut text = device(alloc, outbox)?;
    for before in 0..tanks {
        text.push_str(tank(alloc, before.saturating_add(1), time_delay)?.as_str())?;
    }
    Ok(text)
}

/// The site of so many tanks.
pub(crate) fn tanks(alloc: Global, tanks: u32, time_delay: u32, outbox: u32) -> Result<Site, Fail>
    ensures keeps { IfOk result IsSite }
{
    let text = plant_text(alloc, tanks, time_delay, outbox)?;
    site_of(alloc, text.as_str())
}

/// What is asked of a site. Whoever asks only borrows the site, as a `Play` a core.
pub(crate) trait Question {
    /// Asks it, and looks at the answer.
    fn ask(&self, rt: &impl Abort, alloc: Global, site: &Site) -> Result<(), Fail>
        requires site { IsSite site.now };
}

/// Asks of a plant with a delay of ten seconds, and gives it up. What owns a site has one way out.
pub(crate) fn ask_of_plant(
    rt: &impl Abort,
    alloc: Global,
    question: &impl Question,
) -> Result<(), Fail> {
    let site = tanks(alloc, 1, 10, 256)?;
    let asked = question.ask(rt, alloc, &site);
    drop(site);
    asked
}
