//! Followers on grounds in memory.

ghost use Rattle.alarm_core.specs.Sites.{IsSite};

use crate::comparing::same;
use crate::packets::{Packet, octets_of};
use crate::sites::Question;
use alarm_core::{Core, Site};
use ground_io::MemoryGround;
use standby::{Follower, Took};
use state_codec::{need, open_journal, write_state};
use std::alloc::Global;
use std::process::Abort;
use std::test::Fail;

/// A follower on a ground in memory.
pub(crate) type Standby = Follower<MemoryGround>;

/// The text of the site, as the journal has it.
const TEXT: &[u8] = b"site";

/// As many zeros as the journal of a site needs.
pub(crate) fn blank(alloc: Global, site: &Site) -> Result<Vec<u8>, Fail>
    requires site { IsSite site.now }
{
    let size = need(site, TEXT.len() as u64) as usize;
    Ok(vec![in alloc; 0u8; size]?)
}

/// A follower on a ground, if its journal opens.
pub(crate) fn opened(alloc: Global, site: &Site, device: MemoryGround) -> Option<Standby>
    requires site { IsSite site.now }
{
    match open_journal(alloc, site, TEXT, device) {
        Ok((press, core, opened)) => {
            drop(opened);
            Some(Follower::open(site, press, core))
        }
        Err(refused) => {
            drop(refused);
            None
        }
    }
}

/// A follower on these octets.
pub(crate) fn follower_on(rt: &impl Abort, alloc: Global, site: &Site, contents: Vec<u8>) -> Standby
    requires site { IsSite site.now }
{
    let device = MemoryGround::new(alloc, contents, Vec::new(alloc));
    match opened(alloc, site, device) {
        Some(follower) => follower,
        None => panic!(rt; "the journal doesn't open"),
    }
}

/// A follower takes octets, where there is memory and its disk holds.
pub(crate) fn take(
    rt: &impl Abort,
    alloc: Global,
    follower: Standby,
    octets: &[u8],
) -> (Standby, Took) {
    match follower.take(alloc, octets) {
        Ok(taken) => taken,
        Err(_) => panic!(rt; "a packet isn't taken"),
    }
}

/// A packet, and what is answered to it.
pub(crate) type Line<'a> = (Packet<'a>, Took);

fn take_line(rt: &impl Abort, alloc: Global, follower: Standby, line: &Line<'_>) -> Standby {
    let octets = match octets_of(alloc, line.0) {
        Ok(octets) => octets,
        Err(_) => panic!(rt; "there is no memory for a packet"),
    };
    let (follower, took) = take(rt, alloc, follower, octets.as_slice());
    same(rt, &took, &line.1);
    follower
}

/// A follower takes packets, one after the other, with these answers.
pub(crate) fn take_lines(
    rt: &impl Abort,
    alloc: Global,
    follower: Standby,
    lines: &[Line<'_>],
) -> Standby {
    let mut follower = follower;
    for line in lines {
        follower = take_line(rt, alloc, follower, line);
    }
    follower
}

/// The ground of a follower that is given up.
pub(crate) fn ground_of(follower: Standby) -> MemoryGround {
    let (press, core) = follower.take_over();
    drop(core);
    press.into_ground()
}

/// What a core that is given up has in its snapshot.
pub(crate) fn state_of(alloc: Global, core: Core) -> Result<Vec<u8>, Fail> {
    let octets = write_state(alloc, &core);
    drop(core);
    Ok(octets?)
}

/// How many events the journal in these octets holds.
pub(crate) fn events_in(rt: &impl Abort, alloc: Global, site: &Site, contents: Vec<u8>) -> u64
    requires site { IsSite site.now }
{
    let follower = follower_on(rt, alloc, site, contents);
    let events = follower.events();
    drop(follower);
    events
}

/// The octets of a ground that is given up.
pub(crate) fn contents_of(alloc: Global, device: MemoryGround) -> Result<Vec<u8>, Fail> {
    let contents = device.contents().to_vec(alloc);
    drop(device);
    Ok(contents?)
}

/// Packets that a follower on a blank device takes, with their answers, and how many events it has then, as its device has.
#[derive(Clone, Copy)]
pub(crate) struct Lines<'a> {
    pub(crate) lines: &'a [Line<'a>],
    pub(crate) left: u64,
}

impl Question for Lines<'_> {
    fn ask(&self, rt: &impl Abort, alloc: Global, site: &Site) -> Result<(), Fail>
        requires site { IsSite site.now }
    {
        let contents = blank(alloc, site)?;
        let follower = follower_on(rt, alloc, site, contents);
        let follower = take_lines(rt, alloc, follower, self.lines);
        same(rt, &follower.events(), &self.left);
        let contents = contents_of(alloc, ground_of(follower))?;
        same(rt, &events_in(rt, alloc, site, contents), &self.left);
        Ok(())
    }
}
