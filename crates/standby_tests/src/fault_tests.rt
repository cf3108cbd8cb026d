// A disk that fails.

ghost use Rattle.alarm_core.specs.Sites.{IsSite};

use crate::comparing::same;
use crate::packets::{Packet, SETS, octets_of};
use crate::sites::{Question, TANK, ask_of};
use crate::standing::{blank, contents_of, events_in, opened};
use alarm_core::Site;
use ground_io::MemoryGround;
use standby::{TakeFault, Took};
use std::alloc::Global;
use std::process::Abort;
use std::test::Fail;

/// What comes of a packet where one call of the ground fails.
#[derive(Clone, Copy, Debug, PartialEq, Eq)]
enum Came {
    /// The journal isn't opened.
    Unopened,
    /// The ground comes back, and its octets hold so many events.
    Back { events: u64 },
    /// The packet is taken.
    Taken { events: u64 },
}

/// What comes of the packet of three sets on a blank ground, one of whose calls fails.
fn came_of(
    rt: &impl Abort,
    alloc: Global,
    site: &Site,
    octets: &[u8],
    failing: u64,
) -> Result<Came, Fail>
    requires site { IsSite site.now }
{
    let contents = blank(alloc, site)?;
    let device = MemoryGround::new(alloc, contents, Vec::from_slice(alloc, &[failing])?);
    let Some(follower) = opened(alloc, site, device) else {
        return Ok(Came::Unopened);
    };
    match follower.take(alloc, octets) {
        Ok((follower, took)) => {
            drop(follower);
            match took {
                Took::Taken { events } => Ok(Came::Taken { events }),
                _ => panic!(rt; "another answer"),
            }
        }
        Err(TakeFault::DiskFault { device }) => {
            let contents = contents_of(alloc, device)?;
            let events = events_in(rt, alloc, site, contents);
            Ok(Came::Back { events })
        }
        _ => panic!(rt; "another answer"),
    }
}

/// The first call that isn't one of the opening.
fn first_behind_opening(
    rt: &impl Abort,
    alloc: Global,
    site: &Site,
    octets: &[u8],
) -> Result<u64, Fail>
    requires site { IsSite site.now }
{
    for failing in 1..100 {
        if came_of(rt, alloc, site, octets, failing)? != Came::Unopened {
            return Ok(failing);
        }
    }
    Err(Fail::new("it never opens"))
}

/// Of all calls, those of the opening come first; then the octets of the packet are written and synced, and the octet that
/// makes them count, which stands as soon as it is written.
struct Fails;

impl Question for Fails {
    fn ask(&self, rt: &impl Abort, alloc: Global, site: &Site) -> Result<(), Fail>
        requires site { IsSite site.now }
    {
        let packet = Packet::Records {
            before: 0,
            count: 3,
            records: SETS,
        };
        let octets = octets_of(alloc, packet)?;
        let mut failing = first_behind_opening(rt, alloc, site, &octets)?;
        for events in [0, 0, 0, 3] {
            let came = came_of(rt, alloc, site, &octets, failing)?;
            same(rt, &came, &Came::Back { events });
            failing = failing.saturating_add(1);
        }
        let came = came_of(rt, alloc, site, &octets, failing)?;
        same(rt, &came, &Came::Taken { events: 3 });
        Ok(())
    }
}

#[test]
fn a_call_that_fails_gives_the_ground_back(rt: HostRuntime) -> Result<(), Fail> {
    ask_of(&rt, rt.alloc(), TANK, &Fails)
}
