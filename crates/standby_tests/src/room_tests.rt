// Records that are longer than the room of the journal.

ghost use Rattle.alarm_core.specs.Sites.{IsSite};

use crate::comparing::same;
use crate::packets::{Packet, record_of, repeated, set};
use crate::sites::{Question, TANK, ask_of};
use crate::standing::{Line, blank, contents_of, events_in, follower_on, ground_of, take_lines};
use alarm_core::Site;
use standby::Took;
use std::alloc::Global;
use std::ops::Range;
use std::process::Abort;
use std::test::Fail;

/// How many events a packet has, in 1,386 octets.
const MANY: u16 = 63;

/// The place of the octet that tells which area of the journal counts, behind 21 others and the site's text.
const SELECTOR: usize = 25;

/// The packet of some records that is the first, the second, and so on, and its answer.
fn line(records: &[u8], number: u64) -> Line<'_> {
    let before = number.saturating_mul(u64::from(MANY));
    let events = before.saturating_add(u64::from(MANY));
    let packet = Packet::Records {
        before,
        count: MANY,
        records,
    };
    (packet, Took::Taken { events })
}

/// The octets of a follower's device that was on these, and took packets with these numbers.
fn behind(
    rt: &impl Abort,
    alloc: Global,
    site: &Site,
    contents: Vec<u8>,
    numbers: Range<u64>,
    records: &[u8],
) -> Result<Vec<u8>, Fail>
    requires site { IsSite site.now }
{
    let mut follower = follower_on(rt, alloc, site, contents);
    for number in numbers {
        follower = take_lines(rt, alloc, follower, &[line(records, number)]);
    }
    contents_of(alloc, ground_of(follower))
}

/// An area has 553,758 octets: five before the first packet, then for each the 1,386 of its records and five more, so 398 of
/// them leave 130, of which a batch would need five. The next packet is a snapshot, in the other area.
struct Fills;

impl Question for Fills {
    fn ask(&self, rt: &impl Abort, alloc: Global, site: &Site) -> Result<(), Fail>
        requires site { IsSite site.now }
    {
        let records = repeated(alloc, &record_of(alloc, 0, &set(1, 50))?, u32::from(MANY))?;
        let contents = behind(rt, alloc, site, blank(alloc, site)?, 0..398, &records)?;
        same(rt, &contents.get(SELECTOR), &Some(&0));
        let contents = behind(rt, alloc, site, contents, 398..399, &records)?;
        same(rt, &contents.get(SELECTOR), &Some(&1));
        same(rt, &events_in(rt, alloc, site, contents), &25_137);
        Ok(())
    }
}

#[test]
fn a_packet_without_room_is_a_snapshot(rt: HostRuntime) -> Result<(), Fail> {
    ask_of(&rt, rt.alloc(), TANK, &Fills)
}
