//! What stands in snapshots.

use crate::alarm_core_plant::{Play, play_on, set};
use crate::comparing::holds;
use crate::sites::{START, site_of};
use alarm_core::Core;
use state_codec::write_state;
use std::alloc::Global;
use std::process::Abort;
use std::test::Fail;

// What of a snapshot no script reaches: how many octets many notes make, and where the records of a log stand.

/// Two tanks of two classes: class 7 tells two, one of whom needn't confirm, and class 8 one; the first tank is of class 8,
/// and the second one of class 7. 64 notifications may wait.
const TANKS_OF_TWO_CLASSES: &str = "[device]
instance = 1001
name = \"Plant\"
vendor = 999
start = 1700000000000
outbox = 64

[[class]]
instance = 7
priority = [100, 90, 200]
ack_required = [true, true, false]

[[class]]
instance = 8
priority = [100, 90, 200]
ack_required = [true, true, false]

[[destination]]
class = 7
address = \"10.0.0.5:47808\"
process = 1
confirmed = true

[[destination]]
class = 7
address = \"10.0.0.7:47808\"

[[destination]]
class = 8
address = \"10.0.0.6:47808\"
process = 1
confirmed = true

[[object]]
kind = \"integer-value\"
instance = 1
name = \"Tank\"
value = 50
class = 8
low = 20
high = 80
deadband = 5

[[object]]
kind = \"integer-value\"
instance = 2
name = \"Tank\"
value = 50
class = 7
low = 20
high = 80
deadband = 5
";

/// Whether these octets stand at the place.
fn stands_at(octets: &[u8], place: usize, part: &[u8]) -> bool {
    place <= octets.len() && octets[place..].starts_with(part)
}

/// The first tank rises and falls in turn, 63 times, and each time its class is told.
struct RisesAndFalls;

impl Play for RisesAndFalls {
    fn play(&self, rt: &impl Abort, alloc: Global, core: &mut Core) -> Result<(), Fail> {
        for _ in 0..31 {
            set(alloc, core, START, 90)?;
            set(alloc, core, START, 50)?;
        }
        set(alloc, core, START, 90)?;
        let octets = write_state(alloc, core)?;
        holds(rt, octets.len() == 4_062 && stands_at(&octets, 0, &[1]));
        Ok(())
    }
}

#[test]
fn sixty_three_notes_make_a_snapshot_of_4062_octets(rt: HostRuntime) -> Result<(), Fail> {
    let site = site_of(rt.alloc(), TANKS_OF_TWO_CLASSES)?;
    let played = play_on(&rt, rt.alloc(), &site, &RisesAndFalls);
    drop(site);
    played
}

/// A tank where clocks are put forward and back, by the rule of central Europe; its class 7, which tells nobody; and a log of
/// eight records of its notifications.
const TANK_IN_SUMMER_TIME: &str = "[device]
instance = 1001
name = \"Plant\"
vendor = 999
start = 1700000000000
zone_rule = \"CET-1CEST,M3.5.0,M10.5.0/3\"

[[class]]
instance = 7
priority = [100, 90, 200]
ack_required = [true, true, false]

[[object]]
kind = \"integer-value\"
instance = 1
name = \"Tank\"
value = 50
class = 7
low = 20
high = 80
deadband = 5

[[log]]
instance = 1
name = \"Log\"
size = 8
classes = [7]
";

/// When clocks were put forward, in local time 03:00.
const FORWARD: u64 = 1_711_846_800_000;

/// The log is enabled, and has taken one record and holds it: its stamp is Sunday, 31 March 2024, 03:00, and behind it
/// stand its hundredths since 1970, 171184680000, and the number of its octets.
const LOG: [u8; 26] = [
    1, 0, 0, 0, 1, 0, 0, 0, 1, //
    0x7C, 3, 0x1F, 7, 3, 0, 0, 0, //
    0, 0, 0, 0x27, 0xDB, 0x66, 0xEC, 0x40, //
    0,
];

/// The tank rises as the clocks are put forward, which the log records.
struct IsLogged;

impl Play for IsLogged {
    fn play(&self, rt: &impl Abort, alloc: Global, core: &mut Core) -> Result<(), Fail> {
        set(alloc, core, FORWARD, 90)?;
        let octets = write_state(alloc, core)?;
        // Before the log stand 17 octets of the beginning, 32 of the value, 73 of the alarm, and one of the class.
        holds(
            rt,
            stands_at(&octets, 0, &[2]) && stands_at(&octets, 123, &LOG),
        );
        Ok(())
    }
}

#[test]
fn with_a_zone_rule_records_have_their_hundredths(rt: HostRuntime) -> Result<(), Fail> {
    let site = site_of(rt.alloc(), TANK_IN_SUMMER_TIME)?;
    let played = play_on(&rt, rt.alloc(), &site, &IsLogged);
    drop(site);
    played
}
