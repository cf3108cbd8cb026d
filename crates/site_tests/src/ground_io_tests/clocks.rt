//! Clocks.

use crate::comparing::{holds, same};
use bac_values::{FIRST_MOMENT, LAST_MOMENT};
use ground_io::{Clock, StillClock, SystemClock};
use std::io;
use std::test::Fail;
use std::time::Duration;

/// A system whose clock stands at these milliseconds, or can't be read.
#[derive(Drop)]
struct Stopped(Option<u64>);

impl std::time::Clock for Stopped {
    fn monotonic(&self) -> io::Result<Duration> {
        self.since_1970()
    }

    fn since_1970(&self) -> io::Result<Duration> {
        match self.0 {
            Some(milliseconds) => Ok(Duration::from_millis(milliseconds)),
            None => Err(io::Error::from(io::ErrorKind::Unsupported)),
        }
    }
}

#[test]
fn still_clock_shows_its_moment(rt: HostRuntime) {
    let clock = StillClock::new(1_700_000_000_000);
    same(&rt, &clock.now(), &1_700_000_000_000);
    same(&rt, &clock.now(), &1_700_000_000_000);
}

#[test]
fn system_clock_shows_the_system_s_moment_within_the_range(rt: HostRuntime) {
    for (milliseconds, shown) in [
        (Some(1_700_000_000_123), 1_700_000_000_123),
        (Some(946_684_800_000), 946_684_800_000),
        (Some(946_684_799_999), 946_684_800_000),
        (Some(0), 946_684_800_000),
        (Some(4_102_444_799_999), 4_102_444_799_999),
        (Some(4_102_444_800_000), 4_102_444_799_999),
        (Some(u64::MAX), 4_102_444_799_999),
        (None, 946_684_800_000),
    ] {
        let clock = SystemClock::new(Stopped(milliseconds));
        same(&rt, &(milliseconds, clock.now()), &(milliseconds, shown));
    }
}

#[test]
fn system_clock_reads_the_real_clock(rt: HostRuntime) -> Result<(), Fail> {
    let now = SystemClock::new(rt.clone()?).now();
    holds(&rt, FIRST_MOMENT < now && now < LAST_MOMENT);
    Ok(())
}
