//! The site of these tests.

ghost use Rattle.std.specs.Prelude.{IfOk};
ghost use Rattle.alarm_core.specs.Sites.{IsSite};

use alarm_core::Site;
use bac_values::Peer;
use site_config::read_site;
use std::alloc::Global;
use std::test::Fail;

/// When the site starts.
pub(crate) const START: u64 = 1_700_000_000_000;

pub(crate) fn operator() -> Peer {
    Peer::local(167_772_165, 47808)
}

/// An integer value of 50 with limits 20 and 80, whose transitions one operator is told at any time and confirms.
pub(crate) const PLANT: &str = "[device]
instance = 1001
name = \"Plant\"
vendor = 999
start = 1700000000000
outbox = 64

[[class]]
instance = 7
name = \"Operators\"
priority = [100, 90, 200]
ack_required = [true, true, false]

[[destination]]
class = 7
address = \"10.0.0.5:47808\"
process = 1
confirmed = true

[[object]]
kind = \"integer-value\"
instance = 1
name = \"Tank\"
value = 50
class = 7
low = 20
high = 80
deadband = 5
";

/// The same value, above its limit from the start on, and a delay of ten seconds.
pub(crate) const LATE: &str = "[device]
instance = 1001
name = \"Plant\"
vendor = 999
start = 1700000000000
outbox = 64

[[class]]
instance = 7
name = \"Operators\"
priority = [100, 90, 200]
ack_required = [true, true, false]

[[destination]]
class = 7
address = \"10.0.0.5:47808\"
process = 1
confirmed = true

[[object]]
kind = \"integer-value\"
instance = 1
name = \"Tank\"
value = 90
class = 7
low = 20
high = 80
deadband = 5
time_delay = 10
";

/// That site.
pub(crate) fn plant(alloc: Global) -> Result<Site, Fail>
    ensures keeps { IfOk result IsSite }
{
    site_of(alloc, PLANT)
}

/// The site with the delay.
pub(crate) fn late_plant(alloc: Global) -> Result<Site, Fail>
    ensures keeps { IfOk result IsSite }
{
    site_of(alloc, LATE)
}

// The site of a text.
fn site_of(alloc: Global, text: &str) -> Result<Site, Fail>
    ensures keeps { IfOk result IsSite }
{
    match read_site(alloc, text.as_bytes()) {
        Ok(site) => Ok(site),
        Err(_) => Err(Fail::new("it is no site")),
    }
}
