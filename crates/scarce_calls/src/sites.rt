//! The sites of the parts.

ghost use Rattle.std.specs.Prelude.{IfOk};
ghost use Rattle.alarm_core.specs.Sites.{IsSite};

use crate::missed::Missed;
use alarm_core::Site;
use site_config::{SiteFault, read_site};
use std::alloc::Global;

/// A tank without a delay.
pub(crate) const TANK: &str = "[device]
instance = 1001
name = \"Plant\"
vendor = 999
start = 1700000000000

[[class]]
instance = 7
priority = [100, 90, 200]
ack_required = [true, true, false]

[[destination]]
class = 7
address = \"10.0.0.5:47808\"
process = 1
confirmed = true

[[object]]
kind = \"integer-value\"
instance = 1
name = \"Tank\"
value = 50
class = 7
low = 20
high = 80
deadband = 5
";

/// A tank with a delay of ten seconds and a text for each transition, a label that may be on fire, an enrollment that watches a
/// flow where a switch doesn't hold it, a log of the last two notifications, and a binding.
pub(crate) const PLANT: &str = "[device]
instance = 1001
name = \"Plant\"
vendor = 999
start = 1700000000000

[[class]]
instance = 7
priority = [100, 90, 200]
ack_required = [true, true, false]

[[destination]]
class = 7
address = \"10.0.0.5:47808\"
process = 1
confirmed = true

[[object]]
kind = \"integer-value\"
instance = 1
name = \"Tank\"
value = 50
class = 7
texts = [\"High\", \"Broken\", \"Well\"]
low = 20
high = 80
deadband = 5
time_delay = 10

[[object]]
kind = \"characterstring-value\"
instance = 1
name = \"Label\"
value = \"ok\"
class = 7
alarm_values = [\"fire\"]

[[object]]
kind = \"positive-integer-value\"
instance = 1
name = \"Flow\"
value = 50

[[object]]
kind = \"binary-value\"
instance = 1
name = \"Hold\"
value = \"inactive\"

[[enrollment]]
instance = 1
name = \"Range\"
class = 7
algorithm = \"unsigned-range\"
monitored = \"positive-integer-value:1\"
low = 20
high = 80
inhibit_ref = \"binary-value:1\"

[[log]]
instance = 1
name = \"Log\"
size = 2
classes = [7]

[[binding]]
device = 2001
address = \"10.0.0.5:47808\"
";

/// Two tanks of two classes. Class 7 tells an operator, who confirms, and a printer, which doesn't; class 8 tells an engineer.
/// 64 notifications may wait.
pub(crate) const FULL: &str = "[device]
instance = 1001
name = \"Plant\"
vendor = 999
start = 1700000000000
outbox = 64

[[class]]
instance = 7
priority = [100, 90, 200]
ack_required = [true, true, false]

[[class]]
instance = 8
priority = [100, 90, 200]
ack_required = [true, true, false]

[[destination]]
class = 7
address = \"10.0.0.5:47808\"
process = 1
confirmed = true

[[destination]]
class = 7
address = \"10.0.0.7:47808\"

[[destination]]
class = 8
address = \"10.0.0.6:47808\"
process = 1
confirmed = true

[[object]]
kind = \"integer-value\"
instance = 1
name = \"Tank\"
value = 50
class = 8
low = 20
high = 80
deadband = 5

[[object]]
kind = \"integer-value\"
instance = 2
name = \"Tank\"
value = 50
class = 7
low = 20
high = 80
deadband = 5
";

/// The site of a text.
pub(crate) fn site_of(alloc: Global, text: &str) -> Result<Site, Missed>
    ensures keeps { IfOk result IsSite }
{
    let read = match read_site(alloc, text.as_bytes()) {
        Err(SiteFault::NoMemory) => read_site(alloc, text.as_bytes()),
        read => read,
    };
    match read {
        Ok(site) => Ok(site),
        Err(SiteFault::NoMemory) => Err(Missed::Twice),
        Err(_) => Err(Missed::Other),
    }
}
