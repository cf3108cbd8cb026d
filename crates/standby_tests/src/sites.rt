//! Sites that followers are of.

ghost use Rattle.std.specs.Prelude.{IfOk};
ghost use Rattle.alarm_core.specs.Sites.{IsSite};

use alarm_core::Site;
use site_config::read_site;
use std::alloc::Global;
use std::process::Abort;
use std::test::Fail;

/// When the sites start.
pub(crate) const START: u64 = 1_700_000_000_000;

/// A tank without a delay, of which one operator is told.
pub(crate) const TANK: &str = "[device]
instance = 1001
name = \"Plant\"
vendor = 999
start = 1700000000000

[[class]]
instance = 7
priority = [100, 90, 200]
ack_required = [true, true, false]

[[destination]]
class = 7
address = \"10.0.0.5:47808\"
process = 1
confirmed = true

[[object]]
kind = \"integer-value\"
instance = 1
name = \"Tank\"
value = 50
class = 7
low = 20
high = 80
deadband = 5
";

/// Two tanks of two classes: class 7 tells two, one of whom needn't confirm, and class 8 one; the first tank is of class 8,
/// and the second one of class 7. 64 notifications may wait.
pub(crate) const TWO_TANKS: &str = "[device]
instance = 1001
name = \"Plant\"
vendor = 999
start = 1700000000000
outbox = 64

[[class]]
instance = 7
priority = [100, 90, 200]
ack_required = [true, true, false]

[[class]]
instance = 8
priority = [100, 90, 200]
ack_required = [true, true, false]

[[destination]]
class = 7
address = \"10.0.0.5:47808\"
process = 1
confirmed = true

[[destination]]
class = 7
address = \"10.0.0.7:47808\"

[[destination]]
class = 8
address = \"10.0.0.6:47808\"
process = 1
confirmed = true

[[object]]
kind = \"integer-value\"
instance = 1
name = \"Tank\"
value = 50
class = 8
low = 20
high = 80
deadband = 5

[[object]]
kind = \"integer-value\"
instance = 2
name = \"Tank\"
value = 50
class = 7
low = 20
high = 80
deadband = 5
";

/// The site of a text.
fn site_of(alloc: Global, text: &str) -> Result<Site, Fail>
    ensures keeps { IfOk result IsSite }
{
    match read_site(alloc, text.as_bytes()) {
        Ok(site) => Ok(site),
        Err(_) => Err(Fail::new("it is no site")),
    }
}

/// What is asked of a site, by one who only borrows it.
pub(crate) trait Question {
    /// Asks it, and looks at the answer.
    fn ask(&self, rt: &impl Abort, alloc: Global, site: &Site) -> Result<(), Fail>
        requires site { IsSite site.now };
}

/// Asks of the site of a text, and gives it up. What owns a site has one way out.
pub(crate) fn ask_of(
    rt: &impl Abort,
    alloc: Global,
    text: &str,
    question: &impl Question,
) -> Result<(), Fail> {
    let site = site_of(alloc, text)?;
    let asked = question.ask(rt, alloc, &site);
    drop(site);
    asked
}
