//! A fault gets its place.

ghost use Rattle.std.specs.Prelude.{◌≡◌};
ghost use Rattle.site_config.specs.Sections.{at_place};

use crate::fault::{Section, SiteFault, SitePlace};
use toml_items::ItemFault;

/// The fault of a site whose item, the one with this number in this section, has the fault.
pub fn at_place(fault: ItemFault, section: Section, item: u32) -> SiteFault
    ensures place { result ≡ at_place section item fault }
{
    match fault {
        ItemFault::Unknown { key } => SiteFault::Unknown {
            place: SitePlace { section, item, key },
        },
        ItemFault::Missing { key } => SiteFault::Missing {
            place: SitePlace { section, item, key },
        },
        ItemFault::BadValue { key } => SiteFault::BadValue {
            place: SitePlace { section, item, key },
        },
        ItemFault::NoMemory => SiteFault::NoMemory,
    }
}
