//! States in octets: snapshots.
ghost use Rattle.std.specs.Prelude.{◌≡◌, ◌++◌, IfOk, OnOk};
ghost use Rattle.state_codec.specs.Snapshots.{has_rule, version_of, written_state};
ghost use Rattle.state_codec.specs.Spelled.{FitsState};
ghost use Rattle.state_codec.specs.WritingSteps.{written_head};

use crate::state_types::state_fits;
use crate::writing::put_long;
use crate::writing_alarms::put_alarms;
use crate::writing_rest::{put_classes, put_logs, put_outbox};
use crate::writing_rows::put_rows;
use alarm_core::{Core, Site};
use bac_values::{NoMemory, push};
use std::alloc::Global;

/// Whether a site has a zone rule.
pub(crate) fn has_rule(site: &Site) -> bool
    ensures same { result ≡ has_rule site.now }
{
    site.device.zone_rule.is_some()
}

/// The version of a site's snapshots: 2 where it has a zone rule, else 1.
pub(crate) fn version_of(site: &Site) -> u8
    ensures version { result ≡ version_of site.now }
{
    if has_rule(site) { 2 } else { 1 }
}

/// Appends the version, how many events there were, and the moment of the last.
fn put_head(out: &mut Vec<u8>, core: &Core) -> Result<(), NoMemory>
    ensures written { OnOk result (out.new.items ≡ out.old.items ++ written_head core.now) }
{
    push(out, version_of(core.site()))?;
    put_long(out, core.events())?;
    put_long(out, core.last_moment())
}

/// The snapshot of a state. The state keeps the rules of the types of its parts, as every one that the program holds.
pub fn write_state(alloc: Global, core: &Core) -> Result<Vec<u8>, NoMemory>
    ensures written { IfOk result (λ octets. octets.items ≡ written_state core.now) }
    ensures fits { OnOk result (FitsState core.now) }
{
    state_fits(core)?;
    let mut out = Vec::new(alloc);
    put_head(&mut out, core)?;
    put_rows(&mut out, core.table().rows())?;
    put_alarms(alloc, &mut out, core)?;
    put_classes(&mut out, core.classes())?;
    put_logs(&mut out, has_rule(core.site()), core.logs())?;
    put_outbox(&mut out, core)?;
    Ok(out)
}
