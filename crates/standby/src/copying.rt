//! A copy of a core, on which records are tried.

ghost use Rattle.std.specs.Prelude.{IfOk};
ghost use Rattle.standby.specs.Takes.{IsTriedOn};

use alarm_core::Core;
use bac_values::NoMemory;
use state_codec::{read_state, snapshots_have_one_spelling, write_state};
use std::alloc::Global;

/// A core that goes on as another one: it is read of that one's snapshot. A core that has none of its site, which no history
/// leads to, is as good as no memory for it.
pub(crate) fn copy_of(alloc: Global, core: &Core) -> Result<Core, NoMemory>
    ensures tried { IfOk result (IsTriedOn core.now) }
{
    snapshots_have_one_spelling();
    let octets = write_state(alloc, core)?;
    match read_state(alloc, core.site(), octets.as_slice()) {
        Ok(copy) => {
            prove!(copy.events() == core.events());
            Ok(copy)
        }
        Err(_) => Err(NoMemory),
    }
}
