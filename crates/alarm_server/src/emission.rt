//! Lines go out to the console.

ghost use Rattle.std.specs.Prelude.{◌≡◌, ◌∷◌, [], IsErrOf, OnOk};
ghost use Rattle.script_lines.specs.Report.{report_text};
ghost use Rattle.ground_io.specs.Counts.{HasCause};
ghost use Rattle.ground_io.specs.Trace.{Adds};
ghost use Rattle.alarm_server.specs.declared.emission.Unsent.TheVariants as unsent;
ghost use Rattle.alarm_server.specs.Emission.{Sends};

use bac_values::{NoMemory, Peer, ReportLine};
use ground_io::{Failed, Ground};
use script_lines::write_report;
use std::alloc::Global;

/// Why a line did not go out.
#[derive(Clone, Copy, Debug, PartialEq, Eq)]
pub enum Unsent {
    /// The ground failed: the line may have gone out in part.
    Lost,
    /// Memory was refused.
    NoMemory,
}

impl From<NoMemory> for Unsent {
    ghost from_gives = { λ _ fault. fault ≡ unsent.NoMemory };

    fn from(_refused: NoMemory) -> Unsent {
        Unsent::NoMemory
    }
}

impl From<Failed> for Unsent {
    ghost from_gives = { λ _ fault. fault ≡ unsent.Lost };

    fn from(_failed: Failed) -> Unsent {
        Unsent::Lost
    }
}

/// Emits a line to the console.
pub fn emit<G: Ground>(alloc: Global, device: &mut G, line: &ReportLine) -> Result<(), Unsent>
    ensures sends { Sends Adds report_text result (line.now ∷ []) (G.told device.old) (G.told device.new) }
    ensures size { G.size device.new ≡ G.size device.old }
    ensures disk { G.disk_faults device.new ≡ G.disk_faults device.old }
    ensures cause { HasCause (G.emit_faults device.old) (G.emit_faults device.new) (IsErrOf result Unsent.Lost) }
    ensures uncounted { OnOk result (G.emit_faults device.new ≡ G.emit_faults device.old) }
{
    let text = write_report(alloc, line)?;
    device.emit(Peer::console(), text.as_slice())?;
    Ok(())
}
