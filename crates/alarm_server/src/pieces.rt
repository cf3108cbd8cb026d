//! Pieces of a report go out to the console.

ghost use Rattle.std.specs.Prelude.{◌≡◌, ◌∷◌, [], IfOk, IsErrOf, OnOk};
ghost use Rattle.ground_io.specs.Counts.{HasCause};
ghost use Rattle.ground_io.specs.Trace.{Adds};
ghost use Rattle.alarm_journal.specs.Journal.{Content};
ghost use Rattle.alarm_journal.specs.Journal.{Site as Journal};
ghost use Rattle.alarm_journal.specs.Press.{Throughout};
ghost use Rattle.alarm_server.specs.Emission.{Sends};
ghost use Rattle.state_codec.specs.Keeping.{Rests};
ghost use Rattle.alarm_server.specs.Pieces.{piece_text};

use crate::emission::Unsent;
use alarm_journal::Press;
use bac_values::{Items, NoMemory, Peer, ReportLine, Send};
use ground_io::Ground;
use script_lines::write_report;
use std::alloc::Global;

fn write_piece(alloc: Global, piece: &[ReportLine]) -> Result<Vec<u8>, NoMemory>
    ensures text { IfOk result (λ octets. octets.items ≡ piece_text piece.now) }
{
    let mut octets = Vec::new(alloc);
    for line in piece {
        let text = write_report(alloc, line)?;
        octets.extend_from_slice(text.as_slice())?;
    }
    Ok(octets)
}

/// Emits a piece to the console. What the journal holds stays as it is.
pub fn emit_piece<G: Ground>(
    alloc: Global,
    press: &mut Press<G>,
    piece: &[ReportLine],
) -> Result<(), Unsent>
    ensures sends { Sends Adds piece_text result (piece.now ∷ []) (G.told press.old.device) (G.told press.new.device) }
    ensures rests { (journal : Journal) (content : Content) → Rests journal press.old.layout (G.told press.old.device) content → Rests journal press.new.layout (G.told press.new.device) content }
    ensures any_moment { (journal : Journal) (content : Content) → Rests journal press.old.layout (G.told press.old.device) content → Throughout journal content (G.told press.old.device) (G.told press.new.device) }
    ensures size { G.size press.new.device ≡ G.size press.old.device }
    ensures disk { G.disk_faults press.new.device ≡ G.disk_faults press.old.device }
    ensures cause { HasCause (G.emit_faults press.old.device) (G.emit_faults press.new.device) (IsErrOf result Unsent.Lost) }
    ensures uncounted { OnOk result (G.emit_faults press.new.device ≡ G.emit_faults press.old.device) }
{
    let bytes = Items::of(write_piece(alloc, piece)?);
    let send = Send {
        peer: Peer::console(),
        bytes,
    };
    let sends = [send];
    let emits = press.emit_all(&sends);
    if emits.lost > 0 {
        return Err(Unsent::Lost);
    }
    Ok(())
}
