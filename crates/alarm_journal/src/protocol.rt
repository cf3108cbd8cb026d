//! The two writes of a commit, each with its sync.

ghost use Rattle.std.specs.Prelude.{◌≡◌, ◌+◌, ◌≤◌, [], ◌∷◌, length, IsErr, OnOk, OnErr};
ghost use Rattle.ground_io.specs.Counts.{HasCause};
ghost use Rattle.ground_io.specs.Trace.{Adds};
ghost use Rattle.ground_io.specs.declared.entry.Entry.TheVariants.{Wrote, Synced};
ghost use Rattle.alarm_journal.specs.Protocol.{AddsSome, IsCutShort, IsTwoCutShort, two_writes};
ghost use Rattle.alarm_journal.specs.Underway.{MayWrite, MayWriteBehind};

use crate::change::Change;
use ground_io::{Failed, Ground};

// Writes octets of a change and brings them onto the disk. Nothing else in this crate writes.
fn write_down<G: Ground>(
    device: &mut G,
    _change: &Change,
    place: u64,
    octets: &[u8],
) -> Result<(), Failed>
    requires inside { place + length octets.now ≤ G.size device.old }

    // Whatever becomes of the write, also where it never comes back: what a crash leaves is what stands, or that with
    // the change.
    requires underway { MayWrite _change.now place octets.now (G.told device.old) }
    ensures wrote { OnOk result (Adds (G.told device.old) (G.told device.new) (Wrote place octets.now ∷ Synced ∷ [])) }
    ensures cut_short { OnErr result (AddsSome (IsCutShort place octets.now) (G.told device.old) (G.told device.new)) }
    ensures same { G.size device.new ≡ G.size device.old }
    ensures cause { HasCause (G.disk_faults device.old) (G.disk_faults device.new) (IsErr result) }
    ensures uncounted { OnOk result (G.disk_faults device.new ≡ G.disk_faults device.old) }
    ensures emitted { G.emit_faults device.new ≡ G.emit_faults device.old }
{
    device.write_at(place, octets)?;
    device.sync()
}

/// Writes octets of a change to a first place and, once they are on the disk, one octet to a second place, and brings
/// that onto the disk too.
pub(crate) fn write_both<G: Ground>(
    device: &mut G,
    change: &Change,
    first: u64,
    octets: &[u8],
    second: u64,
    gate: u8,
) -> Result<(), Failed>
    requires first { first + length octets.now ≤ G.size device.old }
    requires second { second + 1 ≤ G.size device.old }
    requires underway { MayWrite change.now first octets.now (G.told device.old) }
    requires behind { MayWriteBehind change.now first octets.now second (gate ∷ []) (G.told device.old) }
    ensures wrote { OnOk result (Adds (G.told device.old) (G.told device.new) (two_writes first octets.now second (gate ∷ []))) }
    ensures cut_short { OnErr result (AddsSome (IsTwoCutShort first octets.now second (gate ∷ [])) (G.told device.old) (G.told device.new)) }
    ensures same { G.size device.new ≡ G.size device.old }
    ensures cause { HasCause (G.disk_faults device.old) (G.disk_faults device.new) (IsErr result) }
    ensures uncounted { OnOk result (G.disk_faults device.new ≡ G.disk_faults device.old) }
    ensures emitted { G.emit_faults device.new ≡ G.emit_faults device.old }
{
    write_down(device, change, first, octets)?;
    write_down(device, change, second, &[gate])
}
