//! Pieces, gates and words of a journal are read.

ghost use Rattle.std.specs.Prelude.{◌≡◌, ◌≢◌, ◌⊎◌, ◌+◌, ◌≤◌, ◌↔◌, [], length, slice_index, IfOk, IfErr, IsErr, IsTrue, OnOk, Err};
ghost use Rattle.byteorder.specs.Endian.{big_number};
ghost use Rattle.ground_io.specs.Counts.{HasCause};
ghost use Rattle.ground_io.specs.Disk.{octets_at};
ghost use Rattle.ground_io.specs.Trace.{Adds, Reads};
ghost use Rattle.alarm_journal.specs.Opened.{Shows};
ghost use Rattle.alarm_journal.specs.declared.open_fault.OpenFault.TheVariants.{DiskFault, NoMemory};

use crate::OpenFault;
use byteorder::{BigEndian, ByteOrder};
use ground_io::{Failed, Ground};
use std::alloc::Global;

/// So many octets from a place on.
pub fn read_piece<G: Ground>(
    alloc: Global,
    device: &mut G,
    place: u64,
    count: usize,
) -> Result<Vec<u8>, OpenFault>
    requires { place + count ≤ G.size device.old }
    ensures same { G.size device.new ≡ G.size device.old }
    ensures cause { HasCause (G.disk_faults device.old) (G.disk_faults device.new) (result ≡ Err DiskFault) }
    ensures unhidden { IfErr result (λ fault. fault ≢ DiskFault → G.disk_faults device.new ≡ G.disk_faults device.old) }
    ensures uncounted { OnOk result (G.disk_faults device.new ≡ G.disk_faults device.old) }
    ensures emitted { G.emit_faults device.new ≡ G.emit_faults device.old }
    ensures faults { IfErr result (λ fault. (fault ≡ DiskFault) ⊎ (fault ≡ NoMemory)) }
    ensures told { Adds (G.told device.old) (G.told device.new) [] }
    ensures octets { IfOk result (λ octets. Reads (G.told device.new) place octets.items) }
    ensures length { IfOk result (λ octets. length octets.items ≡ count) }
{
    let mut octets = vec![in alloc; 0u8; count]?;
    device.read_at(place, &mut octets)?;
    Ok(octets)
}

/// Whether there is an open gate at a place.
pub fn read_gate<G: Ground>(device: &mut G, place: u64) -> Result<bool, Failed>
    requires { place + 1 ≤ G.size device.old }
    ensures same { G.size device.new ≡ G.size device.old }
    ensures cause { HasCause (G.disk_faults device.old) (G.disk_faults device.new) (IsErr result) }
    ensures uncounted { OnOk result (G.disk_faults device.new ≡ G.disk_faults device.old) }
    ensures emitted { G.emit_faults device.new ≡ G.emit_faults device.old }
    ensures told { Adds (G.told device.old) (G.told device.new) [] }
    ensures open { IfOk result (λ gate. Shows (G.told device.new) (λ image. IsTrue gate ↔ (slice_index image place ≡ 1))) }
{
    let mut gate = [0];
    device.read_at(place, &mut gate)?;
    Ok(gate[0] == 1)
}

/// The number in the four octets from a place on.
pub fn read_word<G: Ground>(device: &mut G, place: u64) -> Result<u32, Failed>
    requires { place + 4 ≤ G.size device.old }
    ensures same { G.size device.new ≡ G.size device.old }
    ensures cause { HasCause (G.disk_faults device.old) (G.disk_faults device.new) (IsErr result) }
    ensures uncounted { OnOk result (G.disk_faults device.new ≡ G.disk_faults device.old) }
    ensures emitted { G.emit_faults device.new ≡ G.emit_faults device.old }
    ensures told { Adds (G.told device.old) (G.told device.new) [] }
    ensures word { IfOk result (λ word. Shows (G.told device.new) (λ image. word ≡ big_number 4 (octets_at place 4 image))) }
{
    let mut word = [0; 4];
    device.read_at(place, &mut word)?;
    Ok(BigEndian::read_u32(&word))
}
