//! An area of a journal is read: its snapshot, and then batch by batch.

ghost use Rattle.std.specs.Prelude.{◌≡◌, ◌≢◌, ◌<◌, ◌≤◌, ◌+◌, ◌^◌, ◌-◌, [], IfOk, IfErr, IfSome, IsFalse, IsTrue, MatchOption, OnOk, Err, false};
ghost use Rattle.ground_io.specs.Counts.{HasCause};
ghost use Rattle.ground_io.specs.Disk.{octets_at};
ghost use Rattle.ground_io.specs.Trace.{Adds};
ghost use Rattle.alarm_journal.specs.Areas.{IsBadHead, IsDamage, IsEnd, IsHead, IsLaid, IsRead, StaysAt, so_far, within};
ghost use Rattle.alarm_journal.specs.Journal.{LeavesAt};
ghost use Rattle.alarm_journal.specs.Opened.{Shows, StandsAt, content_in};
ghost use Rattle.alarm_journal.specs.declared.open_fault.OpenFault.TheVariants.{DiskFault};

use crate::reading::{read_gate, read_piece, read_word};
use crate::{Body, OpenFault, Opened};
use bac_values::Items;
use ground_io::Ground;
use std::alloc::Global;

/// What was read of an area so far.
#[derive(Drop)]
pub struct Area {
    /// Where it begins.
    pub start: u64,
    /// How many octets it has.
    pub half: u64,
    /// Its snapshot's octets.
    pub snapshot: Vec<u8>,
    /// The bodies of its batches, one after the other.
    pub batches: Vec<u8>,
    /// The bodies by themselves.
    pub bodies: Vec<Body>,
    /// The place of the next gate within the area, or the area's end.
    pub next: u64,
}

// The length of the body behind an open gate, with so many octets from the gate to the end of the area; or none, where
// the gate is closed or the area is full.
fn read_head<G: Ground>(device: &mut G, place: u64, left: u64) -> Result<Option<u32>, OpenFault>
    requires inside { place + left ≤ G.size device.old }
    requires word { place + left < 2 ^ 64 }
    ensures same { G.size device.new ≡ G.size device.old }
    ensures cause { HasCause (G.disk_faults device.old) (G.disk_faults device.new) (result ≡ Err DiskFault) }
    ensures unhidden { IfErr result (λ fault. fault ≢ DiskFault → G.disk_faults device.new ≡ G.disk_faults device.old) }
    ensures uncounted { OnOk result (G.disk_faults device.new ≡ G.disk_faults device.old) }
    ensures emitted { G.emit_faults device.new ≡ G.emit_faults device.old }
    ensures told { Adds (G.told device.old) (G.told device.new) [] }
    ensures fits { IfOk result (λ head. IfSome head (λ size. 5 + size ≤ left)) }
    ensures head { IfOk result (λ head. MatchOption head (Shows (G.told device.new) (IsEnd place left)) (λ size. Shows (G.told device.new) (IsHead place size))) }
    ensures damaged { IfErr result (IsDamage (G.told device.new) (λ at image. (at ≡ place + 1) × IsBadHead place left image)) }
{
    if left == 0 || !read_gate(device, place)? {
        return Ok(None);
    }
    if left < 5 {
        return Err(OpenFault::Damaged { at: place + 1 });
    }
    let size = read_word(device, place + 1)?;
    if u64::from(size) > left - 5 {
        return Err(OpenFault::Damaged { at: place + 1 });
    }
    Ok(Some(size))
}

// Reads the next batch of an area, and says whether there was one.
fn read_batch<G: Ground>(alloc: Global, device: &mut G, area: &mut Area) -> Result<bool, OpenFault>
    requires inside { area.old.start + area.old.half ≤ G.size device.old }
    requires word { area.old.start + area.old.half < 2 ^ 64 }
    requires within { within area.old }
    requires so_far { Shows (G.told device.old) (so_far area.old) }
    ensures same { G.size device.new ≡ G.size device.old }
    ensures cause { HasCause (G.disk_faults device.old) (G.disk_faults device.new) (result ≡ Err DiskFault) }
    ensures unhidden { IfErr result (λ fault. fault ≢ DiskFault → G.disk_faults device.new ≡ G.disk_faults device.old) }
    ensures uncounted { OnOk result (G.disk_faults device.new ≡ G.disk_faults device.old) }
    ensures emitted { G.emit_faults device.new ≡ G.emit_faults device.old }
    ensures told { Adds (G.told device.old) (G.told device.new) [] }
    ensures stays { OnOk result (StaysAt area.old area.new) }
    ensures within { OnOk result (within area.new) }
    ensures so_far { OnOk result (Shows (G.told device.new) (so_far area.new)) }
    ensures grows { IfOk result (λ more. IsTrue more → area.old.next < area.new.next) }
    ensures end { IfOk result (λ more. IsFalse more → Shows (G.told device.new) (IsEnd (area.new.start + area.new.next) (area.new.half - area.new.next))) }
    ensures damaged { IfErr result (IsDamage (G.told device.new) (λ at image. LeavesAt area.old.start (octets_at area.old.start area.old.half image) at)) }
{
    let place = area.start + area.next;
    let Some(length) = read_head(device, place, area.half - area.next)? else {
        return Ok(false);
    };
    let body = read_piece(alloc, device, place + 5, length as usize)?;
    area.batches.extend_from_slice(&body)?;
    area.bodies.push(Body {
        place: place + 5,
        length,
    })?;
    area.next += 5 + u64::from(length);
    Ok(true)
}

// Reads the batches of an area up to its next gate.
fn read_batches<G: Ground>(alloc: Global, device: &mut G, area: &mut Area) -> Result<(), OpenFault>
    requires inside { area.old.start + area.old.half ≤ G.size device.old }
    requires word { area.old.start + area.old.half < 2 ^ 64 }
    requires within { within area.old }
    requires so_far { Shows (G.told device.old) (so_far area.old) }
    ensures same { G.size device.new ≡ G.size device.old }
    ensures cause { HasCause (G.disk_faults device.old) (G.disk_faults device.new) (result ≡ Err DiskFault) }
    ensures unhidden { IfErr result (λ fault. fault ≢ DiskFault → G.disk_faults device.new ≡ G.disk_faults device.old) }
    ensures uncounted { OnOk result (G.disk_faults device.new ≡ G.disk_faults device.old) }
    ensures emitted { G.emit_faults device.new ≡ G.emit_faults device.old }
    ensures told { Adds (G.told device.old) (G.told device.new) [] }
    ensures stays { OnOk result (StaysAt area.old area.new) }
    ensures within { OnOk result (within area.new) }
    ensures so_far { OnOk result (Shows (G.told device.new) (so_far area.new)) }
    ensures end { OnOk result (Shows (G.told device.new) (IsEnd (area.new.start + area.new.next) (area.new.half - area.new.next))) }
    ensures damaged { IfErr result (IsDamage (G.told device.new) (λ at image. LeavesAt area.old.start (octets_at area.old.start area.old.half image) at)) }
{
    while read_batch(alloc, device, area)? {}
    Ok(())
}

// What was read of an area, for whoever opens a journal.
fn opened_of(area: Area) -> (Opened, u64)
    requires word { area.start + 4 < 2 ^ 64 }
    ensures fresh { result.0.fresh ≡ false }
    ensures snapshot { result.0.snapshot ≡ area.snapshot.items }
    ensures place { result.0.snapshot_place ≡ area.start + 4 }
    ensures batches { result.0.batches ≡ area.batches.items }
    ensures bodies { result.0.bodies ≡ area.bodies.items }
    ensures next { result.1 ≡ area.next }
{
    let opened = Opened {
        fresh: false,
        snapshot: Items::of(area.snapshot),
        snapshot_place: area.start + 4,
        batches: Items::of(area.batches),
        bodies: Items::of(area.bodies),
    };
    (opened, area.next)
}

/// Reads an area of so many octets from a place of the device on, as far as it is used, and says where in it the next
/// gate stands, or that it is full.
pub fn read_area<G: Ground>(
    alloc: Global,
    device: &mut G,
    start: u64,
    half: u64,
) -> Result<(Opened, u64), OpenFault>
    requires some { 5 ≤ half }
    requires inside { start + half ≤ G.size device.old }
    requires word { start + half < 2 ^ 64 }
    ensures same { G.size device.new ≡ G.size device.old }
    ensures cause { HasCause (G.disk_faults device.old) (G.disk_faults device.new) (result ≡ Err DiskFault) }
    ensures unhidden { IfErr result (λ fault. fault ≢ DiskFault → G.disk_faults device.new ≡ G.disk_faults device.old) }
    ensures uncounted { OnOk result (G.disk_faults device.new ≡ G.disk_faults device.old) }
    ensures emitted { G.emit_faults device.new ≡ G.emit_faults device.old }
    ensures told { Adds (G.told device.old) (G.told device.new) [] }
    ensures damaged { IfErr result (IsDamage (G.told device.new) (λ at image. LeavesAt start (octets_at start half image) at)) }
    ensures fresh { IfOk result (λ read. read.0.fresh ≡ false) }
    ensures read { IfOk result (λ read. Shows (G.told device.new) (IsRead start half read.1 (content_in read.0))) }
    ensures stand { IfOk result (λ read. Shows (G.told device.new) (StandsAt read.0)) }
    ensures laid { IfOk result (λ read. IsLaid start (start + read.1) read.0) }
    ensures within { IfOk result (λ read. (4 ≤ read.1) × (read.1 ≤ half)) }
{
    let count = read_word(device, start)?;
    if u64::from(count) > half - 4 {
        return Err(OpenFault::Damaged { at: start });
    }
    let snapshot = read_piece(alloc, device, start + 4, count as usize)?;
    let mut area = Area {
        start,
        half,
        snapshot,
        batches: Vec::new(alloc),
        bodies: Vec::new(alloc),
        next: 4 + u64::from(count),
    };
    read_batches(alloc, device, &mut area)?;
    Ok(opened_of(area))
}
