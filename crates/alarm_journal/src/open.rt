//! A device is opened as a journal, or formatted where it is blank.

ghost use Rattle.std.specs.Prelude.{◌≡◌, ◌≢◌, ◌⊎◌, ◌+◌, ◌-◌, ◌/◌, ◌%◌, ◌≤◌, ◌<◌, if◌then◌else◌, slice_index, [], ◌∷◌, ℕ, length, IfOk, IfErr, OnOk, OnErr, MatchResult, IsFalse, IsTrue, ◌↔◌, Ok, Err, false};
ghost use Rattle.bac_values.specs.Limits.{most_site_octets};
ghost use Rattle.ground_io.specs.Counts.{HasCause};
ghost use Rattle.ground_io.specs.Trace.{Adds};
ghost use Rattle.ground_io.specs.declared.entry.Entry.TheVariants.{Synced};
ghost use Rattle.alarm_journal.specs.Areas.{IsLaid};
ghost use Rattle.alarm_journal.specs.Journal.{OpensTo, heading, nothing};
ghost use Rattle.alarm_journal.specs.Opened.{Shows, StandsAt, content_in};
ghost use Rattle.alarm_journal.specs.Press.{Answers, Begun, Blank, IsAtMostSynced, IsBelow, IsOpening, IsRefusal, IsSmall, IsSound, MayFormat, Reopens, ReopensSynced, Settled, WasBlank, start_of};
ghost use Rattle.alarm_journal.specs.Protocol.{AddsSome, IsTwoCutShort, Leads, two_writes};
ghost use Rattle.alarm_journal.specs.declared.open_fault.OpenFault.TheVariants.{DiskFault, NoMemory};

use crate::area::read_area;
use crate::change::Change;
use crate::header::{check_header, heading_of};
use crate::protocol::write_both;
use crate::reading::{read_gate, read_piece};
use crate::{Layout, OpenFault, Opened};
use bac_values::Items;
use ground_io::Ground;
use std::alloc::Global;

// Formats a device whose gate isn't open.
fn format<G: Ground>(
    alloc: Global,
    device: &mut G,
    text: &[u8],
    need: u64,
    size: u64,
) -> Result<Layout, OpenFault>
    requires few { length text.now ≤ most_site_octets }
    requires size { size ≡ G.size device.old }
    requires needed { length text.now + 32 ≤ need }
    requires room { need ≤ size }
    ensures same { G.size device.new ≡ G.size device.old }
    ensures cause { HasCause (G.disk_faults device.old) (G.disk_faults device.new) (result ≡ Err DiskFault) }
    ensures unhidden { IfErr result (λ fault. fault ≢ DiskFault → G.disk_faults device.new ≡ G.disk_faults device.old) }
    ensures uncounted { OnOk result (G.disk_faults device.new ≡ G.disk_faults device.old) }
    ensures emitted { G.emit_faults device.new ≡ G.emit_faults device.old }
    ensures faults { IfErr result (λ fault. (fault ≡ DiskFault) ⊎ (fault ≡ NoMemory)) }
    ensures sound { IfOk result (λ layout. IsSound (G.size device.new) layout) }
    ensures area { IfOk result (λ layout. (need - 22 - length text.now) / 2 ≤ layout.half) }
    ensures next { IfOk result (λ layout. layout.next ≡ start_of layout + 4) }
    ensures wrote { OnOk result (Adds (G.told device.old) (G.told device.new) (two_writes 1 (heading text.now size) 0 (1 ∷ []))) }
    ensures cut_short { OnErr result (AddsSome (λ entries. (entries ≡ []) ⊎ IsTwoCutShort 1 (heading text.now size) 0 (1 ∷ []) entries) (G.told device.old) (G.told device.new)) }
    ensures formatted { Blank (G.told device.old) → IfOk result (λ layout. Settled (record { text = text.now; need = need }) layout (G.told device.new) nothing) }
    ensures any_moment { Blank (G.told device.old) → Leads (λ image. OpensTo (record { text = text.now; need = need }) image nothing) (G.told device.old) (G.told device.new) }
{
    let octets = heading_of(alloc, text, size)?;
    let change = Change::beginning(text, need);
    write_both(device, &change, 1, &octets, 0, 1)?;
    let areas = text.len() as u64 + 22;
    Ok(Layout {
        areas,
        half: (size - areas) / 2,
        second: false,
        next: areas + 4,
    })
}

// Where the areas of an open journal lie, and which is selected; the next gate isn't known yet.
fn layout_of(text: &[u8], formatted: u64, header: &[u8]) -> Layout
    requires text { length text.now + 32 ≤ formatted }
    requires header { 22 + length text.now ≡ length header.now }
    ensures areas { result.areas ≡ 22 + length text.now }
    ensures half { result.half ≡ (formatted - 22 - length text.now) / 2 }
    ensures selected { slice_index header.now (21 + length text.now) % 2 ≡ (if result.second then 1 else 0) }
    ensures fits { result.areas + result.half + result.half ≤ formatted }
    ensures some { 5 ≤ result.half }
{
    let areas = text.len() + 22;
    Layout {
        areas: areas as u64,
        half: (formatted - areas as u64) / 2,
        second: header[areas - 1] % 2 == 1,
        next: 0,
    }
}

// Reads a journal whose gate is open.
fn read_journal<G: Ground>(
    alloc: Global,
    device: &mut G,
    text: &[u8],
    need: u64,
    size: u64,
) -> Result<(Layout, Opened), OpenFault>
    requires few { length text.now ≤ most_site_octets }
    requires size { size ≡ G.size device.old }
    requires needed { length text.now + 32 ≤ need }
    requires room { need ≤ size }
    ensures same { G.size device.new ≡ G.size device.old }
    ensures cause { HasCause (G.disk_faults device.old) (G.disk_faults device.new) (result ≡ Err DiskFault) }
    ensures unhidden { IfErr result (λ fault. fault ≢ DiskFault → G.disk_faults device.new ≡ G.disk_faults device.old) }
    ensures uncounted { OnOk result (G.disk_faults device.new ≡ G.disk_faults device.old) }
    ensures emitted { G.emit_faults device.new ≡ G.emit_faults device.old }
    ensures small { IfErr result (λ fault. IsSmall (G.size device.old) fault) }
    ensures told { Adds (G.told device.old) (G.told device.new) [] }
    ensures sound { IfOk result (λ read. IsSound (G.size device.new) read.0) }
    ensures area { IfOk result (λ read. (need - 22 - length text.now) / 2 ≤ read.0.half) }
    ensures settled { Begun (G.told device.old) → IfOk result (λ read. Settled (record { text = text.now; need = need }) read.0 (G.told device.new) (content_in read.1)) }
    ensures fresh { IfOk result (λ read. read.1.fresh ≡ false) }
    ensures laid { IfOk result (λ read. IsLaid (start_of read.0) read.0.next read.1) }
    ensures stand { IfOk result (λ read. Shows (G.told device.new) (StandsAt read.1)) }
    ensures answer { Begun (G.told device.old) → IfErr result (λ fault. Answers (record { text = text.now; need = need }) (G.told device.old) (G.told device.new) (Err fault)) }
{
    let header = read_piece(alloc, device, 0, text.len() + 22)?;
    let formatted = check_header(text, need, size, &header)?;
    let layout = layout_of(text, formatted, &header);
    let start = layout.start();
    let (opened, next) = read_area(alloc, device, start, layout.half)?;
    let layout = layout.with_next(start + next);
    Ok((layout, opened))
}

// Syncs, and formats a blank device or reads one with an open gate.
pub(crate) fn open_device<G: Ground>(
    alloc: Global,
    device: &mut G,
    text: &[u8],
    need: u64,
) -> Result<(Layout, Opened), OpenFault>
    requires few { length text.now ≤ most_site_octets }
    requires needed { length text.now + 32 ≤ need }
    ensures same { G.size device.new ≡ G.size device.old }
    ensures cause { HasCause (G.disk_faults device.old) (G.disk_faults device.new) (result ≡ Err DiskFault) }
    ensures unhidden { IfErr result (λ fault. fault ≢ DiskFault → G.disk_faults device.new ≡ G.disk_faults device.old) }
    ensures uncounted { OnOk result (G.disk_faults device.new ≡ G.disk_faults device.old) }
    ensures emitted { G.emit_faults device.new ≡ G.emit_faults device.old }
    ensures small { IfErr result (λ fault. IsSmall (G.size device.old) fault) }
    ensures enough { IfOk result (λ _. need ≤ G.size device.old) }
    ensures below { G.size device.old < need → IfErr result (IsBelow (G.size device.old) need) }
    ensures sound { IfOk result (λ read. IsSound (G.size device.new) read.0) }
    ensures area { IfOk result (λ read. (need - 22 - length text.now) / 2 ≤ read.0.half) }
    ensures settled { IfOk result (λ read. Settled (record { text = text.now; need = need }) read.0 (G.told device.new) (content_in read.1)) }
    ensures answer { MatchResult result
        (λ read. Answers (record { text = text.now; need = need }) (G.told device.old) (G.told device.new) (Ok (content_in read.1)))
        (λ fault. Answers (record { text = text.now; need = need }) (G.told device.old) (G.told device.new) (Err fault)) }
    ensures fresh { IfOk result (λ read. WasBlank (G.told device.old) (G.told device.new) read.1.fresh) }
    ensures laid { IfOk result (λ read. IsLaid (start_of read.0) read.0.next read.1) }
    ensures stand { IfOk result (λ read. Shows (G.told device.new) (StandsAt read.1)) }
    ensures empty { IfOk result (λ read. IsTrue read.1.fresh → content_in read.1 ≡ nothing) }
    ensures any_moment { MatchResult result
        (λ _. ReopensSynced (record { text = text.now; need = need }) (G.told device.old) (G.told device.new))
        (λ _. Reopens (record { text = text.now; need = need }) (G.told device.old) (G.told device.new)) }
    ensures writes { AddsSome (IsOpening text.now (G.size device.old)) (G.told device.old) (G.told device.new) }
    ensures formats { MayFormat (G.size device.old) need (G.told device.old) (G.told device.new) ⊎ AddsSome IsAtMostSynced (G.told device.old) (G.told device.new) }
    ensures begun { IfOk result (λ read. IsFalse read.1.fresh → Adds (G.told device.old) (G.told device.new) (Synced ∷ [])) }
    ensures refused { IfErr result (λ fault. IsRefusal fault → Adds (G.told device.old) (G.told device.new) (Synced ∷ [])) }
{
    device.sync()?;
    let size = device.size()?;
    if size < need {
        return Err(OpenFault::SmallDevice { size, need });
    }
    let begun = read_gate(device, 0)?;
    if begun {
        let (layout, opened) = read_journal(alloc, device, text, need, size)?;
        return Ok((layout, opened));
    }
    let layout = format(alloc, device, text, need, size)?;
    let opened = Opened {
        fresh: true,
        snapshot: Items::of(Vec::new(alloc)),
        snapshot_place: layout.next,
        batches: Items::of(Vec::new(alloc)),
        bodies: Items::of(Vec::new(alloc)),
    };
    Ok((layout, opened))
}
