//! A standby, packet by packet: what it takes is on its disk before the line that tells of it goes out.

ghost use Rattle.std.specs.Prelude.{◌≡◌, ◌≢◌, ℕ, List, [], ◌∷◌, None, Ok, Err, IfErr, IfOk, IfSome, IsErrOf, MatchResult, OnOk};
ghost use Rattle.std.specs.Io.KnownBytes.{IsAtEnd};
ghost use Rattle.ground_io.specs.Counts.{HasCause};
ghost use Rattle.ground_io.specs.Trace.{WhereTold, still};
ghost use Rattle.script_lines.specs.PacketLine.{packet_says};
ghost use Rattle.alarm_journal.specs.Journal.{Content};
ghost use Rattle.alarm_journal.specs.Journal.{Site as Journal};
ghost use Rattle.alarm_journal.specs.Press.{Throughout};
ghost use Rattle.alarm_core.specs.declared.event.Event.{Event as Happening};
ghost use Rattle.alarm_core.specs.Allowed.{Represents};
ghost use Rattle.alarm_core.specs.Fits.{FitsSite};
ghost use Rattle.alarm_core.specs.Sites.{IsSite};
ghost use Rattle.state_codec.specs.Emission.{Emits};
ghost use Rattle.state_codec.specs.Laws.{BoundsAreLow, OneSnapshot};
ghost use Rattle.state_codec.specs.Keeping.{Commits, HoldsHistory, Rests};
ghost use Rattle.standby.specs.Followers.{HasRoomyAreas, following_of};
ghost use Rattle.standby.specs.Leads.{LeadsOn, MayBe, MayLeadOn};
ghost use Rattle.standby.specs.Takes.{Takes};
ghost use Rattle.alarm_server.specs.Following.{BreaksOff, Follows, IsSent, LeavesFollower, Sender, StopsFollowing, Tells, line_of};
ghost use Rattle.alarm_server.specs.Keeping.{KeepsAlong};
ghost use Rattle.alarm_server.specs.Script.{refused_line};
ghost use Rattle.alarm_server.specs.Status.{IsKeepFault, IsPlayFault, status_of};

use crate::emission::Unsent;
use crate::status::Status;
use alarm_core::{Core, Site, site_fits};
use alarm_journal::Press;
use bac_values::{Items, Peer, ReportLine, Send};
use ground_io::{Ground, Source};
use script_lines::{Lines, PacketLine, write_report};
use standby::{Follower, TakeFault, Took};
use state_codec::{bounds_are_low, snapshots_have_one_spelling};
use std::alloc::Global;

// The line that answers a packet.
fn line_of(number: u64, took: Took) -> ReportLine
    ensures line { result ≡ line_of number took }
{
    match took {
        Took::Malformed => ReportLine::Malformed { line: number },
        Took::Gap { events } => ReportLine::Gap {
            line: number,
            events,
        },
        Took::Repeat { events } => ReportLine::Repeat {
            line: number,
            events,
        },
        Took::Part { place } => ReportLine::Part {
            line: number,
            place,
        },
        Took::Taken { events } => ReportLine::Taken {
            line: number,
            events,
        },
    }
}

// The ground of a follower that goes no further.
fn ground_of<G: Ground>(follower: Follower<G>) -> G
    ensures same { result ≡ follower.press.device }
{
    let (press, core) = follower.take_over();
    drop(core);
    press.into_ground()
}

// Emits a line to the console. How far the follower has come, and what its journal holds, stay as they are.
fn tell<G: Ground>(
    alloc: Global,
    follower: &mut Follower<G>,
    line: &ReportLine,
) -> Result<(), Unsent>
    ensures tells { Tells result line.now (G.told follower.old.press.device) (G.told follower.new.press.device) }
    ensures core { follower.new.core ≡ follower.old.core }
    ensures gathering { follower.new.gathering ≡ follower.old.gathering }
    ensures rests { (journal : Journal) (content : Content) → Rests journal follower.old.press.layout (G.told follower.old.press.device) content → Rests journal follower.new.press.layout (G.told follower.new.press.device) content }
    ensures any_moment { (journal : Journal) (content : Content) → Rests journal follower.old.press.layout (G.told follower.old.press.device) content → Throughout journal content (G.told follower.old.press.device) (G.told follower.new.press.device) }
    ensures size { G.size follower.new.press.device ≡ G.size follower.old.press.device }
    ensures disk { G.disk_faults follower.new.press.device ≡ G.disk_faults follower.old.press.device }
    ensures cause { HasCause (G.emit_faults follower.old.press.device) (G.emit_faults follower.new.press.device) (IsErrOf result Unsent.Lost) }
    ensures uncounted { OnOk result (G.emit_faults follower.new.press.device ≡ G.emit_faults follower.old.press.device) }
{
    let bytes = Items::of(write_report(alloc, line)?);
    let send = Send {
        peer: Peer::console(),
        bytes,
    };
    let sends = [send];
    let emits = follower.emit_all(&sends);
    if emits.lost > 0 {
        return Err(Unsent::Lost);
    }
    Ok(())
}

// Takes a packet. An `Err` gives the ground back.
fn take_packet<G: Ground>(
    alloc: Global,
    follower: Follower<G>,
    packet: &PacketLine,
) -> Result<(Follower<G>, Took), (G, Status)>
    ensures table { IfOk result (λ taken. Takes (following_of follower) packet.now.packet taken.1 (following_of taken.0)) }
    ensures site { IfOk result (λ taken. taken.0.core.site ≡ follower.core.site) }
    ensures broken { IfErr result (λ lost. BreaksOff (following_of follower) packet.now.packet lost.1 (G.told follower.press.device) (G.told lost.0)) }
    ensures holds { (journal : Journal) (before after : List Happening) → HoldsHistory journal follower.core.site before follower.press.layout (G.told follower.press.device)
        → Represents follower.core before → MayBe follower.core.site before → MayBe follower.core.site after
        → IfOk result (λ taken. LeadsOn (following_of follower) packet.now.packet taken.1 (following_of taken.0) before after
        → HoldsHistory journal follower.core.site after taken.0.press.layout (G.told taken.0.press.device)) }
    ensures keeps { (journal : Journal) (before after : List Happening) → HoldsHistory journal follower.core.site before follower.press.layout (G.told follower.press.device)
        → Represents follower.core before → MayBe follower.core.site before → MayBe follower.core.site after
        → IfOk result (λ taken. LeadsOn (following_of follower) packet.now.packet taken.1 (following_of taken.0) before after
        → Commits journal follower.core.site before after (G.told follower.press.device) (G.told taken.0.press.device)) }
    ensures breaks { (journal : Journal) (before after : List Happening) → HoldsHistory journal follower.core.site before follower.press.layout (G.told follower.press.device)
        → Represents follower.core before → MayBe follower.core.site before → MayBe follower.core.site after → MayLeadOn (following_of follower) packet.now.packet before after
        → IfErr result (λ lost. Commits journal follower.core.site before after (G.told follower.press.device) (G.told lost.0)) }
    ensures quiet { MatchResult result
        (λ taken. Emits (G.told follower.press.device) (G.told taken.0.press.device) [])
        (λ lost. Emits (G.told follower.press.device) (G.told lost.0) []) }
    ensures fault { IfErr result (λ lost. IsKeepFault lost.1) }
    ensures cause { MatchResult result
        (λ taken. G.disk_faults taken.0.press.device ≡ G.disk_faults follower.press.device)
        (λ lost. HasCause (G.disk_faults follower.press.device) (G.disk_faults lost.0) (lost.1 ≡ Status.DiskFault)) }
    ensures unhidden { IfErr result (λ lost. lost.1 ≢ Status.DiskFault → G.disk_faults lost.0 ≡ G.disk_faults follower.press.device) }
    ensures size { MatchResult result
        (λ taken. G.size taken.0.press.device ≡ G.size follower.press.device)
        (λ lost. G.size lost.0 ≡ G.size follower.press.device) }
    ensures emitted { MatchResult result
        (λ taken. G.emit_faults taken.0.press.device ≡ G.emit_faults follower.press.device)
        (λ lost. G.emit_faults lost.0 ≡ G.emit_faults follower.press.device) }
{
    match follower.take(alloc, packet.packet.as_slice()) {
        Ok(taken) => Ok(taken),
        Err(TakeFault::NoMemory { follower }) => Err((ground_of(follower), Status::NoMemory)),
        Err(TakeFault::DiskFault { device }) => Err((device, Status::DiskFault)),
    }
}

// What is so of the site of each core, and of snapshots. The call does nothing.
fn knows_site(core: &Core)
    ensures site { IsSite core.now.site }
    ensures fits { FitsSite core.now.site }
    ensures spelling { OneSnapshot }
    ensures low { BoundsAreLow }
{
    site_fits(core.site());
    snapshots_have_one_spelling();
    bounds_are_low();
}

/// Follows the packets of a script, from what a core and its press hold on: each line that isn't skipped gives one line of the
/// report, and what its packet brings is on the disk before that line is emitted. The ground comes back.
pub fn follow_packets<T: Source, G: Ground>(
    alloc: Global,
    site: &Site,
    press: Press<G>,
    core: Core,
    script: &mut T,
) -> (G, Result<(), Status>)
    requires site { core.site ≡ site.now }
    requires areas { HasRoomyAreas site.now press.layout }

    // What went out: the table's lines over the packets, or a front of them, as the status says.
    ensures ends { IfSome (still (T.left script.old) (T.left script.new)) (λ text. Follows Emits (status_of result.1) core text (G.told press.device) (G.told result.0)) }

    // Of whoever sent these packets: at each moment, what a crash may leave stands for a history to which the leader's goes
    // back, or which goes on from the one before, at least as long as each number that was acknowledged by then.
    ensures keeps { (journal : Journal) (sender : Sender) (begun : List Happening) → Represents core begun → HoldsHistory journal core.site begun press.layout (G.told press.device)
        → IfSome (still (T.left script.old) (T.left script.new)) (λ text. IsSent core.site sender begun text
        → KeepsAlong (LeavesFollower journal core.site sender begun) (G.told press.device) (G.told result.0)) }
    ensures to_end { OnOk result.1 (IsAtEnd (T.left script.new)) }
    ensures accepted { OnOk result.1 (IfSome (still (T.left script.old) (T.left script.new)) (λ text. refused_line packet_says text ≡ None)) }
    ensures refused { (line : ℕ) → result.1 ≡ Err (Status.ScriptRefused line) →
        IfSome (still (T.left script.old) (T.left script.new)) (λ text. refused_line packet_says text ≡ Some line) }
    ensures stops { result.1 ≡ Err Status.ReadFault → WhereTold (T.left script.old) (T.left script.new)
        (λ text rest. StopsFollowing Emits core text rest (G.told press.device) (G.told result.0)) }
    ensures fault { IfErr result.1 IsPlayFault }
    ensures size { G.size result.0 ≡ G.size press.device }
    ensures read_cause { HasCause (T.faults script.old) (T.faults script.new) (IsErrOf result.1 Status.ReadFault) }
    ensures disk_cause { HasCause (G.disk_faults press.device) (G.disk_faults result.0) (IsErrOf result.1 Status.DiskFault) }
    ensures unhidden { IfErr result.1 (λ fault. fault ≢ Status.DiskFault → G.disk_faults result.0 ≡ G.disk_faults press.device) }
    ensures emit_cause { HasCause (G.emit_faults press.device) (G.emit_faults result.0) (IsErrOf result.1 Status.EmitFault) }

    // No call has failed of one that followed its script to the end: none was made again and passed over.
    ensures no_fault { OnOk result.1 ((T.faults script.new ≡ T.faults script.old) × ((G.disk_faults result.0 ≡ G.disk_faults press.device) × (G.emit_faults result.0 ≡ G.emit_faults press.device))) }
{
    knows_site(&core);
    let mut follower = Follower::open(site, press, core);
    let mut lines = match Lines::packets(alloc) {
        Ok(lines) => lines,
        Err(_refused) => return (ground_of(follower), Err(Status::NoMemory)),
    };
    let events = follower.events();
    if let Err(unsent) = tell(alloc, &mut follower, &ReportLine::Open { events }) {
        return (ground_of(follower), Err(Status::from(unsent)));
    }
    loop {
        let packet = match lines.next_packet(script) {
            Ok(Some(packet)) => packet,
            Ok(None) => break,
            Err(fault) => return (ground_of(follower), Err(Status::from(fault))),
        };
        let (next, took) = match take_packet(alloc, follower, &packet) {
            Ok(taken) => taken,
            Err((device, status)) => return (device, Err(status)),
        };
        follower = next;
        if let Err(unsent) = tell(alloc, &mut follower, &line_of(packet.number, took)) {
            return (ground_of(follower), Err(Status::from(unsent)));
        }
    }
    let (lines, events) = (lines.count(), follower.events());
    match tell(alloc, &mut follower, &ReportLine::End { lines, events }) {
        Ok(()) => (ground_of(follower), Ok(())),
        Err(unsent) => (ground_of(follower), Err(Status::from(unsent))),
    }
}
