//! A session, line by line: each event is kept in the journal before its piece goes out.

ghost use Rattle.std.specs.Prelude.{◌≡◌, ◌≢◌, ℕ, ◌≤◌, ◌∷◌, [], List, None, IfErr, IfOk, IfSome, IsErrOf, MatchResult, OnOk};
ghost use Rattle.std.specs.Io.KnownBytes.{IsAtEnd};
ghost use Rattle.bac_values.specs.Moments.{IsMoment};
ghost use Rattle.ground_io.specs.Counts.{HasCause};
ghost use Rattle.ground_io.specs.Trace.{Adds, WhereTold, still};
ghost use Rattle.script_lines.specs.declared.line.Grammar.TheVariants.{Session};
ghost use Rattle.script_lines.specs.Line.{line_says};
ghost use Rattle.script_lines.specs.Script.{lines_of};
ghost use Rattle.alarm_journal.specs.Journal.{Content};
ghost use Rattle.alarm_journal.specs.Journal.{Site as Journal};
ghost use Rattle.alarm_journal.specs.Press.{Throughout};
ghost use Rattle.state_codec.specs.Records.{HasRecord};
ghost use Rattle.alarm_core.specs.declared.event.Event.{Event as Happening};
ghost use Rattle.alarm_core.specs.Allowed.{Represents};
ghost use Rattle.service_desk.specs.Answers.{event_of};
ghost use Rattle.state_codec.specs.Keeping.{Commits, HoldsHistory, Rests};
ghost use Rattle.alarm_server.specs.Keeping.{KeepsLines, KeepsReport};
ghost use Rattle.alarm_server.specs.Report.{history_by, history_with};
ghost use Rattle.state_codec.specs.Emission.{Emits};
ghost use Rattle.alarm_server.specs.Emission.{Ends, Sends, sent};
ghost use Rattle.alarm_server.specs.Script.{refused_line, spelled_in};
ghost use Rattle.alarm_server.specs.Sessions.{session_over, state_front, state_over, state_with};
ghost use Rattle.alarm_server.specs.Pieces.{answer_for, end_piece, open_piece, piece_of, piece_text};
ghost use Rattle.alarm_server.specs.Status.{IsKeepFault, IsLineFault, IsPlayFault, status_of};
ghost use Rattle.alarm_server.specs.Stopping.{StopsReading};
ghost use Rattle.alarm_server.specs.Tallies.{tally_of, tally_with};

use crate::emission::Unsent;
use crate::pieces::emit_piece;
use crate::status::Status;
use crate::taken::{Taken, take};
use crate::tally::Tally;
use alarm_core::{Core, Event};
use alarm_journal::Press;
use bac_values::{NoMemory, ReportLine, single};
use ground_io::{Ground, Source};
use script_lines::{Line, Lines};
use state_codec::keep_event;
use std::alloc::Global;

// Commits what a line entered, if it entered anything.
fn keep<G: Ground>(
    alloc: Global,
    press: Press<G>,
    core: &Core,
    event: &Option<Event>,
) -> Result<Press<G>, (G, Status)>
    requires record { IfSome event.now HasRecord }
    ensures holds { (journal : Journal) (older : List Happening) → Represents core.now (history_by older event.now) → HoldsHistory journal core.now.site older press.layout (G.told press.device)
        → IfOk result (λ kept. HoldsHistory journal core.now.site (history_by older event.now) kept.layout (G.told kept.device)) }
    ensures keeps { (journal : Journal) (older : List Happening) → Represents core.now (history_by older event.now) → HoldsHistory journal core.now.site older press.layout (G.told press.device)
        → MatchResult result
        (λ kept. Commits journal core.now.site older (history_by older event.now) (G.told press.device) (G.told kept.device))
        (λ lost. Commits journal core.now.site older (history_by older event.now) (G.told press.device) (G.told lost.0)) }
    ensures quiet { MatchResult result (λ kept. Emits (G.told press.device) (G.told kept.device) []) (λ lost. Emits (G.told press.device) (G.told lost.0) []) }
    ensures fault { IfErr result (λ lost. IsKeepFault lost.1) }
    ensures cause { MatchResult result
        (λ kept. G.disk_faults kept.device ≡ G.disk_faults press.device)
        (λ lost. HasCause (G.disk_faults press.device) (G.disk_faults lost.0) (lost.1 ≡ Status.DiskFault)) }
    ensures unhidden { IfErr result (λ lost. lost.1 ≢ Status.DiskFault → G.disk_faults lost.0 ≡ G.disk_faults press.device) }
    ensures same { MatchResult result (λ kept. G.size kept.device ≡ G.size press.device) (λ lost. G.size lost.0 ≡ G.size press.device) }
    ensures emitted { MatchResult result (λ kept. G.emit_faults kept.device ≡ G.emit_faults press.device) (λ lost. G.emit_faults lost.0 ≡ G.emit_faults press.device) }
{
    match event {
        Some(event) => match keep_event(alloc, press, core, event) {
            Ok(press) => Ok(press),
            Err((device, fault)) => Err((device, Status::from(fault))),
        },
        None => Ok(press),
    }
}

// Takes a line, commits its event, emits its piece, and counts it. An `Err` gives the ground back.
fn play_line<G: Ground>(
    alloc: Global,
    press: Press<G>,
    core: &mut Core,
    tally: &mut Tally,
    line: &Line,
) -> Result<Press<G>, (G, Status)>
    requires moment { IsMoment line.now.moment }
    ensures state { OnOk result (core.new ≡ state_with core.old line.now) }
    ensures represents { (history : List Happening) → Represents core.old history → OnOk result (Represents core.new (history_with core.old.site history line.now)) }
    ensures site { OnOk result (core.new.site ≡ core.old.site) }
    ensures tally { OnOk result (tally.new ≡ tally_with (piece_of core.old line.now) tally.old) }

    // The piece goes out, or the line is in the way.
    ensures sends { MatchResult result
        (λ kept. Emits (G.told press.device) (G.told kept.device) (sent piece_text (piece_of core.old line.now ∷ [])))
        (λ lost. Ends Emits piece_text lost.1 (piece_of core.old line.now ∷ []) (G.told press.device) (G.told lost.0)) }

    // What the press holds stands for the history with the line, and at each moment so does what a crash may leave.
    ensures holds { (journal : Journal) (history : List Happening) → Represents core.old history → HoldsHistory journal core.old.site history press.layout (G.told press.device)
        → IfOk result (λ kept. HoldsHistory journal core.old.site (history_with core.old.site history line.now) kept.layout (G.told kept.device)) }
    ensures keeps { (journal : Journal) (history : List Happening) → Represents core.old history → HoldsHistory journal core.old.site history press.layout (G.told press.device)
        → MatchResult result
        (λ kept. KeepsLines journal core.old.site history (line.now ∷ []) 0 (G.told press.device) (G.told kept.device))
        (λ lost. KeepsLines journal core.old.site history (line.now ∷ []) 0 (G.told press.device) (G.told lost.0)) }
    ensures fault { IfErr result (λ lost. IsLineFault lost.1) }
    ensures size { MatchResult result (λ kept. G.size kept.device ≡ G.size press.device) (λ lost. G.size lost.0 ≡ G.size press.device) }
    ensures disk_cause { MatchResult result
        (λ kept. G.disk_faults kept.device ≡ G.disk_faults press.device)
        (λ lost. HasCause (G.disk_faults press.device) (G.disk_faults lost.0) (lost.1 ≡ Status.DiskFault)) }
    ensures unhidden { IfErr result (λ lost. lost.1 ≢ Status.DiskFault → G.disk_faults lost.0 ≡ G.disk_faults press.device) }
    ensures emit_cause { MatchResult result
        (λ kept. G.emit_faults kept.device ≡ G.emit_faults press.device)
        (λ lost. HasCause (G.emit_faults press.device) (G.emit_faults lost.0) (lost.1 ≡ Status.EmitFault)) }
{
    let taken = match count_line(alloc, core, tally, line) {
        Ok(taken) => taken,
        Err(NoMemory) => return Err((press.into_ground(), Status::NoMemory)),
    };
    let mut press = keep(alloc, press, core, &taken.event)?;
    match emit_piece(alloc, &mut press, taken.piece.as_slice()) {
        Ok(()) => Ok(press),
        Err(unsent) => Err((press.into_ground(), Status::from(unsent))),
    }
}

// Takes a line, and counts the lines of its piece.
fn count_line(
    alloc: Global,
    core: &mut Core,
    tally: &mut Tally,
    line: &Line,
) -> Result<Taken, NoMemory>
    requires moment { IsMoment line.now.moment }
    ensures state { OnOk result (core.new ≡ state_with core.old line.now) }
    ensures tally { OnOk result (tally.new ≡ tally_with (piece_of core.old line.now) tally.old) }
    ensures represents { (history : List Happening) → Represents core.old history → OnOk result (Represents core.new (history_with core.old.site history line.now)) }
    ensures site { OnOk result (core.new.site ≡ core.old.site) }
    ensures piece { IfOk result (λ taken. taken.piece.items ≡ piece_of core.old line.now) }
    ensures event { IfOk result (λ taken. taken.event ≡ event_of (answer_for core.old line.now)) }
    ensures record { IfOk result (λ taken. IfSome taken.event HasRecord) }
{
    let taken = take(alloc, core, line)?;
    tally.add(&taken.piece)?;
    Ok(taken)
}

// Emits the first piece.
fn begin<G: Ground>(alloc: Global, core: &Core, press: &mut Press<G>) -> Result<(), Unsent>
    ensures sends { Sends Adds piece_text result (open_piece core.now ∷ []) (G.told press.old.device) (G.told press.new.device) }
    ensures rests { (journal : Journal) (content : Content) → Rests journal press.old.layout (G.told press.old.device) content → Rests journal press.new.layout (G.told press.new.device) content }
    ensures any_moment { (journal : Journal) (content : Content) → Rests journal press.old.layout (G.told press.old.device) content → Throughout journal content (G.told press.old.device) (G.told press.new.device) }
    ensures size { G.size press.new.device ≡ G.size press.old.device }
    ensures disk { G.disk_faults press.new.device ≡ G.disk_faults press.old.device }
    ensures cause { HasCause (G.emit_faults press.old.device) (G.emit_faults press.new.device) (IsErrOf result Unsent.Lost) }
    ensures uncounted { OnOk result (G.emit_faults press.new.device ≡ G.emit_faults press.old.device) }
{
    let events = core.events();
    let piece = single(alloc, ReportLine::Open { events })?;
    emit_piece(alloc, press, piece.as_slice())
}

// Emits the last piece.
fn end<G: Ground>(
    alloc: Global,
    press: &mut Press<G>,
    lines: u64,
    core: &Core,
) -> Result<(), Unsent>
    ensures sends { Sends Adds piece_text result (end_piece lines core.now ∷ []) (G.told press.old.device) (G.told press.new.device) }
    ensures rests { (journal : Journal) (content : Content) → Rests journal press.old.layout (G.told press.old.device) content → Rests journal press.new.layout (G.told press.new.device) content }
    ensures any_moment { (journal : Journal) (content : Content) → Rests journal press.old.layout (G.told press.old.device) content → Throughout journal content (G.told press.old.device) (G.told press.new.device) }
    ensures size { G.size press.new.device ≡ G.size press.old.device }
    ensures disk { G.disk_faults press.new.device ≡ G.disk_faults press.old.device }
    ensures cause { HasCause (G.emit_faults press.old.device) (G.emit_faults press.new.device) (IsErrOf result Unsent.Lost) }
    ensures uncounted { OnOk result (G.emit_faults press.new.device ≡ G.emit_faults press.old.device) }
{
    let events = core.events();
    let piece = single(alloc, ReportLine::End { lines, events })?;
    emit_piece(alloc, press, piece.as_slice())
}

/// Plays a script to a core, from the state that it is in: each line that isn't skipped gives one piece of the report, and
/// each event is on the disk before its piece is emitted. The answer is how many lines of each kind the pieces have; the
/// ground comes back.
pub fn play_session<T: Source, G: Ground>(
    alloc: Global,
    mut press: Press<G>,
    core: &mut Core,
    script: &mut T,
) -> (G, Result<Tally, Status>)
    ensures ends { IfSome (still (T.left script.old) (T.left script.new)) (λ text.
        Ends Emits piece_text (status_of result.1) (session_over core.old (lines_of text)) (G.told press.device) (G.told result.0)) }
    ensures tally { IfOk result.1 (λ tally. IfSome (still (T.left script.old) (T.left script.new)) (λ text. tally ≡ tally_of (session_over core.old (lines_of text)))) }
    ensures state { OnOk result.1 (IfSome (still (T.left script.old) (T.left script.new)) (λ text. core.new ≡ state_over core.old (spelled_in (line_says Session) 0 (lines_of text)))) }

    // At each moment, what a crash may leave stands for the history that the press held, and the events of some lines.
    ensures keeps { (journal : Journal) (history : List Happening) → Represents core.old history → HoldsHistory journal core.old.site history press.layout (G.told press.device)
        → IfSome (still (T.left script.old) (T.left script.new)) (λ text. KeepsReport journal core.old.site history (spelled_in (line_says Session) 0 (lines_of text)) 1 (G.told press.device) (G.told result.0)) }
    ensures to_end { OnOk result.1 (IsAtEnd (T.left script.new)) }
    ensures accepted { OnOk result.1 (IfSome (still (T.left script.old) (T.left script.new)) (λ text. refused_line (line_says Session) text ≡ None)) }
    ensures refused { (line : ℕ) → result.1 ≡ Err (Status.ScriptRefused line) →
        IfSome (still (T.left script.old) (T.left script.new)) (λ text. refused_line (line_says Session) text ≡ Some line) }
    ensures stops { result.1 ≡ Err Status.ReadFault → WhereTold (T.left script.old) (T.left script.new)
        (λ text rest. StopsReading Emits piece_text (state_front core.old) (line_says Session) text rest (G.told press.device) (G.told result.0)) }
    ensures fault { IfErr result.1 IsPlayFault }
    ensures size { G.size result.0 ≡ G.size press.device }
    ensures read_cause { HasCause (T.faults script.old) (T.faults script.new) (IsErrOf result.1 Status.ReadFault) }
    ensures disk_cause { HasCause (G.disk_faults press.device) (G.disk_faults result.0) (IsErrOf result.1 Status.DiskFault) }
    ensures unhidden { IfErr result.1 (λ fault. fault ≢ Status.DiskFault → G.disk_faults result.0 ≡ G.disk_faults press.device) }
    ensures emit_cause { HasCause (G.emit_faults press.device) (G.emit_faults result.0) (IsErrOf result.1 Status.EmitFault) }

    // No call has failed of one that was played to its end: none was made again and passed over.
    ensures no_fault { OnOk result.1 ((T.faults script.new ≡ T.faults script.old) × ((G.disk_faults result.0 ≡ G.disk_faults press.device) × (G.emit_faults result.0 ≡ G.emit_faults press.device))) }
{
    let mut lines = match Lines::new(alloc) {
        Ok(lines) => lines,
        Err(_refused) => return (press.into_ground(), Err(Status::NoMemory)),
    };
    let mut tally = Tally::new();
    if let Err(unsent) = begin(alloc, core, &mut press) {
        return (press.into_ground(), Err(Status::from(unsent)));
    }
    loop {
        let line = match lines.next_line(script) {
            Ok(Some(line)) => line,
            Ok(None) => break,
            Err(fault) => return (press.into_ground(), Err(Status::from(fault))),
        };
        press = match play_line(alloc, press, core, &mut tally, &line) {
            Ok(press) => press,
            Err((device, status)) => return (device, Err(status)),
        };
    }
    match end(alloc, &mut press, lines.count(), core) {
        Ok(()) => (press.into_ground(), Ok(tally)),
        Err(unsent) => (press.into_ground(), Err(Status::from(unsent))),
    }
}
