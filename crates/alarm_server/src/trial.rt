//! A trial, line by line.

ghost use Rattle.std.specs.Prelude.{◌≡◌, ◌≤◌, ℕ, List, ◌∷◌, map, None, OnOk, IfErr, IfSome, IsErrOf};
ghost use Rattle.std.specs.Option.{option_to_list};
ghost use Rattle.event_machine.specs.Given.{moves_in};
ghost use Rattle.script_lines.specs.declared.line.Grammar.TheVariants.{Trial};
ghost use Rattle.script_lines.specs.Report.{report_text};
ghost use Rattle.alarm_server.specs.Stopping.{StopsReading};
ghost use Rattle.std.specs.Io.KnownBytes.{IsAtEnd};
ghost use Rattle.ground_io.specs.Counts.{HasCause};
ghost use Rattle.ground_io.specs.Trace.{Adds, WhereTold, still};
ghost use Rattle.script_lines.specs.Line.{IsTrialLine, line_says};
ghost use Rattle.script_lines.specs.Script.{lines_of};
ghost use Rattle.bac_values.specs.Moments.{IsMoment};
ghost use Rattle.bac_values.specs.declared.value.Value.TheVariants.{Signed};
ghost use Rattle.event_machine.specs.Points.{Incident, Looked, Point};
ghost use Rattle.alarm_server.specs.Looks.{looks_after, point_at};
ghost use Rattle.alarm_server.specs.Emission.{Sends, Ends};
ghost use Rattle.alarm_server.specs.Faults.{IsTrialFault};
ghost use Rattle.alarm_server.specs.Status.{status_of};
ghost use Rattle.alarm_server.specs.Script.{refused_line};
ghost use Rattle.alarm_server.specs.Trial.{SendsTransitions, front_transitions, move_line, newest_moves, report_over};
ghost use Rattle.alarm_server.specs.Watched.{HasSeen};

use crate::emission::{Unsent, emit};
use crate::settings::Settings;
use crate::status::Status;
use crate::watch::Watch;
use bac_values::{Input, ReportLine, Value};
use event_machine::{Changed, Move};
use ground_io::{Ground, Source};
use script_lines::{Line, Lines};
use std::alloc::Global;

// Emits the line of a move, if there is one.
fn emit_move<G: Ground>(
    alloc: Global,
    device: &mut G,
    moment: u64,
    moved: Option<Move>,
) -> Result<(), Unsent>
    ensures sends { Sends Adds report_text result (map (move_line moment) (option_to_list moved)) (G.told device.old) (G.told device.new) }
    ensures size { G.size device.new ≡ G.size device.old }
    ensures disk { G.disk_faults device.new ≡ G.disk_faults device.old }
    ensures cause { HasCause (G.emit_faults device.old) (G.emit_faults device.new) (IsErrOf result Unsent.Lost) }
    ensures uncounted { OnOk result (G.emit_faults device.new ≡ G.emit_faults device.old) }
{
    let Some(moved) = moved else {
        return Ok(());
    };
    let line = ReportLine::TrialMove {
        moment,
        from: moved.from,
        to: moved.to,
    };
    emit(alloc, device, &line)
}

// Emits the lines of the moves at one point.
fn emit_moves<G: Ground>(
    alloc: Global,
    device: &mut G,
    moment: u64,
    changed: Changed,
) -> Result<(), Unsent>
    ensures sends { Sends Adds report_text result (map (move_line moment) (moves_in changed)) (G.told device.old) (G.told device.new) }
    ensures size { G.size device.new ≡ G.size device.old }
    ensures disk { G.disk_faults device.new ≡ G.disk_faults device.old }
    ensures cause { HasCause (G.emit_faults device.old) (G.emit_faults device.new) (IsErrOf result Unsent.Lost) }
    ensures uncounted { OnOk result (G.emit_faults device.new ≡ G.emit_faults device.old) }
{
    emit_move(alloc, device, moment, changed.first)?;
    emit_move(alloc, device, moment, changed.second)
}

// Looks at the object once more, at a moment that isn't before its last one, and emits the lines of its moves.
fn look_at<G: Ground>(
    alloc: Global,
    device: &mut G,
    watch: &mut Watch,
    moment: u64,
    value: i32,
) -> Result<(), Unsent>
    requires range { IsMoment moment }
    requires not_before { watch.old.moment ≤ moment }
    ensures settings { watch.new.settings ≡ watch.old.settings }
    ensures moment { watch.new.moment ≡ moment }
    ensures seen { (first : Point) (later : List Incident) → HasSeen first later watch.old →
        HasSeen first (Looked (point_at watch.old.settings moment (Signed value)) ∷ later) watch.new }
    ensures sends { (first : Point) (later : List Incident) → HasSeen first later watch.old →
        Sends Adds report_text result (newest_moves first (Looked (point_at watch.old.settings moment (Signed value)) ∷ later)) (G.told device.old) (G.told device.new) }
    ensures size { G.size device.new ≡ G.size device.old }
    ensures disk { G.disk_faults device.new ≡ G.disk_faults device.old }
    ensures cause { HasCause (G.emit_faults device.old) (G.emit_faults device.new) (IsErrOf result Unsent.Lost) }
    ensures uncounted { OnOk result (G.emit_faults device.new ≡ G.emit_faults device.old) }
{
    let changed = watch.look(moment, value);
    emit_moves(alloc, device, moment, changed)
}

// Takes the event of a line: a tick is one look, a write two.
fn take<G: Ground>(
    alloc: Global,
    device: &mut G,
    watch: &mut Watch,
    line: Line,
) -> Result<(), Unsent>
    requires { IsTrialLine line }
    ensures seen { (first : Point) (later : List Incident) → HasSeen first later watch.old →
        OnOk result (HasSeen first (looks_after line.moment line.input first later) watch.new) }
    ensures sends { (first : Point) (later : List Incident) → HasSeen first later watch.old →
        SendsTransitions Adds result first later (looks_after line.moment line.input first later) (G.told device.old) (G.told device.new) }
    ensures size { G.size device.new ≡ G.size device.old }
    ensures disk { G.disk_faults device.new ≡ G.disk_faults device.old }
    ensures cause { HasCause (G.emit_faults device.old) (G.emit_faults device.new) (IsErrOf result Unsent.Lost) }
    ensures uncounted { OnOk result (G.emit_faults device.new ≡ G.emit_faults device.old) }
{
    let moment = line.moment.max(watch.moment());
    let last = watch.value();
    look_at(alloc, device, watch, moment, last)?;
    let Input::Set { value, .. } = &line.input else {
        return Ok(());
    };
    let Value::Signed(number) = value else {
        return Ok(());
    };
    look_at(alloc, device, watch, moment, *number)
}

/// Plays a script to an object with these settings: each line is one event, and each move gives one line of the report.
pub fn play<T: Source, G: Ground>(
    alloc: Global,
    settings: Settings,
    script: &mut T,
    device: &mut G,
) -> Result<(), Status>
    ensures ends { IfSome (still (T.left script.old) (T.left script.new)) (λ text.
        Ends Adds report_text (status_of result) (report_over settings (lines_of text)) (G.told device.old) (G.told device.new)) }
    ensures to_end { OnOk result (IsAtEnd (T.left script.new)) }
    ensures accepted { OnOk result (IfSome (still (T.left script.old) (T.left script.new)) (λ text. refused_line (line_says Trial) text ≡ None)) }
    ensures refused { (line : ℕ) → result ≡ Err (Status.ScriptRefused line) →
        IfSome (still (T.left script.old) (T.left script.new)) (λ text. refused_line (line_says Trial) text ≡ Some line) }
    ensures stops { result ≡ Err Status.ReadFault → WhereTold (T.left script.old) (T.left script.new)
        (λ text rest. StopsReading Adds report_text (front_transitions settings) (line_says Trial) text rest (G.told device.old) (G.told device.new)) }
    ensures fault { IfErr result IsTrialFault }
    ensures size { G.size device.new ≡ G.size device.old }
    ensures disk { G.disk_faults device.new ≡ G.disk_faults device.old }
    ensures read_cause { HasCause (T.faults script.old) (T.faults script.new) (IsErrOf result Status.ReadFault) }
    ensures emit_cause { HasCause (G.emit_faults device.old) (G.emit_faults device.new) (IsErrOf result Status.EmitFault) }
    ensures no_fault { OnOk result ((T.faults script.new ≡ T.faults script.old) × (G.emit_faults device.new ≡ G.emit_faults device.old)) }
{
    let mut lines = Lines::trial(alloc)?;
    let mut watch = Watch::start(settings);
    while let Some(line) = lines.next_line(script)? {
        take(alloc, device, &mut watch, line)?;
    }
    let end = ReportLine::TrialEnd {
        lines: lines.count(),
    };
    emit(alloc, device, &end)?;
    Ok(())
}
