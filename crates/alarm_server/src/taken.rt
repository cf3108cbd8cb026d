//! One line of a session is taken: what it comes to, and the piece of the report that tells of it.

ghost use Rattle.std.specs.Prelude.{◌≡◌, ◌<◌, ◌^◌, ◌∷◌, ◌++◌, [], List, None, max, IfOk, IfSome, OnErr, OnOk, map};
ghost use Rattle.bac_values.specs.Moments.{IsMoment};
ghost use Rattle.state_codec.specs.Records.{HasRecord};
ghost use Rattle.alarm_core.specs.declared.event.Event.{Event as Happening};
ghost use Rattle.alarm_core.specs.Allowed.{IsAllowed, Represents};
ghost use Rattle.service_desk.specs.Answers.{answer_of, event_of, if_owed, state_behind};
ghost use Rattle.alarm_server.specs.Report.{history_by, history_with};
ghost use Rattle.alarm_server.specs.Sessions.{state_with};
ghost use Rattle.alarm_server.specs.Pieces.{answer_for, piece_by, piece_of, send_line};

use alarm_core::{Core, Event, Outcome, StepFault};
use bac_values::{Moved, NoMemory, ReportLine, Send, push, single};
use script_lines::Line;
use service_desk::{Decision, decide};
use state_codec::event_to_record;
use std::alloc::Global;

/// A line that was taken.
#[derive(Drop)]
pub struct Taken {
    /// The piece that the report has of it.
    pub piece: Vec<ReportLine>,
    /// The event that it entered, if it did.
    pub event: Option<Event>,
}

// The lines of a piece that tell of changes of event states.
fn add_changes(piece: &mut Vec<ReportLine>, number: u64, moves: &[Moved]) -> Result<(), NoMemory>
    ensures changes { OnOk result (piece.new.items ≡ piece.old.items ++ map (λ moved. ReportLine.Change number moved) moves.now) }
{
    for moved in moves {
        let line = ReportLine::Change {
            line: number,
            moved: *moved,
        };
        push(piece, line)?;
    }
    Ok(())
}

// The lines of a piece that tell of what is sent.
fn add_sends(piece: &mut Vec<ReportLine>, number: u64, sends: Vec<Send>) -> Result<(), NoMemory>
    ensures sends { OnOk result (piece.new.items ≡ piece.old.items ++ map (send_line number) sends.items) }
{
    for send in sends {
        push(piece, ReportLine::Sent { line: number, send })?;
    }
    Ok(())
}

fn add_reply(piece: &mut Vec<ReportLine>, number: u64, reply: Option<Send>) -> Result<(), NoMemory>
    ensures reply { OnOk result (piece.new.items ≡ piece.old.items ++ map (send_line number) (if_owed reply)) }
{
    match reply {
        Some(send) => push(piece, ReportLine::Sent { line: number, send }),
        None => Ok(()),
    }
}

// The piece of a line whose event's notifications don't fit the outbox.
fn full_piece(
    alloc: Global,
    number: u64,
    would: u32,
    limit: u32,
    full: Option<Send>,
) -> Result<Vec<ReportLine>, NoMemory>
    ensures piece { IfOk result (λ piece. piece.items ≡ ReportLine.Full number would limit ∷ map (send_line number) (if_owed full)) }
{
    let line = ReportLine::Full {
        line: number,
        would,
        limit,
    };
    let mut piece = single(alloc, line)?;
    add_reply(&mut piece, number, full)?;
    Ok(piece)
}

// The piece of a line whose event was entered, and has that number.
fn entered_piece(
    alloc: Global,
    number: u64,
    event: u64,
    outcome: Outcome,
    reply: Option<Send>,
) -> Result<Vec<ReportLine>, NoMemory>
    ensures piece { IfOk result (λ piece. piece.items ≡ (((ReportLine.Entered number event outcome.moment ∷ []) ++ map (λ moved. ReportLine.Change number moved) outcome.moves) ++ map (send_line number) outcome.sends) ++ map (send_line number) (if_owed reply)) }
{
    let entered = ReportLine::Entered {
        line: number,
        event,
        moment: outcome.moment,
    };
    let mut piece = single(alloc, entered)?;
    add_changes(&mut piece, number, outcome.moves.as_slice())?;
    add_sends(&mut piece, number, outcome.sends.into_vec())?;
    add_reply(&mut piece, number, reply)?;
    Ok(piece)
}

// Enters an event, and gives the piece of its line.
fn enter(
    alloc: Global,
    core: &mut Core,
    number: u64,
    event: Event,
    reply: Option<Send>,
    full: Option<Send>,
) -> Result<Taken, NoMemory>
    requires moment { IsMoment event.moment }
    requires allowed { IsAllowed core.old event.act }
    ensures state { OnOk result (core.new ≡ state_behind core.old (answer_of core.old (Decision.Enter event reply full))) }
    ensures represents { (history : List Happening) → Represents core.old history → OnOk result (Represents core.new (history_by history (event_of (answer_of core.old (Decision.Enter event reply full))))) }
    ensures piece { IfOk result (λ taken. taken.piece.items ≡ piece_by number core.old (answer_of core.old (Decision.Enter event reply full))) }
    ensures event { IfOk result (λ taken. taken.event ≡ event_of (answer_of core.old (Decision.Enter event reply full))) }
    ensures record { IfOk result (λ taken. IfSome taken.event HasRecord) }
{
    let outcome = match core.take(alloc, &event) {
        Ok(outcome) => outcome,
        Err(StepFault::Full { would, limit }) => {
            let piece = full_piece(alloc, number, would, limit, full)?;
            let event = None;
            return Ok(Taken { piece, event });
        }
        Err(StepFault::NoMemory) => return Err(NoMemory),
    };
    let piece = entered_piece(alloc, number, core.events(), outcome, reply)?;
    let event = Some(event_to_record(core, event));
    Ok(Taken { piece, event })
}

// The piece of a line that is answered without an event.
fn replied(alloc: Global, number: u64, send: Send) -> Result<Vec<ReportLine>, NoMemory>
    ensures piece { IfOk result (λ piece. piece.items ≡ ReportLine.Reply number ∷ (ReportLine.Sent number send ∷ [])) }
{
    let mut piece = single(alloc, ReportLine::Reply { line: number })?;
    push(&mut piece, ReportLine::Sent { line: number, send })?;
    Ok(piece)
}

/// Takes a line, and gives its piece, with the event that it is, if it is one.
pub fn take(alloc: Global, core: &mut Core, line: &Line) -> Result<Taken, NoMemory>
    requires moment { IsMoment line.now.moment }
    ensures state { OnOk result (core.new ≡ state_with core.old line.now) }
    ensures represents { (history : List Happening) → Represents core.old history → OnOk result (Represents core.new (history_with core.old.site history line.now)) }
    ensures piece { IfOk result (λ taken. taken.piece.items ≡ piece_of core.old line.now) }
    ensures event { IfOk result (λ taken. taken.event ≡ event_of (answer_for core.old line.now)) }
    ensures record { IfOk result (λ taken. IfSome taken.event HasRecord) }
{
    let number = line.number;
    let piece = match decide(alloc, core, &line.input, line.moment)? {
        Decision::Ignore => single(alloc, ReportLine::Ignored { line: number })?,
        Decision::Idle => single(alloc, ReportLine::Idle { line: number })?,
        Decision::Refuse { why } => single(alloc, ReportLine::Refused { line: number, why })?,
        Decision::Reply { send } => replied(alloc, number, send)?,
        Decision::Enter { event, reply, full } => {
            return enter(alloc, core, number, event, reply, full);
        }
    };
    let event = None;
    Ok(Taken { piece, event })
}
