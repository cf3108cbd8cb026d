//! Sessions, each decision and each event made again where memory was refused.

ghost use Rattle.std.specs.Prelude.{◌≡◌, IfOk};
ghost use Rattle.bac_values.specs.Moments.{IsMoment};
ghost use Rattle.alarm_core.specs.Allowed.{IsAllowed};
ghost use Rattle.alarm_core.specs.Sites.{IsSite};
ghost use Rattle.alarm_core.specs.State.{CoreState};
ghost use Rattle.service_desk.specs.Decisions.{EntersAllowed};
ghost use Rattle.state_codec.specs.Records.{HasRecord};

use crate::missed::Missed;
use crate::records::{say_record, say_state};
use crate::report::{Text, say_report};
use crate::script::{Script, lines_of, next_line};
use alarm_core::{Core, Event, Outcome, Site, StepFault};
use bac_values::{FIRST_MOMENT, LAST_MOMENT, ReportLine, Send};
use script_lines::Line;
use service_desk::{Decision, decide};
use state_codec::allowed_event_has_record;
use std::alloc::Global;

// How many lines a script has at most.
const MOST_LINES: u32 = 100;

fn started(alloc: Global, site: &Site) -> Result<Core, Missed>
    requires site { IsSite site.now }
    ensures site { IfOk result (λ core. core.site ≡ site.now) }
{
    match Core::start(alloc, site) {
        Ok(core) => Ok(core),
        Err(_) => Ok(Core::start(alloc, site)?),
    }
}

fn decided(alloc: Global, core: &Core, line: &Line) -> Result<Decision, Missed>
    requires moment { IsMoment line.now.moment }
    ensures allowed { IfOk result (EntersAllowed core.now line.now.moment) }
{
    match decide(alloc, core, &line.input, line.moment) {
        Ok(decision) => Ok(decision),
        Err(_) => Ok(decide(alloc, core, &line.input, line.moment)?),
    }
}

// The core takes an event, in two tries.
fn stepped(alloc: Global, core: &mut Core, event: &Event) -> Result<Outcome, StepFault>
    requires moment { IsMoment event.now.moment }
    requires allowed { IsAllowed core.old event.now.act }
{
    match core.take(alloc, event) {
        Err(StepFault::NoMemory) => core.take(alloc, event),
        answer => answer,
    }
}

// The event has a record.
fn recorded(event: Event) -> Event
    requires range { IsMoment event.moment }
    requires allowed { (state : CoreState) × IsAllowed state event.act }
    ensures same { result ≡ event }
    ensures record { HasRecord result }
{
    allowed_event_has_record(&event);
    event
}

fn say_sends(alloc: Global, text: &mut Text, number: u64, sends: Vec<Send>) -> Result<(), Missed> {
    for send in sends {
        say_report(alloc, text, &ReportLine::Sent { line: number, send })?;
    }
    Ok(())
}

fn say_reply(
    alloc: Global,
    text: &mut Text,
    number: u64,
    reply: Option<Send>,
) -> Result<(), Missed> {
    match reply {
        Some(send) => say_report(alloc, text, &ReportLine::Sent { line: number, send }),
        None => Ok(()),
    }
}

// What an event did.
fn say_outcome(
    alloc: Global,
    text: &mut Text,
    number: u64,
    event: u64,
    outcome: Outcome,
) -> Result<(), Missed> {
    let moment = outcome.moment;
    say_report(
        alloc,
        text,
        &ReportLine::Entered {
            line: number,
            event,
            moment,
        },
    )?;
    for moved in outcome.moves.as_slice() {
        say_report(
            alloc,
            text,
            &ReportLine::Change {
                line: number,
                moved: *moved,
            },
        )?;
    }
    say_sends(alloc, text, number, outcome.sends.into_vec())
}

// The core takes an event, and the text tells of it. Its answer is whether it was taken.
fn enter(
    alloc: Global,
    core: &mut Core,
    number: u64,
    event: &Event,
    text: &mut Text,
) -> Result<bool, Missed>
    requires moment { IsMoment event.now.moment }
    requires allowed { IsAllowed core.old event.now.act }
{
    match stepped(alloc, core, event) {
        Ok(outcome) => {
            say_outcome(alloc, text, number, core.events(), outcome)?;
            Ok(true)
        }
        Err(StepFault::Full { would, limit }) => {
            say_report(
                alloc,
                text,
                &ReportLine::Full {
                    line: number,
                    would,
                    limit,
                },
            )?;
            Ok(false)
        }
        Err(StepFault::NoMemory) => Err(Missed::Twice),
    }
}

// An event that has a record is entered, with the answer that it gets, and its record told.
fn play_recorded(
    alloc: Global,
    core: &mut Core,
    number: u64,
    event: &Event,
    answers: (Option<Send>, Option<Send>),
    text: &mut Text,
) -> Result<(), Missed>
    requires moment { IsMoment event.now.moment }
    requires allowed { IsAllowed core.old event.now.act }
    requires record { HasRecord event.now }
{
    let (reply, full) = answers;
    if enter(alloc, core, number, event, text)? {
        say_reply(alloc, text, number, reply)?;
        say_record(alloc, text, event)
    } else {
        say_reply(alloc, text, number, full)
    }
}

// An event is entered, with the answer that it gets, and its record told.
fn play_event(
    alloc: Global,
    core: &mut Core,
    number: u64,
    event: Event,
    answers: (Option<Send>, Option<Send>),
    text: &mut Text,
) -> Result<(), Missed>
    requires moment { IsMoment event.moment }
    requires allowed { IsAllowed core.old event.act }
{
    let event = recorded(event);
    let played = play_recorded(alloc, core, number, &event, answers, text);
    drop(event);
    played
}

// A line, as a session tells of it.
fn play_line(alloc: Global, core: &mut Core, line: &Line, text: &mut Text) -> Result<(), Missed>
    requires moment { IsMoment line.now.moment }
{
    let number = line.number;
    match decided(alloc, core, line)? {
        Decision::Ignore => say_report(alloc, text, &ReportLine::Ignored { line: number }),
        Decision::Idle => say_report(alloc, text, &ReportLine::Idle { line: number }),
        Decision::Refuse { why } => say_report(
            alloc,
            text,
            &ReportLine::Refused { line: number, why },
        ),
        Decision::Reply { send } => {
            say_report(alloc, text, &ReportLine::Reply { line: number })?;
            say_reply(alloc, text, number, Some(send))
        }
        Decision::Enter { event, reply, full } => {
            play_event(alloc, core, number, event, (reply, full), text)
        }
    }
}

// The lines of a script.
fn play_lines(
    alloc: Global,
    core: &mut Core,
    script: &[u8],
    text: &mut Text,
) -> Result<(), Missed> {
    let mut lines = lines_of(alloc)?;
    let mut script = Script::of(script);
    for _ in 0..MOST_LINES {
        let Some(line) = next_line(&mut lines, &mut script)? else {
            return Ok(());
        };
        if line.moment < FIRST_MOMENT || line.moment > LAST_MOMENT {
            return Err(Missed::Other);
        }
        play_line(alloc, core, &line, text)?;
    }
    Err(Missed::Other)
}

// The report of the lines that a core takes, and the snapshot at the end. The core is only borrowed: what owns one, and has a
// `?` behind it, is dear to prove.
fn told(alloc: Global, core: &mut Core, site: &Site, script: &[u8]) -> Result<Text, Missed>
    requires site { IsSite site.now }
{
    let mut text = Vec::new(alloc);
    play_lines(alloc, core, script, &mut text)?;
    say_state(alloc, &mut text, site, core)?;
    Ok(text)
}

/// The report of a session, from the site's start on, with the record of each event behind its line, and the snapshot at the
/// end.
pub(crate) fn played(alloc: Global, site: &Site, script: &[u8]) -> Result<Text, Missed>
    requires site { IsSite site.now }
{
    let mut core = started(alloc, site)?;
    let text = told(alloc, &mut core, site, script);
    drop(core);
    text
}
