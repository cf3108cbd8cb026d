//! A desk and its callers, each call made again where memory was refused.

ghost use Rattle.std.specs.Prelude.{IfErr, IfOk};
ghost use Rattle.turnstile.specs.Passes.{IsOf};
ghost use Rattle.alarm_core.specs.Sites.{IsSite};
ghost use Rattle.floor_desk.specs.Moves.{IsNotOut};

use crate::missed::Missed;
use crate::report::{DISK_FAULT, Text, say};
use alarm_core::Site;
use alarm_journal::OpenFault;
use bac_values::{Input, Items, MOST_PENDING_CALLS, ObjectId, ObjectKind, Peer, Value};
use floor_desk::{CommitFault, Desk, DeskPass, EnterFault, Floor, Kind, Standing, Ticket};
use ground_io::MemoryGround;
use state_codec::need;
use std::alloc::Global;
use std::fmt::Debug;
use std::sync::Wait;

type Shared = Desk<MemoryGround>;

type Caller = DeskPass<MemoryGround>;

type Entered = Result<Ticket, EnterFault>;

type Committed = Result<u64, CommitFault>;

const START: u64 = 1_700_000_000_000;

// What the journal is to have as the site's text.
const TEXT: &[u8] = b"site";

// How many inputs are entered before one comes too soon.
const MOST_PENDING: u32 = MOST_PENDING_CALLS as u32;

// ReadProperty of the tank's present value.
const READ: [u8; 17] = [
    0x81, 0x0a, 0x00, 0x11, 0x01, 0x04, 0x00, 0x05, 0x01, 0x0c, 0x0c, 0x0b, 0x40, 0x00, 0x01, 0x19,
    0x55,
];

// What a desk answered while it was filled.
#[derive(Clone, Copy, Debug, Drop)]
struct Filled {
    // How many inputs were entered, each under its own number.
    entered: u32,
    behind: Entered,
    first: Standing,
    committed: Committed,
    last: Standing,
    nothing: Committed,
}

// What it answered to two callers, and to their one commit.
#[derive(Clone, Copy, Debug, Drop)]
struct Answered {
    alarm: Entered,
    pump: Entered,
    read: Entered,
    committed: Committed,
}

// What was left of it, and what was written then.
#[derive(Clone, Copy, Debug, Drop)]
struct Left {
    entered: Entered,
    settled: Committed,
    events: u64,
    durable: u64,
    lost: u64,
}

// Two inputs that are the same: one to be entered again, where memory is refused.
#[derive(Drop)]
struct Twice {
    input: Input,
    again: Input,
}

fn set(object: ObjectId, value: i32) -> Input {
    Input::Set {
        object,
        value: Value::Signed(value),
    }
}

fn set_twice(object: ObjectId, value: i32) -> Twice {
    Twice {
        input: set(object, value),
        again: set(object, value),
    }
}

fn pump_twice() -> Twice {
    Twice {
        input: Input::Pump,
        again: Input::Pump,
    }
}

fn read(alloc: Global) -> Result<Input, Missed> {
    Ok(Input::Datagram {
        peer: Peer::local(167_772_165, 47808),
        bytes: Items::of(READ.to_vec(alloc)?),
    })
}

fn read_twice(alloc: Global) -> Result<Twice, Missed> {
    let input = read(alloc)?;
    let again = read(alloc)?;
    Ok(Twice { input, again })
}

fn blank(alloc: Global, site: &Site) -> Result<MemoryGround, Missed>
    requires site { IsSite site.now }
{
    let size = need(site, TEXT.len() as u64) as usize;
    let contents = vec![in alloc; 0u8; size]?;
    Ok(MemoryGround::new(alloc, contents, Vec::new(alloc)))
}

fn enter<R: Wait>(
    rt: &R,
    alloc: Global,
    desk: &Shared,
    pass: Caller,
    twice: Twice,
) -> (Caller, Entered)
    requires here { IsOf desk.now pass }
    ensures here { IsOf desk.now result.0 }
{
    let Twice { input, again } = twice;
    let (pass, answer) = desk.enter(rt, alloc, pass, START, input);
    match answer {
        Err(EnterFault::NoMemory) => desk.enter(rt, alloc, pass, START, again),
        answer => (pass, answer),
    }
}

fn commit<R: Wait>(rt: &R, alloc: Global, desk: &Shared, pass: Caller) -> (Caller, Committed)
    requires here { IsOf desk.now pass }
    ensures here { IsOf desk.now result.0 }
{
    let (pass, answer) = desk.commit(rt, alloc, pass);
    match answer {
        Err(CommitFault::NoMemory) => desk.commit(rt, alloc, pass),
        answer => (pass, answer),
    }
}

fn stands(desk: &Shared, pass: Caller, number: u64) -> (Caller, Standing)
    requires here { IsOf desk.now pass }
    ensures here { IsOf desk.now result.0 }
{
    let ticket = Ticket {
        number,
        kind: Kind::Entered,
    };
    desk.standing(pass, &ticket)
}

// Whether an input was entered under a number.
fn has_number(answer: &Entered, number: u32) -> bool {
    match answer {
        Ok(ticket) => ticket.number == u64::from(number),
        Err(_) => false,
    }
}

// As many inputs as may wait for a commit; the answer is how many were entered, each under its own number.
fn enter_all<R: Wait>(
    rt: &R,
    alloc: Global,
    desk: &Shared,
    pass: Caller,
    object: ObjectId,
) -> (Caller, u32)
    requires here { IsOf desk.now pass }
    ensures here { IsOf desk.now result.0 }
{
    let mut pass = pass;
    let mut entered = 0u32;
    for number in 0..MOST_PENDING {
        let value = if number % 2 == 0 { 50 } else { 51 };
        let (next, answer) = enter(rt, alloc, desk, pass, set_twice(object, value));
        pass = next;
        if has_number(&answer, number.saturating_add(1)) {
            entered = entered.saturating_add(1);
        }
    }
    (pass, entered)
}

// As many inputs as may wait, one more, and their commit.
fn fill<R: Wait>(
    rt: &R,
    alloc: Global,
    desk: &Shared,
    pass: Caller,
    object: ObjectId,
) -> (Caller, Filled)
    requires here { IsOf desk.now pass }
    ensures here { IsOf desk.now result.0 }
{
    let (pass, entered) = enter_all(rt, alloc, desk, pass, object);
    let (pass, behind) = enter(rt, alloc, desk, pass, set_twice(object, 50));
    let (pass, first) = stands(desk, pass, 1);
    let (pass, committed) = commit(rt, alloc, desk, pass);
    let (pass, last) = stands(desk, pass, 1_024);
    let (pass, nothing) = commit(rt, alloc, desk, pass);
    let filled = Filled {
        entered,
        behind,
        first,
        committed,
        last,
        nothing,
    };
    (pass, filled)
}

// Two passes of one, where there is memory for the second at the first or the second time.
fn split(desk: &Shared, pass: Caller) -> Result<(Caller, Caller), Caller>
    requires here { IsOf desk.now pass }
    ensures both { IfOk result (λ both. IsOf desk.now both.0 × IsOf desk.now both.1) }
    ensures back { IfErr result (λ back. IsOf desk.now back) }
{
    match desk.split(pass) {
        Ok((one, two)) => Ok((one, two)),
        Err((back, _)) => match desk.split(back) {
            Ok((one, two)) => Ok((one, two)),
            Err((back, _)) => Err(back),
        },
    }
}

// One caller enters an alarm and has its notification sent, another one asks for the value; they are one again, and commit.
fn answer_two<R: Wait>(
    rt: &R,
    alloc: Global,
    desk: &Shared,
    passes: (Caller, Caller),
    object: ObjectId,
    question: Twice,
) -> (Caller, Answered)
    requires one { IsOf desk.now passes.0 }
    requires two { IsOf desk.now passes.1 }
    ensures here { IsOf desk.now result.0 }
{
    let (one, two) = passes;
    let (one, alarm) = enter(rt, alloc, desk, one, set_twice(object, 90));
    let (one, pump) = enter(rt, alloc, desk, one, pump_twice());
    let (two, read) = enter(rt, alloc, desk, two, question);
    let pass = desk.join(one, two);
    let (pass, committed) = commit(rt, alloc, desk, pass);
    let answered = Answered {
        alarm,
        pump,
        read,
        committed,
    };
    (pass, answered)
}

// The desk is closed with one event pending, and that is settled.
fn leave<R: Wait>(rt: &R, alloc: Global, desk: Shared, pass: Caller, object: ObjectId) -> Left
    requires here { IsOf desk pass }
{
    let (pass, entered) = enter(rt, alloc, &desk, pass, set_twice(object, 50));
    let (floor, settled) = settle(alloc, desk.close(rt, pass));
    let left = Left {
        entered,
        settled,
        events: floor.events(),
        durable: floor.durable(),
        lost: floor.lost(),
    };
    drop(floor);
    left
}

fn settle(alloc: Global, floor: Floor<MemoryGround>) -> (Floor<MemoryGround>, Committed)
    requires home { IsNotOut floor.spot }
    ensures home { IsNotOut result.0.spot }
{
    let place = floor.next();
    let (floor, settled) = floor.settle(alloc, place);
    match settled {
        Err(CommitFault::NoMemory) => {
            let place = floor.next();
            floor.settle(alloc, place)
        }
        settled => (floor, settled),
    }
}

// All answers of a desk.
#[derive(Clone, Copy, Debug, Drop)]
struct Answers {
    filled: Filled,
    answered: Option<Answered>,
    left: Left,
}

fn play<R: Wait>(
    rt: &R,
    alloc: Global,
    desk: Shared,
    pass: Caller,
    object: ObjectId,
    question: Twice,
) -> Answers
    requires here { IsOf desk pass }
{
    let (pass, filled) = fill(rt, alloc, &desk, pass, object);
    let (pass, answered) = match split(&desk, pass) {
        Ok(passes) => {
            let (pass, answered) = answer_two(rt, alloc, &desk, passes, object, question);
            (pass, Some(answered))
        }
        Err(pass) => (pass, None),
    };
    let left = leave(rt, alloc, desk, pass, object);
    Answers {
        filled,
        answered,
        left,
    }
}

fn has_failed(committed: &Committed) -> bool {
    matches!(committed, Err(CommitFault::DiskFault))
}

// A line that tells one thing.
fn tell<T: Debug>(alloc: Global, text: &mut Text, what: &str, it: &T) -> Result<(), Missed> {
    say(text, format!(in alloc; "{what}: {it:?}")?.as_str())
}

// What is told of a desk that was filled, and whether its disk held.
fn say_filled(alloc: Global, text: &mut Text, filled: &Filled) -> Result<bool, Missed> {
    let Filled {
        entered,
        behind,
        first,
        committed,
        last,
        nothing,
    } = *filled;
    tell(alloc, text, "entered", &entered)?;
    tell(alloc, text, "one more", &behind)?;
    tell(alloc, text, "event 1", &first)?;
    if has_failed(&committed) {
        return Ok(false);
    }
    tell(alloc, text, "commit", &committed)?;
    tell(alloc, text, "event 1024", &last)?;
    tell(alloc, text, "commit", &nothing)?;
    Ok(true)
}

// What is told of two callers, and whether the disk held.
fn say_answered(alloc: Global, text: &mut Text, answered: &Answered) -> Result<bool, Missed> {
    let Answered {
        alarm,
        pump,
        read,
        committed,
    } = *answered;
    tell(alloc, text, "alarm", &alarm)?;
    tell(alloc, text, "pump", &pump)?;
    tell(alloc, text, "read", &read)?;
    if has_failed(&committed) {
        return Ok(false);
    }
    tell(alloc, text, "commit", &committed)?;
    Ok(true)
}

// What is told of the end, and whether the disk held.
fn say_left(alloc: Global, text: &mut Text, left: &Left) -> Result<bool, Missed> {
    let Left {
        entered,
        settled,
        events,
        durable,
        lost,
    } = *left;
    tell(alloc, text, "end of the alarm", &entered)?;
    if has_failed(&settled) {
        return Ok(false);
    }
    tell(alloc, text, "settled", &settled)?;
    tell(alloc, text, "events", &events)?;
    tell(alloc, text, "of these written", &durable)?;
    tell(alloc, text, "datagrams lost", &lost)?;
    Ok(true)
}

// What is told of all, and whether the disk held.
fn say_answers(alloc: Global, text: &mut Text, answers: &Answers) -> Result<bool, Missed> {
    if !say_filled(alloc, text, &answers.filled)? {
        return Ok(false);
    }
    let Some(answered) = &answers.answered else {
        return Err(Missed::Twice);
    };
    if !say_answered(alloc, text, answered)? {
        return Ok(false);
    }
    say_left(alloc, text, &answers.left)
}

fn text_of(alloc: Global, answers: Option<Answers>) -> Result<Text, Missed> {
    let mut text = Vec::new(alloc);
    let has_held = match &answers {
        Some(answers) => say_answers(alloc, &mut text, answers)?,
        None => false,
    };
    if !has_held {
        say(&mut text, DISK_FAULT)?;
    }
    Ok(text)
}

fn opened(
    alloc: Global,
    site: &Site,
    device: MemoryGround,
) -> Result<(Shared, Caller), (MemoryGround, OpenFault)>
    requires site { IsSite site.now }
    ensures here { IfOk result (λ opened. IsOf opened.0 opened.1) }
{
    match Desk::open(alloc, site, TEXT, device) {
        Ok((desk, pass, _)) => Ok((desk, pass)),
        Err((device, OpenFault::NoMemory)) => match Desk::open(alloc, site, TEXT, device) {
            Ok((desk, pass, _)) => Ok((desk, pass)),
            Err((device, fault)) => Err((device, fault)),
        },
        Err((device, fault)) => Err((device, fault)),
    }
}

// What a device that isn't opened leaves: no answers where its disk has failed.
fn not_opened(fault: OpenFault) -> Result<Option<Answers>, Missed> {
    match fault {
        OpenFault::DiskFault => Ok(None),
        OpenFault::NoMemory => Err(Missed::Twice),
        _ => Err(Missed::Other),
    }
}

// The answers of a desk on a device; none where its disk fails as it is opened.
fn answers_on<R: Wait>(
    rt: &R,
    alloc: Global,
    site: &Site,
    device: MemoryGround,
    tank: (ObjectId, Twice),
) -> Result<Option<Answers>, Missed>
    requires site { IsSite site.now }
{
    match opened(alloc, site, device) {
        Ok((desk, pass)) => {
            let (object, question) = tank;
            Ok(Some(play(rt, alloc, desk, pass, object, question)))
        }
        Err((_, fault)) => not_opened(fault),
    }
}

/// A desk on a blank ground in memory: as many inputs as may wait for a commit, two callers, and the end.
pub(crate) fn shared<R: Wait>(rt: &R, alloc: Global, site: &Site) -> Result<Text, Missed>
    requires site { IsSite site.now }
{
    let Ok(object) = ObjectId::of_kind(ObjectKind::IntegerValue, 1) else {
        return Err(Missed::Other);
    };
    let question = read_twice(alloc)?;
    let device = blank(alloc, site)?;
    let answers = answers_on(rt, alloc, site, device, (object, question))?;
    text_of(alloc, answers)
}
