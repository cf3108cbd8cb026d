//! Serves from an opened desk to its close.

ghost use Rattle.std.specs.Prelude.{◌≡◌, ◌<◌, ◌≤◌, ◌↔◌, ◌⊎◌, false, IsTrue};
ghost use Rattle.std.specs.Thread.{IsSync};
ghost use Rattle.ground_io.specs.Counts.{HasCause};
ghost use Rattle.turnstile.specs.Passes.{IsOf, first_pass};
ghost use Rattle.floor_desk.specs.Serving.{LeavesDisk, WasAnswered, Serves};
ghost use Rattle.floor_desk.specs.ServingSteps.{HasEnded, IsEndBy, WorkedTogether};
ghost use Rattle.floor_desk.specs.Workers.{EndsReceiving, HasKept, HasReceived, HasTicked};

use crate::committer::commit_all;
use crate::desk::{Desk, DeskPass};
use crate::entering::enter_until;
use crate::entry::Ticket;
use crate::faults::{CommitFault, EnterFault};
use crate::receiver::{Ends, receive_all};
use crate::steps::Steps;
use crate::ticker::tick_all;
use crate::tools::Tools;
use bac_values::Input;
use ground_io::{Clock, FreeGate, Gate, Ground, Link, Worker};
use std::alloc::Global;
use std::sync::Wait;
use std::sync::atomic::AtomicU32;
use std::thread::{Threads, join};

/// How a server ended.
#[derive(Clone, Copy, Debug, PartialEq, Eq, Drop)]
pub enum End {
    /// All datagrams came, and all that is owed is written and sent.
    Done,
    /// The disk failed.
    DiskFault,
    /// The link failed.
    LinkFault,
    /// Memory was refused.
    NoMemory,
}

/// What a server came to.
#[derive(Clone, Copy, Debug, PartialEq, Eq, Drop)]
pub struct Closed {
    /// How it ended.
    pub end: End,
    /// How many datagrams came.
    pub received: u64,
    /// How many events there are.
    pub events: u64,
    /// The number of the last event that is written.
    pub durable: u64,
    /// How many datagrams were lost: of those that came, and of those that were sent.
    pub lost: u64,
}

// The ticker and the committer, which has a thread of its own; or comes last, where none can be started.
fn tick_and_commit<R: Threads + Wait + Sync, G: Ground + Send, K: Clock + Sync, W: Gate + Sync>(
    tools: &Tools<R, G, K, W>,
    ticks: DeskPass<G>,
    commits: DeskPass<G>,
    ended: &AtomicU32,
) -> (DeskPass<G>, DeskPass<G>)
    requires ticks { IsOf tools.now.desk.now ticks }
    requires commits { IsOf tools.now.desk.now commits }
    ensures ticks { IsOf tools.now.desk.now result.0 }
    ensures commits { IsOf tools.now.desk.now result.1 }
    ensures ticked { HasTicked (K.shows tools.now.clock.now) ticks result.0 }
    ensures kept { HasKept commits result.1 }
{
    let (rt, alloc, desk) = (tools.rt, tools.alloc, tools.desk);
    let (clock, gate) = (tools.clock, tools.gate);
    let (commits, ticks) = join(
        rt,
        || -> DeskPass<G>
            requires { IsSync R.row × IsOf desk.now commits }
            ensures { IsOf desk.entry.now result × HasKept commits result }
        { commit_all(rt, alloc, desk, commits, ended, gate) },
        || -> DeskPass<G>
            requires { IsSync R.row × IsOf desk.now ticks }
            ensures { IsOf desk.entry.now result × HasTicked (K.shows clock.entry.now) ticks result }
        { tick_all(rt, alloc, desk, ticks, ended, clock, gate) },
    );
    (ticks, commits)
}

// The three workers side by side; or the receiver, the ticker and the committer one after the other, where no thread can be
// started. The pass is all of theirs joined.
fn work<
    R: Threads + Wait + Sync,
    G: Ground + Send,
    L: Link + Send + Drop,
    K: Clock + Sync,
    W: Gate + Sync,
>(tools: &Tools<R, G, K, W>, pass: DeskPass<G>, count: u32, link: L) -> (DeskPass<G>, L, Ends)
    requires first { pass ≡ first_pass tools.now.desk.now }
    ensures here { IsOf tools.now.desk.now result.0 }
    ensures worked { WorkedTogether (K.shows tools.now.clock.now) (L.left link) (L.left result.1) result.0 result.2 }
    ensures ends { EndsReceiving count (L.faults link) (L.faults result.1) result.2 }
{
    let (rt, alloc, desk) = (tools.rt, tools.alloc, tools.desk);
    let (clock, gate) = (tools.clock, tools.gate);
    let ended = AtomicU32::new(0);
    let (pass, ticks) = match desk.split(pass) {
        Ok(both) => both,
        Err(_) => unreachable!(),
    };
    let (pass, commits) = match desk.split(pass) {
        Ok(both) => both,
        Err(_) => unreachable!(),
    };
    let ((ticks, commits), (pass, link, ends)) = join(
        rt,
        || -> (DeskPass<G>, DeskPass<G>)
            requires { IsSync R.row × IsOf tools.now.desk.now ticks × IsOf tools.now.desk.now commits }
            ensures { IsOf tools.entry.now.desk.now result.0 × IsOf tools.entry.now.desk.now result.1 × HasTicked (K.shows tools.entry.now.clock.now) ticks result.0 × HasKept commits result.1 }
        { tick_and_commit(tools, ticks, commits, &ended) },
        || -> (DeskPass<G>, L, Ends)
            requires { IsOf desk.now pass }
            ensures { IsOf desk.entry.now result.0 × HasReceived (K.shows clock.entry.now) (L.left link) (L.left result.1) pass result.0 result.2 × EndsReceiving count (L.faults link) (L.faults result.1) result.2 }
        {
            let mut link = link;
            let (pass, ends) = receive_all(
                rt, alloc, desk, pass, count, &ended, &mut link, clock, gate,
            );
            (pass, link, ends)
        },
    );
    let pass = desk.join(pass, commits);
    (desk.join(pass, ticks), link, ends)
}

// A last commit, Tick and Pump.
fn finish<R: Wait, G: Ground, K: Clock>(
    rt: &R,
    alloc: Global,
    desk: &Desk<G>,
    pass: DeskPass<G>,
    clock: &K,
) -> (
    DeskPass<G>,
    Result<Ticket, EnterFault>,
    Result<Ticket, EnterFault>,
)
    requires here { IsOf desk.now pass }
    ensures here { IsOf desk.now result.0 }
    ensures ended { HasEnded (K.shows clock.now) pass result.0 result.1 result.2 }
{
    let tools = Tools::of(rt, alloc, desk, clock, &FreeGate);
    let mut steps = Steps::new(Worker::Committer);
    let (pass, _) = desk.commit(rt, alloc, pass);
    let (pass, tick) = enter_until(&tools, pass, &Input::Tick, &mut steps);
    let (pass, pump) = enter_until(&tools, pass, &Input::Pump, &mut steps);
    (pass, tick, pump)
}

// Whether an input was given a ticket, or its requester was told that the notifications don't fit.
fn is_answered(answer: &Result<Ticket, EnterFault>) -> bool
    ensures answered { IsTrue result ↔ WasAnswered answer.now }
{
    matches!(answer, Ok(_) | Err(EnterFault::Full { .. }))
}

// Whether both were.
fn are_answered(tick: &Result<Ticket, EnterFault>, pump: &Result<Ticket, EnterFault>) -> bool
    ensures both { IsTrue result → WasAnswered tick.now × WasAnswered pump.now }
    ensures else_not { (result ≡ false) → WasAnswered tick.now → WasAnswered pump.now → ⊥ }
{
    is_answered(tick) && is_answered(pump)
}

// How it ended.
fn end_of(ends: &Ends, answered: bool, settled: &Result<u64, CommitFault>) -> End
    ensures end { IsEndBy ends.now answered settled.now result }
{
    match settled {
        Err(CommitFault::DiskFault | CommitFault::Stopped { .. }) => End::DiskFault,
        _ if ends.link_fault => End::LinkFault,
        Ok(_) | Err(CommitFault::Nothing { .. }) if answered && !ends.no_memory => End::Done,
        _ => End::NoMemory,
    }
}

/// Serves so many datagrams of a link over a desk, and ends it. The ground and the link come back.
pub fn serve_desk<
    R: Threads + Wait + Sync,
    G: Ground + Send,
    L: Link + Send + Drop,
    K: Clock + Sync,
    W: Gate + Sync,
>(
    rt: &R,
    alloc: Global,
    desk: Desk<G>,
    pass: DeskPass<G>,
    count: u32,
    link: L,
    clock: &K,
    gate: &W,
) -> (G, L, Closed)
    requires first { pass ≡ first_pass desk }
    ensures serves { Serves G.told G.size G.disk_faults G.emit_faults (K.shows clock.now) (L.left link) (L.left result.1) (desk.origin) result.0 result.2 }
    ensures size { G.size result.0 ≡ G.size desk.origin.1.device }
    ensures disk { LeavesDisk (G.disk_faults desk.origin.1.device) (G.disk_faults result.0) result.2.end }
    ensures emit_cause { HasCause (G.emit_faults desk.origin.1.device) (G.emit_faults result.0) (result.2.received < result.2.lost) }
    ensures no_emit_fault { result.2.lost ≡ 0 → G.emit_faults result.0 ≡ G.emit_faults desk.origin.1.device }
    ensures most { result.2.received ≤ count }
    ensures done { result.2.end ≡ End.Done → result.2.received ≡ count }
    ensures cause { HasCause (L.faults link) (L.faults result.1) (result.2.end ≡ End.LinkFault) }
    ensures counted { (result.2.end ≡ End.LinkFault) ⊎ ((result.2.end ≡ End.DiskFault) ⊎ (L.faults result.1 ≡ L.faults link)) }
{
    let (pass, link, ends) = work(&Tools::of(rt, alloc, &desk, clock, gate), pass, count, link);
    let (pass, tick, pump) = finish(rt, alloc, &desk, pass, clock);
    let floor = desk.close(rt, pass);
    let place = floor.next();
    let (floor, settled) = floor.settle(alloc, place);
    let closed = Closed {
        end: end_of(&ends, are_answered(&tick, &pump), &settled),
        received: ends.received,
        events: floor.events(),
        durable: floor.durable(),
        lost: floor.lost().saturating_add(ends.lost),
    };
    (floor.into_ground(), link, closed)
}
