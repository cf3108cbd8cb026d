//! Lets time pass.

ghost use Rattle.std.specs.Prelude.{◌≡◌};
ghost use Rattle.turnstile.specs.Passes.{IsOf};
ghost use Rattle.floor_desk.specs.Workers.{GoesThrough, HasTicked, TakesTurns};

use crate::desk::{Desk, DeskPass};
use crate::entry::Ticket;
use crate::steps::Steps;
use crate::tools::Tools;
use bac_values::Input;
use ground_io::{Clock, Gate, Ground, Worker};
use std::alloc::Global;
use std::sync::Wait;
use std::sync::atomic::{AtomicU32, Ordering};

// One Tick and one Pump, and a look at how the last of them that was given a ticket stands.
fn tick_once<R: Wait, G: Ground, K: Clock, W: Gate>(
    tools: &Tools<R, G, K, W>,
    pass: DeskPass<G>,
    steps: &mut Steps,
) -> DeskPass<G>
    requires here { IsOf tools.now.desk.now pass }
    ensures here { IsOf tools.now.desk.now result }
    ensures ticked { HasTicked (K.shows tools.now.clock.now) pass result }
    ensures worker { steps.new.worker ≡ steps.old.worker }
    ensures turns { GoesThrough (W.passed tools.now.gate.now steps.old.worker) steps.old.count steps.new.count pass result }
{
    let (rt, alloc, desk) = (tools.rt, tools.alloc, tools.desk);
    steps.next(tools.gate);
    let (pass, ticked) = desk.enter(rt, alloc, pass, tools.clock.now(), Input::Tick);
    steps.next(tools.gate);
    let (pass, pumped) = desk.enter(rt, alloc, pass, tools.clock.now(), Input::Pump);
    match pumped.or(ticked) {
        Ok(ticket) => {
            steps.next(tools.gate);
            desk.standing(pass, &ticket).0
        }
        Err(_) => pass,
    }
}

/// Enters Tick and Pump in turn, at the clock's moments, until another worker has ended.
pub fn tick_all<R: Wait, G: Ground, K: Clock, W: Gate>(
    rt: &R,
    alloc: Global,
    desk: &Desk<G>,
    pass: DeskPass<G>,
    ended: &AtomicU32,
    clock: &K,
    gate: &W,
) -> DeskPass<G>
    requires here { IsOf desk.now pass }
    ensures here { IsOf desk.now result }
    ensures ticked { HasTicked (K.shows clock.now) pass result }
    ensures turns { TakesTurns (W.passed gate.now Worker.Ticker) pass result }
{
    let mut steps = Steps::new(Worker::Ticker);
    let mut pass = pass;
    for _ in rt.forever() {
        pass = tick_once(&Tools::of(rt, alloc, desk, clock, gate), pass, &mut steps);
        if ended.load(Ordering::SeqCst) >= 1 {
            break;
        }
    }
    ended.fetch_add(1, Ordering::SeqCst);
    pass
}
