//! Brings what happened to the ground.

ghost use Rattle.turnstile.specs.Passes.{IsOf};
ghost use Rattle.floor_desk.specs.Workers.{HasKept, TakesTurns};

use crate::desk::{Desk, DeskPass};
use crate::steps::Steps;
use ground_io::{Gate, Ground, Worker};
use std::alloc::Global;
use std::sync::Wait;
use std::sync::atomic::{AtomicU32, Ordering};

/// Commits what is pending, again and again, until both other workers have ended.
pub fn commit_all<R: Wait, G: Ground, W: Gate>(
    rt: &R,
    alloc: Global,
    desk: &Desk<G>,
    pass: DeskPass<G>,
    ended: &AtomicU32,
    gate: &W,
) -> DeskPass<G>
    requires here { IsOf desk.now pass }
    ensures here { IsOf desk.now result }
    ensures kept { HasKept pass result }
    ensures turns { TakesTurns (W.passed gate.now Worker.Committer) pass result }
{
    let mut steps = Steps::new(Worker::Committer);
    let mut pass = pass;
    for _ in rt.forever() {
        steps.next(gate);
        let (committed, _) = desk.commit(rt, alloc, pass);
        pass = committed;
        if ended.load(Ordering::SeqCst) >= 2 {
            break;
        }
    }
    ended.fetch_add(1, Ordering::SeqCst);
    pass
}
