//! An input that is tried until no commit has to come first.

ghost use Rattle.std.specs.Prelude.{◌≡◌, Err, IsTrue, MatchBool};
ghost use Rattle.turnstile.specs.Passes.{IsOf};
ghost use Rattle.floor_desk.specs.declared.faults.CommitFault.TheVariants as commits;
ghost use Rattle.floor_desk.specs.Tries.{IsAnsweredBehind};
ghost use Rattle.floor_desk.specs.Workers.{GoesThrough};
ghost use Rattle.floor_desk.specs.WorkersSteps.{HasTried};

use crate::desk::DeskPass;
use crate::entry::Ticket;
use crate::faults::{CommitFault, EnterFault};
use crate::steps::Steps;
use crate::tools::Tools;
use bac_values::Input;
use ground_io::{Clock, Gate, Ground};
use std::sync::Wait;

/// Whether the answer is that a commit has to come first.
pub(crate) fn is_behind(answer: &Result<Ticket, EnterFault>) -> bool
    ensures behind { MatchBool result (IsAnsweredBehind answer.now) (IsAnsweredBehind answer.now → ⊥) }
{
    matches!(answer, Err(EnterFault::Behind { .. }))
}

// Whether a commit found no memory.
fn found_none(done: &Result<u64, CommitFault>) -> bool
    ensures none { IsTrue result → done.now ≡ Err commits.NoMemory }
{
    matches!(done, Err(CommitFault::NoMemory))
}

/// Tries an input until it isn't answered that a commit has to come first, and commits in between. Where that commit finds no
/// memory, that answer is the last one.
pub(crate) fn enter_until<R: Wait, G: Ground, K: Clock, W: Gate>(
    tools: &Tools<R, G, K, W>,
    pass: DeskPass<G>,
    input: &Input,
    steps: &mut Steps,
) -> (DeskPass<G>, Result<Ticket, EnterFault>)
    requires here { IsOf tools.now.desk.now pass }
    ensures here { IsOf tools.now.desk.now result.0 }
    ensures tried { HasTried (K.shows tools.now.clock.now) pass result.0 input.now result.1 }
    ensures worker { steps.new.worker ≡ steps.old.worker }
    ensures turns { GoesThrough (W.passed tools.now.gate.now steps.old.worker) steps.old.count steps.new.count pass result.0 }
{
    let (rt, alloc, desk) = (tools.rt, tools.alloc, tools.desk);
    let mut pass = pass;
    for _ in rt.forever() {
        steps.next(tools.gate);
        let (entered, answer) = desk.offer(rt, alloc, pass, tools.clock.now(), input);
        if !is_behind(&answer) {
            return (entered, answer);
        }
        steps.next(tools.gate);
        let (committed, done) = desk.commit(rt, alloc, entered);
        if found_none(&done) {
            return (committed, answer);
        }
        pass = committed;
    }
    unreachable!()
}
