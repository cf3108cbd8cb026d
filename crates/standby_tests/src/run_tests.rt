// Random runs of a leader and a follower.

ghost use Rattle.alarm_core.specs.Sites.{IsSite};

use crate::comparing::same;
use crate::replication::Run;
use crate::sites::{Question, TWO_TANKS, ask_of};
use crate::standing::{Standby, blank};
use alarm_core::{Core, Site};
use std::alloc::Global;
use std::process::Abort;
use std::test::Fail;

/// How many things happen in a run.
const STEPS: u32 = 40;

/// All that the leader has reaches the follower, in its order.
fn bring_all(rt: &impl Abort, site: &Site, run: &mut Run, follower: Standby) -> Standby
    requires site { IsSite site.now }
{
    match run.all() {
        Ok(happens) => run.carry_out(rt, site, follower, happens),
        Err(_) => panic!(rt; "there is no memory for what happens"),
    }
}

/// The follower behind all that happens: all reaches it, and again with an event more; then what comes; then all, twice.
fn follower_behind(
    rt: &impl Abort,
    site: &Site,
    run: &mut Run,
    core: &mut Core,
    follower: Standby,
) -> Standby
    requires site { IsSite site.now }
{
    let mut follower = bring_all(rt, site, run, follower);
    match run.grow(core, 1) {
        Ok(()) => follower = bring_all(rt, site, run, follower),
        Err(_) => panic!(rt; "there is no memory for an event"),
    }
    for _ in 0..STEPS {
        match run.next(core) {
            Ok(happens) => follower = run.carry_out(rt, site, follower, happens),
            Err(_) => panic!(rt; "there is no memory for what happens"),
        }
    }
    follower = bring_all(rt, site, run, follower);
    bring_all(rt, site, run, follower)
}

/// A run from its beginning, on a blank device. The answer is how often there was each answer.
fn play(
    rt: &impl Abort,
    alloc: Global,
    site: &Site,
    core: &mut Core,
    seed: u64,
) -> Result<[u32; 4], Fail>
    requires site { IsSite site.now }
{
    let mut run = Run::begin(alloc, core, seed)?;
    let first = run.last_first(core)?;
    let contents = blank(alloc, site)?;
    let follower = run.open(rt, site, contents);
    let follower = run.carry_out(rt, site, follower, first);
    let follower = follower_behind(rt, site, &mut run, core, follower);
    same(rt, &follower.events(), &run.events());
    drop(follower);
    Ok(run.answers)
}

/// A run with random numbers from a seed on: whatever is lost, repeated or reordered, the follower's state is the leader's
/// after some of its events, as is that of each image that a crash may leave, which has all that was acknowledged.
#[derive(Clone, Copy)]
struct Runs {
    seed: u64,
}

impl Question for Runs {
    fn ask(&self, rt: &impl Abort, alloc: Global, site: &Site) -> Result<(), Fail>
        requires site { IsSite site.now }
    {
        let mut core = Core::start(alloc, site)?;
        let played = play(rt, alloc, site, &mut core, self.seed);
        drop(core);
        let [gaps, repeats, parts, taken] = played?;
        let some = [gaps > 0, repeats > 0, parts > 0, taken > 0];
        same(rt, &some, &[true; 4]);
        Ok(())
    }
}

#[test]
fn the_follower_stays_behind_its_leader_in_run_1(rt: HostRuntime) -> Result<(), Fail> {
    ask_of(&rt, rt.alloc(), TWO_TANKS, &Runs { seed: 1 })
}

#[test]
fn the_follower_stays_behind_its_leader_in_run_2(rt: HostRuntime) -> Result<(), Fail> {
    ask_of(&rt, rt.alloc(), TWO_TANKS, &Runs { seed: 2 })
}

#[test]
fn the_follower_stays_behind_its_leader_in_run_3(rt: HostRuntime) -> Result<(), Fail> {
    ask_of(&rt, rt.alloc(), TWO_TANKS, &Runs { seed: 3 })
}
