//! Timers.

ghost use Rattle.std.specs.Prelude.{◌≡◌, ◌≤◌, length, IfOk};

use crate::comparing::same;
use held_timers::*;
use std::alloc::Global;
use std::process::Abort;
use std::test::Fail;

#[test]
fn the_least_moment_is_next(rt: HostRuntime) -> Result<(), Fail> {
    let mut timers = Timers::new(rt.alloc(), 5)?;
    same(&rt, &timers.next_due(), &None);
    timers.set_due(4, Some(u64::MAX));
    same(&rt, &timers.next_due(), &Some(u64::MAX));
    timers.set_due(1, Some(30));
    timers.set_due(3, Some(20));
    same(&rt, &timers.next_due(), &Some(20));
    timers.set_due(3, None);
    same(&rt, &timers.next_due(), &Some(30));
    timers.set_due(1, Some(40));
    same(&rt, &timers.next_due(), &Some(40));
    Ok(())
}

/// Six timers, of which 0 and 3 aren't set.
fn six(alloc: Global) -> Result<Timers, Fail>
    ensures six { IfOk result (λ timers. length timers ≡ 6) }
{
    let mut timers = Timers::new(alloc, 6)?;
    timers.set_due(1, Some(20));
    timers.set_due(2, Some(30));
    timers.set_due(4, Some(20));
    timers.set_due(5, Some(u64::MAX));
    Ok(timers)
}

/// The least index at or above this one that is due at the moment.
fn expect_due(rt: &impl Abort, timers: &Timers, moment: u64, index: u32, due: Option<u32>)
    requires within { index ≤ length timers.now }
{
    same(
        rt,
        &(moment, index, timers.due_from(moment, index)),
        &(moment, index, due),
    );
}

/// Of six timers.
fn expect_all_due(rt: &impl Abort, timers: &Timers)
    requires six { length timers.now ≡ 6 }
{
    expect_due(rt, timers, 19, 0, None);
    expect_due(rt, timers, 20, 0, Some(1));
    expect_due(rt, timers, 20, 1, Some(1));
    expect_due(rt, timers, 20, 2, Some(4));
    expect_due(rt, timers, 30, 2, Some(2));
    expect_due(rt, timers, 30, 3, Some(4));
    expect_due(rt, timers, 30, 5, None);
    expect_due(rt, timers, u64::MAX, 5, Some(5));
    expect_due(rt, timers, u64::MAX, 6, None);
}

#[test]
fn due_indices_are_found_in_their_order(rt: HostRuntime) -> Result<(), Fail> {
    let timers = six(rt.alloc())?;
    expect_all_due(&rt, &timers);
    Ok(())
}

#[test]
fn no_timers_are_never_due(rt: HostRuntime) -> Result<(), Fail> {
    let timers = Timers::new(rt.alloc(), 0)?;
    same(&rt, &timers.next_due(), &None);
    same(&rt, &timers.due_from(u64::MAX, 0), &None);
    Ok(())
}
