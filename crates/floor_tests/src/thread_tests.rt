//! Callers of a desk in threads of their own.

ghost use Rattle.std.specs.Prelude.{◌<◌};
ghost use Rattle.std.specs.Thread.{IsSync};
ghost use Rattle.turnstile.specs.Passes.{IsOf};
ghost use Rattle.alarm_core.specs.Sites.{IsSite};

use crate::comparing::{holds, same};
use crate::desk_tests::{Caller, Shared, TEXT, blank, commit, desk_of, entered, set};
use crate::plant::{START, plant};
use alarm_core::Site;
use bac_values::{Input, ObjectId, ObjectKind};
use floor_desk::{CommitFault, Desk, DeskPass, Standing};
use ground_io::{Gate, HeldGround, Worker};
use std::alloc::Global;
use std::hint;
use std::process::Abort;
use std::sync::atomic::{AtomicU64, Ordering};
use std::sync::{Arc, Wait};
use std::test::Fail;
use std::thread::{Threads, join};

// So many values each caller enters.
const VALUES: u32 = 16;

// A value is entered, and its number is above the last one.
fn enter_next<R: Wait + Abort>(
    rt: &R,
    alloc: Global,
    desk: &Shared,
    pass: Caller,
    input: Input,
    last: &mut u64,
) -> Caller
    requires here { IsOf desk.now pass }
    ensures here { IsOf desk.now result }
{
    let (pass, answer) = desk.enter(rt, alloc, pass, START, input);
    let Ok(ticket) = answer else {
        panic!(rt; "a value isn't entered")
    };
    holds(rt, *last < ticket.number);
    *last = ticket.number;
    pass
}

// One caller enters its values, one after the other. The numbers of the events rise.
fn enter_rising<R: Wait + Abort>(
    rt: &R,
    alloc: Global,
    desk: &Shared,
    pass: Caller,
    object: ObjectId,
) -> Caller
    requires here { IsOf desk.now pass }
    ensures here { IsOf desk.now result }
{
    let mut pass = pass;
    let mut last = 0;
    for number in 0..VALUES {
        let value = if number % 2 == 0 { 50 } else { 51 };
        pass = enter_next(rt, alloc, desk, pass, set(object, value), &mut last);
    }
    pass
}

// So many callers enter their values, each in a thread of its own. The pass is all of theirs joined.
fn enter_all<R: Threads + Wait + Sync + Abort>(
    rt: &R,
    alloc: Global,
    desk: &Shared,
    pass: Caller,
    callers: u32,
    object: ObjectId,
) -> Caller
    requires here { IsOf desk.now pass }
    requires some { 0 < callers }
    ensures here { IsOf desk.now result }
{
    if callers == 1 {
        return enter_rising(rt, alloc, desk, pass, object);
    }
    let half = callers / 2;
    let (one, two) = match desk.split(pass) {
        Ok(both) => both,
        Err(_) => unreachable!(),
    };
    let (one, two) = join(
        rt,
        || -> Caller
            requires { IsSync R.row × IsOf desk.now one × (0 < half) }
            ensures { IsOf desk.entry.now result }
        { enter_all(rt, alloc, desk, one, half, object) },
        || -> Caller
            requires { IsSync R.row × IsOf desk.now two × (half < callers) }
            ensures { IsOf desk.entry.now result }
        { enter_all(rt, alloc, desk, two, callers - half, object) },
    );
    desk.join(one, two)
}

#[test]
fn eight_callers_enter_each_value_once_and_in_order(rt: HostRuntime) -> Result<(), Fail> {
    let alloc = rt.alloc();
    let object = ObjectId::of_kind(ObjectKind::IntegerValue, 1)?;
    let (desk, pass) = desk_of(&rt, alloc, &[])?;
    let pass = enter_all(&rt, alloc, &desk, pass, 8, object);
    let pass = commit(&rt, alloc, &desk, pass, &Ok(128));
    let floor = desk.close(&rt, pass);
    same(&rt, &floor.events(), &128);
    drop(floor);
    Ok(())
}

// A gate that holds a ground's fourth sync until it is opened: on a blank ground the first that writes an event.
#[derive(Drop)]
struct Held {
    came: Arc<AtomicU64, Global>,
    opened: Arc<AtomicU64, Global>,
}

// Waits until the count isn't 0 any more, or for a long time. It answers whether it isn't.
fn wait_for(count: &AtomicU64) -> bool {
    for _ in 0..1_000_000_000u32 {
        if count.load(Ordering::SeqCst) != 0 {
            return true;
        }
        hint::spin_loop();
    }
    false
}

impl Gate for Held {
    ghost passed = { λ gate worker step. Unit {0} };

    fn turn(&self, _worker: Worker, step: u64) {
        if step == 4 {
            self.came.store(1, Ordering::SeqCst);
            let _ = wait_for(&self.opened);
        }
    }
}

type HeldDesk = Desk<HeldGround<Held>>;

type HeldCaller = DeskPass<HeldGround<Held>>;

// While the sync is held a value is entered, another commit finds the press out, and nothing is written yet.
fn ask_beside<R: Wait + Abort>(
    rt: &R,
    alloc: Global,
    desk: &HeldDesk,
    pass: HeldCaller,
    object: ObjectId,
    came: &AtomicU64,
) -> HeldCaller
    requires here { IsOf desk.now pass }
    ensures here { IsOf desk.now result }
{
    holds(rt, wait_for(came));
    let (pass, answer) = desk.enter(rt, alloc, pass, START, set(object, 50));
    same(rt, &answer, &Ok(entered(2)));
    let (pass, answer) = desk.commit(rt, alloc, pass);
    let busy = CommitFault::Busy { at: 2, upto: 1 };
    same(rt, &answer, &Err(busy));
    let (pass, told) = desk.standing(pass, &entered(1));
    same(rt, &told, &Standing::NotYet { mark: 0 });
    pass
}

// A commit in one thread, whose sync is held, and the other's asking beside it.
fn commit_beside<R: Threads + Wait + Sync + Abort>(
    rt: &R,
    alloc: Global,
    desk: &HeldDesk,
    pass: HeldCaller,
    object: ObjectId,
    came: &AtomicU64,
    opened: &AtomicU64,
) -> HeldCaller
    requires here { IsOf desk.now pass }
    ensures here { IsOf desk.now result }
{
    let (pass, answer) = desk.enter(rt, alloc, pass, START, set(object, 51));
    same(rt, &answer, &Ok(entered(1)));
    let (one, two) = match desk.split(pass) {
        Ok(both) => both,
        Err(_) => unreachable!(),
    };
    let (one, two) = join(
        rt,
        || -> HeldCaller
            requires { IsOf desk.now one }
            ensures { IsOf desk.entry.now result }
        {
            let (one, answer) = desk.commit(rt, alloc, one);
            same(rt, &answer, &Ok(1));
            one
        },
        || -> HeldCaller
            requires { IsOf desk.now two }
            ensures { IsOf desk.entry.now result }
        {
            let two = ask_beside(rt, alloc, desk, two, object, came);
            opened.store(1, Ordering::SeqCst);
            two
        },
    );
    let (pass, told) = {
        let pass = desk.join(one, two);
        desk.standing(pass, &entered(1))
    };
    same(rt, &told, &Standing::Durable { mark: 1 });
    pass
}

// A desk on a ground whose fourth sync is held.
fn held_desk<R: Abort>(
    rt: &R,
    alloc: Global,
    site: &Site,
    device: HeldGround<Held>,
) -> (HeldDesk, HeldCaller)
    requires site { IsSite site.now }
    ensures here { IsOf result.0 result.1 }
{
    match Desk::open(alloc, site, TEXT, device) {
        Ok((desk, pass, _)) => (desk, pass),
        Err(_) => panic!(rt; "the journal doesn't open"),
    }
}

// A gate that counts by these.
fn gate_of(came: &Arc<AtomicU64, Global>, opened: &Arc<AtomicU64, Global>) -> Result<Held, Fail> {
    Ok(Held {
        came: Arc::try_clone(came)?,
        opened: Arc::try_clone(opened)?,
    })
}

// Two events of a desk: a commit, beside which another asks.
fn expect_two<R: Threads + Wait + Sync + Abort>(
    rt: &R,
    alloc: Global,
    desk: HeldDesk,
    pass: HeldCaller,
    object: ObjectId,
    counts: (&AtomicU64, &AtomicU64),
)
    requires here { IsOf desk pass }
{
    let (came, opened) = counts;
    let pass = commit_beside(rt, alloc, &desk, pass, object, came, opened);
    let floor = desk.close(rt, pass);
    same(rt, &floor.events(), &2);
    drop(floor);
}

// A desk on a blank ground whose fourth sync is held, a commit beside which another asks, and its end.
fn hold<R: Threads + Wait + Sync + Abort>(
    rt: &R,
    alloc: Global,
    site: &Site,
    object: ObjectId,
) -> Result<(), Fail>
    requires site { IsSite site.now }
{
    let came = Arc::new(alloc, AtomicU64::new(0))?;
    let opened = Arc::new(alloc, AtomicU64::new(0))?;
    let gate = gate_of(&came, &opened)?;
    let device = HeldGround::new(blank(alloc, site, &[])?, gate);
    let (desk, pass) = held_desk(rt, alloc, site, device);
    expect_two(rt, alloc, desk, pass, object, (&came, &opened));
    Ok(())
}

#[test]
fn a_held_sync_keeps_nobody_from_entering(rt: HostRuntime) -> Result<(), Fail> {
    let alloc = rt.alloc();
    let object = ObjectId::of_kind(ObjectKind::IntegerValue, 1)?;
    let site = plant(alloc)?;
    let held = hold(&rt, alloc, &site, object);
    drop(site);
    held
}
