//! A desk, call by call.

ghost use Rattle.std.specs.Prelude.{◌≡◌, ◌≤◌, IfOk};
ghost use Rattle.turnstile.specs.Passes.{IsOf};
ghost use Rattle.alarm_core.specs.Sites.{IsSite};

use crate::comparing::{holds, same};
use crate::plant::{START, operator, plant};
use alarm_core::Site;
use bac_values::{Input, Items, ObjectId, ObjectKind, Value};
use floor_desk::{CommitFault, Desk, DeskPass, EnterFault, Kind, Standing, Ticket};
use ground_io::{Entry, MemoryGround};
use state_codec::need;
use std::alloc::Global;
use std::process::Abort;
use std::sync::Wait;
use std::test::Fail;

pub(crate) type Shared = Desk<MemoryGround>;

pub(crate) type Caller = DeskPass<MemoryGround>;

// The text of the site.
pub(crate) const TEXT: &[u8] = b"site";

// The tank's value comes from the field.
pub(crate) fn set(object: ObjectId, value: i32) -> Input {
    Input::Set {
        object,
        value: Value::Signed(value),
    }
}

pub(crate) fn entered(number: u64) -> Ticket {
    Ticket {
        number,
        kind: Kind::Entered,
    }
}

fn replied(number: u64) -> Ticket {
    Ticket {
        number,
        kind: Kind::Replied,
    }
}

// A blank ground for its journal, of whose calls these fail.
pub(crate) fn blank(alloc: Global, site: &Site, failing: &[u64]) -> Result<MemoryGround, Fail>
    requires site { IsSite site.now }
{
    let size = need(site, TEXT.len() as u64) as usize;
    let contents = vec![in alloc; 0u8; size]?;
    Ok(MemoryGround::new(alloc, contents, failing.to_vec(alloc)?))
}

// A desk on a ground whose journal has so many events.
fn desk_on(
    rt: &impl Abort,
    alloc: Global,
    site: &Site,
    device: MemoryGround,
    events: u64,
) -> (Shared, Caller)
    requires site { IsSite site.now }
    ensures here { IsOf result.0 result.1 }
{
    match Desk::open(alloc, site, TEXT, device) {
        Ok((desk, pass, opening)) => {
            same(rt, &opening.events, &events);
            (desk, pass)
        }
        Err(_) => panic!(rt; "the journal doesn't open"),
    }
}

// A desk of a site on a blank ground, of whose calls these fail.
fn desk_at(
    rt: &impl Abort,
    alloc: Global,
    site: &Site,
    failing: &[u64],
) -> Result<(Shared, Caller), Fail>
    requires site { IsSite site.now }
    ensures here { IfOk result (λ opened. IsOf opened.0 opened.1) }
{
    let device = blank(alloc, site, failing)?;
    Ok(desk_on(rt, alloc, site, device, 0))
}

// A desk on a blank ground, of whose calls these fail. A site, as a desk, is dropped by a call, since it is dear to drop where
// it stands.
pub(crate) fn desk_of(
    rt: &impl Abort,
    alloc: Global,
    failing: &[u64],
) -> Result<(Shared, Caller), Fail>
    ensures here { IfOk result (λ opened. IsOf opened.0 opened.1) }
{
    let site = plant(alloc)?;
    let opened = desk_at(rt, alloc, &site, failing);
    drop(site);
    opened
}

// One value is entered, with this answer.
fn enter<R: Wait + Abort>(
    rt: &R,
    alloc: Global,
    desk: &Shared,
    pass: Caller,
    input: Input,
    answer: &Result<Ticket, EnterFault>,
) -> Caller
    requires here { IsOf desk.now pass }
    ensures here { IsOf desk.now result }
{
    let (pass, answered) = desk.enter(rt, alloc, pass, START, input);
    same(rt, &answered, answer);
    pass
}

// All that is pending is committed, with this answer.
pub(crate) fn commit<R: Wait + Abort>(
    rt: &R,
    alloc: Global,
    desk: &Shared,
    pass: Caller,
    answer: &Result<u64, CommitFault>,
) -> Caller
    requires here { IsOf desk.now pass }
    ensures here { IsOf desk.now result }
{
    let (pass, answered) = desk.commit(rt, alloc, pass);
    same(rt, &answered, answer);
    pass
}

// An event stands like this.
fn stands<R: Abort>(rt: &R, desk: &Shared, pass: Caller, number: u64, standing: &Standing) -> Caller
    requires here { IsOf desk.now pass }
    ensures here { IsOf desk.now result }
{
    let (pass, told) = desk.standing(pass, &entered(number));
    same(rt, &told, standing);
    pass
}

// Values of 50 and 51 in turn are entered, so many.
fn set_all<R: Wait + Abort>(
    rt: &R,
    alloc: Global,
    desk: &Shared,
    pass: Caller,
    object: ObjectId,
    count: u32,
) -> Caller
    requires here { IsOf desk.now pass }
    ensures here { IsOf desk.now result }
{
    let mut pass = pass;
    for number in 0..count {
        let value = if number % 2 == 0 { 50 } else { 51 };
        let answer = Ok(entered(u64::from(number) + 1));
        pass = enter(rt, alloc, desk, pass, set(object, value), &answer);
    }
    pass
}

// As many values as wait for one commit, and one more.
fn fill<R: Wait + Abort>(
    rt: &R,
    alloc: Global,
    desk: &Shared,
    pass: Caller,
    object: ObjectId,
) -> Caller
    requires here { IsOf desk.now pass }
    ensures here { IsOf desk.now result }
{
    let behind = EnterFault::Behind {
        pending: 1_024,
        octets: 22_528,
    };
    let pass = set_all(rt, alloc, desk, pass, object, 1_024);
    let pass = enter(rt, alloc, desk, pass, set(object, 50), &Err(behind));
    let pass = stands(rt, desk, pass, 1, &Standing::NotYet { mark: 0 });
    let pass = commit(rt, alloc, desk, pass, &Ok(1_024));
    let nothing = CommitFault::Nothing { upto: 1_024 };
    let pass = stands(rt, desk, pass, 1_024, &Standing::Durable { mark: 1_024 });
    commit(rt, alloc, desk, pass, &Err(nothing))
}

// Ends a desk.
fn close<R: Wait>(rt: &R, desk: Shared, pass: Caller) -> bool
    requires here { IsOf desk pass }
{
    drop(desk.close(rt, pass));
    true
}

#[test]
fn one_commit_takes_all_that_waits(rt: HostRuntime) -> Result<(), Fail> {
    let alloc = rt.alloc();
    let object = ObjectId::of_kind(ObjectKind::IntegerValue, 1)?;
    let (desk, pass) = desk_of(&rt, alloc, &[])?;
    let pass = fill(&rt, alloc, &desk, pass, object);
    holds(&rt, close(&rt, desk, pass));
    Ok(())
}

// A value is entered, its commit fails, and nothing goes on from there.
fn lose<R: Wait + Abort>(
    rt: &R,
    alloc: Global,
    desk: &Shared,
    pass: Caller,
    object: ObjectId,
) -> Caller
    requires here { IsOf desk.now pass }
    ensures here { IsOf desk.now result }
{
    let pass = enter(rt, alloc, desk, pass, set(object, 51), &Ok(entered(1)));
    let pass = commit(rt, alloc, desk, pass, &Err(CommitFault::DiskFault));
    let stopped = EnterFault::Stopped { at: 3 };
    let pass = enter(rt, alloc, desk, pass, set(object, 50), &Err(stopped));
    let pass = stands(rt, desk, pass, 1, &Standing::NotYet { mark: 0 });
    commit(rt, alloc, desk, pass, &Err(CommitFault::Stopped { at: 3 }))
}

#[test]
fn a_failed_sync_stops_the_desk(rt: HostRuntime) -> Result<(), Fail> {
    let alloc = rt.alloc();
    let object = ObjectId::of_kind(ObjectKind::IntegerValue, 1)?;
    let (desk, pass) = desk_of(&rt, alloc, &[9])?;
    let pass = lose(&rt, alloc, &desk, pass, object);
    holds(&rt, close(&rt, desk, pass));
    Ok(())
}

// Two callers enter a value each, and are one again.
fn split<R: Wait + Abort>(
    rt: &R,
    alloc: Global,
    desk: &Shared,
    pass: Caller,
    object: ObjectId,
) -> Caller
    requires here { IsOf desk.now pass }
    ensures here { IsOf desk.now result }
{
    let (one, two) = match desk.split(pass) {
        Ok(both) => both,
        Err((pass, _)) => return pass,
    };
    let two = enter(rt, alloc, desk, two, set(object, 51), &Ok(entered(1)));
    let one = enter(rt, alloc, desk, one, set(object, 50), &Ok(entered(2)));
    let one = commit(rt, alloc, desk, one, &Ok(2));
    let pass = desk.join(two, one);
    stands(rt, desk, pass, 2, &Standing::Durable { mark: 2 })
}

#[test]
fn two_callers_are_one_again(rt: HostRuntime) -> Result<(), Fail> {
    let alloc = rt.alloc();
    let object = ObjectId::of_kind(ObjectKind::IntegerValue, 1)?;
    let (desk, pass) = desk_of(&rt, alloc, &[])?;
    let pass = split(&rt, alloc, &desk, pass, object);
    holds(&rt, close(&rt, desk, pass));
    Ok(())
}

// Ends a desk, and gives its ground.
fn ground_of<R: Wait>(rt: &R, desk: Shared, pass: Caller) -> MemoryGround
    requires here { IsOf desk pass }
{
    desk.close(rt, pass).into_ground()
}

// Ends a desk, and commits the one event that is pending.
fn settle<R: Wait + Abort>(rt: &R, alloc: Global, desk: Shared, pass: Caller) -> MemoryGround
    requires here { IsOf desk pass }
{
    let floor = desk.close(rt, pass);
    let place = floor.next();
    let (floor, answer) = floor.settle(alloc, place);
    same(rt, &answer, &Ok(1));
    same(rt, &floor.events(), &1);
    same(rt, &floor.durable(), &1);
    same(rt, &floor.lost(), &0);
    floor.into_ground()
}

// A desk opens on a ground, with so many events.
fn opens_with<R: Wait + Abort>(
    rt: &R,
    alloc: Global,
    site: &Site,
    device: MemoryGround,
    events: u64,
) -> bool
    requires site { IsSite site.now }
{
    let (desk, pass) = desk_on(rt, alloc, site, device, events);
    close(rt, desk, pass)
}

// A desk opens on a ground at the site, with so many events.
fn expect_opens<R: Wait + Abort>(
    rt: &R,
    alloc: Global,
    device: MemoryGround,
    events: u64,
) -> Result<(), Fail> {
    let site = plant(alloc)?;
    holds(rt, opens_with(rt, alloc, &site, device, events));
    drop(site);
    Ok(())
}

#[test]
fn what_is_pending_at_the_close_is_settled(rt: HostRuntime) -> Result<(), Fail> {
    let alloc = rt.alloc();
    let object = ObjectId::of_kind(ObjectKind::IntegerValue, 1)?;
    let (desk, pass) = desk_of(&rt, alloc, &[])?;
    let pass = enter(&rt, alloc, &desk, pass, set(object, 51), &Ok(entered(1)));
    let device = settle(&rt, alloc, desk, pass);
    expect_opens(&rt, alloc, device, 1)
}

#[test]
fn a_second_desk_has_the_events_of_the_first(rt: HostRuntime) -> Result<(), Fail> {
    let alloc = rt.alloc();
    let object = ObjectId::of_kind(ObjectKind::IntegerValue, 1)?;
    let (desk, pass) = desk_of(&rt, alloc, &[])?;
    let pass = set_all(&rt, alloc, &desk, pass, object, 3);
    let pass = commit(&rt, alloc, &desk, pass, &Ok(3));
    let device = ground_of(&rt, desk, pass);
    expect_opens(&rt, alloc, device, 3)
}

// ReadProperty of the tank's present value.
const READ: [u8; 17] = [
    0x81, 0x0a, 0x00, 0x11, 0x01, 0x04, 0x00, 0x05, 0x01, 0x0c, 0x0c, 0x0b, 0x40, 0x00, 0x01, 0x19,
    0x55,
];

// Its answer, 51.
const ANSWER: [u8; 20] = [
    0x81, 0x0a, 0x00, 0x14, 0x01, 0x00, 0x30, 0x01, 0x0c, 0x0c, 0x0b, 0x40, 0x00, 0x01, 0x19, 0x55,
    0x3e, 0x31, 0x33, 0x3f,
];

// The operator asks for the tank's present value.
fn read(alloc: Global) -> Result<Input, Fail> {
    Ok(Input::Datagram {
        peer: operator(),
        bytes: Items::of(READ.to_vec(alloc)?),
    })
}

// Whether last of all the answer went out to the operator.
fn has_answered(device: &MemoryGround) -> bool {
    let Some(trace) = device.trace() else {
        return false;
    };
    match trace.last() {
        Some(Entry::Emitted { peer, octets }) => {
            *peer == operator() && octets.as_slice() == &ANSWER[..]
        }
        _ => false,
    }
}

#[test]
fn a_value_that_was_set_is_read(rt: HostRuntime) -> Result<(), Fail> {
    let alloc = rt.alloc();
    let object = ObjectId::of_kind(ObjectKind::IntegerValue, 1)?;
    let question = read(alloc)?;
    let (desk, pass) = desk_of(&rt, alloc, &[])?;
    let pass = enter(&rt, alloc, &desk, pass, set(object, 51), &Ok(entered(1)));
    let pass = enter(&rt, alloc, &desk, pass, question, &Ok(replied(1)));
    let pass = commit(&rt, alloc, &desk, pass, &Ok(1));
    let device = ground_of(&rt, desk, pass);
    holds(&rt, has_answered(&device));
    drop(device);
    Ok(())
}
