//! Servers over grounds and links in memory.

ghost use Rattle.alarm_core.specs.Sites.{IsSite};

use crate::comparing::{holds, same};
use crate::desk_tests::{TEXT, blank};
use crate::plant::{START, late_plant, operator, plant};
use alarm_core::Site;
use bac_values::{Items, MOST_PENDING_CALLS, Peer, Send as Message};
use ending_link::{EndingLink, NotingGround, SharedFlag};
use floor_desk::{Closed, Desk, End, serve_desk};
use ground_io::{
    Clock, Entry, FreeGate, Gate, Ground, HeldGround, Link, MemoryGround, MemoryLink, StillClock,
    Worker,
};
use std::alloc::Global;
use std::hint;
use std::process::Abort;
use std::sync::Wait;
use std::sync::atomic::{AtomicU64, Ordering};
use std::test::Fail;
use std::thread::Threads;

/// Who-Is, and the I-Am of the device.
const WHO_IS: [u8; 8] = [0x81, 0x0a, 0x00, 0x08, 0x01, 0x00, 0x10, 0x08];

const I_AM: [u8; 21] = [
    0x81, 0x0a, 0x00, 0x15, 0x01, 0x00, 0x10, 0x00, 0xc4, 0x02, 0x00, 0x03, 0xe9, 0x22, 0x05, 0xc4,
    0x91, 0x03, 0x22, 0x03, 0xe7,
];

/// WriteProperty of TRUE to the event detection's inhibition of the integer value.
const INHIBIT: [u8; 21] = [
    0x81, 0x0a, 0x00, 0x15, 0x01, 0x04, 0x00, 0x05, 0x01, 0x0f, 0x0c, 0x0b, 0x40, 0x00, 0x01, 0x1a,
    0x01, 0x62, 0x3e, 0x11, 0x3f,
];

/// So often a gate looks at most, before it lets a worker go.
const LOOKS: u32 = 1_000_000_000;

fn asker() -> Peer {
    Peer::local(0x0a00_0009, 47808)
}

/// A datagram with these octets.
fn datagram(alloc: Global, octets: &[u8]) -> Result<Message, Fail> {
    Ok(Message {
        peer: asker(),
        bytes: Items::of(octets.to_vec(alloc)?),
    })
}

/// A link on which a datagram with these octets comes.
fn link_of(alloc: Global, octets: &[u8]) -> Result<MemoryLink, Fail> {
    let datagrams = vec![in alloc; datagram(alloc, octets)?]?;
    Ok(MemoryLink::new(datagrams, Vec::new(alloc)))
}

/// What is served is this.
fn expect_served<R: Abort>(rt: &R, closed: &Closed, received: u64, events: u64) {
    let wanted = Closed {
        end: End::Done,
        received,
        events,
        durable: events,
        lost: 0,
    };
    same(rt, closed, &wanted);
}

/// A desk on a blank ground serves so many datagrams of a link, at the site's start.
fn serve_on<
    R: Threads + Wait + Sync + Abort,
    G: Ground + Send + Drop,
    L: Link + Send + Drop,
    W: Gate + Sync,
>(rt: &R, alloc: Global, site: &Site, device: G, link: L, count: u32, gate: &W) -> (G, Closed)
    requires site { IsSite site.now }
{
    let (desk, pass) = match Desk::open(alloc, site, TEXT, device) {
        Ok((desk, pass, _)) => (desk, pass),
        Err(_) => panic!(rt; "the journal doesn't open"),
    };
    let clock = StillClock::new(START);
    let (device, link, closed) = serve_desk(rt, alloc, desk, pass, count, link, &clock, gate);
    drop(link);
    (device, closed)
}

/// Whether these octets, and no others, went out to the peer so many times.
fn sent_alone(device: &MemoryGround, wanted: &[u8], times: u32) -> bool {
    let Some(trace) = device.trace() else {
        return false;
    };
    let mut count = 0u32;
    for entry in trace {
        match entry {
            Entry::Emitted { peer, octets } => {
                if *peer != asker() || octets.as_slice() != wanted {
                    return false;
                }
                count = count.saturating_add(1);
            }
            Entry::Lost { .. } => return false,
            _ => {}
        }
    }
    count == times
}

/// The device answers a Who-Is.
fn expect_i_am<R: Threads + Wait + Sync + Abort>(
    rt: &R,
    alloc: Global,
    site: &Site,
) -> Result<(), Fail>
    requires site { IsSite site.now }
{
    let device = blank(alloc, site, &[])?;
    let link = link_of(alloc, &WHO_IS)?;
    let (device, closed) = serve_on(rt, alloc, site, device, link, 1, &FreeGate);
    expect_served(rt, &closed, 1, 0);
    holds(rt, sent_alone(&device, &I_AM, 1));
    drop(device);
    Ok(())
}

#[test]
fn who_is_is_answered(rt: HostRuntime) -> Result<(), Fail> {
    let alloc = rt.alloc();
    let site = plant(alloc)?;
    let answered = expect_i_am(&rt, alloc, &site);
    drop(site);
    answered
}

/// A server whose disk fails ends, though a thousand datagrams are awaited.
fn expect_end<R: Threads + Wait + Sync + Abort>(
    rt: &R,
    alloc: Global,
    site: &Site,
) -> Result<(), Fail>
    requires site { IsSite site.now }
{
    let flag = SharedFlag::new();
    let device = NotingGround::new(blank(alloc, site, &[9])?, &flag);
    let link = EndingLink::new(link_of(alloc, &INHIBIT)?, &flag);
    let (device, closed) = serve_on(rt, alloc, site, device, link, 1_000, &FreeGate);
    drop(device);
    let wanted = Closed {
        end: End::DiskFault,
        received: 1,
        events: 1,
        durable: 0,
        lost: 0,
    };
    same(rt, &closed, &wanted);
    Ok(())
}

#[test]
fn a_server_ends_by_itself_once_its_disk_has_failed(rt: HostRuntime) -> Result<(), Fail> {
    let alloc = rt.alloc();
    let site = plant(alloc)?;
    let ended = expect_end(&rt, alloc, &site);
    drop(site);
    ended
}

/// A gate that holds the receiver's first turn until a later one of the ticker's, and knows whether that came.
#[derive(Drop)]
struct UntilTicked {
    ticks: AtomicU64,
    wanted: u64,
    came: AtomicU64,
}

impl UntilTicked {
    /// Until the ticker's turn with this number.
    fn new(wanted: u64) -> UntilTicked {
        UntilTicked {
            ticks: AtomicU64::new(0),
            wanted,
            came: AtomicU64::new(0),
        }
    }
}

/// Waits until a count has come so far, and tells it where it does.
fn wait_for(count: &AtomicU64, wanted: u64, came: &AtomicU64) {
    for _ in 0..LOOKS {
        if count.load(Ordering::SeqCst) >= wanted {
            came.store(1, Ordering::SeqCst);
            return;
        }
        hint::spin_loop();
    }
}

impl Gate for UntilTicked {
    ghost passed = { λ gate worker step. Unit {0} };

    fn turn(&self, worker: Worker, step: u64) {
        match worker {
            Worker::Ticker => self.ticks.store(step, Ordering::SeqCst),
            Worker::Receiver if step == 1 => wait_for(&self.ticks, self.wanted, &self.came),
            _ => {}
        }
    }
}

/// The ticker takes three turns before the receiver, which asks for its own, takes one.
fn expect_ticks<R: Threads + Wait + Sync + Abort>(
    rt: &R,
    alloc: Global,
    site: &Site,
) -> Result<(), Fail>
    requires site { IsSite site.now }
{
    let device = blank(alloc, site, &[])?;
    let link = link_of(alloc, &WHO_IS)?;
    let gate = UntilTicked::new(3);
    let (device, closed) = serve_on(rt, alloc, site, device, link, 1, &gate);
    drop(device);
    expect_served(rt, &closed, 1, 0);
    same(rt, &gate.came.load(Ordering::SeqCst), &1);
    Ok(())
}

#[test]
fn the_ticker_goes_on_beside_the_receiver(rt: HostRuntime) -> Result<(), Fail> {
    let alloc = rt.alloc();
    let site = plant(alloc)?;
    let ticked = expect_ticks(&rt, alloc, &site);
    drop(site);
    ticked
}

/// A gate that holds the receiver's second turn until the ground's fourth sync: the first that writes an event, on a
/// blank device.
#[derive(Drop)]
struct UntilSynced {
    syncs: AtomicU64,
    came: AtomicU64,
}

impl Gate for UntilSynced {
    ghost passed = { λ gate worker step. Unit {0} };

    fn turn(&self, worker: Worker, step: u64) {
        if worker == Worker::Receiver && step == 2 {
            wait_for(&self.syncs, 4, &self.came);
        }
    }
}

/// A gate that counts the syncs of a ground.
#[derive(Drop)]
struct Syncs<'a> {
    gate: &'a UntilSynced,
}

impl<'a> Gate for Syncs<'a> {
    ghost passed = { λ gate worker step. Unit {0} };

    fn turn(&self, _worker: Worker, step: u64) {
        self.gate.syncs.store(step, Ordering::SeqCst);
    }
}

/// A link on which the inhibition comes, and a Who-Is behind it.
fn link_of_two(alloc: Global) -> Result<MemoryLink, Fail> {
    let datagrams = vec![in alloc; datagram(alloc, &INHIBIT)?, datagram(alloc, &WHO_IS)?]?;
    Ok(MemoryLink::new(datagrams, Vec::new(alloc)))
}

/// The first event is written before the receiver, which asks for it, takes its second turn.
fn expect_written<R: Threads + Wait + Sync + Abort>(
    rt: &R,
    alloc: Global,
    site: &Site,
) -> Result<(), Fail>
    requires site { IsSite site.now }
{
    let gate = UntilSynced {
        syncs: AtomicU64::new(0),
        came: AtomicU64::new(0),
    };
    let device = HeldGround::new(blank(alloc, site, &[])?, Syncs { gate: &gate });
    let link = link_of_two(alloc)?;
    let (device, closed) = serve_on(rt, alloc, site, device, link, 2, &gate);
    drop(device);
    expect_served(rt, &closed, 2, 1);
    same(rt, &gate.came.load(Ordering::SeqCst), &1);
    Ok(())
}

#[test]
fn the_committer_writes_beside_the_receiver(rt: HostRuntime) -> Result<(), Fail> {
    let alloc = rt.alloc();
    let site = plant(alloc)?;
    let written = expect_written(&rt, alloc, &site);
    drop(site);
    written
}

/// A gate that counts the receiver's turns.
#[derive(Drop)]
struct Turns {
    turns: AtomicU64,
    came: AtomicU64,
}

impl Gate for Turns {
    ghost passed = { λ gate worker step. Unit {0} };

    fn turn(&self, worker: Worker, step: u64) {
        if worker == Worker::Receiver {
            self.turns.store(step, Ordering::SeqCst);
        }
    }
}

/// A gate that holds the ground's fourth sync, the first that writes an event, until the receiver's third turn.
#[derive(Drop)]
struct UntilEntered<'a> {
    gate: &'a Turns,
}

impl<'a> Gate for UntilEntered<'a> {
    ghost passed = { λ gate worker step. Unit {0} };

    fn turn(&self, _worker: Worker, step: u64) {
        if step == 4 {
            wait_for(&self.gate.turns, 3, &self.gate.came);
        }
    }
}

/// A link on which the inhibition comes, and two Who-Is behind it.
fn link_of_three(alloc: Global) -> Result<MemoryLink, Fail> {
    let datagrams = vec![in alloc;
        datagram(alloc, &INHIBIT)?,
        datagram(alloc, &WHO_IS)?,
        datagram(alloc, &WHO_IS)?,
    ]?;
    Ok(MemoryLink::new(datagrams, Vec::new(alloc)))
}

/// While the first event is on its way to the disk, the receiver enters what comes next.
fn expect_entered<R: Threads + Wait + Sync + Abort>(
    rt: &R,
    alloc: Global,
    site: &Site,
) -> Result<(), Fail>
    requires site { IsSite site.now }
{
    let gate = Turns {
        turns: AtomicU64::new(0),
        came: AtomicU64::new(0),
    };
    let device = HeldGround::new(blank(alloc, site, &[])?, UntilEntered { gate: &gate });
    let link = link_of_three(alloc)?;
    let (device, closed) = serve_on(rt, alloc, site, device, link, 3, &gate);
    drop(device);
    expect_served(rt, &closed, 3, 1);
    same(rt, &gate.came.load(Ordering::SeqCst), &1);
    Ok(())
}

#[test]
fn the_receiver_goes_on_beside_a_sync(rt: HostRuntime) -> Result<(), Fail> {
    let alloc = rt.alloc();
    let site = plant(alloc)?;
    let entered = expect_entered(&rt, alloc, &site);
    drop(site);
    entered
}

/// So many datagrams come in one burst: more than may wait for a commit.
const BURST: u32 = MOST_PENDING_CALLS as u32 + 76;

/// A link on which so many Who-Is come.
fn link_of_many(alloc: Global, count: u32) -> Result<MemoryLink, Fail> {
    let mut datagrams = Vec::new(alloc);
    for _ in 0..count {
        datagrams.push(datagram(alloc, &WHO_IS)?)?;
    }
    Ok(MemoryLink::new(datagrams, Vec::new(alloc)))
}

/// A gate that holds the committer's first turn until the receiver has taken one more than may wait for a commit, and then
/// its own to commit.
#[derive(Drop)]
struct UntilBehind {
    turns: AtomicU64,
    came: AtomicU64,
}

impl Gate for UntilBehind {
    ghost passed = { λ gate worker step. Unit {0} };

    fn turn(&self, worker: Worker, step: u64) {
        match worker {
            Worker::Receiver => self.turns.store(step, Ordering::SeqCst),
            Worker::Committer if step == 1 => {
                wait_for(&self.turns, MOST_PENDING_CALLS + 2, &self.came);
            }
            _ => {}
        }
    }
}

/// While nobody else commits, more datagrams come in one burst than may wait for a commit, and each is answered: the
/// receiver commits by itself, and tries the datagram again for which that had to come first.
fn expect_burst<R: Threads + Wait + Sync + Abort>(
    rt: &R,
    alloc: Global,
    site: &Site,
) -> Result<(), Fail>
    requires site { IsSite site.now }
{
    let device = blank(alloc, site, &[])?;
    let link = link_of_many(alloc, BURST)?;
    let gate = UntilBehind {
        turns: AtomicU64::new(0),
        came: AtomicU64::new(0),
    };
    let (device, closed) = serve_on(rt, alloc, site, device, link, BURST, &gate);
    expect_served(rt, &closed, u64::from(BURST), 0);
    holds(rt, sent_alone(&device, &I_AM, BURST));
    same(rt, &gate.came.load(Ordering::SeqCst), &1);
    drop(device);
    Ok(())
}

#[test]
fn a_burst_of_more_than_may_wait_is_answered(rt: HostRuntime) -> Result<(), Fail> {
    let alloc = rt.alloc();
    let site = plant(alloc)?;
    let answered = expect_burst(&rt, alloc, &site);
    drop(site);
    answered
}

/// A clock that has gone on by a second at each look.
#[derive(Drop)]
struct PassingClock {
    looks: AtomicU64,
}

/// So many seconds it goes on at most.
const MOST_SECONDS: u64 = 1_000_000;

impl Clock for PassingClock {
    ghost use Rattle.bac_values.specs.Moments.{IsMoment};

    ghost shows = { λ _ moment. IsMoment moment };

    fn now(&self) -> u64 {
        let looks = self.looks.fetch_add(1, Ordering::SeqCst);
        START + looks.min(MOST_SECONDS) * 1_000
    }
}

/// Whether something went out to the operator.
fn operator_was_told(device: &MemoryGround) -> bool {
    let Some(trace) = device.trace() else {
        return false;
    };
    for entry in trace {
        if let Entry::Emitted { peer, .. } = entry {
            if *peer == operator() {
                return true;
            }
        }
    }
    false
}

/// A value is above its limit for longer than its delay, by a clock that each worker has to look at again and again: the
/// operator is told of it.
fn expect_alarm<R: Threads + Wait + Sync + Abort>(
    rt: &R,
    alloc: Global,
    site: &Site,
) -> Result<(), Fail>
    requires site { IsSite site.now }
{
    let device = blank(alloc, site, &[])?;
    let link = link_of(alloc, &WHO_IS)?;
    let (desk, pass) = match Desk::open(alloc, site, TEXT, device) {
        Ok((desk, pass, _)) => (desk, pass),
        Err(_) => panic!(rt; "the journal doesn't open"),
    };
    let gate = UntilTicked::new(60);
    let clock = PassingClock {
        looks: AtomicU64::new(0),
    };
    let (device, link, closed) = serve_desk(rt, alloc, desk, pass, 1, link, &clock, &gate);
    drop(link);
    same(rt, &closed.end, &End::Done);
    same(rt, &gate.came.load(Ordering::SeqCst), &1);
    holds(rt, operator_was_told(&device));
    drop(device);
    Ok(())
}

#[test]
fn a_delay_ends_as_the_clock_goes_on(rt: HostRuntime) -> Result<(), Fail> {
    let alloc = rt.alloc();
    let site = late_plant(alloc)?;
    let told = expect_alarm(&rt, alloc, &site);
    drop(site);
    told
}
