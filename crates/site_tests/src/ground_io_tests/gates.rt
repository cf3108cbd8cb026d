//! Gates.

use super::{expect_image, read_within, write_within};
use crate::comparing::{holds, same};
use bac_values::Peer;
use ground_io::{
    Failed, Filling, FreeGate, Gate, Ground, HeldGround, MemoryGround, MemoryLink, RestingGate,
    StillClock, SystemClock, TimedSocket, UdpLink, Worker,
};
use std::alloc::Global;
use std::io;
use std::net::UdpSocket;
use std::process::Abort;
use std::sync::atomic::{AtomicU64, Ordering};
use std::test::Fail;
use std::time::{Clock, Duration, Instant};

/// A gate that counts its turns, and those that aren't the next one of the committer.
#[derive(Drop)]
struct Counting {
    turns: AtomicU64,
    others: AtomicU64,
}

impl Counting {
    fn new() -> Counting {
        Counting {
            turns: AtomicU64::new(0),
            others: AtomicU64::new(0),
        }
    }

    fn counted(&self) -> (u64, u64) {
        let turns = self.turns.load(Ordering::SeqCst);
        (turns, self.others.load(Ordering::SeqCst))
    }
}

impl Gate for Counting {
    ghost passed = { λ gate worker step. Unit {0} };

    fn turn(&self, worker: Worker, step: u64) {
        let turns = self.turns.fetch_add(1, Ordering::SeqCst);
        if worker != Worker::Committer || step != turns.wrapping_add(1) {
            self.others.fetch_add(1, Ordering::SeqCst);
        }
    }
}

/// A device of four octets, whose first sync fails, goes through the gate at each sync alone.
fn expect_turns<G: Ground>(rt: &impl Abort, device: &mut G, gate: &Counting) {
    same(rt, &device.size(), &Ok(4));
    same(rt, &write_within(device, 1, b"ab"), &Ok(()));
    same(rt, &read_within(device, 0), &Ok([7, 97, 98, 7]));
    same(rt, &device.emit(Peer::console(), b"line"), &Ok(()));
    same(rt, &gate.counted(), &(0, 0));
    same(rt, &device.sync(), &Err(Failed));
    same(rt, &gate.counted(), &(1, 0));
    same(rt, &device.sync(), &Ok(()));
    same(rt, &device.sync(), &Ok(()));
    same(rt, &gate.counted(), &(3, 0));
}

#[test]
fn held_ground_goes_through_its_gate_before_each_sync_and_else_never(
    rt: HostRuntime,
) -> Result<(), Fail> {
    let alloc = rt.alloc();
    let gate = Counting::new();
    let inner = MemoryGround::new(alloc, vec![in alloc; 7u8; 4]?, vec![in alloc; 7u64]?);
    expect_turns(&rt, &mut HeldGround::new(inner, &gate), &gate);
    Ok(())
}

/// A device of four octets, of which two were written through a gate that holds nobody.
fn held_and_written(alloc: Global) -> Result<HeldGround<FreeGate>, Fail> {
    let inner = MemoryGround::new(alloc, vec![in alloc; 7u8; 4]?, Vec::new(alloc));
    let mut device = HeldGround::new(inner, FreeGate);
    let _ = write_within(&mut device, 1, b"ab");
    Ok(device)
}

#[test]
fn held_ground_shows_its_inner_ground(rt: HostRuntime) -> Result<(), Fail> {
    let device = held_and_written(rt.alloc())?;
    same(&rt, &device.inner().contents(), &[7, 97, 98, 7].as_slice());
    let crash = (1, Filling::Octet(0));
    expect_image(&rt, rt.alloc(), device.inner(), crash, &[7, 0, 0, 7])
}

/// A system that counts the milliseconds for which it slept.
#[derive(Drop)]
struct Sleeping(AtomicU64);

impl Clock for Sleeping {
    fn monotonic(&self) -> io::Result<Duration> {
        Ok(Duration::ZERO)
    }

    fn since_1970(&self) -> io::Result<Duration> {
        Ok(Duration::ZERO)
    }

    fn sleep(&self, duration: Duration) {
        let milliseconds = u64::try_from(duration.as_millis()).unwrap_or(u64::MAX);
        self.0.fetch_add(milliseconds, Ordering::SeqCst);
    }
}

#[test]
fn resting_gate_holds_the_ticker_and_the_committer_and_never_the_receiver(rt: HostRuntime) {
    let system = Sleeping(AtomicU64::new(0));
    let gate = RestingGate::new(&system, Duration::from_millis(5));
    for (worker, slept) in [
        (Worker::Receiver, 0),
        (Worker::Ticker, 5),
        (Worker::Receiver, 5),
        (Worker::Committer, 10),
        (Worker::Ticker, 15),
    ] {
        gate.turn(worker, 1);
        same(&rt, &system.0.load(Ordering::SeqCst), &slept);
    }
}

#[test]
fn resting_gate_really_waits(rt: HostRuntime) -> Result<(), Fail> {
    let gate = RestingGate::new(rt.clone()?, Duration::from_millis(2));
    let begin = Instant::now(&rt)?;
    gate.turn(Worker::Ticker, 1);
    holds(&rt, begin.elapsed(&rt)? >= Duration::from_millis(2));
    Ok(())
}

#[test]
fn free_gate_holds_nobody(rt: HostRuntime) {
    for worker in [Worker::Receiver, Worker::Ticker, Worker::Committer] {
        FreeGate.turn(worker, 1);
        same(&rt, &worker, &worker);
    }
}

fn goes_to_a_thread<T: Send>(_it: &T) {}

fn is_shared_by_threads<T: Sync>(_it: &T) {}

#[test]
fn grounds_go_to_threads(rt: HostRuntime) {
    let gate = Counting::new();
    let inner = MemoryGround::new(rt.alloc(), Vec::new(rt.alloc()), Vec::new(rt.alloc()));
    goes_to_a_thread(&HeldGround::new(inner, &gate));
}

#[test]
fn links_go_to_threads(rt: HostRuntime) -> Result<(), Fail> {
    goes_to_a_thread(&MemoryLink::new(Vec::new(rt.alloc()), Vec::new(rt.alloc())));
    let socket = UdpSocket::bind(&rt, "127.0.0.1:0")?;
    let timed = TimedSocket::new(&socket, Duration::from_secs(1))?;
    goes_to_a_thread(&UdpLink::new(timed));
    Ok(())
}

#[test]
fn clocks_and_gates_are_shared(rt: HostRuntime) -> Result<(), Fail> {
    is_shared_by_threads(&StillClock::new(1_700_000_000_000));
    is_shared_by_threads(&SystemClock::new(rt.clone()?));
    is_shared_by_threads(&RestingGate::new(rt.clone()?, Duration::ZERO));
    is_shared_by_threads(&FreeGate);
    Ok(())
}
