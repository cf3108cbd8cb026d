//! A gate at which a server rests until a datagram was entered.

use ground_io::{Gate, Worker};
use std::sync::Wait;
use std::sync::atomic::{AtomicU64, Ordering};
use std::thread;
use std::time::{Clock, Duration};

/// A gate at which a server without work rests. It never holds the receiver. It holds the ticker for a while before each
/// step, and the committer as long, but no longer than until a datagram was entered.
#[derive(Drop)]
pub struct WakingGate<R: Clock + Wait> {
    rt: R,
    rest: Duration,
    entered: AtomicU64,
    seen: AtomicU64,
    sleepers: AtomicU64,
}

impl<R: Clock + Wait> WakingGate<R> {
    /// A gate that holds a worker for so long at most.
    pub fn new(rt: R, rest: Duration) -> WakingGate<R> {
        WakingGate {
            rt,
            rest,
            entered: AtomicU64::new(0),
            seen: AtomicU64::new(0),
            sleepers: AtomicU64::new(0),
        }
    }

    /// Something was entered: the committer goes on, and is woken where it sleeps.
    pub fn wake(&self) {
        self.entered.fetch_add(1, Ordering::SeqCst);
        if self.sleepers.load(Ordering::SeqCst) != 0 {
            self.entered.wake_all();
        }
    }

    // Sleeps for a while, unless more was entered than this, and until more is: who wakes counts first and looks for
    // sleepers then, and a sleeper is counted before the system compares.
    fn sleep(&self, seen: u64) {
        self.sleepers.fetch_add(1, Ordering::SeqCst);
        let low = (seen & 0xffff_ffff) as u32;
        self.entered.park_timeout(&self.rt, low, self.rest);
        self.sleepers.fetch_sub(1, Ordering::SeqCst);
    }

    // Holds the committer, where nothing was entered since it was held last.
    fn hold(&self) {
        let seen = self.seen.load(Ordering::SeqCst);
        if self.entered.load(Ordering::SeqCst) == seen {
            self.sleep(seen);
        }
        let entered = self.entered.load(Ordering::SeqCst);
        self.seen.store(entered, Ordering::SeqCst);
    }
}

impl<R: Clock + Wait> Gate for WakingGate<R> {
    ghost passed = { λ gate worker step. Unit {0} };

    fn turn(&self, worker: Worker, _step: u64) {
        match worker {
            Worker::Receiver => {}
            Worker::Ticker => thread::sleep(&self.rt, self.rest),
            Worker::Committer => self.hold(),
        }
    }
}
