//! A gate at which a server without work rests.

use crate::{Gate, Worker};
use std::thread;
use std::time::{Clock, Duration};

/// A gate that holds the ticker and the committer for a while before each of their steps, so that a server without
/// work rests, and that never holds the receiver.
#[derive(Drop)]
pub struct RestingGate<R: Clock> {
    rt: R,
    rest: Duration,
}

impl<R: Clock> RestingGate<R> {
    /// A gate that holds them for so long.
    pub fn new(rt: R, rest: Duration) -> RestingGate<R> {
        RestingGate { rt, rest }
    }
}

impl<R: Clock> Gate for RestingGate<R> {
    ghost passed = { λ gate worker step. Unit {0} };

    fn turn(&self, worker: Worker, _step: u64) {
        match worker {
            Worker::Receiver => {}
            Worker::Ticker | Worker::Committer => thread::sleep(&self.rt, self.rest),
        }
    }
}
