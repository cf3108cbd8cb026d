//! The steps of a worker.

ghost use Rattle.std.specs.Prelude.{◌≡◌};
ghost use Rattle.ground_io.specs.Counts.{next_count};

use ground_io::{Gate, Worker};

/// Counts the steps of a worker, each of which goes through a gate first.
#[derive(Drop)]
pub(crate) struct Steps {
    worker: Worker,
    count: u64,
}

impl Steps {
    /// None was made.
    pub(crate) fn new(worker: Worker) -> Steps
        ensures none { result ≡ record { worker = worker; count = 0 } }
    {
        Steps { worker, count: 0 }
    }

    /// Goes through the gate before the next step.
    pub(crate) fn next<W: Gate>(&mut self, gate: &W)
        ensures next { self.new ≡ record self.old { count = next_count self.old.count } }
        ensures passed { W.passed gate.now self.new.worker self.new.count }
    {
        self.count = self.count.saturating_add(1);
        gate.turn(self.worker, self.count);
    }
}
