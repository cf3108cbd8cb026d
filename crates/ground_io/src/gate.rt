//! What a gate is, and one that holds nobody.

ghost use Rattle.std.specs.Prelude.{ℕ};
ghost use Rattle.ground_io.specs.declared.gate.Worker.{Worker};

/// A worker that runs beside others.
#[derive(Clone, Copy, Debug, PartialEq, Eq)]
pub enum Worker {
    /// Takes datagrams from the link.
    Receiver,
    /// Lets time pass.
    Ticker,
    /// Brings what happened to the ground.
    Committer,
}

/// A place through which a worker goes before each of its steps, and which may hold it there.
pub trait Gate {
    /// That the gate lets a worker take a step: what a passage leaves behind. Nothing else gives it.
    ghost passed: { Self → Worker → ℕ → Type 0 };

    /// Comes before a step of a worker, whose steps are numbered from 1.
    fn turn(&self, worker: Worker, step: u64)
        ensures passed { passed self.now worker step };
}

/// A gate that holds nobody.
#[derive(Clone, Copy, Debug)]
pub struct FreeGate;

impl Gate for FreeGate {
    ghost passed = { λ gate worker step. Unit {0} };

    fn turn(&self, _worker: Worker, _step: u64) {}
}

// A gate that is lent is the gate.
impl<W: Gate> Gate for &W {
    ghost passed = { λ gate worker step. W.passed gate.now worker step };

    fn turn(&self, worker: Worker, step: u64) {
        (**self).turn(worker, step)
    }
}
