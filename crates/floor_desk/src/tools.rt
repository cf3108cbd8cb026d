//! What the workers of a server have in common.

ghost use Rattle.std.specs.Prelude.{◌≡◌};

use crate::desk::Desk;
use ground_io::{Clock, Gate, Ground};
use std::alloc::Global;
use std::sync::Wait;

/// What a worker works with.
#[derive(Drop)]
pub(crate) struct Tools<'a, R: Wait, G: Ground, K: Clock, W: Gate> {
    /// By which it may wait.
    pub(crate) rt: &'a R,
    /// Where its memory comes from.
    pub(crate) alloc: Global,
    /// The desk at which all of them work.
    pub(crate) desk: &'a Desk<G>,
    /// The clock that shows it the moment.
    pub(crate) clock: &'a K,
    /// The gate through which it goes before each step.
    pub(crate) gate: &'a W,
}

impl<'a, R: Wait, G: Ground, K: Clock, W: Gate> Tools<'a, R, G, K, W> {
    /// All of them together.
    pub(crate) fn of(
        rt: &'a R,
        alloc: Global,
        desk: &'a Desk<G>,
        clock: &'a K,
        gate: &'a W,
    ) -> Tools<'a, R, G, K, W>
        ensures desk { result.desk.now ≡ desk.now }
        ensures clock { result.clock.now ≡ clock.now }
        ensures gate { result.gate.now ≡ gate.now }
    {
        Tools {
            rt,
            alloc,
            desk,
            clock,
            gate,
        }
    }
}
