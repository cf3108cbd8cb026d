//! The moments at which indices are due, as callers see them.

ghost use Rattle.std.specs.Prelude.{◌≡◌, ◌<◌, ◌≤◌, IfOk, None, length, replicate, slice_set};
ghost use Rattle.held_timers.specs.Dues.{least_due, first_due_from};

use crate::tournament::{first_due, replace};
use bac_values::NoMemory;
use std::alloc::Global;
use std::marker::Model;

/// A due moment, or none, for each index below a count. Contracts see the list of them.
#[derive(Debug, Drop)]
pub struct Timers {
    count: u32,
    leaves: usize,
    nodes: Vec<Option<u64>>,
}

impl Model for Timers {
    ghost use Rattle.std.specs.Prelude.{List, ℕ, Option, take, drop};
    ghost use Rattle.held_timers.specs.TournamentSteps.{HoldsTimers};

    ghost Value = { List (Option ℕ) };

    ghost view = { λ timers. take timers.count (drop timers.leaves timers.nodes.items) };

    ghost invariant = { λ timers. HoldsTimers timers.count timers.leaves timers.nodes.items };
}

impl Timers {
    /// Timers for so many indices, none of which is due.
    pub fn new(alloc: Global, count: u32) -> Result<Timers, NoMemory>
        ensures none { IfOk result (λ timers. timers ≡ replicate count None) }
    {
        let leaves = (count as usize).next_power_of_two();
        let nodes = vec![in alloc; None; 2 * leaves]?;
        Ok(Timers {
            count,
            leaves,
            nodes,
        })
    }

    /// Sets the due moment of an index, which may be any number, or takes it away.
    pub fn set_due(&mut self, index: u32, due: Option<u64>)
        requires within { index < length self.old }
        ensures set { self.new ≡ slice_set self.old index due }
    {
        replace(&mut self.nodes, self.leaves, index as usize, due);
    }

    /// The least due moment, if there is one.
    pub fn next_due(&self) -> Option<u64>
        ensures least { result ≡ least_due self.now }
    {
        self.nodes[1]
    }

    /// The least index at or above another whose due moment isn't after a moment.
    pub fn due_from(&self, moment: u64, index: u32) -> Option<u32>
        requires within { index ≤ length self.now }
        ensures first { result ≡ first_due_from self.now moment index }
    {
        if index == self.count {
            return None;
        }
        let first = first_due(&self.nodes, self.leaves, moment, index as usize)?;
        Some(first as u32)
    }
}
