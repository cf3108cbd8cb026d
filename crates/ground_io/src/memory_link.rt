//! A link in memory.

ghost use Rattle.std.specs.Prelude.{◌≡◌, ◌↔◌, [], Contains, IfOk, IsErr, OnOk, OnErr, Some};
ghost use Rattle.ground_io.specs.Counts.{HasCause, next_count};
ghost use Rattle.ground_io.specs.Link.{FitsInto, Receives};
ghost use Rattle.ground_io.specs.declared.link.Received.TheVariants.{Nothing};

use crate::failing::is_listed_next;
use crate::front::copy_front;
use crate::{Failed, Link, Received};
use bac_values::Send;
use std::marker::Model;

/// A link in memory, some of whose calls fail. Calls are numbered from 1. It finds nothing only where no datagram is
/// left.
#[derive(Debug, Drop)]
pub struct MemoryLink {
    datagrams: Vec<Send>,
    place: usize,
    failing: Vec<u64>,
    calls: u64,
    faults: u64,
}

impl Model for MemoryLink {
    ghost use Rattle.std.specs.Prelude.{◌≤◌, drop, length};
    ghost use Rattle.ground_io.specs.InMemory.{MemoryLinkState};

    ghost Value = { MemoryLinkState };

    ghost view = { λ link. record { left = drop link.place link.datagrams.items; failing = link.failing.items; calls = link.calls; faults = link.faults } };

    ghost invariant = { λ link. link.place ≤ length link.datagrams.items };
}

impl MemoryLink {
    /// A link over which these datagrams come, in their order, and whose calls with these numbers fail.
    pub fn new(datagrams: Vec<Send>, failing: Vec<u64>) -> MemoryLink
        ensures made { result ≡ record { left = datagrams.items; failing = failing.items; calls = 0; faults = 0 } }
    {
        MemoryLink {
            datagrams,
            place: 0,
            failing,
            calls: 0,
            faults: 0,
        }
    }
}

impl Link for MemoryLink {
    ghost left = { λ link. Some link.left };

    ghost faults = { λ link. link.faults };

    fn receive(&mut self, into: &mut [u8]) -> Result<Received, Failed>
        ensures bound { IfOk result (λ received. FitsInto received into.new) }
        ensures datagrams { Receives (Some self.old.left) (Some self.new.left) result into.old into.new }
        ensures cause { HasCause self.old.faults self.new.faults (IsErr result) }
        ensures uncounted { OnOk result (self.new.faults ≡ self.old.faults) }
        ensures counted { OnErr result (self.new.faults ≡ next_count self.old.faults) }
        ensures failing { self.new.failing ≡ self.old.failing }
        ensures calls { self.new.calls ≡ next_count self.old.calls }
        ensures listed { IsErr result ↔ Contains self.old.failing self.new.calls }
        ensures nothing { IfOk result (λ received. (received ≡ Nothing) ↔ (self.old.left ≡ [])) }
        ensures kept { OnErr result (into.new ≡ into.old) }
    {
        if is_listed_next(&self.failing, &mut self.calls) {
            self.faults = self.faults.saturating_add(1);
            return Err(Failed);
        }
        let Some(datagram) = self.datagrams.get(self.place) else {
            return Ok(Received::Nothing);
        };
        let length = copy_front(datagram.bytes.as_slice(), into);
        self.place += 1;
        Ok(Received::Datagram {
            peer: datagram.peer,
            length,
        })
    }
}
