//! A link that lets the committer go on.

ghost use Rattle.std.specs.Prelude.{◌≡◌, IfOk, IsErr, OnOk};
ghost use Rattle.ground_io.specs.Counts.{HasCause};
ghost use Rattle.ground_io.specs.Link.{FitsInto, Receives};

use crate::waking_gate::WakingGate;
use ending_link::AskedLink;
use ground_io::{Failed, Link, Received};
use std::marker::Model;
use std::sync::Wait;
use std::time::Clock;

/// A link that is its inner link, call for call, which each call asks. Whoever asks for a datagram has entered the one before,
/// so a gate first lets the committer go on.
#[derive(Drop)]
pub struct WakingLink<'a, L: AskedLink, R: Clock + Wait> {
    inner: L,
    gate: &'a WakingGate<R>,
}

// The gate promises nothing, so it is seen as the inner link.
impl<'a, L: AskedLink, R: Clock + Wait> Model for WakingLink<'a, L, R> {
    ghost Value = { L };

    ghost view = { λ link. link.inner };
}

impl<'a, L: AskedLink, R: Clock + Wait> WakingLink<'a, L, R> {
    /// The inner link, with the gate at which the committer rests.
    pub fn new(inner: L, gate: &'a WakingGate<R>) -> WakingLink<'a, L, R>
        ensures made { result ≡ inner }
    {
        WakingLink { inner, gate }
    }

    /// The inner link.
    pub fn into_inner(self) -> L
        ensures inner { result ≡ self.entry }
    {
        let WakingLink { inner, gate: _ } = self;
        inner
    }
}

impl<'a, L: AskedLink, R: Clock + Wait> Link for WakingLink<'a, L, R> {
    ghost left = { λ link. L.left link };

    ghost faults = { λ link. L.faults link };

    fn receive(&mut self, into: &mut [u8]) -> Result<Received, Failed>
        ensures bound { IfOk result (λ received. FitsInto received into.new) }
        ensures datagrams { Receives (L.left self.old) (L.left self.new) result into.old into.new }
        ensures cause { HasCause (L.faults self.old) (L.faults self.new) (IsErr result) }
        ensures uncounted { OnOk result (L.faults self.new ≡ L.faults self.old) }
        ensures asked { L.asked self.old self.new }
    {
        self.gate.wake();
        self.inner.ask(into)
    }
}

impl<'a, L: AskedLink, R: Clock + Wait> AskedLink for WakingLink<'a, L, R> {
    ghost asked = { λ old new. L.asked old new };

    fn ask(&mut self, into: &mut [u8]) -> Result<Received, Failed> {
        self.receive(into)
    }
}
