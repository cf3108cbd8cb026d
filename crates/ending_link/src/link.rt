//! A link that fails once a flag is raised.

ghost use Rattle.std.specs.Prelude.{◌≡◌, IfOk, IsErr, OnOk};
ghost use Rattle.ending_link.specs.Ending.{IsCallOrEnd, faults_with};
ghost use Rattle.ground_io.specs.Counts.{HasCause};
ghost use Rattle.ground_io.specs.Link.{FitsInto, Receives};

use crate::{AskedLink, Flag};
use ground_io::{Failed, Link, Received};
use std::marker::Model;

/// A link that is its inner link, until a call finds the flag raised: that call fails, and takes no datagram. It counts
/// the calls that it has failed by itself, and the inner link counts its own.
#[derive(Drop)]
pub struct EndingLink<L: AskedLink, F: Flag> {
    inner: L,
    flag: F,
    ended: u64,
}

impl<L: AskedLink, F: Flag> Model for EndingLink<L, F> {
    ghost use Rattle.ending_link.specs.Ending.{EndingLinkState};

    ghost Value = { EndingLinkState L F };

    ghost view = { λ link. record { inner = link.inner; flag = link.flag; ended = link.ended } };
}

impl<L: AskedLink, F: Flag> EndingLink<L, F> {
    /// The inner link, with the flag that ends it.
    pub fn new(inner: L, flag: F) -> EndingLink<L, F>
        ensures made { result ≡ record { inner = inner; flag = flag; ended = 0 } }
    {
        EndingLink {
            inner,
            flag,
            ended: 0,
        }
    }
}

impl<L: AskedLink, F: Flag + Drop> EndingLink<L, F> {
    /// The inner link.
    pub fn into_inner(self) -> L
        ensures inner { result ≡ self.inner }
    {
        self.inner
    }
}

impl<L: AskedLink, F: Flag> Link for EndingLink<L, F> {
    ghost left = { λ link. L.left link.inner };

    ghost faults = { λ link. faults_with L.faults link };

    fn receive(&mut self, into: &mut [u8]) -> Result<Received, Failed>
        ensures bound { IfOk result (λ received. FitsInto received into.new) }
        ensures datagrams { Receives (L.left self.old.inner) (L.left self.new.inner) result into.old into.new }
        ensures cause { HasCause (faults_with L.faults self.old) (faults_with L.faults self.new) (IsErr result) }
        ensures uncounted { OnOk result (faults_with L.faults self.new ≡ faults_with L.faults self.old) }
        ensures looked { IsCallOrEnd L.asked F.seen self.old self.new (IsErr result) }
    {
        if self.flag.is_raised() {
            self.ended = self.ended.saturating_add(1);
            return Err(Failed);
        }
        self.inner.ask(into)
    }
}
