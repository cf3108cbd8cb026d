//! Links that tell that they were asked.

ghost use Rattle.std.specs.Prelude.{◌≡◌, IfOk, IsErr, OnErr, OnOk};
ghost use Rattle.ground_io.specs.Counts.{HasCause};
ghost use Rattle.ground_io.specs.Link.{FitsInto, Receives};

use ground_io::{Failed, Link, MemoryLink, Received, UdpLink};

/// A link whose calls leave behind that it was asked.
pub trait AskedLink: Link {
    /// That the link was asked, and is so now: what a call leaves behind. Nothing else gives it.
    ghost asked: { Self → Self → Type 0 };

    /// Receives as the link does.
    fn ask(&mut self, into: &mut [u8]) -> Result<Received, Failed>
        ensures bound { IfOk result (λ received. FitsInto received into.new) }
        ensures datagrams { Receives (Self.left self.old) (Self.left self.new) result into.old into.new }
        ensures cause { HasCause (Self.faults self.old) (Self.faults self.new) (IsErr result) }
        ensures uncounted { OnOk result (Self.faults self.new ≡ Self.faults self.old) }
        ensures asked { asked self.old self.new };
}

// Its calls are numbered.
impl AskedLink for MemoryLink {
    ghost use Rattle.std.specs.Prelude.{◌≡◌};
    ghost use Rattle.ground_io.specs.Counts.{next_count};

    ghost asked = { λ old new. new.calls ≡ next_count old.calls };

    fn ask(&mut self, into: &mut [u8]) -> Result<Received, Failed> {
        self.receive(into)
    }
}

// A socket tells what comes, and numbers no calls: that it is asked is what this call is trusted with.
impl AskedLink for UdpLink {
    ghost asked = { λ old new. Unit {0} };

    fn ask(&mut self, into: &mut [u8]) -> Result<Received, Failed> {
        self.receive(into)
    }
}
