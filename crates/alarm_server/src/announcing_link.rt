//! A link that says where it listens.

ghost use Rattle.std.specs.Prelude.{◌≡◌, IfOk, IsErr, OnOk};
ghost use Rattle.ground_io.specs.Counts.{HasCause};
ghost use Rattle.ground_io.specs.Link.{FitsInto, Receives};

use ending_link::AskedLink;
use ground_io::{Failed, Link, Received};

/// A link that says where it listens when it is first asked for a datagram: by then the site has been read, and the journal
/// opened. Else it is its inner link, call for call, which each call asks.
#[derive(Drop)]
pub struct AnnouncingLink<'a, L: AskedLink> {
    inner: L,
    rt: &'a HostRuntime,
    place: Option<String>,
}

impl<'a, L: AskedLink> AnnouncingLink<'a, L> {
    /// The inner link, which listens at this place.
    pub fn new(inner: L, rt: &'a HostRuntime, place: String) -> AnnouncingLink<'a, L>
        ensures inner { result.inner ≡ inner }
    {
        AnnouncingLink {
            inner,
            rt,
            place: Some(place),
        }
    }
}

impl<'a, L: AskedLink> Link for AnnouncingLink<'a, L> {
    ghost left = { λ link. L.left link.inner };

    ghost faults = { λ link. L.faults link.inner };

    fn receive(&mut self, into: &mut [u8]) -> Result<Received, Failed>
        ensures bound { IfOk result (λ received. FitsInto received into.new) }
        ensures datagrams { Receives (L.left self.old.inner) (L.left self.new.inner) result into.old into.new }
        ensures cause { HasCause (L.faults self.old.inner) (L.faults self.new.inner) (IsErr result) }
        ensures uncounted { OnOk result (L.faults self.new.inner ≡ L.faults self.old.inner) }
        ensures asked { L.asked self.old.inner self.new.inner }
    {
        if let Some(place) = self.place.take() {
            // Whether anybody reads it changes nothing.
            let _ = eprintln!(self.rt; "listening on {place}");
        }
        self.inner.ask(into)
    }
}

impl<'a, L: AskedLink> AskedLink for AnnouncingLink<'a, L> {
    ghost asked = { λ old new. L.asked old.inner new.inner };

    fn ask(&mut self, into: &mut [u8]) -> Result<Received, Failed> {
        self.receive(into)
    }
}
