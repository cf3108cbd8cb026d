//! A ground that raises a flag where its device fails.

ghost use Rattle.std.specs.Prelude.{◌≡◌, ◌+◌, ◌≤◌, [], ◌∷◌, length, IfOk, IsErr, OnOk, OnErr};
ghost use Rattle.ground_io.specs.Counts.{HasCause, next_count};
ghost use Rattle.ground_io.specs.Trace.{Adds, AddsBroken, Reads, emission};
ghost use Rattle.ground_io.specs.declared.entry.Entry.TheVariants.{Wrote, Synced};

use crate::Flag;
use crate::raiser::Raiser;
use bac_values::Peer;
use ground_io::{Failed, Ground};
use std::marker::Model;

/// A ground that is its inner ground, call for call, and raises a flag where a call of the device fails, and only there. An
/// emission that fails raises none: a datagram that is lost ends nothing. It counts how often it has raised the flag.
#[derive(Drop)]
pub struct NotingGround<G: Ground, F: Flag> {
    inner: G,
    raiser: Raiser<F>,
}

impl<G: Ground, F: Flag> Model for NotingGround<G, F> {
    ghost use Rattle.ending_link.specs.Ending.{NotingGroundState};

    ghost Value = { NotingGroundState G F };

    ghost view = { λ noting. record { inner = noting.inner; flag = noting.raiser.flag; raised = noting.raiser.raised } };
}

impl<G: Ground, F: Flag> NotingGround<G, F> {
    /// The inner ground, with the flag that it raises.
    pub fn new(inner: G, flag: F) -> NotingGround<G, F>
        ensures made { result ≡ record { inner = inner; flag = flag; raised = 0 } }
    {
        NotingGround {
            inner,
            raiser: Raiser::new(flag),
        }
    }
}

impl<G: Ground, F: Flag + Drop> NotingGround<G, F> {
    /// The inner ground.
    pub fn into_inner(self) -> G
        ensures inner { result ≡ self.inner }
    {
        self.inner
    }
}

// The answer of a call of the device. Where it failed, the flag is raised.
fn noted<T, F: Flag>(answer: Result<T, Failed>, raiser: &mut Raiser<F>) -> Result<T, Failed>
    ensures same { result ≡ answer }
    ensures flag { raiser.new.flag ≡ raiser.old.flag }
    ensures raised { OnErr result (F.raised raiser.new.flag) }
    ensures counted { OnErr result (raiser.new.raised ≡ next_count raiser.old.raised) }
    ensures only { OnOk result (raiser.new.raised ≡ raiser.old.raised) }
{
    if answer.is_err() {
        raiser.raise();
    }
    answer
}

impl<G: Ground, F: Flag> Ground for NotingGround<G, F> {
    ghost size = { λ noting. G.size noting.inner };

    ghost told = { λ noting. G.told noting.inner };

    ghost disk_faults = { λ noting. G.disk_faults noting.inner };

    ghost emit_faults = { λ noting. G.emit_faults noting.inner };

    ghost sized = { λ noting. G.sized noting.inner };

    fn size(&mut self) -> Result<u64, Failed>
        ensures answer { IfOk result (λ octets. octets ≡ G.size self.old.inner) }
        ensures same { G.size self.new.inner ≡ G.size self.old.inner }
        ensures told { Adds (G.told self.old.inner) (G.told self.new.inner) [] }
        ensures cause { HasCause (G.disk_faults self.old.inner) (G.disk_faults self.new.inner) (IsErr result) }
        ensures uncounted { OnOk result (G.disk_faults self.new.inner ≡ G.disk_faults self.old.inner) }
        ensures emitted { G.emit_faults self.new.inner ≡ G.emit_faults self.old.inner }
        ensures flag { self.new.flag ≡ self.old.flag }
        ensures raised { OnErr result (F.raised self.new.flag) }
        ensures counted { OnErr result (self.new.raised ≡ next_count self.old.raised) }
        ensures only { OnOk result (self.new.raised ≡ self.old.raised) }
    {
        noted(self.inner.size(), &mut self.raiser)
    }

    fn read_at(&mut self, place: u64, into: &mut [u8]) -> Result<(), Failed>
        requires { place + length into.old ≤ G.size self.old.inner }
        ensures octets { OnOk result (Reads (G.told self.new.inner) place into.new) }
        ensures same { G.size self.new.inner ≡ G.size self.old.inner }
        ensures told { Adds (G.told self.old.inner) (G.told self.new.inner) [] }
        ensures cause { HasCause (G.disk_faults self.old.inner) (G.disk_faults self.new.inner) (IsErr result) }
        ensures uncounted { OnOk result (G.disk_faults self.new.inner ≡ G.disk_faults self.old.inner) }
        ensures emitted { G.emit_faults self.new.inner ≡ G.emit_faults self.old.inner }
        ensures flag { self.new.flag ≡ self.old.flag }
        ensures raised { OnErr result (F.raised self.new.flag) }
        ensures counted { OnErr result (self.new.raised ≡ next_count self.old.raised) }
        ensures only { OnOk result (self.new.raised ≡ self.old.raised) }
    {
        noted(self.inner.read_at(place, into), &mut self.raiser)
    }

    fn write_at(&mut self, place: u64, octets: &[u8]) -> Result<(), Failed>
        requires { place + length octets.now ≤ G.size self.old.inner }
        ensures wrote { OnOk result (Adds (G.told self.old.inner) (G.told self.new.inner) (Wrote place octets.now ∷ [])) }
        ensures broke { OnErr result (AddsBroken (G.told self.old.inner) (G.told self.new.inner) place octets.now) }
        ensures same { G.size self.new.inner ≡ G.size self.old.inner }
        ensures cause { HasCause (G.disk_faults self.old.inner) (G.disk_faults self.new.inner) (IsErr result) }
        ensures uncounted { OnOk result (G.disk_faults self.new.inner ≡ G.disk_faults self.old.inner) }
        ensures emitted { G.emit_faults self.new.inner ≡ G.emit_faults self.old.inner }
        ensures flag { self.new.flag ≡ self.old.flag }
        ensures raised { OnErr result (F.raised self.new.flag) }
        ensures counted { OnErr result (self.new.raised ≡ next_count self.old.raised) }
        ensures only { OnOk result (self.new.raised ≡ self.old.raised) }
    {
        noted(self.inner.write_at(place, octets), &mut self.raiser)
    }

    fn sync(&mut self) -> Result<(), Failed>
        ensures synced { OnOk result (Adds (G.told self.old.inner) (G.told self.new.inner) (Synced ∷ [])) }
        ensures failed { OnErr result (Adds (G.told self.old.inner) (G.told self.new.inner) []) }
        ensures same { G.size self.new.inner ≡ G.size self.old.inner }
        ensures cause { HasCause (G.disk_faults self.old.inner) (G.disk_faults self.new.inner) (IsErr result) }
        ensures uncounted { OnOk result (G.disk_faults self.new.inner ≡ G.disk_faults self.old.inner) }
        ensures emitted { G.emit_faults self.new.inner ≡ G.emit_faults self.old.inner }
        ensures flag { self.new.flag ≡ self.old.flag }
        ensures raised { OnErr result (F.raised self.new.flag) }
        ensures counted { OnErr result (self.new.raised ≡ next_count self.old.raised) }
        ensures only { OnOk result (self.new.raised ≡ self.old.raised) }
    {
        noted(self.inner.sync(), &mut self.raiser)
    }

    fn emit(&mut self, peer: Peer, octets: &[u8]) -> Result<(), Failed>
        ensures told { Adds (G.told self.old.inner) (G.told self.new.inner) (emission peer octets.now result ∷ []) }
        ensures same { G.size self.new.inner ≡ G.size self.old.inner }
        ensures disk { G.disk_faults self.new.inner ≡ G.disk_faults self.old.inner }
        ensures cause { HasCause (G.emit_faults self.old.inner) (G.emit_faults self.new.inner) (IsErr result) }
        ensures uncounted { OnOk result (G.emit_faults self.new.inner ≡ G.emit_faults self.old.inner) }
        ensures flag { self.new.flag ≡ self.old.flag }
        ensures only { self.new.raised ≡ self.old.raised }
    {
        self.inner.emit(peer, octets)
    }
}
