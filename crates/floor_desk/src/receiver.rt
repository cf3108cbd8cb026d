//! Takes datagrams from the link.

ghost use Rattle.std.specs.Prelude.{◌≡◌, ◌≤◌, ◌<◌, ◌+◌, ◌^◌, ◌⊎◌, false, [], Err, None, IfErr, IfOk, IfSome, IsTrue, IsErrOf, OnOk, length, vec_capacity};
ghost use Rattle.bac_values.specs.Limits.{most_datagram_octets};
ghost use Rattle.bac_values.specs.declared.input.Input.{Input as Entered};
ghost use Rattle.ground_io.specs.Counts.{HasCause};
ghost use Rattle.ground_io.specs.Link.{FitsInto};
ghost use Rattle.ground_io.specs.declared.link.Received.{Received as Arrival};
ghost use Rattle.turnstile.specs.Passes.{IsOf};
ghost use Rattle.floor_desk.specs.Tries.{IsAnsweredBehind};
ghost use Rattle.floor_desk.specs.Workers.{EndsReceiving, HasReceived, IsDatagram, TakesTurns, if_lost};
ghost use Rattle.floor_desk.specs.WorkersSteps.{HasCome, IsNext, StaysLeft};

use crate::desk::{Desk, DeskPass};
use crate::entering::{enter_until, is_behind};
use crate::entry::Ticket;
use crate::faults::EnterFault;
use crate::steps::Steps;
use crate::tools::Tools;
use bac_values::{Input, Items, MOST_DATAGRAM_OCTETS, Peer};
use ground_io::{Clock, Failed, Gate, Ground, Link, Received, Worker};
use std::alloc::Global;
use std::mem;
use std::sync::Wait;
use std::sync::atomic::{AtomicU32, Ordering};

/// What a receiver came to.
#[derive(Clone, Copy, Debug, PartialEq, Eq, Drop)]
pub struct Ends {
    /// How many datagrams came.
    pub received: u64,
    /// How many of them were given no ticket at last.
    pub lost: u64,
    /// Whether the link failed.
    pub link_fault: bool,
    /// Whether memory was refused to the receiver's own work.
    pub no_memory: bool,
}

impl Ends {
    // Nothing has come yet.
    fn none() -> Ends
        ensures none { result ≡ record { received = 0; lost = 0; link_fault = false; no_memory = false } }
    {
        Ends {
            received: 0,
            lost: 0,
            link_fault: false,
            no_memory: false,
        }
    }

    // One datagram more, with its last answer.
    fn with(self, answer: &Result<Ticket, EnterFault>) -> Ends
        requires few { self.received < 2 ^ 32 }
        requires lost { self.lost ≤ self.received }
        ensures received { result.received ≡ self.received + 1 }
        ensures lost { result.lost ≡ self.lost + if_lost answer.now }
        ensures link { result.link_fault ≡ self.link_fault }
        ensures memory { IsTrue result.no_memory ⊎ ((self.no_memory ≡ false) × (IsAnsweredBehind answer.now → ⊥)) }
    {
        let behind = is_behind(answer);
        Ends {
            received: self.received.saturating_add(1),
            lost: self.lost.saturating_add(u64::from(answer.is_err())),
            link_fault: self.link_fault,
            no_memory: self.no_memory || behind,
        }
    }
}

// Why no datagram is asked for any more.
#[derive(Clone, Copy)]
enum Missed {
    // The link failed.
    Link,
    // Memory was refused before the link was asked.
    Memory,
}

// The input of a datagram whose octets stand in the slice, in a vector that has room for them.
fn filled(mut bytes: Vec<u8>, peer: Peer, octets: &[u8]) -> Input
    requires empty { bytes.items ≡ [] }
    requires room { length octets.now ≤ vec_capacity bytes }
    ensures input { result ≡ Entered.Datagram peer octets.now }
{
    let Ok(()) = bytes.extend_from_slice(octets) else {
        unreachable!()
    };
    let bytes = Items::of(bytes);
    Input::Datagram { peer, bytes }
}

// The datagram that came, if one did, whose octets stand in the slice; the vector has room for them, and is taken for it.
fn came_of(alloc: Global, bytes: &mut Vec<u8>, received: Received, into: &[u8]) -> Option<Input>
    requires empty { bytes.old.items ≡ [] }
    requires room { length into.now ≤ vec_capacity bytes.old }
    requires fits { FitsInto received into.now }
    ensures nothing { result ≡ None → received ≡ Arrival.Nothing }
    ensures came { IfSome result (HasCome received into.now) }
{
    match received {
        Received::Nothing => None,
        Received::Datagram { peer, length } => {
            let bytes = mem::replace(bytes, Vec::new(alloc));
            Some(filled(bytes, peer, &into[..length]))
        }
    }
}

// The next datagram of the link, if there is one. Memory for its input is found before the link is asked; none is wanted
// where the vector has room for it.
fn next_datagram<L: Link>(
    alloc: Global,
    link: &mut L,
    into: &mut [u8],
    bytes: &mut Vec<u8>,
) -> Result<Option<Input>, Missed>
    requires whole { length into.old ≡ most_datagram_octets }
    ensures whole { length into.new ≡ most_datagram_octets }
    ensures next { IfOk result (λ next. IfSome next (IsNext (L.left link.old) (L.left link.new))) }
    ensures datagram { IfOk result (λ next. IfSome next IsDatagram) }
    ensures nothing { IfOk result (λ next. next ≡ None → StaysLeft (L.left link.old) (L.left link.new)) }
    ensures missed { IfErr result (λ missed. StaysLeft (L.left link.old) (L.left link.new)) }
    ensures cause { HasCause (L.faults link.old) (L.faults link.new) (IsErrOf result Missed.Link) }
    ensures counted { (result ≡ Err Missed.Link) ⊎ (L.faults link.new ≡ L.faults link.old) }
    ensures uncounted { OnOk result (L.faults link.new ≡ L.faults link.old) }
{
    bytes.clear();
    if bytes.reserve(MOST_DATAGRAM_OCTETS).is_err() {
        return Err(Missed::Memory);
    }
    let Ok(received) = link.receive(into) else {
        return Err(Missed::Link);
    };
    Ok(came_of(alloc, bytes, received, into))
}

// The vector of a datagram that was tried.
fn vector_of(alloc: Global, input: Input) -> Vec<u8> {
    match input {
        Input::Datagram { bytes, .. } => bytes.into_vec(),
        _ => Vec::new(alloc),
    }
}

/// Takes so many datagrams from the link, and enters each at the clock's moment. It ends before where the link fails, or
/// where memory for its own work is refused.
pub fn receive_all<R: Wait, G: Ground, L: Link, K: Clock, W: Gate>(
    rt: &R,
    alloc: Global,
    desk: &Desk<G>,
    pass: DeskPass<G>,
    count: u32,
    ended: &AtomicU32,
    link: &mut L,
    clock: &K,
    gate: &W,
) -> (DeskPass<G>, Ends)
    requires here { IsOf desk.now pass }
    ensures here { IsOf desk.now result.0 }

    // The datagrams are the link's first, in their order, each tried once with its repeats.
    ensures received { HasReceived (K.shows clock.now) (L.left link.old) (L.left link.new) pass result.0 result.1 }

    // It ends where all have come, where the link failed, or where memory was refused.
    ensures ends { EndsReceiving count (L.faults link.old) (L.faults link.new) result.1 }

    // It went through its gate before each call of the desk.
    ensures turns { TakesTurns (W.passed gate.now Worker.Receiver) pass result.0 }
{
    let tools = Tools::of(rt, alloc, desk, clock, gate);
    let mut into = [0; MOST_DATAGRAM_OCTETS];
    let mut bytes = Vec::new(alloc);
    let mut steps = Steps::new(Worker::Receiver);
    let mut pass = pass;
    let mut ends = Ends::none();
    for _ in rt.forever() {
        if ends.received >= u64::from(count) || ends.link_fault || ends.no_memory {
            break;
        }
        match next_datagram(alloc, link, &mut into, &mut bytes) {
            Ok(None) => {}
            Ok(Some(input)) => {
                let (entered, answer) = enter_until(&tools, pass, &input, &mut steps);
                pass = entered;
                ends = ends.with(&answer);
                bytes = vector_of(alloc, input);
            }
            Err(Missed::Link) => ends.link_fault = true,
            Err(Missed::Memory) => ends.no_memory = true,
        }
    }
    ended.fetch_add(1, Ordering::SeqCst);
    (pass, ends)
}
