//! A snapshot that is gathered piece by piece.

ghost use Rattle.std.specs.Prelude.{◌≡◌, ◌==◌, ◌&&◌, ◌++◌, ◌≤◌, ◌<◌, IfOk, OnErr, OnOk, IsTrue, MatchOption, ◌↔◌, length, take};
ghost use Rattle.standby.specs.Judging.{gathered_behind};
ghost use Rattle.standby.specs.Packets.{piece_seen};

use crate::packet::PieceFrame;
use bac_values::NoMemory;
use std::alloc::Global;
use std::marker::Model;

/// A snapshot of which pieces have come.
#[derive(Debug, Drop)]
pub(crate) struct Gathered {
    events: u64,
    whole: u32,
    octets: Vec<u8>,
}

impl Model for Gathered {
    ghost use Rattle.standby.specs.Takes.{Gathering};

    ghost Value = { Gathering };

    ghost view = { λ gathered. record { events = gathered.events; whole = gathered.whole; octets = gathered.octets.items } };
}

impl Gathered {
    /// What is gathered with a piece at place 0. Its octets stand in memory of their own.
    pub(crate) fn begin(alloc: Global, frame: &PieceFrame<'_>) -> Result<Gathered, NoMemory>
        ensures begun { IfOk result (λ gathered. gathered ≡ record { events = frame.now.events; whole = frame.now.whole; octets = frame.now.octets.now }) }
    {
        Ok(Gathered {
            events: frame.events,
            whole: frame.whole,
            octets: frame.octets.to_vec(alloc)?,
        })
    }

    /// Whether a piece is one of the same snapshot, and begins where the octets end.
    pub(crate) fn takes(&self, frame: &PieceFrame<'_>) -> bool
        ensures same { result ≡ (self.now.events == frame.now.events && (self.now.whole == frame.now.whole && length self.now.octets == frame.now.place)) }
    {
        let here = self.octets.len() as u64 == u64::from(frame.place);
        self.events == frame.events && (self.whole == frame.whole && here)
    }

    /// Appends octets. Where memory is refused, nothing changes.
    pub(crate) fn append(&mut self, octets: &[u8]) -> Result<(), NoMemory>
        ensures longer { OnOk result (self.new ≡ record self.old { octets = self.old.octets ++ octets.now }) }
        ensures same { OnErr result (self.new ≡ self.old) }
    {
        self.octets.extend_from_slice(octets)?;
        Ok(())
    }

    /// Leaves so many octets.
    pub(crate) fn cut(&mut self, left: usize)
        ensures shorter { self.new ≡ record self.old { octets = take left self.old.octets } }
    {
        self.octets.truncate(left);
    }

    /// How many events the snapshot tells of.
    pub(crate) fn events(&self) -> u64
        ensures events { result ≡ self.now.events }
    {
        self.events
    }

    /// Its octets so far.
    pub(crate) fn octets(&self) -> &[u8]
        ensures octets { result.now ≡ self.now.octets }
    {
        self.octets.as_slice()
    }

    /// How many octets there are, where some of the whole are missing.
    pub(crate) fn part(&self) -> Option<u32>
        ensures part { MatchOption result (self.now.whole ≤ length self.now.octets) (λ place. (place ≡ length self.now.octets) × (place < self.now.whole)) }
    {
        let there = self.octets.len();
        if there < self.whole as usize {
            Some(there as u32)
        } else {
            None
        }
    }

    /// Whether no octet of the whole is missing.
    pub(crate) fn is_whole(&self) -> bool
        ensures whole { IsTrue result ↔ self.now.whole ≤ length self.now.octets }
    {
        self.octets.len() as u64 >= u64::from(self.whole)
    }

    /// What is gathered behind it: it, unless it is whole.
    pub(crate) fn unless_whole(self) -> Option<Gathered>
        ensures left { result ≡ gathered_behind self }
    {
        if self.is_whole() { None } else { Some(self) }
    }
}
