//! A leader: it offers what its journal holds, from where a follower has come to.
ghost use Rattle.std.specs.Prelude.{◌≡◌, ◌≤◌, ◌<◌, ◌+◌, ◌^◌, ◌++◌, ℕ, List, [], Err, IfErr, IfOk, IfSome, None, OnErr, Some, length, reverse};
ghost use Rattle.std.specs.Option.{option_map};
ghost use Rattle.alarm_core.specs.declared.event.Event.{Event as Happening};
ghost use Rattle.alarm_core.specs.declared.site.Site.{Site};
ghost use Rattle.alarm_core.specs.Sites.{IsSite};
ghost use Rattle.alarm_journal.specs.Journal.{batches_of};
ghost use Rattle.alarm_journal.specs.Opened.{content_in};
ghost use Rattle.bac_values.specs.Limits.{most_events};
ghost use Rattle.state_codec.specs.Contents.{IsSnapshotAfter, SpellsEvents, StandsForHistory};
ghost use Rattle.state_codec.specs.Damage.{ContentLeadsTo};
ghost use Rattle.standby.specs.Offers.{AreAsManyAsFit, AreEnds, IsCutAt, IsLeaderOf, LeaderState, LeadsFor, OffersNext, behind_piece, heard_by, left_of, piece_from, records_packet};
ghost use Rattle.standby.specs.Packets.{written_piece};
ghost use Rattle.standby.specs.Reaches.{HasPackets};
ghost use Rattle.standby.specs.Runs.{IsOffered};

use crate::ends::{between, ends_of, first_beyond, length_of, start_of};
use crate::packet::{MOST_PACKET_OCTETS, PieceFrame, write_piece, write_records};
use alarm_core::Core;
use alarm_journal::Opened;
use bac_values::NoMemory;
use state_codec::{
    CodecFault, bounds_are_low, records_are_short, snapshots_are_short, snapshots_have_one_spelling,
};
use std::alloc::Global;
use std::marker::Model;

/// A leader: the snapshot of its journal and the records behind it, and how far it has offered them.
#[derive(Drop)]
pub struct Leader {
    events: u64,
    snapshot: Vec<u8>,
    records: Vec<u8>,
    ends: Vec<usize>,
    place: Option<usize>,
    next: u64,
}

impl Model for Leader {
    ghost use Rattle.standby.specs.Offers.{IsLeader, LeaderState};

    ghost Value = { LeaderState };

    ghost view = { λ leader. record { events = leader.events; snapshot = leader.snapshot.items; records = leader.records.items; ends = leader.ends.items; place = leader.place; next = leader.next } };

    ghost invariant = { λ leader. IsLeader (record { events = leader.events; snapshot = leader.snapshot.items; records = leader.records.items; ends = leader.ends.items; place = leader.place; next = leader.next }) };
}

impl Leader {
    /// A leader of so many events before the records, of the snapshot of the state after these, or none where there are
    /// none, and of whole records. It has heard of no event yet. `Malformed` has the offset of the first that is no record.
    pub fn new(
        alloc: Global,
        events: u64,
        snapshot: Vec<u8>,
        records: Vec<u8>,
    ) -> Result<Leader, CodecFault>
        requires none { snapshot.items ≡ [] → events ≡ 0 }
        requires few { events ≤ most_events }
        requires whole { length snapshot.items < 2 ^ 32 }
        ensures made { IfOk result (IsLeaderOf events snapshot.items records.items) }
        ensures refused { (at : ℕ) → result ≡ Err (CodecFault.Malformed at) → IsCutAt records.items at }

        // It has the history of which these are the snapshot and the records.
        ensures leads { (site : Site) (older later : List Happening) → events ≡ length older → IsSnapshotAfter site older snapshot.items → SpellsEvents records.items later
            → IfOk result (LeadsFor site (reverse later ++ older)) }
    {
        let ends = ends_of(alloc, records.as_slice())?;
        Ok(Leader::of_parts(events, snapshot, records, ends))
    }

    /// A leader of so many events before the records, of the snapshot of the state after these, and of records that end at
    /// these places.
    fn of_parts(events: u64, snapshot: Vec<u8>, records: Vec<u8>, ends: Vec<usize>) -> Leader
        requires ends { AreEnds records.items ends.items }
        requires none { snapshot.items ≡ [] → events ≡ 0 }
        requires fit { events + length ends.items < 2 ^ 64 }
        requires whole { length snapshot.items < 2 ^ 32 }
        ensures made { IsLeaderOf events snapshot.items records.items result }
        ensures leads { (site : Site) (older later : List Happening) → events ≡ length older → IsSnapshotAfter site older snapshot.items → SpellsEvents records.items later
            → LeadsFor site (reverse later ++ older) result }
    {
        let mut leader = Leader {
            events,
            snapshot,
            records,
            ends,
            place: None,
            next: 0,
        };
        leader.hear(0);
        leader
    }

    /// A leader of what was opened and led to a core: of its snapshot, and of the records of its bodies, one behind the other.
    /// It has heard of no event yet. `Malformed` never comes.
    pub fn of_journal(alloc: Global, core: &Core, opened: Opened) -> Result<Leader, CodecFault>
        requires site { IsSite core.now.site }
        requires leads { ContentLeadsTo core.now.site (content_in opened) core.now }
        ensures made { (lead : ContentLeadsTo core.now.site (content_in opened) core.now) →
            IfOk result (IsLeaderOf lead.begun.events opened.snapshot (batches_of (content_in opened))) }
        ensures memory { IfErr result (λ fault. fault ≡ CodecFault.NoMemory) }

        // It has each history for which what was opened stands.
        ensures leads { (history : List Happening) → StandsForHistory core.now.site (content_in opened) history → IfOk result (LeadsFor core.now.site history) }
    {
        snapshots_have_one_spelling();
        snapshots_are_short();
        bounds_are_low();
        let Opened {
            snapshot,
            batches,
            bodies,
            ..
        } = opened;
        let mut records = batches.into_vec();
        let whole = length_of(bodies.as_slice(), records.len());
        records.truncate(whole);
        let ends = ends_of(alloc, records.as_slice())?;
        let before = core.events() - ends.len() as u64;
        Ok(Leader::of_parts(before, snapshot.into_vec(), records, ends))
    }

    /// All that it offers, one after the other until it has nothing more, is one list of packets. The call does nothing.
    pub fn offers_all(&self)
        ensures all { HasPackets self.now }
        ensures few { left_of self.now < 2 ^ 64 }
    {
        records_are_short();
        snapshots_are_short();
        let _ends = self.ends.len();
    }

    /// Sets where the offers begin: behind so many events, which a follower has. It takes no memory.
    pub fn hear(&mut self, known: u64)
        ensures heard { self.new ≡ heard_by known self.old }
        ensures leads { (site : Site) (history : List Happening) → LeadsFor site history self.old → LeadsFor site history self.new }
    {
        if known < self.events {
            self.place = Some(0);
            self.next = 0;
        } else {
            self.place = None;
            self.next = known - self.events;
        }
    }

    /// The next piece of the snapshot.
    fn offer_piece(&mut self, alloc: Global, place: usize) -> Result<Vec<u8>, NoMemory>
        requires place { self.old.place ≡ Some place }
        ensures packet { IfOk result (λ packet. packet.items ≡ written_piece (piece_from self.old place)) }
        ensures behind { IfOk result (λ _. self.new ≡ behind_piece self.old place) }
        ensures same { OnErr result (self.new ≡ self.old) }
    {
        let snapshot = self.snapshot.as_slice();
        let whole = snapshot.len();
        let end = whole.min(place + MOST_PACKET_OCTETS);
        let piece = PieceFrame {
            events: self.events,
            whole: whole as u32,
            place: place as u32,
            octets: &snapshot[place..end],
        };
        let packet = write_piece(alloc, &piece)?;
        self.place = if end < whole { Some(end) } else { None };
        Ok(packet)
    }

    /// How many records from the next one on fit into a packet.
    fn fitting(&self) -> usize
        requires more { self.now.next < length self.now.ends }
        ensures fitting { AreAsManyAsFit self.now result }
    {
        records_are_short();
        let ends = self.ends.as_slice();
        let next = self.next as usize;
        first_beyond(ends, next, start_of(ends, next)) - next
    }

    /// As many records from the next one on as fit.
    fn offer_records(&mut self, alloc: Global) -> Result<Vec<u8>, NoMemory>
        requires more { self.old.next < length self.old.ends }
        ensures packet { IfOk result (λ packet. (count : ℕ) × AreAsManyAsFit self.old count × (packet.items ≡ records_packet self.old count) × (self.new ≡ record self.old { next = self.old.next + count })) }
        ensures same { OnErr result (self.new ≡ self.old) }
    {
        let count = self.fitting();
        let next = self.next as usize;
        let octets = between(
            self.records.as_slice(),
            self.ends.as_slice(),
            next,
            next + count,
        );
        let packet = write_records(alloc, self.events + self.next, count, octets)?;
        self.next += count as u64;
        Ok(packet)
    }

    /// The next packet; none where all was offered.
    pub fn offer(&mut self, alloc: Global) -> Result<Option<Vec<u8>>, NoMemory>
        ensures next { IfOk result (λ packet. OffersNext self.old (option_map (λ octets. octets.items) packet) self.new) }
        ensures same { OnErr result (self.new ≡ self.old) }

        // What it offers is part of the history that it has.
        ensures offered { (site : Site) (history : List Happening) → LeadsFor site history self.old
            → IfOk result (λ packet. IfSome packet (λ octets. IsOffered site history octets.items)) }
        ensures leads { (site : Site) (history : List Happening) → LeadsFor site history self.old → LeadsFor site history self.new }

        // With each packet there is less left, so there is a last one.
        ensures less { IfOk result (λ packet. IfSome packet (λ _. left_of self.new < left_of self.old)) }
    {
        snapshots_are_short();
        match self.place {
            Some(place) => Ok(Some(self.offer_piece(alloc, place)?)),
            None if self.next < self.ends.len() as u64 => Ok(Some(self.offer_records(alloc)?)),
            None => Ok(None),
        }
    }
}
