//! The floor, and what it stands for.

ghost use Rattle.std.specs.Prelude.{◌≡◌, ◌<◌, ◌≤◌, ◌-◌, ℕ, List, [], MatchBool, length};
ghost use Rattle.bac_values.specs.Limits.{most_batch_octets};
ghost use Rattle.floor_desk.specs.declared.floor.Spot.TheVariants.{Home, Out};
ghost use Rattle.floor_desk.specs.Moves.{IsGroundOf, IsNotOut};
ghost use Rattle.floor_desk.specs.Standing.{FloorStands};

use crate::pending::Pending;
use alarm_core::Core;
use alarm_journal::Press;
use ground_io::Ground;
use noted::Noted;
use std::alloc::Global;
use std::marker::Model;
use turnstile::noted_of;

/// Where the press is.
#[derive(Drop)]
pub enum Spot<G: Ground> {
    /// At home.
    Home(Press<G>),
    /// Out, since the entry at this place of the history.
    Out {
        /// The place of its entry, from 1.
        place: u64,
        /// The number of the last event that it writes.
        upto: u64,
    },
    /// Gone: its disk failed.
    Broken {
        /// What is left of it.
        device: G,
        /// The place of its entry, from 1.
        place: u64,
    },
}

/// What callers share: the core, the press, and what is pending between them. It waits for nobody.
#[derive(Drop)]
pub struct Floor<G: Ground> {
    pub(crate) core: Core,
    pub(crate) pending: Pending,
    pub(crate) lost: u64,
    pub(crate) durable: u64,
    pub(crate) spot: Spot<G>,
    next: u64,
    opened: (Noted<Core>, Noted<Press<G>>),
}

impl<G: Ground> Model for Floor<G> {
    ghost use Rattle.std.specs.Prelude.{◌≤◌, length};
    ghost use Rattle.std.specs.List.{flat_map};
    ghost use Rattle.floor_desk.specs.Owed.{sends_of};
    ghost use Rattle.bac_values.specs.Limits.{most_batch_octets};
    ghost use Rattle.floor_desk.specs.States.{FloorState};

    ghost Value = { FloorState G };

    ghost view = { λ floor. record {
      core = floor.core;
      records = floor.pending.records.items;
      sends = flat_map sends_of floor.pending.sends.items;
      calls = floor.pending.calls;
      lost = floor.lost;
      durable = floor.durable;
      spot = floor.spot;
      next = floor.next;
      origin = (floor.opened.0.value, floor.opened.1.value);
    } };

    ghost invariant = { λ floor. record {
      few : length floor.pending.records.items ≤ most_batch_octets;
    } };
}

// The ground of a press that isn't out.
fn ground_of<G: Ground>(spot: Spot<G>) -> G
    requires home { IsNotOut spot }
    ensures device { IsGroundOf spot result }
{
    match spot {
        Spot::Home(press) => press.into_ground(),
        Spot::Broken { device, .. } => device,
        Spot::Out { .. } => unreachable!(),
    }
}

impl<G: Ground> Floor<G> {
    /// A floor with the press at home and nothing pending.
    pub(crate) fn new(alloc: Global, core: Core, press: Press<G>) -> Floor<G>
        ensures stands { FloorStands G.told G.size G.disk_faults G.emit_faults result [] }
        ensures origin { result.origin ≡ (core, press) }
        ensures home { (result.core ≡ core) × (result.spot ≡ Home press) }
    {
        let opened = (noted_of(&core), noted_of(&press));
        let durable = core.events();
        Floor {
            core,
            pending: Pending::new(alloc),
            lost: 0,
            durable,
            spot: Spot::Home(press),
            next: 0,
            opened,
        }
    }

    /// How many events there are.
    pub fn events(&self) -> u64
        ensures events { result ≡ self.now.core.events }
    {
        self.core.events()
    }

    /// How many datagrams were lost since the opening, as far as 64 bits go.
    pub fn lost(&self) -> u64
        ensures lost { result ≡ self.now.lost }
    {
        self.lost
    }

    /// The number of the last event that is written.
    pub fn durable(&self) -> u64
        ensures durable { result ≡ self.now.durable }
    {
        self.durable
    }

    /// The ground of the press that is at home, or what is left of one that is lost.
    pub fn into_ground(self) -> G
        requires home { IsNotOut self.spot }
        ensures device { IsGroundOf self.spot result }
    {
        ground_of(self.spot)
    }

    // Whether the press is out.
    pub(crate) fn is_out(&self) -> bool
        ensures out { MatchBool result ((at : ℕ) × (upto : ℕ) × (self.now.spot ≡ Out at upto)) (IsNotOut self.now.spot) }
    {
        match &self.spot {
            Spot::Out { .. } => true,
            _ => false,
        }
    }

    /// Of a floor that was closed, the place of the next entry.
    pub fn next(&self) -> u64
        ensures next { result ≡ self.now.next }
    {
        self.next
    }

    // The floor of a desk that was closed, with the place of its next entry.
    pub(crate) fn ended_at(self, next: u64) -> Floor<G>
        ensures ended { result ≡ record self { next = next } }
    {
        let mut floor = self;
        floor.next = next;
        floor
    }
}
