// Runs of a leader and a follower, as they are defined: the leader's history grows, by events and by a snapshot of all that
// it has; it offers packets behind what it heard; any that was ever offered reaches the follower, once more or for the first
// time, or is lost; what was acknowledged is heard; the follower is opened again, or breaks off within a packet.

ghost use Rattle.alarm_core.specs.Sites.{IsSite};

use crate::comparing::{holds, same};
use crate::history::History;
use crate::packets::{record_of, set};
use crate::standing::{Standby, contents_of, follower_on, ground_of, state_of, take};
use alarm_core::{Core, Site};
use ground_io::{Filling, MemoryGround};
use standby::{Leader, Took};
use std::alloc::Global;
use std::process::Abort;
use std::test::Fail;

/// No run has more events, so that all notifications may wait.
const MOST_EVENTS: u64 = 64;

/// The leader begins with a snapshot after so many, which goes in two pieces, and with as many behind it.
const FIRST_EVENTS: u32 = 18;

/// Each packet that is taken is written by so many writes and syncs: those of its octets, and of the octet by which they
/// count.
const ENTRIES: u64 = 4;

/// What a crash may leave of octets that aren't synced.
const FILLINGS: [Filling; 4] = [
    Filling::Old,
    Filling::New,
    Filling::Octet(1),
    Filling::Octet(255),
];

/// What happens to a follower.
#[derive(Drop)]
pub(crate) enum Happens {
    /// Nothing.
    Nothing,
    /// Packets reach it, one after the other.
    Delivers(Vec<Vec<u8>>),
    /// It is opened again.
    Reopens,
    /// It is opened again, packets reach it, and it breaks off before it answers to the last.
    Breaks(Vec<Vec<u8>>),
}

/// A run so far, but for the leader's core and the follower.
#[derive(Drop)]
pub(crate) struct Run {
    alloc: Global,
    random: u64,
    history: History,
    /// After how many events the leader's snapshot is, and when the last event was.
    base: u64,
    later: u64,
    /// What was ever offered and acknowledged, and what was heard last.
    offered: Vec<Vec<u8>>,
    acknowledged: Vec<u64>,
    heard: u64,
    /// How many events the follower had as it was opened, and after each packet that it took since.
    begun: u64,
    taken: Vec<u64>,
    /// How many packets were a gap, a repeat, a part and taken.
    pub(crate) answers: [u32; 4],
}

impl Run {
    /// A run at its beginning.
    pub(crate) fn begin(alloc: Global, core: &Core, seed: u64) -> Result<Run, Fail> {
        Ok(Run {
            alloc,
            random: seed,
            history: History::begin(alloc, core)?,
            base: 0,
            later: 0,
            offered: Vec::new(alloc),
            acknowledged: Vec::new(alloc),
            heard: 0,
            begun: 0,
            taken: Vec::new(alloc),
            answers: [0; 4],
        })
    }

    /// A number below another one, or 0.
    fn below(&mut self, bound: u64) -> u64 {
        self.random = self
            .random
            .wrapping_mul(6_364_136_223_846_793_005)
            .wrapping_add(1_442_695_040_888_963_407);
        if bound == 0 {
            return 0;
        }
        (self.random >> 33) % bound
    }

    // ---- the leader

    /// The record of some event, at the last moment or a little later.
    fn some_record(&mut self) -> Result<Vec<u8>, Fail> {
        self.later = self.later.saturating_add(self.below(900));
        match self.below(8) {
            0 => record_of(self.alloc, self.later, &[1]),
            1 => record_of(self.alloc, self.later, &[5]),
            2 => record_of(self.alloc, self.later, &set(2, 51)),
            3 => record_of(self.alloc, self.later, &set(1, 10)),
            4 | 5 => record_of(self.alloc, self.later, &set(1, 50)),
            _ => record_of(self.alloc, self.later, &set(1, 90)),
        }
    }

    /// The first tank rises and falls in turn, a millisecond after the other.
    fn rise_and_fall(&mut self, core: &mut Core) -> Result<(), Fail> {
        for number in 0..FIRST_EVENTS {
            let value = if number % 2 == 0 { 90 } else { 50 };
            self.later = self.later.saturating_add(1);
            let record = record_of(self.alloc, self.later, &set(1, value))?;
            self.history.add(self.alloc, core, &record)?;
        }
        Ok(())
    }

    /// So many events more.
    pub(crate) fn grow(&mut self, core: &mut Core, count: u64) -> Result<(), Fail> {
        for _ in 0..count {
            if self.history.events() < MOST_EVENTS {
                let record = self.some_record()?;
                self.history.add(self.alloc, core, &record)?;
            }
        }
        Ok(())
    }

    /// A leader that has heard the last number offers at most so many packets. The answer is how many there were.
    fn offer(&mut self, count: u64) -> Result<u64, Fail> {
        let mut leader = self.history.leader(self.alloc, self.base)?;
        leader.hear(self.heard);
        let offered = self.offer_of(&mut leader, count);
        drop(leader);
        offered
    }

    fn offer_of(&mut self, leader: &mut Leader, count: u64) -> Result<u64, Fail> {
        for offered in 0..count {
            match leader.offer(self.alloc)? {
                Some(packet) => self.offered.push(packet)?,
                None => return Ok(offered),
            }
        }
        Ok(count)
    }

    /// The number that was heard last is some one that was acknowledged, as often as not the last.
    fn hear(&mut self) {
        let count = self.acknowledged.len() as u64;
        let before = if self.below(2) == 0 {
            1
        } else {
            self.below(count)
        };
        let place = count.saturating_sub(before);
        if let Some(known) = self.acknowledged.get(place as usize) {
            self.heard = *known;
        }
    }

    // ---- what comes next

    /// Some packet that was offered, so many before the last.
    fn packet(&self, before: u64) -> Result<Vec<u8>, Fail> {
        let place = (self.offered.len() as u64).saturating_sub(before.saturating_add(1));
        match self.offered.get(place as usize) {
            Some(packet) => Ok(packet.as_slice().to_vec(self.alloc)?),
            None => Ok(Vec::new(self.alloc)),
        }
    }

    /// Some packets are offered, and reach the follower in their order but for each eighth, which is lost.
    fn next_packets(&mut self, most: u64) -> Result<Vec<Vec<u8>>, Fail> {
        let count = self.offer(most)?;
        let mut packets = Vec::new(self.alloc);
        for before in (0..count).rev() {
            if self.below(8) > 0 {
                packets.push(self.packet(before)?)?;
            }
        }
        Ok(packets)
    }

    /// One packet of any that was offered, where there is one.
    fn any_packet(&mut self) -> Result<Vec<Vec<u8>>, Fail> {
        let mut packets = Vec::new(self.alloc);
        let count = self.offered.len() as u64;
        if count > 0 {
            let before = self.below(count);
            packets.push(self.packet(before)?)?;
        }
        Ok(packets)
    }

    /// What happens next. The leader's part of it is done.
    pub(crate) fn next(&mut self, core: &mut Core) -> Result<Happens, Fail> {
        match self.below(16) {
            0..=2 => {
                let count = self.below(6);
                self.grow(core, count)?;
            }
            3 => self.base = self.history.events(),
            4 | 5 => self.hear(),
            6..=9 => return Ok(Happens::Delivers(self.next_packets(4)?)),
            10 => return Ok(Happens::Reopens),
            11 => return Ok(Happens::Breaks(self.next_packets(3)?)),
            12 => return Ok(Happens::Breaks(self.any_packet()?)),
            _ => return Ok(Happens::Delivers(self.any_packet()?)),
        }
        Ok(Happens::Nothing)
    }

    /// What happens first: the leader has a snapshot and records behind it, which reach the follower, the last packet first.
    pub(crate) fn last_first(&mut self, core: &mut Core) -> Result<Happens, Fail> {
        self.rise_and_fall(core)?;
        self.base = self.history.events();
        self.rise_and_fall(core)?;
        let mut packets = Vec::new(self.alloc);
        for before in 0..self.offer(3)? {
            packets.push(self.packet(before)?)?;
        }
        Ok(Happens::Delivers(packets))
    }

    /// All that the leader has.
    pub(crate) fn all(&mut self) -> Result<Happens, Fail> {
        self.heard = 0;
        let count = self.offer(u64::MAX)?;
        let mut packets = Vec::new(self.alloc);
        for before in (0..count).rev() {
            packets.push(self.packet(before)?)?;
        }
        Ok(Happens::Delivers(packets))
    }

    /// How many events the leader has.
    pub(crate) fn events(&self) -> u64 {
        self.history.events()
    }

    // ---- the follower

    /// A packet that was offered is answered: it isn't malformed.
    fn answered(&mut self, rt: &impl Abort, took: Took) {
        let (kind, known) = match took {
            Took::Malformed => panic!(rt; "what was offered is malformed"),
            Took::Gap { .. } => (0, None),
            Took::Repeat { events } => (1, Some(events)),
            Took::Part { .. } => (2, None),
            Took::Taken { events } => (3, Some(events)),
        };
        if let Some(count) = self.answers.get_mut(kind) {
            *count = count.saturating_add(1);
        }
        if let Some(known) = known {
            holds(rt, self.acknowledged.push(known).is_ok());
        }
    }

    /// The follower takes a packet.
    fn take(&mut self, rt: &impl Abort, follower: Standby, packet: &[u8]) -> (Standby, Took) {
        let (follower, took) = take(rt, self.alloc, follower, packet);
        if let Took::Taken { events } = took {
            holds(rt, self.taken.push(events).is_ok());
        }
        (follower, took)
    }

    fn deliver(&mut self, rt: &impl Abort, follower: Standby, packets: &[Vec<u8>]) -> Standby {
        let mut follower = follower;
        for packet in packets {
            let (next, took) = self.take(rt, follower, packet);
            follower = next;
            self.answered(rt, took);
        }
        follower
    }

    /// The greatest number that was ever acknowledged.
    fn greatest(&self) -> u64 {
        self.acknowledged.iter().copied().max().unwrap_or(0)
    }

    /// A follower on these octets, which have all that was ever acknowledged.
    pub(crate) fn open(&mut self, rt: &impl Abort, site: &Site, contents: Vec<u8>) -> Standby
        requires site { IsSite site.now }
    {
        match contents.as_slice().to_vec(self.alloc) {
            Ok(image) => self.look_at(rt, site, image, self.greatest()),
            Err(_) => panic!(rt; "there is no memory for the octets"),
        }
        let follower = follower_on(rt, self.alloc, site, contents);
        self.begun = follower.events();
        self.taken = Vec::new(self.alloc);
        follower
    }

    /// The state of a core that is given up is that of the leader after as many events, at least so many.
    fn judge(&self, rt: &impl Abort, core: Core, least: u64) {
        let events = core.events();
        same(rt, &events.max(least), &events);
        match state_of(self.alloc, core) {
            Ok(state) => holds(rt, self.history.is_state(events, &state)),
            Err(_) => panic!(rt; "there is no memory for a state"),
        }
    }

    /// A follower is given up, and opened again on what its device has.
    fn reopen(&mut self, rt: &impl Abort, site: &Site, follower: Standby) -> Standby
        requires site { IsSite site.now }
    {
        let (press, core) = follower.take_over();
        self.judge(rt, core, self.greatest());
        match contents_of(self.alloc, press.into_ground()) {
            Ok(contents) => self.open(rt, site, contents),
            Err(_) => panic!(rt; "there is no memory for the octets"),
        }
    }

    /// How many events the follower's device has at least, where so many entries of its trace are missing.
    fn covered(&self, missing: u64) -> u64 {
        let undone = missing.saturating_add(ENTRIES - 1) / ENTRIES;
        let count = self.taken.len() as u64;
        match self
            .taken
            .get(count.saturating_sub(undone.saturating_add(1)) as usize)
        {
            Some(events) if undone < count => *events,
            _ => self.begun,
        }
    }

    /// What a crash may leave opens to a state of the leader's, and has at least so many events.
    fn look_at(&self, rt: &impl Abort, site: &Site, image: Vec<u8>, least: u64)
        requires site { IsSite site.now }
    {
        let (press, core) = follower_on(rt, self.alloc, site, image).take_over();
        drop(press);
        self.judge(rt, core, least);
    }

    /// So does all that a crash may leave at each entry of the trace.
    fn look_at_all(&self, rt: &impl Abort, site: &Site, device: &MemoryGround) -> Result<(), Fail>
        requires site { IsSite site.now }
    {
        let entries = entries_of(device);
        for missing in 0..entries.saturating_add(1) {
            let least = self.covered(missing);
            for filling in FILLINGS {
                let upto = entries.saturating_sub(missing);
                let image = device.image(self.alloc, upto, filling)?;
                self.look_at(rt, site, image, least);
            }
        }
        Ok(())
    }

    /// Some octets that a crash may leave within the last packet, where that was taken, or behind it.
    fn some_image(&mut self, device: &MemoryGround, took: Took) -> Result<Vec<u8>, Fail> {
        let within = match took {
            Took::Taken { .. } => ENTRIES.saturating_add(1),
            _ => 1,
        };
        let upto = entries_of(device).saturating_sub(self.below(within));
        let filling = match FILLINGS.get(self.below(4) as usize) {
            Some(filling) => *filling,
            None => Filling::Old,
        };
        Ok(device.image(self.alloc, upto, filling)?)
    }

    fn crash(
        &mut self,
        rt: &impl Abort,
        site: &Site,
        device: &MemoryGround,
        took: Took,
    ) -> Result<Vec<u8>, Fail>
        requires site { IsSite site.now }
    {
        self.look_at_all(rt, site, device)?;
        self.some_image(device, took)
    }

    /// The last packet of some reaches the follower, which breaks off before it answers, and is opened on something that this
    /// may leave.
    fn break_off(
        &mut self,
        rt: &impl Abort,
        site: &Site,
        follower: Standby,
        packet: &[u8],
    ) -> Standby
        requires site { IsSite site.now }
    {
        let (follower, took) = self.take(rt, follower, packet);
        same(rt, &(took == Took::Malformed), &false);
        let device = ground_of(follower);
        let image = self.crash(rt, site, &device, took);
        drop(device);
        match image {
            Ok(image) => self.open(rt, site, image),
            Err(_) => panic!(rt; "there is no memory for an image"),
        }
    }

    /// A follower is opened again, packets reach it, and it breaks off within the last.
    fn break_behind(
        &mut self,
        rt: &impl Abort,
        site: &Site,
        follower: Standby,
        mut packets: Vec<Vec<u8>>,
    ) -> Standby
        requires site { IsSite site.now }
    {
        let Some(last) = packets.pop() else {
            return follower;
        };
        let follower = self.reopen(rt, site, follower);
        let follower = self.deliver(rt, follower, packets.as_slice());
        self.break_off(rt, site, follower, &last)
    }

    /// What happens to a follower is done.
    pub(crate) fn carry_out(
        &mut self,
        rt: &impl Abort,
        site: &Site,
        follower: Standby,
        happens: Happens,
    ) -> Standby
        requires site { IsSite site.now }
    {
        match happens {
            Happens::Nothing => follower,
            Happens::Delivers(packets) => self.deliver(rt, follower, packets.as_slice()),
            Happens::Reopens => self.reopen(rt, site, follower),
            Happens::Breaks(packets) => self.break_behind(rt, site, follower, packets),
        }
    }
}

/// How many entries the trace of a ground has.
fn entries_of(device: &MemoryGround) -> u64 {
    match device.trace() {
        Some(trace) => trace.len() as u64,
        None => 0,
    }
}
