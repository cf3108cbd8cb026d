//! The press: it opens, commits, and sends what rests on what was committed.

ghost use Rattle.std.specs.Prelude.{◌≡◌, ◌≢◌, ◌⊎◌, ◌<◌, ◌≤◌, ◌+◌, ◌-◌, ◌/◌, All, List, [], ◌∷◌, ℕ, length, IfOk, IfErr, IsFalse, IsTrue, MatchResult, Ok, Err, map, ⊤};
ghost use Rattle.bac_values.specs.Limits.{most_site_octets};
ghost use Rattle.ground_io.specs.Counts.{HasCause};
ghost use Rattle.ground_io.specs.Trace.{Adds};
ghost use Rattle.ground_io.specs.declared.entry.Entry.TheVariants.{Synced};
ghost use Rattle.alarm_journal.specs.Emissions.{EmitsAll};
ghost use Rattle.alarm_journal.specs.Journal.{Content, Site, batches_of, framed, nothing, only_snapshot, with_batch};
ghost use Rattle.alarm_journal.specs.Opened.{EndsOnDevice, LieBetween, Shows, StandsAt, content_in, sum_of};
ghost use Rattle.alarm_journal.specs.Press.{Answers, Between, IsAtMostSynced, IsBelow, IsOpening, IsRefusal, IsSmall, Lasts, MayFormat, Reopens, ReopensSynced, Settled, Throughout, WasBlank, behind_batch, behind_snapshot, other_of, room_of, selector_of, start_of};
ghost use Rattle.alarm_journal.specs.Protocol.{AddsSome, IsTwoCutShort, two_writes};
ghost use Rattle.alarm_journal.specs.Underway.{MaySend};
ghost use Rattle.alarm_journal.specs.declared.open_fault.OpenFault.TheVariants.{DiskFault};

use crate::change::Change;
use crate::open::open_device;
use crate::protocol::write_both;
use crate::{Job, Layout, OpenFault, Opened};
use bac_values::Send;
use ground_io::{Failed, Ground};
use std::alloc::Global;
use std::marker::Model;

/// How many datagrams went out, and how many were lost.
#[derive(Clone, Copy, Debug, PartialEq, Eq)]
pub struct Emits {
    /// How many were sent.
    pub sent: u64,
    /// How many failed, and may have gone out in part.
    pub lost: u64,
}

/// Writes a journal on a ground. Contracts see the ground, and where the journal lies on it.
#[derive(Drop)]
pub struct Press<G: Ground> {
    device: G,
    layout: Layout,
}

impl<G: Ground> Model for Press<G> {
    ghost use Rattle.alarm_journal.specs.Press.{IsSound, PressState};

    ghost Value = { PressState G };

    ghost view = { λ press. record { device = press.device; layout = press.layout } };

    ghost invariant = { λ press. IsSound (G.size press.device) press.layout };
}

// Emits each of these, in order, on a device whose journal lies there.
fn emit_each<G: Ground>(device: &mut G, _layout: &Layout, sends: &[Send]) -> Emits
    // What they rest on stands in each image that a crash may leave now.
    requires stands { MaySend _layout.now (G.told device.old) }
    ensures same { G.size device.new ≡ G.size device.old }
    ensures disk { G.disk_faults device.new ≡ G.disk_faults device.old }
    ensures told { EmitsAll sends.now result.sent result.lost (G.told device.old) (G.told device.new) }
    ensures all { result.sent + result.lost ≡ length sends.now }
    ensures cause { HasCause (G.emit_faults device.old) (G.emit_faults device.new) (0 < result.lost) }
    ensures uncounted { result.lost ≡ 0 → G.emit_faults device.new ≡ G.emit_faults device.old }
{
    let mut sent = 0;
    let mut lost = 0;
    for send in sends {
        match device.emit(send.peer, send.bytes.as_slice()) {
            Ok(()) => sent += 1,
            Err(Failed) => lost += 1,
        }
    }
    Emits { sent, lost }
}

impl<G: Ground> Press<G> {
    /// Opens the journal of a site on a device that must have at least the needed size. It begins with a sync. A blank
    /// device is formatted. A crash at any moment from the sync on leaves what opens as the device did before. An `Err`
    /// gives the ground back.
    pub fn open(
        alloc: Global,
        mut device: G,
        site_text: &[u8],
        need: u64,
    ) -> Result<(Press<G>, Opened), (G, OpenFault)>
        requires few { length site_text.now ≤ most_site_octets }
        requires needed { length site_text.now + 32 ≤ need }

        // The press stands for what was opened, and each image that a crash may leave opens to that.
        ensures settled { IfOk result (λ read. Settled (record { text = site_text.now; need = need }) read.0.layout (G.told read.0.device) (content_in read.1)) }
        ensures lasts { IfOk result (λ read. Lasts (record { text = site_text.now; need = need }) (G.told read.0.device) (content_in read.1)) }

        // The areas are at least as large as the needed size makes them.
        ensures area { IfOk result (λ read. (need - 22 - length site_text.now) / 2 ≤ read.0.layout.half) }

        // What the octets opened to, or why they didn't.
        ensures answer { MatchResult result
            (λ read. Answers (record { text = site_text.now; need = need }) (G.told device) (G.told read.0.device) (Ok (content_in read.1)))
            (λ refused. Answers (record { text = site_text.now; need = need }) (G.told device) (G.told refused.0) (Err refused.1)) }
        ensures fresh { IfOk result (λ read. WasBlank (G.told device) (G.told read.0.device) read.1.fresh) }
        // A device that was blank holds nothing.
        ensures empty { IfOk result (λ read. IsTrue read.1.fresh → content_in read.1 ≡ nothing) }

        // The bodies make up the batches, and each is as long as it says.
        ensures batches { IfOk result (λ read. batches_of (content_in read.1) ≡ read.1.batches) }
        ensures lengths { IfOk result (λ read. map length (content_in read.1).bodies ≡ map (λ body. body.length) read.1.bodies) }
        ensures whole { IfOk result (λ read. sum_of read.1.bodies ≡ length read.1.batches) }

        // The snapshot lies behind its length, and each body behind a gate and a length: from the snapshot up to the
        // next gate there is nothing else. There they stand on the device.
        ensures snapshot { IfOk result (λ read. read.1.snapshot_place ≡ start_of read.0.layout + 4) }
        ensures places { IfOk result (λ read. LieBetween (start_of read.0.layout + 4 + length read.1.snapshot) read.1.bodies read.0.layout.next) }
        ensures stand { IfOk result (λ read. Shows (G.told read.0.device) (StandsAt read.1)) }
        ensures ends { IfOk result (λ read. All EndsOnDevice read.1.bodies) }

        // A device that is smaller than it must be is refused for that, unless it fails before it tells its size.
        ensures small { IfErr result (λ refused. IsSmall (G.size device) refused.1) }
        ensures enough { IfOk result (λ read. need ≤ G.size read.0.device) }
        ensures below { G.size device < need → IfErr result (λ refused. IsBelow (G.size device) need refused.1) }

        ensures cause { MatchResult result
            (λ read. G.disk_faults read.0.device ≡ G.disk_faults device)
            (λ refused. HasCause (G.disk_faults device) (G.disk_faults refused.0) (refused.1 ≡ DiskFault)) }
        // A call of the device that failed is told as that, and not as want of memory.
        ensures unhidden { IfErr result (λ refused. refused.1 ≢ DiskFault → G.disk_faults refused.0 ≡ G.disk_faults device) }

        // A crash at any moment from the first sync on, which an `Ok` has done.
        ensures any_moment { MatchResult result
            (λ read. ReopensSynced (record { text = site_text.now; need = need }) (G.told device) (G.told read.0.device))
            (λ refused. Reopens (record { text = site_text.now; need = need }) (G.told device) (G.told refused.0)) }
        ensures writes { MatchResult result
            (λ read. AddsSome (IsOpening site_text.now (G.size device)) (G.told device) (G.told read.0.device))
            (λ refused. AddsSome (IsOpening site_text.now (G.size device)) (G.told device) (G.told refused.0)) }

        // A blank device of the needed size alone is formatted. One that isn't blank, and one that is refused for what it is,
        // was synced, and nothing else.
        ensures formats { MatchResult result
            (λ read. MayFormat (G.size device) need (G.told device) (G.told read.0.device) ⊎ AddsSome IsAtMostSynced (G.told device) (G.told read.0.device))
            (λ refused. MayFormat (G.size device) need (G.told device) (G.told refused.0) ⊎ AddsSome IsAtMostSynced (G.told device) (G.told refused.0)) }
        ensures begun { IfOk result (λ read. IsFalse read.1.fresh → Adds (G.told device) (G.told read.0.device) (Synced ∷ [])) }
        ensures refused { IfErr result (λ refused. IsRefusal refused.1 → Adds (G.told device) (G.told refused.0) (Synced ∷ [])) }

        ensures same { MatchResult result (λ read. G.size read.0.device ≡ G.size device) (λ refused. G.size refused.0 ≡ G.size device) }
        ensures emitted { MatchResult result (λ read. G.emit_faults read.0.device ≡ G.emit_faults device) (λ refused. G.emit_faults refused.0 ≡ G.emit_faults device) }
    {
        match open_device(alloc, &mut device, site_text, need) {
            Ok((layout, opened)) => Ok((Press { device, layout }, opened)),
            Err(fault) => Err((device, fault)),
        }
    }

    /// The longest body of a batch that the area still takes.
    pub fn room(&self) -> u64
        ensures room { result ≡ room_of self.now.layout }
    {
        self.layout.room()
    }

    /// How many octets each of the two areas has: a snapshot takes five more than its body.
    pub fn area(&self) -> u64
        ensures area { result ≡ self.now.layout.half }
    {
        self.layout.half
    }

    /// Puts a batch behind those that stand. An `Err` gives the ground back; the device is then opened again.
    pub fn commit_batch(self, job: &Job) -> Result<Press<G>, G>
        requires some { 0 < length job.now }
        requires fits { length job.now ≤ room_of self.layout }

        // Exactly these writes and syncs; or these up to one that failed.
        ensures writes { MatchResult result
            (λ press. Adds (G.told self.device) (G.told press.device) (two_writes (self.layout.next + 1) (framed job.now) self.layout.next (1 ∷ [])))
            (λ device. AddsSome (IsTwoCutShort (self.layout.next + 1) (framed job.now) self.layout.next (1 ∷ [])) (G.told self.device) (G.told device)) }
        ensures layout { IfOk result (λ press. press.layout ≡ behind_batch self.layout (length job.now)) }

        // What stood, and the batch behind it; each image that a crash may leave opens to that.
        ensures settled { (site : Site) (content : Content) → Settled site self.layout (G.told self.device) content
            → IfOk result (λ press. Settled site press.layout (G.told press.device) (with_batch content job.now)) }
        ensures lasts { (site : Site) (content : Content) → Settled site self.layout (G.told self.device) content
            → IfOk result (λ press. Lasts site (G.told press.device) (with_batch content job.now)) }

        // A crash at any moment leaves what stood, with the batch or without.
        ensures any_moment { (site : Site) (content : Content) → Settled site self.layout (G.told self.device) content
            → MatchResult result
            (λ press. Between site content (with_batch content job.now) (G.told self.device) (G.told press.device))
            (λ device. Between site content (with_batch content job.now) (G.told self.device) (G.told device)) }

        ensures cause { MatchResult result
            (λ press. G.disk_faults press.device ≡ G.disk_faults self.device)
            (λ device. HasCause (G.disk_faults self.device) (G.disk_faults device) ⊤) }
        ensures same { MatchResult result (λ press. G.size press.device ≡ G.size self.device) (λ device. G.size device ≡ G.size self.device) }
        ensures emitted { MatchResult result (λ press. G.emit_faults press.device ≡ G.emit_faults self.device) (λ device. G.emit_faults device ≡ G.emit_faults self.device) }
    {
        let Press { mut device, layout } = self;
        let octets = job.framed();
        let change = Change::batch(layout, job);
        let gate = layout.next;
        if let Err(Failed) = write_both(&mut device, &change, gate + 1, octets, gate, 1) {
            return Err(device);
        }
        let layout = layout.behind_batch(octets.len() as u64 - 5);
        Ok(Press { device, layout })
    }

    /// Puts a snapshot in the place of all that stands. An `Err` gives the ground back; the device is then opened
    /// again.
    pub fn commit_snapshot(self, job: &Job) -> Result<Press<G>, G>
        requires fits { length job.now + 5 ≤ self.layout.half }

        // Exactly these writes and syncs; or these up to one that failed.
        ensures writes { MatchResult result
            (λ press. Adds (G.told self.device) (G.told press.device) (two_writes (other_of self.layout) (framed job.now) (self.layout.areas - 1) (selector_of self.layout ∷ [])))
            (λ device. AddsSome (IsTwoCutShort (other_of self.layout) (framed job.now) (self.layout.areas - 1) (selector_of self.layout ∷ [])) (G.told self.device) (G.told device)) }
        ensures layout { IfOk result (λ press. press.layout ≡ behind_snapshot self.layout (length job.now)) }

        // The snapshot alone; each image that a crash may leave opens to that.
        ensures settled { (site : Site) (content : Content) → Settled site self.layout (G.told self.device) content
            → IfOk result (λ press. Settled site press.layout (G.told press.device) (only_snapshot job.now)) }
        ensures lasts { (site : Site) (content : Content) → Settled site self.layout (G.told self.device) content
            → IfOk result (λ press. Lasts site (G.told press.device) (only_snapshot job.now)) }

        // A crash at any moment leaves what stood, or the snapshot alone.
        ensures any_moment { (site : Site) (content : Content) → Settled site self.layout (G.told self.device) content
            → MatchResult result
            (λ press. Between site content (only_snapshot job.now) (G.told self.device) (G.told press.device))
            (λ device. Between site content (only_snapshot job.now) (G.told self.device) (G.told device)) }

        ensures cause { MatchResult result
            (λ press. G.disk_faults press.device ≡ G.disk_faults self.device)
            (λ device. HasCause (G.disk_faults self.device) (G.disk_faults device) ⊤) }
        ensures same { MatchResult result (λ press. G.size press.device ≡ G.size self.device) (λ device. G.size device ≡ G.size self.device) }
        ensures emitted { MatchResult result (λ press. G.emit_faults press.device ≡ G.emit_faults self.device) (λ device. G.emit_faults device ≡ G.emit_faults self.device) }
    {
        let Press { mut device, layout } = self;
        let octets = job.framed();
        let change = Change::snapshot(layout, job);
        let place = layout.other_start();
        let (second, selector) = (layout.areas - 1, layout.other_selector());
        if let Err(Failed) = write_both(&mut device, &change, place, octets, second, selector) {
            return Err(device);
        }
        let layout = layout.behind_snapshot(octets.len() as u64 - 5);
        Ok(Press { device, layout })
    }

    /// Emits each of these, in order. What the journal holds stays as it is.
    pub fn emit_all(&mut self, sends: &[Send]) -> Emits
        ensures layout { self.new.layout ≡ self.old.layout }
        ensures told { EmitsAll sends.now result.sent result.lost (G.told self.old.device) (G.told self.new.device) }
        ensures all { result.sent + result.lost ≡ length sends.now }
        ensures cause { HasCause (G.emit_faults self.old.device) (G.emit_faults self.new.device) (0 < result.lost) }
        ensures uncounted { result.lost ≡ 0 → G.emit_faults self.new.device ≡ G.emit_faults self.old.device }
        ensures disk { G.disk_faults self.new.device ≡ G.disk_faults self.old.device }
        ensures same { G.size self.new.device ≡ G.size self.old.device }
        ensures settled { (site : Site) (content : Content) → Settled site self.old.layout (G.told self.old.device) content
            → Settled site self.new.layout (G.told self.new.device) content }

        // Each image that a crash may leave, now or at any moment of the emissions, opens to what stood before them.
        ensures lasts { (site : Site) (content : Content) → Settled site self.old.layout (G.told self.old.device) content
            → Lasts site (G.told self.new.device) content }
        ensures any_moment { (site : Site) (content : Content) → Settled site self.old.layout (G.told self.old.device) content
            → Throughout site content (G.told self.old.device) (G.told self.new.device) }
    {
        emit_each(&mut self.device, &self.layout, sends)
    }

    /// The ground.
    pub fn into_ground(self) -> G
        ensures same { result ≡ self.device }
    {
        let Press { device, layout: _ } = self;
        device
    }
}
