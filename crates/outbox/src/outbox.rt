//! The notes of all recipients: they enter, go out, are answered and given up.

ghost use Rattle.std.specs.Prelude.{◌≡◌, ◌&&◌, nat_lt, ℕ, ◌+◌, ◌-◌, ◌<◌, ◌≤◌, ◌^◌, ◌↔◌, IsTrue, List, [], map, All, IfOk, IfErr, IsErrOf, OnOk, OnErr, OnSome, option_map, option_and_then, option_copied, slice_get, length, if◌then◌else◌};
ghost use Rattle.bac_values.specs.Limits.{most_note_octets};
ghost use Rattle.bac_values.specs.Address.{PeerData};
ghost use Rattle.bac_values.specs.Moments.{IsMoment};
ghost use Rattle.bac_values.specs.declared.note.Note.{Note};
ghost use Rattle.bac_values.specs.Orders.{IsAscending};
ghost use Rattle.outbox.specs.Posts.{MailboxState};
ghost use Rattle.outbox.specs.Outboxes.{OutboxState, AreSettings, IsOutbox, AreParts, peers_of, unfinished_in, new_outbox, flushing, queued, pumped, sends_of, has_in_flight, answered, is_idle, AreKnown, learned, shown, restored, notes_told, notes_of};
ghost use Rattle.outbox.specs.Following.{StandsFor, Follows, Learns, AreSent, no_operations, after_queue, after_pump, after_answer};
ghost use Rattle.outbox.specs.Verdicts.{returned};

use crate::all::{
    add_all, answer_one, are_idle, count_unfinished, empty_mailboxes, has_flight, pump_all,
    sends_of,
};
use crate::deciding::{are_posts, are_settings, is_ascending};
use crate::mailbox::Mailbox;
use crate::queueing::put_all;
use crate::restoring::restored_mailboxes;
use crate::{Answered, Post, QueueFault};
use bac_values::{Items, NoMemory, Note, Peer, Send};
use std::alloc::Global;
use std::marker::Model;

/// The notes of all recipients that are not finished.
#[derive(Debug, Drop)]
pub struct Outbox {
    mailboxes: Vec<Mailbox>,
    unfinished: u32,
    limit: u32,
    timeout: u64,
    retries: u8,
    flush_silent: bool,
}

impl Model for Outbox {
    ghost use Rattle.std.specs.Prelude.{◌≡◌};
    ghost use Rattle.outbox.specs.Outboxes.{OutboxState, IsOutbox, unfinished_in};

    ghost Value = { OutboxState };

    ghost view = { λ it. record { posts = it.mailboxes.items; limit = it.limit; timeout = it.timeout; retries = it.retries; flush_silent = it.flush_silent } };

    ghost invariant = { λ it. (it.unfinished ≡ unfinished_in it.mailboxes.items) × IsOutbox (record { posts = it.mailboxes.items; limit = it.limit; timeout = it.timeout; retries = it.retries; flush_silent = it.flush_silent }) };
}

impl Outbox {
    /// An outbox without notes, for recipients that ascend. There may be at most `limit` notes that are not finished.
    /// An answer is awaited for `timeout` milliseconds, and a note is repeated at most `retries` times.
    pub fn new(
        alloc: Global,
        peers: Vec<Peer>,
        limit: u32,
        timeout: u64,
        retries: u8,
    ) -> Result<Outbox, NoMemory>
        requires ascending { IsAscending peers.items }
        requires settings { AreSettings limit timeout retries }
        ensures made { IfOk result (λ outbox. outbox ≡ new_outbox peers.items limit timeout retries) }
        ensures looking_back { IfOk result (λ outbox. StandsFor outbox no_operations) }
    {
        Ok(Outbox {
            mailboxes: empty_mailboxes(alloc, peers)?,
            unfinished: 0,
            limit,
            timeout,
            retries,
            flush_silent: false,
        })
    }

    /// The same outbox, with this choice: whether a note that is given up takes along all that stands behind it for its
    /// recipient. An outbox that is made or restored doesn't choose that.
    pub fn flushing(self, flush_silent: bool) -> Outbox
        ensures chosen { result ≡ flushing flush_silent self }
        ensures looking_back { StandsFor self no_operations → StandsFor result no_operations }
    {
        Outbox {
            flush_silent,
            ..self
        }
    }

    /// How many more notes there is room for. What is so of every outbox is told here.
    pub fn room(&self) -> u32
        ensures room { result + unfinished_in self.now.posts ≡ self.now.limit }
        ensures always { IsOutbox self.now }
    {
        self.limit - self.unfinished
    }

    /// What there is of the recipient at a place, from 0 in their order; none exactly past the last.
    pub fn post(&self, place: u32) -> Option<Post>
        ensures post { result ≡ option_map shown (slice_get self.now.posts place) }
    {
        let mailbox = self.mailboxes.get(place as usize)?;
        Some(Post {
            peer: mailbox.peer(),
            next_invoke: mailbox.next_invoke(),
            attempts: mailbox.attempts(),
            deadline: mailbox.deadline(),
            notes: mailbox.len() as u32,
        })
    }

    /// The note at an index, from 0 for the first, of the recipient at a place; none exactly past the last.
    pub fn note(&self, place: u32, index: u32) -> Option<&Note>
        ensures note { option_copied result ≡ option_and_then (λ (post : MailboxState). slice_get post.notes index) (slice_get self.now.posts place) }
    {
        self.mailboxes.get(place as usize)?.note(index as usize)
    }

    /// Whether a note of this peer with this invoke ID is in flight.
    pub fn has_in_flight(&self, peer: &Peer, invoke: u8) -> bool
        ensures in_flight { result ≡ has_in_flight peer.now invoke self.now }
    {
        has_flight(&self.mailboxes, peer, invoke)
    }

    /// Whether a pump at the moment would send nothing and finish nothing.
    pub fn idle(&self, moment: u64) -> bool
        ensures idle { result ≡ is_idle moment self.now }
        ensures nothing { IsTrue result ↔ ((sends_of moment self.now ≡ []) × (pumped moment self.now ≡ self.now)) }
    {
        are_idle(&self.mailboxes, moment)
    }

    /// Queues notes behind those of their recipients, all of them or none.
    pub fn queue(&mut self, alloc: Global, notes: Vec<Note>) -> Result<(), QueueFault>
        requires few { length notes.items < 2 ^ 31 }
        requires known { AreKnown notes.items self.old.posts }
        requires short { All (λ (note : Note). length note.body ≤ most_note_octets) notes.items }
        ensures queued { OnOk result (self.new ≡ queued notes.items self.old) }
        ensures refused { OnErr result (self.new ≡ self.old) }
        ensures returned { IfErr result (λ fault. returned fault ≡ notes.items) }
        ensures full { (would limit : ℕ) (back : List Note) → IsErrOf result (QueueFault.Full would limit back)
            ↔ ((would ≡ unfinished_in self.old.posts + length notes.items) × (limit ≡ self.old.limit) × (back ≡ notes.items)
            × (0 < length notes.items) × (limit < would)) }
        ensures looking_back { OnOk result (Follows (after_queue notes.items) self.old self.new) }
    {
        let added = notes.len();
        let would = self.unfinished + added as u32;
        if exceeds(added, would, self.limit) {
            return Err(QueueFault::Full {
                would,
                limit: self.limit,
                notes: Items::of(notes),
            });
        }
        match put_all(alloc, &mut self.mailboxes, notes) {
            Ok(()) => {
                self.unfinished = would;
                Ok(())
            }
            Err(notes) => Err(QueueFault::NoMemory { notes }),
        }
    }

    /// Sends what is to be sent at the moment, in the order of the recipients, and finishes what is to be finished.
    pub fn pump(&mut self, alloc: Global, moment: u64) -> Result<Vec<Send>, NoMemory>
        requires moment { IsMoment moment }
        ensures pumped { OnOk result (self.new ≡ pumped moment self.old) }
        ensures refused { OnErr result (self.new ≡ self.old) }
        ensures sends { IfOk result (λ sends. sends.items ≡ sends_of moment self.old) }
        ensures looking_back { OnOk result (Follows (after_pump moment) self.old self.new) }
        ensures sent { IfOk result (λ sends. AreSent moment self.old sends.items) }
    {
        let sends = sends_of(
            alloc,
            &self.mailboxes,
            moment,
            self.retries,
            self.flush_silent,
        )?;
        pump_all(
            &mut self.mailboxes,
            moment,
            self.timeout,
            self.retries,
            self.flush_silent,
        );
        self.unfinished = count_unfinished(&self.mailboxes);
        Ok(sends)
    }

    /// An answer with this invoke ID came from a peer: it finishes the note that is in flight with it.
    pub fn answer(&mut self, peer: &Peer, invoke: u8) -> Answered
        ensures answered { result ≡ (if has_in_flight peer.now invoke self.old then Answered.Answered else Answered.Stray) }
        ensures now { self.new ≡ answered peer.now invoke self.old }
        ensures stray { result ≡ Answered.Stray → self.new ≡ self.old }
        ensures looking_back { Follows (after_answer peer.now invoke) self.old self.new }
    {
        if !answer_one(&mut self.mailboxes, peer, invoke) {
            return Answered::Stray;
        }
        self.unfinished -= 1;
        Answered::Answered
    }

    /// Adds the peers that aren't known at their places, without notes.
    pub fn learn(&mut self, alloc: Global, peers: &[Peer]) -> Result<(), NoMemory>
        ensures learned { OnOk result (self.new ≡ learned peers.now self.old) }
        ensures refused { OnErr result (self.new ≡ self.old) }
        ensures looking_back { OnOk result (Learns peers.now self.old self.new) }
    {
        self.mailboxes.reserve(peers.len())?;
        add_all(alloc, &mut self.mailboxes, peers);
        Ok(())
    }

    /// Whether an outbox may be made of these posts and notes by `restore`.
    #[tactic(auto, using(crate::proofs::Tested::refused_settings))]
    pub fn can_restore(
        posts: &[Post],
        notes: &[Note],
        limit: u32,
        timeout: u64,
        retries: u8,
    ) -> bool
        ensures exact { IsTrue result ↔ AreParts posts.now notes.now limit timeout retries }
    {
        if !are_settings(limit, timeout, retries) {
            return false;
        }
        if notes.len() > limit as usize {
            return false;
        }
        if !is_ascending(posts) {
            return false;
        }
        are_posts(posts, notes, retries)
    }

    /// An outbox with these posts and notes, one post's after the other's. Each post tells how many are its own.
    /// `can_restore` tells whether they are those of an outbox.
    pub fn restore(
        alloc: Global,
        posts: Vec<Post>,
        notes: Vec<Note>,
        limit: u32,
        timeout: u64,
        retries: u8,
    ) -> Result<Outbox, NoMemory>
        requires counts { notes_told posts.items ≡ length notes.items }
        requires outbox { IsOutbox (restored posts.items notes.items limit timeout retries) }
        ensures restored { IfOk result (λ outbox. outbox ≡ restored posts.items notes.items limit timeout retries) }
        ensures shows { IfOk result (λ outbox. map shown outbox.posts ≡ posts.items) }
        ensures holds { IfOk result (λ outbox. notes_of outbox.posts ≡ notes.items) }
    {
        let unfinished = notes.len() as u32;
        Ok(Outbox {
            mailboxes: restored_mailboxes(alloc, &posts, notes)?,
            unfinished,
            limit,
            timeout,
            retries,
            flush_silent: false,
        })
    }
}

/// Whether notes are added, and there would then be more than there may be.
fn exceeds(added: usize, would: u32, limit: u32) -> bool
    ensures exceeds { result ≡ (nat_lt 0 added && nat_lt limit would) }
{
    added > 0 && would > limit
}
