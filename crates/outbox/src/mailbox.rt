//! The notes of one recipient, and how they go out.

ghost use Rattle.std.specs.List.{position_or_len};
ghost use Rattle.std.specs.Prelude.{◌≡◌, ℕ, Bool, List, ◌-◌, take, ◌+◌, ◌<◌, ◌≤◌, ◌∷◌, [], ◌++◌, IfOk, OnOk, OnErr, IfErr, All, length, option_copied, slice_get, drop};
ghost use Rattle.bac_values.specs.Limits.{most_note_octets};
ghost use Rattle.bac_values.specs.Moments.{IsMoment};
ghost use Rattle.bac_values.specs.declared.note.Note.{Note};
ghost use Rattle.outbox.specs.Notifying.{apdu_of, datagram_of};
ghost use Rattle.outbox.specs.Delivery.{is_awaited, is_repeated, gives_up, is_confirmed, datagrams_between};
ghost use Rattle.outbox.specs.Posts.{empty_post, with_note, without_first, is_in_flight, post_answered, post_given_up, unsent, post_sent, post_pumped, post_sends, is_post_idle, MailboxState};

use apdu_frame::{request, unconfirmed};
use bac_values::{ConfirmedService, Items, NoMemory, Note, Peer, Send, UnconfirmedService, push};
use bvlc_npdu::wrap;
use std::alloc::{AllocFailed, Global};
use std::collections::VecDeque;
use std::marker::Model;
use std::ops::Range;

/// What is kept of one recipient: its notes that are not finished, the first of which may be in flight.
#[derive(Debug, Drop)]
pub(crate) struct Mailbox {
    peer: Peer,
    next_invoke: u8,
    attempts: u8,
    deadline: u64,
    notes: VecDeque<Note>,
}

impl Model for Mailbox {
    ghost use Rattle.outbox.specs.Posts.{MailboxState};

    ghost Value = { MailboxState };

    ghost view = { λ it. record { peer = it.peer; next_invoke = it.next_invoke; attempts = it.attempts; deadline = it.deadline; notes = it.notes.items } };
}

/// The octets of the service that carries a note.
fn apdu_of(alloc: Global, invoke: u8, note: &Note) -> Result<Vec<u8>, NoMemory>
    ensures text { IfOk result (λ octets. octets.items ≡ apdu_of invoke note.now) }
{
    let body = note.body.as_slice();
    if note.confirmed {
        request(
            alloc,
            invoke,
            ConfirmedService::CONFIRMED_EVENT_NOTIFICATION.0,
            body,
        )
    } else {
        unconfirmed(
            alloc,
            UnconfirmedService::UNCONFIRMED_EVENT_NOTIFICATION.0,
            body,
        )
    }
}

/// The datagram that carries a note to a peer.
fn datagram_of(alloc: Global, peer: &Peer, invoke: u8, note: &Note) -> Result<Send, NoMemory>
    requires short { length note.now.body ≤ most_note_octets }
    ensures datagram { IfOk result (λ send. send ≡ datagram_of peer.now invoke note.now) }
{
    let apdu = apdu_of(alloc, invoke, note)?;
    let bytes = wrap(alloc, peer, note.confirmed, apdu.as_slice())?;
    Ok(Send {
        peer: *peer,
        bytes: Items::of(bytes),
    })
}

impl Mailbox {
    /// One without notes.
    pub(crate) fn new(alloc: Global, peer: Peer) -> Mailbox
        ensures empty { result ≡ empty_post peer }
    {
        Mailbox {
            peer,
            next_invoke: 0,
            attempts: 0,
            deadline: 0,
            notes: VecDeque::new(alloc),
        }
    }

    /// One with these notes.
    pub(crate) fn with_parts(
        peer: Peer,
        next_invoke: u8,
        attempts: u8,
        deadline: u64,
        notes: VecDeque<Note>,
    ) -> Mailbox
        ensures parts { result ≡ record { peer = peer; next_invoke = next_invoke; attempts = attempts; deadline = deadline; notes = notes.items } }
    {
        Mailbox {
            peer,
            next_invoke,
            attempts,
            deadline,
            notes,
        }
    }

    /// The recipient.
    pub(crate) fn peer(&self) -> Peer
        ensures peer { result ≡ self.now.peer }
    {
        self.peer
    }

    /// How many notes are not finished.
    pub(crate) fn len(&self) -> usize
        ensures length { result ≡ length self.now.notes }
    {
        self.notes.len()
    }

    /// How often the first note was sent.
    pub(crate) fn attempts(&self) -> u8
        ensures attempts { result ≡ self.now.attempts }
    {
        self.attempts
    }

    /// The invoke ID of the next note that is to be confirmed.
    pub(crate) fn next_invoke(&self) -> u8
        ensures next { result ≡ self.now.next_invoke }
    {
        self.next_invoke
    }

    /// Until when an answer is awaited.
    pub(crate) fn deadline(&self) -> u64
        ensures deadline { result ≡ self.now.deadline }
    {
        self.deadline
    }

    /// The note at a place.
    pub(crate) fn note(&self, index: usize) -> Option<&Note>
        ensures note { option_copied result ≡ slice_get self.now.notes index }
    {
        self.notes.get(index)
    }

    /// One more note, behind the others.
    pub(crate) fn push(&mut self, note: Note) -> Result<(), AllocFailed<Note>>
        ensures pushed { OnOk result (self.new ≡ with_note note self.old) }
        ensures refused { OnErr result (self.new ≡ self.old) }
        ensures returned { IfErr result (λ failed. failed.value ≡ note) }
    {
        self.notes.push_back(note)
    }

    /// Moves the last note, if there is one, to this place.
    pub(crate) fn take_back(&mut self, place: &mut Note)
        ensures peer { self.new.peer ≡ self.old.peer }
        ensures back { (notes : List Note) (last : Note) → self.old.notes ≡ notes ++ last ∷ [] → (self.new ≡ record self.old { notes = notes }) × (place.new ≡ last) }
    {
        if let Some(last) = self.notes.pop_back() {
            *place = last;
        }
    }

    /// Whether a note with this invoke ID is in flight.
    pub(crate) fn is_in_flight(&self, invoke: u8) -> bool
        ensures in_flight { result ≡ is_in_flight invoke self.now }
    {
        self.attempts > 0 && invoke == self.next_invoke
    }

    /// Whether there is nothing to send and nothing to finish.
    pub(crate) fn is_idle(&self, moment: u64) -> bool
        ensures idle { result ≡ is_post_idle moment self.now }
    {
        self.is_awaited(moment) || self.attempts == 0 && self.notes.is_empty()
    }

    /// Whether the answer to a note is awaited at the moment.
    fn is_awaited(&self, moment: u64) -> bool
        ensures awaited { result ≡ is_awaited moment self.now.attempts self.now.deadline }
    {
        self.attempts > 0 && moment < self.deadline
    }

    /// Whether the note in flight, whose deadline has come, is sent once more.
    fn is_repeated(&self, retries: u8) -> bool
        ensures repeated { result ≡ is_repeated retries self.now.attempts }
    {
        self.attempts > 0 && self.attempts <= retries
    }

    /// Whether the note in flight, which is neither awaited nor repeated, is given up with all that stands behind it.
    fn gives_up(&self, flush_silent: bool) -> bool
        ensures gives_up { result ≡ gives_up flush_silent self.now.attempts }
    {
        self.attempts > 0 && flush_silent
    }

    /// An answer with this invoke ID finishes the note that is in flight with it; tells whether there is one.
    pub(crate) fn answer(&mut self, invoke: u8) -> bool
        ensures in_flight { result ≡ is_in_flight invoke self.old }
        ensures answered { self.new ≡ post_answered invoke self.old }
    {
        let is_answer = self.is_in_flight(invoke);
        if is_answer {
            self.finish_first();
        }
        is_answer
    }

    /// The note in flight is finished.
    fn finish_first(&mut self)
        ensures finished { self.new ≡ without_first self.old }
    {
        let _finished = self.notes.pop_front();
        self.next_invoke = self.next_invoke.wrapping_add(1);
        self.attempts = 0;
        self.deadline = 0;
    }

    /// Writes what a pump sends behind others.
    pub(crate) fn append_sends(
        &self,
        alloc: Global,
        moment: u64,
        retries: u8,
        flush_silent: bool,
        sends: &mut Vec<Send>,
    ) -> Result<(), NoMemory>
        requires short { All (λ (note : Note). length note.body ≤ most_note_octets) self.now.notes }
        ensures appended { OnOk result ((timeout : ℕ) → sends.new.items ≡ sends.old.items ++ post_sends (record { timeout = timeout; retries = retries; flush_silent = flush_silent }) moment self.now) }
    {
        if self.is_awaited(moment) {
            return Ok(());
        }
        let invoke = self.next_invoke;
        if self.is_repeated(retries) {
            return append_between(alloc, &self.peer, invoke, &self.notes, 0..1, sends);
        }
        if self.gives_up(flush_silent) {
            return Ok(());
        }
        if self.attempts == 0 {
            let end = unsent_end(&self.notes, 0);
            return append_between(alloc, &self.peer, invoke, &self.notes, 0..end, sends);
        }
        let end = unsent_end(&self.notes, 1);
        let next = invoke.wrapping_add(1);
        append_between(alloc, &self.peer, next, &self.notes, 1..end, sends)
    }

    /// The note in flight, and all that stands behind it, are given up.
    fn give_up(&mut self)
        ensures given_up { self.new ≡ post_given_up self.old }
    {
        self.finish_first();
        self.notes.clear();
    }

    /// A note in flight, whose last deadline has come, is finished.
    fn finish_unanswered(&mut self)
        ensures unsent { self.new ≡ unsent self.old }
    {
        if self.attempts > 0 {
            self.finish_first();
        }
    }

    /// The notes that were never sent are sent, up to and with the first that is to be confirmed.
    fn send_unsent(&mut self, moment: u64, timeout: u64)
        requires moment { IsMoment moment }
        requires timeout { timeout ≤ 3_600_000 }
        ensures sent { (retries : ℕ) (flush_silent : Bool) → self.new ≡ post_sent (record { timeout = timeout; retries = retries; flush_silent = flush_silent }) moment self.old }
    {
        drop_unconfirmed(&mut self.notes);
        if self.notes.is_empty() {
            self.attempts = 0;
            self.deadline = 0;
        } else {
            self.attempts = 1;
            self.deadline = moment + timeout;
        }
    }

    /// What is to be sent is sent, and what is to be finished is finished.
    pub(crate) fn pump(&mut self, moment: u64, timeout: u64, retries: u8, flush_silent: bool)
        requires moment { IsMoment moment }
        requires timeout { timeout ≤ 3_600_000 }
        requires retries { retries ≤ 15 }
        ensures pumped { self.new ≡ post_pumped (record { timeout = timeout; retries = retries; flush_silent = flush_silent }) moment self.old }
    {
        if self.is_awaited(moment) {
            return;
        }
        if self.is_repeated(retries) {
            self.attempts += 1;
            self.deadline = moment + timeout;
            return;
        }
        if self.gives_up(flush_silent) {
            self.give_up();
            return;
        }
        self.finish_unanswered();
        self.send_unsent(moment, timeout);
    }
}

/// The end of the notes from a place on that are sent together: those before the first that is to be confirmed, and this one.
fn unsent_end(notes: &VecDeque<Note>, from: usize) -> usize
    ensures end { take (result - from) (drop from notes.now.items) ≡ take (position_or_len is_confirmed (drop from notes.now.items) + 1) (drop from notes.now.items) }
{
    let mut place = from;
    while let Some(note) = notes.get(place) {
        if note.confirmed {
            return place + 1;
        }
        place += 1;
    }
    place
}

/// Writes the datagrams of the notes at some places behind others.
fn append_between(
    alloc: Global,
    peer: &Peer,
    invoke: u8,
    notes: &VecDeque<Note>,
    places: Range<usize>,
    sends: &mut Vec<Send>,
) -> Result<(), NoMemory>
    requires short { All (λ (note : Note). length note.body ≤ most_note_octets) notes.now.items }
    ensures appended { OnOk result (sends.new.items ≡ sends.old.items ++ datagrams_between peer.now invoke notes.now.items places.start places.end) }
{
    for place in places.start..places.end.min(notes.len()) {
        let send = datagram_of(alloc, peer, invoke, &notes[place])?;
        push(sends, send)?;
    }
    Ok(())
}

/// Drops the notes before the first that is to be confirmed.
fn drop_unconfirmed(notes: &mut VecDeque<Note>)
    ensures rest { notes.new.items ≡ drop (position_or_len is_confirmed notes.old.items) notes.old.items }
{
    while let Some(note) = notes.front() {
        if note.confirmed {
            return;
        }
        let _sent = notes.pop_front();
    }
}
