//! What is done with the mailboxes of all recipients, which stand in the order of their peers.
ghost use Rattle.std.specs.Prelude.{◌≡◌, ℕ, ◌+◌, ◌<◌, ◌≤◌, if◌then◌else◌, ◌++◌, IfOk, All, length, map, flat_map, vec_len, vec_capacity};
ghost use Rattle.bac_values.specs.Limits.{most_outbox};
ghost use Rattle.std.specs.List.{list_all, list_any};
ghost use Rattle.bac_values.specs.Moments.{IsMoment};
ghost use Rattle.bac_values.specs.Orders.{IsAscending};
ghost use Rattle.outbox.specs.Places.{IsSearched};
ghost use Rattle.outbox.specs.Posts.{IsPost, empty_post, post_pumped, post_sends, is_post_idle, MailboxState};
ghost use Rattle.outbox.specs.Outboxes.{peers_of, unfinished_in, mailboxes_with, mailboxes_with_all, is_flight_to, answered_by};

use crate::mailbox::Mailbox;
use bac_values::{NoMemory, Peer, Send};
use std::alloc::Global;

/// The place of a peer's mailbox, or the place at which it would stand.
pub(crate) fn find(mailboxes: &[Mailbox], peer: &Peer) -> Result<usize, usize>
    requires ascending { IsAscending (peers_of mailboxes.now) }
    ensures searched { IsSearched peer.now mailboxes.now result }
{
    mailboxes.binary_search_by_key(peer, |mailbox| mailbox.peer())
}

/// Whether a note of this peer with this invoke ID is in flight.
pub(crate) fn has_flight(mailboxes: &[Mailbox], peer: &Peer, invoke: u8) -> bool
    requires ascending { IsAscending (peers_of mailboxes.now) }
    ensures in_flight { result ≡ list_any (is_flight_to peer.now invoke) mailboxes.now }
{
    match find(mailboxes, peer) {
        Ok(place) => mailboxes[place].is_in_flight(invoke),
        Err(_) => false,
    }
}

/// An answer finishes the note of this peer that is in flight with this invoke ID; tells whether there is one.
pub(crate) fn answer_one(mailboxes: &mut [Mailbox], peer: &Peer, invoke: u8) -> bool
    requires ascending { IsAscending (peers_of mailboxes.old) }
    requires filled { All (λ (post : MailboxState). 0 < post.attempts → 0 < length post.notes) mailboxes.old }
    ensures in_flight { result ≡ list_any (is_flight_to peer.now invoke) mailboxes.old }
    ensures left { unfinished_in mailboxes.new + (if result then 1 else 0) ≡ unfinished_in mailboxes.old }
    ensures now { mailboxes.new ≡ map (answered_by peer.now invoke) mailboxes.old }
{
    let Ok(place) = find(mailboxes, peer) else {
        return false;
    };
    mailboxes[place].answer(invoke)
}

/// Whether no recipient has anything to send or to finish.
pub(crate) fn are_idle(mailboxes: &[Mailbox], moment: u64) -> bool
    ensures idle { result ≡ list_all (is_post_idle moment) mailboxes.now }
{
    mailboxes.iter().all(|mailbox| mailbox.is_idle(moment))
}

/// What a pump sends, in the order of the recipients.
pub(crate) fn sends_of(
    alloc: Global,
    mailboxes: &[Mailbox],
    moment: u64,
    retries: u8,
    flush_silent: bool,
) -> Result<Vec<Send>, NoMemory>
    requires posts { All (IsPost retries) mailboxes.now }
    ensures sends { IfOk result (λ sends. (timeout : ℕ) → sends.items ≡ flat_map (post_sends (record { timeout = timeout; retries = retries; flush_silent = flush_silent }) moment) mailboxes.now) }
{
    let mut sends = Vec::new(alloc);
    for mailbox in mailboxes {
        mailbox.append_sends(alloc, moment, retries, flush_silent, &mut sends)?;
    }
    Ok(sends)
}

/// Pumps every recipient.
pub(crate) fn pump_all(
    mailboxes: &mut [Mailbox],
    moment: u64,
    timeout: u64,
    retries: u8,
    flush_silent: bool,
)
    requires moment { IsMoment moment }
    requires timeout { timeout ≤ 3_600_000 }
    requires retries { retries ≤ 15 }
    ensures pumped { mailboxes.new ≡ map (post_pumped (record { timeout = timeout; retries = retries; flush_silent = flush_silent }) moment) mailboxes.old }
{
    for place in 0..mailboxes.len() {
        mailboxes[place].pump(moment, timeout, retries, flush_silent);
    }
}

/// How many notes are not finished.
pub(crate) fn count_unfinished(mailboxes: &[Mailbox]) -> u32
    requires room { unfinished_in mailboxes.now ≤ most_outbox }
    ensures count { result ≡ unfinished_in mailboxes.now }
{
    let mut count = 0;
    for mailbox in mailboxes {
        count += mailbox.len() as u32;
    }
    count
}

/// Empty mailboxes of these peers.
pub(crate) fn empty_mailboxes(alloc: Global, peers: Vec<Peer>) -> Result<Vec<Mailbox>, NoMemory>
    ensures empty { IfOk result (λ mailboxes. mailboxes.items ≡ map empty_post peers.items) }
{
    let mut mailboxes = Vec::with_capacity(alloc, peers.len())?;
    for peer in peers {
        if mailboxes.push(Mailbox::new(alloc, peer)).is_err() {
            return Err(NoMemory);
        }
    }
    Ok(mailboxes)
}

/// Adds an empty mailbox for a peer that has none, at its place. There is room for it.
fn add_one(alloc: Global, mailboxes: &mut Vec<Mailbox>, peer: Peer)
    requires ascending { IsAscending (peers_of mailboxes.old.items) }
    requires room { vec_len mailboxes.old < vec_capacity mailboxes.old }
    ensures added { mailboxes.new.items ≡ mailboxes_with peer mailboxes.old.items }
    ensures length { vec_len mailboxes.new ≤ vec_len mailboxes.old + 1 }
    ensures capacity { vec_capacity mailboxes.old ≤ vec_capacity mailboxes.new }
{
    if let Err(place) = find(mailboxes, &peer) {
        let _inserted = mailboxes.insert(place, Mailbox::new(alloc, peer));
    }
}

/// Adds an empty mailbox for each peer that has none, at its place. There is room for them.
pub(crate) fn add_all(alloc: Global, mailboxes: &mut Vec<Mailbox>, peers: &[Peer])
    requires ascending { IsAscending (peers_of mailboxes.old.items) }
    requires room { vec_len mailboxes.old + length peers.now ≤ vec_capacity mailboxes.old }
    ensures added { mailboxes.new.items ≡ mailboxes_with_all peers.now mailboxes.old.items }
{
    for peer in peers {
        add_one(alloc, mailboxes, *peer);
    }
}
