//! Whether posts that were told, and their notes, are those of an outbox.
ghost use Rattle.std.specs.Prelude.{◌≡◌, ◌≤◌, ◌↔◌, IsTrue, false, map, slice_get};
ghost use Rattle.std.specs.Option.{option_map_or};
ghost use Rattle.bac_values.specs.Orders.{IsAscending, peer_order};
ghost use Rattle.std.specs.List.{list_all};
ghost use Rattle.std.specs.Ordering.{is_lt};
ghost use Rattle.outbox.specs.declared.post.Post.{Post as Told};
ghost use Rattle.outbox.specs.Delivery.{is_confirmed};
ghost use Rattle.outbox.specs.Posts.{TestsPosts, is_own, is_post, is_tried};
ghost use Rattle.outbox.specs.Outboxes.{AreSettings, are_posts, restored_post};

use crate::Post;
use bac_values::{MOST_NOTE_OCTETS, MOST_OUTBOX, Note, Peer};

/// Whether a note is short, and for this recipient.
fn is_own(peer: &Peer, note: &Note) -> bool
    ensures own { result ≡ is_own peer.now note.now }
{
    note.body.as_slice().len() <= MOST_NOTE_OCTETS && note.peer.is_same(peer)
}

/// Whether the first note, if there is one, is to be confirmed.
fn starts_confirmed(notes: &[Note]) -> bool
    ensures confirmed { result ≡ option_map_or is_confirmed (slice_get notes.now 0) false }
{
    match notes.first() {
        Some(note) => note.confirmed,
        None => false,
    }
}

/// Whether the attempts and the deadline that were told are those of a post with these notes.
fn is_tried(post: &Post, notes: &[Note], retries: u8) -> bool
    requires retries { retries ≤ 15 }
    ensures tried { result ≡ is_tried retries (restored_post post.now notes.now) }
{
    if post.attempts == 0 {
        return post.deadline == 0;
    }
    post.attempts <= 1 + retries && starts_confirmed(notes)
}

/// Whether notes are short, and for this recipient.
fn are_own(peer: &Peer, notes: &[Note]) -> bool
    ensures own { result ≡ list_all (is_own peer.now) notes.now }
{
    notes.iter().all(|note| is_own(peer, note))
}

/// Whether what was told of a post, and its notes, are those of one.
#[tactic(auto, using(crate::proofs::Tested::in_range))]
fn is_post(post: Post, notes: &[Note], retries: u8) -> bool
    requires retries { retries ≤ 15 }
    ensures post { result ≡ is_post retries (restored_post post notes.now) }
{
    is_tried(&post, notes, retries) && are_own(&post.peer, notes)
}

/// Whether each post has its notes, none is left, and each is a post.
pub(crate) fn are_posts(posts: &[Post], notes: &[Note], retries: u8) -> bool
    requires retries { retries ≤ 15 }
    ensures posts { result ≡ are_posts retries posts.now notes.now }
{
    let mut left = notes;
    for post in posts {
        let count = post.notes as usize;
        if left.len() < count {
            return false;
        }
        let (own, others) = left.split_at(count);
        if !is_post(*post, own, retries) {
            return false;
        }
        left = others;
    }
    left.is_empty()
}

/// Whether the first of two recipients stands before the second.
#[tactic(auto, using(bac_values::proofs::Orders::peers))]
fn is_below(first: &Post, second: &Post) -> bool
    ensures below { result ≡ is_lt (peer_order first.now.peer second.now.peer) }
{
    first.peer.cmp(&second.peer).is_lt()
}

/// Whether each recipient is below the next.
pub(crate) fn is_ascending(posts: &[Post]) -> bool
    ensures ascending { IsTrue result ↔ IsAscending (map (λ (post : Told). post.peer) posts.now) }
{
    posts.is_sorted_by(|earlier, later| is_below(earlier, later))
}

/// Whether these may be the settings of an outbox.
pub(crate) fn are_settings(limit: u32, timeout: u64, retries: u8) -> bool
    ensures settings { IsTrue result ↔ AreSettings limit timeout retries }
{
    limit <= MOST_OUTBOX && timeout <= 3_600_000 && retries <= 15
}

/// The test of posts tells what is so of every post.
pub fn tests_posts()
    ensures posts { TestsPosts }
{}
