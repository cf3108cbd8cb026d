//! The posts of an outbox are read, with their notifications.

ghost use Rattle.std.specs.Prelude.{◌≡◌, ◌++◌, IfOk, OnOk, length};
ghost use Rattle.outbox.specs.Outboxes.{notes_told, restored_post, restored_posts};
ghost use Rattle.state_codec.specs.ReadingSteps.{Gives};
ghost use Rattle.state_codec.specs.SnapshotSteps.{note_at, post_at, times_at};

use crate::parts::{take_octet, take_peer, take_u16, take_u64};
use crate::reading::ReadFault;
use crate::reading_lists::take_notes;
use bac_values::{NoMemory, Note, Peer, push};
use outbox::Post;
use std::alloc::Global;

/// Takes so many notifications to a peer, and no fewer.
fn take_all(
    alloc: Global,
    peer: Peer,
    count: u16,
    bytes: &mut &[u8],
) -> Result<Vec<Note>, ReadFault>
    ensures exact { Gives (λ x. (x.items, bytes.new.now)) result (times_at (note_at peer) count bytes.old.now) }
    ensures many { IfOk result (λ x. length x.items ≡ count) }
{
    take_notes(alloc, peer, count, bytes)
}

/// Takes a post, and its notifications beside it.
#[tactic(auto, unfolding(crate::specs::SnapshotSteps::post_at))]
pub(crate) fn take_post(alloc: Global, bytes: &mut &[u8]) -> Result<(Post, Vec<Note>), ReadFault>
    ensures exact { Gives (λ x. (restored_post x.0 x.1.items, bytes.new.now)) result (post_at bytes.old.now) }
    ensures told { IfOk result (λ x. x.0.notes ≡ length x.1.items) }
{
    let peer = take_peer(bytes)?;
    let next_invoke = take_octet(bytes)?;
    let attempts = take_octet(bytes)?;
    let deadline = take_u64(bytes)?;
    let count = take_u16(bytes)?;
    let notes = take_all(alloc, peer, count, bytes)?;
    let post = Post {
        peer,
        next_invoke,
        attempts,
        deadline,
        notes: u32::from(count),
    };
    Ok((post, notes))
}

/// Takes so many posts, and their notifications, one post's after the other's.
pub(crate) fn take_list(
    alloc: Global,
    count: u16,
    bytes: &mut &[u8],
) -> Result<(Vec<Post>, Vec<Note>), ReadFault>
    ensures exact { Gives (λ x. (restored_posts x.0.items x.1.items, bytes.new.now)) result (times_at post_at count bytes.old.now) }
    ensures told { IfOk result (λ x. notes_told x.0.items ≡ length x.1.items) }
{
    let mut posts = Vec::new(alloc);
    let mut notes = Vec::new(alloc);
    for _ in 0..count {
        let (post, own) = take_post(alloc, bytes)?;
        push(&mut posts, post)?;
        push_all(&mut notes, own)?;
    }
    Ok((posts, notes))
}

/// Adds others behind some.
fn push_all(notes: &mut Vec<Note>, own: Vec<Note>) -> Result<(), NoMemory>
    ensures added { OnOk result (notes.new.items ≡ notes.old.items ++ own.items) }
{
    let mut own = own;
    match notes.append(&mut own) {
        Ok(()) => Ok(()),
        Err(_) => Err(NoMemory),
    }
}
