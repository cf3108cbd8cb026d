//! Mailboxes of posts that were told, and of their notes, which stand one after the other.
ghost use Rattle.std.specs.Prelude.{◌≡◌, ◌++◌, IfOk, OnOk, take, drop};
ghost use Rattle.outbox.specs.Outboxes.{restored_posts};

use crate::Post;
use crate::mailbox::Mailbox;
use bac_values::{NoMemory, Note};
use std::alloc::Global;
use std::collections::VecDeque;

/// Moves the first note, if there is one, behind others.
fn move_first(from: &mut VecDeque<Note>, to: &mut VecDeque<Note>) -> Result<(), NoMemory>
    ensures moved { OnOk result (to.new.items ≡ to.old.items ++ take 1 from.old.items) }
    ensures left { OnOk result (from.new.items ≡ drop 1 from.old.items) }
{
    let Some(note) = from.pop_front() else {
        return Ok(());
    };
    match to.push_back(note) {
        Ok(()) => Ok(()),
        Err(_) => Err(NoMemory),
    }
}

/// The next notes, so many.
fn take_next(
    alloc: Global,
    notes: &mut VecDeque<Note>,
    count: usize,
) -> Result<VecDeque<Note>, NoMemory>
    ensures taken { IfOk result (λ taken. taken.items ≡ take count notes.old.items) }
    ensures left { OnOk result (notes.new.items ≡ drop count notes.old.items) }
{
    let mut taken = VecDeque::with_capacity(alloc, count)?;
    for _index in 0..count {
        move_first(notes, &mut taken)?;
    }
    Ok(taken)
}

/// The mailboxes.
pub(crate) fn restored_mailboxes(
    alloc: Global,
    posts: &[Post],
    notes: Vec<Note>,
) -> Result<Vec<Mailbox>, NoMemory>
    ensures restored { IfOk result (λ mailboxes. mailboxes.items ≡ restored_posts posts.now notes.items) }
{
    let mut notes = VecDeque::from_vec(notes);
    let mut mailboxes = Vec::with_capacity(alloc, posts.len())?;
    for post in posts {
        let own = take_next(alloc, &mut notes, post.notes as usize)?;
        let mailbox = Mailbox::with_parts(
            post.peer,
            post.next_invoke,
            post.attempts,
            post.deadline,
            own,
        );
        if mailboxes.push(mailbox).is_err() {
            return Err(NoMemory);
        }
    }
    Ok(mailboxes)
}
