//! Notes go into their recipients' mailboxes, all of them or none.
ghost use Rattle.std.specs.Prelude.{◌≡◌, List, ◌∷◌, [], ◌++◌, ◌≤◌, IsTrue, IfErr, OnOk, OnErr, map, take, drop, length};
ghost use Rattle.bac_values.specs.declared.note.Note.{Note};
ghost use Rattle.bac_values.specs.Orders.{IsAscending};
ghost use Rattle.outbox.specs.Posts.{MailboxState};
ghost use Rattle.outbox.specs.Outboxes.{peers_of, with_notes, is_known, without_body, AreKnown};

use crate::all::find;
use crate::mailbox::Mailbox;
use bac_values::{Items, NoMemory, Note};
use std::alloc::Global;
use std::mem;

/// Moves a note into its recipient's mailbox. What is left in its place has no octets.
fn put(alloc: Global, mailboxes: &mut [Mailbox], note: &mut Note) -> Result<(), NoMemory>
    requires ascending { IsAscending (peers_of mailboxes.old) }
    requires known { IsTrue (is_known note.old.peer mailboxes.old) }
    ensures put { OnOk result (mailboxes.new ≡ map (with_notes (note.old ∷ [])) mailboxes.old) }
    ensures left { OnOk result (note.new ≡ without_body note.old) }
    ensures refused { OnErr result (mailboxes.new ≡ mailboxes.old) }
    ensures kept { OnErr result (note.new ≡ note.old) }
{
    let Ok(place) = find(mailboxes, &note.peer) else {
        unreachable!()
    };
    let left = Note {
        peer: note.peer,
        confirmed: note.confirmed,
        body: Items::of(Vec::new(alloc)),
    };
    let moved = mem::replace(note, left);
    match mailboxes[place].push(moved) {
        Ok(()) => Ok(()),
        Err(refused) => {
            *note = refused.value;
            Err(NoMemory)
        }
    }
}

/// Moves the last note of its recipient's mailbox back to where it came from.
fn take_back(mailboxes: &mut [Mailbox], note: &mut Note)
    requires ascending { IsAscending (peers_of mailboxes.old) }
    ensures peers { peers_of mailboxes.new ≡ peers_of mailboxes.old }
    ensures back { (posts : List MailboxState) (whole : Note) → IsTrue (is_known whole.peer posts) → mailboxes.old ≡ map (with_notes (whole ∷ [])) posts
        → note.old ≡ without_body whole → (mailboxes.new ≡ posts) × (note.new ≡ whole) }
{
    let Ok(place) = find(mailboxes, &note.peer) else {
        return;
    };
    mailboxes[place].take_back(note);
}

/// Moves the first notes back to where they came from, the last of them first.
fn take_back_all(mailboxes: &mut [Mailbox], notes: &mut [Note], count: usize)
    requires count { count ≤ length notes.old }
    requires ascending { IsAscending (peers_of mailboxes.old) }
    ensures back { (posts : List MailboxState) (whole : List Note) → AreKnown whole posts → mailboxes.old ≡ map (with_notes (take count whole)) posts
        → notes.old ≡ map without_body (take count whole) ++ drop count whole → (mailboxes.new ≡ posts) × (notes.new ≡ whole) }
{
    let mut place = count;
    while place > 0 {
        place -= 1;
        take_back(mailboxes, &mut notes[place]);
    }
}

/// Moves all notes into the mailboxes of their recipients. Where memory ends, they come back.
pub(crate) fn put_all(
    alloc: Global,
    mailboxes: &mut [Mailbox],
    mut notes: Vec<Note>,
) -> Result<(), Items<Note>>
    requires ascending { IsAscending (peers_of mailboxes.old) }
    requires known { AreKnown notes.items mailboxes.old }
    ensures put { OnOk result (mailboxes.new ≡ map (with_notes notes.items) mailboxes.old) }
    ensures refused { OnErr result (mailboxes.new ≡ mailboxes.old) }
    ensures returned { IfErr result (λ back. back ≡ notes.items) }
{
    for place in 0..notes.len() {
        if put(alloc, mailboxes, &mut notes[place]).is_err() {
            take_back_all(mailboxes, &mut notes, place);
            return Err(Items::of(notes));
        }
    }
    Ok(())
}
