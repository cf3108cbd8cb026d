//! A notification becomes a note to each recipient that it tells.

ghost use Rattle.std.specs.Prelude.{◌≡◌, ◌≤◌, length, All, Contains, IfOk};
ghost use Rattle.bac_values.specs.Limits.{most_note_octets};
ghost use Rattle.bac_values.specs.declared.note.Note.{Note};
ghost use Rattle.notify_class.specs.Edits.{recipient_peers};
ghost use Rattle.note_maker.specs.Notes.{note_to, notes_for};

use bac_values::{Items, NoMemory, Note, Transition, push};
use civil_stamp::LocalMoment;
use event_services::WrittenNotification;
use notify_class::{Class, Destination, uses_at};
use std::alloc::Global;

/// The note that tells a recipient.
fn note_to(
    alloc: Global,
    facts: &WrittenNotification,
    destination: &Destination,
) -> Result<Note, NoMemory>
    ensures note { IfOk result (λ note. note ≡ note_to facts.now destination.now) }
    ensures short { IfOk result (λ note. length note.body ≤ most_note_octets) }
{
    let body = facts.told_to(alloc, destination.process)?;
    Ok(Note {
        peer: destination.peer,
        confirmed: destination.confirmed,
        body: Items::of(body),
    })
}

/// The notes that tell the recipients of a class of an event at a moment: one for each that is notified of such a
/// transition at the local date and time of it, in the order of the list. Each is told its own process identifier.
pub fn notes_of(
    alloc: Global,
    facts: &WrittenNotification,
    class: &Class,
    transition: Transition,
    at: &LocalMoment,
) -> Result<Vec<Note>, NoMemory>
    ensures notes { IfOk result (λ notes. notes.items ≡ notes_for facts.now class.now.destinations transition at.now.moment at.now.zone) }
    ensures short { IfOk result (λ notes. All (λ (note : Note). length note.body ≤ most_note_octets) notes.items) }
    ensures peers { IfOk result (λ notes. All (λ (note : Note). Contains (recipient_peers class.now.destinations) note.peer) notes.items) }
{
    let mut notes = Vec::new(alloc);
    for destination in class.destinations.as_slice() {
        if uses_at(destination, transition, at) {
            push(&mut notes, note_to(alloc, facts, destination)?)?;
        }
    }
    Ok(notes)
}
