//! The notes of an event enter the outbox, all of them or none.

ghost use Rattle.std.specs.Prelude.{◌≡◌, All, List, OnErr, OnOk, length};
ghost use Rattle.bac_values.specs.declared.note.Note.{Note as Notification};
ghost use Rattle.outbox.specs.Outboxes.{AreKnown, peers_of, queued};
ghost use Rattle.alarm_core.specs.Notes.{IsShort};
ghost use Rattle.alarm_core.specs.Verdicts.{Answers, queue_verdict, refusal_of};
ghost use Rattle.alarm_core.specs.ViewSteps.{HasRoom};

use crate::StepFault;
use bac_values::Note;
use outbox::{Outbox, QueueFault};
use std::alloc::Global;

// Why an event isn't taken whose notes aren't queued.
fn refusal_of(fault: QueueFault) -> StepFault
    ensures refusal { result ≡ refusal_of fault }
{
    match fault {
        QueueFault::Full { would, limit, .. } => StepFault::Full { would, limit },
        QueueFault::NoMemory { .. } => StepFault::NoMemory,
    }
}

/// Whether an outbox with this limit takes so many notes more.
pub(crate) fn see_room(outbox: &Outbox, limit: u32, added: usize) -> Result<(), StepFault>
    requires limit { outbox.now.limit ≡ limit }
    ensures room { OnOk result (HasRoom added outbox.now) }
    ensures verdict { (notes : List Notification) → length notes ≡ added → Answers result (queue_verdict notes outbox.now) }
{
    // No site has objects and recipients for so many; an outbox couldn't count them.
    if added >= 1 << 31 {
        return Err(StepFault::NoMemory);
    }
    let (added, room) = (added as u32, outbox.room());
    if added > room {
        let would = limit - room + added;
        return Err(StepFault::Full { would, limit });
    }
    Ok(())
}

/// Queues the notes of an event, all of them or none.
pub(crate) fn queue_all(
    alloc: Global,
    outbox: &mut Outbox,
    notes: Vec<Note>,
) -> Result<(), StepFault>
    requires known { AreKnown notes.items outbox.old.posts }
    requires short { All IsShort notes.items }
    ensures queued { OnOk result (outbox.new ≡ queued notes.items outbox.old) }
    ensures same { OnErr result (outbox.new ≡ outbox.old) }
    ensures peers { peers_of outbox.new.posts ≡ peers_of outbox.old.posts }
    ensures verdict { Answers result (queue_verdict notes.items outbox.old) }
{
    // No site has objects and recipients for so many; an outbox couldn't count them.
    if notes.len() >= 1 << 31 {
        return Err(StepFault::NoMemory);
    }
    match outbox.queue(alloc, notes) {
        Ok(()) => Ok(()),
        Err(fault) => Err(refusal_of(fault)),
    }
}
