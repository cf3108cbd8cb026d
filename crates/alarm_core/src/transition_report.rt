//! What is told of the transitions of one point.

ghost use Rattle.std.specs.Prelude.{◌≡◌, ◌++◌, All, IfOk, OnOk, map};
ghost use Rattle.alarm_core.specs.History.{moved_by};
ghost use Rattle.alarm_core.specs.Logs.{records_of, SiteLogState};
ghost use Rattle.alarm_core.specs.Notes.{IsShort, notes_of_transitions};
ghost use Rattle.alarm_core.specs.ViewSteps.{moved_of, transition_in};

use crate::logs::{RecordToLog, SiteLog, records_of_all};
use crate::notifications::{addressed_notifications, notes_of_all};
use crate::transition::ObjectTransition;
use crate::view::SiteView;
use bac_values::{Moved, NoMemory, Note, push};
use std::alloc::Global;

/// What is told of the transitions of a look: the moves, the notes, and the records of each log.
#[derive(Drop)]
pub(crate) struct Told {
    pub(crate) moves: Vec<Moved>,
    pub(crate) notes: Vec<Note>,
    pub(crate) records: Vec<Vec<RecordToLog>>,
}

fn moved_of(transition: &ObjectTransition) -> Moved
    ensures moved { result ≡ moved_of transition.now }
{
    Moved {
        object: transition.object,
        from: transition.made.from,
        to: transition.made.to,
    }
}

fn moves_of(alloc: Global, transitions: &[ObjectTransition]) -> Result<Vec<Moved>, NoMemory>
    ensures moves { IfOk result (λ moves. moves.items ≡ map moved_of transitions.now) }
{
    let mut moves = Vec::new(alloc);
    for transition in transitions {
        push(&mut moves, moved_of(transition))?;
    }
    Ok(moves)
}

/// Some moves go behind others.
pub(crate) fn add_moves(moves: &mut Vec<Moved>, mut more: Vec<Moved>) -> Result<(), NoMemory>
    ensures added { OnOk result (moves.new.items ≡ moves.old.items ++ more.items) }
{
    match moves.append(&mut more) {
        Ok(()) => Ok(()),
        Err(_refused) => Err(NoMemory),
    }
}

/// What is told of some transitions of a look.
pub(crate) fn tell(
    alloc: Global,
    view: &SiteView<'_>,
    logs: &[SiteLog],
    transitions: &[ObjectTransition],
) -> Result<Told, NoMemory>
    ensures moves { IfOk result (λ told. told.moves.items ≡ map moved_by (map (transition_in view.now) transitions.now)) }
    ensures notes { IfOk result (λ told. told.notes.items ≡ notes_of_transitions view.now.site view.now.classes (map (transition_in view.now) transitions.now)) }
    ensures records { IfOk result (λ told. map (λ list. list.items) told.records.items
        ≡ map (λ (kept : SiteLogState). records_of view.now.site view.now.classes kept.site (map (transition_in view.now) transitions.now)) logs.now) }
    ensures short { IfOk result (λ told. All IsShort told.notes.items) }
{
    let addressed = addressed_notifications(alloc, view, transitions)?;
    let moves = moves_of(alloc, transitions)?;
    let notes = notes_of_all(alloc, &addressed, view.at)?;
    let records = records_of_all(alloc, logs, &addressed, view.at)?;
    Ok(Told {
        moves,
        notes,
        records,
    })
}
