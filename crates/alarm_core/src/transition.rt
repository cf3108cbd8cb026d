//! A transition of an object.

ghost use Rattle.std.specs.Prelude.{◌≡◌, ◌++◌, OnOk, map};
ghost use Rattle.std.specs.Option.{option_to_list};
ghost use Rattle.alarm_core.specs.History.{object_transition};

use bac_values::{NoMemory, ObjectId, push};
use event_machine::Move;

/// An event-state transition of an object (ANSI/ASHRAE 135-2020, 13.2.2).
#[derive(Clone, Copy)]
pub(crate) struct ObjectTransition {
    /// The object.
    pub(crate) object: ObjectId,
    /// The cause of the state that it left.
    pub(crate) cause: Option<u32>,
    /// How it moved.
    pub(crate) made: Move,
}

/// A transition of an object that was in a state of this cause, if it moved.
pub(crate) fn add_transition(
    transitions: &mut Vec<ObjectTransition>,
    object: ObjectId,
    cause: Option<u32>,
    made: Option<Move>,
) -> Result<(), NoMemory>
    ensures added { OnOk result (transitions.new.items ≡ transitions.old.items ++ map (object_transition object cause) (option_to_list made)) }
{
    match made {
        Some(made) => push(
            transitions,
            ObjectTransition {
                object,
                cause,
                made,
            },
        ),
        None => Ok(()),
    }
}
