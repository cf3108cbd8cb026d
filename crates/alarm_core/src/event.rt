//! Events, and what comes of one.

use bac_values::{EventState, Items, Moved, NoMemory, ObjectId, Peer, Send, Transition};
use notify_class::Destination;
use object_table::Change;

/// What happens.
#[derive(Debug, Drop)]
pub enum Act {
    /// Time has gone by.
    Tick,
    /// A property, or the reliability of what gives an object's value, is changed.
    Write {
        /// The change.
        change: Change,
    },
    /// A transition is acknowledged (ANSI/ASHRAE 135-2020, 13.5).
    Ack {
        /// The object.
        object: ObjectId,
        /// The transition.
        transition: Transition,
        /// The event state that the acknowledgement names.
        state: EventState,
    },
    /// What is to be sent is sent.
    Pump,
    /// A recipient answered a notification.
    Answer {
        /// The recipient.
        peer: Peer,
        /// The invoke ID of the notification.
        invoke: u8,
        /// The kind of the answer by the number of its PDU: 2 SimpleACK, 5 Error, 6 Reject, 7 Abort.
        kind: u8,
    },
    /// The Recipient_List of a notification class is changed (ANSI/ASHRAE 135-2020, 12.21).
    Edit {
        /// The instance of the class.
        class: u32,
        /// Its new list.
        destinations: Items<Destination>,
    },
}

/// What happens at a moment.
#[derive(Debug, Drop)]
pub struct Event {
    /// When, in milliseconds since 1970.
    pub moment: u64,
    /// What.
    pub act: Act,
}

/// What an event did.
#[derive(Debug, Drop)]
pub struct Outcome {
    /// The event's moment, raised to that of the event before it.
    pub moment: u64,
    /// The changes of event states, in their order.
    pub moves: Items<Moved>,
    /// What is sent, in this order.
    pub sends: Items<Send>,
}

/// Why an event isn't taken.
#[derive(Clone, Copy, Debug, PartialEq, Eq)]
pub enum StepFault {
    /// Its notifications don't fit the outbox.
    Full {
        /// How many notifications would then not be finished.
        would: u32,
        /// How many there may be.
        limit: u32,
    },
    /// Memory was refused.
    NoMemory,
}

impl From<NoMemory> for StepFault {
    ghost use Rattle.std.specs.Prelude.{◌≡◌};
    ghost use Rattle.alarm_core.specs.declared.event.StepFault.TheVariants.{NoMemory as Refused};

    ghost from_gives = { λ _ fault. fault ≡ Refused };

    fn from(_refused: NoMemory) -> StepFault {
        StepFault::NoMemory
    }
}
