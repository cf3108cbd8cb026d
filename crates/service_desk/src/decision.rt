//! What an input may come to.

use alarm_core::Event;
use bac_values::{Send, SetFault};

/// What becomes of an input.
#[derive(Debug, Drop)]
pub enum Decision {
    /// It asks for nothing that the device does.
    Ignore,
    /// It would change nothing.
    Idle,
    /// The value or the fault isn't taken.
    Refuse {
        /// Why.
        why: SetFault,
    },
    /// It is answered without an event.
    Reply {
        /// The answer.
        send: Send,
    },
    /// It is an event.
    Enter {
        /// The event, whose moment is raised as it is entered.
        event: Event,
        /// The answer, where one is owed.
        reply: Option<Send>,
        /// The answer where the event's notifications don't fit the outbox.
        full: Option<Send>,
    },
}
