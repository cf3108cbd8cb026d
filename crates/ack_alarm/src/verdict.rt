//! What a request to acknowledge comes to.

use bac_values::{EventState, Transition};

/// What a request to acknowledge an alarm comes to.
#[derive(Clone, Copy, Debug, PartialEq, Eq)]
pub enum Verdict {
    /// The transition is acknowledged by this request.
    Accept {
        /// The transition.
        transition: Transition,
        /// The event state that the request names.
        state: EventState,
    },
    /// The transition is acknowledged already.
    Already,
    /// The request is answered by an error.
    Error {
        /// Its class.
        class: u8,
        /// Its code.
        code: u8,
    },
}
