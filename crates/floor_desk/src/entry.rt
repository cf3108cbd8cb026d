//! The entries of a floor's history: one for each turn.

ghost use Rattle.std.specs.Prelude.{◌≡◌};
ghost use Rattle.floor_desk.specs.Accounts.{entry_for};

use crate::faults::{CommitFault, EnterFault};
use alarm_journal::Press;
use bac_values::{Input, SetFault};
use ground_io::Ground;
use noted::Noted;

/// What became of an input that was taken.
#[derive(Clone, Copy, Debug, PartialEq, Eq, Drop)]
pub enum Kind {
    /// It is an event.
    Entered,
    /// It would change nothing.
    Idle,
    /// It asks for nothing that the device does.
    Ignored,
    /// It is answered without an event.
    Replied,
    /// Its value or its fault isn't taken.
    Refused {
        /// Why.
        why: SetFault,
    },
}

/// What a caller is given for an input.
#[derive(Clone, Copy, Debug, PartialEq, Eq, Drop)]
pub struct Ticket {
    /// How many events there are behind it.
    pub number: u64,
    /// What became of it.
    pub kind: Kind,
}

/// What a turn did that entered no event and left the press where it was.
#[derive(Drop)]
pub enum Look {
    /// An input was tried. It is no event, or it wasn't taken.
    Tried {
        /// The input.
        input: Noted<Input>,
        /// When it came.
        moment: u64,
        /// What was answered.
        answer: Result<Ticket, EnterFault>,
    },
    /// A commit was refused.
    Refused(CommitFault),
    /// The desk waits for the press, to be closed.
    Closing,
}

/// What one turn did.
#[derive(Drop)]
pub enum Entry<G: Ground> {
    /// An event was entered.
    Event {
        /// The input.
        input: Noted<Input>,
        /// When it came.
        moment: u64,
        /// What was answered.
        ticket: Ticket,
    },
    /// None was, and the press stayed where it was.
    Looked(Look),
    /// The press left, with all that was pending.
    Taken {
        /// It is to write the events up to this number.
        upto: u64,
    },
    /// The press came back.
    Returned {
        /// It has written the events up to this number.
        upto: u64,
        /// The press as it came back.
        press: Noted<Press<G>>,
    },
    /// The press is gone: its disk failed.
    Failed {
        /// It was to write the events up to this number.
        upto: u64,
        /// What is left of it.
        device: Noted<G>,
    },
}

impl<G: Ground> Entry<G> {
    // The entry of an input that was tried: an event, where its ticket says so.
    pub(crate) fn of(
        input: Noted<Input>,
        moment: u64,
        answer: Result<Ticket, EnterFault>,
    ) -> Entry<G>
        ensures entry { result ≡ entry_for input moment answer }
    {
        if let Ok(ticket) = answer {
            if matches!(ticket.kind, Kind::Entered) {
                return Entry::Event {
                    input,
                    moment,
                    ticket,
                };
            }
        }
        Entry::Looked(Look::Tried {
            input,
            moment,
            answer,
        })
    }
}
