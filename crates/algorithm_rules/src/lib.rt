//! The rules by which an object's event state changes: which are tried in a state, when the condition of each holds, and
//! for how long it must last (ANSI/ASHRAE 135-2020, 13.3).
//!
//! A rule looks at one moment alone. That its condition must last, and since when it has, is told by whoever keeps the
//! moments: as long as the key of a rule stays the same, its condition has gone on.
#![tactic(auto)]

mod conditions;
mod matching;
mod rules;
mod snapshot;
mod table;
mod waiting;

pub use conditions::{key, number_of};
pub use matching::{matched, matches};
pub use rules::rule;
pub use snapshot::Snapshot;
pub use table::{Algorithm, Rule, Test, Waiting};
pub use waiting::delay;
