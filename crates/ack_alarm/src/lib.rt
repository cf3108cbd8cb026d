//! The verdict on a request to acknowledge an alarm (ANSI/ASHRAE 135-2020, 13.5).
#![tactic(auto)]

mod judging;
mod verdict;

pub use judging::judge;
pub use verdict::Verdict;
