//! A list that callers share under a turnstile.
//!
//! Each caller appends entries of its own, from a thread of its own. What one thread would do in turn, they
//! do in the one order of the turnstile's history: each caller's entries stand in it once and in the
//! caller's order, under a number of the caller's own, and the list is what the history gives.
#![tactic(auto)]

mod appending;
mod list;
#[cfg(test)]
mod tests;
mod threads;
#[cfg(test)]
mod turnstile_tests;

pub use appending::{append, append_each};
pub use list::{Call, ListPass, SharedList};
pub use threads::{append_all, append_lists};
