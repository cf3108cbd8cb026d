//! A lock with one history.
//!
//! A [`Turnstile`] lets one caller at a time to the value that it guards, in the order in which the callers
//! drew their tickets. Each turn adds one entry to the turnstile's history, which contracts alone see: the
//! value under the lock always stands for the whole history, by the rule of its type ([`Chronicle`]).
//!
//! A caller has a [`Pass`], which has no bytes. Contracts read from it which entries the caller made, which
//! beginning of the history it has seen, and which mark it knows. So a caller that takes the turn knows
//! that the history goes on from what it had seen, and that it holds the caller's own entries once, in
//! their order. The page `docs/TURNSTILE.md` of the repository says how it works.
#![tactic(auto)]

mod bell;
mod board;
mod chronicle;
mod memo;
mod no_memory;
mod pass;
mod steps;
mod turnstile;
mod view;

pub use chronicle::Chronicle;
pub use memo::noted_of;
pub use no_memory::NoMemory;
pub use pass::{Holding, Pass, Turn};
pub use turnstile::Turnstile;
