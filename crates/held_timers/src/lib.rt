//! The moments at which objects are next to be looked at: which is the least, and which objects are due at a moment.
//!
//! Contracts see a plain list of due moments. The body is a tournament over that list, so that the least moment is had in
//! one look, and a change or a search takes as many steps as the count has binary digits.
#![tactic(auto)]

mod laws;
mod timers;
mod tournament;

pub use laws::least_tells_whether_due;
pub use timers::Timers;
