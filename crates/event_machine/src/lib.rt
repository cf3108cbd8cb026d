//! The event-state detection of one object (ANSI/ASHRAE 135-2020, 13.2.2): which moves its event state makes at one more
//! point, and what is kept of the points before.
//!
//! What is meant is said by looking back over the whole course of the object, its points and acknowledgements. What the
//! program keeps of it is its alarm. In it stands, of each rule of the object's state, since when its condition has held.
#![tactic(auto)]

mod acknowledging;
mod alarm;
mod due;
mod found;
mod held;
mod keys;
mod laws;
mod machine;
mod moves;
mod parts;
mod point;
mod rest;
mod run;
mod running;
mod settled;
mod steps;

pub use acknowledging::{may_acknowledge, names_last};
pub use alarm::Alarm;
pub use due::next_due;
pub use found::Found;
pub use laws::{holds_since_entry, keeps_course, looks_are_skipped};
pub use machine::{begin, evaluate};
pub use moves::{Changed, Move};
pub use parts::AlarmParts;
pub use point::PointFacts;
pub use rest::is_still;
pub use run::Run;
pub use settled::is_settled;
pub use steps::Steps;
