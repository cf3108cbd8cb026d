//! The book: the rules of alarms as definitions over whole histories, which an engineer of the field reads.
#![tactic(auto)]

mod laws;

pub use laws::holds_of_every_site;
