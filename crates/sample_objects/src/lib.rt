//! Value objects and event enrollments that tests begin with.
//!
//! Each test crate that needs one takes it from here, so what a site says of an object is written out once. What can't be
//! made is a failure of the test.
#![tactic(auto)]

mod enrollments;
mod objects;

pub use enrollments::{follower, guard, mirror, range, watching};
pub use objects::{door, flow, label, level, mode, plain, tank};
