//! Tests of the floor that callers share.
//!
//! They ask only what anybody may ask of it, and nothing stands on them.
#![tactic(auto)]

#[cfg(test)]
mod comparing;
#[cfg(test)]
mod desk_tests;
#[cfg(test)]
mod plant;
#[cfg(test)]
mod serve_tests;
#[cfg(test)]
mod thread_tests;
