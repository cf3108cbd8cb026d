//! Tests of a standby: what its packets are, what a follower answers to them, and what comes of them in random runs.
//!
//! They ask only what anybody may ask of the crates below, and nothing stands on them; so those crates are proved once.
#![tactic(auto)]

#[cfg(test)]
mod comparing;
#[cfg(test)]
mod fault_tests;
#[cfg(test)]
mod history;
#[cfg(test)]
mod packets;
#[cfg(test)]
mod replication;
#[cfg(test)]
mod room_tests;
#[cfg(test)]
mod row_tests;
#[cfg(test)]
mod run_tests;
#[cfg(test)]
mod sites;
#[cfg(test)]
mod standing;
#[cfg(test)]
mod table_tests;
