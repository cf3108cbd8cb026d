//! Tests of the core, of the octets in which its events and states stand, and of what a journal leaves of it.
//!
//! They ask only what anybody may ask of those crates, and nothing stands on them; so those crates are proved once.
#![tactic(auto)]

#[cfg(test)]
mod alarm_core_admitting_tests;
#[cfg(test)]
mod alarm_core_edit_tests;
#[cfg(test)]
mod alarm_core_plant;
#[cfg(test)]
mod alarm_core_restore_tests;
#[cfg(test)]
mod comparing;
#[cfg(test)]
mod recover_tests;
#[cfg(test)]
mod sites;
#[cfg(test)]
mod snapshot_contents_tests;
#[cfg(test)]
mod state_codec_tests;
#[cfg(test)]
mod state_snapshot_tests;
