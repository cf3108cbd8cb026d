//! Tests of what lies outside: files and what is sent, scripts and reports, a workload, and the journal.
//!
//! They ask only what anybody may ask of those crates, and nothing stands on them; so those crates are proved once.
#![tactic(auto)]

#[cfg(test)]
mod alarm_journal_tests;
#[cfg(test)]
mod comparing;
#[cfg(test)]
mod ending_link_tests;
#[cfg(test)]
mod ground_io_tests;
#[cfg(test)]
mod packet_lines_tests;
#[cfg(test)]
mod script_lines_tests;
#[cfg(test)]
mod work_load_tests;
