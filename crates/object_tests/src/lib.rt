//! Tests of values, objects, their detection, notes, logs and timers.
//!
//! They ask only what anybody may ask of those crates, and nothing stands on them; so those crates are proved once.
#![tactic(auto)]

#[cfg(test)]
mod algorithm_rules_tests;
#[cfg(test)]
mod bac_values_tests;
#[cfg(test)]
mod civil_stamp_tests;
#[cfg(test)]
mod comparing;
#[cfg(test)]
mod enrollment_tests;
#[cfg(test)]
mod event_log_tests;
#[cfg(test)]
mod event_machine_tests;
#[cfg(test)]
mod held_timers_tests;
#[cfg(test)]
mod note_maker_tests;
#[cfg(test)]
mod notify_class_tests;
#[cfg(test)]
mod object_table_tests;
#[cfg(test)]
mod outbox_tests;
#[cfg(test)]
mod reliability_eval_tests;
