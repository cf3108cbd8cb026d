//! Tests of what is read from datagrams and written to them: frames, headers, tags, and parameters of services.
//!
//! They ask only what anybody may ask of those crates, and nothing stands on them; so those crates are proved once.
#![tactic(auto)]

#[cfg(test)]
mod apdu_frame_tests;
#[cfg(test)]
mod bac_tags_tests;
#[cfg(test)]
mod bvlc_npdu_tests;
#[cfg(test)]
mod comparing;
#[cfg(test)]
mod event_services_tests;
#[cfg(test)]
mod event_values_tests;
#[cfg(test)]
mod list_binding_tests;
#[cfg(test)]
mod long_elements_tests;
#[cfg(test)]
mod parameters_tests;
#[cfg(test)]
mod property_services_tests;
#[cfg(test)]
mod recipients_tests;
#[cfg(test)]
mod standard_numbers_tests;
