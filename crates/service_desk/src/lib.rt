//! What becomes of an input: an event, a reply, or nothing.
//!
//! A decision is a function of the core's state and of the input alone.
#![tactic(auto)]

mod acknowledge_alarm;
mod apdus;
mod decision;
mod get_alarm_summary;
mod get_enrollment_summary;
mod get_event_information;
mod inputs;
mod laws;
mod list_edits;
mod list_elements;
mod list_property;
mod notification_answers;
mod read_property;
mod read_property_multiple;
mod read_range;
mod replies;
mod service;
mod summary_replies;
mod view;
mod who_is;
mod write_property;

pub use bac_values::Input;
pub use decision::Decision;
pub use inputs::{decide, decide_counted};
pub use laws::{each_reply_fits, each_request_is_answered};
