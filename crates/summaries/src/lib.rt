//! Summaries (ANSI/ASHRAE 135-2020): GetAlarmSummary (13.10), GetEnrollmentSummary (13.11) and ReadPropertyMultiple (15.7).
//!
//! What is asked for is read, and answered over any state that shows its objects, its classes and its properties.
#![tactic(auto)]

mod alarms;
mod enrollments;
mod filter;
mod many_answer;
mod many_request;
mod part;
mod read_enrollment;
mod requested;
mod shown;

pub use alarms::alarm_summary;
pub use bac_tags::Malformed;
pub use bac_values::AlarmRow;
pub use enrollments::enrollment_summary;
pub use filter::{Asked, Filter, Who};
pub use many_answer::read_many;
pub use many_request::read_many_request;
pub use part::Part;
pub use read_enrollment::read_enrollment_request;
pub use requested::{PropertyAsked, Spec};
pub use shown::Shown;
