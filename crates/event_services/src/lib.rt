//! Octets of the alarm and event services (ANSI/ASHRAE 135-2020, clause 13): AcknowledgeAlarm, event notifications and
//! GetEventInformation.
#![tactic(auto)]

mod acknowledge;
mod information;
mod notification;
mod read_elements;
mod read_note;
mod read_values;
mod time_stamp;
mod write_note;
mod written;

pub use acknowledge::{AckRequest, read_ack};
pub use bac_tags::Malformed;
pub use information::{EventSummary, read_information_request, write_information};
pub use notification::{EventValues, Notification};
pub use read_note::{NoteFault, read_notification, reads_back};
pub use time_stamp::AckStamp;
pub use write_note::write_notification;
pub use written::WrittenNotification;
