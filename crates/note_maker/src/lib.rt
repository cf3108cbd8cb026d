//! Notifications of events: what is told of a transition or of an acknowledgement, and the notes that tell it to the
//! recipients of a notification class (ANSI/ASHRAE 135-2020, 13.2.5, 13.8 and 13.9).
#![tactic(auto)]

mod making;
mod shaping;
mod source;
mod values;

pub use making::notes_of;
pub use shaping::{acknowledgement_notification, transition_notification};
pub use source::Source;
pub use values::{status_flags, values_of};
