//! The alarm core of a site: the properties of its objects, their alarms, and how they go on from event to event
//! (ANSI/ASHRAE 135-2020, clause 13).
//!
//! What is meant is said by looking back over the whole history of events (`specs/History.antt`). The core keeps what the
//! next event needs, and stands for the state that its history leaves (`specs/State.antt`).
#![tactic(auto)]

mod admitting;
mod alarm_rows;
mod class_peers;
mod class_search;
mod classes;
mod detection;
mod detections;
mod due_looks;
mod enrollment_content;
mod evaluation_count;
mod evaluation_input;
mod event;
mod event_information;
mod fitting;
mod identifiers;
mod idle;
mod initial_state;
mod laws;
mod list_edits;
mod logs;
mod members;
mod note_queue;
mod notifications;
mod parts;
mod read_property;
mod restoring;
mod site;
mod state;
mod step;
mod taking;
mod transition;
mod transition_report;
mod view;
mod write_property;

pub use bac_values::Moved;
pub use detection::DetectedObject;
pub use enrollment::EnrollmentSite;
pub use evaluation_count::{EvaluationCount, none_counted};
pub use event::{Act, Event, Outcome, StepFault};
pub use event_log::LogSite;
pub use fitting::{event_fits, site_fits};
pub use laws::{
    allows_what_checks_accept, classes_are_there, counts_the_longer_history, keeps_to_its_site,
    knows_listed_peers, object_list_ascends, reads_the_last_list, restores_what_it_tells,
    stands_for_its_history, stands_over_events,
};
pub use logs::SiteLog;
pub use members::leave_room;
pub use notify_class::ClassSite;
pub use parts::Parts;
pub use property_values::{DeviceSite, ReadFault};
pub use site::Site;
pub use state::{Core, site_zone};
