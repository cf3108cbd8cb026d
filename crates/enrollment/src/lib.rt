//! Event enrollments: the detection of events for the present values of other objects (ANSI/ASHRAE 135-2020, 12.12).
//!
//! An enrollment refers to one value object that it monitors, and under COMMAND_FAILURE to a second one, its feedback. What
//! its algorithm looks at and how reliable it is come from a table of the value objects. Enrollments and value objects may
//! also refer to a binary value that inhibits them while it is active (13.3). The references never change, so those that
//! refer to an object are found in an index.
//!
//! All objects stand together in `Objects`: writes change a value object or an enrollment there, and event detection asks
//! there what it is set to (`Subject`), what it looks at, and how reliable that is, alike for both (13.2 and 13.3).
#![tactic(auto)]

mod copying;
mod enrollment_property;
mod enrollment_site;
mod enrollments;
mod laws;
mod objects;
mod references;
mod reliabilities;
mod settings;
mod snapshots;
mod subject;
mod subjects;
mod verdicts;

pub use copying::copy_of_enrollments;
pub use enrollment_property::EnrollmentProperty;
pub use enrollment_site::EnrollmentSite;
pub use enrollments::Enrollments;
pub use laws::{takes_what_writes_make, watchers_are_all_that_refer};
pub use objects::Objects;
pub use snapshots::algorithm_of;
pub use subject::Subject;
pub use subjects::subjects_of;
