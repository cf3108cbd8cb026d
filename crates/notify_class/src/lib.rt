//! Notification classes: their recipients, the windows of these, and the limits of a list that is edited.
#![tactic(auto)]

mod binding;
mod choice;
mod class;
mod class_site;
mod destination;
mod edit;

pub use binding::Binding;
pub use choice::{chosen, uses, uses_at};
pub use class::Class;
pub use class_site::{ClassSite, copy_of_classes};
pub use destination::Destination;
pub use edit::{EditFault, check_edit};
