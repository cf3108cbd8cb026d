//! The text of a site: read, and refused by its first fault (`docs/SITE.md` has its keys).
//!
//! `specs/` says which site a text is: section by section, and in a section key by key, in the order in which faults are
//! looked for.
#![tactic(auto)]

mod alarm_keys;
mod binding_item;
mod class;
mod counts;
mod destination;
mod device;
mod draft;
mod enrollment_item;
mod fault;
mod fault_keys;
mod fault_text;
mod identifiers;
mod item;
mod keys;
mod kind_keys;
mod limits;
mod lists;
mod log;
mod members;
mod notes;
mod object;
mod objects;
mod order;
mod place;
mod references;
mod refusal;
mod sections;
mod site;
mod values;

pub use fault::{Counted, Section, SiteFault, SitePlace};
pub use refusal::line_of_refusal;
pub use site::read_site;
