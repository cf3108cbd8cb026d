//! The value objects of a site: their properties, which of them a write takes, and what a write changes.
//!
//! A table has a row for each object, ascending by identifier. A write is tested first, which gives a change; applying the
//! change gives the change that takes it back.
#![tactic(auto)]

mod change;
mod copying;
mod faults;
mod laws;
mod object_property;
mod object_site;
mod properties;
mod row;
mod settings;
mod table;
mod values;
mod verdicts;

pub use bac_values::SetFault;
pub use change::{Change, What};
pub use copying::{copy_of_change, copy_of_objects, copy_of_texts};
pub use faults::WriteFault;
pub use laws::takes_what_writes_make;
pub use object_property::ObjectProperty;
pub use object_site::ObjectSite;
pub use row::Row;
pub use table::Table;
pub use values::{is_field_fault, is_present_value};
pub use verdicts::{check_index, check_value, inhibit_tag};
