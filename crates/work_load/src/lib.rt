//! The workload: a site with forty objects, and scripts for it that are drawn from a seed.
//!
//! Whoever has the same seed and the same count has the same script, octet for octet.
#![tactic(auto)]

mod appending;
mod draws;
mod kind;
mod line_kind;
mod script;
mod site;

pub use script::make_script;
pub use site::make_site;
