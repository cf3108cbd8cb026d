//! The journal: batches of records and snapshots on a ground, each whole on the disk before its commit answers.
//!
//! A press writes a journal of two areas. A batch goes behind a closed gate, which is opened once the batch is on the
//! disk; a snapshot goes to the area that isn't in use, which is selected once the snapshot is on the disk. So a crash
//! at any moment leaves what stood before a commit or what stands after it. No checksum is trusted for that.
#![tactic(auto)]

mod area;
mod body;
mod change;
mod header;
mod job;
mod laws;
mod layout;
mod open;
mod open_fault;
mod opened;
mod press;
mod protocol;
mod reading;

pub use body::Body;
pub use job::Job;
pub use laws::{images_open_once, openings_are_computed};
pub use layout::Layout;
pub use open_fault::OpenFault;
pub use opened::Opened;
pub use press::{Emits, Press};
