//! A floor that callers share: a core, a journal's press, and what is
//! pending between them. Callers enter inputs one after the other; a commit takes the press out, writes and emits without
//! the floor, and brings it back. And a server's workers, which share a floor: one takes datagrams, one lets time pass, and
//! one commits.
#![tactic(auto)]

mod admitting;
mod committer;
mod desk;
mod entering;
mod entry;
mod faults;
mod floor;
mod heap_floor;
mod laws;
mod lending;
mod load;
mod pending;
mod receiver;
mod serve;
mod steps;
mod ticker;
mod tools;

pub use committer::commit_all;
pub use desk::{Desk, DeskPass, Opening, Standing};
pub use entry::{Entry, Kind, Look, Ticket};
pub use faults::{CommitFault, EnterFault};
pub use floor::{Floor, Spot};
pub use laws::accounts_look_back;
pub use load::{Carried, Load};
pub use receiver::{Ends, receive_all};
pub use serve::{Closed, End, serve_desk};
pub use state_codec::Work;
pub use ticker::tick_all;
