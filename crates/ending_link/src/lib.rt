//! A server whose disk has failed ends by itself: its ground raises a flag where a call of the disk fails, and its link
//! answers a fault once it finds the flag raised.
//!
//! That each such call raises the flag and nothing else does, and that each call of the link looks at it first and obeys
//! it, and asks the inner link where it finds it lowered, is proved of any flag and any link. That a flag, once raised, is seen raised by each later look is what `SharedFlag` is trusted with.
#![tactic(auto)]

mod asked_link;
mod flag;
mod link;
mod noting_ground;
mod raiser;

pub use asked_link::AskedLink;
pub use flag::{Flag, SharedFlag};
pub use link::EndingLink;
pub use noting_ground::NotingGround;
