//! The notes of each recipient on their way: those that are confirmed go out one at a time, in their order, and are
//! repeated until an answer comes or the last deadline (ANSI/ASHRAE 135-2020, 13.8, 13.9 and 5.4.4).
//!
//! What a recipient's notes come to is defined for one recipient, over all that was done for it
//! (`specs/Delivery.antt`). An outbox keeps what is not finished.
#![tactic(auto)]

mod all;
mod answers;
mod deciding;
mod mailbox;
mod order;
mod outbox;
mod post;
mod queueing;
mod restoring;
mod silence;

pub use answers::{Answered, QueueFault};
pub use deciding::tests_posts;
pub use order::finishes_in_order;
pub use outbox::Outbox;
pub use post::Post;
pub use silence::silent_recipients;
