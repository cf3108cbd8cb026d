//! A leader and its follower: what is offered of a journal, and what is taken of it into another one, over lines that may
//! lose packets, repeat them, or bring them in any order.
#![tactic(auto)]

mod copying;
mod ends;
mod follower;
mod gathering;
mod judging;
mod laws;
mod leader;
mod packet;
mod pieces;
mod records;
mod took;
mod walking;

pub use follower::{Follower, TakeFault};
pub use laws::{
    answers_once, follows_its_leader, leader_reaches_all, never_malformed,
    packets_have_one_spelling,
};
pub use leader::Leader;
pub use took::Took;
