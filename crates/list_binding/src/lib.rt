//! Edits of a Recipient_List (ANSI/ASHRAE 135-2020): AddListElement (15.1) and RemoveListElement (15.2).
//!
//! A request is read, and the elements that it names are added to a class's list or taken out of it, unless one of them fails. A
//! device that is named as a recipient stands for the peer to which it is bound.
#![tactic(auto)]

mod adding;
mod destination;
mod editing;
mod element;
mod elements;
mod equality;
mod limits;
mod refusal;
mod removing;
mod request;

pub use bac_tags::Malformed;
pub use editing::edit;
pub use equality::are_same;
pub use limits::ListLimits;
pub use notify_class::Binding;
pub use refusal::EditRefusal;
pub use request::{ListRequest, read_list_request};
