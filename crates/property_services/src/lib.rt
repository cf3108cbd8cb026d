//! The parameters of services on properties (ANSI/ASHRAE 135-2020): ReadProperty (15.5), WriteProperty (15.9), ReadRange
//! (15.8), and Who-Is and I-Am (16.10).
//!
//! Requests are read, and their answers and I-Am are written. What stands before the parameters is the APDU's header.
#![tactic(auto)]

mod answers;
mod fault;
mod read_range;
mod reference;
mod requests;
mod who_is;
mod write_property;

pub use answers::{write_i_am, write_range_ack, write_read_ack};
pub use bac_tags::Malformed;
pub use fault::ServiceFault;
pub use read_range::read_read_range;
pub use reference::read_read_property;
pub use requests::{RangeBy, RangeRequest, ReadRequest, WriteRequest};
pub use who_is::read_who_is;
pub use write_property::read_write_property;
