//! The headers of APDUs (ANSI/ASHRAE 135-2020, clause 20.1): reading those of requests and answers, and
//! writing requests, acknowledgements and refusals.
//!
//! What stands behind a header belongs to its service.
#![tactic(auto)]

mod apdu;
mod first;
mod reading;
mod replies;
mod requests;

pub use apdu::Apdu;
pub use reading::read_apdu;
pub use replies::{abort, change_list_error, error, reject, simple_ack};
pub use requests::{complex_ack, request, unconfirmed};
