//! Tags, values and parameters of services on octets (ANSI/ASHRAE 135-2020, 20.2).
//!
//! Tags and values: each element of BACnet's encoding is read at a place, and answered with the place after it, or with
//! the fault and its place; and each is written in its one spelling.
//!
//! Parameters of services (20.2.1): elements with a number in a context, one after the other, and why octets aren't those
//! of a service. A service is read by the readers of its parameters in turn, each with the place after the one before.
//! `required` and `optional` turn what the reader of an element answers into the parameter, or into the refusal of the
//! whole.
#![tactic(auto)]

mod balanced;
mod bits;
mod boolean;
mod element;
mod element_parameters;
mod enclosing_tags;
mod fault;
mod malformed;
mod object;
mod octet_string;
mod octets;
mod parameter;
mod round_trip;
mod signed;
mod stamp;
mod tag;
mod time;
mod unsigned;
mod value;

pub use balanced::read_elements;
pub use bits::{read_any_bits, read_bits, write_bits};
pub use boolean::{read_bool, write_bool};
pub use element_parameters::{
    optional_object, optional_unsigned, required_object, required_unsigned,
};
pub use enclosing_tags::{read_closing, read_octets, read_opening, write_closing, write_opening};
pub use fault::TagFault;
pub use malformed::{Malformed, invalid_tag, missing_parameter, too_many_arguments};
pub use object::{read_object, write_object};
pub use octet_string::{read_octet_string, write_octet_string};
pub use parameter::{nothing_follows, optional, or_invalid, required};
pub use round_trip::{bits_in_order, reads_back};
pub use signed::{read_signed, write_signed};
pub use stamp::{read_stamp, write_stamp};
pub use tag::{Shape, Tag, read_tag, write_tag};
pub use time::{read_time, write_time};
pub use unsigned::{read_unsigned, unsigned_size, write_enumerated, write_unsigned};
pub use value::{read_value, write_value};
