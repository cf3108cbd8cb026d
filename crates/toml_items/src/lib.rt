//! The items of a TOML document, key by key: the value at a key of a table, whether it is there and says what the key can
//! have, and the first fault of an item.
//!
//! `specs/` says what a value says, what a key of a table gives, and which key of a table isn't known.
#![tactic(auto)]

mod item_fault;
mod keys;
mod lists;
mod members;
mod values;

pub use item_fault::{ItemFault, bad_value, missing, named, unknown};
pub use keys::{KnownKeys, check_keys, is_among, unknown_key};
pub use lists::{array_in, tables_in, three_octets_in, three_truths_in, unsigned_list_in};
pub use members::{
    member_at, moment, optional_unsigned, required_member, three_flags_or_all, time_or, truth_or,
    two_flags_or_both, unsigned, unsigned_or, valid_value, whole_or_zero,
};
pub use values::{
    moment_in, text_in, three_flags_in, time_in, two_flags_in, unsigned_in, whole_in,
};
