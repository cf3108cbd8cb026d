//! Values of properties.

use crate::{Bits, ObjectId, Stamp, Text};

/// A property's value.
#[derive(Clone, Debug, Drop, PartialEq)]
pub enum Value {
    /// No value.
    Null,
    /// True or false.
    Bool(bool),
    /// A whole number without a sign.
    Unsigned(u32),
    /// A whole number with a sign.
    Signed(i32),
    /// A text.
    Text(Text),
    /// A string of bits.
    Bits(Bits),
    /// The number of one of a list of names.
    Enumerated(u32),
    /// An object's identifier.
    Object(ObjectId),
    /// A date and a time of day.
    DateTime(Stamp),
    /// Octets that stand for no value that the server takes.
    Opaque {
        /// The number of the application tag, and 0 where the octets aren't one application value.
        tag: u8,
        /// Why it isn't taken.
        why: Foreign,
    },
}

/// Why octets stand for no value that the server takes.
#[derive(Clone, Copy, Debug, PartialEq, Eq)]
pub enum Foreign {
    /// The value is of another type, or there isn't exactly one.
    OtherType,
    /// The text is in a character set other than UTF-8.
    CharacterSet,
    /// The octets of the text aren't UTF-8.
    NotUtf8,
    /// The text has more than 256 octets.
    TooLong,
    /// The number has more than 32 bits, or the string has more than 64.
    OutOfRange,
}
