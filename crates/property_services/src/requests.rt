//! What the requests on properties ask for.

use bac_values::{ObjectId, PropertyId, Stamp, Value};

/// What is to be read.
#[derive(Clone, Copy, Debug, PartialEq, Eq)]
pub struct ReadRequest {
    /// The object.
    pub object: ObjectId,
    /// The property.
    pub property: PropertyId,
    /// The index in the property's array; 0 is the array's length.
    pub index: Option<u32>,
}

/// What is to be written.
#[derive(Clone, Debug, Drop, PartialEq)]
pub struct WriteRequest {
    /// The object.
    pub object: ObjectId,
    /// The property.
    pub property: PropertyId,
    /// The index in the property's array; 0 is the array's length.
    pub index: Option<u32>,
    /// The value. What isn't exactly one application value is `Opaque`, with the tag 0 and `OtherType`.
    pub value: Value,
}

/// Which items of a list are to be read.
#[derive(Clone, Copy, Debug, PartialEq, Eq)]
pub struct RangeRequest {
    /// The object.
    pub object: ObjectId,
    /// The property.
    pub property: PropertyId,
    /// The index in the property's array.
    pub index: Option<u32>,
    /// Which items.
    pub range: RangeBy,
}

/// Which items of a list: so many from the reference on, or, where the count is negative, up to the reference.
#[derive(Clone, Copy, Debug, PartialEq, Eq)]
pub enum RangeBy {
    /// All items.
    All,
    /// By their places in the list, from 1.
    Position {
        /// The place.
        reference: u32,
        /// How many.
        count: i32,
    },
    /// By their sequence numbers.
    Sequence {
        /// The sequence number.
        reference: u32,
        /// How many.
        count: i32,
    },
    /// By their dates and times.
    Time {
        /// The date and time, itself not in the range.
        reference: Stamp,
        /// How many.
        count: i32,
    },
}
