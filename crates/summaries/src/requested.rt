//! What a ReadPropertyMultiple asks for.

use bac_values::{ObjectId, PropertyId};

/// A property of which is asked.
#[derive(Clone, Copy, Debug, PartialEq, Eq)]
pub struct PropertyAsked {
    /// Its number.
    pub property: u32,
    /// The index in its array, if one is given.
    pub index: Option<u32>,
}

/// One of the properties of which a ReadPropertyMultiple asks (ANSI/ASHRAE 135-2020, 15.7).
#[derive(Clone, Copy, Debug, PartialEq, Eq)]
pub struct Spec {
    /// The object.
    pub object: ObjectId,
    /// The property.
    pub property: PropertyId,
    /// The index in its array, if one is given.
    pub index: Option<u32>,
}
