//! Changes of objects.

use bac_values::{ObjectId, PropertyId, Value};

/// A change of one object.
#[derive(Clone, Debug, Drop)]
pub struct Change {
    /// The object.
    pub object: ObjectId,
    /// What changes.
    pub what: What,
}

/// What changes in an object.
#[derive(Clone, Debug, Drop)]
pub enum What {
    /// A property has another value.
    Property {
        /// The property.
        property: PropertyId,
        /// Its value.
        value: Value,
    },
    /// What gives the object its value has another reliability.
    FieldFault {
        /// The number of the reliability: 0, 2, 3, 7 or 12.
        reliability: u8,
    },
}
