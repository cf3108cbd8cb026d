//! A value object as writes leave it.

use crate::ObjectSite;

/// A value object as the writes have left it.
#[derive(Debug, Drop)]
pub struct Row {
    /// The object, with the values that were written last.
    pub site: ObjectSite,
    /// The reliability of what gives the object its value: 0, 2, 3, 7 or 12.
    pub field_fault: u8,
}
