//! Why an element isn't read.

use thiserror::Error;

/// Why octets aren't an element that a reader takes.
#[derive(Clone, Copy, Debug, Drop, PartialEq, Eq, Error)]
pub enum TagFault {
    /// The octets end within a header, or within the content behind the right one.
    #[error("the octets end within the element, at {at}")]
    Truncated {
        /// The place after the last octet.
        at: usize,
    },
    /// A whole header is there, of another element.
    #[error("another tag at {at}")]
    WrongTag {
        /// The first place of the element.
        at: usize,
    },
    /// The element has a length that its type doesn't have, or its content isn't of the type's form.
    #[error("a length or a content that the type doesn't have at {at}")]
    BadLength {
        /// The first place of the element.
        at: usize,
    },
    /// Memory was refused.
    #[error("no memory")]
    NoMemory,
}
