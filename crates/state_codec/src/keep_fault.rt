//! Why an event isn't kept.

/// Why an event isn't kept.
#[derive(Clone, Copy, Debug, PartialEq, Eq, Drop)]
pub enum KeepFault {
    /// The disk failed.
    DiskFault,
    /// Memory was refused, and nothing was written.
    NoMemory,
}
