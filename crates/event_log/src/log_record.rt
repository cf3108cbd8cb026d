//! A record of a log.

use bac_values::{Items, Stamp};

/// A record of a log.
#[derive(Debug, Drop)]
pub struct LogRecord {
    /// When it was taken, in local time.
    pub stamp: Stamp,
    /// When it was taken, in hundredths of a second since 1970-01-01T00:00Z, rounded down.
    pub hundredths: u64,
    /// Its number: how many records had been taken with it, from 1.
    pub sequence: u32,
    /// The octets of what it records.
    pub body: Items<u8>,
}
