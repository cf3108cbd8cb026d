//! What comes in, and why the field's part of it isn't taken.

use crate::{Items, ObjectId, Peer, Value};

/// What comes in at a moment.
#[derive(Debug, Drop)]
pub enum Input {
    /// Time has gone by.
    Tick,
    /// Notifications may be sent.
    Pump,
    /// An object's present value is to be this one.
    Set {
        /// The object.
        object: ObjectId,
        /// The value.
        value: Value,
    },
    /// What gives an object's value has this reliability.
    Fault {
        /// The object.
        object: ObjectId,
        /// The number of the reliability; 0 ends the fault.
        reliability: u32,
    },
    /// A datagram came from a peer.
    Datagram {
        /// The peer.
        peer: Peer,
        /// The whole datagram.
        bytes: Items<u8>,
    },
}

/// Why a value or a fault isn't taken, in the order in which the causes are looked at.
#[derive(Clone, Copy, Debug, PartialEq, Eq)]
pub enum SetFault {
    /// There is no such object.
    UnknownObject,
    /// The object has no value, or its value is of another type.
    WrongKind,
    /// The object is out of service.
    OutOfService,
    /// The value or the reliability is outside its range.
    ValueRange,
}
