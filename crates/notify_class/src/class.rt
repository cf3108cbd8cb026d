//! A notification class.

use crate::Destination;
use bac_values::Items;

/// A notification class (ANSI/ASHRAE 135-2020, 12.21). Lists of three are for to-offnormal, to-fault and
/// to-normal.
#[derive(Clone, Debug, Drop)]
pub struct Class {
    /// The instance of its object.
    pub instance: u32,
    /// The priority of notifications of each kind of transition, 0 the highest.
    pub priority: [u8; 3],
    /// Whether transitions of each kind ask for an acknowledgement.
    pub ack_required: [bool; 3],
    /// Its Recipient_List.
    pub destinations: Items<Destination>,
}
