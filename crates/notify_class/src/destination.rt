//! A destination of a class.

use bac_values::Peer;
use std::marker::Model;

/// An element of a Recipient_List (ANSI/ASHRAE 135-2020, 12.21, BACnetDestination): whom to notify, and when.
#[derive(Clone, Copy, Debug, PartialEq, Eq)]
pub struct Destination {
    /// The valid days: bit 0 is Monday, and bit 7 is never set.
    pub days: u8,
    /// The first hundredth of a second of the day at which it is notified, below 8,640,000.
    pub from: u32,
    /// The last one, below 8,640,000. Where it is before the first, there is none.
    pub to: u32,
    /// The peer that is notified.
    pub peer: Peer,
    /// The process identifier that the peer is told.
    pub process: u32,
    /// Whether the peer is to confirm its notifications.
    pub confirmed: bool,
    /// The kinds of transitions that it is notified of, to-offnormal, to-fault, to-normal.
    pub transitions: [bool; 3],
}

impl Model for Destination {
    ghost use Rattle.notify_class.specs.Recipients.{IsListedRecipient, DestinationData};

    ghost Value = { DestinationData };

    ghost view = { λ it. record { days = it.days; from = it.from; to = it.to; peer = it.peer; process = it.process; confirmed = it.confirmed; transitions = it.transitions } };

    ghost invariant = { λ it. IsListedRecipient it.days it.from it.to };

    ghost inverse = { λ it. record { days = it.days; from = it.from; to = it.to; peer = it.peer; process = it.process; confirmed = it.confirmed; transitions = it.transitions } };
}
