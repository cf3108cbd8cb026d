/// The number of a PDU type (ANSI/ASHRAE 135-2020, 20.1).
#[derive(Clone, Copy, Debug, PartialEq, Eq)]
pub struct PduType(pub u8);

impl PduType {
    /// BACnet-Confirmed-Request-PDU.
    pub const CONFIRMED_REQUEST: PduType = PduType(0);
    /// BACnet-Unconfirmed-Request-PDU.
    pub const UNCONFIRMED_REQUEST: PduType = PduType(1);
    /// BACnet-SimpleACK-PDU.
    pub const SIMPLE_ACK: PduType = PduType(2);
    /// BACnet-ComplexACK-PDU.
    pub const COMPLEX_ACK: PduType = PduType(3);
    /// BACnet-Error-PDU.
    pub const ERROR: PduType = PduType(5);
    /// BACnet-Reject-PDU.
    pub const REJECT: PduType = PduType(6);
    /// BACnet-Abort-PDU.
    pub const ABORT: PduType = PduType(7);
}
