/// The four status flags, in the standard's order (ANSI/ASHRAE 135-2020, BACnetStatusFlags).
#[derive(Clone, Copy, Debug, PartialEq, Eq)]
pub struct StatusFlags {
    /// The event state isn't NORMAL.
    pub in_alarm: bool,
    /// The reliability shows a fault.
    pub fault: bool,
    /// The value was overridden by means of the device itself.
    pub overridden: bool,
    /// The value doesn't follow its input.
    pub out_of_service: bool,
}
