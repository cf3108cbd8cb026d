//! Reliabilities.

ghost use Rattle.std.specs.Prelude.{◌≡◌};
ghost use Rattle.bac_values.specs.Reliabilities.{number_of_reliability, reliability_of_number};

/// How far an object's value can be relied on (ANSI/ASHRAE 135-2020, BACnetReliability).
#[derive(Clone, Copy, Debug, PartialEq, Eq)]
pub enum Reliability {
    /// The value is reliable.
    NoFaultDetected,
    /// The value is above the range that is normal.
    OverRange,
    /// The value is below the range that is normal.
    UnderRange,
    /// The value isn't reliable for another reason.
    UnreliableOther,
    /// The value is one of the fault values.
    MultiStateFault,
    /// What gives the value can't be reached.
    CommunicationFailure,
    /// An object that this one refers to isn't reliable.
    MonitoredObjectFault,
}

impl Reliability {
    /// The number of the reliability.
    pub fn number(self) -> u8
        ensures number { result ≡ number_of_reliability self }
    {
        match self {
            Reliability::NoFaultDetected => 0,
            Reliability::OverRange => 2,
            Reliability::UnderRange => 3,
            Reliability::UnreliableOther => 7,
            Reliability::MultiStateFault => 9,
            Reliability::CommunicationFailure => 12,
            Reliability::MonitoredObjectFault => 14,
        }
    }

    /// The reliability with a number, if the server knows it.
    pub fn of_number(number: u32) -> Option<Reliability>
        ensures reliability { result ≡ reliability_of_number number }
    {
        match number {
            0 => Some(Reliability::NoFaultDetected),
            2 => Some(Reliability::OverRange),
            3 => Some(Reliability::UnderRange),
            7 => Some(Reliability::UnreliableOther),
            9 => Some(Reliability::MultiStateFault),
            12 => Some(Reliability::CommunicationFailure),
            14 => Some(Reliability::MonitoredObjectFault),
            _ => None,
        }
    }
}
