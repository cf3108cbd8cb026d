//! The types of objects.

ghost use Rattle.std.specs.Prelude.{◌≡◌};
ghost use Rattle.bac_values.specs.Identifier.{number_of_kind, kind_of};

/// The types of objects that the server knows (ANSI/ASHRAE 135-2020, clause 12).
#[derive(Clone, Copy, Debug, PartialEq, Eq)]
pub enum ObjectKind {
    /// A value that is active or inactive (12.8).
    BinaryValue,
    /// The device itself (12.11).
    Device,
    /// Detection of events for another object's property (12.12).
    EventEnrollment,
    /// Who is told of events, and with which priority (12.21).
    NotificationClass,
    /// One of a number of states, counted from 1 (12.20).
    MultiStateValue,
    /// A log of event notifications (12.27).
    EventLog,
    /// A string of bits (12.40).
    BitStringValue,
    /// A text (12.37).
    CharacterStringValue,
    /// A whole number with a sign (12.43).
    IntegerValue,
    /// A whole number without a sign (12.44).
    PositiveIntegerValue,
}

impl ObjectKind {
    /// All of them, ascending by number.
    pub const ALL: [ObjectKind; 10] = [
        ObjectKind::BinaryValue,
        ObjectKind::Device,
        ObjectKind::EventEnrollment,
        ObjectKind::NotificationClass,
        ObjectKind::MultiStateValue,
        ObjectKind::EventLog,
        ObjectKind::BitStringValue,
        ObjectKind::CharacterStringValue,
        ObjectKind::IntegerValue,
        ObjectKind::PositiveIntegerValue,
    ];

    /// The number of the type.
    pub fn number(self) -> u16
        ensures number { result ≡ number_of_kind self }
    {
        match self {
            ObjectKind::BinaryValue => 5,
            ObjectKind::Device => 8,
            ObjectKind::EventEnrollment => 9,
            ObjectKind::NotificationClass => 15,
            ObjectKind::MultiStateValue => 19,
            ObjectKind::EventLog => 25,
            ObjectKind::BitStringValue => 39,
            ObjectKind::CharacterStringValue => 40,
            ObjectKind::IntegerValue => 45,
            ObjectKind::PositiveIntegerValue => 48,
        }
    }

    /// The type with a number, if the server knows it.
    pub fn of_number(number: u16) -> Option<ObjectKind>
        ensures kind { result ≡ kind_of number }
    {
        let kind = match number {
            5 => ObjectKind::BinaryValue,
            8 => ObjectKind::Device,
            9 => ObjectKind::EventEnrollment,
            15 => ObjectKind::NotificationClass,
            19 => ObjectKind::MultiStateValue,
            25 => ObjectKind::EventLog,
            39 => ObjectKind::BitStringValue,
            40 => ObjectKind::CharacterStringValue,
            45 => ObjectKind::IntegerValue,
            48 => ObjectKind::PositiveIntegerValue,
            _ => return None,
        };
        Some(kind)
    }
}
