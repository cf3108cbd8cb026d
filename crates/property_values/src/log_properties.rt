//! The properties that logs have.

ghost use Rattle.std.specs.Prelude.{◌≡◌};
ghost use Rattle.property_values.specs.LogProperties.{property_of};

use bac_values::PropertyId;

/// The properties of event logs (ANSI/ASHRAE 135-2020, 12.27) that are read by ReadProperty. Each log has all of them.
#[derive(Clone, Copy, Debug, PartialEq, Eq)]
pub enum LogProperty {
    /// Object_Identifier.
    ObjectIdentifier,
    /// Object_Name.
    ObjectName,
    /// Object_Type.
    ObjectType,
    /// Enable.
    Enable,
    /// Record_Count.
    RecordCount,
    /// Buffer_Size.
    BufferSize,
    /// Stop_When_Full.
    StopWhenFull,
    /// Total_Record_Count.
    TotalRecordCount,
}

impl LogProperty {
    /// The property with a number (BACnetPropertyIdentifier), if event logs have it.
    #[tactic(auto, unfolding(crate::specs::LogProperties::property_of))]
    pub fn of_number(number: u32) -> Option<LogProperty>
        ensures property { result ≡ property_of number }
    {
        match PropertyId(number) {
            PropertyId::OBJECT_IDENTIFIER => Some(LogProperty::ObjectIdentifier),
            PropertyId::OBJECT_NAME => Some(LogProperty::ObjectName),
            PropertyId::OBJECT_TYPE => Some(LogProperty::ObjectType),
            PropertyId::ENABLE => Some(LogProperty::Enable),
            PropertyId::RECORD_COUNT => Some(LogProperty::RecordCount),
            PropertyId::BUFFER_SIZE => Some(LogProperty::BufferSize),
            PropertyId::STOP_WHEN_FULL => Some(LogProperty::StopWhenFull),
            PropertyId::TOTAL_RECORD_COUNT => Some(LogProperty::TotalRecordCount),
            _ => None,
        }
    }
}
