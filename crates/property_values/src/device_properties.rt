//! The properties that devices have.

ghost use Rattle.std.specs.Prelude.{◌≡◌};
ghost use Rattle.property_values.specs.DeviceProperties.{property_of};

use bac_values::PropertyId;

/// The properties of devices (ANSI/ASHRAE 135-2020, 12.11) that are read.
#[derive(Clone, Copy, Debug, PartialEq, Eq)]
pub enum DeviceProperty {
    /// Object_Identifier.
    ObjectIdentifier,
    /// Object_Name.
    ObjectName,
    /// Object_Type.
    ObjectType,
    /// Object_List.
    ObjectList,
    /// Max_APDU_Length_Accepted.
    MaxApduLengthAccepted,
    /// Segmentation_Supported.
    SegmentationSupported,
    /// Vendor_Identifier.
    VendorIdentifier,
}

impl DeviceProperty {
    /// The property with a number (BACnetPropertyIdentifier), if devices have it.
    #[tactic(auto, unfolding(crate::specs::DeviceProperties::property_of))]
    pub fn of_number(number: u32) -> Option<DeviceProperty>
        ensures property { result ≡ property_of number }
    {
        match PropertyId(number) {
            PropertyId::OBJECT_IDENTIFIER => Some(DeviceProperty::ObjectIdentifier),
            PropertyId::OBJECT_NAME => Some(DeviceProperty::ObjectName),
            PropertyId::OBJECT_TYPE => Some(DeviceProperty::ObjectType),
            PropertyId::OBJECT_LIST => Some(DeviceProperty::ObjectList),
            PropertyId::MAX_APDU_LENGTH_ACCEPTED => Some(DeviceProperty::MaxApduLengthAccepted),
            PropertyId::SEGMENTATION_SUPPORTED => Some(DeviceProperty::SegmentationSupported),
            PropertyId::VENDOR_IDENTIFIER => Some(DeviceProperty::VendorIdentifier),
            _ => None,
        }
    }
}
