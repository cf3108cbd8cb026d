//! The properties that classes have.

ghost use Rattle.std.specs.Prelude.{◌≡◌};
ghost use Rattle.property_values.specs.ClassProperties.{property_of};

use bac_values::PropertyId;

/// The properties of notification classes (ANSI/ASHRAE 135-2020, 12.21). Each class has all of them.
#[derive(Clone, Copy, Debug, PartialEq, Eq)]
pub enum ClassProperty {
    /// Object_Identifier.
    ObjectIdentifier,
    /// Object_Name.
    ObjectName,
    /// Object_Type.
    ObjectType,
    /// Notification_Class.
    NotificationClass,
    /// Priority.
    Priority,
    /// Ack_Required.
    AckRequired,
    /// Recipient_List.
    RecipientList,
}

impl ClassProperty {
    /// The property with a number (BACnetPropertyIdentifier), if notification classes have it.
    #[tactic(auto, unfolding(crate::specs::ClassProperties::property_of))]
    pub fn of_number(number: u32) -> Option<ClassProperty>
        ensures property { result ≡ property_of number }
    {
        match PropertyId(number) {
            PropertyId::OBJECT_IDENTIFIER => Some(ClassProperty::ObjectIdentifier),
            PropertyId::OBJECT_NAME => Some(ClassProperty::ObjectName),
            PropertyId::OBJECT_TYPE => Some(ClassProperty::ObjectType),
            PropertyId::NOTIFICATION_CLASS => Some(ClassProperty::NotificationClass),
            PropertyId::PRIORITY => Some(ClassProperty::Priority),
            PropertyId::ACK_REQUIRED => Some(ClassProperty::AckRequired),
            PropertyId::RECIPIENT_LIST => Some(ClassProperty::RecipientList),
            _ => None,
        }
    }
}
