//! Which properties an object of a kind has.

ghost use Rattle.std.specs.Prelude.{◌≡◌, ◌≤◌, length};
ghost use Rattle.object_table.specs.Objects.{IsObject, IsObjectOf};
ghost use Rattle.object_table.specs.Properties.{array_length, array_of_values, has, has_limits, has_property, is_binary, is_given, is_multi_state, length_of};

use crate::{ObjectProperty, ObjectSite};
use bac_values::{ObjectKind, PropertyId, Value};

impl ObjectSite {
    /// Whether the object has the property with an identifier.
    pub fn has_property(&self, property: PropertyId) -> bool
        ensures has { result ≡ has_property property.0 self.now }
    {
        match ObjectProperty::of_number(property.0) {
            Some(property) => has(self.object.kind(), self, property),
            None => false,
        }
    }

    /// The length of a property that is an array.
    pub fn array_length(&self, property: PropertyId) -> Option<u32>
        requires allowed { IsObject self.now }
        ensures length { result ≡ array_length property.0 self.now }
    {
        let property = ObjectProperty::of_number(property.0)?;
        length_of(self.object.kind(), self, property)
    }
}

/// Whether an object of a kind has a property.
pub(crate) fn has(kind: Option<ObjectKind>, site: &ObjectSite, property: ObjectProperty) -> bool
    ensures has { result ≡ has kind site.now property }
{
    match property {
        ObjectProperty::ObjectIdentifier
        | ObjectProperty::ObjectName
        | ObjectProperty::ObjectType
        | ObjectProperty::PresentValue
        | ObjectProperty::StatusFlags
        | ObjectProperty::EventState
        | ObjectProperty::Reliability
        | ObjectProperty::OutOfService
        | ObjectProperty::ReliabilityEvaluationInhibit => true,
        ObjectProperty::NumberOfStates => is_multi_state(kind),
        ObjectProperty::TimeDelay
        | ObjectProperty::EventEnable
        | ObjectProperty::EventAlgorithmInhibit
        | ObjectProperty::AckedTransitions
        | ObjectProperty::NotifyType
        | ObjectProperty::EventDetectionEnable
        | ObjectProperty::NotificationClass
        | ObjectProperty::EventTimeStamps => site.class.is_some(),
        ObjectProperty::TimeDelayNormal => {
            site.class.is_some() && site.time_delay_normal.is_some()
        }
        ObjectProperty::HighLimit
        | ObjectProperty::LowLimit
        | ObjectProperty::Deadband
        | ObjectProperty::LimitEnable => site.class.is_some() && has_limits(kind),
        ObjectProperty::AlarmValue => site.class.is_some() && is_binary(kind),
        ObjectProperty::EventAlgorithmInhibitRef => site.inhibit_ref.is_some(),
        ObjectProperty::EventMessageTexts | ObjectProperty::EventMessageTextsConfig => {
            is_given(site.texts.as_slice())
        }
        ObjectProperty::AlarmValues => is_given(site.alarm_values.as_slice()),
        ObjectProperty::FaultValues => is_given(site.fault_values.as_slice()),
    }
}

/// The length of a property that is an array: a multi-state value's alarm and fault values are lists.
pub(crate) fn length_of(
    kind: Option<ObjectKind>,
    site: &ObjectSite,
    property: ObjectProperty,
) -> Option<u32>
    requires allowed { IsObjectOf kind site.now }
    ensures length { result ≡ length_of kind site.now property }
{
    match property {
        ObjectProperty::AlarmValues => array_of_values(kind, site.alarm_values.as_slice()),
        ObjectProperty::FaultValues => array_of_values(kind, site.fault_values.as_slice()),
        ObjectProperty::EventTimeStamps
        | ObjectProperty::EventMessageTexts
        | ObjectProperty::EventMessageTextsConfig => Some(3),
        _ => None,
    }
}

fn array_of_values(kind: Option<ObjectKind>, values: &[Value]) -> Option<u32>
    requires few { length values.now ≤ 32 }
    ensures length { result ≡ array_of_values kind values.now }
{
    if is_multi_state(kind) {
        None
    } else {
        Some(values.len() as u32)
    }
}

fn is_given<T>(list: &[T]) -> bool
    ensures given { result ≡ is_given list.now }
{
    !list.is_empty()
}

fn is_multi_state(kind: Option<ObjectKind>) -> bool
    ensures kind { result ≡ is_multi_state kind }
{
    matches!(kind, Some(ObjectKind::MultiStateValue))
}

fn is_binary(kind: Option<ObjectKind>) -> bool
    ensures kind { result ≡ is_binary kind }
{
    matches!(kind, Some(ObjectKind::BinaryValue))
}

fn has_limits(kind: Option<ObjectKind>) -> bool
    ensures kind { result ≡ has_limits kind }
{
    matches!(
        kind,
        Some(ObjectKind::IntegerValue | ObjectKind::PositiveIntegerValue)
    )
}
