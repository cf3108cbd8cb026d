//! The services that are carried out.

ghost use Rattle.std.specs.Prelude.{◌≡◌};
ghost use Rattle.service_desk.specs.Services.{service_of};

use bac_values::ConfirmedService;

/// A confirmed service that the device carries out (ANSI/ASHRAE 135-2020, clause 21, BACnetConfirmedServiceChoice).
#[derive(Clone, Copy, Debug, PartialEq, Eq)]
pub(crate) enum Service {
    /// 13.5
    AcknowledgeAlarm,
    /// 13.10
    GetAlarmSummary,
    /// 13.11
    GetEnrollmentSummary,
    /// 15.1
    AddListElement,
    /// 15.2
    RemoveListElement,
    /// 15.5
    ReadProperty,
    /// 15.7
    ReadPropertyMultiple,
    /// 15.9
    WriteProperty,
    /// 15.8
    ReadRange,
    /// 13.12
    GetEventInformation,
}

impl Service {
    /// The service with a number, if the device carries it out.
    pub(crate) fn of_number(number: u8) -> Option<Service>
        ensures service { result ≡ service_of number }
    {
        let service = match ConfirmedService(number) {
            ConfirmedService::ACKNOWLEDGE_ALARM => Service::AcknowledgeAlarm,
            ConfirmedService::GET_ALARM_SUMMARY => Service::GetAlarmSummary,
            ConfirmedService::GET_ENROLLMENT_SUMMARY => Service::GetEnrollmentSummary,
            ConfirmedService::ADD_LIST_ELEMENT => Service::AddListElement,
            ConfirmedService::REMOVE_LIST_ELEMENT => Service::RemoveListElement,
            ConfirmedService::READ_PROPERTY => Service::ReadProperty,
            ConfirmedService::READ_PROPERTY_MULTIPLE => Service::ReadPropertyMultiple,
            ConfirmedService::WRITE_PROPERTY => Service::WriteProperty,
            ConfirmedService::READ_RANGE => Service::ReadRange,
            ConfirmedService::GET_EVENT_INFORMATION => Service::GetEventInformation,
            _ => return None,
        };
        Some(service)
    }
}
