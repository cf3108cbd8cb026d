/// The number of a service of Confirmed-Requests (ANSI/ASHRAE 135-2020, BACnetConfirmedServiceChoice).
#[derive(Clone, Copy, Debug, PartialEq, Eq)]
pub struct ConfirmedService(pub u8);

impl ConfirmedService {
    /// AcknowledgeAlarm (13.5).
    pub const ACKNOWLEDGE_ALARM: ConfirmedService = ConfirmedService(0);
    /// ConfirmedEventNotification (13.8).
    pub const CONFIRMED_EVENT_NOTIFICATION: ConfirmedService = ConfirmedService(2);
    /// GetAlarmSummary (13.10).
    pub const GET_ALARM_SUMMARY: ConfirmedService = ConfirmedService(3);
    /// GetEnrollmentSummary (13.11).
    pub const GET_ENROLLMENT_SUMMARY: ConfirmedService = ConfirmedService(4);
    /// AddListElement (15.1).
    pub const ADD_LIST_ELEMENT: ConfirmedService = ConfirmedService(8);
    /// RemoveListElement (15.2).
    pub const REMOVE_LIST_ELEMENT: ConfirmedService = ConfirmedService(9);
    /// ReadProperty (15.5).
    pub const READ_PROPERTY: ConfirmedService = ConfirmedService(12);
    /// ReadPropertyMultiple (15.7).
    pub const READ_PROPERTY_MULTIPLE: ConfirmedService = ConfirmedService(14);
    /// WriteProperty (15.9).
    pub const WRITE_PROPERTY: ConfirmedService = ConfirmedService(15);
    /// ReadRange (15.8).
    pub const READ_RANGE: ConfirmedService = ConfirmedService(26);
    /// GetEventInformation (13.12).
    pub const GET_EVENT_INFORMATION: ConfirmedService = ConfirmedService(29);
}

/// The number of a service of Unconfirmed-Requests (ANSI/ASHRAE 135-2020, BACnetUnconfirmedServiceChoice).
#[derive(Clone, Copy, Debug, PartialEq, Eq)]
pub struct UnconfirmedService(pub u8);

impl UnconfirmedService {
    /// I-Am (16.10).
    pub const I_AM: UnconfirmedService = UnconfirmedService(0);
    /// UnconfirmedEventNotification (13.9).
    pub const UNCONFIRMED_EVENT_NOTIFICATION: UnconfirmedService = UnconfirmedService(3);
    /// Who-Is (16.10).
    pub const WHO_IS: UnconfirmedService = UnconfirmedService(8);
}

/// The longest APDU on BACnet/IP, in octets.
pub const LONGEST_APDU: u16 = 1476;

/// That a device takes no segments (BACnetSegmentation).
pub const NO_SEGMENTATION: u8 = 3;
