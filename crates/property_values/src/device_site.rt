//! The device as a site describes it.

use bac_values::Text;

/// The device of a site (ANSI/ASHRAE 135-2020, 12.11), and how it keeps time and sends notifications.
#[derive(Clone, Debug, Drop)]
pub struct DeviceSite {
    /// The instance of its object.
    pub instance: u32,
    /// Its Object_Name.
    pub name: Text,
    /// Its Vendor_Identifier.
    pub vendor: u16,
    /// When the site starts, in milliseconds since 1970.
    pub start: u64,
    /// How many minutes its local time is ahead of UTC, from -840 to 840.
    pub zone_minutes: i16,
    /// The zone rule that its local time follows, with daylight saving time, as the TZ variable of POSIX has it: from 1 to
    /// 64 ASCII octets. None: local time is `zone_minutes` ahead of UTC all year.
    pub zone_rule: Option<Text>,
    /// For how many milliseconds it waits for an answer to a confirmed notification, from 1 to 3,600,000.
    pub apdu_timeout: u32,
    /// How often it sends a confirmed notification again, at most 15 times.
    pub retries: u8,
    /// How many notifications may wait in its outbox, from 64 to 16,384.
    pub outbox: u32,
    /// Whether a notification that is given up takes along all that waits behind it for its recipient.
    pub flush_silent: bool,
}
