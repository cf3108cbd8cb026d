//! What a clock shows at a moment.

ghost use Rattle.std.specs.Prelude.{◌≡◌, ◌+◌, ◌<◌, ◌≤◌, pos};
ghost use Rattle.bac_values.specs.Moments.{IsMoment};
ghost use Rattle.bac_values.specs.declared.stamp.Stamp.{Stamp};
ghost use Rattle.jiff.specs.Words.{IsBetween};
ghost use Rattle.civil_stamp.specs.LocalTime.{IsLocalStamp, local_stamp, stamp_time, stamp_weekday};
ghost use Rattle.civil_stamp.specs.CivilStamp.{civil_octets};

use crate::{LocalMoment, Zone};
use bac_values::Stamp;
use jiff::civil::DateTime;

/// The stamp of a date and a time of day. Its hundredths are rounded down.
fn stamp_of_civil(shown: DateTime) -> Stamp
    requires year { IsBetween (pos 1900) (pos 2155) shown.date.year }
    ensures octets { result.octets ≡ civil_octets shown }
{
    let weekday = shown.weekday().to_monday_one_offset();
    Stamp {
        octets: [
            (shown.year() - 1900) as u8,
            shown.month() as u8,
            shown.day() as u8,
            weekday as u8,
            shown.hour() as u8,
            shown.minute() as u8,
            shown.second() as u8,
            (shown.subsec_nanosecond() / 10_000_000) as u8,
        ],
    }
}

/// The stamp that the zone's clock shows at the moment, in hundredths of a second rounded down.
pub fn stamp_of(moment: u64, zone: &Zone) -> Stamp
    requires moment { IsMoment moment }
    ensures shows { IsLocalStamp zone.now moment result }
    ensures only { (stamp : Stamp) → IsLocalStamp zone.now moment stamp → stamp ≡ result }
    ensures stamp { result ≡ local_stamp zone.now moment }
{
    stamp_of_civil(zone.date_and_time(moment))
}

/// The weekday that the zone's clock shows at the moment, from 1 for Monday, and the hundredths of a second since
/// its midnight, below 8,640,000.
pub fn weekday_and_time(moment: u64, zone: &Zone) -> (u8, u32)
    requires moment { IsMoment moment }
    ensures weekday { result.0 ≡ stamp_weekday (local_stamp zone.now moment) }
    ensures time { result.1 ≡ stamp_time (local_stamp zone.now moment) }
    ensures weekdays { (1 ≤ result.0) × (result.0 ≤ 7) }
    ensures times { result.1 < 8_640_000 }
{
    LocalMoment::new(moment, zone).weekday_and_time()
}
