//! A moment, with what the clock shows at it.

ghost use Rattle.std.specs.Prelude.{◌≡◌, ◌<◌, ◌≤◌};
ghost use Rattle.bac_values.specs.Moments.{IsMoment};
ghost use Rattle.civil_stamp.specs.LocalTime.{IsLocalStamp, local_stamp, stamp_time, stamp_weekday};

use crate::{Zone, stamp_of};
use bac_values::Stamp;
use std::marker::Model;

/// A moment, and the local date and time of it in a zone (ANSI/ASHRAE 135-2020, 13.2.5, Time Stamp), which contracts see
/// as the moment and the zone.
#[derive(Clone, Copy, Debug, PartialEq, Eq)]
pub struct LocalMoment {
    zone: Zone,
    moment: u64,
    stamp: Stamp,
}

impl Model for LocalMoment {
    ghost use Rattle.civil_stamp.specs.LocalTime.{IsZonedStamp, local_stamp, LocalMomentData};

    ghost Value = { LocalMomentData };

    ghost view = { λ at. record { zone = at.zone; moment = at.moment } };

    ghost invariant = { λ at. IsZonedStamp at.zone at.moment at.stamp };

    ghost inverse = { λ at. record { zone = at.zone; moment = at.moment; stamp = local_stamp at.zone at.moment } };

    ghost use Rattle.civil_stamp.specs.LocalMoments.{gives_back};

    ghost inverse_ok = { λ at h. gives_back at h };
}

impl LocalMoment {
    /// The moment with what the zone's clock shows at it.
    pub fn new(moment: u64, zone: &Zone) -> LocalMoment
        requires moment { IsMoment moment }
        ensures zone { result.zone ≡ zone.now }
        ensures moment { result.moment ≡ moment }
    {
        LocalMoment {
            zone: *zone,
            moment,
            stamp: stamp_of(moment, zone),
        }
    }

    /// The moment.
    pub fn moment(&self) -> u64
        ensures moment { result ≡ self.now.moment }
        ensures within { IsMoment self.now.moment }
    {
        self.moment
    }

    /// The local date and time, in hundredths of a second rounded down.
    pub fn stamp(&self) -> Stamp
        ensures stamp { result ≡ local_stamp self.now.zone self.now.moment }
        ensures shows { IsLocalStamp self.now.zone self.now.moment result }
    {
        self.stamp
    }

    /// The local weekday, from 1 for Monday, and the hundredths of a second since the local midnight, below 8,640,000.
    pub fn weekday_and_time(&self) -> (u8, u32)
        ensures weekday { result.0 ≡ stamp_weekday (local_stamp self.now.zone self.now.moment) }
        ensures time { result.1 ≡ stamp_time (local_stamp self.now.zone self.now.moment) }
        ensures weekdays { (1 ≤ result.0) × (result.0 ≤ 7) }
        ensures times { result.1 < 8_640_000 }
    {
        let [_, _, _, weekday, hour, minute, second, hundredth] = self.stamp.octets;
        let minutes = u32::from(hour) * 60 + u32::from(minute);
        let time = (minutes * 60 + u32::from(second)) * 100 + u32::from(hundredth);
        (weekday, time)
    }
}
