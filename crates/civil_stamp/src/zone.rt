//! How a local clock stands to UTC.

ghost use Rattle.std.specs.Prelude.{◌≡◌, ◌*ℤ◌, pos, OkIff, IfOk, ok_or};
ghost use Rattle.bac_values.specs.Moments.{IsMoment};
ghost use Rattle.jiff.specs.Placed.{IsPosixZone};
ghost use Rattle.jiff.specs.Words.{civil_nanos, plain_zone, IsBetween};
ghost use Rattle.jiff_core.specs.Calendar.{IsWithin};
ghost use Rattle.jiff_core.specs.Timestamp.{IsOffsetSeconds};
ghost use Rattle.jiff_tz.specs.PosixText.{tz_view};
ghost use Rattle.jiff_tz.specs.declared.timezone.TimeZone.{TimeZone as JiffZone};
ghost use Rattle.civil_stamp.specs.CivilStamp.{IsNear, IsNearer};
ghost use Rattle.civil_stamp.specs.ZoneRules.{GoesAs, clock_rule, daylight_ahead};
ghost use Rattle.civil_stamp.specs.LocalTime.{IsZone, fixed_zone, hundredths_ahead, least_ahead, local_hundredths, most_ahead, rule_zone, utc_hundredths};

use crate::daylight::DaylightTime;
use jiff::Timestamp;
use jiff::civil::DateTime;
use jiff::tz::TimeZone;
use jiff_core::{Error, Offset};
use jiff_tz::{Abbreviation, posix};
use std::marker::Model;

/// How a local clock stands to UTC: all year the same, or by a rule with daylight saving time. Contracts see what the rule
/// says of the clock.
#[derive(Clone, Copy, Debug, PartialEq, Eq)]
pub struct Zone {
    standard: i32,
    daylight: Option<DaylightTime>,
}

impl Model for Zone {
    ghost use Rattle.civil_stamp.specs.ZoneRules.{IsClockRule};
    ghost use Rattle.civil_stamp.specs.LocalTime.{ZoneData};

    ghost Value = { ZoneData };

    ghost view = { λ zone. record { standard = zone.standard; daylight = zone.daylight } };

    ghost invariant = { λ zone. IsClockRule (record { standard = zone.standard; daylight = zone.daylight }) };

    ghost inverse = { λ rule. record { standard = rule.standard; daylight = rule.daylight } };
}

/// More than fourteen hours from UTC.
#[derive(Clone, Copy, Debug, PartialEq, Eq)]
pub struct ZoneRange;

/// Why there is no zone of a rule.
#[derive(Clone, Copy, Debug, PartialEq, Eq)]
pub enum ZoneFault {
    /// The text isn't a zone rule.
    NotARule,
    /// There was no memory to read it.
    NoMemory,
}

impl Zone {
    /// The zone whose clock stands these minutes ahead of UTC; refused exactly outside -840 to 840.
    pub fn fixed(minutes: i16) -> Result<Zone, ZoneRange>
        ensures made { OkIff result (IsZone minutes) (fixed_zone minutes) }
    {
        if minutes < -840 || minutes > 840 {
            return Err(ZoneRange);
        }
        Ok(Zone {
            standard: i32::from(minutes) * 60,
            daylight: None,
        })
    }

    /// The zone of a rule such as `CET-1CEST,M3.5.0,M10.5.0/3`, the TZ variable of POSIX; refused exactly where jiff doesn't
    /// take the text for a rule. Its clock goes as the one of jiff's zone of that text.
    pub fn rule(text: &str) -> Result<Zone, ZoneFault>
        ensures made { result ≡ ok_or (rule_zone text.now) ZoneFault.NotARule }
        ensures as_jiff { IfOk result (λ zone. (jiff : JiffZone) → IsPosixZone text.now jiff → GoesAs jiff zone) }
    {
        match posix::TimeZone::parse(text.as_bytes()) {
            Ok(said) => Ok(Zone::of(said)),
            Err(Error::OutOfMemory) => Err(ZoneFault::NoMemory),
            Err(_) => Err(ZoneFault::NotARule),
        }
    }

    // The zone that a rule says.
    fn of(said: posix::TimeZone) -> Zone
        ensures zone { result ≡ clock_rule (tz_view said) }
    {
        Zone {
            standard: said.std_offset.seconds,
            daylight: match said.dst {
                Some(dst) => Some(DaylightTime::of(dst)),
                None => None,
            },
        }
    }

    // The same for jiff, which wants a name.
    fn said(&self) -> posix::TimeZone
        ensures zone { clock_rule (tz_view result) ≡ self.now }
    {
        posix::TimeZone {
            std_abbrev: Abbreviation::utc(),
            std_offset: Offset {
                seconds: self.standard,
            },
            dst: self.daylight.map(DaylightTime::dst),
        }
    }

    /// The zone for jiff.
    pub(crate) fn time_zone(&self) -> TimeZone<'static>
        ensures same { GoesAs (plain_zone result) self.now }
    {
        TimeZone::from_plain(jiff_tz::TimeZone::Posix(self.said()))
    }

    /// How many hundredths of a second the zone's clock stands ahead of UTC, so many after 1970-01-01T00:00Z.
    fn hundredths_ahead(&self, at: i64) -> i64
        requires near { IsNear at }
        ensures ahead { result ≡ hundredths_ahead self.now at }
        ensures within { IsWithin 9_359_900 result }
    {
        let instant = Timestamp::from_millisecond(at * 10).unwrap();
        i64::from(self.time_zone().to_offset(instant).seconds()) * 100
    }

    // How many seconds the zone's clock stands ahead of UTC in daylight saving time; without one, as in standard time.
    fn daylight_ahead(&self) -> i32
        ensures ahead { result ≡ daylight_ahead self.now }
        ensures within { IsOffsetSeconds result }
    {
        match self.daylight {
            Some(daylight) => daylight.ahead(),
            None => self.standard,
        }
    }

    // The most hundredths of a second that the zone's clock ever stands ahead of UTC.
    fn most_ahead(&self) -> i64
        ensures ahead { result ≡ most_ahead self.now }
        ensures within { IsWithin 9_359_900 result }
    {
        i64::from(self.standard.max(self.daylight_ahead())) * 100
    }

    // The least hundredths of a second that it ever stands ahead of UTC.
    fn least_ahead(&self) -> i64
        ensures ahead { result ≡ least_ahead self.now }
        ensures within { IsWithin 9_359_900 result }
    {
        i64::from(self.standard.min(self.daylight_ahead())) * 100
    }

    /// When the zone's clock shows so many hundredths after 1970-01-01T00:00, in those after 1970-01-01T00:00Z: of two times
    /// the earlier one, and where it never shows them, as it's put forward, by the offset before.
    pub(crate) fn when_shown(&self, shown: i64) -> i64
        requires nearer { IsNearer shown }
        ensures time { result ≡ utc_hundredths self.now shown }
    {
        let earlier = shown - self.most_ahead();
        if earlier + self.hundredths_ahead(earlier) == shown {
            return earlier;
        }
        shown - self.least_ahead()
    }

    /// The date and the time of day that the zone's clock shows at the moment, in hundredths of a second rounded down.
    pub(crate) fn date_and_time(&self, moment: u64) -> DateTime
        requires moment { IsMoment moment }
        ensures year { IsBetween (pos 1900) (pos 2155) result.date.year }
        ensures shows { civil_nanos result ≡ local_hundredths self.now moment *ℤ pos 10_000_000 }
    {
        let hundredths = moment / 10;
        let instant = Timestamp::from_millisecond(hundredths as i64 * 10).unwrap();
        let offset = self.time_zone().to_offset(instant);
        offset.to_datetime(instant)
    }
}
