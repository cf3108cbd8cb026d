//! Daylight saving time as a zone rule has it, in numbers alone: the names of the two times aren't kept.
ghost use Rattle.std.specs.Prelude.{◌≡◌};
ghost use Rattle.jiff_tz.specs.PosixText.{day_time_view, dst_view};
ghost use Rattle.civil_stamp.specs.ZoneRules.{IsDaylightTime, IsYearMoment, daylight_time, year_moment};

use jiff_core::Offset;
use jiff_tz::Abbreviation;
use jiff_tz::posix::{Day, DayTime, Dst, Rule};

/// A moment of each year: a day as a zone rule names it, and the seconds from its midnight.
#[derive(Clone, Copy, Debug, PartialEq, Eq)]
pub(crate) struct YearMoment {
    day: Day,
    time: i32,
}

impl YearMoment {
    fn of(at: DayTime) -> YearMoment
        ensures moment { result ≡ year_moment (day_time_view at) }
        ensures within { IsYearMoment result }
    {
        YearMoment {
            day: at.date,
            time: at.time,
        }
    }

    fn day_time(self) -> DayTime
        requires within { IsYearMoment self }
        ensures same { year_moment (day_time_view result) ≡ self }
    {
        DayTime {
            date: self.day,
            time: self.time,
        }
    }
}

/// How many seconds the clock stands ahead of UTC in daylight saving time, and when in each year that starts and ends.
#[derive(Clone, Copy, Debug, PartialEq, Eq)]
pub(crate) struct DaylightTime {
    ahead: i32,
    start: YearMoment,
    end: YearMoment,
}

impl DaylightTime {
    pub(crate) fn of(said: Dst) -> DaylightTime
        ensures daylight { result ≡ daylight_time (dst_view said) }
        ensures within { IsDaylightTime result }
    {
        DaylightTime {
            ahead: said.offset.seconds,
            start: YearMoment::of(said.rule.start),
            end: YearMoment::of(said.rule.end),
        }
    }

    /// How many seconds the clock stands ahead of UTC.
    pub(crate) fn ahead(self) -> i32
        ensures ahead { result ≡ self.ahead }
    {
        self.ahead
    }

    /// The same for jiff, which wants a name.
    pub(crate) fn dst(self) -> Dst
        requires within { IsDaylightTime self }
        ensures same { daylight_time (dst_view result) ≡ self }
    {
        Dst {
            abbrev: Abbreviation::utc(),
            offset: Offset {
                seconds: self.ahead,
            },
            rule: Rule {
                start: self.start.day_time(),
                end: self.end.day_time(),
            },
        }
    }
}
