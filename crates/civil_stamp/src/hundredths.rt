//! When a clock showed a stamp.

ghost use Rattle.std.specs.Prelude.{◌≡◌, ◌↔◌, ℕ, ℤ, ◌≤ℤ◌, ◌/◌, ◌<◌, ◌^◌, pos, slice_index, Some, IsSome, IfSome, IsSomeAnd};
ghost use Rattle.civil_stamp.specs.CivilStamp.{IsNearer};
ghost use Rattle.civil_stamp.specs.LocalTime.{IsCivilTime, IsLocalStamp, IsShownAt, IsTimeOf, fixed_zone, hundredths_in, shown_hundredths};

use crate::Zone;
use bac_values::Stamp;
use jiff_core::civil::Date;

/// The hundredths of a second since 1970-01-01T00:00 on a clock that shows the stamp's date and time of day; none exactly where
/// its octets aren't ones. The weekday isn't looked at.
fn shown_hundredths(stamp: &Stamp) -> Option<i64>
    ensures civil { IsSome result ↔ IsCivilTime stamp.now }
    ensures shown { IfSome result (λ shown. shown ≡ shown_hundredths stamp.now) }
    ensures nearer { IfSome result IsNearer }
    ensures octet { slice_index stamp.now.octets 0 < 2 ^ 8 }
{
    let [year, month, day, _, hour, minute, second, hundredth] = stamp.octets;
    if month > 12 || day > 31 || hour > 23 || minute > 59 || second > 59 || hundredth > 99 {
        return None;
    }
    let date = Date::new(1900 + year as i16, month as i8, day as i8).ok()?;
    let minutes = u32::from(hour) * 60 + u32::from(minute);
    let time = (minutes * 60 + u32::from(second)) * 100 + u32::from(hundredth);
    Some(i64::from(date.to_unix_epoch_day()) * 8_640_000 + i64::from(time))
}

/// The hundredths of a second since 1970-01-01T00:00Z when the zone's clock shows the stamp: of two times in a fold the
/// earlier one, and in a gap by the offset before it. None exactly where the octets are no civil date and time; the weekday
/// isn't looked at.
pub fn hundredths_of(stamp: &Stamp, zone: &Zone) -> Option<i64>
    ensures civil { IsSome result ↔ IsCivilTime stamp.now }
    ensures time { IfSome result (IsTimeOf zone.now stamp.now) }
    ensures only { (at : ℤ) → IsCivilTime stamp.now → IsTimeOf zone.now stamp.now at → result ≡ Some at }

    // What the clock shows at a moment it shows at the answer too, and the moment isn't before it.
    ensures own_stamp { (moment : ℕ) → IsLocalStamp zone.now moment stamp.now
        → IsSomeAnd result (λ at. IsShownAt zone.now stamp.now at × (at ≤ℤ pos (moment / 10))) }
    ensures of_moment { (minutes : ℤ) (moment : ℕ) → zone.now ≡ fixed_zone minutes → IsLocalStamp zone.now moment stamp.now → result ≡ Some (pos (moment / 10)) }

    ensures hundredths { result ≡ hundredths_in zone.now stamp.now }
{
    let shown = shown_hundredths(stamp)?;
    Some(zone.when_shown(shown))
}
