//! Which of two stamps is the earlier one.

ghost use Rattle.std.specs.Prelude.{◌≡◌};
ghost use Rattle.event_log.specs.Ranges.{is_before};

use bac_values::Stamp;

/// Whether a stamp is strictly before another, by year, month and day, then by time. The weekday isn't looked at.
pub(crate) fn is_before(a: &Stamp, b: &Stamp) -> bool
    ensures before { result ≡ is_before a.now b.now }
{
    let [year, month, day, _, hour, minute, second, hundredth] = a.octets;
    let left = [year, month, day, hour, minute, second, hundredth];
    let [year, month, day, _, hour, minute, second, hundredth] = b.octets;
    let right = [year, month, day, hour, minute, second, hundredth];
    left < right
}
