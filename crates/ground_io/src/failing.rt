//! Whether a call of something in memory is one that is to fail.

ghost use Rattle.std.specs.Prelude.{◌≡◌, ◌↔◌, Contains, IsTrue};
ghost use Rattle.ground_io.specs.Counts.{next_count};

/// Counts a call more, and says whether its number is in the list of the failing ones.
pub fn is_listed_next(failing: &[u64], calls: &mut u64) -> bool
    ensures counted { calls.new ≡ next_count calls.old }
    ensures listed { IsTrue result ↔ Contains failing.now calls.new }
{
    *calls = calls.saturating_add(1);
    failing.contains(calls)
}
