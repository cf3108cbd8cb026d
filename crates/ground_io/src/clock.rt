//! What a clock is.

ghost use Rattle.std.specs.Prelude.{ℕ};
ghost use Rattle.bac_values.specs.Moments.{IsMoment};

/// A clock. A moment is in milliseconds since 1970 in UTC, within the years 2000 to 2099.
pub trait Clock {
    /// The moments that the clock may show.
    ghost shows: { Self → ℕ → Type 0 };

    /// The moment that the clock shows.
    fn now(&self) -> u64
        ensures in_range { IsMoment result }
        ensures shown { shows self.now result };
}
