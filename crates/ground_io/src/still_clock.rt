//! A clock that stands still.

ghost use Rattle.std.specs.Prelude.{◌≡◌};
ghost use Rattle.bac_values.specs.Moments.{IsMoment};

use crate::Clock;
use std::marker::Model;

/// A clock that stands still. Contracts see it as its moment.
#[derive(Clone, Copy, Debug)]
pub struct StillClock {
    moment: u64,
}

impl Model for StillClock {
    ghost use Rattle.std.specs.Prelude.{ℕ};
    ghost use Rattle.bac_values.specs.Moments.{IsMoment};

    ghost Value = { ℕ };

    ghost view = { λ clock. clock.moment };

    ghost invariant = { λ clock. IsMoment clock.moment };

    ghost inverse = { λ moment. record { moment = moment } };
}

impl StillClock {
    /// A clock that shows this moment alone.
    pub fn new(moment: u64) -> StillClock
        requires { IsMoment moment }
        ensures made { result ≡ moment }
    {
        StillClock { moment }
    }
}

impl Clock for StillClock {
    ghost use Rattle.std.specs.Prelude.{◌≡◌};

    ghost shows = { λ clock moment. moment ≡ clock };

    fn now(&self) -> u64 {
        self.moment
    }
}
