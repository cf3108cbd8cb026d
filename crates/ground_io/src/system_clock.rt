//! The clock of the system.

use crate::Clock;
use bac_values::{FIRST_MOMENT, LAST_MOMENT};
use std::time::SystemTime;

/// The clock of the system. A moment outside the years 2000 to 2099 is raised or lowered into them, and where the
/// system has no moment it shows the first one.
#[derive(Drop)]
pub struct SystemClock<R: std::time::Clock> {
    rt: R,
}

impl<R: std::time::Clock> SystemClock<R> {
    /// The clock of this runtime.
    pub fn new(rt: R) -> SystemClock<R> {
        SystemClock { rt }
    }
}

impl<R: std::time::Clock> Clock for SystemClock<R> {
    ghost use Rattle.bac_values.specs.Moments.{IsMoment};

    ghost shows = { λ _ moment. IsMoment moment };

    fn now(&self) -> u64 {
        let Ok(now) = SystemTime::now(&self.rt) else {
            return FIRST_MOMENT;
        };
        let Ok(passed) = now.duration_since(SystemTime::UNIX_EPOCH) else {
            return FIRST_MOMENT;
        };
        passed
            .as_millis()
            .clamp(u128::from(FIRST_MOMENT), u128::from(LAST_MOMENT)) as u64
    }
}
