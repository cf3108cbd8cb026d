//! Local time: the stamp that the clock of a zone shows, and the time that a stamp tells. A zone stands a fixed number of
//! minutes ahead of UTC, or follows a rule with daylight saving time.
#![tactic(auto)]

mod daylight;
mod hundredths;
mod local;
mod moment;
mod zone;

pub use hundredths::hundredths_of;
pub use local::{stamp_of, weekday_and_time};
pub use moment::LocalMoment;
pub use zone::{Zone, ZoneFault, ZoneRange};
