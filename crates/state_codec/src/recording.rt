//! What a journal records of an event.
ghost use Rattle.std.specs.Prelude.{◌≡◌};
ghost use Rattle.bac_values.specs.Moments.{IsMoment};
ghost use Rattle.alarm_core.specs.Allowed.{IsAllowed};
ghost use Rattle.alarm_core.specs.Fits.{FitsEvent};
ghost use Rattle.alarm_core.specs.History.{raised};
ghost use Rattle.alarm_core.specs.State.{CoreState};
ghost use Rattle.state_codec.specs.Records.{HasRecord};

use crate::allowed_event_has_record;
use alarm_core::{Core, Event};

/// The event that a journal records of one that may come next in some state: it is raised to the last moment of a core, and
/// has a record. A core that takes it raises it no further.
pub fn event_to_record(core: &Core, event: Event) -> Event
    requires moment { IsMoment event.moment }
    requires allowed { (state : CoreState) × IsAllowed state event.act }
    ensures raised { result ≡ raised core.now.last_moment event }
    ensures moment { IsMoment result.moment }
    ensures again { raised core.now.last_moment result ≡ result }
    ensures allowed { (state : CoreState) → IsAllowed state event.act → IsAllowed state result.act }
    ensures record { HasRecord result }
    ensures fits { FitsEvent result }
{
    let event = core.raised_event(event);
    allowed_event_has_record(&event);
    event
}
