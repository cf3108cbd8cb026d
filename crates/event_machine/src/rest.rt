//! Whether an object would stay as it is at one more point.

ghost use Rattle.std.specs.Prelude.{◌≡◌, ◌≤◌, ◌↔◌, ◌∷◌, [], List, IsTrue, length};
ghost use Rattle.bac_values.specs.Limits.{most_listed_values};
ghost use Rattle.event_machine.specs.Detection.{moves_at};
ghost use Rattle.event_machine.specs.Given.{point_of};
ghost use Rattle.event_machine.specs.AlarmSteps.{next_look};
ghost use Rattle.event_machine.specs.Points.{Incident, IsCourse, Looked, Point};
ghost use Rattle.event_machine.specs.RestSteps.{rests};
ghost use Rattle.event_machine.specs.Summary.{IsAfter};

use crate::held::rule_lasting;
use crate::machine::fault_target;
use crate::running::next_runs;
use crate::{Alarm, PointFacts};
use algorithm_rules::Snapshot;
use bac_values::EventState;

fn would_rest(alarm: &Alarm, snapshot: &Snapshot<'_>, point: &PointFacts) -> bool
    requires few { length snapshot.now.alarm_values.now ≤ most_listed_values }
    ensures rests { result ≡ rests snapshot.now.algorithm (point_of snapshot.now point.now) alarm.now }
{
    let state = alarm.state();
    if fault_target(point.reliability, alarm.last_reliability(), state).is_some() {
        return false;
    }
    if state == EventState::Fault {
        return true;
    }
    if point.inhibited {
        return state == EventState::Normal;
    }
    let runs = next_runs(snapshot, point, state, alarm.cause(), &alarm.runs());
    rule_lasting(snapshot, point, state, &runs).is_none()
}

/// Whether nothing would move at one more point. Memory is not asked for.
pub fn is_still(alarm: &Alarm, snapshot: &Snapshot<'_>, point: &PointFacts) -> bool
    requires few { length snapshot.now.alarm_values.now ≤ most_listed_values }
    ensures still { IsTrue result ↔ ((next_look snapshot.now.algorithm (point_of snapshot.now point.now) alarm.now).moves ≡ []) }
    ensures course { (first : Point) (later : List Incident) → IsCourse first (Looked (point_of snapshot.now point.now) ∷ later) → IsAfter snapshot.now.algorithm first later alarm.now →
        (IsTrue result ↔ (moves_at snapshot.now.algorithm first (Looked (point_of snapshot.now point.now) ∷ later) ≡ [])) }
{
    would_rest(alarm, snapshot, point)
}
