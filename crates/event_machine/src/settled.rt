//! Whether an object needs no evaluation before it is due.

ghost use Rattle.std.specs.Prelude.{◌≡◌, ◌≤◌, length};
ghost use Rattle.bac_values.specs.Limits.{most_listed_values};
ghost use Rattle.event_machine.specs.Given.{point_of};
ghost use Rattle.event_machine.specs.SettledSteps.{fits, is_settled, obeys_inhibition, running_key, runs_stand};

use crate::keys::key_at;
use crate::machine::fault_target;
use crate::{Alarm, PointFacts, Run};
use algorithm_rules::Snapshot;
use bac_values::EventState;

fn running_key(alarm: &Alarm, snapshot: &Snapshot<'_>, point: &PointFacts, place: u8) -> Option<u32>
    requires few { length snapshot.now.alarm_values.now ≤ most_listed_values }
    ensures key { result ≡ running_key snapshot.now.algorithm (point_of snapshot.now point.now) alarm.now place }
{
    if point.inhibited {
        return None;
    }
    key_at(snapshot, alarm.state(), alarm.cause(), place)
}

// Whether a run is there exactly where a key is, and has it.
fn fits(key: Option<u32>, run: Option<Run>) -> bool
    ensures fits { result ≡ fits key run }
{
    match (key, run) {
        (None, None) => true,
        (Some(key), Some(run)) => run.key == key,
        _ => false,
    }
}

// Whether the runs are as one more point leaves them.
fn runs_stand(alarm: &Alarm, snapshot: &Snapshot<'_>, point: &PointFacts) -> bool
    requires few { length snapshot.now.alarm_values.now ≤ most_listed_values }
    ensures stand { result ≡ runs_stand snapshot.now.algorithm (point_of snapshot.now point.now) alarm.now }
{
    let [first, second, third] = alarm.runs();
    fits(running_key(alarm, snapshot, point, 0), first)
        && fits(running_key(alarm, snapshot, point, 1), second)
        && fits(running_key(alarm, snapshot, point, 2), third)
}

fn obeys_inhibition(point: &PointFacts, snapshot: &Snapshot<'_>, state: EventState) -> bool
    ensures obeys { result ≡ obeys_inhibition (point_of snapshot.now point.now) state }
{
    !point.inhibited || state == EventState::Fault || state == EventState::Normal
}

/// Whether an object is settled: a look at it would change nothing before it is due. One is settled from each look on until
/// its facts, its reliability or its inhibition change. Neither the moment nor the stamp of the point matters. Memory is
/// not asked for.
pub fn is_settled(alarm: &Alarm, snapshot: &Snapshot<'_>, point: &PointFacts) -> bool
    requires few { length snapshot.now.alarm_values.now ≤ most_listed_values }
    ensures settled { result ≡ is_settled snapshot.now.algorithm (point_of snapshot.now point.now) alarm.now }
{
    let state = alarm.state();
    let last = alarm.last_reliability();
    fault_target(point.reliability, last, state).is_none()
        && point.reliability.number() == last.number()
        && obeys_inhibition(point, snapshot, state)
        && runs_stand(alarm, snapshot, point)
}
