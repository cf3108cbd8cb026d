//! Since when the rules of a state have had their keys.

ghost use Rattle.std.specs.Prelude.{◌≡◌, ◌≤◌, length};
ghost use Rattle.bac_values.specs.Limits.{most_listed_values};
ghost use Rattle.event_machine.specs.Given.{point_of};
ghost use Rattle.event_machine.specs.AlarmSteps.{next_runs, run_onward};

use crate::keys::key_at;
use crate::{PointFacts, Run};
use algorithm_rules::Snapshot;
use bac_values::EventState;

fn run_onward(moment: u64, key: Option<u32>, run: Option<Run>) -> Option<Run>
    ensures run { result ≡ run_onward moment key run }
{
    let key = key?;
    let start = match run {
        Some(run) if run.key == key => run.start,
        _ => moment,
    };
    Some(Run { start, key })
}

/// The runs of a state's rules at one more point, from those before it.
pub(crate) fn next_runs(
    snapshot: &Snapshot<'_>,
    point: &PointFacts,
    state: EventState,
    cause: Option<u32>,
    runs: &[Option<Run>; 3],
) -> [Option<Run>; 3]
    requires few { length snapshot.now.alarm_values.now ≤ most_listed_values }
    ensures runs { result ≡ next_runs snapshot.now.algorithm (point_of snapshot.now point.now) state cause runs.now }
{
    if point.inhibited {
        return [None; 3];
    }
    let moment = point.moment;
    [
        run_onward(moment, key_at(snapshot, state, cause, 0), runs[0]),
        run_onward(moment, key_at(snapshot, state, cause, 1), runs[1]),
        run_onward(moment, key_at(snapshot, state, cause, 2), runs[2]),
    ]
}
