//! The alarm of one object is read.

ghost use Rattle.std.specs.Prelude.{◌≡◌, ◌≤◌, length};
ghost use Rattle.alarm_core.specs.SiteStates.{alarm_values_in};
ghost use Rattle.state_codec.specs.ReadingSteps.{Gives};
ghost use Rattle.state_codec.specs.SnapshotSteps.{subject_at, values_in};

use crate::reading::ReadFault;
use crate::reading_alarms::{take_alarm, take_new_alarm};
use bac_values::ObjectId;
use enrollment::Subject;
use event_machine::Alarm;
use object_table::{Row, Table};

/// How many alarm values an object has.
fn alarm_values_in(row: &Row) -> u32
    requires few { length row.now.site.alarm_values ≤ 32 }
    ensures exact { result ≡ alarm_values_in row.now }
{
    if row.site.alarm_value.is_some() {
        1
    } else {
        row.site.alarm_values.as_slice().len() as u32
    }
}

/// How many alarm values the object with an identifier has, by its row.
#[tactic(auto, using(crate::proofs::FewValues::few_values))]
fn values_in(table: &Table, object: ObjectId) -> u32
    ensures exact { result ≡ values_in object table.now }
{
    match table.row(object) {
        Some(row) => alarm_values_in(row),
        None => 0,
    }
}

/// Takes the alarm of a subject: where its event detection isn't enabled, that of an object that was never looked at.
#[tactic(auto, unfolding(crate::specs::SnapshotSteps::subject_at))]
pub(crate) fn take_subject(
    table: &Table,
    last: u64,
    subject: &Subject,
    bytes: &mut &[u8],
) -> Result<Alarm, ReadFault>
    ensures exact { Gives (λ x. (x, bytes.new.now)) result (subject_at table.now last subject.now bytes.old.now) }
{
    if subject.is_detecting() {
        let values = values_in(table, subject.object);
        take_alarm(subject.algorithm, values, last, bytes)
    } else {
        take_new_alarm(bytes)
    }
}
