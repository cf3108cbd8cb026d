//! What algorithms look at, of value objects and of enrollments.

ghost use Rattle.std.specs.Prelude.{◌≡◌, ◌≤◌, [], IfSome, length};
ghost use Rattle.bac_values.specs.Limits.{most_listed_values};
ghost use Rattle.std.specs.Option.{option_and_then, option_copied, option_map};
ghost use Rattle.algorithm_rules.specs.Facts.{facts_of};
ghost use Rattle.object_table.specs.Objects.{IsObject};
ghost use Rattle.enrollment.specs.Snapshots.{algorithm_for, algorithm_of, facts_of_enrollment, facts_of_object, facts_of_site, value_in};

use crate::EnrollmentSite;
use algorithm_rules::{Algorithm, Snapshot};
use bac_values::{ObjectId, ObjectKind, Value};
use object_table::{ObjectSite, Table};

/// What the algorithm of a value object looks at.
pub fn snapshot_of_object<'a>(object: ObjectId, site: &'a ObjectSite) -> Snapshot<'a>
    requires allowed { IsObject site.now }
    ensures algorithm { result.algorithm ≡ algorithm_for object }
    ensures facts { facts_of result ≡ facts_of_object site.now }
    ensures few { length result.alarm_values.now ≤ most_listed_values }
{
    Snapshot {
        algorithm: algorithm_of(object.kind()),
        value: &site.value,
        feedback: None,
        alarm_value: site.alarm_value.as_ref(),
        alarm_values: site.alarm_values.as_slice(),
        mask: site.mask,
        low: site.low,
        high: site.high,
        limit_enable: site.limit_enable,
        deadband: site.deadband,
        time_delay: site.time_delay,
        time_delay_normal: site.time_delay_normal,
    }
}

/// The event algorithm that a value object of a kind applies to its own present value; any other kind has CHANGE_OF_STATE.
pub fn algorithm_of(kind: Option<ObjectKind>) -> Algorithm
    ensures algorithm { result ≡ algorithm_of kind }
{
    match kind {
        Some(ObjectKind::BitStringValue) => Algorithm::ChangeOfBitstring,
        Some(ObjectKind::CharacterStringValue) => Algorithm::ChangeOfCharacterstring,
        Some(ObjectKind::IntegerValue) => Algorithm::SignedOutOfRange,
        Some(ObjectKind::PositiveIntegerValue) => Algorithm::UnsignedOutOfRange,
        _ => Algorithm::ChangeOfState,
    }
}

/// What the algorithm of an enrollment looks at, where the table has the monitored object.
pub fn snapshot_of_enrollment<'a>(table: &'a Table, site: &EnrollmentSite) -> Option<Snapshot<'a>>
    ensures algorithm { IfSome result (λ snapshot. snapshot.algorithm ≡ site.now.algorithm) }
    ensures facts { option_map facts_of result ≡ facts_of_site site.now table.now }
    ensures few { IfSome result (λ snapshot. length snapshot.alarm_values.now ≤ most_listed_values) }
{
    match table.value_of(site.monitored) {
        Some(value) => Some(snapshot_with(value, feedback_of(table, site.feedback), site)),
        None => None,
    }
}

fn feedback_of(table: &Table, feedback: Option<ObjectId>) -> Option<&Value>
    ensures value { option_copied result ≡ option_and_then (value_in table.now) feedback }
{
    match feedback {
        Some(feedback) => table.value_of(feedback),
        None => None,
    }
}

/// The snapshot of an enrollment at values of the objects to which it refers. Its algorithms look at no Limit_Enable: both
/// limits count.
fn snapshot_with<'a>(
    value: &'a Value,
    feedback: Option<&'a Value>,
    site: &EnrollmentSite,
) -> Snapshot<'a>
    ensures algorithm { result.algorithm ≡ site.now.algorithm }
    ensures facts { facts_of result ≡ facts_of_enrollment value.now (option_copied feedback.entry) site.now }
    ensures few { result.alarm_values.now ≡ [] }
{
    Snapshot {
        algorithm: site.algorithm,
        value,
        feedback,
        alarm_value: None,
        alarm_values: &[],
        mask: None,
        low: i64::from(site.low),
        high: i64::from(site.high),
        limit_enable: [true, true],
        deadband: 0,
        time_delay: site.time_delay,
        time_delay_normal: site.time_delay_normal,
    }
}
