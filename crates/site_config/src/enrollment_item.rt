//! An item of the section `enrollment`.

ghost use Rattle.std.specs.Prelude.{◌≡◌, codes};
ghost use Rattle.toml.specs.View.{table_view};
ghost use Rattle.toml_items.specs.Answers.{Gives};
ghost use Rattle.site_config.specs.Enrollments.{keys_of_enrollment, feedback_of, range_limit, watch_of, enrollment_of};
ghost use Rattle.toml_items.specs.Members.{required};
ghost use Rattle.site_config.specs.Values.{algorithm_in, object_in};

use crate::alarm_keys::alarm_keys_of;
use crate::keys::Keys;
use crate::members::name_or;
use crate::objects::identifier;
use crate::values::{LAST_INSTANCE, algorithm_in, object_in};
use alarm_core::EnrollmentSite;
use algorithm_rules::Algorithm;
use bac_values::{ObjectId, ObjectKind};
use std::alloc::Global;
use toml::Table;
use toml_items::{ItemFault, member_at, required_member, unsigned, valid_value};

/// Which keys the enrollment of a table has.
pub fn keys_of_enrollment(table: &Table) -> Keys
    ensures keys { result ≡ keys_of_enrollment (table_view table.now) }
{
    match member_at(table, "algorithm") {
        Some(value) => Keys::Enrollment {
            algorithm: algorithm_in(value),
        },
        None => Keys::Enrollment { algorithm: None },
    }
}

/// The algorithm of an enrollment.
fn algorithm(alloc: Global, table: &Table) -> Result<Algorithm, ItemFault>
    ensures answer { Gives ItemFault.NoMemory result (required algorithm_in (codes "algorithm") (table_view table.now)) }
{
    let value = required_member(alloc, table, "algorithm")?;
    valid_value(alloc, "algorithm", algorithm_in(value))
}

/// The object at a key.
fn object_at(alloc: Global, table: &Table, key: &str) -> Result<ObjectId, ItemFault>
    ensures answer { Gives ItemFault.NoMemory result (required object_in key.now (table_view table.now)) }
{
    let value = required_member(alloc, table, key)?;
    valid_value(alloc, key, object_in(value))
}

/// The feedback, which only COMMAND_FAILURE has.
fn feedback_of(
    alloc: Global,
    table: &Table,
    algorithm: Algorithm,
) -> Result<Option<ObjectId>, ItemFault>
    ensures answer { Gives ItemFault.NoMemory result (feedback_of algorithm (table_view table.now)) }
{
    match algorithm {
        Algorithm::CommandFailure => Ok(Some(object_at(alloc, table, "feedback")?)),
        _ => Ok(None),
    }
}

/// A limit, which only UNSIGNED_RANGE has.
fn range_limit(
    alloc: Global,
    table: &Table,
    algorithm: Algorithm,
    key: &str,
) -> Result<u32, ItemFault>
    ensures answer { Gives ItemFault.NoMemory result (range_limit algorithm key.now (table_view table.now)) }
{
    match algorithm {
        Algorithm::UnsignedRange => unsigned(alloc, table, key, 0, u32::MAX),
        _ => Ok(0),
    }
}

/// What an enrollment watches, and by which algorithm.
#[derive(Clone, Copy)]
pub struct Watch {
    /// The algorithm.
    pub algorithm: Algorithm,
    /// The object whose value is monitored.
    pub monitored: ObjectId,
    /// The object whose value has to follow, of COMMAND_FAILURE.
    pub feedback: Option<ObjectId>,
    /// The low limit of UNSIGNED_RANGE, else 0.
    pub low: u32,
    /// The high limit of UNSIGNED_RANGE, else 0.
    pub high: u32,
}

/// What is watched, and by which algorithm.
#[tactic(auto, unfolding(crate::specs::Enrollments::watch_of))]
fn watch_of(alloc: Global, table: &Table) -> Result<Watch, ItemFault>
    ensures answer { Gives ItemFault.NoMemory result (watch_of (table_view table.now)) }
{
    let algorithm = algorithm(alloc, table)?;
    let monitored = object_at(alloc, table, "monitored")?;
    let feedback = feedback_of(alloc, table, algorithm)?;
    let low = range_limit(alloc, table, algorithm, "low")?;
    let high = range_limit(alloc, table, algorithm, "high")?;
    Ok(Watch {
        algorithm,
        monitored,
        feedback,
        low,
        high,
    })
}

/// The enrollment of a table, whose keys are all known.
#[tactic(auto, unfolding(crate::specs::Enrollments::enrollment_of))]
pub fn enrollment_of(alloc: Global, table: &Table) -> Result<EnrollmentSite, ItemFault>
    ensures answer { Gives ItemFault.NoMemory result (enrollment_of (table_view table.now)) }
{
    let instance = unsigned(alloc, table, "instance", 0, LAST_INSTANCE)?;
    let object = identifier(ObjectKind::EventEnrollment, instance);
    let name = name_or(alloc, table, object)?;
    let class = unsigned(alloc, table, "class", 0, LAST_INSTANCE)?;
    let watch = watch_of(alloc, table)?;
    let alarm = alarm_keys_of(alloc, table)?;
    let enable = alarm.enable;
    Ok(EnrollmentSite {
        object,
        name,
        class,
        algorithm: watch.algorithm,
        monitored: watch.monitored,
        feedback: watch.feedback,
        low: watch.low,
        high: watch.high,
        notify: alarm.notify,
        enable,
        time_delay: alarm.time_delay,
        time_delay_normal: alarm.time_delay_normal,
        detection: alarm.detection,
        inhibit: alarm.inhibit,
        inhibit_ref: alarm.inhibit_ref,
        texts: alarm.texts,
    })
}
