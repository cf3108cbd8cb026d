//! Enrollments with which tests begin.

ghost use Rattle.std.specs.Prelude.{◌≡◌, [], IfOk, None, false, length};
ghost use Rattle.bac_values.specs.Identifier.{number_of_kind};
ghost use Rattle.bac_values.specs.declared.object_kind.ObjectKind.TheVariants.{EventEnrollment};
ghost use Rattle.enrollment.specs.Enrollments.{IsEnrollment};

use algorithm_rules::Algorithm;
use bac_values::{Items, ObjectId, ObjectKind, Text};
use enrollment::EnrollmentSite;
use std::alloc::Global;
use std::test::Fail;

/// An enrollment of class 7, of which each transition is told at once, as an alarm, without limits, texts and a reference
/// that inhibits it.
pub fn watching(
    alloc: Global,
    object: ObjectId,
    name: Text,
    algorithm: Algorithm,
    monitored: ObjectId,
    feedback: Option<ObjectId>,
) -> EnrollmentSite
    ensures object { result.object ≡ object }
    ensures class { result.class ≡ 7 }
    ensures algorithm { result.algorithm ≡ algorithm }
    ensures monitored { result.monitored ≡ monitored }
    ensures feedback { result.feedback ≡ feedback }
    ensures low { result.low ≡ 0 }
    ensures high { result.high ≡ 0 }
    ensures notify { result.notify ≡ 0 }
    ensures enable { length result.enable ≡ 3 }
    ensures inhibit { result.inhibit ≡ false }
    ensures inhibit_ref { result.inhibit_ref ≡ None }
    ensures texts { result.texts ≡ [] }
{
    EnrollmentSite {
        object,
        name,
        class: 7,
        algorithm,
        monitored,
        feedback,
        low: 0,
        high: 0,
        notify: 0,
        enable: [true, true, true],
        time_delay: 0,
        time_delay_normal: None,
        detection: true,
        inhibit: false,
        inhibit_ref: None,
        texts: Items::of(Vec::new(alloc)),
    }
}

/// Enrollment 1: COMMAND_FAILURE of integer value 2, whose feedback is integer value 1. TO_NORMAL isn't told, and both
/// delays are given.
pub fn follower(alloc: Global) -> Result<EnrollmentSite, Fail>
    ensures allowed { IfOk result (λ site. IsEnrollment site) }
    ensures identifier { IfOk result (λ site. site.object ≡ record { number = number_of_kind EventEnrollment; instance = 1 }) }
    ensures class { IfOk result (λ site. site.class ≡ 7) }
{
    let object = ObjectId::of_kind(ObjectKind::EventEnrollment, 1)?;
    let name = Text::new(alloc, "Follower")?;
    let monitored = ObjectId::of_kind(ObjectKind::IntegerValue, 2)?;
    let feedback = ObjectId::of_kind(ObjectKind::IntegerValue, 1)?;
    let mut site = watching(
        alloc,
        object,
        name,
        Algorithm::CommandFailure,
        monitored,
        Some(feedback),
    );
    site.enable = [true, true, false];
    site.time_delay = 5;
    site.time_delay_normal = Some(8);
    Ok(site)
}

/// Enrollment 2: COMMAND_FAILURE of integer value 1, which is its own feedback. It is inhibited, and its notifications are
/// events.
pub fn mirror(alloc: Global) -> Result<EnrollmentSite, Fail>
    ensures allowed { IfOk result (λ site. IsEnrollment site) }
    ensures identifier { IfOk result (λ site. site.object ≡ record { number = number_of_kind EventEnrollment; instance = 2 }) }
    ensures class { IfOk result (λ site. site.class ≡ 7) }
{
    let object = ObjectId::of_kind(ObjectKind::EventEnrollment, 2)?;
    let name = Text::new(alloc, "Mirror")?;
    let level = ObjectId::of_kind(ObjectKind::IntegerValue, 1)?;
    let mut site = watching(
        alloc,
        object,
        name,
        Algorithm::CommandFailure,
        level,
        Some(level),
    );
    site.notify = 1;
    site.inhibit = true;
    Ok(site)
}

/// Enrollment 3: UNSIGNED_RANGE of positive integer value 1, with limits 20 and 80, and a delay of three seconds.
pub fn range(alloc: Global) -> Result<EnrollmentSite, Fail>
    ensures allowed { IfOk result (λ site. IsEnrollment site) }
    ensures identifier { IfOk result (λ site. site.object ≡ record { number = number_of_kind EventEnrollment; instance = 3 }) }
    ensures class { IfOk result (λ site. site.class ≡ 7) }
{
    let object = ObjectId::of_kind(ObjectKind::EventEnrollment, 3)?;
    let name = Text::new(alloc, "Range")?;
    let flow = ObjectId::of_kind(ObjectKind::PositiveIntegerValue, 1)?;
    let mut site = watching(alloc, object, name, Algorithm::UnsignedRange, flow, None);
    site.low = 20;
    site.high = 80;
    site.time_delay = 3;
    Ok(site)
}

/// Enrollment 4: COMMAND_FAILURE of binary value 1, which is its own feedback, and which inhibits it.
pub fn guard(alloc: Global) -> Result<EnrollmentSite, Fail>
    ensures allowed { IfOk result (λ site. IsEnrollment site) }
    ensures identifier { IfOk result (λ site. site.object ≡ record { number = number_of_kind EventEnrollment; instance = 4 }) }
    ensures class { IfOk result (λ site. site.class ≡ 7) }
{
    let object = ObjectId::of_kind(ObjectKind::EventEnrollment, 4)?;
    let name = Text::new(alloc, "Guard")?;
    let mode = ObjectId::of_kind(ObjectKind::BinaryValue, 1)?;
    let mut site = watching(
        alloc,
        object,
        name,
        Algorithm::CommandFailure,
        mode,
        Some(mode),
    );
    site.inhibit_ref = Some(mode);
    Ok(site)
}
