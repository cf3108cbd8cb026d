//! Enrollments, and objects that refer to others.

ghost use Rattle.std.specs.Prelude.{◌≡◌, ◌≤◌, All};
ghost use Rattle.std.specs.declared.cmp.Ordering.TheVariants.{Less};
ghost use Rattle.bac_values.specs.Orders.{identifier_order};
ghost use Rattle.object_table.specs.Objects.{IsObject};
ghost use Rattle.object_table.specs.Rows.{AscendsById};
ghost use Rattle.enrollment.specs.Enrollments.{AscendById, IsEnrollment};

use crate::comparing::{holds, same};
use algorithm_rules::{Algorithm, Snapshot, number_of as number_in};
use bac_values::{ObjectId, ObjectKind, PropertyId, Transition, Value};
use enrollment::*;
use object_table::{Change, ObjectSite, Table, What, WriteFault};
use sample_objects::{door, flow, follower, guard, level, mirror, mode, range};
use std::alloc::Global;
use std::process::Abort;
use std::test::Fail;

fn identifier(kind: ObjectKind, instance: u32) -> Result<ObjectId, Fail> {
    Ok(ObjectId::of_kind(kind, instance)?)
}

/// Two enrollments, at a site of whose value objects none is inhibited by another.
fn enrollments_of(
    alloc: Global,
    first: EnrollmentSite,
    second: EnrollmentSite,
) -> Result<Enrollments, Fail>
    requires first { IsEnrollment first }
    requires second { IsEnrollment second }
    requires order { identifier_order first.object second.object ≡ Less }
{
    Ok(Enrollments::new(alloc, vec![in alloc; first, second]?, &[])?)
}

/// A table of two objects.
fn table_of(alloc: Global, first: ObjectSite, second: ObjectSite) -> Result<Table, Fail>
    requires first { IsObject first }
    requires second { IsObject second }
    requires order { identifier_order first.object second.object ≡ Less }
{
    Ok(Table::new(alloc, vec![in alloc; first, second]?)?)
}

/// Whether an enrollment takes a value of Event_Algorithm_Inhibit.
fn takes(list: &Enrollments, instance: u32, value: Value) -> Result<bool, Fail> {
    let object = identifier(ObjectKind::EventEnrollment, instance)?;
    let property = PropertyId::EVENT_ALGORITHM_INHIBIT;
    let what = What::Property { property, value };
    Ok(list.takes(&Change { object, what }))
}

fn expect_taken(rt: &impl Abort, list: &Enrollments) -> Result<(), Fail> {
    same(rt, &takes(list, 1, Value::Bool(true))?, &true);
    same(rt, &takes(list, 1, Value::Unsigned(1))?, &false);
    same(rt, &takes(list, 3, Value::Bool(true))?, &false);
    Ok(())
}

#[test]
fn an_enrollment_that_is_there_takes_what_its_properties_can_be(
    rt: HostRuntime,
) -> Result<(), Fail> {
    let list = followers(rt.alloc())?;
    expect_taken(&rt, &list)
}

/// The number that a feedback is.
fn feedback_of(seen: &Snapshot<'_>) -> Option<i128> {
    match seen.feedback {
        Some(value) => number_in(value),
        None => None,
    }
}

/// Enrollments 1 and 2.
fn followers(alloc: Global) -> Result<Enrollments, Fail> {
    enrollments_of(alloc, follower(alloc)?, mirror(alloc)?)
}

/// The integer values 1 and 2.
fn levels(alloc: Global, first: i32, second: i32) -> Result<Table, Fail> {
    table_of(alloc, level(alloc, 1, first)?, level(alloc, 2, second)?)
}

/// The command is 12, and its feedback is -5.
fn expect_command(rt: &impl Abort, seen: &Snapshot<'_>) {
    same(rt, &number_in(seen.value), &Some(12));
    same(rt, &feedback_of(seen), &Some(-5));
    same(rt, &seen.algorithm, &Algorithm::CommandFailure);
    same(
        rt,
        &[seen.time_delay, seen.time_delay_normal.unwrap_or(0)],
        &[5, 8],
    );
    same(rt, &[seen.low, seen.high], &[0, 0]);
    same(rt, &seen.deadband, &0);
    holds(rt, seen.alarm_value.is_none());
    holds(rt, seen.alarm_values.is_empty());
}

fn expect_command_of(rt: &impl Abort, list: &Enrollments, table: &Table) -> Result<(), Fail> {
    let object = identifier(ObjectKind::EventEnrollment, 1)?;
    let Some(seen) = list.snapshot_of(table, object) else {
        return Err("no snapshot".into());
    };
    expect_command(rt, &seen);
    Ok(())
}

#[test]
fn an_enrollment_sees_the_values_of_its_objects(rt: HostRuntime) -> Result<(), Fail> {
    let table = levels(rt.alloc(), -5, 12)?;
    let list = followers(rt.alloc())?;
    expect_command_of(&rt, &list, &table)
}

/// Enrollment 2 sees -5, by both references.
fn expect_mirror_of(rt: &impl Abort, list: &Enrollments, table: &Table) -> Result<(), Fail> {
    let object = identifier(ObjectKind::EventEnrollment, 2)?;
    let Some(seen) = list.snapshot_of(table, object) else {
        return Err("no snapshot".into());
    };
    same(rt, &number_in(seen.value), &Some(-5));
    same(rt, &feedback_of(&seen), &Some(-5));
    Ok(())
}

#[test]
fn an_object_may_be_its_own_feedback(rt: HostRuntime) -> Result<(), Fail> {
    let table = levels(rt.alloc(), -5, 12)?;
    let list = followers(rt.alloc())?;
    expect_mirror_of(&rt, &list, &table)
}

/// Enrollments 2 and 3.
fn mirror_and_range(alloc: Global) -> Result<Enrollments, Fail> {
    enrollments_of(alloc, mirror(alloc)?, range(alloc)?)
}

/// Integer value 1, and positive integer value 1.
fn level_and_flow(alloc: Global) -> Result<Table, Fail> {
    table_of(alloc, level(alloc, 1, 0)?, flow(alloc)?)
}

/// A number of 90, with the limits of enrollment 3.
fn expect_range(rt: &impl Abort, seen: &Snapshot<'_>) {
    same(rt, &number_in(seen.value), &Some(90));
    holds(rt, seen.feedback.is_none());
    same(rt, &seen.algorithm, &Algorithm::UnsignedRange);
    same(rt, &[seen.low, seen.high], &[20, 80]);
    same(rt, &seen.limit_enable, &[true, true]);
    same(rt, &seen.time_delay, &3);
    holds(rt, seen.time_delay_normal.is_none());
}

fn expect_range_of(rt: &impl Abort, list: &Enrollments, table: &Table) -> Result<(), Fail> {
    let object = identifier(ObjectKind::EventEnrollment, 3)?;
    let Some(seen) = list.snapshot_of(table, object) else {
        return Err("no snapshot".into());
    };
    expect_range(rt, &seen);
    Ok(())
}

#[test]
fn a_range_has_limits_of_its_own(rt: HostRuntime) -> Result<(), Fail> {
    let table = level_and_flow(rt.alloc())?;
    let list = mirror_and_range(rt.alloc())?;
    expect_range_of(&rt, &list, &table)
}

/// A number of 90, with the limits of positive integer value 1.
fn expect_flow(rt: &impl Abort, seen: &Snapshot<'_>) {
    same(rt, &number_in(seen.value), &Some(90));
    holds(rt, seen.feedback.is_none());
    same(rt, &seen.algorithm, &Algorithm::UnsignedOutOfRange);
    same(rt, &[seen.low, seen.high], &[40, 60]);
    same(rt, &seen.deadband, &5);
    same(rt, &seen.limit_enable, &[true, false]);
    same(
        rt,
        &[seen.time_delay, seen.time_delay_normal.unwrap_or(0)],
        &[10, 20],
    );
}

fn expect_flow_of(rt: &impl Abort, list: &Enrollments, table: &Table) -> Result<(), Fail> {
    let object = identifier(ObjectKind::PositiveIntegerValue, 1)?;
    let Some(seen) = list.snapshot_of(table, object) else {
        return Err("no snapshot".into());
    };
    expect_flow(rt, &seen);
    Ok(())
}

#[test]
fn a_value_object_has_limits_of_its_own(rt: HostRuntime) -> Result<(), Fail> {
    let table = level_and_flow(rt.alloc())?;
    let list = mirror_and_range(rt.alloc())?;
    expect_flow_of(&rt, &list, &table)
}

/// Nothing is seen of this object.
fn expect_unseen(
    rt: &impl Abort,
    list: &Enrollments,
    table: &Table,
    kind: ObjectKind,
    instance: u32,
) -> Result<(), Fail> {
    let object = identifier(kind, instance)?;
    holds(rt, list.snapshot_of(table, object).is_none());
    Ok(())
}

fn expect_both_unseen(rt: &impl Abort, list: &Enrollments, table: &Table) -> Result<(), Fail> {
    expect_unseen(rt, list, table, ObjectKind::EventEnrollment, 1)?;
    expect_unseen(rt, list, table, ObjectKind::IntegerValue, 2)
}

#[test]
fn an_object_that_is_not_there_is_not_seen(rt: HostRuntime) -> Result<(), Fail> {
    let table = level_and_flow(rt.alloc())?;
    let list = mirror_and_range(rt.alloc())?;
    expect_both_unseen(&rt, &list, &table)
}

/// The numbers of the reliabilities of enrollments 1 and 2 and of integer values 1 and 2.
fn four_numbers(list: &Enrollments, table: &Table) -> Result<[u8; 4], Fail> {
    Ok([
        number_of(list, table, ObjectKind::EventEnrollment, 1)?,
        number_of(list, table, ObjectKind::EventEnrollment, 2)?,
        number_of(list, table, ObjectKind::IntegerValue, 1)?,
        number_of(list, table, ObjectKind::IntegerValue, 2)?,
    ])
}

/// One of the integer values has a field fault.
fn faulty(table: &mut Table, instance: u32, fault: u32) -> Result<(), Fail> {
    let change = table.check_fault(identifier(ObjectKind::IntegerValue, instance)?, fault)?;
    let _ = table.apply(change);
    Ok(())
}

/// The numbers of the reliabilities of two enrollments and of two integer values, with a field fault of one of these.
fn reliabilities(alloc: Global, instance: u32, fault: u32) -> Result<[u8; 4], Fail> {
    let mut table = levels(alloc, 0, 0)?;
    faulty(&mut table, instance, fault)?;
    let list = followers(alloc)?;
    four_numbers(&list, &table)
}

fn number_of(
    list: &Enrollments,
    table: &Table,
    kind: ObjectKind,
    instance: u32,
) -> Result<u8, Fail> {
    Ok(
        list.reliability_of(table, identifier(kind, instance)?)
            .number(),
    )
}

#[test]
fn a_fault_of_either_object_is_a_fault(rt: HostRuntime) -> Result<(), Fail> {
    // Integer value 1 is the feedback of the first, and both objects of the second.
    same(&rt, &reliabilities(rt.alloc(), 1, 0)?, &[0, 0, 0, 0]);
    same(&rt, &reliabilities(rt.alloc(), 1, 7)?, &[14, 14, 7, 0]);
    same(&rt, &reliabilities(rt.alloc(), 2, 12)?, &[14, 0, 0, 12]);
    Ok(())
}

/// The numbers of the reliabilities of two enrollments, of which the second monitors an object that isn't in the table,
/// and of another object that isn't.
fn three_numbers(list: &Enrollments, table: &Table) -> Result<[u8; 3], Fail> {
    Ok([
        number_of(list, table, ObjectKind::EventEnrollment, 1)?,
        number_of(list, table, ObjectKind::EventEnrollment, 3)?,
        number_of(list, table, ObjectKind::IntegerValue, 3)?,
    ])
}

fn reliabilities_beside_the_table(alloc: Global) -> Result<[u8; 3], Fail> {
    let table = levels(alloc, 0, 0)?;
    let list = mirror_and_range(alloc)?;
    three_numbers(&list, &table)
}

#[test]
fn an_object_that_is_not_there_has_no_fault(rt: HostRuntime) -> Result<(), Fail> {
    same(
        &rt,
        &reliabilities_beside_the_table(rt.alloc())?,
        &[0, 0, 0],
    );
    Ok(())
}

#[test]
fn a_monitored_object_that_is_not_there_is_not_seen(rt: HostRuntime) -> Result<(), Fail> {
    let table = levels(rt.alloc(), 0, 0)?;
    let list = mirror_and_range(rt.alloc())?;
    expect_unseen(&rt, &list, &table, ObjectKind::EventEnrollment, 3)
}

/// The instances of those that refer to an object, as digits.
fn watching(list: &Enrollments, kind: ObjectKind, instance: u32) -> Result<u64, Fail> {
    let mut digits: u64 = 0;
    for watcher in list.watchers_of(identifier(kind, instance)?) {
        digits = digits
            .wrapping_mul(10)
            .wrapping_add(u64::from(watcher.instance()));
    }
    Ok(digits)
}

/// Those that refer to an object are these.
fn expect_watching(
    rt: &impl Abort,
    list: &Enrollments,
    kind: ObjectKind,
    instance: u32,
    digits: u64,
) -> Result<(), Fail> {
    same(
        rt,
        &(instance, watching(list, kind, instance)?),
        &(instance, digits),
    );
    Ok(())
}

fn expect_followers(rt: &impl Abort, list: &Enrollments) -> Result<(), Fail> {
    expect_watching(rt, list, ObjectKind::IntegerValue, 1, 12)?;
    expect_watching(rt, list, ObjectKind::IntegerValue, 2, 1)?;
    expect_watching(rt, list, ObjectKind::IntegerValue, 0, 0)?;
    expect_watching(rt, list, ObjectKind::IntegerValue, 3, 0)?;
    expect_watching(rt, list, ObjectKind::PositiveIntegerValue, 1, 0)?;
    expect_watching(rt, list, ObjectKind::EventEnrollment, 1, 0)
}

fn expect_mirror_and_range(rt: &impl Abort, list: &Enrollments) -> Result<(), Fail> {
    expect_watching(rt, list, ObjectKind::IntegerValue, 1, 2)?;
    expect_watching(rt, list, ObjectKind::PositiveIntegerValue, 1, 3)
}

#[test]
fn each_that_refers_is_told_once_in_order(rt: HostRuntime) -> Result<(), Fail> {
    let list = followers(rt.alloc())?;
    expect_followers(&rt, &list)
}

#[test]
fn those_that_refer_to_other_objects_are_not_told(rt: HostRuntime) -> Result<(), Fail> {
    let list = mirror_and_range(rt.alloc())?;
    expect_mirror_and_range(&rt, &list)
}

#[test]
fn nobody_refers_where_there_are_no_enrollments(rt: HostRuntime) -> Result<(), Fail> {
    let none = Enrollments::new(rt.alloc(), Vec::new(rt.alloc()), &[])?;
    holds(&rt, none.rows().is_empty());
    expect_watching(&rt, &none, ObjectKind::IntegerValue, 1, 0)
}

#[test]
fn an_enrollment_has_seventeen_properties(rt: HostRuntime) {
    let mut count: u32 = 0;
    for number in 0..400 {
        if EnrollmentProperty::of_number(number).is_some() {
            count = count.wrapping_add(1);
        }
    }
    same(&rt, &count, &17);
    same(
        &rt,
        &EnrollmentProperty::of_number(37),
        &Some(EnrollmentProperty::EventType),
    );
    same(
        &rt,
        &EnrollmentProperty::EventTimeStamps.array_length(),
        &Some(3),
    );
    same(
        &rt,
        &EnrollmentProperty::AckedTransitions.array_length(),
        &None,
    );
}

#[test]
fn each_kind_has_its_algorithm(rt: HostRuntime) {
    let algorithms = [
        algorithm_of(Some(ObjectKind::BinaryValue)),
        algorithm_of(Some(ObjectKind::MultiStateValue)),
        algorithm_of(Some(ObjectKind::BitStringValue)),
        algorithm_of(Some(ObjectKind::CharacterStringValue)),
        algorithm_of(Some(ObjectKind::IntegerValue)),
        algorithm_of(Some(ObjectKind::PositiveIntegerValue)),
    ];
    let wanted = [
        Algorithm::ChangeOfState,
        Algorithm::ChangeOfState,
        Algorithm::ChangeOfBitstring,
        Algorithm::ChangeOfCharacterstring,
        Algorithm::SignedOutOfRange,
        Algorithm::UnsignedOutOfRange,
    ];
    same(&rt, &algorithms, &wanted);
}

/// Value objects and enrollments together.
#[tactic(auto, using(enrollment::proofs::Referrers::known_at_first))]
fn together(
    alloc: Global,
    objects: Vec<ObjectSite>,
    enrollments: Vec<EnrollmentSite>,
) -> Result<Objects, Fail>
    requires objects_ascend { AscendsById objects.items }
    requires objects { All IsObject objects.items }
    requires enrollments_ascend { AscendById enrollments.items }
    requires enrollments { All IsEnrollment enrollments.items }
{
    let enrollments = Enrollments::new(alloc, enrollments, &objects)?;
    Ok(Objects::new(Table::new(alloc, objects)?, enrollments))
}

/// Two value objects and two enrollments together.
fn four_together(
    alloc: Global,
    first: ObjectSite,
    second: ObjectSite,
    watcher: EnrollmentSite,
    other: EnrollmentSite,
) -> Result<Objects, Fail>
    requires first { IsObject first }
    requires second { IsObject second }
    requires objects { identifier_order first.object second.object ≡ Less }
    requires watcher { IsEnrollment watcher }
    requires other { IsEnrollment other }
    requires enrollments { identifier_order watcher.object other.object ≡ Less }
{
    let objects = vec![in alloc; first, second]?;
    let enrollments = vec![in alloc; watcher, other]?;
    together(alloc, objects, enrollments)
}

/// Integer value 1, positive integer value 1, and enrollments 2 and 3.
fn all_objects(alloc: Global) -> Result<Objects, Fail> {
    let (level, flow) = (level(alloc, 1, 0)?, flow(alloc)?);
    four_together(alloc, level, flow, mirror(alloc)?, range(alloc)?)
}

/// Whether an object is detected and tells of TO_FAULT, if it is there.
fn detection(
    objects: &Objects,
    kind: ObjectKind,
    instance: u32,
) -> Result<Option<[bool; 2]>, Fail> {
    match objects.subject(identifier(kind, instance)?) {
        Some(subject) => Ok(Some([
            subject.is_detecting(),
            subject.is_enabled(Transition::ToFault),
        ])),
        None => Ok(None),
    }
}

fn expect_detection(rt: &impl Abort, objects: &Objects) -> Result<(), Fail> {
    same(
        rt,
        &detection(objects, ObjectKind::EventEnrollment, 3)?,
        &Some([true, true]),
    );
    same(
        rt,
        &detection(objects, ObjectKind::IntegerValue, 1)?,
        &Some([false, false]),
    );
    same(rt, &detection(objects, ObjectKind::IntegerValue, 9)?, &None);
    Ok(())
}

#[test]
fn an_object_without_a_class_is_not_detected(rt: HostRuntime) -> Result<(), Fail> {
    expect_detection(&rt, &all_objects(rt.alloc())?)
}

/// Whether enrollment 2 is inhibited: before a write, after it, and after it was taken back.
fn inhibitions(objects: &mut Objects) -> Result<[bool; 3], Fail> {
    let mirror = identifier(ObjectKind::EventEnrollment, 2)?;
    let before = objects.is_inhibited(mirror);
    let property = PropertyId::EVENT_ALGORITHM_INHIBIT;
    let change = objects
        .enrollments()
        .check_write(mirror, property, None, &Value::Bool(false))?;
    let back = objects.apply(change);
    let after = objects.is_inhibited(mirror);
    let _ = objects.apply(back);
    Ok([before, after, objects.is_inhibited(mirror)])
}

#[test]
fn a_write_among_all_objects_is_taken_back(rt: HostRuntime) -> Result<(), Fail> {
    let mut objects = all_objects(rt.alloc())?;
    same(&rt, &inhibitions(&mut objects)?, &[true, false, true]);
    Ok(())
}

/// The numbers of the types in the order of the objects.
fn types(alloc: Global, objects: &Objects) -> Result<Vec<u32>, Fail> {
    let level = level(alloc, 1, 0)?;
    let sites = vec![in alloc; level]?;
    let mut types = Vec::new(alloc);
    for subject in subjects_of(alloc, &sites, objects.enrollments().rows())?.iter() {
        types.push(u32::from(subject.object.number()))?;
    }
    Ok(types)
}

#[test]
fn enrollments_stand_before_types_of_higher_numbers(rt: HostRuntime) -> Result<(), Fail> {
    let objects = all_objects(rt.alloc())?;
    let types = types(rt.alloc(), &objects)?;
    holds(&rt, types.as_slice() == &[9, 9, 45][..]);
    Ok(())
}

/// Binary value 1, which is active or not, binary value 2 and enrollment 4, which it inhibits, and enrollment 2.
fn inhibited(alloc: Global, number: u32) -> Result<Objects, Fail>
    requires value { number ≤ 1 }
{
    let (mode, door) = (mode(alloc, number)?, door(alloc)?);
    four_together(alloc, mode, door, mirror(alloc)?, guard(alloc)?)
}

/// Those that look at binary value 1 are the door and the enrollment that refers to it three times, once.
fn expect_inhibited_watching(rt: &impl Abort, objects: &Objects) -> Result<(), Fail> {
    let mode = identifier(ObjectKind::BinaryValue, 1)?;
    let door = identifier(ObjectKind::BinaryValue, 2)?;
    let guard = identifier(ObjectKind::EventEnrollment, 4)?;
    holds(rt, objects.watchers_of(mode) == &[door, guard][..]);
    expect_watching(rt, objects.enrollments(), ObjectKind::BinaryValue, 2, 0)?;
    expect_watching(rt, objects.enrollments(), ObjectKind::IntegerValue, 1, 2)
}

#[test]
fn those_that_an_object_inhibits_are_told_once(rt: HostRuntime) -> Result<(), Fail> {
    expect_inhibited_watching(&rt, &inhibited(rt.alloc(), 0)?)
}

/// Whether the door, enrollment 4 and enrollment 2 are inhibited.
fn which_are_inhibited(objects: &Objects) -> Result<[bool; 3], Fail> {
    let door = identifier(ObjectKind::BinaryValue, 2)?;
    let guard = identifier(ObjectKind::EventEnrollment, 4)?;
    let mirror = identifier(ObjectKind::EventEnrollment, 2)?;
    Ok([
        objects.is_inhibited(door),
        objects.is_inhibited(guard),
        objects.is_inhibited(mirror),
    ])
}

#[test]
fn an_active_value_inhibits_those_that_refer_to_it(rt: HostRuntime) -> Result<(), Fail> {
    let quiet = inhibited(rt.alloc(), 1)?;
    same(&rt, &which_are_inhibited(&quiet)?, &[true, true, true]);
    let loud = inhibited(rt.alloc(), 0)?;
    same(&rt, &which_are_inhibited(&loud)?, &[false, false, true]);
    Ok(())
}

/// What a write of Event_Algorithm_Inhibit of the door is answered.
fn denied(objects: &Objects, value: &Value) -> Result<Option<WriteFault>, Fail> {
    let door = identifier(ObjectKind::BinaryValue, 2)?;
    let property = PropertyId::EVENT_ALGORITHM_INHIBIT;
    match objects.table().check_write(door, property, None, value) {
        Ok(_change) => Ok(None),
        Err(fault) => Ok(Some(fault)),
    }
}

#[test]
fn a_reference_denies_a_write_of_inhibition(rt: HostRuntime) -> Result<(), Fail> {
    let objects = inhibited(rt.alloc(), 0)?;
    let wanted = Some(WriteFault::WRITE_ACCESS_DENIED);
    same(&rt, &denied(&objects, &Value::Bool(true))?, &wanted);
    same(&rt, &denied(&objects, &Value::Unsigned(1))?, &wanted);
    Ok(())
}

/// The length of the text with which a transition of the door is told, if there is one.
fn told(objects: &Objects, transition: Transition) -> Result<Option<usize>, Fail> {
    let door = identifier(ObjectKind::BinaryValue, 2)?;
    match objects.message_text(door, transition) {
        Some(text) => Ok(Some(text.octets().len())),
        None => Ok(None),
    }
}

#[test]
fn a_transition_is_told_with_its_text(rt: HostRuntime) -> Result<(), Fail> {
    let objects = inhibited(rt.alloc(), 0)?;
    same(&rt, &told(&objects, Transition::ToOffnormal)?, &Some(16));
    same(&rt, &told(&objects, Transition::ToFault)?, &None);
    same(&rt, &told(&objects, Transition::ToNormal)?, &Some(18));
    let mode = identifier(ObjectKind::BinaryValue, 1)?;
    holds(&rt, objects.message_texts(mode).is_empty());
    Ok(())
}
