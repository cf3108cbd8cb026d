//! A snapshot is read, and a core made of it.

ghost use Rattle.std.specs.Prelude.{◌≡◌, ◌++◌, ◌⊎◌, ℕ, All, IfErr, IfOk, IsOkAnd, OnOk, Some};
ghost use Rattle.std.specs.List.{AllZip};
ghost use Rattle.object_table.specs.Objects.{IsRow};
ghost use Rattle.alarm_core.specs.Sites.{IsSite};
ghost use Rattle.alarm_core.specs.State.{CoreState};
ghost use Rattle.alarm_core.specs.Parts.{ArePartsOf, state_of_parts};
ghost use Rattle.enrollment.specs.Enrollments.{AscendById, IsEnrollment};
ghost use Rattle.enrollment.specs.References.{enrollments_in};
ghost use Rattle.state_codec.specs.ReadingSteps.{Gives};
ghost use Rattle.state_codec.specs.SnapshotLaws.{HasRow};
ghost use Rattle.state_codec.specs.SnapshotSteps.{GivesParts, GivesState, alarm_parts_at, each_at, events_at, head_at, last_moment_at, leave_room, parts_at, parts_in, row_at, site_classes_at, version_at};
ghost use Rattle.state_codec.specs.Spelled.{SpellsNothing, SpellsState};

use crate::CodecFault;
use crate::parts::{take_octet, take_u64};
use crate::reading::ReadFault;
use crate::reading_lists::{take_classes, take_rows};
use crate::reading_outbox::take_outbox;
use crate::reading_site::{
    object_subjects, take_alarms, take_all_enrolled, take_logs, those_before, those_behind,
};
use crate::types::octets_fit;
use crate::writing_state::{has_rule, version_of};
use alarm_core::{
    Core, EnrollmentSite, Parts, Site, leave_room, restores_what_it_tells, site_zone,
};
use bac_values::{FIRST_MOMENT, Items, LAST_MOMENT, MOST_EVENTS, NoMemory};
use enrollment::{Enrollments, copy_of_enrollments};
use event_machine::Alarm;
use notify_class::Class;
use object_table::{Table, copy_of_objects};
use outbox::tests_posts;
use std::alloc::Global;

/// Takes the version of the site's snapshots.
#[tactic(auto, unfolding(crate::specs::SnapshotSteps::version_at))]
fn take_version(site: &Site, bytes: &mut &[u8]) -> Result<u8, ReadFault>
    ensures exact { Gives (λ x. (x, bytes.new.now)) result (version_at site.now bytes.old.now) }
{
    let version = take_octet(bytes)?;
    if version == version_of(site) {
        Ok(version)
    } else {
        Err(ReadFault::NothingThere)
    }
}

/// Takes how many events there were.
#[tactic(auto, unfolding(crate::specs::SnapshotSteps::events_at))]
fn take_events(bytes: &mut &[u8]) -> Result<u64, ReadFault>
    ensures exact { Gives (λ x. (x, bytes.new.now)) result (events_at bytes.old.now) }
{
    let events = take_u64(bytes)?;
    if events < MOST_EVENTS {
        Ok(events)
    } else {
        Err(ReadFault::NothingThere)
    }
}

/// Takes the moment of the last event: in range, and not before the site's start.
#[tactic(auto, unfolding(crate::specs::SnapshotSteps::last_moment_at))]
fn take_last_moment(site: &Site, bytes: &mut &[u8]) -> Result<u64, ReadFault>
    ensures exact { Gives (λ x. (x, bytes.new.now)) result (last_moment_at site.now bytes.old.now) }
{
    let moment = take_u64(bytes)?;
    if FIRST_MOMENT <= moment && moment <= LAST_MOMENT && site.device.start <= moment {
        Ok(moment)
    } else {
        Err(ReadFault::NothingThere)
    }
}

/// Takes the version, how many events there were, and the moment of the last.
#[tactic(auto, unfolding(crate::specs::SnapshotSteps::head_at))]
fn take_head(site: &Site, bytes: &mut &[u8]) -> Result<(u8, (u64, u64)), ReadFault>
    ensures exact { Gives (λ x. (x, bytes.new.now)) result (head_at site.now bytes.old.now) }
{
    let version = take_version(site, bytes)?;
    let events = take_events(bytes)?;
    let last_moment = take_last_moment(site, bytes)?;
    Ok((version, (events, last_moment)))
}

/// Takes the table of the value objects of a site.
fn take_table(alloc: Global, site: &Site, bytes: &mut &[u8]) -> Result<Table, ReadFault>
    requires site { IsSite site.now }
    ensures exact { Gives (λ x. (x, bytes.new.now)) result (each_at row_at site.now.objects bytes.old.now) }
    ensures allowed { IfOk result (λ x. All IsRow x) }
    ensures own { IfOk result (λ x. AllZip HasRow site.now.objects x) }
{
    octets_fit(*bytes);
    let sites = copy_of_objects(alloc, site.objects.as_slice())?;
    let rows = take_rows(alloc, sites, bytes)?;
    Ok(Table::restore(rows))
}

/// Adds others behind some.
fn add_all(alarms: &mut Vec<Alarm>, others: Vec<Alarm>) -> Result<(), NoMemory>
    ensures added { OnOk result (alarms.new.items ≡ alarms.old.items ++ others.items) }
{
    let mut others = others;
    match alarms.append(&mut others) {
        Ok(()) => Ok(()),
        Err(_) => Err(NoMemory),
    }
}

/// Takes the alarms of a site, by ascending identifier, and its enrollments.
#[tactic(auto, unfolding(crate::specs::SnapshotSteps::alarm_parts_at, crate::specs::SnapshotSteps::all_alarms_at), using(crate::proofs::Pairs::firsts, crate::proofs::Pairs::seconds))]
fn take_alarm_parts(
    alloc: Global,
    site: &Site,
    table: &Table,
    last: u64,
    bytes: &mut &[u8],
) -> Result<(Vec<Alarm>, Vec<EnrollmentSite>), ReadFault>
    requires site { IsSite site.now }
    ensures exact { Gives (λ x. ((x.0.items, x.1.items), bytes.new.now)) result (alarm_parts_at site.now table.now last bytes.old.now) }
{
    let subjects = object_subjects(alloc, site)?;
    let before = those_before(alloc, &subjects)?;
    let behind = those_behind(alloc, &subjects)?;
    let sites = copy_of_enrollments(alloc, site.enrollments.as_slice())?;
    let mut alarms = take_alarms(alloc, table, last, &before, bytes)?;
    let (own, enrollments) = take_all_enrolled(alloc, table, last, sites, bytes)?;
    let mut others = own;
    add_all(
        &mut others,
        take_alarms(alloc, table, last, &behind, bytes)?,
    )?;
    add_all(&mut alarms, others)?;
    Ok((alarms, enrollments))
}

/// The enrollments of a site with what was read of them, beside its value objects with what was read of these.
#[tactic(auto, using(crate::proofs::Referrers::known_as_read))]
fn restored(
    alloc: Global,
    site: &Site,
    table: &Table,
    enrollments: Vec<EnrollmentSite>,
) -> Result<Enrollments, ReadFault>
    requires site { IsSite site.now }
    requires own { AllZip HasRow site.now.objects table.now }
    requires ascending { AscendById enrollments.items }
    requires allowed { All IsEnrollment enrollments.items }
    ensures exact { Gives (λ x. x) result (Some (enrollments_in (record { rows = table.now; enrollments = enrollments.items }))) }
{
    match Enrollments::new(alloc, enrollments, site.objects.as_slice()) {
        Ok(enrollments) => Ok(enrollments),
        Err(_) => Err(ReadFault::NoMemory),
    }
}

/// Takes the alarms of a site, by ascending identifier, and its enrollments, where its rows are those of value objects.
fn take_detecting(
    alloc: Global,
    site: &Site,
    table: &Table,
    last: u64,
    bytes: &mut &[u8],
) -> Result<(Vec<Alarm>, Enrollments), ReadFault>
    requires site { IsSite site.now }
    requires allowed { All IsRow table.now }
    requires own { AllZip HasRow site.now.objects table.now }
    ensures exact { Gives (λ x. ((x.0.items, x.1.sites), bytes.new.now)) result (alarm_parts_at site.now table.now last bytes.old.now) }
    ensures references { IfOk result (λ x. x.1 ≡ enrollments_in (record { rows = table.now; enrollments = x.1.sites })) }
{
    octets_fit(*bytes);
    let (alarms, enrollments) = take_alarm_parts(alloc, site, table, last, bytes)?;
    let enrollments = restored(alloc, site, table, enrollments)?;
    Ok((alarms, enrollments))
}

/// Whether the lists of a site's classes leave room in its outbox.
#[tactic(auto, using(crate::proofs::PostsOf::room_same))]
fn have_room(site: &Site, classes: &[Class]) -> bool
    ensures exact { result ≡ leave_room site.now classes.now }
{
    leave_room(site, classes)
}

/// Takes the classes of a site, with lists that leave room in its outbox.
#[tactic(auto, unfolding(crate::specs::SnapshotSteps::site_classes_at))]
fn take_site_classes(alloc: Global, site: &Site, bytes: &mut &[u8]) -> Result<Vec<Class>, ReadFault>
    ensures exact { Gives (λ x. (x.items, bytes.new.now)) result (site_classes_at site.now bytes.old.now) }
{
    let classes = take_classes(alloc, site.classes.as_slice(), bytes)?;
    if have_room(site, &classes) {
        Ok(classes)
    } else {
        Err(ReadFault::NothingThere)
    }
}

/// Takes the parts of a core of a site.
#[tactic(auto, unfolding(crate::specs::SnapshotSteps::parts_at, crate::specs::SnapshotSteps::snapshot_at, crate::specs::SnapshotSteps::rest_at))]
fn take_parts(alloc: Global, site: &Site, bytes: &mut &[u8]) -> Result<Parts, ReadFault>
    requires site { IsSite site.now }
    ensures exact { Gives (λ x. (x, bytes.new.now)) result (parts_at site.now bytes.old.now) }
{
    let (_, (events, last_moment)) = take_head(site, bytes)?;
    let table = take_table(alloc, site, bytes)?;
    let (alarms, enrollments) = take_detecting(alloc, site, &table, last_moment, bytes)?;
    let classes = take_site_classes(alloc, site, bytes)?;
    let zone = site_zone(site);
    let logs = take_logs(alloc, has_rule(site), &zone, site.logs.as_slice(), bytes)?;
    let outbox = take_outbox(alloc, site, &classes, bytes)?;
    Ok(Parts {
        events,
        last_moment,
        table,
        enrollments,
        alarms: Items::of(alarms),
        classes: Items::of(classes),
        logs: Items::of(logs),
        outbox,
    })
}

/// The parts of a core of a site that octets tell, with nothing behind them.
fn parts_in(alloc: Global, site: &Site, bytes: &[u8]) -> Result<Parts, CodecFault>
    requires site { IsSite site.now }
    ensures exact { GivesParts result (parts_in site.now bytes.now) }
{
    let mut rest = bytes;
    match take_parts(alloc, site, &mut rest) {
        Ok(parts) => {
            if rest.is_empty() {
                Ok(parts)
            } else {
                Err(CodecFault::Malformed { at: 0 })
            }
        }
        Err(ReadFault::NothingThere) => Err(CodecFault::Malformed { at: 0 }),
        Err(ReadFault::NoMemory) => Err(CodecFault::NoMemory),
    }
}

/// A core of a site with the parts that octets tell.
fn restore(alloc: Global, site: &Site, parts: Parts) -> Result<Core, CodecFault>
    requires site { IsSite site.now }
    requires parts { ArePartsOf site.now parts }
    ensures restored { IfOk result (λ core. core ≡ state_of_parts site.now parts) }
    ensures memory { IfErr result (λ fault. fault ≡ CodecFault.NoMemory) }
{
    match Core::restore(alloc, site, parts) {
        Ok(core) => Ok(core),
        Err(_) => Err(CodecFault::NoMemory),
    }
}

/// The core of a site that octets tell.
fn state_in(alloc: Global, site: &Site, bytes: &[u8]) -> Result<Core, CodecFault>
    requires site { IsSite site.now }
    ensures exact { GivesState site.now bytes.now result }
{
    tests_posts();
    let parts = parts_in(alloc, site, bytes)?;
    restore(alloc, site, parts)
}

/// The core of a site whose snapshot the octets are. It goes on as the one of which the snapshot was written.
pub fn read_state(alloc: Global, site: &Site, bytes: &[u8]) -> Result<Core, CodecFault>
    requires site { IsSite site.now }
    // The octets are the snapshot of what is answered.
    ensures found { IfOk result (λ core. SpellsState site.now bytes.now core) }
    // The state of which they are the snapshot is answered, or memory is refused.
    ensures only { (state : CoreState) → SpellsState site.now bytes.now state → IsOkAnd result (λ core. core ≡ state) ⊎ (result ≡ Err CodecFault.NoMemory) }
    // Malformed comes only where they are the snapshot of no state of the site; where that is so, it comes, or memory is refused.
    ensures refused { (place : ℕ) → result ≡ Err (CodecFault.Malformed place) → (place ≡ 0) × SpellsNothing site.now bytes.now }
    ensures nothing { SpellsNothing site.now bytes.now → (result ≡ Err (CodecFault.Malformed 0)) ⊎ (result ≡ Err CodecFault.NoMemory) }
{
    tests_posts();
    restores_what_it_tells();
    state_in(alloc, site, bytes)
}
