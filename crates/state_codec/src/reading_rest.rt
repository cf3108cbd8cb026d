//! Enrollments, classes and records of logs are read.

ghost use Rattle.std.specs.Prelude.{◌≡◌, Some};
ghost use Rattle.state_codec.specs.ReadingSteps.{Gives};
ghost use Rattle.state_codec.specs.SnapshotSteps.{body_at, class_at, enrollment_at, entry_at, hundredths_at, may_hold, note_at};
ghost use Rattle.alarm_core.specs.SiteStates.{hundredths_shown};
ghost use Rattle.event_log.specs.Log.{number_back};

use crate::destination::take_destinations;
use crate::parts::{take_flag, take_flags, take_octets, take_u16, take_u64};
use crate::reading::ReadFault;
use crate::reading_alarms::take_stamp;
use crate::reading_keys::take_kept_flag;
use bac_values::{Items, MOST_NOTE_OCTETS, Note, Peer, Stamp};
use civil_stamp::{Zone, hundredths_of};
use enrollment::EnrollmentSite;
use event_log::LogRecord;
use notify_class::Class;
use std::alloc::Global;

/// Takes Event_Algorithm_Inhibit and Event_Enable of an enrollment; the first isn't set where another object inhibits it.
#[tactic(auto, unfolding(crate::specs::SnapshotSteps::enrollment_at))]
pub(crate) fn take_enrollment(
    mut site: EnrollmentSite,
    bytes: &mut &[u8],
) -> Result<EnrollmentSite, ReadFault>
    ensures exact { Gives (λ x. (x, bytes.new.now)) result (enrollment_at site bytes.old.now) }
{
    let inhibit = take_kept_flag(site.inhibit_ref.is_none(), bytes)?;
    let enable = take_flags(bytes)?;
    site.inhibit = inhibit;
    site.enable = enable;
    Ok(site)
}

/// Takes the recipients of a class.
#[tactic(auto, unfolding(crate::specs::SnapshotSteps::class_at))]
pub(crate) fn take_class(
    alloc: Global,
    listed: &Class,
    bytes: &mut &[u8],
) -> Result<Class, ReadFault>
    ensures exact { Gives (λ x. (x, bytes.new.now)) result (class_at listed.now bytes.old.now) }
{
    let destinations = take_destinations(alloc, bytes)?;
    let priority = listed.priority;
    let ack_required = listed.ack_required;
    Ok(Class {
        instance: listed.instance,
        priority,
        ack_required,
        destinations,
    })
}

/// The same octets once more.
fn copy_of(alloc: Global, octets: &[u8]) -> Result<Items<u8>, ReadFault>
    ensures exact { Gives (λ x. x) result (Some octets.now) }
{
    match octets.to_vec(alloc) {
        Ok(octets) => Ok(Items::of(octets)),
        Err(_) => Err(ReadFault::NoMemory),
    }
}

/// Takes octets behind how many they are.
#[tactic(auto, unfolding(crate::specs::SnapshotSteps::body_at))]
fn take_body(alloc: Global, bytes: &mut &[u8]) -> Result<Items<u8>, ReadFault>
    ensures exact { Gives (λ x. (x, bytes.new.now)) result (body_at bytes.old.now) }
{
    let count = take_u16(bytes)?;
    let count = usize::from(count);
    if count > MOST_NOTE_OCTETS {
        return Err(ReadFault::NothingThere);
    }
    let octets = take_octets(bytes, count)?;
    copy_of(alloc, octets)
}

/// The hundredths that a stamp shows, where it gives them and they aren't negative; else 0.
fn hundredths_shown(zone: &Zone, stamp: &Stamp) -> u64
    ensures exact { result ≡ hundredths_shown zone.now stamp.now }
{
    match hundredths_of(stamp, zone) {
        Some(hundredths) if hundredths >= 0 => hundredths as u64,
        _ => 0,
    }
}

/// Takes the hundredths of a record, where they are written; elsewhere its stamp shows them.
#[tactic(auto, unfolding(crate::specs::SnapshotSteps::hundredths_at))]
fn take_hundredths(
    has_rule: bool,
    zone: &Zone,
    stamp: &Stamp,
    bytes: &mut &[u8],
) -> Result<u64, ReadFault>
    ensures exact { Gives (λ x. (x, bytes.new.now)) result (hundredths_at has_rule zone.now stamp.now bytes.old.now) }
{
    if has_rule {
        take_u64(bytes)
    } else {
        Ok(hundredths_shown(zone, stamp))
    }
}

/// Takes the record with a number.
#[tactic(auto, unfolding(crate::specs::SnapshotSteps::entry_at))]
pub(crate) fn take_entry(
    alloc: Global,
    has_rule: bool,
    zone: &Zone,
    sequence: u32,
    bytes: &mut &[u8],
) -> Result<LogRecord, ReadFault>
    ensures exact { Gives (λ x. (x, bytes.new.now)) result (entry_at has_rule zone.now sequence bytes.old.now) }
{
    let stamp = take_stamp(bytes)?;
    let hundredths = take_hundredths(has_rule, zone, &stamp, bytes)?;
    let body = take_body(alloc, bytes)?;
    Ok(LogRecord {
        stamp,
        hundredths,
        sequence,
        body,
    })
}

/// The number of the record that lies so many back from the one with the total.
pub(crate) fn number_back(total: u32, back: u32) -> u32
    ensures exact { result ≡ number_back total back }
{
    if back < total {
        total - back
    } else {
        total + (u32::MAX - back)
    }
}

/// Whether a log of a size may hold so many records.
pub(crate) fn may_hold(size: u32, total: u32, count: u32) -> bool
    ensures exact { result ≡ may_hold size total count }
{
    count <= size && (count == 0 || total > 0)
}

/// Takes a notification to a peer.
#[tactic(auto, unfolding(crate::specs::SnapshotSteps::note_at))]
pub(crate) fn take_note(alloc: Global, peer: Peer, bytes: &mut &[u8]) -> Result<Note, ReadFault>
    ensures exact { Gives (λ x. (x, bytes.new.now)) result (note_at peer bytes.old.now) }
{
    let confirmed = take_flag(bytes)?;
    let body = take_body(alloc, bytes)?;
    Ok(Note {
        peer,
        confirmed,
        body,
    })
}
