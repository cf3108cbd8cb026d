//! What becomes of ReadRange (15.8).

ghost use Rattle.std.specs.Prelude.{◌≡◌, ◌≤◌, ◌+◌, ◌-◌, ◌∷◌, ◌++◌, [], false, IfOk, OnOk, length, flat_map, nat_le, slice_get, Option};
ghost use Rattle.std.specs.Option.{option_copied};
ghost use Rattle.bac_tags.specs.Writing.{unsigned_size};
ghost use Rattle.property_services.specs.Writing.{written_range_ack};
ghost use Rattle.service_desk.specs.Ranges.{range_decision, buffer_answer, first_sequence, greatest, has_zero_count, items_from, names_sequence, object_answer, place_by_clock, range_answer, range_body, range_flags, range_reply, range_sent, records_that_fit, requested_range, rule_zone_of, written_item};
ghost use Rattle.event_log.specs.Ranges.{range_from};

use crate::Decision;
use crate::replies::Requester;
use alarm_core::Core;
use bac_tags::{unsigned_size, write_closing, write_opening, write_stamp};
use bac_values::{AbortReason, NoMemory, PropertyId, Send, ServiceError, Stamp};
use civil_stamp::{Zone, hundredths_of};
use event_log::{EventLog, LogRange, LogRecord};
use property_services::{RangeBy, RangeRequest, read_read_range, write_range_ack};
use std::alloc::Global;

// Appends a record of a log.
#[tactic(auto, unfolding(crate::specs::Ranges::written_item))]
fn write_item(out: &mut Vec<u8>, entry: &LogRecord) -> Result<(), NoMemory>
    ensures written { OnOk result (out.new.items ≡ out.old.items ++ written_item entry.now) }
{
    write_opening(out, 0)?;
    write_stamp(out, None, entry.stamp)?;
    write_closing(out, 0)?;
    write_opening(out, 1)?;
    write_opening(out, 1)?;
    out.extend_from_slice(entry.body.as_slice())?;
    write_closing(out, 1)?;
    write_closing(out, 1)
}

/// Leading records of a range: how many, and their octets.
#[derive(Drop)]
struct LeadingRecords {
    count: u32,
    octets: Vec<u8>,
}

// The leading records of a range that have room in so many octets, with their number.
fn leading_with_room(
    alloc: Global,
    log: &EventLog,
    range: LogRange,
    room: usize,
) -> Result<LeadingRecords, NoMemory>
    requires within { range.first + range.count ≤ length log.now.records }
    ensures count { IfOk result (λ leading. leading.count ≡ greatest (λ sent. nat_le (unsigned_size sent + length (flat_map written_item (items_from range.first sent log.now))) room) range.count) }
    ensures octets { IfOk result (λ leading. leading.octets.items ≡ flat_map written_item (items_from range.first leading.count log.now)) }
    ensures few { IfOk result (λ leading. leading.count ≤ range.count) }
{
    let mut octets = Vec::new(alloc);
    let mut count = 0;
    for place in range.first..log.len() {
        if count == range.count {
            break;
        }
        let Some(entry) = log.item(place) else {
            unreachable!()
        };
        let before = octets.len();
        write_item(&mut octets, entry)?;
        if unsigned_size(count + 1) + octets.len() > room {
            octets.truncate(before);
            return Ok(LeadingRecords { count, octets });
        }
        count += 1;
    }
    Ok(LeadingRecords { count, octets })
}

// The zone of a site with a zone rule.
fn rule_zone(core: &Core) -> Option<&Zone>
    ensures zone { option_copied result ≡ rule_zone_of core.now.site }
{
    match core.site().device.zone_rule {
        Some(_) => Some(core.zone()),
        None => None,
    }
}

// The records by time: with a zone rule by when its clock showed the reference, of which there are none where it is no civil
// date and time.
fn range_by_clock(zone: Option<&Zone>, reference: &Stamp, count: i32, log: &EventLog) -> LogRange
    ensures range { let length = length log.now.records in result ≡ range_from count length (place_by_clock (option_copied zone.entry) count reference.now log.now.records) }
{
    let Some(zone) = zone else {
        return log.range_by_time(reference, count);
    };
    match hundredths_of(reference, zone) {
        Some(hundredths) => log.range_by_hundredths(hundredths, count),
        None => LogRange { first: 0, count: 0 },
    }
}

// The records of a log that a request asks for, by the zone of the site's rule.
#[tactic(auto, using(crate::proofs::RequestedRange::requested_range_within))]
fn requested_range(zone: Option<&Zone>, range: &RangeBy, log: &EventLog) -> LogRange
    ensures range { result ≡ requested_range (option_copied zone.entry) range.now log.now }
    ensures within { result.first + result.count ≤ length log.now.records }
{
    match range {
        RangeBy::All => LogRange {
            first: 0,
            count: log.len(),
        },
        RangeBy::Position { reference, count } => log.range_by_position(*reference, *count),
        RangeBy::Sequence { reference, count } => log.range_by_sequence(*reference, *count),
        RangeBy::Time { reference, count } => range_by_clock(zone, reference, *count, log),
    }
}

// Whether the first sequence number is told.
fn names_sequence(range: &RangeBy) -> bool
    ensures told { result ≡ names_sequence range.now }
{
    match range {
        RangeBy::All | RangeBy::Position { .. } => false,
        RangeBy::Sequence { .. } | RangeBy::Time { .. } => true,
    }
}

// The sequence number of the first record that is sent, where it is told.
fn first_sequence(request: &RangeRequest, log: &EventLog, range: LogRange, sent: u32) -> Option<u32>
    ensures first { result ≡ first_sequence request.now log.now range sent }
{
    if sent == 0 || !names_sequence(&request.range) {
        return None;
    }
    match log.item(range.first) {
        Some(entry) => Some(entry.sequence),
        None => None,
    }
}

// First item, last item and more items, where so many of the records are sent.
fn range_flags(log: &EventLog, range: LogRange, sent: u32) -> [bool; 3]
    requires within { range.first + sent ≤ length log.now.records }
    ensures flags { result ≡ range_flags log.now range sent }
{
    let length = log.len();
    if sent == 0 {
        return [false; 3];
    }
    [
        range.first == 0,
        range.first + sent == length,
        sent < range.count,
    ]
}

// The octets of an answer that aren't its records', where it has some, without those of their number: its header, what
// stands before the records, and what stands after them.
fn octets_round(
    alloc: Global,
    request: &RangeRequest,
    log: &EventLog,
    range: LogRange,
) -> Result<usize, NoMemory>
    ensures round { IfOk result (λ octets. octets ≡ length (written_range_ack request.now (false ∷ false ∷ false ∷ []) 0 [] (first_sequence request.now log.now range 1))) }
{
    let first = first_sequence(request, log, range, 1);
    let empty = write_range_ack(alloc, request, [false; 3], 0, &[], first)?;
    Ok(empty.len())
}

// The leading records of a range that the requester takes.
fn leading_records(
    alloc: Global,
    requester: &Requester,
    request: &RangeRequest,
    log: &EventLog,
    range: LogRange,
) -> Result<LeadingRecords, NoMemory>
    requires within { range.first + range.count ≤ length log.now.records }
    ensures count { IfOk result (λ leading. leading.count ≡ records_that_fit requester.now request.now log.now range) }
    ensures octets { IfOk result (λ leading. leading.octets.items ≡ flat_map written_item (items_from range.first leading.count log.now)) }
    ensures few { IfOk result (λ leading. leading.count ≤ range.count) }
{
    let round = octets_round(alloc, request, log, range)?;
    // A complex acknowledgment has a header of three octets. One octet of `round` is the number 0.
    let room = usize::from(requester.max_apdu())
        .saturating_sub(round)
        .saturating_sub(2);
    leading_with_room(alloc, log, range, room)
}

// The result with the leading records of a range.
fn range_body(
    alloc: Global,
    request: &RangeRequest,
    log: &EventLog,
    range: LogRange,
    leading: &LeadingRecords,
) -> Result<Vec<u8>, NoMemory>
    requires within { range.first + leading.now.count ≤ length log.now.records }
    requires octets { leading.now.octets.items ≡ flat_map written_item (items_from range.first leading.now.count log.now) }
    ensures body { IfOk result (λ octets. octets.items ≡ range_body request.now log.now range leading.now.count) }
{
    let flags = range_flags(log, range, leading.count);
    let first = first_sequence(request, log, range, leading.count);
    let records = leading.octets.as_slice();
    write_range_ack(alloc, request, flags, leading.count, records, first)
}

// A range with its leading records, as it is answered.
fn range_sent(
    alloc: Global,
    requester: &Requester,
    request: &RangeRequest,
    log: &EventLog,
    range: LogRange,
    leading: &LeadingRecords,
) -> Result<Send, NoMemory>
    requires within { range.first + leading.now.count ≤ length log.now.records }
    requires octets { leading.now.octets.items ≡ flat_map written_item (items_from range.first leading.now.count log.now) }
    ensures reply { IfOk result (λ send. send ≡ range_sent requester.now request.now log.now range leading.now.count) }
{
    if range.count > 0 && leading.count == 0 {
        return requester.abort(alloc, AbortReason::SEGMENTATION_NOT_SUPPORTED.0);
    }
    let body = range_body(alloc, request, log, range, leading)?;
    requester.complex_ack(alloc, body.as_slice())
}

/// The records that a request asks for, as they are answered: as many of the leading ones as the requester takes.
fn range_reply(
    alloc: Global,
    requester: &Requester,
    zone: Option<&Zone>,
    request: &RangeRequest,
    log: &EventLog,
) -> Result<Send, NoMemory>
    ensures reply { IfOk result (λ send. send ≡ range_reply requester.now request.now log.now (requested_range (option_copied zone.entry) request.now.range log.now)) }
{
    let range = requested_range(zone, &request.range, log);
    let leading = leading_records(alloc, requester, request, log, range)?;
    range_sent(alloc, requester, request, log, range, &leading)
}

// Whether a request asks for a count of 0.
fn has_zero_count(range: &RangeBy) -> bool
    ensures zero { result ≡ has_zero_count range.now }
{
    match range {
        RangeBy::All => false,
        RangeBy::Position { count, .. }
        | RangeBy::Sequence { count, .. }
        | RangeBy::Time { count, .. } => *count == 0,
    }
}

// The Log_Buffer of a log.
fn buffer_answer(
    alloc: Global,
    requester: &Requester,
    zone: Option<&Zone>,
    request: &RangeRequest,
    log: &EventLog,
) -> Result<Send, NoMemory>
    ensures reply { IfOk result (λ send. send ≡ buffer_answer requester.now (option_copied zone.entry) request.now log.now) }
{
    if request.index.is_some() {
        return requester.error(alloc, ServiceError::PROPERTY_IS_NOT_AN_ARRAY);
    }
    if has_zero_count(&request.range) {
        return requester.error(alloc, ServiceError::VALUE_OUT_OF_RANGE);
    }
    range_reply(alloc, requester, zone, request, log)
}

// A property of an object, which may be a log.
fn object_answer(
    alloc: Global,
    requester: &Requester,
    zone: Option<&Zone>,
    request: &RangeRequest,
    log: Option<&EventLog>,
) -> Result<Send, NoMemory>
    ensures reply { IfOk result (λ send. send ≡ object_answer requester.now (option_copied zone.entry) request.now (option_copied log.entry)) }
{
    match log {
        Some(found) if request.property == PropertyId::LOG_BUFFER => {
            buffer_answer(alloc, requester, zone, request, found)
        }
        _ => requester.error(alloc, ServiceError::UNKNOWN_PROPERTY),
    }
}

/// The answer to ReadRange (ANSI/ASHRAE 135-2020, 15.8), by the zone of the site's rule, whether the object is there, and
/// its log, where it is one.
pub(crate) fn range_answer(
    alloc: Global,
    requester: &Requester,
    zone: Option<&Zone>,
    request: &RangeRequest,
    is_there: bool,
    log: Option<&EventLog>,
) -> Result<Send, NoMemory>
    ensures reply { IfOk result (λ send. send ≡ range_answer requester.now (option_copied zone.entry) request.now is_there (option_copied log.entry)) }
{
    if !is_there {
        return requester.error(alloc, ServiceError::UNKNOWN_OBJECT);
    }
    object_answer(alloc, requester, zone, request, log)
}

/// ReadRange (ANSI/ASHRAE 135-2020, 15.8).
pub(crate) fn read_range(
    alloc: Global,
    core: &Core,
    requester: &Requester,
    parameters: &[u8],
) -> Result<Decision, NoMemory>
    ensures decision { IfOk result (λ decision. decision ≡ range_decision core.now requester.now parameters.now) }
{
    let send = match read_read_range(parameters) {
        Ok(request) => {
            let is_there = core.has_object(request.object);
            let log = core.log(request.object);
            range_answer(alloc, requester, rule_zone(core), &request, is_there, log)?
        }
        Err(refusal) => requester.reject(alloc, refusal.reject)?,
    };
    Ok(Decision::Reply { send })
}
