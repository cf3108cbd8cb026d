//! Services on events.

ghost use Rattle.std.specs.Prelude.{◌≡◌, IfOk};
ghost use Rattle.event_services.specs.Notifications.{IsTold};

use crate::comparing::same;
use bac_values::{EventState, ObjectId, ObjectKind, Reliability, Stamp, StatusFlags, Text, Value};
use event_services::*;
use std::alloc::Global;
use std::process::Abort;
use std::test::Fail;

/// An acknowledgement of an OFFNORMAL state of integer value 1, by `op`.
const ACKNOWLEDGE: [u8; 41] = [
    0x09, 0x01, 0x1c, 0x0b, 0x40, 0x00, 0x01, 0x29, 0x02, 0x3e, 0x2e, 0xa4, 0x7b, 0x0b, 0x0e, 0x02,
    0xb4, 0x16, 0x0d, 0x1e, 0x00, 0x2f, 0x3f, 0x4b, 0x00, 0x6f, 0x70, 0x5e, 0x2e, 0xa4, 0x7b, 0x0b,
    0x0e, 0x02, 0xb4, 0x16, 0x0d, 0x28, 0x00, 0x2f, 0x5f,
];

/// Tuesday, the 14th of November 2023, 22:13:30.
const RAISED: Stamp = Stamp {
    octets: [0x7b, 0x0b, 0x0e, 0x02, 0x16, 0x0d, 0x1e, 0x00],
};

/// Ten seconds later.
const LATER: Stamp = Stamp {
    octets: [0x7b, 0x0b, 0x0e, 0x02, 0x16, 0x0d, 0x28, 0x00],
};

/// The octets are refused with a reason, at a place.
fn expect_refused(rt: &impl Abort, octets: &[u8], reject: u8, at: usize) {
    same(rt, &read_ack(octets), &Err(Malformed { reject, at }));
}

#[test]
fn an_acknowledgement_is_read(rt: HostRuntime) -> Result<(), Fail> {
    let request = AckRequest {
        process: 1,
        object: ObjectId::new(45, 1)?,
        state: 2,
        stamp: AckStamp::DateTime(RAISED),
    };
    same(&rt, &read_ack(&ACKNOWLEDGE), &Ok(request));
    Ok(())
}

#[test]
fn every_form_of_a_time_stamp_is_read(rt: HostRuntime) -> Result<(), Fail> {
    // A sequence number, a source of one octet and a time of day, each in a spelling of its own.
    let counted = [
        0x0a, 0x00, 0x01, 0x1c, 0x0b, 0x40, 0x00, 0x01, 0x29, 0x00, 0x3e, 0x1a, 0x00, 0x05, 0x3f,
        0x49, 0xff, 0x5e, 0x0d, 0x04, 0x16, 0x0d, 0x28, 0x00, 0x5f,
    ];
    let request = AckRequest {
        process: 1,
        object: ObjectId::new(45, 1)?,
        state: 0,
        stamp: AckStamp::Sequence,
    };
    same(&rt, &read_ack(&counted), &Ok(request));
    let timed = [
        0x09, 0x01, 0x1c, 0x0b, 0x40, 0x00, 0x01, 0x29, 0x00, 0x3e, 0x0c, 0x16, 0x0d, 0x1e, 0x00,
        0x3f, 0x49, 0xff, 0x5e, 0x19, 0x05, 0x5f,
    ];
    let stamp = AckStamp::Time;
    same(&rt, &read_ack(&timed), &Ok(AckRequest { stamp, ..request }));
    Ok(())
}

#[test]
fn a_missing_parameter_of_an_acknowledgement_is_refused(rt: HostRuntime) {
    expect_refused(&rt, &[], 5, 0);
    expect_refused(&rt, &ACKNOWLEDGE[..2], 5, 2);
    expect_refused(&rt, &ACKNOWLEDGE[..7], 5, 7);
    expect_refused(&rt, &ACKNOWLEDGE[..9], 5, 9);
    expect_refused(&rt, &ACKNOWLEDGE[..23], 5, 23);
    expect_refused(&rt, &ACKNOWLEDGE[..27], 5, 27);
}

#[test]
fn a_parameter_of_an_acknowledgement_that_is_cut_or_another_is_refused(rt: HostRuntime) {
    // Cut within a parameter, also where an element within it should begin.
    expect_refused(&rt, &ACKNOWLEDGE[..1], 4, 0);
    expect_refused(&rt, &ACKNOWLEDGE[..6], 4, 2);
    expect_refused(&rt, &ACKNOWLEDGE[..8], 4, 7);
    expect_refused(&rt, &ACKNOWLEDGE[..10], 4, 9);
    expect_refused(&rt, &ACKNOWLEDGE[..22], 4, 9);
    expect_refused(&rt, &ACKNOWLEDGE[..24], 4, 23);
    expect_refused(&rt, &ACKNOWLEDGE[..40], 4, 27);
    // Another tag, a number without octets, one of five octets, a cut header, an application's tag.
    expect_refused(&rt, &ACKNOWLEDGE[2..], 4, 0);
    expect_refused(&rt, &[0x08, 0x01], 4, 0);
    expect_refused(&rt, &[0x0d, 0x05, 0, 0, 0, 0, 1], 4, 0);
    expect_refused(&rt, &[0x09, 0x01, 0xf9], 4, 2);
    expect_refused(&rt, &[0x21, 0x01], 4, 0);
    // A time stamp of no form, one that isn't closed, and a source without octets.
    let formless = [
        0x09, 0x01, 0x1c, 0x0b, 0x40, 0x00, 0x01, 0x29, 0x02, 0x3e, 0x39, 0x05, 0x3f,
    ];
    expect_refused(&rt, &formless, 4, 9);
    let unclosed = [
        0x09, 0x01, 0x1c, 0x0b, 0x40, 0x00, 0x01, 0x29, 0x02, 0x3e, 0x19, 0x05, 0x49, 0x01,
    ];
    expect_refused(&rt, &unclosed, 4, 9);
    let unsourced = [
        0x09, 0x01, 0x1c, 0x0b, 0x40, 0x00, 0x01, 0x29, 0x02, 0x3e, 0x19, 0x05, 0x3f, 0x48,
    ];
    expect_refused(&rt, &unsourced, 4, 13);
}

#[test]
fn more_than_an_acknowledgement_is_refused(rt: HostRuntime) {
    let mut more = [0; 42];
    more[..41].copy_from_slice(&ACKNOWLEDGE);
    expect_refused(&rt, &more, 7, 41);
}

/// An integer value of 90 enters HIGH_LIMIT, whose limit is 80.
pub(crate) const HIGH: [u8; 55] = [
    0x09, 0x01, 0x1c, 0x02, 0x00, 0x03, 0xe9, 0x2c, 0x0b, 0x40, 0x00, 0x01, 0x3e, 0x2e, 0xa4, 0x7b,
    0x0b, 0x0e, 0x02, 0xb4, 0x16, 0x0d, 0x1e, 0x00, 0x2f, 0x3f, 0x49, 0x07, 0x59, 0x64, 0x69, 0x0f,
    0x89, 0x00, 0x99, 0x01, 0xa9, 0x00, 0xb9, 0x03, 0xce, 0xfe, 0x0f, 0x09, 0x5a, 0x1a, 0x04, 0x80,
    0x29, 0x05, 0x39, 0x50, 0xff, 0x0f, 0xcf,
];

/// The state OFFNORMAL of the same value is acknowledged.
const ACKNOWLEDGED: [u8; 36] = [
    0x09, 0x01, 0x1c, 0x02, 0x00, 0x03, 0xe9, 0x2c, 0x0b, 0x40, 0x00, 0x01, 0x3e, 0x2e, 0xa4, 0x7b,
    0x0b, 0x0e, 0x02, 0xb4, 0x16, 0x0d, 0x28, 0x00, 0x2f, 0x3f, 0x49, 0x07, 0x59, 0x64, 0x69, 0x0f,
    0x89, 0x02, 0xb9, 0x02,
];

/// The same value of 90 isn't reliable.
const FAULTY: [u8; 59] = [
    0x09, 0x01, 0x1c, 0x02, 0x00, 0x03, 0xe9, 0x2c, 0x0b, 0x40, 0x00, 0x01, 0x3e, 0x2e, 0xa4, 0x7b,
    0x0b, 0x0e, 0x02, 0xb4, 0x16, 0x0d, 0x28, 0x00, 0x2f, 0x3f, 0x49, 0x07, 0x59, 0x5a, 0x69, 0x13,
    0x89, 0x00, 0x99, 0x01, 0xa9, 0x03, 0xb9, 0x01, 0xce, 0xfe, 0x13, 0x09, 0x07, 0x1a, 0x04, 0xc0,
    0x2e, 0x09, 0x55, 0x2e, 0x31, 0x5a, 0x2f, 0x2f, 0xff, 0x13, 0xcf,
];

/// What is told of the value in HIGH_LIMIT, with more to come.
const INFORMATION: [u8; 65] = [
    0x0e, 0x0c, 0x0b, 0x40, 0x00, 0x01, 0x19, 0x03, 0x2a, 0x05, 0x60, 0x3e, 0x2e, 0xa4, 0x7b, 0x0b,
    0x0e, 0x02, 0xb4, 0x16, 0x0d, 0x1e, 0x00, 0x2f, 0x2e, 0xa4, 0xff, 0xff, 0xff, 0xff, 0xb4, 0xff,
    0xff, 0xff, 0xff, 0x2f, 0x2e, 0xa4, 0xff, 0xff, 0xff, 0xff, 0xb4, 0xff, 0xff, 0xff, 0xff, 0x2f,
    0x3f, 0x49, 0x00, 0x5a, 0x05, 0xe0, 0x6e, 0x21, 0x64, 0x21, 0x5a, 0x21, 0xc8, 0x6f, 0x0f, 0x19,
    0x01,
];

/// Device 1001, and object 1 of a kind.
pub(crate) fn device_and(kind: ObjectKind) -> Result<[ObjectId; 2], Fail> {
    Ok([ObjectId::new(8, 1001)?, ObjectId::of_kind(kind, 1)?])
}

/// What an object of a device tells of its way from NORMAL to a state.
pub(crate) fn note_of(
    objects: [ObjectId; 2],
    event_type: u8,
    to: EventState,
    values: Option<EventValues>,
    text: Option<Text>,
) -> Notification
    ensures event_type { result.event_type ≡ event_type }
    ensures values { result.values ≡ values }
{
    let [device, object] = objects;
    Notification {
        process: 1,
        device,
        object,
        stamp: RAISED,
        class: 7,
        priority: 100,
        event_type,
        text,
        notify: 0,
        ack_required: Some(true),
        from: Some(EventState::Normal),
        to,
        values,
    }
}

/// Status_Flags of an object in an alarm state.
pub(crate) const IN_ALARM: StatusFlags = StatusFlags {
    in_alarm: true,
    fault: false,
    overridden: false,
    out_of_service: false,
};

/// The notification of `HIGH`, with a message text or without one.
pub(crate) fn high_with(objects: [ObjectId; 2], text: Option<Text>) -> Notification
    ensures told { IsTold result.event_type result.values }
{
    let values = EventValues::SignedOutOfRange {
        value: 90,
        flags: IN_ALARM,
        deadband: 5,
        limit: 80,
    };
    note_of(objects, 15, EventState::HighLimit, Some(values), text)
}

/// The notification of `HIGH`.
fn high() -> Result<Notification, Fail>
    ensures told { IfOk result (λ note. IsTold note.event_type note.values) }
{
    Ok(high_with(device_and(ObjectKind::IntegerValue)?, None))
}

/// The notification of `ACKNOWLEDGED`.
fn acknowledged() -> Result<Notification, Fail>
    ensures told { IfOk result (λ note. IsTold note.event_type note.values) }
{
    let objects = device_and(ObjectKind::IntegerValue)?;
    Ok(Notification {
        stamp: LATER,
        notify: 2,
        ack_required: None,
        from: None,
        ..note_of(objects, 15, EventState::Offnormal, None, None)
    })
}

/// The notification of `FAULTY`.
fn faulty() -> Result<Notification, Fail>
    ensures told { IfOk result (λ note. IsTold note.event_type note.values) }
{
    let objects = device_and(ObjectKind::IntegerValue)?;
    let flags = StatusFlags {
        fault: true,
        ..IN_ALARM
    };
    let values = EventValues::Reliability {
        reliability: Reliability::UnreliableOther,
        flags,
        property: Some(Value::Signed(90)),
    };
    Ok(Notification {
        stamp: LATER,
        priority: 90,
        from: Some(EventState::HighLimit),
        ..note_of(objects, 19, EventState::Fault, Some(values), None)
    })
}

/// The notification is written as these octets.
fn expect_written(
    rt: &impl Abort,
    alloc: Global,
    note: &Notification,
    octets: &[u8],
) -> Result<(), Fail>
    requires told { IsTold note.now.event_type note.now.values }
{
    let written = write_notification(alloc, note).ok().ok_or("no memory")?;
    same(rt, &written.as_slice(), &octets);
    Ok(())
}

/// The octets are the notification.
fn expect_read(rt: &impl Abort, alloc: Global, octets: &[u8], note: &Notification) {
    let read = read_notification(alloc, octets);
    same(rt, &read.as_ref(), &Ok(note));
    drop(read);
}

/// The notification is written as these octets, and read back. What is as dear to drop is given away to this, which drops it by
/// a call.
pub(crate) fn expect_both_ways(
    rt: &impl Abort,
    alloc: Global,
    note: Notification,
    octets: &[u8],
) -> Result<(), Fail>
    requires told { IsTold note.event_type note.values }
{
    let written = expect_written(rt, alloc, &note, octets);
    expect_read(rt, alloc, octets, &note);
    drop(note);
    written
}

#[test]
fn notifications_are_written_and_read(rt: HostRuntime) -> Result<(), Fail> {
    expect_both_ways(&rt, rt.alloc(), high()?, &HIGH)?;
    expect_both_ways(&rt, rt.alloc(), acknowledged()?, &ACKNOWLEDGED)?;
    expect_both_ways(&rt, rt.alloc(), faulty()?, &FAULTY)
}

#[test]
fn information_is_asked_for(rt: HostRuntime) -> Result<(), Fail> {
    same(&rt, &read_information_request(&[]), &Ok(None));
    let last = [0x0c, 0x0b, 0x40, 0x00, 0x01];
    same(
        &rt,
        &read_information_request(&last),
        &Ok(Some(ObjectId::new(45, 1)?)),
    );
    let refused = |reject, at| Err(Malformed { reject, at });
    // A cut header, a cut content, and a length of three.
    same(&rt, &read_information_request(&[0xf9]), &refused(4, 0));
    same(&rt, &read_information_request(&last[..3]), &refused(4, 0));
    same(
        &rt,
        &read_information_request(&[0x0b, 0x0b, 0x40, 0x00]),
        &refused(4, 0),
    );
    // Another whole tag, and one behind the object.
    same(
        &rt,
        &read_information_request(&[0x19, 0x01]),
        &refused(7, 0),
    );
    let more = [0x0c, 0x0b, 0x40, 0x00, 0x01, 0x19, 0x01];
    same(&rt, &read_information_request(&more), &refused(7, 5));
    Ok(())
}

/// The summaries are written as these octets.
fn expect_information(
    rt: &impl Abort,
    alloc: Global,
    summaries: &[EventSummary],
    more: bool,
    octets: &[u8],
) -> Result<(), Fail> {
    let written = write_information(alloc, summaries, more)
        .ok()
        .ok_or("no memory")?;
    same(rt, &written.as_slice(), &octets);
    Ok(())
}

#[test]
fn information_is_written(rt: HostRuntime) -> Result<(), Fail> {
    let summary = EventSummary {
        object: ObjectId::new(45, 1)?,
        state: EventState::HighLimit,
        acked: [false, true, true],
        stamps: [RAISED, Stamp::NEVER, Stamp::NEVER],
        notify: 0,
        enable: [true, true, true],
        priority: [100, 90, 200],
    };
    expect_information(&rt, rt.alloc(), &[summary], true, &INFORMATION)?;
    expect_information(&rt, rt.alloc(), &[], false, &[0x0e, 0x0f, 0x19, 0x00])
}

/// The octets are no notification, for a reason and at a place.
pub(crate) fn expect_no_notification(
    rt: &impl Abort,
    alloc: Global,
    octets: &[u8],
    reject: u8,
    at: usize,
) {
    same(
        rt,
        &read_notification(alloc, octets).err(),
        &Some(NoteFault::Malformed { reject, at }),
    );
}

#[test]
fn what_is_no_notification_is_refused(rt: HostRuntime) {
    // A required parameter is missing, also behind optional ones.
    expect_no_notification(&rt, rt.alloc(), &[], 5, 0);
    expect_no_notification(&rt, rt.alloc(), &HIGH[..12], 5, 12);
    expect_no_notification(&rt, rt.alloc(), &HIGH[..32], 5, 32);
    expect_no_notification(&rt, rt.alloc(), &HIGH[..36], 5, 36);
    // Cut within the time stamp, and within the values.
    expect_no_notification(&rt, rt.alloc(), &HIGH[..24], 4, 12);
    expect_no_notification(&rt, rt.alloc(), &HIGH[..54], 4, 40);
    // The values of another type, a state that isn't known, and what follows the values.
    let mut other = HIGH;
    other[31] = 0x10;
    expect_no_notification(&rt, rt.alloc(), &other, 4, 40);
    other[31] = 0x0f;
    other[37] = 0x05;
    expect_no_notification(&rt, rt.alloc(), &other, 4, 36);
    let mut more = [0; 56];
    more[..55].copy_from_slice(&HIGH);
    expect_no_notification(&rt, rt.alloc(), &more, 7, 55);
}
