//! Services on properties.

use crate::comparing::{holds, same};
use bac_tags::{invalid_tag, missing_parameter, too_many_arguments};
use bac_values::{Foreign, ObjectId, PropertyId, Stamp, Text, Value};
use property_services::*;
use std::alloc::Global;
use std::process::Abort;
use std::test::Fail;

/// What a request names: an object, a property and no index.
fn named(kind: u16, instance: u32, property: PropertyId) -> Option<ReadRequest> {
    let object = ObjectId::new(kind, instance).ok()?;
    Some(ReadRequest {
        object,
        property,
        index: None,
    })
}

/// The octets are the request, and these answer it with this value.
fn expect_answered(
    rt: &impl Abort,
    alloc: Global,
    request: &ReadRequest,
    octets: &[u8],
    value: &[u8],
    answer: &[u8],
) -> Result<(), Fail> {
    same(rt, &read_read_property(octets), &Ok(*request));
    let written = write_read_ack(alloc, request, value)
        .ok()
        .ok_or("no memory")?;
    same(rt, &written.as_slice(), &answer);
    Ok(())
}

#[test]
fn read_property_is_read_and_answered(rt: HostRuntime) -> Result<(), Fail> {
    // Event_State of an integer value 1.
    let octets = [0x0c, 0x0b, 0x40, 0x00, 0x01, 0x19, 0x24];
    let request = named(45, 1, PropertyId::EVENT_STATE).ok_or("an identifier")?;
    let answer = [
        0x0c, 0x0b, 0x40, 0x00, 0x01, 0x19, 0x24, 0x3e, 0x91, 0x00, 0x3f,
    ];
    expect_answered(&rt, rt.alloc(), &request, &octets, &[0x91, 0x00], &answer)
}

#[test]
fn an_element_of_an_array_is_read_and_answered(rt: HostRuntime) -> Result<(), Fail> {
    // The second stamp of Event_Time_Stamps, in numbers that are longer than they need be.
    let octets = [
        0x0c, 0x0b, 0x40, 0x00, 0x01, 0x1a, 0x00, 0x82, 0x2d, 0x02, 0x00, 0x02,
    ];
    let request = ReadRequest {
        index: Some(2),
        ..named(45, 1, PropertyId::EVENT_TIME_STAMPS).ok_or("an identifier")?
    };
    let answer = [
        0x0c, 0x0b, 0x40, 0x00, 0x01, 0x19, 0x82, 0x29, 0x02, 0x3e, 0x3f,
    ];
    expect_answered(&rt, rt.alloc(), &request, &octets, &[], &answer)
}

#[test]
fn read_property_is_refused_with_its_cause(rt: HostRuntime) {
    let refused: [(&[u8], Malformed); 12] = [
        (&[], missing_parameter(0)),
        (&[0x0c, 0x0b, 0x40, 0x00, 0x01], missing_parameter(5)),
        // The object cut, with another number, with another length.
        (&[0x0c, 0x0b, 0x40], invalid_tag(0)),
        (&[0x1c, 0x0b, 0x40, 0x00, 0x01, 0x19, 0x24], invalid_tag(0)),
        (&[0x0b, 0x0b, 0x40, 0x00, 0x19, 0x24], invalid_tag(0)),
        // An index in place of the property.
        (&[0x0c, 0x0b, 0x40, 0x00, 0x01, 0x29, 0x24], invalid_tag(5)),
        // The index cut in its header and in its content, and without an octet.
        (
            &[0x0c, 0x0b, 0x40, 0x00, 0x01, 0x19, 0x24, 0x2d],
            invalid_tag(7),
        ),
        (
            &[0x0c, 0x0b, 0x40, 0x00, 0x01, 0x19, 0x24, 0x29],
            invalid_tag(7),
        ),
        (
            &[0x0c, 0x0b, 0x40, 0x00, 0x01, 0x19, 0x24, 0x28],
            invalid_tag(7),
        ),
        // Another parameter, a tag that opens, and one behind the index.
        (
            &[0x0c, 0x0b, 0x40, 0x00, 0x01, 0x19, 0x24, 0x39, 0x01],
            too_many_arguments(7),
        ),
        (
            &[0x0c, 0x0b, 0x40, 0x00, 0x01, 0x19, 0x24, 0x2e, 0x2f],
            too_many_arguments(7),
        ),
        (
            &[0x0c, 0x0b, 0x40, 0x00, 0x01, 0x19, 0x24, 0x29, 0x01, 0x2d],
            too_many_arguments(9),
        ),
    ];
    for (octets, fault) in refused {
        same(&rt, &read_read_property(octets), &Err(fault));
    }
}

/// Event_Algorithm_Inhibit of an integer value 1 is to be this value, from [3] on.
fn expect_written(rt: &impl Abort, alloc: Global, value: &[u8], expected: Value) {
    let front = [0x0c, 0x0b, 0x40, 0x00, 0x01, 0x1a, 0x01, 0x62];
    let mut octets = Vec::new(alloc);
    holds(rt, octets.extend_from_slice(&front).is_ok());
    holds(rt, octets.extend_from_slice(value).is_ok());
    match read_write_property(alloc, octets.as_slice()) {
        Ok(request) => {
            same(rt, &ObjectId::new(45, 1), &Ok(request.object));
            same(rt, &request.property, &PropertyId::EVENT_ALGORITHM_INHIBIT);
            same(rt, &request.index, &None);
            holds(rt, request.value == expected);
        }
        Err(_) => holds(rt, false),
    }
}

const fn opaque(tag: u8) -> Value {
    Value::Opaque {
        tag,
        why: Foreign::OtherType,
    }
}

#[test]
fn write_property_is_read(rt: HostRuntime) {
    let alloc = rt.alloc();
    expect_written(&rt, alloc, &[0x3e, 0x11, 0x3f], Value::Bool(true));
    expect_written(&rt, alloc, &[0x3e, 0x10, 0x3f], Value::Bool(false));
    // With a priority, which is read over.
    expect_written(
        &rt,
        alloc,
        &[0x3e, 0x11, 0x3f, 0x49, 0x08],
        Value::Bool(true),
    );
    // A REAL.
    expect_written(
        &rt,
        alloc,
        &[0x3e, 0x44, 0x3f, 0x80, 0x00, 0x00, 0x3f],
        opaque(4),
    );
    // No value, two, one in a context, a list, and a Null with a content.
    expect_written(&rt, alloc, &[0x3e, 0x3f], opaque(0));
    expect_written(&rt, alloc, &[0x3e, 0x11, 0x10, 0x3f], opaque(0));
    expect_written(&rt, alloc, &[0x3e, 0x09, 0x3f, 0x3f], opaque(0));
    expect_written(&rt, alloc, &[0x3e, 0x3e, 0x3f, 0x3f], opaque(0));
    expect_written(&rt, alloc, &[0x3e, 0x01, 0x3f, 0x3f], opaque(0));
}

#[test]
fn a_text_is_written_as_a_property(rt: HostRuntime) -> Result<(), Fail> {
    let alloc = rt.alloc();
    let text = Value::Text(Text::new(alloc, "hi")?);
    expect_written(&rt, alloc, &[0x3e, 0x73, 0x00, 0x68, 0x69, 0x3f], text);
    // Without a letter, and with a priority behind it.
    let empty = Value::Text(Text::new(alloc, "")?);
    let octets = [0x3e, 0x71, 0x00, 0x3f, 0x49, 0x08];
    expect_written(&rt, alloc, &octets, empty);
    // Letters of two octets, in a length that is longer than it need be.
    let text = Value::Text(Text::new(alloc, "üß")?);
    let octets = [
        0x3e, 0x75, 0xfe, 0x00, 0x05, 0x00, 0xc3, 0xbc, 0xc3, 0x9f, 0x3f,
    ];
    expect_written(&rt, alloc, &octets, text);
    Ok(())
}

#[test]
fn what_is_no_text_is_opaque_by_its_reason(rt: HostRuntime) {
    let why = |why| Value::Opaque { tag: 7, why };
    // In UCS-2, and octets that aren't UTF-8.
    let octets = [0x3e, 0x73, 0x04, 0x00, 0x68, 0x3f];
    expect_written(&rt, rt.alloc(), &octets, why(Foreign::CharacterSet));
    let octets = [0x3e, 0x73, 0x00, 0xc3, 0x28, 0x3f];
    expect_written(&rt, rt.alloc(), &octets, why(Foreign::NotUtf8));
}

/// High_Limit of an integer value 1 is to be written, with these octets behind the property.
fn limit_with(rt: &impl Abort, alloc: Global, more: &[u8]) -> Vec<u8> {
    let mut octets = Vec::new(alloc);
    let front = [0x0c, 0x0b, 0x40, 0x00, 0x01, 0x19, 0x2d];
    holds(rt, octets.extend_from_slice(&front).is_ok());
    holds(rt, octets.extend_from_slice(more).is_ok());
    octets
}

/// Such a request is refused for a reason, at a place.
fn expect_write_refused(rt: &impl Abort, alloc: Global, more: &[u8], reject: u8, at: usize) {
    let octets = limit_with(rt, alloc, more);
    same(
        rt,
        &read_write_property(alloc, octets.as_slice()).err(),
        &Some(ServiceFault::Malformed { reject, at }),
    );
}

#[test]
fn write_property_is_refused_without_its_value(rt: HostRuntime) {
    let alloc = rt.alloc();
    // Cut behind the property, and so behind an index.
    expect_write_refused(&rt, alloc, &[], 5, 7);
    expect_write_refused(&rt, alloc, &[0x29, 0x01], 5, 9);
    // Another parameter, or a cut one, in place of the value.
    expect_write_refused(&rt, alloc, &[0x49, 0x08], 4, 7);
    expect_write_refused(&rt, alloc, &[0x3d], 4, 7);
    // The value without its closing tag, with a cut element, and with tags that don't match.
    expect_write_refused(&rt, alloc, &[0x3e, 0x11], 4, 7);
    expect_write_refused(&rt, alloc, &[0x3e, 0x44, 0x3f], 4, 7);
    expect_write_refused(&rt, alloc, &[0x3e, 0x2e, 0x3f, 0x3f], 4, 7);
    expect_write_refused(&rt, alloc, &[0x3e, 0x2f, 0x3f], 4, 7);
    expect_write_refused(&rt, alloc, &[0x3e, 0x16, 0x17, 0x3f], 4, 7);
}

#[test]
fn write_property_is_refused_for_what_follows_its_value(rt: HostRuntime) {
    let alloc = rt.alloc();
    // A cut priority, another parameter in its place, and one behind it.
    expect_write_refused(&rt, alloc, &[0x3e, 0x11, 0x3f, 0x49], 4, 10);
    expect_write_refused(&rt, alloc, &[0x3e, 0x11, 0x3f, 0x59, 0x08], 7, 10);
    let octets = [0x3e, 0x11, 0x3f, 0x49, 0x08, 0x00];
    expect_write_refused(&rt, alloc, &octets, 7, 12);
}

/// Log_Buffer of an event log 1, with these octets of a range.
fn range_of(rt: &impl Abort, alloc: Global, more: &[u8]) -> Result<RangeBy, Malformed> {
    let mut octets = Vec::new(alloc);
    let front = [0x0c, 0x06, 0x40, 0x00, 0x01, 0x19, 0x83];
    holds(rt, octets.extend_from_slice(&front).is_ok());
    holds(rt, octets.extend_from_slice(more).is_ok());
    let request = read_read_range(octets.as_slice())?;
    same(rt, &ObjectId::new(25, 1), &Ok(request.object));
    same(rt, &request.property, &PropertyId::LOG_BUFFER);
    same(rt, &request.index, &None);
    Ok(request.range)
}

#[test]
fn read_range_is_read(rt: HostRuntime) {
    let alloc = rt.alloc();
    same(&rt, &range_of(&rt, alloc, &[]), &Ok(RangeBy::All));
    same(
        &rt,
        &range_of(&rt, alloc, &[0x3e, 0x21, 0x01, 0x31, 0x0a, 0x3f]),
        &Ok(RangeBy::Position {
            reference: 1,
            count: 10,
        }),
    );
    same(
        &rt,
        &range_of(&rt, alloc, &[0x6e, 0x22, 0x01, 0x00, 0x31, 0xfe, 0x6f]),
        &Ok(RangeBy::Sequence {
            reference: 256,
            count: -2,
        }),
    );
    let octets = [
        0x7e, 0xa4, 0x7b, 0x0b, 0x0e, 0x02, 0xb4, 0x16, 0x0d, 0x1e, 0x00, 0x31, 0x01, 0x7f,
    ];
    let reference = Stamp {
        octets: [0x7b, 0x0b, 0x0e, 0x02, 0x16, 0x0d, 0x1e, 0x00],
    };
    same(
        &rt,
        &range_of(&rt, alloc, &octets),
        &Ok(RangeBy::Time {
            reference,
            count: 1,
        }),
    );
}

#[test]
fn read_range_is_refused_with_its_cause(rt: HostRuntime) {
    let refused: [(&[u8], Malformed); 8] = [
        // A cut tag, a count that isn't there, another closing tag, and a date without a time.
        (&[0x3d], invalid_tag(7)),
        (&[0x3e, 0x21, 0x01, 0x3f], invalid_tag(7)),
        (&[0x3e, 0x21, 0x01, 0x31, 0x0a, 0x6f], invalid_tag(7)),
        (
            &[0x7e, 0xa4, 0x7b, 0x0b, 0x0e, 0x02, 0x31, 0x01, 0x7f],
            invalid_tag(7),
        ),
        // Whole tags that open no range, and octets behind one.
        (&[0x4e, 0x21, 0x01, 0x31, 0x0a, 0x4f], too_many_arguments(7)),
        (&[0x39, 0x01], too_many_arguments(7)),
        (&[0x36, 0x21, 0x01, 0x31, 0x0a, 0x37], too_many_arguments(7)),
        (
            &[0x3e, 0x21, 0x01, 0x31, 0x0a, 0x3f, 0x00],
            too_many_arguments(13),
        ),
    ];
    for (more, fault) in refused {
        same(&rt, &range_of(&rt, rt.alloc(), more), &Err(fault));
    }
}

#[test]
fn read_range_is_answered(rt: HostRuntime) -> Result<(), Fail> {
    let all = RangeRequest {
        object: ObjectId::new(25, 1)?,
        property: PropertyId::LOG_BUFFER,
        index: None,
        range: RangeBy::All,
    };
    let answer = write_range_ack(rt.alloc(), &all, [false, false, false], 0, &[], None)
        .ok()
        .ok_or("no memory")?;
    same(
        &rt,
        &answer.as_slice(),
        &[
            0x0c, 0x06, 0x40, 0x00, 0x01, 0x19, 0x83, 0x3a, 0x05, 0x00, 0x49, 0x00, 0x5e, 0x5f,
        ]
        .as_slice(),
    );
    // The first of more items, with its sequence number.
    let answer = write_range_ack(
        rt.alloc(),
        &all,
        [true, false, true],
        1,
        &[0x21, 0x07],
        Some(300),
    )
    .ok()
    .ok_or("no memory")?;
    same(
        &rt,
        &answer.as_slice(),
        &[
            0x0c, 0x06, 0x40, 0x00, 0x01, 0x19, 0x83, 0x3a, 0x05, 0xa0, 0x49, 0x01, 0x5e, 0x21,
            0x07, 0x5f, 0x6a, 0x01, 0x2c,
        ]
        .as_slice(),
    );
    Ok(())
}

#[test]
fn who_is_is_read(rt: HostRuntime) {
    same(&rt, &read_who_is(&[]), &Ok(None));
    same(
        &rt,
        &read_who_is(&[0x09, 0x00, 0x1a, 0x03, 0xe9]),
        &Ok(Some((0, 1001))),
    );
    same(&rt, &read_who_is(&[0x09, 0x00]), &Err(missing_parameter(2)));
    same(&rt, &read_who_is(&[0x09]), &Err(invalid_tag(0)));
    same(
        &rt,
        &read_who_is(&[0x09, 0x00, 0x29, 0x01]),
        &Err(invalid_tag(2)),
    );
    same(
        &rt,
        &read_who_is(&[0x19, 0x01]),
        &Err(too_many_arguments(0)),
    );
    same(
        &rt,
        &read_who_is(&[0x09, 0x00, 0x19, 0x01, 0x00]),
        &Err(too_many_arguments(4)),
    );
}

#[test]
fn who_is_is_answered(rt: HostRuntime) -> Result<(), Fail> {
    let announced = write_i_am(rt.alloc(), ObjectId::new(8, 1001)?, 999)
        .ok()
        .ok_or("no memory")?;
    let expected = [
        0xc4, 0x02, 0x00, 0x03, 0xe9, 0x22, 0x05, 0xc4, 0x91, 0x03, 0x22, 0x03, 0xe7,
    ];
    same(&rt, &announced.as_slice(), &expected.as_slice());
    Ok(())
}
