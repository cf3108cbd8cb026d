//! Tags and values.

ghost use Rattle.bac_tags.specs.Values.{IsWritable};

use crate::comparing::{counts, holds, same};
use bac_tags::*;
use bac_values::{Bits, Foreign, ObjectId, Stamp, Text, Value};
use std::alloc::Global;
use std::process::Abort;
use std::test::Fail;

const fn tag(number: u8, context: bool, shape: Shape) -> Tag {
    Tag {
        number,
        context,
        shape,
    }
}

fn primitive(number: u8, context: bool, length: u32) -> Tag {
    tag(number, context, Shape::Primitive { length })
}

/// The octets are the tag and nothing else.
fn expect_tag(rt: &impl Abort, octets: &[u8], expected: Tag) {
    same(rt, &read_tag(octets, 0), &Ok((expected, octets.len())));
}

/// The octets end within the tag.
fn expect_cut(rt: &impl Abort, octets: &[u8]) {
    same(
        rt,
        &read_tag(octets, 0),
        &Err(TagFault::Truncated { at: octets.len() }),
    );
}

#[test]
fn tags_are_read_in_any_spelling(rt: HostRuntime) {
    expect_tag(&rt, &[0x09], primitive(0, true, 1));
    expect_tag(&rt, &[0xc4], primitive(12, false, 4));
    expect_tag(&rt, &[0x3e], tag(3, true, Shape::Opening));
    expect_tag(&rt, &[0x3f], tag(3, true, Shape::Closing));
    // The number in an octet of its own, above 14 and needlessly.
    expect_tag(&rt, &[0xfe, 0x0f], tag(15, true, Shape::Opening));
    expect_tag(&rt, &[0xff, 0x13], tag(19, true, Shape::Closing));
    expect_tag(&rt, &[0xff, 0xff], tag(255, true, Shape::Closing));
    expect_tag(&rt, &[0xf9, 0x05], primitive(5, true, 1));
    // Lengths of one, two and four octets, also needlessly long.
    expect_tag(&rt, &[0x75, 0xfd], primitive(7, false, 253));
    expect_tag(&rt, &[0x75, 0x02], primitive(7, false, 2));
    expect_tag(&rt, &[0x75, 0xfe, 0x01, 0x00], primitive(7, false, 256));
    expect_tag(&rt, &[0x75, 0xfe, 0x00, 0x05], primitive(7, false, 5));
    expect_tag(
        &rt,
        &[0x75, 0xff, 0x00, 0x01, 0x00, 0x00],
        primitive(7, false, 65_536),
    );
    expect_tag(
        &rt,
        &[0x75, 0xff, 0x00, 0x00, 0x00, 0x01],
        primitive(7, false, 1),
    );
    expect_tag(
        &rt,
        &[0x75, 0xff, 0xff, 0xff, 0xff, 0xff],
        primitive(7, false, u32::MAX),
    );
    expect_tag(
        &rt,
        &[0xfd, 0x21, 0xfe, 0x12, 0x34],
        primitive(33, true, 0x1234),
    );
    // The bits that open and close mean the same in an application's tag.
    expect_tag(&rt, &[0x26], tag(2, false, Shape::Opening));
    expect_tag(&rt, &[0x27], tag(2, false, Shape::Closing));
}

#[test]
fn a_cut_tag_is_truncated(rt: HostRuntime) {
    expect_cut(&rt, &[]);
    expect_cut(&rt, &[0xf9]);
    expect_cut(&rt, &[0x75]);
    expect_cut(&rt, &[0xfd, 0x21]);
    expect_cut(&rt, &[0x75, 0xfe]);
    expect_cut(&rt, &[0x75, 0xfe, 0x01]);
    expect_cut(&rt, &[0x75, 0xff, 0x00, 0x00, 0x01]);
}

/// The front of an event notification of a device 1001 for an integer value 1.
const NOTE: [u8; 37] = [
    0x09, 0x01, 0x1c, 0x02, 0x00, 0x03, 0xe9, 0x2c, 0x0b, 0x40, 0x00, 0x01, 0x3e, 0x2e, 0xa4, 0x7b,
    0x0b, 0x0e, 0x02, 0xb4, 0x16, 0x0d, 0x1e, 0x00, 0x2f, 0x3f, 0x49, 0x07, 0x59, 0x64, 0x99, 0x01,
    0xa9, 0x00, 0x1a, 0x04, 0x80,
];

/// The time stamp of `NOTE`.
const RAISED: Stamp = Stamp {
    octets: [0x7b, 0x0b, 0x0e, 0x02, 0x16, 0x0d, 0x1e, 0x00],
};

#[test]
fn the_first_elements_of_a_notification_are_read_in_turn(rt: HostRuntime) -> Result<(), Fail> {
    same(&rt, &read_unsigned(&NOTE, 0, Some(0)), &Ok((1, 2)));
    let device = ObjectId::new(8, 1001)?;
    same(&rt, &read_object(&NOTE, 2, Some(1)), &Ok((device, 7)));
    let value = ObjectId::new(45, 1)?;
    same(&rt, &read_object(&NOTE, 7, Some(2)), &Ok((value, 12)));
    let opening = tag(3, true, Shape::Opening);
    same(&rt, &read_tag(&NOTE, 12), &Ok((opening, 13)));
    same(&rt, &read_stamp(&NOTE, 14, None), &Ok((RAISED, 24)));
    Ok(())
}

#[test]
fn the_last_elements_of_a_notification_are_read_in_turn(rt: HostRuntime) -> Result<(), Fail> {
    same(&rt, &read_unsigned(&NOTE, 28, Some(5)), &Ok((100, 30)));
    same(&rt, &read_bool(&NOTE, 30, Some(9)), &Ok((true, 32)));
    same(&rt, &read_unsigned(&NOTE, 32, Some(10)), &Ok((0, 34)));
    let flags = Bits::new(4, 1)?;
    same(&rt, &read_bits(&NOTE, 34, Some(1)), &Ok((flags, 37)));
    Ok(())
}

#[test]
fn the_time_of_a_stamp_has_a_place_of_its_own(rt: HostRuntime) {
    same(
        &rt,
        &read_stamp(&NOTE[..22], 14, None),
        &Err(TagFault::Truncated { at: 22 }),
    );
    same(
        &rt,
        &read_stamp(&[0xa4, 1, 2, 3, 4, 0xa4, 1, 2, 3, 4], 0, None),
        &Err(TagFault::WrongTag { at: 5 }),
    );
}

/// What is read of each of these octets as an unsigned number.
fn expect_unsigned(rt: &impl Abort, rows: &[(&[u8], Option<u8>, Result<(u32, usize), TagFault>)]) {
    for (octets, context, wanted) in rows {
        same(rt, &read_unsigned(octets, 0, *context), wanted);
    }
}

#[test]
fn numbers_have_one_to_four_octets(rt: HostRuntime) {
    let none = Err(TagFault::BadLength { at: 0 });
    let other = Err(TagFault::WrongTag { at: 0 });
    expect_unsigned(
        &rt,
        &[
            (&[0x24, 0xff, 0xff, 0xff, 0xff], None, Ok((u32::MAX, 5))),
            (&[0x22, 0x00, 0x05], None, Ok((5, 3))),
            (&[0x25, 0x01, 0x07], None, Ok((7, 3))),
            (&[0x20], None, none),
            (&[0x25, 0x05, 0, 0, 0, 0, 1], None, none),
            (&[0x25, 0x05], None, none),
            (&[0x22, 0x05], None, Err(TagFault::Truncated { at: 2 })),
            (&[0x09, 0x01], None, other),
            (&[0x21, 0x01], Some(2), other),
            (&[0x26, 0x01], None, other),
            (&[0x2e, 0x01], Some(2), other),
            (&[0x31], None, other),
        ],
    );
}

/// Each of these octets is the signed number and nothing else.
fn expect_signed(rt: &impl Abort, rows: &[(&[u8], i32)]) {
    for (octets, wanted) in rows {
        same(
            rt,
            &read_signed(octets, 0, None),
            &Ok((*wanted, octets.len())),
        );
    }
}

#[test]
fn signed_numbers_have_one_to_four_octets(rt: HostRuntime) {
    expect_signed(
        &rt,
        &[
            (&[0x31, 0xff], -1),
            (&[0x31, 0x80], -128),
            (&[0x32, 0xff, 0x7f], -129),
            (&[0x33, 0x00, 0xff, 0xff], 65_535),
            (&[0x34, 0x80, 0x00, 0x00, 0x00], i32::MIN),
        ],
    );
}

#[test]
fn booleans_are_in_the_tag_or_behind_it(rt: HostRuntime) {
    same(&rt, &read_bool(&[0x10], 0, None), &Ok((false, 1)));
    same(&rt, &read_bool(&[0x11], 0, None), &Ok((true, 1)));
    same(&rt, &read_bool(&[0x15, 0x01], 0, None), &Ok((true, 2)));
    same(&rt, &read_bool(&[0x19, 0x00], 0, Some(1)), &Ok((false, 2)));
    let none = Err(TagFault::BadLength { at: 0 });
    same(&rt, &read_bool(&[0x12, 0, 0], 0, None), &none);
    same(&rt, &read_bool(&[0x19, 0x02], 0, Some(1)), &none);
    same(&rt, &read_bool(&[0x18], 0, Some(1)), &none);
    same(
        &rt,
        &read_bool(&[0x19], 0, Some(1)),
        &Err(TagFault::Truncated { at: 1 }),
    );
}

/// The octets are so many bits, which make this number, and nothing else.
fn expect_bits(
    rt: &impl Abort,
    octets: &[u8],
    context: Option<u8>,
    bits: (u8, u64),
) -> Result<(), Fail> {
    let bits = Bits::new(bits.0, bits.1)?;
    same(
        rt,
        &read_bits(octets, 0, context),
        &Ok((bits, octets.len())),
    );
    Ok(())
}

/// The octets are no bits.
fn expect_no_bits(rt: &impl Abort, octets: &[u8]) {
    let none = Err(TagFault::BadLength { at: 0 });
    same(rt, &read_bits(octets, 0, None), &none);
}

#[test]
fn bit_strings_begin_with_their_first_bit(rt: HostRuntime) -> Result<(), Fail> {
    expect_bits(&rt, &[0x2a, 0x05, 0x60], Some(2), (3, 6))?;
    // Bits that aren't used are read over.
    expect_bits(&rt, &[0x82, 0x05, 0x7f], None, (3, 6))?;
    expect_bits(&rt, &[0x83, 0x04, 0x80, 0x50], None, (12, 0x0a01))?;
    expect_bits(&rt, &[0x81, 0x00], None, (0, 0))?;
    let all = [0x85, 0x09, 0, 255, 255, 255, 255, 255, 255, 255, 254];
    expect_bits(&rt, &all, None, (64, u64::MAX >> 1))
}

#[test]
fn what_is_no_bit_string_is_refused(rt: HostRuntime) {
    expect_no_bits(&rt, &[0x85, 0x0a, 7, 0, 0, 0, 0, 0, 0, 0, 0, 0]);
    expect_no_bits(&rt, &[0x80]);
    expect_no_bits(&rt, &[0x81, 0x01]);
    expect_no_bits(&rt, &[0x82, 0x08, 0x00]);
}

/// The octets are the value and nothing else.
fn expect_value(rt: &impl Abort, alloc: Global, octets: &[u8], expected: Value) {
    same(
        rt,
        &read_value(alloc, octets, 0),
        &Ok((expected, octets.len())),
    );
}

fn opaque(tag: u8, why: Foreign) -> Value {
    Value::Opaque { tag, why }
}

#[test]
fn values_are_read_by_their_type(rt: HostRuntime) -> Result<(), Fail> {
    expect_value(&rt, rt.alloc(), &[0x00], Value::Null);
    expect_value(&rt, rt.alloc(), &[0x11], Value::Bool(true));
    expect_value(&rt, rt.alloc(), &[0x22, 0x05, 0xc4], Value::Unsigned(1476));
    expect_value(&rt, rt.alloc(), &[0x31, 0x9c], Value::Signed(-100));
    expect_value(&rt, rt.alloc(), &[0x91, 0x03], Value::Enumerated(3));
    let device = ObjectId::new(8, 1001)?;
    expect_value(
        &rt,
        rt.alloc(),
        &[0xc4, 0x02, 0x00, 0x03, 0xe9],
        Value::Object(device),
    );
    expect_value(
        &rt,
        rt.alloc(),
        &[0x82, 0x05, 0x60],
        Value::Bits(Bits::new(3, 6)?),
    );
    let text = Text::new(rt.alloc(), "Lüfter")?;
    let octets = [0x75, 0x08, 0x00, 0x4c, 0xc3, 0xbc, 0x66, 0x74, 0x65, 0x72];
    expect_value(&rt, rt.alloc(), &octets, Value::Text(text));
    Ok(())
}

#[test]
fn what_is_not_taken_is_opaque_by_its_reason(rt: HostRuntime) {
    let real = [0x44, 0x3f, 0x80, 0x00, 0x00];
    expect_value(&rt, rt.alloc(), &real, opaque(4, Foreign::OtherType));
    let date = [0xa4, 0x7b, 0x0b, 0x0e, 0x02];
    expect_value(&rt, rt.alloc(), &date, opaque(10, Foreign::OtherType));
    let time = [0xb4, 0x16, 0x0d, 0x1e, 0x00];
    expect_value(&rt, rt.alloc(), &time, opaque(11, Foreign::OtherType));
    expect_value(&rt, rt.alloc(), &[0x60], opaque(6, Foreign::OtherType));
    expect_value(
        &rt,
        rt.alloc(),
        &[0xf1, 0x20, 0x01],
        opaque(32, Foreign::OtherType),
    );
    let long = [0x25, 0x05, 0, 0, 0, 0, 1];
    expect_value(&rt, rt.alloc(), &long, opaque(2, Foreign::OutOfRange));
    let bits = [0x85, 0x0a, 7, 0, 0, 0, 0, 0, 0, 0, 0, 0];
    expect_value(&rt, rt.alloc(), &bits, opaque(8, Foreign::OutOfRange));
    expect_value(
        &rt,
        rt.alloc(),
        &[0x73, 0x04, 0xe9, 0x21],
        opaque(7, Foreign::CharacterSet),
    );
    expect_value(
        &rt,
        rt.alloc(),
        &[0x73, 0x00, 0xc3, 0x28],
        opaque(7, Foreign::NotUtf8),
    );
}

/// The octets are no value, for this reason.
fn expect_no_value(rt: &impl Abort, alloc: Global, octets: &[u8], fault: TagFault) {
    same(rt, &read_value(alloc, octets, 0).err(), &Some(fault));
}

#[test]
fn what_is_no_value_is_refused(rt: HostRuntime) {
    let other = TagFault::WrongTag { at: 0 };
    expect_no_value(&rt, rt.alloc(), &[0x09, 0x01], other);
    expect_no_value(&rt, rt.alloc(), &[0x26], other);
    let none = TagFault::BadLength { at: 0 };
    expect_no_value(&rt, rt.alloc(), &[0x12, 0, 0], none);
    expect_no_value(&rt, rt.alloc(), &[0x43, 0, 0, 0], none);
    expect_no_value(&rt, rt.alloc(), &[0x82, 0x08, 0x00], none);
    let cut = TagFault::Truncated { at: 2 };
    expect_no_value(&rt, rt.alloc(), &[0x25, 0x05], cut);
}

/// 256 letters.
fn longest(alloc: Global) -> Result<String, Fail> {
    Ok(String::from_str(alloc, "0123456789abcdef")?.repeat(alloc, 16)?)
}

/// The text of 256 letters is written with a length of two octets, and read back.
fn expect_longest(rt: &impl Abort, alloc: Global, text: Value) -> Result<(), Fail>
    requires { IsWritable text }
{
    let mut octets = Vec::new(alloc);
    let written = write_value(&mut octets, &text);
    counts(rt, octets.len(), 261);
    let front = [0x75, 0xfe, 0x01, 0x01, 0x00];
    holds(rt, octets.as_slice().starts_with(&front));
    expect_value(rt, alloc, octets.as_slice(), text);
    drop(octets);
    Ok(written?)
}

#[test]
fn texts_of_256_octets_are_the_longest(rt: HostRuntime) -> Result<(), Fail> {
    let letters = longest(rt.alloc())?;
    let text = Text::new(rt.alloc(), letters.as_str());
    drop(letters);
    expect_longest(&rt, rt.alloc(), Value::Text(text?))
}

/// A text of these letters and one octet more, with a length of 258 octets.
fn longer(alloc: Global, letters: &[u8]) -> Result<Vec<u8>, Fail> {
    let mut octets = Vec::new(alloc);
    octets.extend_from_slice(&[0x75, 0xfe, 0x01, 0x02, 0x00])?;
    octets.extend_from_slice(letters)?;
    octets.extend_from_slice(&[0xff])?;
    Ok(octets)
}

#[test]
fn a_text_of_257_octets_is_opaque(rt: HostRuntime) -> Result<(), Fail> {
    let letters = longest(rt.alloc())?;
    let octets = longer(rt.alloc(), letters.as_bytes())?;
    let long = opaque(7, Foreign::TooLong);
    expect_value(&rt, rt.alloc(), octets.as_slice(), long);
    Ok(())
}

/// The front of a notification, as `NOTE` begins.
fn write_front(out: &mut Vec<u8>) -> Result<(), Fail> {
    write_unsigned(out, Some(0), 1)?;
    write_object(out, Some(1), ObjectId::new(8, 1001)?)?;
    write_object(out, Some(2), ObjectId::new(45, 1)?)?;
    write_tag(out, tag(3, true, Shape::Opening))?;
    write_tag(out, tag(2, true, Shape::Opening))?;
    write_stamp(out, None, RAISED)?;
    write_tag(out, tag(2, true, Shape::Closing))?;
    write_tag(out, tag(3, true, Shape::Closing))?;
    Ok(())
}

/// All elements of `NOTE`.
fn write_note(out: &mut Vec<u8>) -> Result<(), Fail> {
    write_front(out)?;
    write_unsigned(out, Some(4), 7)?;
    write_unsigned(out, Some(5), 100)?;
    write_bool(out, Some(9), true)?;
    write_unsigned(out, Some(10), 0)?;
    write_bits(out, Some(1), Bits::new(4, 1)?)?;
    Ok(())
}

#[test]
fn elements_of_a_notification_are_written_in_turn(rt: HostRuntime) -> Result<(), Fail> {
    let mut out = Vec::new(rt.alloc());
    let written = write_note(&mut out);
    same(&rt, &out.as_slice(), &NOTE.as_slice());
    drop(out);
    written
}

/// A tag and numbers, of which each has the fewest octets.
fn write_numbers(out: &mut Vec<u8>) -> Result<(), Fail> {
    write_tag(out, tag(19, true, Shape::Closing))?;
    write_signed(out, None, -128)?;
    write_signed(out, None, -129)?;
    write_signed(out, None, i32::MAX)?;
    Ok(write_unsigned(out, Some(200), 65_536)?)
}

#[test]
fn the_shortest_spelling_of_numbers_is_written(rt: HostRuntime) -> Result<(), Fail> {
    let mut out = Vec::new(rt.alloc());
    let written = write_numbers(&mut out);
    let expected = [
        0xff, 0x13, 0x31, 0x80, 0x32, 0xff, 0x7f, 0x34, 0x7f, 0xff, 0xff, 0xff, 0xfb, 0xc8, 0x01,
        0x00, 0x00,
    ];
    same(&rt, &out.as_slice(), &expected.as_slice());
    drop(out);
    written
}

/// A boolean, a number of a list, and strings of nine bits and of none.
fn write_others(out: &mut Vec<u8>) -> Result<(), Fail> {
    write_value(out, &Value::Bool(true))?;
    write_value(out, &Value::Enumerated(3))?;
    write_bits(out, None, Bits::new(9, 0x100)?)?;
    Ok(write_bits(out, None, Bits::new(0, 0)?)?)
}

#[test]
fn the_shortest_spelling_of_other_values_is_written(rt: HostRuntime) -> Result<(), Fail> {
    let mut out = Vec::new(rt.alloc());
    let written = write_others(&mut out);
    let expected = [0x11, 0x91, 0x03, 0x83, 0x07, 0x00, 0x80, 0x81, 0x00];
    same(&rt, &out.as_slice(), &expected.as_slice());
    drop(out);
    written
}

/// The value is written as these octets, and nothing else is.
fn expect_value_written(
    rt: &impl Abort,
    alloc: Global,
    value: Value,
    octets: &[u8],
) -> Result<(), Fail>
    requires { IsWritable value }
{
    let mut out = Vec::new(alloc);
    let written = write_value(&mut out, &value);
    drop(value);
    same(rt, &out.as_slice(), &octets);
    drop(out);
    Ok(written?)
}

#[test]
fn numbers_are_written_as_values(rt: HostRuntime) -> Result<(), Fail> {
    let alloc = rt.alloc();
    expect_value_written(&rt, alloc, Value::Null, &[0x00])?;
    expect_value_written(&rt, alloc, Value::Unsigned(0), &[0x21, 0x00])?;
    expect_value_written(&rt, alloc, Value::Unsigned(1476), &[0x22, 0x05, 0xc4])?;
    expect_value_written(&rt, alloc, Value::Signed(-100), &[0x31, 0x9c])?;
    expect_value_written(&rt, alloc, Value::Signed(128), &[0x32, 0x00, 0x80])
}

#[test]
fn bits_and_objects_are_written_as_values(rt: HostRuntime) -> Result<(), Fail> {
    let flags = Value::Bits(Bits::new(3, 6)?);
    expect_value_written(&rt, rt.alloc(), flags, &[0x82, 0x05, 0x60])?;
    let device = Value::Object(ObjectId::new(8, 1001)?);
    let octets = [0xc4, 0x02, 0x00, 0x03, 0xe9];
    expect_value_written(&rt, rt.alloc(), device, &octets)
}

#[test]
fn stamps_and_texts_are_written_as_values(rt: HostRuntime) -> Result<(), Fail> {
    let octets = [0xa4, 0x7b, 0x0b, 0x0e, 0x02, 0xb4, 0x16, 0x0d, 0x1e, 0x00];
    expect_value_written(&rt, rt.alloc(), Value::DateTime(RAISED), &octets)?;
    let text = Value::Text(Text::new(rt.alloc(), "Lüfter")?);
    let octets = [0x75, 0x08, 0x00, 0x4c, 0xc3, 0xbc, 0x66, 0x74, 0x65, 0x72];
    expect_value_written(&rt, rt.alloc(), text, &octets)
}
