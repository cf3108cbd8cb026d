//! Elements of any length.

use crate::comparing::same;
use bac_tags::*;
use bac_values::Bits;
use std::process::Abort;
use std::test::Fail;

/// The octets are an OctetString and nothing else, whose own octets begin there.
fn expect_octets(rt: &impl Abort, octets: &[u8], start: usize) {
    same(
        rt,
        &read_octet_string(octets, 0),
        &Ok((start, octets.len())),
    );
}

fn expect_no_octets(rt: &impl Abort, octets: &[u8], fault: TagFault) {
    same(rt, &read_octet_string(octets, 0), &Err(fault));
}

#[test]
fn octet_strings_have_any_length(rt: HostRuntime) {
    // The example of 20.2.8.
    expect_octets(&rt, &[0x63, 0x12, 0x34, 0xff], 1);
    expect_octets(&rt, &[0x60], 1);
    expect_octets(&rt, &[0x65, 6, 10, 0, 0, 8, 0xba, 0xc0], 2);
    let mut long = [7; 260];
    long[..4].copy_from_slice(&[0x65, 0xfe, 1, 0]);
    expect_octets(&rt, &long, 4);
    expect_no_octets(&rt, &[0x71, 0x00], TagFault::WrongTag { at: 0 });
    expect_no_octets(&rt, &[0x69, 0x00], TagFault::WrongTag { at: 0 });
    expect_no_octets(&rt, &[0x63, 0x12], TagFault::Truncated { at: 2 });
    expect_no_octets(
        &rt,
        &[0x65, 0xff, 0xff, 0xff, 0xff, 0xff],
        TagFault::Truncated { at: 6 },
    );
}

#[test]
fn times_have_four_octets(rt: HostRuntime) {
    // The example of 20.2.13: 5:35:45.17 in the afternoon.
    same(
        &rt,
        &read_time(&[0xb4, 0x11, 0x23, 0x2d, 0x11], 0),
        &Ok(([17, 35, 45, 17], 5)),
    );
    // Parts that may be any are read too.
    same(
        &rt,
        &read_time(&[0x00, 0xb4, 255, 255, 255, 255], 1),
        &Ok(([255; 4], 6)),
    );
    let none = Err(TagFault::BadLength { at: 0 });
    same(&rt, &read_time(&[0xb3, 0x11, 0x23, 0x2d], 0), &none);
    let date = Err(TagFault::WrongTag { at: 0 });
    same(&rt, &read_time(&[0xa4, 0x11, 0x23, 0x2d, 0x11], 0), &date);
}

fn expect_any_bits(rt: &impl Abort, octets: &[u8], bits: Option<Bits>) {
    same(rt, &read_any_bits(octets, 0), &Ok((bits, octets.len())));
}

#[test]
fn bit_strings_of_any_length_are_read(rt: HostRuntime) -> Result<(), Fail> {
    // The example of 20.2.10: 10101.
    expect_any_bits(&rt, &[0x82, 0x03, 0xa8], Some(Bits::new(5, 0x15)?));
    let all = [0x85, 9, 0, 255, 255, 255, 255, 255, 255, 255, 255];
    expect_any_bits(&rt, &all, Some(Bits::new(64, u64::MAX)?));
    // 65 bits, the first that have no value here.
    expect_any_bits(&rt, &[0x85, 10, 7, 0, 0, 0, 0, 0, 0, 0, 0, 0x80], None);
    Ok(())
}

fn expect_no_bits(rt: &impl Abort, octets: &[u8]) {
    let none = Err(TagFault::BadLength { at: 0 });
    same(rt, &read_any_bits(octets, 0), &none);
}

#[test]
fn what_is_no_bit_string_of_any_length_is_refused(rt: HostRuntime) {
    expect_no_bits(&rt, &[0x80]);
    expect_no_bits(&rt, &[0x81, 0x01]);
    expect_no_bits(&rt, &[0x82, 0x08, 0x00]);
    expect_no_bits(&rt, &[0x85, 10, 8, 0, 0, 0, 0, 0, 0, 0, 0, 0]);
}

#[test]
fn what_was_read_is_written_again(rt: HostRuntime) -> Result<(), Fail> {
    let mut out = Vec::new(rt.alloc());
    write_octet_string(&mut out, &[0x12, 0x34, 0xff])
        .ok()
        .ok_or("no memory")?;
    write_time(&mut out, [17, 35, 45, 17])
        .ok()
        .ok_or("no memory")?;
    let wanted = [0x63, 0x12, 0x34, 0xff, 0xb4, 0x11, 0x23, 0x2d, 0x11];
    same(&rt, &out.as_slice(), &wanted.as_slice());
    Ok(())
}

/// That the elements between the tags of 0 stand from the one place to the other, and the octets end behind them.
fn expect_elements(rt: &impl Abort, octets: &[u8], start: usize, stop: usize) {
    same(
        rt,
        &read_elements(octets, 0, 0),
        &Ok(((start, stop), octets.len())),
    );
}

fn expect_no_elements(rt: &impl Abort, octets: &[u8]) {
    let none = Err(TagFault::BadLength { at: 0 });
    same(rt, &read_elements(octets, 0, 0), &none);
}

#[test]
fn elements_stand_within_one_another_as_deep_as_octets_go(rt: HostRuntime) {
    let mut nested = [0x0e; 400];
    nested[200..].copy_from_slice(&[0x0f; 200]);
    expect_elements(&rt, &nested, 1, 399);
    // A number that doesn't fit, at each of three depths.
    nested[250] = 0x1f;
    expect_no_elements(&rt, &nested);
    nested[250] = 0x0f;
    nested[66] = 0x1e;
    expect_no_elements(&rt, &nested);
    nested[333] = 0x1f;
    expect_elements(&rt, &nested, 1, 399);
    nested[399] = 0x1f;
    expect_no_elements(&rt, &nested);
}

#[test]
fn as_many_tags_as_an_apdu_holds_are_read(rt: HostRuntime) {
    expect_no_elements(&rt, &[0x0e; 1476]);
    // Each is a Boolean.
    let mut flags = [0x10; 1476];
    flags[0] = 0x0e;
    expect_no_elements(&rt, &flags);
    flags[1475] = 0x0f;
    expect_elements(&rt, &flags, 1, 1475);
}
