//! Parameters, required and optional.

use crate::comparing::{holds, same};
use bac_tags::*;
use bac_values::ObjectId;
use std::test::Fail;

const fn malformed(reject: u8, at: usize) -> Malformed {
    Malformed { reject, at }
}

/// A process of 1, an integer value 1, and a time stamp that is a sequence number of 5.
const OCTETS: [u8; 11] = [
    0x09, 0x01, 0x1c, 0x0b, 0x40, 0x00, 0x01, 0x3e, 0x19, 0x05, 0x3f,
];

#[test]
fn required_parameters_are_there(rt: HostRuntime) -> Result<(), Fail> {
    same(&rt, &required_unsigned(&OCTETS, 0, 0), &Ok((1, 2)));
    same(
        &rt,
        &required_object(&OCTETS, 2, 1),
        &Ok((ObjectId::new(45, 1)?, 7)),
    );
    same(
        &rt,
        &required_unsigned(&OCTETS, 2, 0),
        &Err(malformed(4, 2)),
    );
    same(
        &rt,
        &required_unsigned(&OCTETS[..2], 2, 1),
        &Err(malformed(5, 2)),
    );
    same(
        &rt,
        &required_unsigned(&OCTETS[..1], 0, 0),
        &Err(malformed(4, 0)),
    );
    same(&rt, &nothing_follows(&OCTETS, 11), &Ok(()));
    same(&rt, &nothing_follows(&OCTETS, 7), &Err(malformed(7, 7)));
    Ok(())
}

#[test]
fn optional_parameters_may_be_absent(rt: HostRuntime) -> Result<(), Fail> {
    same(&rt, &optional_unsigned(&OCTETS, 0, 0), &Ok((Some(1), 2)));
    let object = Some(ObjectId::new(45, 1)?);
    same(&rt, &optional_object(&OCTETS, 2, 1), &Ok((object, 7)));
    // Another whole tag, the end of the octets, a cut content, a cut header, and a length that no number has.
    same(&rt, &optional_unsigned(&OCTETS, 0, 1), &Ok((None, 0)));
    same(&rt, &optional_unsigned(&OCTETS, 11, 4), &Ok((None, 11)));
    same(
        &rt,
        &optional_unsigned(&OCTETS[..1], 0, 0),
        &Err(malformed(4, 0)),
    );
    same(
        &rt,
        &optional_unsigned(&[0xf9], 0, 15),
        &Err(malformed(4, 0)),
    );
    same(
        &rt,
        &optional_unsigned(&[0x08], 0, 0),
        &Err(malformed(4, 0)),
    );
    Ok(())
}

#[test]
fn tags_open_and_close(rt: HostRuntime) {
    same(&rt, &read_opening(&OCTETS, 7, 3), &Ok(8));
    same(&rt, &read_closing(&OCTETS, 10, 3), &Ok(11));
    same(
        &rt,
        &read_opening(&OCTETS, 7, 2),
        &Err(TagFault::WrongTag { at: 7 }),
    );
    same(
        &rt,
        &read_closing(&OCTETS, 7, 3),
        &Err(TagFault::WrongTag { at: 7 }),
    );
    // An application's tag opens no parameter.
    same(
        &rt,
        &read_opening(&[0x36], 0, 3),
        &Err(TagFault::WrongTag { at: 0 }),
    );
    same(&rt, &read_octets(&OCTETS, 2, 1, 1, 4).map(|x| x.1), &Ok(7));
    same(
        &rt,
        &read_octets(&OCTETS, 2, 1, 5, 9).map(|x| x.1),
        &Err(TagFault::BadLength { at: 2 }),
    );
}

#[test]
fn tags_are_written(rt: HostRuntime) -> Result<(), Fail> {
    let mut out = Vec::new(rt.alloc());
    write_opening(&mut out, 3)?;
    write_closing(&mut out, 3)?;
    // A number above 14 has an octet of its own.
    write_opening(&mut out, 19)?;
    write_closing(&mut out, 19)?;
    let octets: &[u8] = &[0x3e, 0x3f, 0xfe, 0x13, 0xff, 0x13];
    holds(&rt, out.as_slice() == octets);
    Ok(())
}
