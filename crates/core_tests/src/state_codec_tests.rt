//! Records, octet by octet.

use crate::comparing::holds;
use alarm_core::Act;
use bac_values::{PropertyId, Value};
use object_table::What;
use state_codec::{CodecFault, read_event, write_event};
use std::alloc::Global;
use std::process::Abort;
use std::test::*;

/// A moment in eight octets: 1700000000000.
const MOMENT: [u8; 8] = [0, 0, 0x01, 0x8B, 0xCF, 0xE5, 0x68, 0];

/// The moment, and what stands behind it.
fn at_moment(alloc: Global, rest: &[u8]) -> Result<Vec<u8>, Fail> {
    let mut octets = Vec::from_slice(alloc, &MOMENT)?;
    octets.extend_from_slice(rest)?;
    Ok(octets)
}

/// Whether octets begin with the record that has so many of them, and the event that is read there is written as it was.
fn is_record(alloc: Global, octets: &[u8], count: usize) -> Result<bool, Fail> {
    match read_event(alloc, octets, 0) {
        Ok((event, end)) => {
            let again = write_event(alloc, &event)?;
            Ok(end == count && octets.starts_with(&again) && again.len() == count)
        }
        Err(_) => Ok(false),
    }
}

/// What stands behind the moment is what happens, whatever follows it.
fn is_act(rt: &impl Abort, alloc: Global, act: &[u8]) -> Result<(), Fail> {
    let mut octets = at_moment(alloc, act)?;
    let count = octets.len();
    holds(rt, is_record(alloc, &octets, count)?);
    octets.extend_from_slice(&MOMENT)?;
    holds(rt, is_record(alloc, &octets, count)?);
    Ok(())
}

/// Each of these is what happens.
fn are_acts(rt: &impl Abort, alloc: Global, acts: &[&[u8]]) -> Result<(), Fail> {
    for act in acts {
        is_act(rt, alloc, act)?;
    }
    Ok(())
}

#[test]
fn each_act_has_its_record(rt: HostRuntime) -> Result<(), Fail> {
    are_acts(
        &rt,
        rt.alloc(),
        &[
            &[1],
            &[3, 0x0B, 0x40, 0, 1, 7],
            &[4, 0x0B, 0x40, 0, 1, 0, 3],
            &[5],
            &ANSWER,
            &FAR_ANSWER,
            &[7, 0, 0, 0, 7, 0],
            &EDIT,
        ],
    )
}

/// A peer on the local network answers.
const ANSWER: [u8; 19] = [
    6, 10, 0, 0, 5, 0xBA, 0xC0, 0, 0, 0, 0, 0, 0, 0, 0, 0, 0, 9, 2,
];

/// A peer behind a router answers.
const FAR_ANSWER: [u8; 19] = [
    6, 10, 0, 0, 5, 0xBA, 0xC0, 0, 9, 2, 0x12, 0x34, 0, 0, 0, 0, 0, 255, 7,
];

/// A class has one recipient.
const EDIT: [u8; 37] = [
    7, 0, 0, 0, 7, 1, 127, 0, 0, 0, 0, 0, 0x83, 0xD5, 0xFF, 10, 0, 0, 5, 0xBA, 0xC0, 0, 0, 0, 0, 0,
    0, 0, 0, 0, 0, 0, 0, 0, 1, 1, 7,
];

#[test]
fn each_value_has_its_record(rt: HostRuntime) -> Result<(), Fail> {
    are_acts(
        &rt,
        rt.alloc(),
        &[
            // Out_Of_Service is TRUE.
            &[2, 0x0B, 0x40, 0, 1, 0, 0, 0, 81, 1, 1],
            // Time_Delay is 10.
            &[2, 0x0B, 0x40, 0, 1, 0, 0, 0, 113, 2, 0, 0, 0, 10],
            // Present_Value is 90, then -1.
            &[2, 0x0B, 0x40, 0, 1, 0, 0, 0, 85, 3, 0, 0, 0, 90],
            &[2, 0x0B, 0x40, 0, 1, 0, 0, 0, 85, 3, 255, 255, 255, 255],
            // Present_Value is "fire".
            &[2, 0x0A, 0, 0, 1, 0, 0, 0, 85, 7, 0, 4, 102, 105, 114, 101],
            // Present_Value is the bits 0011.
            &[
                2, 0x09, 0xC0, 0, 1, 0, 0, 0, 85, 8, 4, 0, 0, 0, 0, 0, 0, 0, 12,
            ],
            // Present_Value is ACTIVE.
            &[2, 0x01, 0x40, 0, 1, 0, 0, 0, 85, 9, 0, 0, 0, 1],
        ],
    )
}

/// Three sets: 90, 50 and 90, a millisecond apart.
const SETS: [u8; 66] = [
    0, 0, 0x01, 0x8B, 0xCF, 0xE5, 0x68, 0, 2, 0x0B, 0x40, 0, 1, 0, 0, 0, 85, 3, 0, 0, 0, 90, //
    0, 0, 0x01, 0x8B, 0xCF, 0xE5, 0x68, 1, 2, 0x0B, 0x40, 0, 1, 0, 0, 0, 85, 3, 0, 0, 0, 50, //
    0, 0, 0x01, 0x8B, 0xCF, 0xE5, 0x68, 2, 2, 0x0B, 0x40, 0, 1, 0, 0, 0, 85, 3, 0, 0, 0, 90,
];

/// Whether the event at a place of the sets is that the value is set at the moment, and ends there.
fn is_set(alloc: Global, at: usize, moment: u64, wanted: i32) -> bool {
    if at > SETS.len() {
        return false;
    }
    match &read_event(alloc, &SETS, at) {
        Ok((event, end)) => *end == at + 22 && event.moment == moment && sets(&event.act, wanted),
        Err(_) => false,
    }
}

/// Whether it is that integer-value 1 has the value.
fn sets(act: &Act, wanted: i32) -> bool {
    let Act::Write { change } = act else {
        return false;
    };
    let What::Property { property, value } = &change.what else {
        return false;
    };
    change.object.number() == 45
        && change.object.instance() == 1
        && *property == PropertyId::PRESENT_VALUE
        && *value == Value::Signed(wanted)
}

#[test]
fn records_stand_behind_one_another(rt: HostRuntime) {
    let alloc = rt.alloc();
    holds(&rt, is_set(alloc, 0, 1_700_000_000_000, 90));
    holds(&rt, is_set(alloc, 22, 1_700_000_000_001, 50));
    holds(&rt, is_set(alloc, 44, 1_700_000_000_002, 90));
}

/// Whether nothing is read at the place.
fn is_refused(alloc: Global, octets: &[u8], at: usize) -> bool {
    if at > octets.len() {
        return false;
    }
    match read_event(alloc, octets, at) {
        Ok(_) => false,
        Err(fault) => fault == CodecFault::Malformed { at },
    }
}

#[test]
fn a_record_that_is_cut_is_refused_at_its_first_place(rt: HostRuntime) {
    let alloc = rt.alloc();
    for count in 0..22 {
        holds(&rt, is_refused(alloc, &SETS[..count], 0));
        holds(&rt, is_refused(alloc, &SETS[..22 + count], 22));
    }
}

/// What stands behind the moment is nothing that happens.
fn is_no_act(rt: &impl Abort, alloc: Global, act: &[u8]) -> Result<(), Fail> {
    holds(rt, is_refused(alloc, &at_moment(alloc, act)?, 0));
    Ok(())
}

/// None of these is anything that happens.
fn are_no_acts(rt: &impl Abort, alloc: Global, acts: &[&[u8]]) -> Result<(), Fail> {
    for act in acts {
        is_no_act(rt, alloc, act)?;
    }
    Ok(())
}

#[test]
fn a_moment_out_of_range_is_refused(rt: HostRuntime) {
    let alloc = rt.alloc();
    let first = [0, 0, 0, 0xDC, 0x6A, 0xCF, 0xAC, 0, 1];
    let before = [0, 0, 0, 0xDC, 0x6A, 0xCF, 0xAB, 0xFF, 1];
    let last = [0, 0, 0x03, 0xBB, 0x2C, 0xC3, 0xD7, 0xFF, 1];
    let after = [0, 0, 0x03, 0xBB, 0x2C, 0xC3, 0xD8, 0, 1];
    holds(&rt, !is_refused(alloc, &first, 0));
    holds(&rt, is_refused(alloc, &before, 0));
    holds(&rt, !is_refused(alloc, &last, 0));
    holds(&rt, is_refused(alloc, &after, 0));
}

#[test]
fn what_is_no_act_is_refused(rt: HostRuntime) -> Result<(), Fail> {
    are_no_acts(
        &rt,
        rt.alloc(),
        &[
            // No act has these numbers.
            &[0],
            &[8],
            // No transition, and no event state.
            &[4, 0x0B, 0x40, 0, 1, 3, 3],
            &[4, 0x0B, 0x40, 0, 1, 0, 5],
        ],
    )
}

#[test]
fn what_is_no_value_is_refused(rt: HostRuntime) -> Result<(), Fail> {
    are_no_acts(
        &rt,
        rt.alloc(),
        &[
            // A Null, a Real and an ObjectIdentifier.
            &[2, 0x0B, 0x40, 0, 1, 0, 0, 0, 85, 0],
            &[2, 0x0B, 0x40, 0, 1, 0, 0, 0, 85, 4, 0, 0, 0, 0],
            &[2, 0x0B, 0x40, 0, 1, 0, 0, 0, 85, 12, 0, 0, 0, 0],
            // A flag that is neither 0 nor 1.
            &[2, 0x0B, 0x40, 0, 1, 0, 0, 0, 81, 1, 2],
            // Octets that aren't UTF-8, and a text that ends too early.
            &[2, 0x0A, 0, 0, 1, 0, 0, 0, 85, 7, 0, 1, 0xFF],
            &[2, 0x0A, 0, 0, 1, 0, 0, 0, 85, 7, 0, 5, 102, 105, 114, 101],
            // 65 bits, and a bit behind the last one.
            &[
                2, 0x09, 0xC0, 0, 1, 0, 0, 0, 85, 8, 65, 0, 0, 0, 0, 0, 0, 0, 0,
            ],
            &[
                2, 0x09, 0xC0, 0, 1, 0, 0, 0, 85, 8, 4, 0, 0, 0, 0, 0, 0, 0, 16,
            ],
        ],
    )
}

/// The record of a text, of which this stands before its octets.
fn with_text(alloc: Global, front: &[u8], text: &[u8]) -> Result<Vec<u8>, Fail> {
    let mut octets = at_moment(alloc, front)?;
    octets.extend_from_slice(text)?;
    Ok(octets)
}

/// Whether a text with this before its octets is what happens, in so many octets.
fn is_text(alloc: Global, front: &[u8], text: &[u8], count: usize) -> Result<bool, Fail> {
    let octets = with_text(alloc, front, text)?;
    is_record(alloc, &octets, count)
}

/// Whether a text with this before its octets is refused.
fn is_no_text(alloc: Global, front: &[u8], text: &[u8]) -> Result<bool, Fail> {
    let octets = with_text(alloc, front, text)?;
    Ok(is_refused(alloc, &octets, 0))
}

#[test]
fn a_text_has_at_most_256_octets(rt: HostRuntime) -> Result<(), Fail> {
    let longest = [2, 0x0A, 0, 0, 1, 0, 0, 0, 85, 7, 1, 0];
    holds(&rt, is_text(rt.alloc(), &longest, &[120; 256], 276)?);
    let longer = [2, 0x0A, 0, 0, 1, 0, 0, 0, 85, 7, 1, 1];
    holds(&rt, is_no_text(rt.alloc(), &longer, &[120; 257])?);
    Ok(())
}

/// An answer, or an edit, of which one octet is another.
fn is_no_act_with(
    rt: &impl Abort,
    alloc: Global,
    act: &[u8],
    place: usize,
    octet: u8,
) -> Result<(), Fail> {
    let mut octets = Vec::from_slice(alloc, act)?;
    if let Some(one) = octets.get_mut(place) {
        *one = octet;
    }
    is_no_act(rt, alloc, &octets)
}

/// The same for each of these places and octets.
fn are_no_acts_with(
    rt: &impl Abort,
    alloc: Global,
    act: &[u8],
    others: &[(usize, u8)],
) -> Result<(), Fail> {
    for (place, octet) in others {
        is_no_act_with(rt, alloc, act, *place, *octet)?;
    }
    Ok(())
}

#[test]
fn what_is_no_peer_is_refused(rt: HostRuntime) -> Result<(), Fail> {
    are_no_acts_with(
        &rt,
        rt.alloc(),
        &FAR_ANSWER,
        &[
            // A station on the local network.
            (8, 0),
            // Eight octets of a station, and an octet behind the last one of two.
            (9, 8),
            (12, 1),
        ],
    )
}

#[test]
fn what_is_no_recipient_is_refused(rt: HostRuntime) -> Result<(), Fail> {
    are_no_acts_with(
        &rt,
        rt.alloc(),
        &EDIT,
        &[
            // More recipients than there are, and more than there may be.
            (5, 2),
            (5, 33),
            // An eighth day; a first and a last time behind the end of the day.
            (6, 128),
            (7, 1),
            (12, 0x84),
            // A flag that is neither 0 nor 1, and a fourth kind of transitions.
            (35, 2),
            (36, 8),
        ],
    )
}

#[test]
fn the_longest_record_has_1006_octets(rt: HostRuntime) -> Result<(), Fail> {
    let alloc = rt.alloc();
    let mut octets = at_moment(alloc, &[7, 0, 0, 0, 7, 32])?;
    for _ in 0..32 {
        octets.extend_from_slice(&EDIT[6..])?;
    }
    holds(&rt, is_record(alloc, &octets, 1006)?);
    Ok(())
}
