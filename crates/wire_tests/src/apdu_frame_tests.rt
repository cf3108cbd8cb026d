//! Headers of APDUs.

use crate::comparing::same;
use apdu_frame::*;
use std::test::Fail;

#[test]
fn headers_of_requests_are_read(rt: HostRuntime) {
    // AcknowledgeAlarm
    let acknowledge = [
        0x00, 0x05, 0x07, 0x00, 0x09, 0x01, 0x1c, 0x0b, 0x40, 0x00, 0x01,
    ];
    same(
        &rt,
        &read_apdu(&acknowledge),
        &Apdu::Request {
            max_apdu: 1476,
            invoke: 7,
            service: 0,
            start: 4,
        },
    );
    // WriteProperty, whole and cut behind its header
    let write = [
        0x00, 0x05, 0x01, 0x0f, 0x0c, 0x0b, 0x40, 0x00, 0x01, 0x19, 0x55,
    ];
    let header = Apdu::Request {
        max_apdu: 1476,
        invoke: 1,
        service: 15,
        start: 4,
    };
    same(&rt, &read_apdu(&write), &header);
    same(&rt, &read_apdu(&write[..4]), &header);
    // a segment
    let segment = [0x08, 0x05, 0x01, 0x00, 0x04, 0x0f];
    same(&rt, &read_apdu(&segment), &Apdu::Segmented { invoke: 1 });
    // Who-Is
    same(
        &rt,
        &read_apdu(&[0x10, 0x08]),
        &Apdu::Unconfirmed {
            service: 8,
            start: 2,
        },
    );
}

#[test]
fn the_longest_answer_is_that_of_the_code(rt: HostRuntime) {
    let longest = [50, 128, 206, 480, 1024, 1476, 1476];
    for (second, expected) in [0x70, 0x01, 0x02, 0x03, 0x74, 0x05, 0x7f]
        .iter()
        .zip(longest.iter())
    {
        same(
            &rt,
            &read_apdu(&[0x02, *second, 0x09, 0x1d]),
            &Apdu::Request {
                max_apdu: *expected,
                invoke: 9,
                service: 29,
                start: 4,
            },
        );
    }
}

#[test]
fn answers_are_read_by_their_first_three_octets(rt: HostRuntime) {
    same(
        &rt,
        &read_apdu(&[0x20, 0x00, 0x02]),
        &Apdu::SimpleAck {
            invoke: 0,
            service: 2,
        },
    );
    same(
        &rt,
        &read_apdu(&[0x50, 0x03, 0x02, 0xff]),
        &Apdu::Error {
            invoke: 3,
            service: 2,
        },
    );
    same(
        &rt,
        &read_apdu(&[0x60, 0x04, 0x09]),
        &Apdu::Reject { invoke: 4 },
    );
    same(
        &rt,
        &read_apdu(&[0x70, 0x05, 0x04]),
        &Apdu::Abort { invoke: 5 },
    );
    same(
        &rt,
        &read_apdu(&[0x71, 0x06, 0x00, 0x01]),
        &Apdu::Abort { invoke: 6 },
    );
}

#[test]
fn what_is_cut_or_unknown_is_other(rt: HostRuntime) {
    let other: [&[u8]; 18] = [
        &[],
        // cut within the header
        &[0x00],
        &[0x00, 0x05, 0x07],
        &[0x08, 0x05, 0x01, 0x00],
        &[0x08, 0x05, 0x01, 0x00, 0x04],
        &[0x10],
        &[0x20, 0x07],
        &[0x50, 0x07],
        &[0x60],
        &[0x71, 0x07],
        // ComplexACK, SegmentACK, and what the standard has no APDU for
        &[0x30, 0x01, 0x1d, 0x0e, 0x0f],
        &[0x40, 0x01, 0x00, 0x04],
        &[0x80, 0x01, 0x02, 0x03],
        &[0x90, 0x01, 0x02, 0x03],
        &[0xa0, 0x01, 0x02, 0x03],
        &[0xc0, 0x01, 0x02, 0x03],
        &[0xe0, 0x01, 0x02, 0x03],
        &[0xf0, 0x01, 0x02, 0x03],
    ];
    for octets in other {
        same(&rt, &read_apdu(octets), &Apdu::Other);
    }
}

#[test]
fn answers_are_written(rt: HostRuntime) -> Result<(), Fail> {
    same(&rt, &simple_ack(7, 0), &[0x20, 0x07, 0x00]);
    same(
        &rt,
        &error(1, 15, 2, 37),
        &[0x50, 0x01, 0x0f, 0x91, 0x02, 0x91, 0x25],
    );
    same(&rt, &reject(1, 9), &[0x60, 0x01, 0x09]);
    same(&rt, &abort(1, 4), &[0x71, 0x01, 0x04]);
    let answer = complex_ack(rt.alloc(), 1, 29, &[0x0e, 0x0f])
        .ok()
        .ok_or("no memory")?;
    same(
        &rt,
        &answer.as_slice(),
        &[0x30, 0x01, 0x1d, 0x0e, 0x0f].as_slice(),
    );
    Ok(())
}

#[test]
fn errors_of_edits_name_the_first_element_that_failed(rt: HostRuntime) -> Result<(), Fail> {
    // RemoveListElement: the first element isn't in the list.
    let removing = change_list_error(rt.alloc(), 1, 9, 5, 81, 1)
        .ok()
        .ok_or("no memory")?;
    same(
        &rt,
        &removing.as_slice(),
        &[
            0x50, 0x01, 0x09, 0x0e, 0x91, 0x05, 0x91, 0x51, 0x0f, 0x19, 0x01,
        ]
        .as_slice(),
    );
    // AddListElement: the property isn't a list, whatever its elements are.
    let adding = change_list_error(rt.alloc(), 255, 8, 5, 22, 0)
        .ok()
        .ok_or("no memory")?;
    same(
        &rt,
        &adding.as_slice(),
        &[
            0x50, 0xff, 0x08, 0x0e, 0x91, 0x05, 0x91, 0x16, 0x0f, 0x19, 0x00,
        ]
        .as_slice(),
    );
    let last = change_list_error(rt.alloc(), 1, 8, 3, 19, 0x0001_0000)
        .ok()
        .ok_or("no memory")?;
    same(
        &rt,
        &last.as_slice(),
        &[
            0x50, 0x01, 0x08, 0x0e, 0x91, 0x03, 0x91, 0x13, 0x0f, 0x1b, 0x01, 0x00, 0x00,
        ]
        .as_slice(),
    );
    Ok(())
}

#[test]
fn requests_are_written(rt: HostRuntime) -> Result<(), Fail> {
    let confirmed = request(rt.alloc(), 0, 2, &[0x09, 0x01])
        .ok()
        .ok_or("no memory")?;
    same(
        &rt,
        &confirmed.as_slice(),
        &[0x00, 0x05, 0x00, 0x02, 0x09, 0x01].as_slice(),
    );
    let announced = unconfirmed(rt.alloc(), 0, &[0xc4, 0x02])
        .ok()
        .ok_or("no memory")?;
    same(
        &rt,
        &announced.as_slice(),
        &[0x10, 0x00, 0xc4, 0x02].as_slice(),
    );
    Ok(())
}
