//! Edits of lists.

ghost use Rattle.std.specs.Prelude.{◌<◌, ◌^◌, length};

use crate::comparing::same;
use bac_tags::{invalid_tag, missing_parameter, too_many_arguments};
use bac_values::{Items, ObjectId, Peer, PropertyId};
use list_binding::{
    Binding, EditRefusal, ListLimits, ListRequest, are_same, edit, read_list_request,
};
use notify_class::{Class, Destination};
use std::alloc::Global;
use std::process::Abort;
use std::test::Fail;

/// A destination for all times of all days: 10.0.0.8:47808, process 2, unconfirmed, all transitions.
const ELEMENT: [u8; 31] = [
    0x82, 0x01, 0xfe, 0xb4, 0x00, 0x00, 0x00, 0x00, 0xb4, 0x17, 0x3b, 0x3b, 0x63, 0x1e, 0x21, 0x00,
    0x65, 0x06, 0x0a, 0x00, 0x00, 0x08, 0xba, 0xc0, 0x1f, 0x21, 0x02, 0x10, 0x82, 0x05, 0xe0,
];

/// The Recipient_List of notification class 7, and this element.
const REQUEST: [u8; 40] = [
    0x0c, 0x03, 0xc0, 0x00, 0x07, 0x19, 0x66, 0x3e, 0x82, 0x01, 0xfe, 0xb4, 0x00, 0x00, 0x00, 0x00,
    0xb4, 0x17, 0x3b, 0x3b, 0x63, 0x1e, 0x21, 0x00, 0x65, 0x06, 0x0a, 0x00, 0x00, 0x08, 0xba, 0xc0,
    0x1f, 0x21, 0x02, 0x10, 0x82, 0x05, 0xe0, 0x3f,
];

/// The same with a device, of the type and the instance that the octets behind its tag have.
const OF_DEVICE: [u8; 24] = [
    0x82, 0x01, 0xfe, 0xb4, 0x00, 0x00, 0x00, 0x00, 0xb4, 0x17, 0x3b, 0x3b, 0x63, 0x0c, 0x02, 0x00,
    0x00, 0x2a, 0x21, 0x02, 0x10, 0x82, 0x05, 0xe0,
];

fn destination(port: u16) -> Destination {
    Destination {
        days: 127,
        from: 0,
        to: 8_639_999,
        peer: Peer::local(0x0a00_0008, port),
        process: 2,
        confirmed: false,
        transitions: [true, true, true],
    }
}

#[test]
fn a_request_to_edit_a_list_is_read(rt: HostRuntime) -> Result<(), Fail> {
    let wanted = ListRequest {
        object: ObjectId::new(15, 7)?,
        property: PropertyId::RECIPIENT_LIST,
        index: None,
        start: 8,
        end: 39,
    };
    same(&rt, &read_list_request(&REQUEST), &Ok(wanted));
    // An index, and elements of another kind, which are looked at no further.
    let octets = [
        0x0c, 0x03, 0xc0, 0x00, 0x07, 0x19, 0x66, 0x29, 0x01, 0x3e, 0x00, 0x3f,
    ];
    let indexed = ListRequest {
        index: Some(1),
        start: 10,
        end: 11,
        ..wanted
    };
    same(&rt, &read_list_request(&octets), &Ok(indexed));
    Ok(())
}

#[test]
fn what_is_no_request_to_edit_a_list_is_refused(rt: HostRuntime) {
    same(&rt, &read_list_request(&[]), &Err(missing_parameter(0)));
    same(&rt, &read_list_request(&REQUEST[5..]), &Err(invalid_tag(0)));
    same(
        &rt,
        &read_list_request(&REQUEST[..5]),
        &Err(missing_parameter(5)),
    );
    same(
        &rt,
        &read_list_request(&REQUEST[..7]),
        &Err(missing_parameter(7)),
    );
    same(
        &rt,
        &read_list_request(&REQUEST[..39]),
        &Err(invalid_tag(7)),
    );
    let octets = [0x0c, 0x03, 0xc0, 0x00, 0x07, 0x19, 0x66, 0x3e, 0x3f, 0x00];
    same(
        &rt,
        &read_list_request(&octets),
        &Err(too_many_arguments(9)),
    );
}

// The list that an edit leaves of another, or why it leaves none. Device 42 is bound to 10.0.0.8:1; no peer is known, and the
// class has one member and room for 40 notes.
fn edited(
    alloc: Global,
    list: &[Destination],
    adding: bool,
    octets: &[u8],
) -> Result<Vec<Destination>, EditRefusal>
    requires short { length octets.now < 2 ^ 32 }
{
    let Ok(destinations) = list.to_vec(alloc) else {
        return Err(EditRefusal::NoMemory);
    };
    let class = Class {
        instance: 7,
        priority: [0, 0, 0],
        ack_required: [false, false, false],
        destinations: Items::of(destinations),
    };
    let bindings = [Binding {
        device: 42,
        peer: Peer::local(0x0a00_0008, 1),
    }];
    let limits = ListLimits {
        known: &[],
        members: 1,
        room: 40,
    };
    edit(alloc, &class, &limits, &bindings, adding, octets)
}

fn expect_list(
    rt: &impl Abort,
    alloc: Global,
    list: &[Destination],
    adding: bool,
    octets: &[u8],
    wanted: &[Destination],
)
    requires short { length octets.now < 2 ^ 32 }
{
    match edited(alloc, list, adding, octets) {
        Ok(left) => same(rt, &left.as_slice(), &wanted),
        Err(refusal) => same(rt, &Err(refusal), &Ok(())),
    }
}

fn expect_error(
    rt: &impl Abort,
    alloc: Global,
    list: &[Destination],
    adding: bool,
    octets: &[u8],
    error: (u8, u8, u32),
)
    requires short { length octets.now < 2 ^ 32 }
{
    let (class, code, element) = error;
    let wanted = EditRefusal::Error {
        class,
        code,
        element,
    };
    match edited(alloc, list, adding, octets) {
        Ok(left) => same(rt, &left.len(), &usize::MAX),
        Err(refusal) => same(rt, &refusal, &wanted),
    }
}

#[test]
fn an_element_is_added_once_and_removed(rt: HostRuntime) {
    let here = [destination(47_808)];
    expect_list(&rt, rt.alloc(), &[], true, &ELEMENT, &here);
    expect_list(&rt, rt.alloc(), &here, true, &ELEMENT, &here);
    expect_list(&rt, rt.alloc(), &here, false, &ELEMENT, &[]);
    expect_error(&rt, rt.alloc(), &[], false, &ELEMENT, (5, 81, 1));
    // Behind what is there.
    let both = [destination(1), destination(47_808)];
    expect_list(&rt, rt.alloc(), &both[..1], true, &ELEMENT, &both);
    expect_list(&rt, rt.alloc(), &both[..1], true, &[], &both[..1]);
}

#[test]
fn a_device_stands_for_the_peer_to_which_it_is_bound(rt: HostRuntime) {
    expect_list(&rt, rt.alloc(), &[], true, &OF_DEVICE, &[destination(1)]);
    let mut other = OF_DEVICE;
    other[17] = 0x2b;
    expect_error(&rt, rt.alloc(), &[], true, &other, (2, 37, 1));
    // Notification class 42 is no device.
    let mut class = OF_DEVICE;
    class[14] = 0x03;
    class[15] = 0xc0;
    expect_error(&rt, rt.alloc(), &[], true, &class, (2, 37, 1));
}

/// The element with one octet changed.
fn changed(place: usize, octet: u8) -> [u8; 31]
    requires there { place < 31 }
{
    let mut octets = ELEMENT;
    octets[place] = octet;
    octets
}

#[test]
fn an_element_that_is_none_is_an_invalid_data_type(rt: HostRuntime) {
    // The last octet is missing; a Boolean has the length 2; days that are an OctetString.
    expect_error(&rt, rt.alloc(), &[], true, &ELEMENT[..30], (2, 9, 1));
    expect_error(&rt, rt.alloc(), &[], true, &changed(27, 0x12), (2, 9, 1));
    expect_error(&rt, rt.alloc(), &[], false, &changed(0, 0x62), (2, 9, 1));
}

#[test]
fn an_element_that_stands_for_no_destination_is_out_of_range(rt: HostRuntime) {
    // Six days; an hour that is any; a minute 60; network 5; four transitions.
    expect_error(&rt, rt.alloc(), &[], true, &changed(1, 2), (2, 37, 1));
    expect_error(&rt, rt.alloc(), &[], true, &changed(4, 0xff), (2, 37, 1));
    expect_error(&rt, rt.alloc(), &[], true, &changed(10, 60), (2, 37, 1));
    expect_error(&rt, rt.alloc(), &[], true, &changed(15, 5), (2, 37, 1));
    expect_error(&rt, rt.alloc(), &[], true, &changed(29, 4), (2, 37, 1));
    // Port 0.
    let mut octets = changed(22, 0);
    octets[23] = 0;
    expect_error(&rt, rt.alloc(), &[], true, &octets, (2, 37, 1));
}

/// Two elements, one behind the other.
fn two(first: &[u8; 31], second: &[u8; 31]) -> [u8; 62] {
    let mut octets = [0; 62];
    octets[..31].copy_from_slice(first);
    octets[31..].copy_from_slice(second);
    octets
}

#[test]
fn all_elements_are_read_before_one_is_looked_for(rt: HostRuntime) {
    // The second is out of range, and neither is in the list.
    let octets = two(&ELEMENT, &changed(15, 5));
    expect_error(&rt, rt.alloc(), &[], false, &octets, (2, 37, 2));
    expect_error(&rt, rt.alloc(), &[], true, &octets, (2, 37, 2));
    // The same element twice: it is added once, and is found twice.
    let twice = two(&ELEMENT, &ELEMENT);
    let here = [destination(47_808)];
    expect_list(&rt, rt.alloc(), &[], true, &twice, &here);
    expect_list(&rt, rt.alloc(), &here, false, &twice, &[]);
    // The second isn't there.
    let other = two(&ELEMENT, &changed(26, 3));
    expect_error(&rt, rt.alloc(), &here, false, &other, (5, 81, 2));
}

#[test]
fn a_list_of_32_destinations_has_no_space_for_one_more(rt: HostRuntime) {
    let mut full = [destination(1); 32];
    expect_error(&rt, rt.alloc(), &full, true, &ELEMENT, (3, 19, 1));
    expect_list(
        &rt,
        rt.alloc(),
        &full,
        true,
        &OF_DEVICE,
        &[destination(1); 32],
    );
    full[31] = destination(47_808);
    expect_list(
        &rt,
        rt.alloc(),
        &full,
        false,
        &OF_DEVICE,
        &[destination(47_808)],
    );
    let next = two(&ELEMENT, &changed(26, 3));
    expect_error(&rt, rt.alloc(), &full, true, &next, (3, 19, 2));
}

#[test]
fn lists_are_the_same_where_their_destinations_are(rt: HostRuntime) {
    let (one, other) = (destination(1), destination(2));
    same(&rt, &are_same(&[], &[]), &true);
    same(&rt, &are_same(&[one, other], &[one, other]), &true);
    same(&rt, &are_same(&[one, other], &[other, one]), &false);
    same(&rt, &are_same(&[one, other], &[one]), &false);
    same(&rt, &are_same(&[one], &[one, other]), &false);
}
