//! Frames.

use crate::comparing::{counts, holds, same};
use bac_values::{Mac, Peer};
use bvlc_npdu::*;
use std::alloc::Global;
use std::process::Abort;
use std::test::Fail;

/// A device of the local network: 10.0.0.9, port 47808.
fn sender() -> Peer {
    Peer::local(0x0a00_0009, 47808)
}

/// AcknowledgeAlarm, for which a reply is expected.
const ACKNOWLEDGEMENT: [u8; 51] = [
    0x81, 0x0a, 0x00, 0x33, 0x01, 0x04, 0x00, 0x05, 0x07, 0x00, 0x09, 0x01, 0x1c, 0x0b, 0x40, 0x00,
    0x01, 0x29, 0x02, 0x3e, 0x2e, 0xa4, 0x7b, 0x0b, 0x0e, 0x02, 0xb4, 0x16, 0x0d, 0x1e, 0x00, 0x2f,
    0x3f, 0x4b, 0x00, 0x6f, 0x70, 0x5e, 0x2e, 0xa4, 0x7b, 0x0b, 0x0e, 0x02, 0xb4, 0x16, 0x0d, 0x28,
    0x00, 0x2f, 0x5f,
];

#[test]
fn a_request_is_found_and_written_again(rt: HostRuntime) -> Result<(), Fail> {
    let found = unwrap(sender(), &ACKNOWLEDGEMENT).ok_or("ignored")?;
    same(
        &rt,
        &found,
        &Incoming {
            peer: sender(),
            start: 6,
        },
    );
    let apdu = &ACKNOWLEDGEMENT[6..];
    let written = wrap(rt.alloc(), &sender(), true, apdu)
        .ok()
        .ok_or("no memory")?;
    same(&rt, &written.as_slice(), &ACKNOWLEDGEMENT.as_slice());
    Ok(())
}

#[test]
fn an_acknowledgement_expects_no_reply(rt: HostRuntime) -> Result<(), Fail> {
    let written = wrap(rt.alloc(), &sender(), false, &[0x20, 0x07, 0x00])
        .ok()
        .ok_or("no memory")?;
    let expected = [0x81, 0x0a, 0x00, 0x09, 0x01, 0x00, 0x20, 0x07, 0x00];
    same(&rt, &written.as_slice(), &expected.as_slice());
    Ok(())
}

/// A datagram from station 7778 of network 0105, by way of a router.
const ROUTED: [u8; 13] = [
    0x81, 0x0a, 0x00, 0x0d, 0x01, 0x08, 0x01, 0x05, 0x02, 0x77, 0x78, 0x10, 0x08,
];

#[test]
fn a_station_behind_a_router_is_found(rt: HostRuntime) -> Result<(), Fail> {
    let found = unwrap(sender(), &ROUTED).ok_or("ignored")?;
    same(&rt, &found.start, &11);
    same(&rt, &found.peer.ip, &0x0a00_0009);
    same(&rt, &found.peer.port, &47808);
    same(&rt, &found.peer.net, &0x0105);
    same(&rt, &found.peer.mac.octets(), &[0x77, 0x78].as_slice());
    Ok(())
}

#[test]
fn a_station_behind_a_router_is_answered_through_it(rt: HostRuntime) -> Result<(), Fail> {
    let found = unwrap(sender(), &ROUTED).ok_or("ignored")?;
    let written = wrap(rt.alloc(), &found.peer, true, &[0x00, 0x05])
        .ok()
        .ok_or("no memory")?;
    let expected = [
        0x81, 0x0a, 0x00, 0x0e, 0x01, 0x24, 0x01, 0x05, 0x02, 0x77, 0x78, 0xff, 0x00, 0x05,
    ];
    same(&rt, &written.as_slice(), &expected.as_slice());
    Ok(())
}

/// The longest APDU stands behind these octets in a datagram to a peer, which has so many octets.
fn expect_longest(
    rt: &impl Abort,
    alloc: Global,
    peer: &Peer,
    front: &[u8],
    octets: usize,
) -> Result<(), Fail> {
    let apdu = [0x5a; 1476];
    let written = wrap(alloc, peer, true, &apdu).ok().ok_or("no memory")?;
    counts(rt, written.len(), octets);
    holds(rt, written.as_slice().starts_with(front));
    holds(rt, written.as_slice().ends_with(&apdu));
    Ok(())
}

#[test]
fn an_apdu_of_1476_octets_is_the_longest(rt: HostRuntime) -> Result<(), Fail> {
    let front = [0x81, 0x0a, 0x05, 0xca, 0x01, 0x04];
    expect_longest(&rt, rt.alloc(), &sender(), &front, 1482)?;
    // Through a router, to a station whose address is the longest.
    let station = Peer {
        net: 0x0105,
        mac: Mac::new(&[1, 2, 3, 4, 5, 6, 7]).ok_or("no station")?,
        ..sender()
    };
    let front = [
        0x81, 0x0a, 0x05, 0xd5, 0x01, 0x24, 0x01, 0x05, 0x07, 1, 2, 3, 4, 5, 6, 7, 0xff,
    ];
    expect_longest(&rt, rt.alloc(), &station, &front, 1493)
}

#[test]
fn broadcasts_and_forwarded_requests_are_taken(rt: HostRuntime) -> Result<(), Fail> {
    // Who-Is as a broadcast of the local network.
    let broadcast = [0x81, 0x0b, 0x00, 0x08, 0x01, 0x00, 0x10, 0x08];
    same(
        &rt,
        &unwrap(sender(), &broadcast),
        &Some(Incoming {
            peer: sender(),
            start: 6,
        }),
    );
    // Forwarded: the peer is the device within, also where the sender has no port.
    let forwarded = [
        0x81, 0x04, 0x00, 0x0e, 0x0a, 0x00, 0x00, 0x07, 0xba, 0xc1, 0x01, 0x00, 0x10, 0x08,
    ];
    let device = Peer::local(0x0a00_0007, 47809);
    same(
        &rt,
        &unwrap(Peer::console(), &forwarded),
        &Some(Incoming {
            peer: device,
            start: 12,
        }),
    );
    // A global broadcast that names an address, from a station, with reserved bits set.
    let global = [
        0x81, 0x0a, 0x00, 0x11, 0x01, 0x7c, 0xff, 0xff, 0x01, 0x33, 0x00, 0x05, 0x01, 0x07, 0xfe,
        0x10, 0x08,
    ];
    let found = unwrap(sender(), &global).ok_or("ignored")?;
    same(&rt, &found.start, &15);
    same(&rt, &found.peer.net, &5);
    same(&rt, &found.peer.mac, &Mac::new(&[7]).ok_or("no station")?);
    // No APDU at all begins at the end.
    let empty = [0x81, 0x0a, 0x00, 0x06, 0x01, 0x00];
    same(
        &rt,
        &unwrap(sender(), &empty),
        &Some(Incoming {
            peer: sender(),
            start: 6,
        }),
    );
    Ok(())
}

#[test]
fn a_datagram_is_ignored_for_each_reason(rt: HostRuntime) {
    let ignored: [&[u8]; 25] = [
        // fewer than four octets
        &[],
        &[0x81, 0x0a, 0x00],
        // another type, other functions
        &[0x82, 0x0a, 0x00, 0x08, 0x01, 0x00, 0x10, 0x08],
        &[0x81, 0x00, 0x00, 0x06, 0x00, 0x00],
        &[0x81, 0x05, 0x00, 0x06, 0x00, 0x3c],
        &[0x81, 0x09, 0x00, 0x08, 0x01, 0x00, 0x10, 0x08],
        // another length
        &[0x81, 0x0a, 0x00, 0x07, 0x01, 0x00, 0x10, 0x08],
        &[0x81, 0x0a, 0x00, 0x09, 0x01, 0x00, 0x10, 0x08],
        &[0x81, 0x0a, 0x08, 0x00, 0x01, 0x00, 0x10, 0x08],
        // cut: the NPDU, a destination, its address, the hop count, a source, its address, an address of B/IP
        &[0x81, 0x0a, 0x00, 0x04],
        &[0x81, 0x0a, 0x00, 0x05, 0x01],
        &[0x81, 0x0a, 0x00, 0x08, 0x01, 0x20, 0xff, 0xff],
        &[0x81, 0x0a, 0x00, 0x0a, 0x01, 0x20, 0xff, 0xff, 0x02, 0x01],
        &[0x81, 0x0a, 0x00, 0x09, 0x01, 0x20, 0xff, 0xff, 0x00],
        &[0x81, 0x0a, 0x00, 0x08, 0x01, 0x08, 0x00, 0x05],
        &[0x81, 0x0a, 0x00, 0x0a, 0x01, 0x08, 0x00, 0x05, 0x02, 0x07],
        &[0x81, 0x04, 0x00, 0x09, 0x0a, 0x00, 0x00, 0x07, 0xba],
        // another version
        &[0x81, 0x0a, 0x00, 0x08, 0x02, 0x00, 0x10, 0x08],
        // a message of the network layer
        &[0x81, 0x0a, 0x00, 0x08, 0x01, 0x80, 0x10, 0x08],
        // for another network
        &[
            0x81, 0x0a, 0x00, 0x0c, 0x01, 0x20, 0x00, 0x05, 0x00, 0xff, 0x10, 0x08,
        ],
        // from a station of network 0, without an address, with one of eight octets
        &[
            0x81, 0x0a, 0x00, 0x0c, 0x01, 0x08, 0x00, 0x00, 0x01, 0x07, 0x10, 0x08,
        ],
        &[
            0x81, 0x0a, 0x00, 0x0b, 0x01, 0x08, 0x00, 0x05, 0x00, 0x10, 0x08,
        ],
        &[
            0x81, 0x0a, 0x00, 0x13, 0x01, 0x08, 0x00, 0x05, 0x08, 1, 2, 3, 4, 5, 6, 7, 8, 0x10,
            0x08,
        ],
        // forwarded from port 0
        &[
            0x81, 0x04, 0x00, 0x0e, 0x0a, 0x00, 0x00, 0x07, 0x00, 0x00, 0x01, 0x00, 0x10, 0x08,
        ],
        // forwarded, with the octets of another function
        &[0x81, 0x04, 0x00, 0x08, 0x01, 0x00, 0x10, 0x08],
    ];
    for datagram in ignored {
        same(&rt, &unwrap(sender(), datagram), &None);
    }
    // From port 0, a datagram that is taken otherwise.
    let whole = [0x81, 0x0a, 0x00, 0x08, 0x01, 0x00, 0x10, 0x08];
    same(&rt, &unwrap(Peer::local(0x0a00_0009, 0), &whole), &None);
    holds(&rt, unwrap(sender(), &whole).is_some());
}
