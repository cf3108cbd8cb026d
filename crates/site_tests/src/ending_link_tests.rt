//! Links that end behind a failed disk.

use crate::comparing::{holds, same};
use bac_values::{Items, Peer, Send as Message};
use ending_link::{EndingLink, Flag, NotingGround, SharedFlag};
use ground_io::{Failed, Ground, Link, MemoryGround, MemoryLink, Received};
use std::alloc::Global;
use std::process::Abort;
use std::test::Fail;

/// An emission is lost, a sync is done, and then one fails: only that raises the flag.
fn expect_raised<G: Ground>(rt: &impl Abort, device: &mut G, flag: &SharedFlag) {
    same(rt, &device.emit(Peer::local(1, 2), b"lost"), &Err(Failed));
    same(rt, &device.sync(), &Ok(()));
    holds(rt, !flag.is_raised());
    same(rt, &device.sync(), &Err(Failed));
    holds(rt, flag.is_raised());
}

#[test]
fn a_flag_is_raised_where_the_device_fails_and_not_at_a_lost_datagram(
    rt: HostRuntime,
) -> Result<(), Fail> {
    let alloc = rt.alloc();
    let flag = SharedFlag::new();
    let failing = vec![in alloc; 1u64, 3]?;
    let inner = MemoryGround::new(alloc, vec![in alloc; 7u8; 4]?, failing);
    expect_raised(&rt, &mut NotingGround::new(inner, &flag), &flag);
    Ok(())
}

/// Two datagrams from a peer.
fn two(alloc: Global) -> Result<Vec<Message>, Fail> {
    let mut datagrams = Vec::new(alloc);
    for octets in [b"ab".as_slice(), b"cd"] {
        let bytes = Items::of(octets.to_vec(alloc)?);
        datagrams.push(Message {
            peer: Peer::local(1, 2),
            bytes,
        })?;
    }
    Ok(datagrams)
}

/// The first datagram comes, and none once the flag is raised.
fn expect_ended<L: Link>(rt: &impl Abort, link: &mut L, flag: &SharedFlag) {
    let mut into = [0; 4];
    let came = Received::Datagram {
        peer: Peer::local(1, 2),
        length: 2,
    };
    same(rt, &link.receive(&mut into), &Ok(came));
    flag.raise();
    same(rt, &link.receive(&mut into), &Err(Failed));
    same(rt, &link.receive(&mut into), &Err(Failed));
    same(rt, &into, &[97, 98, 0, 0]);
}

#[test]
fn a_link_ends_once_its_flag_is_raised(rt: HostRuntime) -> Result<(), Fail> {
    let alloc = rt.alloc();
    let flag = SharedFlag::new();
    let inner = MemoryLink::new(two(alloc)?, Vec::new(alloc));
    expect_ended(&rt, &mut EndingLink::new(inner, &flag), &flag);
    Ok(())
}
