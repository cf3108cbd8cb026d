//! Recipients of notifications.

ghost use Rattle.std.specs.Prelude.{◌≤◌};

use crate::comparing::same;
use bac_tags::TagFault;
use bac_values::{Mac, ObjectId, Peer};
use recipients::{Address, Recipient, peer_at, read_recipient, write_peer};
use std::process::Abort;
use std::test::Fail;

/// The address of 10.0.0.8:47808 as an element of a recipient list has it.
const LOCAL: [u8; 12] = [
    0x1e, 0x21, 0x00, 0x65, 0x06, 0x0a, 0x00, 0x00, 0x08, 0xba, 0xc0, 0x1f,
];

fn address(network: u32, start: usize, end: usize) -> Recipient {
    Recipient::Address(Address {
        network,
        start,
        end,
    })
}

#[test]
fn a_recipient_is_a_device_or_an_address(rt: HostRuntime) -> Result<(), Fail> {
    let device = ObjectId::new(8, 42)?;
    same(
        &rt,
        &read_recipient(&[0x0c, 0x02, 0x00, 0x00, 0x2a], 0),
        &Ok((Recipient::Device(device), 5)),
    );
    same(
        &rt,
        &read_recipient(&LOCAL, 0),
        &Ok((address(0, 5, 11), 12)),
    );
    // A station of another network, of one octet, behind another element.
    same(
        &rt,
        &read_recipient(&[0x10, 0x1e, 0x22, 0x01, 0x00, 0x61, 0x09, 0x1f], 1),
        &Ok((address(256, 6, 7), 8)),
    );
    same(
        &rt,
        &read_recipient(&[0x1e, 0x21, 0x00, 0x60, 0x1f], 0),
        &Ok((address(0, 4, 4), 5)),
    );
    Ok(())
}

fn expect_none(rt: &impl Abort, octets: &[u8], fault: TagFault) {
    same(rt, &read_recipient(octets, 0), &Err(fault));
}

#[test]
fn what_is_no_recipient_is_refused(rt: HostRuntime) {
    expect_none(&rt, &[], TagFault::Truncated { at: 0 });
    expect_none(&rt, &[0x2e], TagFault::WrongTag { at: 0 });
    expect_none(
        &rt,
        &[0x0b, 0x02, 0x00, 0x2a],
        TagFault::BadLength { at: 0 },
    );
    expect_none(&rt, &[0x0c, 0x02, 0x00], TagFault::Truncated { at: 3 });
    // Within the tags: no network, no station, and a tag that closes another one.
    expect_none(&rt, &[0x1e, 0x60, 0x1f], TagFault::WrongTag { at: 1 });
    expect_none(&rt, &[0x1e, 0x21, 0x00, 0x1f], TagFault::WrongTag { at: 3 });
    expect_none(
        &rt,
        &[0x1e, 0x21, 0x00, 0x60, 0x2f],
        TagFault::WrongTag { at: 4 },
    );
    expect_none(&rt, &LOCAL[..11], TagFault::Truncated { at: 11 });
}

fn expect_peer(rt: &impl Abort, network: u32, start: usize, end: usize, peer: Option<Peer>)
    requires ordered { start ≤ end }
    requires within { end ≤ 12 }
{
    let at = Address {
        network,
        start,
        end,
    };
    same(rt, &peer_at(&LOCAL, at), &peer);
}

#[test]
fn six_octets_of_the_local_network_are_a_peer(rt: HostRuntime) {
    let peer = Peer::local(0x0a00_0008, 47808);
    expect_peer(&rt, 0, 5, 11, Some(peer));
    expect_peer(&rt, 1, 5, 11, None);
    expect_peer(&rt, 0, 5, 10, None);
    expect_peer(&rt, 0, 4, 11, None);
    expect_peer(&rt, 0, 5, 5, None);
}

#[test]
fn the_address_of_a_peer_is_written(rt: HostRuntime) -> Result<(), Fail> {
    let mut out = Vec::new(rt.alloc());
    write_peer(&mut out, Peer::local(0x0a00_0008, 47808))
        .ok()
        .ok_or("no memory")?;
    same(&rt, &out.as_slice(), &LOCAL.as_slice());
    let behind = Peer {
        ip: 0x0a00_0008,
        port: 47808,
        net: 5,
        mac: Mac::new(&[9]).ok_or("no station")?,
    };
    let mut routed = Vec::new(rt.alloc());
    write_peer(&mut routed, behind).ok().ok_or("no memory")?;
    same(
        &rt,
        &routed.as_slice(),
        &[0x1e, 0x21, 0x05, 0x61, 0x09, 0x1f].as_slice(),
    );
    Ok(())
}
