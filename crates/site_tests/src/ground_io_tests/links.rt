//! Links.

use crate::comparing::same;
use bac_values::{Items, Peer, Send};
use ground_io::{Failed, Link, MemoryLink, Received, TimedSocket, UdpLink};
use std::alloc::{AllocError, Global};
use std::io;
use std::net::{Ipv4Addr, SocketAddrV4, UdpSocket};
use std::process::Abort;
use std::test::Fail;
use std::time::Duration;

const LOOPBACK: u32 = 0x7f00_0001;

fn datagram(alloc: Global, port: u16, octets: &[u8]) -> Result<Send, AllocError> {
    Ok(Send {
        peer: Peer::local(LOOPBACK, port),
        bytes: Items::of(octets.to_vec(alloc)?),
    })
}

/// Two datagrams, of five octets and of one.
fn two_datagrams(alloc: Global) -> Result<Vec<Send>, AllocError> {
    Ok(vec![in alloc; datagram(alloc, 1, b"alarm")?, datagram(alloc, 2, b"x")?]?)
}

fn from_port(port: u16, length: usize) -> Result<Received, Failed> {
    let peer = Peer::local(LOOPBACK, port);
    Ok(Received::Datagram { peer, length })
}

/// A link gives two datagrams, and its second and its fourth call fail.
fn expect_two_datagrams<L: Link>(rt: &impl Abort, link: &mut L) {
    let mut into = *b"....";
    same(rt, &link.receive(&mut into), &from_port(1, 4));
    same(rt, &into, &*b"alar");
    same(rt, &link.receive(&mut into), &Err(Failed));
    same(rt, &link.receive(&mut into), &from_port(2, 1));
    same(rt, &into, &*b"xlar");
    same(rt, &link.receive(&mut into), &Err(Failed));
    same(rt, &link.receive(&mut into), &Ok(Received::Nothing));
    same(rt, &into, &*b"xlar");
}

#[test]
fn memory_link_gives_its_datagrams_and_fails_at_the_listed_calls(
    rt: HostRuntime,
) -> Result<(), Fail> {
    let alloc = rt.alloc();
    let failing = vec![in alloc; 2u64, 4]?;
    let mut link = MemoryLink::new(two_datagrams(alloc)?, failing);
    expect_two_datagrams(&rt, &mut link);
    Ok(())
}

/// A socket on the loopback address, and its port.
fn local_socket(rt: &HostRuntime) -> io::Result<(UdpSocket, u16)> {
    let socket = UdpSocket::bind(rt, "127.0.0.1:0")?;
    let port = socket.local_addr()?.port();
    Ok((socket, port))
}

fn at_port(port: u16) -> SocketAddrV4 {
    SocketAddrV4::new(Ipv4Addr::LOCALHOST, port)
}

fn expect_nothing<L: Link>(rt: &impl Abort, link: &mut L) {
    same(rt, &link.receive(&mut [0u8; 4]), &Ok(Received::Nothing));
}

/// The link hears the first octets of a request from a port.
fn expect_heard<L: Link>(rt: &impl Abort, link: &mut L, port: u16) {
    let mut into = *b"....";
    same(rt, &link.receive(&mut into), &from_port(port, 4));
    same(rt, &into, &*b"who-");
}

/// The link hears what a socket asks of its port, and nothing before it and behind it.
fn expect_asked<L: Link>(
    rt: &impl Abort,
    link: &mut L,
    asker: &(UdpSocket, u16),
    port: u16,
) -> Result<(), Fail> {
    expect_nothing(rt, link);
    asker.0.send_to(b"who-is", at_port(port))?;
    expect_heard(rt, link, asker.1);
    expect_nothing(rt, link);
    Ok(())
}

#[test]
fn udp_link_hears_a_socket_and_finds_nothing_when_its_time_is_up(
    rt: HostRuntime,
) -> Result<(), Fail> {
    let (socket, port) = local_socket(&rt)?;
    let asker = local_socket(&rt)?;
    let mut link = UdpLink::new(TimedSocket::new(&socket, Duration::from_millis(20))?);
    expect_asked(&rt, &mut link, &asker, port)
}

/// The link hears nine requests of a socket, each once, in their order.
fn expect_nine<L: Link>(
    rt: &impl Abort,
    link: &mut L,
    asker: &(UdpSocket, u16),
    port: u16,
) -> Result<(), Fail> {
    for number in 1..=9u8 {
        asker.0.send_to(&[number, 7], at_port(port))?;
    }
    for number in 1..=9u8 {
        let mut into = [0u8; 4];
        same(rt, &link.receive(&mut into), &from_port(asker.1, 2));
        same(rt, &into, &[number, 7, 0, 0]);
    }
    expect_nothing(rt, link);
    Ok(())
}

#[test]
fn udp_link_hears_each_datagram_once_and_in_order(rt: HostRuntime) -> Result<(), Fail> {
    let (socket, port) = local_socket(&rt)?;
    let asker = local_socket(&rt)?;
    let mut link = UdpLink::new(TimedSocket::new(&socket, Duration::from_millis(20))?);
    expect_nine(&rt, &mut link, &asker, port)
}

/// A port on which nobody listens.
fn closed_port(rt: &HostRuntime) -> io::Result<u16> {
    let (_, port) = local_socket(rt)?;
    Ok(port)
}

/// A socket that was told that nobody listens where it sent to fails.
fn expect_failing(rt: &impl Abort, socket: &UdpSocket, port: u16) -> Result<(), Fail> {
    let mut link = UdpLink::new(TimedSocket::new(socket, Duration::from_secs(5))?);
    socket.connect(at_port(port))?;
    socket.send(b"who-is")?;
    same(rt, &link.receive(&mut [0u8; 4]), &Err(Failed));
    Ok(())
}

#[test]
fn udp_link_fails_where_its_socket_does(rt: HostRuntime) -> Result<(), Fail> {
    let (socket, _) = local_socket(&rt)?;
    expect_failing(&rt, &socket, closed_port(&rt)?)
}
