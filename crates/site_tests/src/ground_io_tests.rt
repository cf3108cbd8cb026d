//! Sources and grounds.

use crate::comparing::{holds, same};
use bac_values::Peer;
use ground_io::*;
use std::alloc::Global;
use std::fs::{self, File, OpenOptions};
use std::net::UdpSocket;
use std::process::Abort;
use std::test::Fail;
use std::time::Duration;

mod clocks;
mod gates;
mod links;

#[test]
fn memory_source_gives_its_octets_and_fails_at_the_listed_calls(
    rt: HostRuntime,
) -> Result<(), Fail> {
    let alloc = rt.alloc();
    let mut source = MemorySource::new(b"alarm".to_vec(alloc)?, vec![in alloc; 2u64, 4]?);
    let mut into = [0u8; 3];
    same(&rt, &source.read(&mut into), &Ok(3));
    same(&rt, &into, &*b"ala");
    same(&rt, &source.read(&mut into), &Err(Failed));
    same(&rt, &source.read(&mut into), &Ok(2));
    same(&rt, &into, &*b"rma");
    same(&rt, &source.read(&mut into), &Err(Failed));
    same(&rt, &source.read(&mut into), &Ok(0));
    Ok(())
}

#[test]
fn std_source_reads_a_reader(rt: HostRuntime) {
    let mut source = StdSource::new(b"set 1".as_slice());
    let mut into = [0u8; 4];
    same(&rt, &source.read(&mut into), &Ok(4));
    same(&rt, &into, &*b"set ");
    same(&rt, &source.read(&mut into), &Ok(1));
    same(&rt, &source.read(&mut into), &Ok(0));
}

/// A device of six octets is written, synced and sent from, and the fifth, the seventh and the ninth call fail.
fn expect_calls<G: Ground>(rt: &impl Abort, device: &mut G) {
    same(rt, &device.size(), &Ok(6));
    same(rt, &write_within(device, 1, b"ab"), &Ok(()));
    same(rt, &write_within(device, 3, b"cd"), &Err(Failed));
    same(rt, &device.sync(), &Ok(()));
    same(rt, &device.sync(), &Err(Failed));
    same(rt, &device.emit(Peer::console(), b"line"), &Ok(()));
    same(rt, &device.emit(Peer::local(1, 2), b"lost"), &Err(Failed));
}

fn is_written(entry: &Entry, at: u64, written: &[u8]) -> bool {
    matches!(entry, Entry::Wrote { place, octets } if *place == at && octets.as_slice() == written)
}

fn is_broken(entry: &Entry, at: u64, wanted: &[u8], stood: &[u8]) -> bool {
    matches!(entry, Entry::Broke { place, tried, left } if *place == at && tried.as_slice() == wanted && left.as_slice() == stood)
}

fn is_emitted(entry: &Entry, emitted: &[u8]) -> bool {
    matches!(entry, Entry::Emitted { octets, .. } if octets.as_slice() == emitted)
}

fn is_lost(entry: &Entry, to: Peer) -> bool {
    matches!(entry, Entry::Lost { peer, .. } if *peer == to)
}

fn are_entries(trace: &[Entry]) -> bool {
    match trace {
        [first, second, third, fourth, fifth] => {
            is_written(first, 1, b"ab")
                && is_broken(second, 3, b"cd", &[7, 7])
                && matches!(third, Entry::Synced)
                && is_emitted(fourth, b"line")
                && is_lost(fifth, Peer::local(1, 2))
        }
        _ => false,
    }
}

#[test]
fn memory_ground_tells_all_and_fails_at_the_listed_calls(rt: HostRuntime) -> Result<(), Fail> {
    let alloc = rt.alloc();
    let failing = vec![in alloc; 5u64, 7, 9]?;
    let mut device = MemoryGround::new(alloc, vec![in alloc; 7u8; 6]?, failing);
    expect_calls(&rt, &mut device);
    same(&rt, &device.contents(), &[7, 97, 98, 7, 7, 7].as_slice());
    holds(&rt, device.trace().is_some_and(are_entries));
    Ok(())
}

/// A device of which two octets were written and synced, then two of two writes, the second of which failed.
fn written_twice(alloc: Global) -> Result<MemoryGround, Fail> {
    let failing = vec![in alloc; 7u64]?;
    let mut device = MemoryGround::new(alloc, vec![in alloc; 7u8; 5]?, failing);
    let _ = write_within(&mut device, 0, b"ab");
    let _ = device.sync();
    let _ = write_within(&mut device, 1, b"cd");
    let _ = write_within(&mut device, 3, b"ef");
    Ok(device)
}

/// Whether a crash behind so many entries may leave these octets.
fn expect_image(
    rt: &impl Abort,
    alloc: Global,
    device: &MemoryGround,
    crash: (u64, Filling),
    wanted: &[u8],
) -> Result<(), Fail> {
    let (upto, filling) = crash;
    let image = device.image(alloc, upto, filling)?;
    same(rt, &(upto, image.as_slice()), &(upto, wanted));
    Ok(())
}

fn expect_images(rt: &impl Abort, alloc: Global, device: &MemoryGround) -> Result<(), Fail> {
    for (upto, filling, wanted) in [
        (0, Filling::New, [7, 7, 7, 7, 7]),
        (1, Filling::Old, [7, 7, 7, 7, 7]),
        (1, Filling::New, [97, 98, 7, 7, 7]),
        (2, Filling::Old, [97, 98, 7, 7, 7]),
        (3, Filling::Octet(255), [97, 255, 255, 7, 7]),
        (4, Filling::Old, [97, 98, 7, 7, 7]),
        (9, Filling::New, [97, 99, 100, 101, 102]),
        (4, Filling::Octet(1), [97, 1, 1, 1, 1]),
    ] {
        expect_image(rt, alloc, device, (upto, filling), &wanted)?;
    }
    Ok(())
}

#[test]
fn images_show_what_a_crash_may_leave(rt: HostRuntime) -> Result<(), Fail> {
    let device = written_twice(rt.alloc())?;
    expect_images(&rt, rt.alloc(), &device)
}

/// A file of eight octets.
fn file_at(rt: &HostRuntime, path: &str) -> Result<File, Fail> {
    let file = OpenOptions::new()
        .read(true)
        .write(true)
        .create(true)
        .truncate(true)
        .open(rt, path)?;
    file.set_len(8)?;
    Ok(file)
}

/// A device of eight octets is written, synced and read, and a line and a note go out.
fn expect_kept<G: Ground>(rt: &impl Abort, device: &mut G, port: u16) {
    same(rt, &device.size(), &Ok(8));
    same(rt, &write_within(device, 5, b"abc"), &Ok(()));
    same(rt, &device.sync(), &Ok(()));
    same(rt, &read_within(device, 4), &Ok([0, 97, 98, 99]));
    same(rt, &device.emit(Peer::console(), b"line\n"), &Ok(()));
    let peer = Peer::local(0x7f00_0001, port);
    same(rt, &device.emit(peer, b"note"), &Ok(()));
}

/// The same of a file and a socket, which are then closed.
fn expect_kept_by(
    rt: &impl Abort,
    file: File,
    socket: UdpSocket,
    console: &mut Vec<u8>,
    port: u16,
) -> Result<(), Fail> {
    let mut device = FileGround::new(Some(DeviceFile::new(file)?), console, Some(socket));
    expect_kept(rt, &mut device, port);
    Ok(())
}

/// What the socket hears next is the note.
fn expect_heard(rt: &impl Abort, peer: &UdpSocket) -> Result<(), Fail> {
    peer.set_read_timeout(Some(Duration::from_secs(5)))?;
    let mut into = [0u8; 8];
    let (length, _) = peer.recv_from(&mut into)?;
    same(rt, &(length, &into[..4]), &(4, b"note".as_slice()));
    Ok(())
}

#[test]
fn file_ground_keeps_a_file_and_sends_to_peers(rt: HostRuntime) -> Result<(), Fail> {
    let path = "ground_io_test_device";
    let peer = UdpSocket::bind(&rt, "127.0.0.1:0")?;
    let port = peer.local_addr()?.port();
    let socket = UdpSocket::bind(&rt, "127.0.0.1:0")?;
    let mut console = Vec::new(rt.alloc());
    expect_kept_by(&rt, file_at(&rt, path)?, socket, &mut console, port)?;
    same(&rt, &console.as_slice(), &b"line\n".as_slice());
    expect_heard(&rt, &peer)?;
    fs::remove_file(&rt, path)?;
    Ok(())
}

/// Notes of one octet to twelve go out to the port.
fn expect_sent<G: Ground>(rt: &impl Abort, device: &mut G, port: u16) {
    let peer = Peer::local(0x7f00_0001, port);
    for length in 1..=12 {
        same(rt, &device.emit(peer, &b"notification"[..length]), &Ok(()));
    }
}

/// The socket hears them, each once and whole, in their order, and no other.
fn expect_all_heard(rt: &impl Abort, peer: &UdpSocket) -> Result<(), Fail> {
    peer.set_read_timeout(Some(Duration::from_secs(5)))?;
    let mut into = [0u8; 16];
    for length in 1..=12 {
        let (heard, _) = peer.recv_from(&mut into)?;
        same(rt, &&into[..heard], &&b"notification"[..length]);
    }
    peer.set_read_timeout(Some(Duration::from_millis(20)))?;
    holds(rt, peer.recv_from(&mut into).is_err());
    Ok(())
}

#[test]
fn each_note_goes_out_once_and_whole(rt: HostRuntime) -> Result<(), Fail> {
    let peer = UdpSocket::bind(&rt, "127.0.0.1:0")?;
    let port = peer.local_addr()?.port();
    let socket = UdpSocket::bind(&rt, "127.0.0.1:0")?;
    let mut device = FileGround::new(None, Vec::new(rt.alloc()), Some(socket));
    expect_sent(&rt, &mut device, port);
    expect_all_heard(&rt, &peer)
}

/// A file of eight octets that can only be read, and can be cut by another handle.
fn read_only(rt: &HostRuntime, path: &str) -> Result<(File, File), Fail> {
    let whole = OpenOptions::new()
        .write(true)
        .create(true)
        .truncate(true)
        .open(rt, path)?;
    whole.set_len(8)?;
    Ok((OpenOptions::new().read(true).open(rt, path)?, whole))
}

/// A device that can't be written is read, until its file is cut.
fn expect_cut<G: Ground>(rt: &impl Abort, device: &mut G, whole: &File) -> Result<(), Fail> {
    same(rt, &write_within(device, 5, b"abc"), &Err(Failed));
    same(rt, &read_within(device, 4), &Ok([0; 4]));
    whole.set_len(6)?;
    same(rt, &read_within(device, 4), &Err(Failed));
    Ok(())
}

#[test]
fn a_file_fails_where_it_can_not_be_written_or_is_cut(rt: HostRuntime) -> Result<(), Fail> {
    let path = "ground_io_test_read_only";
    let (file, whole) = read_only(&rt, path)?;
    let mut device = FileGround::new(Some(DeviceFile::new(file)?), Vec::new(rt.alloc()), None);
    expect_cut(&rt, &mut device, &whole)?;
    fs::remove_file(&rt, path)?;
    Ok(())
}

#[test]
fn what_has_no_disk_below_is_not_synced(rt: HostRuntime) -> Result<(), Fail> {
    let file = OpenOptions::new().read(true).open(&rt, "/dev/null")?;
    let mut device = FileGround::new(Some(DeviceFile::new(file)?), Vec::new(rt.alloc()), None);
    same(&rt, &device.sync(), &Err(Failed));
    Ok(())
}

#[test]
fn without_a_file_there_is_no_device(rt: HostRuntime) -> Result<(), Fail> {
    let mut device = FileGround::new(None, Vec::new(rt.alloc()), None);
    same(&rt, &device.size(), &Ok(0));
    same(&rt, &device.sync(), &Ok(()));
    same(&rt, &device.emit(Peer::local(1, 2), b"note"), &Err(Failed));
    Ok(())
}

// Writes where the range lies within the device.
fn write_within<G: Ground>(device: &mut G, place: u64, octets: &[u8]) -> Result<(), Failed> {
    let size = device.size()?;
    let count = octets.len() as u64;
    if size < count || place > size - count {
        return Err(Failed);
    }
    device.write_at(place, octets)
}

// Reads four octets where they lie within the device.
fn read_within<G: Ground>(device: &mut G, place: u64) -> Result<[u8; 4], Failed> {
    let size = device.size()?;
    if size < 4 || place > size - 4 {
        return Err(Failed);
    }
    let mut into = [0; 4];
    device.read_at(place, &mut into)?;
    Ok(into)
}
