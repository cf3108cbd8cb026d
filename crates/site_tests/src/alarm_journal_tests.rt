//! Journals, and what a crash leaves of them.

ghost use Rattle.std.specs.Prelude.{◌≤◌, length};

use crate::comparing::{holds, same};
use alarm_journal::*;
use bac_values::{Items, Peer, Send};
use ground_io::{Filling, Ground, MemoryGround};
use std::alloc::{AllocError, Global};
use std::process::Abort;
use std::test::Fail;

const SITE: &[u8; 4] = b"site";

const NEED: u64 = 60;

// A commit of the run below: a batch or a snapshot, its octets, and what the journal holds behind it.
#[derive(Drop)]
struct Step {
    snapshot: bool,
    octets: &'static [u8],
    held: (&'static [u8], &'static [u8]),
}

// Batches and snapshots in both areas, and the last batch fills its area.
fn steps() -> [Step; 6] {
    [
        Step {
            snapshot: false,
            octets: b"one",
            held: (b"", b"one"),
        },
        Step {
            snapshot: false,
            octets: b"two",
            held: (b"", b"onetwo"),
        },
        Step {
            snapshot: true,
            octets: b"state",
            held: (b"state", b""),
        },
        Step {
            snapshot: false,
            octets: &[1, 0, 0, 0, 1, 1],
            held: (b"state", &[1, 0, 0, 0, 1, 1]),
        },
        Step {
            snapshot: true,
            octets: &[1, 1],
            held: (&[1, 1], b""),
        },
        Step {
            snapshot: false,
            octets: b"0123456789abcdefghij",
            held: (&[1, 1], b"0123456789abcdefghij"),
        },
    ]
}

// Commits where that fits.
fn commit<G: Ground>(alloc: Global, press: Press<G>, step: &Step) -> Result<Press<G>, G> {
    let octets = step.octets;
    if octets.is_empty() || octets.len() > 60_000 {
        return Err(press.into_ground());
    }
    if step.snapshot {
        let Ok(job) = Job::snapshot(alloc, octets) else {
            return Err(press.into_ground());
        };
        if octets.len() as u64 + 5 > press.area() {
            return Err(press.into_ground());
        }
        return press.commit_snapshot(&job);
    }
    let Ok(job) = Job::batch(alloc, octets) else {
        return Err(press.into_ground());
    };
    if octets.len() as u64 > press.room() {
        return Err(press.into_ground());
    }
    press.commit_batch(&job)
}

// Opens and commits these steps, and says how many were done; none where the opening failed.
fn run_steps(alloc: Global, device: MemoryGround, steps: &[Step]) -> (MemoryGround, Option<usize>) {
    let mut press = match Press::open(alloc, device, SITE, NEED) {
        Ok((press, _)) => press,
        Err((device, _)) => return (device, None),
    };
    for (done, step) in steps.iter().enumerate() {
        match commit(alloc, press, step) {
            Ok(next) => press = next,
            Err(device) => return (device, Some(done)),
        }
    }
    (press.into_ground(), Some(steps.len()))
}

// Opens and commits all steps.
fn run(alloc: Global, device: MemoryGround) -> (MemoryGround, Option<usize>) {
    run_steps(alloc, device, &steps())
}

// What the journal holds behind so many steps.
fn held_behind(count: usize) -> (&'static [u8], &'static [u8]) {
    if count == 0 {
        return (b"", b"");
    }
    match steps().get(count - 1) {
        Some(step) => step.held,
        None => (b"", b""),
    }
}

fn device_of(alloc: Global, size: usize, failing: &[u64]) -> Result<MemoryGround, AllocError> {
    let contents = vec![in alloc; 7u8; size]?;
    Ok(MemoryGround::new(alloc, contents, failing.to_vec(alloc)?))
}

// What the octets open to.
fn opened(alloc: Global, octets: Vec<u8>) -> Option<Opened> {
    let device = MemoryGround::new(alloc, octets, Vec::new(alloc));
    match Press::open(alloc, device, SITE, NEED) {
        Ok((_, opened)) => Some(opened),
        Err(_) => None,
    }
}

// Whether this snapshot and these batches are held.
fn is_held(opened: &Opened, held: (&[u8], &[u8])) -> bool {
    opened.snapshot.as_slice() == held.0 && opened.batches.as_slice() == held.1
}

// Whether one of the two is held.
fn is_either(opened: &Option<Opened>, before: (&[u8], &[u8]), after: (&[u8], &[u8])) -> bool {
    match opened {
        Some(opened) => is_held(opened, before) || is_held(opened, after),
        None => false,
    }
}

// Whether the octets open to one of the two.
fn opens_to_either(
    alloc: Global,
    octets: Vec<u8>,
    before: (&[u8], &[u8]),
    after: (&[u8], &[u8]),
) -> bool {
    is_either(&opened(alloc, octets), before, after)
}

// Whether what a crash leaves behind so many entries opens to a state between two commits.
fn is_between(
    alloc: Global,
    device: &MemoryGround,
    upto: u64,
    filling: Filling,
) -> Result<bool, Fail> {
    let count = (upto.saturating_sub(5) / 4) as usize;
    let image = device.image(alloc, upto, filling)?;
    let after = (count + 1).min(6);
    Ok(opens_to_either(alloc, image, held_behind(count), held_behind(after)))
}

fn expect_between(rt: &impl Abort, alloc: Global, device: &MemoryGround) -> Result<(), Fail> {
    for upto in 1..30u64 {
        for filling in [
            Filling::Old,
            Filling::New,
            Filling::Octet(1),
            Filling::Octet(255),
        ] {
            let between = is_between(alloc, device, upto, filling)?;
            same(rt, &(upto, between), &(upto, true));
        }
    }
    Ok(())
}

#[test]
fn every_crash_image_opens_to_a_state_between_two_commits(rt: HostRuntime) -> Result<(), Fail> {
    let alloc = rt.alloc();
    let (device, done) = run(alloc, device_of(alloc, 91, &[])?);
    same(&rt, &done, &Some(6));
    same(&rt, &device.trace().map(|trace| trace.len()), &Some(29));
    expect_between(&rt, alloc, &device)
}

// A run of which this call fails leaves a state between two commits.
fn expect_between_at(rt: &impl Abort, alloc: Global, call: u64) -> Result<(), Fail> {
    let (device, done) = run(alloc, device_of(alloc, 91, &[call])?);
    let count = done.unwrap_or(0);
    holds(rt, count < 6);
    let octets = device.contents().to_vec(alloc)?;
    let between = opens_to_either(alloc, octets, held_behind(count), held_behind(count + 1));
    same(rt, &(call, between), &(call, true));
    Ok(())
}

#[test]
fn each_failing_call_leaves_what_stood_or_what_was_to_stand(rt: HostRuntime) -> Result<(), Fail> {
    for call in 1..32u64 {
        expect_between_at(&rt, rt.alloc(), call)?;
    }
    let (_, done) = run(rt.alloc(), device_of(rt.alloc(), 91, &[32])?);
    same(&rt, &done, &Some(6));
    Ok(())
}

// Whether these octets stand at the place.
fn stands_at(octets: &[u8], place: usize, part: &[u8]) -> bool {
    place <= octets.len() && octets[place..].starts_with(part)
}

#[test]
fn octets_lie_as_the_layout_says(rt: HostRuntime) -> Result<(), Fail> {
    let (device, _) = run(rt.alloc(), device_of(rt.alloc(), 91, &[])?);
    same(&rt, &device.contents().len(), &91);
    for (place, part) in [
        (0, b"\x01BACALRM1".as_slice()),
        (9, b"\0\0\0\0\0\0\0\x5b\0\0\0\x04site"),
        (25, b"\0\0\0\0\x02\x01\x01"),
        (32, b"\x01\0\0\0\x140123456789abcdefghij\0"),
        (58, b"\0\0\0\x05state"),
        (67, b"\x01\0\0\0\x06\x01\0\0\0\x01\x01\0"),
    ] {
        let stands = stands_at(device.contents(), place, part);
        same(&rt, &(place, stands), &(place, true));
    }
    Ok(())
}

// Why the octets aren't opened.
fn refused(alloc: Global, octets: Vec<u8>, site: &[u8]) -> Option<OpenFault>
    requires few { length site.now ≤ 10 }
{
    let device = MemoryGround::new(alloc, octets, Vec::new(alloc));
    match Press::open(alloc, device, site, NEED) {
        Ok(_) => None,
        Err((_, fault)) => Some(fault),
    }
}

// Why so many of the octets aren't opened.
fn refused_front(
    alloc: Global,
    octets: &[u8],
    count: usize,
    site: &[u8],
) -> Result<Option<OpenFault>, Fail>
    requires few { length site.now ≤ 10 }
{
    let mut front = octets.to_vec(alloc)?;
    front.truncate(count);
    Ok(refused(alloc, front, site))
}

// Why the octets aren't opened, of which one is another.
fn refused_with(
    alloc: Global,
    octets: &[u8],
    place: usize,
    octet: u8,
) -> Result<Option<OpenFault>, Fail> {
    let mut changed = octets.to_vec(alloc)?;
    if let Some(one) = changed.get_mut(place) {
        *one = octet;
    }
    Ok(refused(alloc, changed, SITE))
}

// Why a device that is too small, or another site's, isn't opened.
fn expect_refused_fronts(rt: &impl Abort, alloc: Global, octets: &[u8]) -> Result<(), Fail> {
    let small = Some(OpenFault::SmallDevice { size: 59, need: 60 });
    same(rt, &refused_front(alloc, octets, 59, SITE)?, &small);
    let shortened = Some(OpenFault::SmallDevice { size: 90, need: 91 });
    same(rt, &refused_front(alloc, octets, 90, b"sits")?, &shortened);
    let foreign = Some(OpenFault::Foreign { at: 24 });
    same(rt, &refused_front(alloc, octets, 91, b"sits")?, &foreign);
    let foreign = Some(OpenFault::Foreign { at: 20 });
    same(rt, &refused_front(alloc, octets, 91, b"sit")?, &foreign);
    Ok(())
}

// Why a device that is damaged isn't opened.
fn expect_refused_damages(rt: &impl Abort, alloc: Global, octets: &[u8]) -> Result<(), Fail> {
    let formatted = Some(OpenFault::Damaged { at: 9 });
    same(rt, &refused_with(alloc, octets, 16, 59)?, &formatted);
    let snapshot = Some(OpenFault::Damaged { at: 26 });
    same(rt, &refused_with(alloc, octets, 29, 29)?, &snapshot);
    let batch = Some(OpenFault::Damaged { at: 33 });
    same(rt, &refused_with(alloc, octets, 36, 22)?, &batch);
    Ok(())
}

#[test]
fn refusals_come_in_their_order(rt: HostRuntime) -> Result<(), Fail> {
    let (device, _) = run(rt.alloc(), device_of(rt.alloc(), 91, &[])?);
    same(&rt, &device.contents().len(), &91);
    expect_refused_fronts(&rt, rt.alloc(), device.contents())?;
    expect_refused_damages(&rt, rt.alloc(), device.contents())
}

// A device of 91 octets, of which each area has 32, and the first one is selected and begins with these.
fn image_with(alloc: Global, area: &[u8]) -> Result<Vec<u8>, AllocError> {
    let header = b"\x01BACALRM1\0\0\0\0\0\0\0\x5b\0\0\0\x04site\0";
    let mut octets = header.to_vec(alloc)?;
    octets.extend_from_slice(area)?;
    octets.resize(91, 0)?;
    Ok(octets)
}

// An empty snapshot and a batch with a body of so many octets, and behind it a gate.
fn area_with(alloc: Global, length: u8, gate: u8) -> Result<Vec<u8>, AllocError> {
    let mut area = [0, 0, 0, 0, 1, 0, 0, 0, length].to_vec(alloc)?;
    area.resize(9 + usize::from(length), 1)?;
    area.push(gate)?;
    Ok(area)
}

// Whether it is the snapshot with this place, and these are the places and octets of the bodies.
fn lies(opened: &Option<Opened>, place: u64, snapshot: &[u8], bodies: &[(u64, &[u8])]) -> bool {
    let Some(opened) = opened else {
        return false;
    };
    let mut rest = opened.batches.as_slice();
    let found = opened.bodies.as_slice();
    if found.len() != bodies.len() {
        return false;
    }
    for (body, wanted) in found.iter().zip(bodies) {
        let length = body.length as usize;
        if body.place != wanted.0 || length > rest.len() || &rest[..length] != wanted.1 {
            return false;
        }
        rest = &rest[length..];
    }
    rest.is_empty() && opened.snapshot_place == place && opened.snapshot.as_slice() == snapshot
}

// What a device of this size opens to behind so many steps.
fn opened_behind(alloc: Global, size: usize, count: usize) -> Result<Option<Opened>, Fail> {
    let all = steps();
    let Some(front) = all.get(..count) else {
        return Ok(None);
    };
    let (device, _) = run_steps(alloc, device_of(alloc, size, &[])?, front);
    Ok(opened(alloc, device.contents().to_vec(alloc)?))
}

// The octets opened to the snapshot with this place, and to these places and octets of the bodies.
fn expect_opened(
    rt: &impl Abort,
    opened: Option<Opened>,
    place: u64,
    snapshot: &[u8],
    bodies: &[(u64, &[u8])],
) {
    holds(rt, lies(&opened, place, snapshot, bodies));
}

#[test]
fn bodies_stand_apart_at_their_places(rt: HostRuntime) -> Result<(), Fail> {
    let alloc = rt.alloc();
    let bodies = [(35, b"one".as_slice()), (43, b"two")];
    expect_opened(&rt, opened_behind(alloc, 91, 2)?, 30, b"", &bodies);
    let body = [(72, [1, 0, 0, 0, 1, 1].as_slice())];
    expect_opened(&rt, opened_behind(alloc, 91, 4)?, 62, b"state", &body);
    let blank = vec![in alloc; 0u8; 91]?;
    expect_opened(&rt, opened(alloc, blank), 30, b"", &[]);
    Ok(())
}

// A device with a batch that has a body of so many octets, and a gate behind it.
fn image_of_batch(alloc: Global, length: u8, gate: u8) -> Result<Vec<u8>, AllocError> {
    let area = area_with(alloc, length, gate)?;
    image_with(alloc, &area)
}

// A batch with a body of so many octets, and an open gate behind it, is damaged at the place.
fn expect_damaged(rt: &impl Abort, alloc: Global, length: u8, at: u64) -> Result<(), Fail> {
    let found = refused(alloc, image_of_batch(alloc, length, 1)?, SITE);
    same(rt, &found, &Some(OpenFault::Damaged { at }));
    Ok(())
}

// Whether the octets open to this body alone.
fn opens_to_body(alloc: Global, octets: Vec<u8>, body: &[u8]) -> bool {
    lies(&opened(alloc, octets), 30, b"", &[(35, body)])
}

// A batch with a body of so many octets, and a gate behind it, is read.
fn expect_body(rt: &impl Abort, alloc: Global, body: &[u8], gate: u8) -> Result<(), Fail> {
    let length = body.len().min(255) as u8;
    let image = image_of_batch(alloc, length, gate)?;
    holds(rt, opens_to_body(alloc, image, body));
    Ok(())
}

#[test]
fn an_open_gate_without_room_for_its_length_is_damage(rt: HostRuntime) -> Result<(), Fail> {
    expect_damaged(&rt, rt.alloc(), 19, 55)?;
    expect_damaged(&rt, rt.alloc(), 22, 58)?;
    expect_body(&rt, rt.alloc(), &[1; 22], 0)?;
    expect_body(&rt, rt.alloc(), &[1; 23], 1)?;
    expect_damaged(&rt, rt.alloc(), 24, 31)
}

#[test]
fn a_large_area_is_read_as_far_as_it_is_used(rt: HostRuntime) -> Result<(), Fail> {
    let large = opened_behind(rt.alloc(), 4_194_304, 4)?;
    let body = [(2_097_179, [1, 0, 0, 0, 1, 1].as_slice())];
    expect_opened(&rt, large, 2_097_169, b"state", &body);
    Ok(())
}

// Three lines for the console.
fn three_lines(alloc: Global) -> Result<Vec<Send>, Fail> {
    let mut sends = Vec::new(alloc);
    for line in [b"a".as_slice(), b"b", b"c"] {
        sends.push(Send {
            peer: Peer::console(),
            bytes: Items::of(line.to_vec(alloc)?),
        })?;
    }
    Ok(sends)
}

// Two of three emissions go out, and all three are told.
fn expect_emitted(rt: &impl Abort, mut press: Press<MemoryGround>, sends: &[Send]) {
    same(rt, &press.emit_all(sends), &Emits { sent: 2, lost: 1 });
    let device = press.into_ground();
    same(rt, &device.trace().map(|trace| trace.len()), &Some(8));
}

// The same from a blank device, which is opened first.
fn expect_opened_and_emitted(
    rt: &impl Abort,
    alloc: Global,
    device: MemoryGround,
    sends: &[Send],
) -> Result<(), Fail> {
    match Press::open(alloc, device, SITE, NEED) {
        Ok((press, opened)) => {
            holds(rt, opened.fresh);
            expect_emitted(rt, press, sends);
            Ok(())
        }
        Err(_) => Err("not opened".into()),
    }
}

#[test]
fn emissions_are_tried_in_order(rt: HostRuntime) -> Result<(), Fail> {
    let alloc = rt.alloc();
    let sends = three_lines(alloc)?;
    expect_opened_and_emitted(&rt, alloc, device_of(alloc, 91, &[9])?, &sends)
}
