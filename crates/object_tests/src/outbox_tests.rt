//! Notes on their way.

ghost use Rattle.std.specs.Prelude.{◌≤◌, length};

use crate::comparing::{counts, holds, same};
use bac_values::{Items, Note, Peer, Send};
use outbox::*;
use std::alloc::Global;
use std::process::Abort;
use std::test::Fail;

/// Tuesday, 2023-11-14, 22:13:20 UTC.
const T: u64 = 1_700_000_000_000;

/// An alarm of integer-value 1, as a ConfirmedEventNotification has it.
const ALARM: [u8; 55] = [
    0x09, 0x01, 0x1c, 0x02, 0x00, 0x03, 0xe9, 0x2c, 0x0b, 0x40, 0x00, 0x01, 0x3e, 0x2e, 0xa4, 0x7b,
    0x0b, 0x0e, 0x02, 0xb4, 0x16, 0x0d, 0x1e, 0x00, 0x2f, 0x3f, 0x49, 0x07, 0x59, 0x64, 0x69, 0x0f,
    0x89, 0x00, 0x99, 0x01, 0xa9, 0x00, 0xb9, 0x03, 0xce, 0xfe, 0x0f, 0x09, 0x5a, 0x1a, 0x04, 0x80,
    0x29, 0x05, 0x39, 0x50, 0xff, 0x0f, 0xcf,
];

/// The acknowledgement of it.
const ACKNOWLEDGED: [u8; 36] = [
    0x09, 0x01, 0x1c, 0x02, 0x00, 0x03, 0xe9, 0x2c, 0x0b, 0x40, 0x00, 0x01, 0x3e, 0x2e, 0xa4, 0x7b,
    0x0b, 0x0e, 0x02, 0xb4, 0x16, 0x0d, 0x28, 0x00, 0x2f, 0x3f, 0x49, 0x07, 0x59, 0x64, 0x69, 0x0f,
    0x89, 0x02, 0xb9, 0x02,
];

/// A fault of the same object.
const FAULT: [u8; 59] = [
    0x09, 0x01, 0x1c, 0x02, 0x00, 0x03, 0xe9, 0x2c, 0x0b, 0x40, 0x00, 0x01, 0x3e, 0x2e, 0xa4, 0x7b,
    0x0b, 0x0e, 0x02, 0xb4, 0x16, 0x0d, 0x28, 0x00, 0x2f, 0x3f, 0x49, 0x07, 0x59, 0x5a, 0x69, 0x13,
    0x89, 0x00, 0x99, 0x01, 0xa9, 0x03, 0xb9, 0x01, 0xce, 0xfe, 0x13, 0x09, 0x07, 0x1a, 0x04, 0xc0,
    0x2e, 0x09, 0x55, 0x2e, 0x31, 0x5a, 0x2f, 0x2f, 0xff, 0x13, 0xcf,
];

/// The alarm with invoke ID 0, decoded by Wireshark as such.
const ALARM_SENT: [u8; 65] = [
    0x81, 0x0a, 0x00, 0x41, 0x01, 0x04, 0x00, 0x05, 0x00, 0x02, 0x09, 0x01, 0x1c, 0x02, 0x00, 0x03,
    0xe9, 0x2c, 0x0b, 0x40, 0x00, 0x01, 0x3e, 0x2e, 0xa4, 0x7b, 0x0b, 0x0e, 0x02, 0xb4, 0x16, 0x0d,
    0x1e, 0x00, 0x2f, 0x3f, 0x49, 0x07, 0x59, 0x64, 0x69, 0x0f, 0x89, 0x00, 0x99, 0x01, 0xa9, 0x00,
    0xb9, 0x03, 0xce, 0xfe, 0x0f, 0x09, 0x5a, 0x1a, 0x04, 0x80, 0x29, 0x05, 0x39, 0x50, 0xff, 0x0f,
    0xcf,
];

/// The acknowledgement with invoke ID 1.
const ACKNOWLEDGED_SENT: [u8; 46] = [
    0x81, 0x0a, 0x00, 0x2e, 0x01, 0x04, 0x00, 0x05, 0x01, 0x02, 0x09, 0x01, 0x1c, 0x02, 0x00, 0x03,
    0xe9, 0x2c, 0x0b, 0x40, 0x00, 0x01, 0x3e, 0x2e, 0xa4, 0x7b, 0x0b, 0x0e, 0x02, 0xb4, 0x16, 0x0d,
    0x28, 0x00, 0x2f, 0x3f, 0x49, 0x07, 0x59, 0x64, 0x69, 0x0f, 0x89, 0x02, 0xb9, 0x02,
];

/// The fault with invoke ID 1.
const FAULT_SENT: [u8; 69] = [
    0x81, 0x0a, 0x00, 0x45, 0x01, 0x04, 0x00, 0x05, 0x01, 0x02, 0x09, 0x01, 0x1c, 0x02, 0x00, 0x03,
    0xe9, 0x2c, 0x0b, 0x40, 0x00, 0x01, 0x3e, 0x2e, 0xa4, 0x7b, 0x0b, 0x0e, 0x02, 0xb4, 0x16, 0x0d,
    0x28, 0x00, 0x2f, 0x3f, 0x49, 0x07, 0x59, 0x5a, 0x69, 0x13, 0x89, 0x00, 0x99, 0x01, 0xa9, 0x03,
    0xb9, 0x01, 0xce, 0xfe, 0x13, 0x09, 0x07, 0x1a, 0x04, 0xc0, 0x2e, 0x09, 0x55, 0x2e, 0x31, 0x5a,
    0x2f, 0x2f, 0xff, 0x13, 0xcf,
];

fn peer(last: u8) -> Peer {
    Peer::local(0x0a00_0000 + u32::from(last), 47_808)
}

// An outbox for 10.0.0.5, 10.0.0.6 and 10.0.0.7.
fn outbox(alloc: Global) -> Result<Outbox, Fail> {
    let mut made = Outbox::new(alloc, Vec::new(alloc), 64, 3_000, 3)?;
    made.learn(alloc, &[peer(7), peer(5), peer(6)])?;
    Ok(made)
}

fn peer_at(outbox: &Outbox, place: u32) -> Option<Peer> {
    Some(outbox.post(place)?.peer)
}

// A note for the recipient at a place.
fn queue_at(
    alloc: Global,
    outbox: &mut Outbox,
    place: u32,
    confirmed: bool,
    body: &[u8],
) -> Result<(), Fail>
    requires { length body.now ≤ 1_024 }
{
    let Some(post) = outbox.post(place) else {
        return Err(Fail::from("no recipient"));
    };
    let mut notes = Vec::new(alloc);
    notes.push(Note {
        peer: post.peer,
        confirmed,
        body: Items::of(Vec::from_slice(alloc, body)?),
    })?;
    outbox.queue(alloc, notes)?;
    Ok(())
}

/// What is sent at so many milliseconds.
fn pump_at(alloc: Global, outbox: &mut Outbox, after: u32) -> Result<Vec<Send>, Fail> {
    Ok(outbox.pump(alloc, T + u64::from(after))?)
}

fn sent(rt: &impl Abort, sends: &[Send], to: &Peer, octets: &[u8]) {
    counts(rt, sends.len(), 1);
    same(rt, &sends[0].peer, &*to);
    same(rt, &sends[0].bytes.as_slice(), &octets);
}

/// One datagram goes to the recipient, with these octets, at so many milliseconds.
fn expect_sent(
    rt: &impl Abort,
    alloc: Global,
    outbox: &mut Outbox,
    after: u32,
    to: u8,
    octets: &[u8],
) -> Result<(), Fail> {
    sent(rt, &pump_at(alloc, outbox, after)?, &peer(to), octets);
    Ok(())
}

/// So many datagrams go at so many milliseconds.
fn expect_count(
    rt: &impl Abort,
    alloc: Global,
    outbox: &mut Outbox,
    after: u32,
    count: usize,
) -> Result<(), Fail> {
    same(rt, &pump_at(alloc, outbox, after)?.len(), &count);
    Ok(())
}

/// An answer with this invoke ID is one to what is in flight.
fn expect_answered(rt: &impl Abort, outbox: &mut Outbox, from: u8, invoke: u8) {
    same(rt, &outbox.answer(&peer(from), invoke), &Answered::Answered);
}

/// An answer with this invoke ID is a stray one.
fn expect_stray(rt: &impl Abort, outbox: &mut Outbox, from: u8, invoke: u8) {
    same(rt, &outbox.answer(&peer(from), invoke), &Answered::Stray);
}

fn answers_in_turn(rt: &impl Abort, alloc: Global, outbox: &mut Outbox) -> Result<(), Fail> {
    queue_at(alloc, outbox, 0, true, &ALARM)?;
    queue_at(alloc, outbox, 0, true, &ACKNOWLEDGED)?;
    expect_sent(rt, alloc, outbox, 20_000, 5, &ALARM_SENT)?;
    holds(rt, outbox.has_in_flight(&peer(5), 0));
    expect_stray(rt, outbox, 5, 1);
    expect_stray(rt, outbox, 6, 0);
    expect_stray(rt, outbox, 8, 0);
    expect_answered(rt, outbox, 5, 0);
    expect_stray(rt, outbox, 5, 0);
    expect_sent(rt, alloc, outbox, 20_100, 5, &ACKNOWLEDGED_SENT)?;
    same(rt, &outbox.room(), &63);
    Ok(())
}

#[test]
fn an_answer_lets_the_next_note_go(rt: HostRuntime) -> Result<(), Fail> {
    let mut outbox = outbox(rt.alloc())?;
    answers_in_turn(&rt, rt.alloc(), &mut outbox)
}

/// Two datagrams go at once, of which the first one is this.
fn expect_two(
    rt: &impl Abort,
    alloc: Global,
    outbox: &mut Outbox,
    first: &[u8],
) -> Result<(), Fail> {
    let sends = pump_at(alloc, outbox, 0)?;
    counts(rt, sends.len(), 2);
    same(rt, &sends[0].bytes.as_slice(), &first);
    Ok(())
}

fn goes_in_order(rt: &impl Abort, alloc: Global, outbox: &mut Outbox) -> Result<(), Fail> {
    for confirmed in [false, true, false, true] {
        queue_at(alloc, outbox, 0, confirmed, &[0x09, 0x01])?;
    }
    let first = [0x81, 0x0a, 0x00, 0x0a, 0x01, 0x00, 0x10, 0x03, 0x09, 0x01];
    expect_two(rt, alloc, outbox, &first)?;
    same(
        rt,
        &outbox.note(0, 0).map(|note| note.confirmed),
        &Some(true),
    );
    holds(rt, outbox.note(0, 3).is_none());
    expect_answered(rt, outbox, 5, 0);
    expect_count(rt, alloc, outbox, 0, 2)
}

#[test]
fn unconfirmed_notes_go_before_a_confirmed_one_and_wait_behind_it(
    rt: HostRuntime,
) -> Result<(), Fail> {
    let mut outbox = outbox(rt.alloc())?;
    goes_in_order(&rt, rt.alloc(), &mut outbox)
}

/// An alarm is sent four times, and given up with two notes behind it. A fault that comes then is sent with the next invoke ID.
fn gives_up_all(rt: &impl Abort, alloc: Global, outbox: &mut Outbox) -> Result<(), Fail> {
    queue_at(alloc, outbox, 0, true, &ALARM)?;
    queue_at(alloc, outbox, 0, false, &ACKNOWLEDGED)?;
    queue_at(alloc, outbox, 0, true, &ALARM)?;
    for after in [0, 3_000, 6_000, 9_000] {
        expect_sent(rt, alloc, outbox, after, 5, &ALARM_SENT)?;
    }
    expect_count(rt, alloc, outbox, 12_000, 0)?;
    same(rt, &outbox.room(), &64);
    expect_stray(rt, outbox, 5, 0);
    queue_at(alloc, outbox, 0, true, &FAULT)?;
    expect_sent(rt, alloc, outbox, 12_000, 5, &FAULT_SENT)
}

#[test]
fn an_outbox_that_flushes_gives_up_all(rt: HostRuntime) -> Result<(), Fail> {
    let alloc = rt.alloc();
    let mut outbox = outbox(alloc)?.flushing(true);
    gives_up_all(&rt, alloc, &mut outbox)
}

/// The recipients at these places.
fn peers_at(outbox: &Outbox, places: [u32; 4]) -> [Option<Peer>; 4] {
    let [first, second, third, fourth] = places;
    [
        peer_at(outbox, first),
        peer_at(outbox, second),
        peer_at(outbox, third),
        peer_at(outbox, fourth),
    ]
}

fn learns(rt: &impl Abort, alloc: Global, outbox: &mut Outbox) -> Result<(), Fail> {
    queue_at(alloc, outbox, 1, true, &ALARM)?;
    outbox.learn(alloc, &[peer(9), peer(6), peer(1), peer(9)])?;
    let wanted = [Some(peer(1)), Some(peer(6)), Some(peer(9)), None];
    same(rt, &peers_at(outbox, [0, 2, 4, 5]), &wanted);
    same(rt, &outbox.post(2).map(|post| post.notes), &Some(1));
    same(rt, &outbox.room(), &63);
    Ok(())
}

#[test]
fn peers_are_learned_at_their_places(rt: HostRuntime) -> Result<(), Fail> {
    let mut outbox = outbox(rt.alloc())?;
    learns(&rt, rt.alloc(), &mut outbox)
}

// The posts of an outbox, as they are told.
fn posts_of(alloc: Global, outbox: &Outbox) -> Result<Vec<Post>, Fail> {
    let mut posts = Vec::new(alloc);
    for place in 0..3 {
        if let Some(post) = outbox.post(place) {
            posts.push(post)?;
        }
    }
    Ok(posts)
}

// The first notes of the recipient at a place, so many.
fn notes_at(alloc: Global, outbox: &Outbox, place: u32, count: u32) -> Result<Vec<Note>, Fail> {
    let mut notes = Vec::new(alloc);
    for index in 0..count {
        if let Some(note) = outbox.note(place, index) {
            notes.push(Note {
                peer: note.peer,
                confirmed: note.confirmed,
                body: Items::of(Vec::from_slice(alloc, note.body.as_slice())?),
            })?;
        }
    }
    Ok(notes)
}

// An outbox of the same posts and notes.
fn restored(alloc: Global, posts: Vec<Post>, notes: Vec<Note>) -> Result<Outbox, Fail> {
    if !Outbox::can_restore(&posts, &notes, 64, 3_000, 3) {
        return Err(Fail::from("no outbox"));
    }
    Ok(Outbox::restore(alloc, posts, notes, 64, 3_000, 3)?)
}

// An outbox with an alarm for 10.0.0.5 that was sent twice, at 10 seconds and at 13, and a fault behind it.
fn sent_twice(rt: &impl Abort, alloc: Global) -> Result<Outbox, Fail> {
    let mut outbox = outbox(alloc)?;
    send_twice(rt, alloc, &mut outbox)?;
    Ok(outbox)
}

fn send_twice(rt: &impl Abort, alloc: Global, outbox: &mut Outbox) -> Result<(), Fail> {
    queue_at(alloc, outbox, 0, true, &ALARM)?;
    queue_at(alloc, outbox, 0, true, &FAULT)?;
    expect_sent(rt, alloc, outbox, 10_000, 5, &ALARM_SENT)?;
    expect_sent(rt, alloc, outbox, 13_000, 5, &ALARM_SENT)
}

// What was read out of it, made an outbox again.
fn sent_twice_and_restored(rt: &impl Abort, alloc: Global) -> Result<Outbox, Fail> {
    let told = sent_twice(rt, alloc)?;
    read_and_restored(rt, alloc, &told)
}

fn read_and_restored(rt: &impl Abort, alloc: Global, told: &Outbox) -> Result<Outbox, Fail> {
    let posts = posts_of(alloc, told)?;
    let notes = notes_at(alloc, told, 0, 2)?;
    expect_read(rt, &posts, &notes);
    restored(alloc, posts, notes)
}

// There are three recipients and two notes of the first one, which is to be sent again at 16 seconds.
fn expect_read(rt: &impl Abort, posts: &[Post], notes: &[Note]) {
    counts(rt, posts.len(), 3);
    same(rt, &posts[0], &first_post(2, T + 16_000));
    counts(rt, notes.len(), 2);
    same(rt, &notes[0].body.as_slice(), &ALARM.as_slice());
}

fn first_post(attempts: u8, deadline: u64) -> Post {
    Post {
        peer: peer(5),
        next_invoke: 0,
        attempts,
        deadline,
        notes: 2,
    }
}

fn goes_on(rt: &impl Abort, alloc: Global, outbox: &mut Outbox) -> Result<(), Fail> {
    same(rt, &outbox.room(), &62);
    holds(rt, outbox.has_in_flight(&peer(5), 0));
    holds(rt, outbox.idle(T + 15_999));
    expect_sent(rt, alloc, outbox, 16_000, 5, &ALARM_SENT)?;
    expect_sent(rt, alloc, outbox, 19_000, 5, &ALARM_SENT)?;
    expect_sent(rt, alloc, outbox, 22_000, 5, &FAULT_SENT)
}

#[test]
fn a_restored_outbox_goes_on(rt: HostRuntime) -> Result<(), Fail> {
    let mut outbox = sent_twice_and_restored(&rt, rt.alloc())?;
    goes_on(&rt, rt.alloc(), &mut outbox)
}

fn goes_on_by_an_answer(rt: &impl Abort, alloc: Global, outbox: &mut Outbox) -> Result<(), Fail> {
    expect_stray(rt, outbox, 5, 1);
    expect_answered(rt, outbox, 5, 0);
    expect_sent(rt, alloc, outbox, 14_000, 5, &FAULT_SENT)
}

#[test]
fn an_answer_after_a_restoring_lets_the_next_note_go(rt: HostRuntime) -> Result<(), Fail> {
    let mut outbox = sent_twice_and_restored(&rt, rt.alloc())?;
    goes_on_by_an_answer(&rt, rt.alloc(), &mut outbox)
}

// Whether an outbox may be made of a post for 10.0.0.5 and so many notes.
fn may_be(told: &[Note], attempts: u8, deadline: u64, count: usize) -> bool {
    let Some(notes) = told.get(..count) else {
        return false;
    };
    Outbox::can_restore(&[first_post(attempts, deadline)], notes, 64, 3_000, 3)
}

#[test]
fn an_outbox_is_told_from_what_is_none(rt: HostRuntime) -> Result<(), Fail> {
    let notes = notes_at(rt.alloc(), &sent_twice(&rt, rt.alloc())?, 0, 2)?;
    holds(&rt, may_be(&notes, 2, T, 2));
    holds(&rt, may_be(&notes, 4, 0, 2));
    holds(&rt, may_be(&notes, 0, 0, 2));
    holds(&rt, !may_be(&notes, 5, T, 2));
    holds(&rt, !may_be(&notes, 0, T, 2));
    holds(&rt, !may_be(&notes, 2, T, 1));
    Ok(())
}

// A recipient for whom no note waits.
fn without_notes(number: u8) -> Post {
    Post {
        peer: peer(number),
        notes: 0,
        ..first_post(0, 0)
    }
}

// Whether two recipients without notes make an outbox, in this order.
fn may_be_two(first: u8, second: u8, limit: u32, timeout: u64, retries: u8) -> bool {
    let posts = [without_notes(first), without_notes(second)];
    Outbox::can_restore(&posts, &[], limit, timeout, retries)
}

#[test]
fn an_outbox_is_told_by_its_peers_and_settings(rt: HostRuntime) {
    holds(&rt, may_be_two(5, 6, 0, 3_600_000, 15));
    holds(&rt, !may_be_two(6, 5, 64, 3_000, 3));
    holds(&rt, !may_be_two(5, 5, 64, 3_000, 3));
    holds(&rt, !may_be_two(5, 6, 16_385, 3_000, 3));
    holds(&rt, !may_be_two(5, 6, 64, 3_600_001, 3));
    holds(&rt, !may_be_two(5, 6, 64, 3_000, 16));
}
