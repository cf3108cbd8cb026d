//! Cores that are made of parts.

ghost use Rattle.std.specs.Prelude.{◌≡◌, [], IfOk, None, false, length, pos};
ghost use Rattle.outbox.specs.Outboxes.{IsOutbox};
ghost use Rattle.alarm_core.specs.Sites.{IsSite};

use crate::alarm_core_plant::{Play, is_sent, play_to, take};
use crate::comparing::holds;
use crate::sites::{START, operator};
use alarm_core::*;
use bac_values::{Items, Note, Text};
use enrollment::Enrollments;
use object_table::Table;
use outbox::{Outbox, Post};
use std::alloc::Global;
use std::process::Abort;
use std::test::Fail;

/// A device in UTC, with an outbox of 64 notes.
fn device(alloc: Global) -> Result<DeviceSite, Fail>
    ensures instance { IfOk result (λ site. site.instance ≡ 1001) }
    ensures start { IfOk result (λ site. site.start ≡ 1700000000000) }
    ensures zone { IfOk result (λ site. site.zone_minutes ≡ pos 0) }
    ensures rule { IfOk result (λ site. site.zone_rule ≡ None) }
    ensures timeout { IfOk result (λ site. site.apdu_timeout ≡ 3000) }
    ensures retries { IfOk result (λ site. site.retries ≡ 3) }
    ensures flush { IfOk result (λ site. site.flush_silent ≡ false) }
    ensures outbox { IfOk result (λ site. site.outbox ≡ 64) }
{
    Ok(DeviceSite {
        instance: 1001,
        name: Text::new(alloc, "Plant")?,
        vendor: 999,
        start: 1_700_000_000_000,
        zone_minutes: 0,
        zone_rule: None,
        apdu_timeout: 3000,
        retries: 3,
        outbox: 64,
        flush_silent: false,
    })
}

/// A device alone.
fn bare(alloc: Global) -> Result<Site, Fail>
    ensures keeps { IfOk result (λ site. IsSite site) }
    ensures classes { IfOk result (λ site. site.classes ≡ []) }
    ensures objects { IfOk result (λ site. site.objects ≡ []) }
    ensures enrollments { IfOk result (λ site. site.enrollments ≡ []) }
    ensures logs { IfOk result (λ site. site.logs ≡ []) }
    ensures start { IfOk result (λ site. site.device.start ≡ 1700000000000) }
    ensures limit { IfOk result (λ site. site.device.outbox ≡ 64) }
    ensures timeout { IfOk result (λ site. site.device.apdu_timeout ≡ 3000) }
    ensures retries { IfOk result (λ site. site.device.retries ≡ 3) }
    ensures flush { IfOk result (λ site. site.device.flush_silent ≡ false) }
{
    Ok(Site {
        device: device(alloc)?,
        classes: Items::of(Vec::new(alloc)),
        objects: Items::of(Vec::new(alloc)),
        enrollments: Items::of(Vec::new(alloc)),
        logs: Items::of(Vec::new(alloc)),
        bindings: Items::of(Vec::new(alloc)),
    })
}

/// Three octets for the operator, who is to confirm them.
fn note(alloc: Global) -> Result<Note, Fail> {
    Ok(Note {
        peer: operator(),
        confirmed: true,
        body: Items::of(vec![in alloc; 0x0a, 0x0b, 0x0c]?),
    })
}

/// An outbox of which a note was sent once at the start, with invoke ID 9.
fn in_flight(alloc: Global) -> Result<Outbox, Fail>
    ensures outbox { IfOk result (λ outbox. IsOutbox outbox) }
    ensures one { IfOk result (λ outbox. length outbox.posts ≡ 1) }
    ensures limit { IfOk result (λ outbox. outbox.limit ≡ 64) }
    ensures timeout { IfOk result (λ outbox. outbox.timeout ≡ 3000) }
    ensures retries { IfOk result (λ outbox. outbox.retries ≡ 3) }
    ensures flush { IfOk result (λ outbox. outbox.flush_silent ≡ false) }
{
    let post = Post {
        peer: operator(),
        next_invoke: 9,
        attempts: 1,
        deadline: START + 3000,
        notes: 1,
    };
    let posts = vec![in alloc; post]?;
    let notes = vec![in alloc; note(alloc)?]?;
    if !Outbox::can_restore(&posts, &notes, 64, 3000, 3) {
        return Err(Fail::new("no outbox"));
    }
    Ok(Outbox::restore(alloc, posts, notes, 64, 3000, 3)?)
}

/// The core that is made of an outbox, five events after the start of a device alone.
fn restored(alloc: Global, site: &Site) -> Result<Core, Fail>
    requires site { IsSite site.now }
    requires classes { site.now.classes ≡ [] }
    requires objects { site.now.objects ≡ [] }
    requires enrollments { site.now.enrollments ≡ [] }
    requires logs { site.now.logs ≡ [] }
    requires start { site.now.device.start ≡ 1700000000000 }
    requires limit { site.now.device.outbox ≡ 64 }
    requires timeout { site.now.device.apdu_timeout ≡ 3000 }
    requires retries { site.now.device.retries ≡ 3 }
    requires flush { site.now.device.flush_silent ≡ false }
{
    let outbox = in_flight(alloc)?;
    let table = Table::new(alloc, Vec::new(alloc))?;
    let enrollments = Enrollments::new(alloc, Vec::new(alloc), &[])?;
    let parts = Parts {
        events: 5,
        last_moment: START + 7,
        table,
        enrollments,
        alarms: Items::of(Vec::new(alloc)),
        classes: Items::of(Vec::new(alloc)),
        logs: Items::of(Vec::new(alloc)),
        outbox,
    };
    Ok(Core::restore(alloc, site, parts)?)
}

/// Plays to that core.
fn play_on_restored(rt: &impl Abort, alloc: Global, play: &impl Play) -> Result<(), Fail> {
    let site = bare(alloc)?;
    let core = restored(alloc, &site);
    drop(site);
    play_to(rt, alloc, core?, play)
}

/// What was told is there.
struct Told;

impl Play for Told {
    fn play(&self, rt: &impl Abort, _alloc: Global, core: &mut Core) -> Result<(), Fail> {
        expect_told(rt, core);
        Ok(())
    }
}

fn expect_told(rt: &impl Abort, core: &Core) {
    holds(rt, core.events() == 5 && core.last_moment() == START + 7);
    holds(rt, core.known_peers() == [operator()].as_slice());
    holds(rt, core.has_in_flight(&operator(), 9));
}

#[test]
fn a_restored_core_shows_what_was_told(rt: HostRuntime) -> Result<(), Fail> {
    play_on_restored(&rt, rt.alloc(), &Told)
}

/// The note with invoke ID 9.
const AGAIN: [u8; 13] = [
    0x81, 0x0a, 0x00, 0x0d, 0x01, 0x04, 0x00, 0x05, 0x09, 0x02, 0x0a, 0x0b, 0x0c,
];

/// Whether the note goes out once more.
fn goes_again(outcome: &Outcome) -> bool {
    match outcome.sends.as_slice() {
        [send] => is_sent(send, operator(), &AGAIN),
        _ => false,
    }
}

/// Whether the note was sent twice, and an answer is awaited till six seconds after the start.
fn is_sent_twice(core: &Core) -> bool {
    match core.outbox().post(0) {
        Some(post) => post.attempts == 2 && post.deadline == START + 6000,
        None => false,
    }
}

/// The note is sent again at its deadline, and not before.
struct Goes;

impl Play for Goes {
    fn play(&self, rt: &impl Abort, alloc: Global, core: &mut Core) -> Result<(), Fail> {
        holds(rt, core.idle_pump(START + 2999));
        let outcome = take(alloc, core, START + 3000, Act::Pump)?;
        holds(rt, goes_again(&outcome) && is_sent_twice(core));
        holds(rt, core.events() == 6);
        Ok(())
    }
}

#[test]
fn a_restored_core_sends_again_at_the_deadline(rt: HostRuntime) -> Result<(), Fail> {
    play_on_restored(&rt, rt.alloc(), &Goes)
}

/// A tick from before the last event comes at the moment of that event.
struct Late;

impl Play for Late {
    fn play(&self, rt: &impl Abort, alloc: Global, core: &mut Core) -> Result<(), Fail> {
        let _still = take(alloc, core, START, Act::Tick)?;
        holds(rt, core.events() == 6 && core.last_moment() == START + 7);
        Ok(())
    }
}

#[test]
fn a_restored_core_goes_on_from_its_last_moment(rt: HostRuntime) -> Result<(), Fail> {
    play_on_restored(&rt, rt.alloc(), &Late)
}
