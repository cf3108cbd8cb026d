//! Edits of a class's recipients.

ghost use Rattle.std.specs.Prelude.{◌≡◌, IsSome, IsTrue};
ghost use Rattle.alarm_core.specs.Allowed.{members_of, room_beside};
ghost use Rattle.alarm_core.specs.Classes.{class_in};

use crate::alarm_core_plant::{HIGH_LIMIT, Play, is_sent, play_at_tanks, rise, take};
use crate::comparing::holds;
use crate::sites::{START, guard, operator, told};
use alarm_core::*;
use bac_values::{Items, Mac, ObjectId, ObjectKind, Peer, PropertyId};
use notify_class::{Destination, check_edit};
use std::alloc::Global;
use std::process::Abort;
use std::test::Fail;

// What of the core no script reaches: an edit of a class, and a recipient behind a router.

/// The list of the operator and of the guard, both at all times and of all transitions, to be confirmed.
const BOTH: [u8; 62] = [
    0x82, 0x01, 0xfe, 0xb4, 0x00, 0x00, 0x00, 0x00, 0xb4, 0x17, 0x3b, 0x3b, 0x63, 0x1e, 0x21, 0x00,
    0x65, 0x06, 0x0a, 0x00, 0x00, 0x05, 0xba, 0xc0, 0x1f, 0x21, 0x01, 0x11, 0x82, 0x05, 0xe0, 0x82,
    0x01, 0xfe, 0xb4, 0x00, 0x00, 0x00, 0x00, 0xb4, 0x17, 0x3b, 0x3b, 0x63, 0x1e, 0x21, 0x00, 0x65,
    0x06, 0x0a, 0x00, 0x00, 0x06, 0xba, 0xc0, 0x1f, 0x21, 0x02, 0x11, 0x82, 0x05, 0xe0,
];

/// Whether there is no other class, and one object alone is its member.
fn is_alone(core: &Core, class: u32) -> bool
    ensures class { IsTrue result → IsSome (class_in class core.now.classes) }
    ensures members { IsTrue result → members_of core.now class ≡ 1 }
    ensures room { IsTrue result → room_beside core.now class ≡ core.now.site.device.outbox }
{
    let site = core.site();
    match (core.classes(), site.objects.as_slice()) {
        ([only], [object]) => {
            only.instance == class
                && object.class == Some(class)
                && site.enrollments.as_slice().is_empty()
        }
        _ => false,
    }
}

/// The class of the operators gets a list, which is allowed, at the start. Nothing moves, and nothing is sent.
fn edit(
    rt: &impl Abort,
    alloc: Global,
    core: &mut Core,
    list: Vec<Destination>,
) -> Result<(), Fail> {
    let class = 7;
    let room = core.site().device.outbox;
    let is_edit = check_edit(core.known_peers(), &list, 1, room).is_ok();
    if !is_alone(core, class) || !is_edit {
        return Err(Fail::new("it isn't allowed"));
    }
    let destinations = Items::of(list);
    let act = Act::Edit {
        class,
        destinations,
    };
    let outcome = take(alloc, core, START, act)?;
    holds(
        rt,
        outcome.moves.as_slice().is_empty() && outcome.sends.as_slice().is_empty(),
    );
    Ok(())
}

/// Whether the Recipient_List of the operators' class is read as these octets.
fn lists(alloc: Global, core: &Core, octets: &[u8]) -> Result<bool, Fail> {
    let class = ObjectId::of_kind(ObjectKind::NotificationClass, 7)?;
    let read = core.read(alloc, class, PropertyId::RECIPIENT_LIST, None)?;
    Ok(read.as_slice() == octets)
}

/// Whether the operator and the guard are the known peers.
fn knows_both(core: &Core) -> bool {
    let both = [operator(), guard()];
    core.known_peers() == both.as_slice()
}

/// Whether the operator is told of HIGH_LIMIT as process 1, and the guard as process 2.
fn tells_both(outcome: &Outcome) -> bool {
    let mut guarded = HIGH_LIMIT;
    guarded[11] = 2;
    match outcome.sends.as_slice() {
        [first, second] => {
            is_sent(first, operator(), &HIGH_LIMIT) && is_sent(second, guard(), &guarded)
        }
        _ => false,
    }
}

/// The recipients are told of the tank's rise.
fn tell(rt: &impl Abort, alloc: Global, core: &mut Core) -> Result<(), Fail> {
    rise(alloc, core)?;
    let outcome = take(alloc, core, START, Act::Pump)?;
    holds(rt, tells_both(&outcome));
    Ok(())
}

/// The list gets a new peer behind the one that is known.
struct Edited;

impl Play for Edited {
    fn play(&self, rt: &impl Abort, alloc: Global, core: &mut Core) -> Result<(), Fail> {
        let list = vec![in alloc; told(operator(), 1), told(guard(), 2)]?;
        edit(rt, alloc, core, list)?;
        holds(rt, knows_both(core));
        holds(rt, lists(alloc, core, &BOTH)?);
        tell(rt, alloc, core)
    }
}

#[test]
fn an_edit_is_read_and_its_recipients_are_told(rt: HostRuntime) -> Result<(), Fail> {
    play_at_tanks(&rt, rt.alloc(), 1, &Edited)
}

/// The list of one on network 300, at all times, without confirming, as process 70,000.
const ROUTED: [u8; 30] = [
    0x82, 0x01, 0xfe, 0xb4, 0x00, 0x00, 0x00, 0x00, 0xb4, 0x17, 0x3b, 0x3b, 0x63, 0x1e, 0x22, 0x01,
    0x2c, 0x63, 0x01, 0x02, 0x03, 0x1f, 0x23, 0x01, 0x11, 0x70, 0x10, 0x82, 0x05, 0xe0,
];

/// One on network 300, behind a router.
fn behind_a_router() -> Result<Destination, Fail> {
    let Some(mac) = Mac::new(&[1, 2, 3]) else {
        return Err(Fail::new("the address is too long"));
    };
    let peer = Peer {
        ip: 0x0a00_0001,
        port: 47808,
        net: 300,
        mac,
    };
    Ok(Destination {
        confirmed: false,
        ..told(peer, 70_000)
    })
}

/// The list gets a recipient behind a router alone.
struct Routed;

impl Play for Routed {
    fn play(&self, rt: &impl Abort, alloc: Global, core: &mut Core) -> Result<(), Fail> {
        let list = vec![in alloc; behind_a_router()?]?;
        edit(rt, alloc, core, list)?;
        holds(rt, lists(alloc, core, &ROUTED)?);
        Ok(())
    }
}

#[test]
fn a_recipient_behind_a_router_is_read(rt: HostRuntime) -> Result<(), Fail> {
    play_at_tanks(&rt, rt.alloc(), 1, &Routed)
}
