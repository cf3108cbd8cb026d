//! Sites whose core is played to.

ghost use Rattle.bac_values.specs.Moments.{IsMoment};
ghost use Rattle.alarm_core.specs.Allowed.{IsAllowed};
ghost use Rattle.alarm_core.specs.Sites.{IsSite};

use crate::comparing::holds;
use crate::sites::{START, operator, tanks};
use alarm_core::*;
use bac_values::{ObjectId, ObjectKind, Peer, Send, Value};
use std::alloc::Global;
use std::process::Abort;
use std::test::Fail;

/// What happens to a core. Whoever plays it only borrows the core: a function that drops one, and goes on after each of
/// several calls of it, takes minutes to prove.
pub(crate) trait Play {
    /// Does it, and looks at what comes of it.
    fn play(&self, rt: &impl Abort, alloc: Global, core: &mut Core) -> Result<(), Fail>;
}

/// Plays to a core, and gives it up. What owns a core has one way out, and drops it by a call: it is dear to drop where it
/// stands.
pub(crate) fn play_to(
    rt: &impl Abort,
    alloc: Global,
    mut core: Core,
    play: &impl Play,
) -> Result<(), Fail> {
    let played = play.play(rt, alloc, &mut core);
    drop(core);
    played
}

/// Plays to the core of a site, from its start on.
pub(crate) fn play_on(
    rt: &impl Abort,
    alloc: Global,
    site: &Site,
    play: &impl Play,
) -> Result<(), Fail>
    requires site { IsSite site.now }
{
    play_to(rt, alloc, Core::start(alloc, site)?, play)
}

/// Plays to the core of a site with so many tanks and an outbox of 64 notes, from its start on.
pub(crate) fn play_at_tanks(
    rt: &impl Abort,
    alloc: Global,
    count: u32,
    play: &impl Play,
) -> Result<(), Fail> {
    let site = tanks(alloc, count, 0, 64)?;
    let played = play_on(rt, alloc, &site, play);
    drop(site);
    played
}

/// An event at a moment.
pub(crate) fn take(
    alloc: Global,
    core: &mut Core,
    moment: u64,
    act: Act,
) -> Result<Outcome, StepFault>
    requires moment { IsMoment moment }
    requires allowed { IsAllowed core.old act }
{
    core.take(alloc, &Event { moment, act })
}

/// The value of the tank comes from the field, at a moment.
pub(crate) fn set(alloc: Global, core: &mut Core, moment: u64, value: i32) -> Result<(), Fail>
    requires moment { IsMoment moment }
{
    let object = ObjectId::of_kind(ObjectKind::IntegerValue, 1)?;
    let change = core.table().check_set(object, Value::Signed(value))?;
    let _outcome = take(alloc, core, moment, Act::Write { change })?;
    Ok(())
}

/// Whether a datagram goes to a recipient with these octets.
pub(crate) fn is_sent(send: &Send, peer: Peer, octets: &[u8]) -> bool {
    send.peer == peer && send.bytes.as_slice() == octets
}

fn sends(outcome: &Outcome, octets: &[u8]) -> bool {
    match outcome.sends.as_slice() {
        [send] => is_sent(send, operator(), octets),
        _ => false,
    }
}

/// One datagram goes out, to the operator, with these octets.
pub(crate) fn pump(
    rt: &impl Abort,
    alloc: Global,
    core: &mut Core,
    octets: &[u8],
) -> Result<(), Fail> {
    let outcome = take(alloc, core, START, Act::Pump)?;
    holds(rt, sends(&outcome, octets));
    Ok(())
}

/// The notification of HIGH_LIMIT at the start, to be confirmed with invoke ID 0.
pub(crate) const HIGH_LIMIT: [u8; 65] = [
    0x81, 0x0a, 0x00, 0x41, 0x01, 0x04, 0x00, 0x05, 0x00, 0x02, 0x09, 0x01, 0x1c, 0x02, 0x00, 0x03,
    0xe9, 0x2c, 0x0b, 0x40, 0x00, 0x01, 0x3e, 0x2e, 0xa4, 0x7b, 0x0b, 0x0e, 0x02, 0xb4, 0x16, 0x0d,
    0x14, 0x00, 0x2f, 0x3f, 0x49, 0x07, 0x59, 0x64, 0x69, 0x0f, 0x89, 0x00, 0x99, 0x01, 0xa9, 0x00,
    0xb9, 0x03, 0xce, 0xfe, 0x0f, 0x09, 0x5a, 0x1a, 0x04, 0x80, 0x29, 0x05, 0x39, 0x50, 0xff, 0x0f,
    0xcf,
];

/// The tank rises above its high limit, at the start.
pub(crate) fn rise(alloc: Global, core: &mut Core) -> Result<(), Fail> {
    set(alloc, core, START, 90)
}
