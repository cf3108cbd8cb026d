//! Which events are admitted.

use crate::alarm_core_plant::{HIGH_LIMIT, Play, play_at_tanks, pump, rise};
use crate::comparing::holds;
use crate::sites::{START, guard, operator, told};
use alarm_core::*;
use bac_values::{
    EventState, Items, LAST_MOMENT, ObjectId, ObjectKind, Peer, PropertyId, Transition, Value,
};
use notify_class::Destination;
use object_table::{Change, What};
use std::alloc::Global;
use std::process::Abort;
use std::test::Fail;

fn admits(core: &Core, moment: u64, act: Act) -> bool {
    core.admits(&Event { moment, act })
}

/// Moments are in range, and not before the last one.
struct Moments;

impl Play for Moments {
    fn play(&self, rt: &impl Abort, _alloc: Global, core: &mut Core) -> Result<(), Fail> {
        expect_moments(rt, core);
        Ok(())
    }
}

fn expect_moments(rt: &impl Abort, core: &Core) {
    holds(rt, admits(core, START, Act::Tick));
    holds(rt, admits(core, LAST_MOMENT, Act::Pump));
    holds(rt, !admits(core, START - 1, Act::Tick));
    holds(rt, !admits(core, LAST_MOMENT + 1, Act::Pump));
}

#[test]
fn a_moment_in_range_that_is_not_before_the_last_one_is_admitted(
    rt: HostRuntime,
) -> Result<(), Fail> {
    play_at_tanks(&rt, rt.alloc(), 1, &Moments)
}

/// Whether a change of an integer value may come.
fn admits_change(core: &Core, instance: u32, what: What) -> Result<bool, Fail> {
    let object = ObjectId::of_kind(ObjectKind::IntegerValue, instance)?;
    let change = Change { object, what };
    Ok(admits(core, START, Act::Write { change }))
}

fn admits_write(
    core: &Core,
    instance: u32,
    property: PropertyId,
    value: Value,
) -> Result<bool, Fail> {
    admits_change(core, instance, What::Property { property, value })
}

fn admits_fault(core: &Core, reliability: u8) -> Result<bool, Fail> {
    admits_change(core, 1, What::FieldFault { reliability })
}

/// An object takes what its properties can be, and the reliabilities of the field.
struct Writes;

impl Play for Writes {
    fn play(&self, rt: &impl Abort, _alloc: Global, core: &mut Core) -> Result<(), Fail> {
        expect_writes(rt, core)
    }
}

fn expect_writes(rt: &impl Abort, core: &Core) -> Result<(), Fail> {
    let value = PropertyId::PRESENT_VALUE;
    holds(rt, admits_write(core, 1, value, Value::Signed(7))?);
    holds(rt, !admits_write(core, 1, value, Value::Unsigned(7))?);
    holds(rt, !admits_write(core, 2, value, Value::Signed(7))?);
    let kind = PropertyId::OBJECT_TYPE;
    holds(rt, !admits_write(core, 1, kind, Value::Enumerated(45))?);
    holds(rt, admits_fault(core, 7)?);
    holds(rt, !admits_fault(core, 1)?);
    Ok(())
}

#[test]
fn a_change_that_the_object_takes_is_admitted(rt: HostRuntime) -> Result<(), Fail> {
    play_at_tanks(&rt, rt.alloc(), 1, &Writes)
}

fn admits_acknowledgement(
    core: &Core,
    transition: Transition,
    state: EventState,
) -> Result<bool, Fail> {
    let object = ObjectId::of_kind(ObjectKind::IntegerValue, 1)?;
    let act = Act::Ack {
        object,
        transition,
        state,
    };
    Ok(admits(core, START, act))
}

/// Whether an acknowledgement with each of these states is admitted.
fn expect_acknowledgements(
    rt: &impl Abort,
    core: &Core,
    rows: &[(Transition, EventState, bool)],
) -> Result<(), Fail> {
    for (transition, state, wanted) in rows {
        holds(
            rt,
            admits_acknowledgement(core, *transition, *state)? == *wanted,
        );
    }
    Ok(())
}

/// What came is acknowledged with the state that it entered, or with OFFNORMAL for a limit.
struct Acknowledgements;

impl Play for Acknowledgements {
    fn play(&self, rt: &impl Abort, alloc: Global, core: &mut Core) -> Result<(), Fail> {
        let offnormal = Transition::ToOffnormal;
        expect_acknowledgements(rt, core, &[(offnormal, EventState::HighLimit, false)])?;
        rise(alloc, core)?;
        let rows = [
            (offnormal, EventState::HighLimit, true),
            (offnormal, EventState::Offnormal, true),
            (offnormal, EventState::LowLimit, false),
            (Transition::ToNormal, EventState::Normal, false),
        ];
        expect_acknowledgements(rt, core, &rows)
    }
}

#[test]
fn an_acknowledgement_of_what_came_is_admitted(rt: HostRuntime) -> Result<(), Fail> {
    play_at_tanks(&rt, rt.alloc(), 1, &Acknowledgements)
}

fn admits_answer(core: &Core, peer: Peer, invoke: u8, kind: u8) -> bool {
    admits(core, START, Act::Answer { peer, invoke, kind })
}

/// The recipient of a notification in flight answers it by an ACK, an Error, a Reject or an Abort.
struct Answers;

impl Play for Answers {
    fn play(&self, rt: &impl Abort, alloc: Global, core: &mut Core) -> Result<(), Fail> {
        rise(alloc, core)?;
        holds(rt, !admits_answer(core, operator(), 0, 2));
        pump(rt, alloc, core, &HIGH_LIMIT)?;
        expect_answers(rt, core);
        Ok(())
    }
}

fn expect_answers(rt: &impl Abort, core: &Core) {
    for kind in [2, 5, 6, 7] {
        holds(rt, admits_answer(core, operator(), 0, kind));
    }
    holds(rt, !admits_answer(core, operator(), 0, 3));
    holds(rt, !admits_answer(core, operator(), 1, 2));
    holds(rt, !admits_answer(core, guard(), 0, 2));
}

#[test]
fn an_answer_to_what_is_in_flight_is_admitted(rt: HostRuntime) -> Result<(), Fail> {
    play_at_tanks(&rt, rt.alloc(), 1, &Answers)
}

/// Whether an edit of a class to so many recipients is admitted, each of them the operator.
fn admits_edit(alloc: Global, core: &Core, class: u32, count: u32) -> Result<bool, Fail> {
    let destinations = Items::of(recipients(alloc, count)?);
    let act = Act::Edit {
        class,
        destinations,
    };
    Ok(admits(core, START, act))
}

/// So many recipients, each the operator.
fn recipients(alloc: Global, count: u32) -> Result<Vec<Destination>, Fail> {
    let mut list = Vec::new(alloc);
    for process in 0..count {
        list.push(told(operator(), process))?;
    }
    Ok(list)
}

/// A class of 32 objects has room for two recipients in an outbox of 64.
struct Edits;

impl Play for Edits {
    fn play(&self, rt: &impl Abort, alloc: Global, core: &mut Core) -> Result<(), Fail> {
        expect_edits(rt, alloc, core)
    }
}

fn expect_edits(rt: &impl Abort, alloc: Global, core: &Core) -> Result<(), Fail> {
    holds(rt, admits_edit(alloc, core, 7, 0)?);
    holds(rt, admits_edit(alloc, core, 7, 2)?);
    holds(rt, !admits_edit(alloc, core, 7, 3)?);
    holds(rt, !admits_edit(alloc, core, 8, 1)?);
    Ok(())
}

#[test]
fn an_edit_within_the_limits_is_admitted(rt: HostRuntime) -> Result<(), Fail> {
    play_at_tanks(&rt, rt.alloc(), 32, &Edits)
}
