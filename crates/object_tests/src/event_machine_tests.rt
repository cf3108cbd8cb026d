//! The detection of one object.

ghost use Rattle.std.specs.Prelude.{◌≡◌, ◌<◌, ◌≤◌, length};
ghost use Rattle.bac_values.specs.Moments.{IsMoment};

use crate::comparing::{holds, same};
use algorithm_rules::{Algorithm, Snapshot};
use bac_values::EventState::{self, HighLimit, Normal, Offnormal};
use bac_values::{Reliability, Stamp, Value};
use event_machine::*;
use std::marker::Brand;
use std::process::Abort;
use std::sync::ledger::{Blank, Ledger};

const START: u64 = 1_700_000_000_000;

/// Limits of 20 and 80 with a deadband of 5, delays of so many seconds.
fn limits<'a>(value: &'a Value, delay: u32) -> Snapshot<'a>
    ensures { length result.alarm_values.now ≤ 32 }
{
    Snapshot {
        algorithm: Algorithm::SignedOutOfRange,
        value,
        feedback: None,
        alarm_value: None,
        alarm_values: &[],
        mask: None,
        low: 20,
        high: 80,
        limit_enable: [true, true],
        deadband: 5,
        time_delay: delay,
        time_delay_normal: None,
    }
}

/// A stamp for each number of milliseconds after the start.
fn stamp(after: u32) -> Stamp {
    let [a, b, c, d] = after.to_be_bytes();
    Stamp {
        octets: [a, b, c, d, 0, 0, 0, 0],
    }
}

fn point(after: u32) -> PointFacts
    ensures moment { IsMoment result.moment }
{
    PointFacts {
        moment: START + u64::from(after),
        stamp: stamp(after),
        reliability: Reliability::NoFaultDetected,
        inhibited: false,
        ack_required: [true, false, false],
    }
}

fn moves(from: EventState, to: EventState) -> Option<Move> {
    Some(Move {
        from,
        to,
        by_fault: false,
    })
}

const NOTHING: Changed = Changed {
    first: None,
    second: None,
};

/// An alarm behind the first point of its object.
fn begun(snapshot: &Snapshot<'_>, first: &PointFacts) -> Alarm
    requires few { length snapshot.now.alarm_values.now ≤ 32 }
    requires moment { IsMoment first.now.moment }
{
    let mut alarm = Alarm::new();
    begin(&mut alarm, snapshot, first);
    alarm
}

fn counted<L: Ledger>(
    alarm: &mut Alarm,
    snapshot: &Snapshot<'_>,
    point: &PointFacts,
    blank: Blank,
) -> Changed
    requires name { blank.name ≡ L.name }
    requires parts { blank.parts ≡ L.parts }
    requires some { 0 < blank.parts }
    requires few { length snapshot.now.alarm_values.now ≤ 32 }
    requires moment { IsMoment point.now.moment }
{
    let mut steps = Steps::<L>::new(blank);
    evaluate(alarm, snapshot, point, &mut steps)
}

/// One more point, counted in a ledger that nobody reads.
fn looked(alarm: &mut Alarm, snapshot: &Snapshot<'_>, point: &PointFacts) -> Changed
    requires few { length snapshot.now.alarm_values.now ≤ 32 }
    requires moment { IsMoment point.now.moment }
{
    counted::<Brand>(alarm, snapshot, point, Blank::new(1))
}

/// A point at which the object isn't reliable.
fn faulty(after: u32) -> PointFacts
    ensures moment { IsMoment result.moment }
{
    PointFacts {
        reliability: Reliability::UnreliableOther,
        ..point(after)
    }
}

#[test]
fn a_new_alarm_is_normal_and_acknowledged(rt: HostRuntime) {
    let alarm = Alarm::new();
    same(&rt, &alarm.state(), &Normal);
    same(&rt, &alarm.acked(), &[true; 3]);
    same(&rt, &alarm.stamps(), &[Stamp::NEVER; 3]);
    same(&rt, &alarm.last_states(), &[None; 3]);
    holds(&rt, matches!(Found::Has(&alarm), Found::Has(_)));
}

/// A value within its limits, and one above them which was looked at twice: of a run from 3,000 on.
fn run_of(rt: &impl Abort, within: &Value, above: &Value) -> Alarm {
    let mut alarm = begun(&limits(within, 10), &point(0));
    same(rt, &alarm.runs(), &[None; 3]);
    same(rt, &next_due(&alarm, &limits(within, 10)), &None);
    let _first = looked(&mut alarm, &limits(above, 10), &point(3_000));
    let _second = looked(&mut alarm, &limits(above, 10), &point(7_000));
    alarm
}

/// The rule of a run from 3,000 on is due by the delay that it has now.
fn expect_due(rt: &impl Abort, alarm: &Alarm, above: &Value) {
    let due = next_due(alarm, &limits(above, 10));
    same(rt, &due, &Some(START + 13_000));
    let due = next_due(alarm, &limits(above, 12));
    same(rt, &due, &Some(START + 15_000));
    holds(rt, is_still(alarm, &limits(above, 10), &point(12_999)));
    holds(rt, !is_still(alarm, &limits(above, 10), &point(13_000)));
}

#[test]
fn a_run_starts_with_its_condition_and_tells_when_its_rule_is_due(rt: HostRuntime) {
    let (within, above) = (Value::Signed(50), Value::Signed(90));
    let alarm = run_of(&rt, &within, &above);
    let run = Run {
        start: START + 3_000,
        key: 0,
    };
    same(&rt, &alarm.runs(), &[Some(run), None, None]);
    expect_due(&rt, &alarm, &above);
}

fn expect_settled(rt: &impl Abort, within: &Value, above: &Value) {
    let mut alarm = begun(&limits(within, 10), &point(0));
    holds(rt, is_settled(&alarm, &limits(within, 10), &point(5_000)));
    holds(rt, !is_settled(&alarm, &limits(above, 10), &point(5_000)));
    holds(rt, !is_settled(&alarm, &limits(within, 10), &faulty(5_000)));
    let _seen = looked(&mut alarm, &limits(above, 10), &point(5_000));
    holds(rt, is_settled(&alarm, &limits(above, 10), &point(6_000)));
    holds(rt, !is_settled(&alarm, &limits(within, 10), &point(6_000)));
}

#[test]
fn an_object_is_settled_until_what_it_sees_changes(rt: HostRuntime) {
    expect_settled(&rt, &Value::Signed(50), &Value::Signed(90));
}

fn expect_due_at_10_000(rt: &impl Abort, snapshot: &Snapshot<'_>)
    requires few { length snapshot.now.alarm_values.now ≤ 32 }
{
    let mut alarm = begun(snapshot, &point(0));
    same(rt, &next_due(&alarm, snapshot), &Some(START + 10_000));
    holds(rt, is_settled(&alarm, snapshot, &point(9_999)));
    let changed = looked(&mut alarm, snapshot, &point(9_999));
    same(rt, &changed, &NOTHING);
    holds(rt, is_settled(&alarm, snapshot, &point(10_000)));
    let changed = looked(&mut alarm, snapshot, &point(10_000));
    same(rt, &changed.second, &moves(Normal, HighLimit));
    holds(rt, is_settled(&alarm, snapshot, &point(10_000)));
}

#[test]
fn a_settled_object_stays_until_it_is_due_and_then_moves(rt: HostRuntime) {
    expect_due_at_10_000(&rt, &limits(&Value::Signed(90), 10));
}

#[test]
fn an_inhibited_object_is_settled_in_normal(rt: HostRuntime) {
    let above = Value::Signed(90);
    let snapshot = limits(&above, 0);
    let mut alarm = begun(&snapshot, &point(0));
    let inhibited = PointFacts {
        inhibited: true,
        ..point(5_000)
    };
    let _entered = looked(&mut alarm, &snapshot, &point(0));
    same(&rt, &alarm.state(), &HighLimit);
    holds(&rt, !is_settled(&alarm, &snapshot, &inhibited));
    let _left = looked(&mut alarm, &snapshot, &inhibited);
    same(&rt, &alarm.state(), &Normal);
    holds(&rt, is_settled(&alarm, &snapshot, &inhibited));
    holds(&rt, !is_settled(&alarm, &snapshot, &point(5_000)));
}

#[test]
fn the_first_rule_that_is_due_is_the_one_of_the_disabled_limit(rt: HostRuntime) {
    let above = Value::Signed(90);
    let mut alarm = begun(&limits(&above, 10), &point(0));
    let _entered = looked(&mut alarm, &limits(&above, 10), &point(10_000));
    same(&rt, &alarm.state(), &HighLimit);
    same(&rt, &alarm.runs(), &[None; 3]);
    let disabled = Snapshot {
        limit_enable: [true, false],
        ..limits(&above, 10)
    };
    let changed = looked(&mut alarm, &disabled, &point(11_000));
    let wanted = Changed {
        first: None,
        second: moves(HighLimit, Normal),
    };
    same(&rt, &changed, &wanted);
}

#[test]
fn an_inhibited_object_has_no_runs(rt: HostRuntime) {
    let above = Value::Signed(90);
    let mut alarm = begun(&limits(&above, 10), &point(0));
    holds(&rt, alarm.runs()[0].is_some());
    let inhibited = PointFacts {
        inhibited: true,
        ..point(5_000)
    };
    let changed = looked(&mut alarm, &limits(&above, 10), &inhibited);
    same(&rt, &changed, &NOTHING);
    same(&rt, &alarm.runs(), &[None; 3]);
}

#[test]
fn an_alarm_is_what_it_is_restored_from(rt: HostRuntime) {
    let run = Run {
        start: START,
        key: 1,
    };
    let parts = AlarmParts {
        state: Offnormal,
        acked: [false, true, true],
        stamps: [stamp(1), stamp(2), stamp(3)],
        last_states: [Some(Offnormal), None, Some(Normal)],
        cause: Some(4),
        last_reliability: Reliability::OverRange,
        runs: [None, Some(run), None],
    };
    let alarm = Alarm::restore(parts);
    same(&rt, &alarm.state(), &parts.state);
    same(&rt, &alarm.acked(), &parts.acked);
    same(&rt, &alarm.stamps(), &parts.stamps);
    same(&rt, &alarm.last_states(), &parts.last_states);
    same(&rt, &alarm.cause(), &parts.cause);
    same(&rt, &alarm.last_reliability(), &parts.last_reliability);
    same(&rt, &alarm.runs(), &parts.runs);
}
