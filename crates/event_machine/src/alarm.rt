//! The alarm of one object: what it keeps, and how it is acknowledged.

ghost use Rattle.std.specs.Prelude.{◌≡◌, ◌≤◌, ◌∷◌, List, length};
ghost use Rattle.bac_values.specs.Limits.{most_listed_values};
ghost use Rattle.bac_values.specs.Moments.{IsMoment};
ghost use Rattle.algorithm_rules.specs.Facts.{facts_of};
ghost use Rattle.algorithm_rules.specs.declared.table.Algorithm.{Algorithm};
ghost use Rattle.event_machine.specs.Detection.{cause_on};
ghost use Rattle.event_machine.specs.Given.{alarm_of_parts, point_of};
ghost use Rattle.event_machine.specs.Points.{Point, Incident, Acknowledged};
ghost use Rattle.event_machine.specs.Runs.{AreInRange};
ghost use Rattle.event_machine.specs.Summary.{IsAfter, new_alarm};
ghost use Rattle.event_machine.specs.AlarmSteps.{acknowledged, begins, entered, goes_on};

use crate::running::next_runs;
use crate::{AlarmParts, PointFacts, Run};
use algorithm_rules::{Snapshot, matched};
use bac_values::{EventState, Reliability, Stamp, Transition};
use std::marker::Model;

/// The alarm of one object. Lists of three are for to-offnormal, to-fault and to-normal, but for the runs.
#[derive(Clone, Copy, Debug)]
pub struct Alarm {
    state: EventState,
    acked: [bool; 3],
    stamps: [Stamp; 3],
    last_states: [Option<EventState>; 3],
    cause: Option<u32>,
    last_reliability: Reliability,
    runs: [Option<Run>; 3],
}

fn cause_on(to: EventState, snapshot: &Snapshot<'_>, cause: Option<u32>) -> Option<u32>
    requires few { length snapshot.now.alarm_values.now ≤ most_listed_values }
    ensures cause { result ≡ cause_on to (facts_of snapshot.now) cause }
{
    match to {
        EventState::Offnormal => matched(snapshot),
        _ => cause,
    }
}

impl Model for Alarm {
    ghost use Rattle.event_machine.specs.Runs.{AreInRange};
    ghost use Rattle.event_machine.specs.Summary.{AlarmState};

    ghost Value = { AlarmState };

    ghost view = { λ alarm. record {
      state = alarm.state;
      acked = alarm.acked;
      stamps = alarm.stamps;
      last_states = alarm.last_states;
      cause = alarm.cause;
      last_reliability = alarm.last_reliability;
      runs = alarm.runs;
    } };

    ghost invariant = { λ alarm. AreInRange alarm.runs };

    ghost inverse = { λ alarm. record {
      state = alarm.state;
      acked = alarm.acked;
      stamps = alarm.stamps;
      last_states = alarm.last_states;
      cause = alarm.cause;
      last_reliability = alarm.last_reliability;
      runs = alarm.runs;
    } };
}

impl Alarm {
    /// The alarm of an object that was never looked at.
    pub fn new() -> Alarm
        ensures new { result ≡ new_alarm }
    {
        Alarm {
            state: EventState::Normal,
            acked: [true; 3],
            stamps: [Stamp::NEVER; 3],
            last_states: [None; 3],
            cause: None,
            last_reliability: Reliability::NoFaultDetected,
            runs: [None; 3],
        }
    }

    /// The alarm of some parts.
    pub fn restore(parts: AlarmParts) -> Alarm
        requires range { AreInRange parts.runs }
        ensures restored { result ≡ alarm_of_parts parts }
    {
        let AlarmParts {
            state,
            acked,
            stamps,
            last_states,
            cause,
            last_reliability,
            runs,
        } = parts;
        Alarm {
            state,
            acked,
            stamps,
            last_states,
            cause,
            last_reliability,
            runs,
        }
    }

    /// The event state (Event_State).
    pub fn state(&self) -> EventState
        ensures state { result ≡ self.now.state }
    {
        self.state
    }

    /// Which transitions are acknowledged (Acked_Transitions).
    pub fn acked(&self) -> [bool; 3]
        ensures acked { result ≡ self.now.acked }
    {
        self.acked
    }

    /// When each transition last came, in local time (Event_Time_Stamps).
    pub fn stamps(&self) -> [Stamp; 3]
        ensures stamps { result ≡ self.now.stamps }
    {
        self.stamps
    }

    /// The state that each transition entered when it last came.
    pub fn last_states(&self) -> [Option<EventState>; 3]
        ensures last_states { result ≡ self.now.last_states }
    {
        self.last_states
    }

    /// The position of the alarm value by which OFFNORMAL was last entered.
    pub fn cause(&self) -> Option<u32>
        ensures cause { result ≡ self.now.cause }
    {
        self.cause
    }

    /// The reliability at the last point.
    pub fn last_reliability(&self) -> Reliability
        ensures last_reliability { result ≡ self.now.last_reliability }
    {
        self.last_reliability
    }

    /// The runs of the rules of the state, in their order, each with its start in range; none at a place where there is no
    /// run, or no such rule.
    pub fn runs(&self) -> [Option<Run>; 3]
        ensures runs { result ≡ self.now.runs }
        ensures range { AreInRange result }
    {
        self.runs
    }

    /// The reliability is the one at one more point.
    pub(crate) fn rely_on(&mut self, reliability: Reliability)
        ensures reliability { self.new ≡ record self.old { last_reliability = reliability } }
    {
        self.last_reliability = reliability;
    }

    /// The runs of the rules go on to one more point.
    pub(crate) fn go_on(&mut self, snapshot: &Snapshot<'_>, point: &PointFacts)
        requires few { length snapshot.now.alarm_values.now ≤ most_listed_values }
        requires moment { IsMoment point.now.moment }
        ensures runs { self.new ≡ goes_on snapshot.now.algorithm (point_of snapshot.now point.now) self.old }
    {
        self.runs = next_runs(snapshot, point, self.state, self.cause, &self.runs);
    }

    /// The runs of the rules begin at a point.
    pub(crate) fn begin_runs(&mut self, snapshot: &Snapshot<'_>, point: &PointFacts)
        requires few { length snapshot.now.alarm_values.now ≤ most_listed_values }
        requires moment { IsMoment point.now.moment }
        ensures runs { self.new ≡ begins snapshot.now.algorithm (point_of snapshot.now point.now) self.old }
    {
        self.runs = next_runs(snapshot, point, self.state, self.cause, &[None; 3]);
    }

    /// A state is entered at a point.
    pub(crate) fn enter(&mut self, to: EventState, snapshot: &Snapshot<'_>, point: &PointFacts)
        requires few { length snapshot.now.alarm_values.now ≤ most_listed_values }
        requires moment { IsMoment point.now.moment }
        ensures entered { self.new ≡ entered snapshot.now.algorithm (point_of snapshot.now point.now) to self.old }
    {
        let place = to.transition().place();
        self.state = to;
        self.acked[place] = !point.ack_required[place];
        self.stamps[place] = point.stamp;
        self.last_states[place] = Some(to);
        self.cause = cause_on(to, snapshot, self.cause);
        self.begin_runs(snapshot, point);
    }

    /// The transition is acknowledged (ANSI/ASHRAE 135-2020, 13.5).
    pub fn acknowledge(&mut self, transition: Transition)
        ensures acknowledged { self.new ≡ acknowledged transition self.old }
        ensures course { (algorithm : Algorithm) (first : Point) (later : List Incident) →
            IsAfter algorithm first later self.old → IsAfter algorithm first (Acknowledged transition ∷ later) self.new }
    {
        self.acked[transition.place()] = true;
    }
}
