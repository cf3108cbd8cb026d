//! The alarms of a snapshot are read.

ghost use Rattle.std.specs.Prelude.{◌≡◌, ◌<◌, ◌≤◌, nat_lt, length, IfOk, IfSome};
ghost use Rattle.bac_values.specs.Moments.{IsMoment};
ghost use Rattle.algorithm_rules.specs.Rules.{rules_of};
ghost use Rattle.event_machine.specs.Runs.{AreInRange};
ghost use Rattle.alarm_core.specs.SiteStates.{is_state_of};
ghost use Rattle.state_codec.specs.ReadingSteps.{Gives};
ghost use Rattle.state_codec.specs.SnapshotSteps.{alarm_at, cause_at, last_state_at, last_states_at, led_at, may_start, new_alarm_at, reliability_at, run_at, runs_at, stamp_at, stamps_at, wants_cause};

use crate::act::take_state;
use crate::parts::{take_flag, take_flags, take_octet, take_octets, take_u32, take_u64};
use crate::reading::ReadFault;
use algorithm_rules::{Algorithm, rule};
use bac_values::{EventState, FIRST_MOMENT, LAST_MOMENT, Reliability, Stamp, Transition};
use event_machine::{Alarm, AlarmParts, Run};

/// What stands in place of a state's number where none was entered.
const NO_STATE: u8 = 255;

/// What is written of the alarm of an object that was never looked at.
const NEW_ALARM: [u8; 73] = [
    0, 7, 255, 255, 255, 255, 255, 255, 255, 255, 255, 255, 255, 255, 255, 255, 255, 255, 255, 255,
    255, 255, 255, 255, 255, 255, 255, 255, 255, 0, 0, 0, 0, 0, 0, 0, 0, 0, 0, 0, 0, 0, 0, 0, 0, 0,
    0, 0, 0, 0, 0, 0, 0, 0, 0, 0, 0, 0, 0, 0, 0, 0, 0, 0, 0, 0, 0, 0, 0, 0, 0, 0, 0,
];

/// Whether an object with an event algorithm may be in a state.
fn is_state_of(algorithm: Algorithm, state: EventState) -> bool
    ensures exact { result ≡ is_state_of algorithm state }
{
    match algorithm {
        Algorithm::ChangeOfState
        | Algorithm::ChangeOfBitstring
        | Algorithm::ChangeOfCharacterstring
        | Algorithm::CommandFailure => {
            !matches!(state, EventState::HighLimit | EventState::LowLimit)
        }
        Algorithm::SignedOutOfRange | Algorithm::UnsignedOutOfRange | Algorithm::UnsignedRange => {
            !matches!(state, EventState::Offnormal)
        }
    }
}

/// Takes a state that an event algorithm may lead to.
#[tactic(auto, unfolding(crate::specs::SnapshotSteps::led_at))]
fn take_led(algorithm: Algorithm, bytes: &mut &[u8]) -> Result<EventState, ReadFault>
    ensures exact { Gives (λ x. (x, bytes.new.now)) result (led_at algorithm bytes.old.now) }
{
    let state = take_state(bytes)?;
    if is_state_of(algorithm, state) {
        Ok(state)
    } else {
        Err(ReadFault::NothingThere)
    }
}

/// Takes a date and a time of day.
#[tactic(auto, unfolding(crate::specs::SnapshotSteps::stamp_at))]
pub(crate) fn take_stamp(bytes: &mut &[u8]) -> Result<Stamp, ReadFault>
    ensures exact { Gives (λ x. (x, bytes.new.now)) result (stamp_at bytes.old.now) }
{
    let front = take_octets(bytes, 8)?;
    let mut octets = [0; 8];
    octets.copy_from_slice(front);
    Ok(Stamp { octets })
}

/// Takes three of them.
fn take_stamps(bytes: &mut &[u8]) -> Result<[Stamp; 3], ReadFault>
    ensures exact { Gives (λ x. (x, bytes.new.now)) result (stamps_at bytes.old.now) }
{
    let first = take_stamp(bytes)?;
    let second = take_stamp(bytes)?;
    let third = take_stamp(bytes)?;
    Ok([first, second, third])
}

/// Takes the state that a transition entered, if it ever came.
#[tactic(auto, unfolding(crate::specs::SnapshotSteps::last_state_at))]
fn take_last_state(
    transition: Transition,
    bytes: &mut &[u8],
) -> Result<Option<EventState>, ReadFault>
    ensures exact { Gives (λ x. (x, bytes.new.now)) result (last_state_at transition bytes.old.now) }
{
    let octet = take_octet(bytes)?;
    if octet == NO_STATE {
        return Ok(None);
    }
    let Some(state) = EventState::of_number(u32::from(octet)) else {
        return Err(ReadFault::NothingThere);
    };
    if transition.place() == state.transition().place() {
        Ok(Some(state))
    } else {
        Err(ReadFault::NothingThere)
    }
}

/// Takes the states that the transitions entered.
fn take_last_states(bytes: &mut &[u8]) -> Result<[Option<EventState>; 3], ReadFault>
    ensures exact { Gives (λ x. (x, bytes.new.now)) result (last_states_at bytes.old.now) }
{
    let offnormal = take_last_state(Transition::ToOffnormal, bytes)?;
    let fault = take_last_state(Transition::ToFault, bytes)?;
    let normal = take_last_state(Transition::ToNormal, bytes)?;
    Ok([offnormal, fault, normal])
}

/// Whether a state has a cause of an object with so many alarm values.
fn wants_cause(values: u32, state: EventState) -> bool
    ensures exact { result ≡ wants_cause values state }
{
    match state {
        EventState::Offnormal => 0 < values,
        _ => false,
    }
}

/// Takes the cause of a state, one of so many alarm values.
#[tactic(auto, unfolding(crate::specs::SnapshotSteps::cause_at))]
fn take_cause(values: u32, state: EventState, bytes: &mut &[u8]) -> Result<Option<u32>, ReadFault>
    ensures exact { Gives (λ x. (x, bytes.new.now)) result (cause_at values state bytes.old.now) }
{
    let number = take_u32(bytes)?;
    if number == 0 {
        return if wants_cause(values, state) {
            Err(ReadFault::NothingThere)
        } else {
            Ok(None)
        };
    }
    let place = number - 1;
    if place < values {
        Ok(Some(place))
    } else {
        Err(ReadFault::NothingThere)
    }
}

/// Takes a reliability, by its number.
#[tactic(auto, unfolding(crate::specs::SnapshotSteps::reliability_at))]
fn take_reliability(bytes: &mut &[u8]) -> Result<Reliability, ReadFault>
    ensures exact { Gives (λ x. (x, bytes.new.now)) result (reliability_at bytes.old.now) }
{
    let octet = take_octet(bytes)?;
    match Reliability::of_number(u32::from(octet)) {
        Some(reliability) => Ok(reliability),
        None => Err(ReadFault::NothingThere),
    }
}

/// Whether there is a rule at a place.
#[tactic(auto, using(crate::proofs::Places::is_there))]
fn has_rule(algorithm: Algorithm, state: EventState, place: u8) -> bool
    ensures exact { result ≡ nat_lt place (length (rules_of algorithm state)) }
{
    rule(algorithm, state, place).is_some()
}

/// Whether a run of the rule at a place may start then.
fn may_start(algorithm: Algorithm, state: EventState, last: u64, place: u8, start: u64) -> bool
    ensures exact { result ≡ may_start (rules_of algorithm state) last place start }
{
    has_rule(algorithm, state, place)
        && FIRST_MOMENT <= start
        && start <= LAST_MOMENT
        && start <= last
}

/// Takes the run of the rule at a place, if there is one.
#[tactic(auto, unfolding(crate::specs::SnapshotSteps::run_at))]
fn take_run(
    algorithm: Algorithm,
    state: EventState,
    last: u64,
    place: u8,
    bytes: &mut &[u8],
) -> Result<Option<Run>, ReadFault>
    ensures exact { Gives (λ x. (x, bytes.new.now)) result (run_at algorithm state last place bytes.old.now) }
    ensures range { IfOk result (λ run. IfSome run (λ r. IsMoment r.start)) }
{
    let flag = take_flag(bytes)?;
    let start = take_u64(bytes)?;
    let key = take_u32(bytes)?;
    if flag {
        return if may_start(algorithm, state, last, place, start) {
            Ok(Some(Run { start, key }))
        } else {
            Err(ReadFault::NothingThere)
        };
    }
    if start == 0 && key == 0 {
        Ok(None)
    } else {
        Err(ReadFault::NothingThere)
    }
}

/// Takes the runs of the rules of a state.
fn take_runs(
    algorithm: Algorithm,
    state: EventState,
    last: u64,
    bytes: &mut &[u8],
) -> Result<[Option<Run>; 3], ReadFault>
    ensures exact { Gives (λ x. (x, bytes.new.now)) result (runs_at algorithm state last bytes.old.now) }
    ensures range { IfOk result AreInRange }
{
    let first = take_run(algorithm, state, last, 0, bytes)?;
    let second = take_run(algorithm, state, last, 1, bytes)?;
    let third = take_run(algorithm, state, last, 2, bytes)?;
    Ok([first, second, third])
}

/// Takes the alarm of an object with an event algorithm and so many alarm values, until a last moment.
#[tactic(auto, unfolding(crate::specs::SnapshotSteps::alarm_at, crate::specs::SnapshotSteps::traces_at))]
pub(crate) fn take_alarm(
    algorithm: Algorithm,
    values: u32,
    last: u64,
    bytes: &mut &[u8],
) -> Result<Alarm, ReadFault>
    ensures exact { Gives (λ x. (x, bytes.new.now)) result (alarm_at algorithm values last bytes.old.now) }
{
    let state = take_led(algorithm, bytes)?;
    let acked = take_flags(bytes)?;
    let stamps = take_stamps(bytes)?;
    let last_states = take_last_states(bytes)?;
    let cause = take_cause(values, state, bytes)?;
    let last_reliability = take_reliability(bytes)?;
    let runs = take_runs(algorithm, state, last, bytes)?;
    Ok(Alarm::restore(AlarmParts {
        state,
        acked,
        stamps,
        last_states,
        cause,
        last_reliability,
        runs,
    }))
}

/// Takes the alarm of an object that was never looked at.
#[tactic(auto, unfolding(crate::specs::SnapshotSteps::new_alarm_at))]
pub(crate) fn take_new_alarm(bytes: &mut &[u8]) -> Result<Alarm, ReadFault>
    ensures exact { Gives (λ x. (x, bytes.new.now)) result (new_alarm_at bytes.old.now) }
{
    let octets = take_octets(bytes, 73)?;
    if octets == NEW_ALARM.as_slice() {
        Ok(Alarm::new())
    } else {
        Err(ReadFault::NothingThere)
    }
}
