//! How a request to acknowledge is judged: object, state, time stamp, in the order of the errors.

ghost use Rattle.std.specs.Prelude.{◌≡◌};
ghost use Rattle.event_machine.specs.Finding.{as_finding};
ghost use Rattle.ack_alarm.specs.Verdicts.{AcceptsAllowed, acknowledgement_verdict, error_of, is_stamp, transition_named, verdict_on, verdict_with};

use crate::Verdict;
use bac_values::{EventState, ServiceError, Transition};
use event_machine::{Alarm, Found, names_last};
use event_services::{AckRequest, AckStamp};

fn transition_named(number: u32) -> Transition
    ensures transition { result ≡ transition_named number }
{
    match number {
        0 => Transition::ToNormal,
        1 => Transition::ToFault,
        _ => Transition::ToOffnormal,
    }
}

fn is_stamp(alarm: &Alarm, transition: Transition, stamp: AckStamp) -> bool
    ensures stamp { result ≡ is_stamp alarm.now transition stamp }
{
    let AckStamp::DateTime(stamp) = stamp else {
        return false;
    };
    let place = transition.place();
    alarm.last_states()[place].is_some() && alarm.stamps()[place].octets == stamp.octets
}

// An error, as it is answered.
fn error_of(error: ServiceError) -> Verdict
    ensures error { result ≡ error_of error }
{
    Verdict::Error {
        class: error.class,
        code: error.code,
    }
}

// The verdict where the stamp is right.
fn verdict_with(
    last: Option<EventState>,
    acked: bool,
    transition: Transition,
    named: Option<EventState>,
) -> Verdict
    ensures verdict { result ≡ verdict_with last acked transition named }
{
    let Some(state) = named else {
        return error_of(ServiceError::INVALID_EVENT_STATE);
    };
    if !names_last(last, state) {
        return error_of(ServiceError::INVALID_EVENT_STATE);
    }
    if acked {
        return Verdict::Already;
    }
    Verdict::Accept { transition, state }
}

fn verdict_on(alarm: &Alarm, transition: Transition, request: &AckRequest) -> Verdict
    ensures verdict { result ≡ verdict_on alarm.now transition request.now }
{
    if !is_stamp(alarm, transition, request.stamp) {
        return error_of(ServiceError::INVALID_TIME_STAMP);
    }
    let place = transition.place();
    let named = EventState::of_number(request.state);
    verdict_with(
        alarm.last_states()[place],
        alarm.acked()[place],
        transition,
        named,
    )
}

/// The verdict on a request to acknowledge, from what was found under its identifier: the first of the cases unknown
/// object, no alarm configured, invalid time stamp, invalid event state, already acknowledged, accepted. No memory is
/// taken.
pub fn judge(found: Found<'_>, request: &AckRequest) -> Verdict
    ensures verdict { result ≡ acknowledgement_verdict (as_finding found.entry) request.now }
    ensures accepts { AcceptsAllowed (as_finding found.entry) result }
{
    match found {
        Found::NoObject => error_of(ServiceError::UNKNOWN_OBJECT),
        Found::NoAlarm => error_of(ServiceError::NO_ALARM_CONFIGURED),
        Found::Has(alarm) => verdict_on(alarm, transition_named(request.state), request),
    }
}
