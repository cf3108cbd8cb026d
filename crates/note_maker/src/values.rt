//! The event values of a notification, by the event's type (13.3).

ghost use Rattle.std.specs.Prelude.{◌≡◌, ◌≤◌, ℤ, Some, List, length, IfOk, IfSome, option_and_then};
ghost use Rattle.bac_values.specs.Limits.{most_listed_values};
ghost use Rattle.std.specs.Option.{option_copied};
ghost use Rattle.bac_values.specs.EventTypes.{change_of_characterstring_type, change_of_reliability_type, command_failure_type};
ghost use Rattle.algorithm_rules.specs.EventTypes.{event_type_of};
ghost use Rattle.algorithm_rules.specs.Facts.{facts_of};
ghost use Rattle.event_machine.specs.Detection.{cause_on};
ghost use Rattle.event_services.specs.Notifications.{IsOneValue, IsOneOrNone, IsTold};
ghost use Rattle.note_maker.specs.EventTypes.{transition_type};
ghost use Rattle.note_maker.specs.Told.{algorithm_values, as_signed, as_unsigned, bitstring_told, command_told, exceeded_limit, flags_in, one_value, range_told, reliability_values, signed_told, state_told, text_in, text_told, told_alarm, told_state, unsigned_told, values_at};

use algorithm_rules::{Algorithm, Snapshot, matched};
use bac_values::{EventState, NoMemory, Reliability, StatusFlags, Text, Value};
use event_machine::Move;
use event_services::EventValues;

/// Status_Flags in a state with a reliability. No object is ever overridden.
pub fn status_flags(
    state: EventState,
    reliability: Reliability,
    out_of_service: bool,
) -> StatusFlags
    ensures flags { result ≡ flags_in state reliability out_of_service }
{
    StatusFlags {
        in_alarm: state != EventState::Normal,
        fault: reliability.number() != 0,
        overridden: false,
        out_of_service,
    }
}

/// A copy of a value that one element can tell.
fn one_value(value: &Value) -> Result<Option<Value>, NoMemory>
    ensures copy { IfOk result (λ copy. copy ≡ one_value value.now) }
    ensures one { IfOk result (λ copy. IsOneOrNone copy) }
{
    match value {
        Value::DateTime(_) | Value::Opaque { .. } => Ok(None),
        value => Ok(Some(value.clone()?)),
    }
}

/// The same of a value that may be absent.
fn one_value_of(value: Option<&Value>) -> Result<Option<Value>, NoMemory>
    ensures copy { IfOk result (λ copy. copy ≡ option_and_then one_value (option_copied value.entry)) }
    ensures one { IfOk result (λ copy. IsOneOrNone copy) }
{
    match value {
        Some(value) => one_value(value),
        None => Ok(None),
    }
}

/// A copy of a text.
fn copy_of_text(text: &Text) -> Result<Text, NoMemory>
    ensures same { IfOk result (λ copy. copy ≡ text.now) }
{
    Ok(text.clone()?)
}

/// The state whose limit is told: the one that is entered, and on a return to NORMAL the one that is left.
fn told_state(made: Move) -> EventState
    ensures state { result ≡ told_state made }
{
    match made.to {
        EventState::Normal => made.from,
        entered => entered,
    }
}

/// The limit that the value exceeds in the state that is told.
fn exceeded_limit(made: Move, snapshot: &Snapshot<'_>) -> Option<i64>
    ensures limit { result ≡ exceeded_limit made (facts_of snapshot.now) }
{
    match told_state(made) {
        EventState::HighLimit => Some(snapshot.high),
        EventState::LowLimit => Some(snapshot.low),
        EventState::Normal | EventState::Fault | EventState::Offnormal => None,
    }
}

fn as_unsigned(limit: i64) -> Option<u32>
    ensures number { result ≡ as_unsigned limit }
{
    u32::try_from(limit).ok()
}

fn as_signed(limit: i64) -> Option<i32>
    ensures number { result ≡ as_signed limit }
{
    i32::try_from(limit).ok()
}

fn unsigned_limit(made: Move, snapshot: &Snapshot<'_>) -> Option<u32>
    ensures limit { result ≡ option_and_then as_unsigned (exceeded_limit made (facts_of snapshot.now)) }
{
    as_unsigned(exceeded_limit(made, snapshot)?)
}

fn signed_limit(made: Move, snapshot: &Snapshot<'_>) -> Option<i32>
    ensures limit { result ≡ option_and_then as_signed (exceeded_limit made (facts_of snapshot.now)) }
{
    as_signed(exceeded_limit(made, snapshot)?)
}

/// The position of the alarm value that is told.
fn alarm_place(made: Move, snapshot: &Snapshot<'_>, cause: Option<u32>) -> Option<u32>
    requires few { length snapshot.now.alarm_values.now ≤ most_listed_values }
    ensures place { result ≡ cause_on made.to (facts_of snapshot.now) cause }
{
    match made.to {
        EventState::Offnormal => matched(snapshot),
        _ => cause,
    }
}

/// The alarm value that is told.
fn told_alarm<'a>(made: Move, snapshot: &Snapshot<'a>, cause: Option<u32>) -> Option<&'a Value>
    requires few { length snapshot.now.alarm_values.now ≤ most_listed_values }
    ensures alarm { option_copied result ≡ told_alarm made (facts_of snapshot.now) cause }
{
    let place = alarm_place(made, snapshot, cause)?;
    snapshot.alarm_values.get(place as usize)
}

fn bitstring_told(value: &Value, flags: StatusFlags) -> Option<EventValues>
    ensures told { result ≡ bitstring_told value.now flags }
{
    match value {
        Value::Bits(referenced) => Some(EventValues::Bitstring {
            referenced: *referenced,
            flags,
        }),
        _ => None,
    }
}

fn state_told(value: &Value, flags: StatusFlags) -> Option<EventValues>
    ensures told { result ≡ state_told value.now flags }
{
    let (binary, number) = match value {
        Value::Enumerated(number) => (true, *number),
        Value::Unsigned(number) => (false, *number),
        _ => return None,
    };
    Some(EventValues::State {
        binary,
        number,
        flags,
    })
}

fn command_told(
    command: Option<Value>,
    feedback: Option<Value>,
    flags: StatusFlags,
) -> Option<EventValues>
    requires command { IsOneOrNone command }
    requires feedback { IsOneOrNone feedback }
    ensures told { result ≡ command_told command feedback flags }
    ensures typed { IsTold command_failure_type result }
{
    let command = command?;
    let feedback = feedback?;
    Some(EventValues::Command {
        command,
        flags,
        feedback,
    })
}

fn range_told(value: &Value, limit: Option<u32>, flags: StatusFlags) -> Option<EventValues>
    ensures told { result ≡ range_told value.now limit flags }
{
    let Value::Unsigned(value) = value else {
        return None;
    };
    Some(EventValues::UnsignedRange {
        value: *value,
        flags,
        limit: limit?,
    })
}

fn signed_told(
    value: &Value,
    deadband: u32,
    limit: Option<i32>,
    flags: StatusFlags,
) -> Option<EventValues>
    ensures told { result ≡ signed_told value.now deadband limit flags }
{
    let Value::Signed(value) = value else {
        return None;
    };
    Some(EventValues::SignedOutOfRange {
        value: *value,
        flags,
        deadband,
        limit: limit?,
    })
}

fn unsigned_told(
    value: &Value,
    deadband: u32,
    limit: Option<u32>,
    flags: StatusFlags,
) -> Option<EventValues>
    ensures told { result ≡ unsigned_told value.now deadband limit flags }
{
    let Value::Unsigned(value) = value else {
        return None;
    };
    Some(EventValues::UnsignedOutOfRange {
        value: *value,
        flags,
        deadband,
        limit: limit?,
    })
}

fn text_told(
    value: &Value,
    alarm: Option<&Value>,
    flags: StatusFlags,
) -> Result<Option<EventValues>, NoMemory>
    ensures told { IfOk result (λ told. told ≡ text_told value.now (option_and_then text_in (option_copied alarm.entry)) flags) }
    ensures typed { IfOk result (λ told. IsTold change_of_characterstring_type told) }
{
    let Value::Text(text) = value else {
        return Ok(None);
    };
    let Some(Value::Text(alarm)) = alarm else {
        return Ok(None);
    };
    Ok(Some(EventValues::Characterstring {
        changed: copy_of_text(text)?,
        flags,
        alarm: copy_of_text(alarm)?,
    }))
}

fn algorithm_values(
    snapshot: &Snapshot<'_>,
    made: Move,
    cause: Option<u32>,
    flags: StatusFlags,
) -> Result<Option<EventValues>, NoMemory>
    requires few { length snapshot.now.alarm_values.now ≤ most_listed_values }
    ensures values { IfOk result (λ values. values ≡ algorithm_values snapshot.now.algorithm (facts_of snapshot.now) made cause flags) }
    ensures told { IfOk result (λ values. IsTold (event_type_of snapshot.now.algorithm) values) }
{
    let value = snapshot.value;
    let deadband = snapshot.deadband;
    match snapshot.algorithm {
        Algorithm::ChangeOfBitstring => Ok(bitstring_told(value, flags)),
        Algorithm::ChangeOfState => Ok(state_told(value, flags)),
        Algorithm::CommandFailure => {
            let feedback = one_value_of(snapshot.feedback)?;
            Ok(command_told(one_value(value)?, feedback, flags))
        }
        Algorithm::UnsignedRange => Ok(range_told(value, unsigned_limit(made, snapshot), flags)),
        Algorithm::SignedOutOfRange => {
            let limit = signed_limit(made, snapshot);
            Ok(signed_told(value, deadband, limit, flags))
        }
        Algorithm::UnsignedOutOfRange => {
            let limit = unsigned_limit(made, snapshot);
            Ok(unsigned_told(value, deadband, limit, flags))
        }
        Algorithm::ChangeOfCharacterstring => {
            text_told(value, told_alarm(made, snapshot, cause), flags)
        }
    }
}

fn reliability_values(
    reliability: Reliability,
    flags: StatusFlags,
    present_value: Option<&Value>,
) -> Result<EventValues, NoMemory>
    ensures values { IfOk result (λ values. values ≡ reliability_values reliability flags (option_copied present_value.entry)) }
    ensures typed { IfOk result (λ values. IsTold change_of_reliability_type (Some values)) }
{
    Ok(EventValues::Reliability {
        reliability,
        flags,
        property: one_value_of(present_value)?,
    })
}

/// What is told of a transition: by its event type, from what is seen of the object at the point at which it came. The
/// cause is the one of the state that it left. The present value is that of a value object; no other object has one.
/// Nothing is told where the value isn't of the type of the algorithm, or has no such limit or alarm value.
pub fn values_of(
    snapshot: &Snapshot<'_>,
    made: Move,
    cause: Option<u32>,
    reliability: Reliability,
    flags: StatusFlags,
    present_value: Option<&Value>,
) -> Result<Option<EventValues>, NoMemory>
    requires few { length snapshot.now.alarm_values.now ≤ most_listed_values }
    ensures values { IfOk result (λ values. values ≡ values_at snapshot.now.algorithm (facts_of snapshot.now) made cause reliability flags (option_copied present_value.entry)) }
    ensures told { IfOk result (λ values. IsTold (transition_type snapshot.now.algorithm made) values) }
{
    if made.by_fault {
        let values = reliability_values(reliability, flags, present_value)?;
        return Ok(Some(values));
    }
    algorithm_values(snapshot, made, cause, flags)
}
