//! The answer of GetAlarmSummary is written (13.10).

ghost use Rattle.std.specs.Prelude.{◌≡◌, ◌++◌, IfOk, OnOk, option_map};
ghost use Rattle.summaries.specs.Summaries.{alarm_summary_of, is_in_alarm, within_room, written_alarm, written_if_in_alarm};

use crate::Shown;
use bac_tags::{write_bits, write_object, write_value};
use bac_values::{AlarmRow, Bits, EventState, NoMemory, NotifyType, Value};
use std::alloc::Global;

// Whether an object is told of: it tells alarms, and its event state isn't NORMAL.
fn is_in_alarm(row: &AlarmRow) -> bool
    ensures alarm { result ≡ is_in_alarm row.now }
{
    row.notify == NotifyType::ALARM.0 && !matches!(row.state, EventState::Normal)
}

// What is told of it, behind the others.
fn write_alarm(out: &mut Vec<u8>, row: &AlarmRow) -> Result<(), NoMemory>
    ensures written { OnOk result (out.new.items ≡ out.old.items ++ written_alarm row.now) }
{
    write_object(out, None, row.object)?;
    write_value(out, &Value::Enumerated(u32::from(row.state.number())))?;
    write_bits(out, None, Bits::of_flags(&row.acked))
}

fn write_if_in_alarm(out: &mut Vec<u8>, row: &AlarmRow) -> Result<(), NoMemory>
    ensures written { OnOk result (out.new.items ≡ out.old.items ++ written_if_in_alarm row.now) }
{
    if is_in_alarm(row) {
        write_alarm(out, row)?;
    }
    Ok(())
}

/// What answers GetAlarmSummary (13.10): the objects whose Notify_Type is alarm and whose event state isn't NORMAL, each with
/// its event state and its Acked_Transitions. None exactly where the octets are more than the room.
pub fn alarm_summary<C: Shown>(
    alloc: Global,
    shown: &C,
    room: usize,
) -> Result<Option<Vec<u8>>, NoMemory>
    ensures summary { IfOk result (λ answer. option_map (λ octets. octets.items) answer ≡ within_room room (alarm_summary_of (C.rows shown.now))) }
{
    let mut out = Vec::new(alloc);
    let mut place = 0;
    while let Some(row) = shown.alarm_row(place) {
        write_if_in_alarm(&mut out, &row)?;
        if out.len() > room {
            return Ok(None);
        }
        place += 1;
    }
    Ok(Some(out))
}
