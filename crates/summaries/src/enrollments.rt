//! The answer of GetEnrollmentSummary is written, through its filters (13.11).

ghost use Rattle.std.specs.Prelude.{◌≡◌, ◌++◌, IfOk, OnOk, option_map};
ghost use Rattle.std.specs.List.{list_any};
ghost use Rattle.std.specs.Option.{option_copied};
ghost use Rattle.notify_class.specs.declared.class.Class.{Class as Listed};
ghost use Rattle.summaries.specs.Summaries.{enrollment_summary_of, enrollment_with, if_asked, is_to, lies_in, passes, passes_acked, passes_state, priority_of, tells, tells_who, within_room, written_enrollment};

use crate::{Asked, Filter, Shown, Who};
use bac_tags::{write_object, write_unsigned, write_value};
use bac_values::{AlarmRow, EventState, NoMemory, Peer, Value};
use notify_class::{Class, Destination};
use std::alloc::Global;

fn passes_acked(number: u8, acked: &[bool; 3]) -> bool
    ensures passes { result ≡ passes_acked number acked.now }
{
    let [first, second, third] = *acked;
    let all = first && second && third;
    match number {
        0 => true,
        1 => all,
        _ => !all,
    }
}

fn passes_state(state: EventState, number: u8) -> bool
    ensures passes { result ≡ passes_state state number }
{
    let normal = matches!(state, EventState::Normal);
    let fault = matches!(state, EventState::Fault);
    match number {
        0 => !normal && !fault,
        1 => fault,
        2 => normal,
        3 => true,
        _ => !normal,
    }
}

// A destination with the peer and the process.
fn is_to(destination: &Destination, peer: Peer, process: u32) -> bool
    ensures is { result ≡ is_to peer process destination.now }
{
    destination.peer.is_same(&peer) && destination.process == process
}

fn has_one(destinations: &[Destination], peer: Peer, process: u32) -> bool
    ensures has { result ≡ list_any (is_to peer process) destinations.now }
{
    destinations.iter().any(|one| is_to(one, peer, process))
}

fn tells_who(who: Who, process: u32, destinations: &[Destination]) -> bool
    ensures tells { result ≡ tells_who who process destinations.now }
{
    match who {
        Who::Address { peer } => has_one(destinations, peer, process),
        Who::Device { .. } | Who::Other => false,
    }
}

fn tells(class: &Class, asked: &Asked) -> bool
    ensures tells { result ≡ tells class.now asked.now }
{
    tells_who(asked.who, asked.process, class.destinations.as_slice())
}

// The class's priority of the transition that names the state.
fn priority_of(class: &Class, state: EventState) -> u8
    ensures priority { result ≡ priority_of class.now state }
{
    class.priority[state.transition().place()]
}

fn lies_in(priority: u8, range: (u32, u32)) -> bool
    ensures lies { result ≡ lies_in priority range }
{
    range.0 <= u32::from(priority) && u32::from(priority) <= range.1
}

// All filters; those that look at the recipients come last.
fn passes(filter: &Filter, row: &AlarmRow, class: &Class) -> bool
    ensures passes { result ≡ passes filter.now row.now class.now }
{
    let state = match filter.state {
        Some(number) => passes_state(row.state, number),
        None => true,
    };
    let event_type = match filter.event_type {
        Some(number) => u32::from(row.event_type) == number,
        None => true,
    };
    let of_class = match filter.class {
        Some(number) => row.class == number,
        None => true,
    };
    let priority = match filter.priorities {
        Some(range) => lies_in(priority_of(class, row.state), range),
        None => true,
    };
    let recipient = match &filter.recipient {
        Some(asked) => tells(class, asked),
        None => true,
    };
    passes_acked(filter.acked, &row.acked)
        && state
        && event_type
        && of_class
        && priority
        && recipient
}

// What is told of an object, behind the others.
fn write_enrollment(out: &mut Vec<u8>, row: &AlarmRow, class: &Class) -> Result<(), NoMemory>
    ensures written { OnOk result (out.new.items ≡ out.old.items ++ written_enrollment row.now class.now) }
{
    write_object(out, None, row.object)?;
    write_value(out, &Value::Enumerated(u32::from(row.event_type)))?;
    write_value(out, &Value::Enumerated(u32::from(row.state.number())))?;
    write_unsigned(out, None, u32::from(priority_of(class, row.state)))?;
    write_unsigned(out, None, row.class)
}

fn write_with(
    out: &mut Vec<u8>,
    filter: &Filter,
    row: &AlarmRow,
    class: Option<&Class>,
) -> Result<(), NoMemory>
    ensures written { OnOk result (out.new.items ≡ out.old.items ++ enrollment_with filter.now row.now (option_copied class.entry)) }
{
    match class {
        Some(class) if passes(filter, row, class) => write_enrollment(out, row, class),
        _ => Ok(()),
    }
}

/// What answers GetEnrollmentSummary (13.11): the objects that pass all filters, each with its event type, its event state, its
/// priority and its notification class. None exactly where the octets are more than the room.
pub fn enrollment_summary<C: Shown>(
    alloc: Global,
    shown: &C,
    filter: &Filter,
    room: usize,
) -> Result<Option<Vec<u8>>, NoMemory>
    ensures summary { IfOk result (λ answer. option_map (λ octets. octets.items) answer ≡ within_room room (enrollment_summary_of (C.rows shown.now) (C.class_of shown.now) filter.now)) }
{
    let mut out = Vec::new(alloc);
    let mut place = 0;
    while let Some(row) = shown.alarm_row(place) {
        write_with(&mut out, filter, &row, shown.class(row.class))?;
        if out.len() > room {
            return Ok(None);
        }
        place += 1;
    }
    Ok(Some(out))
}
