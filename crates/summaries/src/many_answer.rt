//! The answer of ReadPropertyMultiple is written (15.7).

ghost use Rattle.std.specs.Prelude.{◌≡◌, ◌++◌, ◌<◌, ◌≤◌, ℕ, List, None, Ok, Some, IfOk, OnOk, length, option_map};
ghost use Rattle.std.specs.List.{flat_map};
ghost use Rattle.bac_values.specs.Properties.{object_identifier_property};
ghost use Rattle.bac_tags.specs.ParameterWriting.{written_enclosed, written_if_given};
ghost use Rattle.bac_tags.specs.Writing.{written_enumerated, written_unsigned};
ghost use Rattle.summaries.specs.Many.{IsTold, all_with, properties_of, results_of, written_group, written_if_read, written_part, written_result};
ghost use Rattle.summaries.specs.ManyRequests.{ObjectAsked, SpellsReadMany};
ghost use Rattle.summaries.specs.ManySteps.{group_at, properties_at};
ghost use Rattle.summaries.specs.Summaries.{within_room};
ghost use Rattle.summaries.specs.declared.requested.PropertyAsked.{PropertyAsked as Asked};

use crate::many_request::{closes_at, entry_at, property_at};
use crate::{Part, PropertyAsked, Shown};
use bac_tags::{write_closing, write_object, write_opening, write_unsigned, write_value};
use bac_values::{NoMemory, ObjectId, PropertyId, ServiceError, Value};
use std::alloc::Global;

/// The numbers of what is told of an object and of a property.
const OBJECT: u8 = 0;

const RESULTS: u8 = 1;

const PROPERTY: u8 = 2;

const INDEX: u8 = 3;

const VALUE: u8 = 4;

const ERROR: u8 = 5;

fn write_enclosed(out: &mut Vec<u8>, number: u8, octets: &[u8]) -> Result<(), NoMemory>
    ensures written { OnOk result (out.new.items ≡ out.old.items ++ written_enclosed number octets.now) }
{
    write_opening(out, number)?;
    out.extend_from_slice(octets)?;
    write_closing(out, number)
}

// An error between its tags.
fn write_error(out: &mut Vec<u8>, class: u8, code: u8) -> Result<(), NoMemory>
    ensures written { OnOk result (out.new.items ≡ out.old.items ++ written_enclosed 5 (written_enumerated None class ++ written_enumerated None code)) }
{
    write_opening(out, ERROR)?;
    write_value(out, &Value::Enumerated(u32::from(class)))?;
    write_value(out, &Value::Enumerated(u32::from(code)))?;
    write_closing(out, ERROR)
}

// A value, or an error, between its tags.
fn write_part(out: &mut Vec<u8>, part: &Part) -> Result<(), NoMemory>
    ensures written { OnOk result (out.new.items ≡ out.old.items ++ written_part part.now) }
{
    match part {
        Part::Octets(octets) => write_enclosed(out, VALUE, octets.as_slice()),
        Part::Error { class, code } => write_error(out, *class, *code),
    }
}

fn write_index(out: &mut Vec<u8>, index: Option<u32>) -> Result<(), NoMemory>
    ensures written { OnOk result (out.new.items ≡ out.old.items ++ written_if_given (written_unsigned (Some 3)) index) }
{
    match index {
        Some(index) => write_unsigned(out, Some(INDEX), index),
        None => Ok(()),
    }
}

// What was read of a property.
fn write_result(
    out: &mut Vec<u8>,
    property: u32,
    index: Option<u32>,
    part: &Part,
) -> Result<(), NoMemory>
    ensures written { OnOk result (out.new.items ≡ out.old.items ++ written_result property index part.now) }
{
    write_unsigned(out, Some(PROPERTY), property)?;
    write_index(out, index)?;
    write_part(out, part)
}

// One of all properties, where the object has it.
fn write_if_read(out: &mut Vec<u8>, property: u32, part: &Part) -> Result<(), NoMemory>
    ensures written { OnOk result (out.new.items ≡ out.old.items ++ written_if_read property part.now) }
{
    match part {
        Part::Octets(_) => write_result(out, property, None, part),
        Part::Error { .. } => Ok(()),
    }
}

/// The properties that an object of the server may have and that are read, by ascending number.
const READABLE: [u32; 42] = [
    PropertyId::ACKED_TRANSITIONS.0,
    PropertyId::ACK_REQUIRED.0,
    PropertyId::ALARM_VALUE.0,
    PropertyId::ALARM_VALUES.0,
    PropertyId::NOTIFICATION_CLASS.0,
    PropertyId::DEADBAND.0,
    PropertyId::EVENT_ENABLE.0,
    PropertyId::EVENT_STATE.0,
    PropertyId::EVENT_TYPE.0,
    PropertyId::FAULT_VALUES.0,
    PropertyId::HIGH_LIMIT.0,
    PropertyId::LIMIT_ENABLE.0,
    PropertyId::LOW_LIMIT.0,
    PropertyId::MAX_APDU_LENGTH_ACCEPTED.0,
    PropertyId::NOTIFY_TYPE.0,
    PropertyId::NUMBER_OF_STATES.0,
    PropertyId::OBJECT_IDENTIFIER.0,
    PropertyId::OBJECT_LIST.0,
    PropertyId::OBJECT_NAME.0,
    PropertyId::OBJECT_TYPE.0,
    PropertyId::OUT_OF_SERVICE.0,
    PropertyId::PRESENT_VALUE.0,
    PropertyId::PRIORITY.0,
    PropertyId::RECIPIENT_LIST.0,
    PropertyId::RELIABILITY.0,
    PropertyId::SEGMENTATION_SUPPORTED.0,
    PropertyId::STATUS_FLAGS.0,
    PropertyId::TIME_DELAY.0,
    PropertyId::VENDOR_IDENTIFIER.0,
    PropertyId::BUFFER_SIZE.0,
    PropertyId::EVENT_TIME_STAMPS.0,
    PropertyId::ENABLE.0,
    PropertyId::RECORD_COUNT.0,
    PropertyId::STOP_WHEN_FULL.0,
    PropertyId::TOTAL_RECORD_COUNT.0,
    PropertyId::EVENT_MESSAGE_TEXTS.0,
    PropertyId::EVENT_MESSAGE_TEXTS_CONFIG.0,
    PropertyId::EVENT_DETECTION_ENABLE.0,
    PropertyId::EVENT_ALGORITHM_INHIBIT.0,
    PropertyId::EVENT_ALGORITHM_INHIBIT_REF.0,
    PropertyId::TIME_DELAY_NORMAL.0,
    PropertyId::RELIABILITY_EVALUATION_INHIBIT.0,
];

// Of these properties those that the object has.
fn write_these<C: Shown>(
    alloc: Global,
    shown: &C,
    object: ObjectId,
    properties: &[u32],
    out: &mut Vec<u8>,
) -> Result<(), NoMemory>
    ensures written { OnOk result (out.new.items ≡ out.old.items ++ flat_map (λ property. written_if_read property (C.reads shown.now object property None)) properties.now) }
{
    for property in properties {
        let part = shown.part(alloc, object, PropertyId(*property), None)?;
        write_if_read(out, *property, &part)?;
    }
    Ok(())
}

// ALL of an object, by what is read of its Object_Identifier.
fn write_all<C: Shown>(
    alloc: Global,
    shown: &C,
    object: ObjectId,
    index: Option<u32>,
    out: &mut Vec<u8>,
) -> Result<(), NoMemory>
    ensures written { OnOk result (out.new.items ≡ out.old.items ++ all_with (C.reads shown.now) object index (C.reads shown.now object object_identifier_property None)) }
{
    let part = shown.part(alloc, object, PropertyId::OBJECT_IDENTIFIER, None)?;
    if let Part::Error { .. } = part {
        return write_result(out, PropertyId::ALL.0, index, &part);
    }
    if index.is_some() {
        let ServiceError { class, code } = ServiceError::PROPERTY_IS_NOT_AN_ARRAY;
        return write_result(out, PropertyId::ALL.0, index, &Part::Error { class, code });
    }
    write_these(alloc, shown, object, &READABLE, out)
}

// What is told of a property of which is asked.
fn write_results<C: Shown>(
    alloc: Global,
    shown: &C,
    object: ObjectId,
    asked: PropertyAsked,
    out: &mut Vec<u8>,
) -> Result<(), NoMemory>
    ensures written { OnOk result (out.new.items ≡ out.old.items ++ results_of (C.reads shown.now) object asked) }
{
    if asked.property == PropertyId::ALL.0 {
        return write_all(alloc, shown, object, asked.index, out);
    }
    let part = shown.part(alloc, object, PropertyId(asked.property), asked.index)?;
    write_result(out, asked.property, asked.index, &part)
}

// What is told of the properties of an object, from the place on at which they begin in a request, and the place behind their
// closing tag; or nothing, where it is more than the room.
fn write_properties<C: Shown>(
    alloc: Global,
    shown: &C,
    request: &[u8],
    entry: (ObjectId, usize),
    room: usize,
    out: &mut Vec<u8>,
) -> Result<Option<usize>, NoMemory>
    requires within { entry.1 ≤ length request.now }
    requires listed { (properties : List Asked) × (end : ℕ) × (properties_at request.now entry.1 ≡ Ok (properties, end)) }
    ensures told { (properties : List Asked) (end : ℕ) → properties_at request.now entry.1 ≡ Ok (properties, end) →
        IfOk result (IsTold room out.old.items out.new.items (flat_map (results_of (C.reads shown.now) entry.0) properties) end) }
{
    let (object, mut at) = entry;
    for _ in 0..request.len() {
        if let Some(end) = closes_at(request, at) {
            return Ok(Some(end));
        }
        let Ok((asked, next)) = property_at(request, at) else {
            unreachable!();
        };
        write_results(alloc, shown, object, asked, out)?;
        if out.len() > room {
            return Ok(None);
        }
        at = next;
    }
    unreachable!()
}

// What is told of an object, from its place in a request on, and the place behind it; or nothing, where it is more than the
// room.
fn write_group<C: Shown>(
    alloc: Global,
    shown: &C,
    request: &[u8],
    at: usize,
    room: usize,
    out: &mut Vec<u8>,
) -> Result<Option<usize>, NoMemory>
    requires within { at ≤ length request.now }
    requires asked { (group : ObjectAsked) × (end : ℕ) × (group_at request.now at ≡ Ok (group, end)) }
    ensures told { (group : ObjectAsked) (end : ℕ) → group_at request.now at ≡ Ok (group, end) →
        IfOk result (IsTold room out.old.items out.new.items (written_group (C.reads shown.now) group) end) }
{
    let Ok(entry) = entry_at(request, at) else {
        unreachable!();
    };
    write_object(out, Some(OBJECT), entry.0)?;
    write_opening(out, RESULTS)?;
    let Some(end) = write_properties(alloc, shown, request, entry, room, out)? else {
        return Ok(None);
    };
    write_closing(out, RESULTS)?;
    Ok(Some(end))
}

/// What answers ReadPropertyMultiple (15.7), whose parameters are these octets: of each object that is asked its results in
/// their order. None exactly where the octets are more than the room.
pub fn read_many<C: Shown>(
    alloc: Global,
    shown: &C,
    request: &[u8],
    room: usize,
) -> Result<Option<Vec<u8>>, NoMemory>
    requires asked { (groups : List ObjectAsked) × SpellsReadMany request.now groups }
    ensures many { (groups : List ObjectAsked) → SpellsReadMany request.now groups →
        IfOk result (λ answer. option_map (λ octets. octets.items) answer ≡ within_room room (properties_of (C.reads shown.now) groups)) }
{
    let mut out = Vec::new(alloc);
    let mut at = 0;
    while at < request.len() {
        match write_group(alloc, shown, request, at, room, &mut out)? {
            Some(end) => at = end,
            None => return Ok(None),
        }
    }
    if out.len() > room {
        return Ok(None);
    }
    Ok(Some(out))
}
