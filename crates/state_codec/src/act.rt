//! What an event does, in octets.

ghost use Rattle.std.specs.Prelude.{◌≡◌, ◌++◌, OnOk};
ghost use Rattle.bac_values.specs.EventStates.{number_of_state, place_of_transition};
ghost use Rattle.alarm_core.specs.declared.event.Act.TheVariants.{Ack, Answer, Edit, Write};
ghost use Rattle.state_codec.specs.Records.{IsRecordedAct, IsRecordedWhat, written_act, written_what};
ghost use Rattle.state_codec.specs.ReadingSteps.{Gives, acknowledgement_at, act_at, answer_at, edit_at, field_fault, field_fault_at, fields_at, last_at, property_change, property_change_at, state_at, transition_at};

use crate::destination::take_destinations;
use crate::parts::{take_object, take_octet, take_peer, take_u32};
use crate::reading::ReadFault;
use crate::value::take_value;
use crate::writing::{put_destinations, put_object, put_peer, put_value};
use alarm_core::Act;
use bac_values::{EventState, NoMemory, ObjectId, PropertyId, Transition, push};
use object_table::{Change, What};
use std::alloc::Global;

const TICK: u8 = 1;

const PROPERTY: u8 = 2;

const FIELD_FAULT: u8 = 3;

const ACKNOWLEDGEMENT: u8 = 4;

const PUMP: u8 = 5;

const ANSWER: u8 = 6;

const EDIT: u8 = 7;

/// Takes the transition at the front, by its place.
#[tactic(auto, unfolding(crate::specs::ReadingSteps::transition_at))]
fn take_transition(bytes: &mut &[u8]) -> Result<Transition, ReadFault>
    ensures exact { Gives (λ x. (x, bytes.new.now)) result (transition_at bytes.old.now) }
{
    match take_octet(bytes)? {
        0 => Ok(Transition::ToOffnormal),
        1 => Ok(Transition::ToFault),
        2 => Ok(Transition::ToNormal),
        _ => Err(ReadFault::NothingThere),
    }
}

/// Takes the event state at the front, by its number.
#[tactic(auto, unfolding(crate::specs::ReadingSteps::state_at))]
pub(crate) fn take_state(bytes: &mut &[u8]) -> Result<EventState, ReadFault>
    ensures exact { Gives (λ x. (x, bytes.new.now)) result (state_at bytes.old.now) }
{
    let number = take_octet(bytes)?;
    match EventState::of_number(u32::from(number)) {
        Some(state) => Ok(state),
        None => Err(ReadFault::NothingThere),
    }
}

/// Takes a write of a property: the object, the property and its value.
#[tactic(auto, unfolding(crate::specs::ReadingSteps::property_change_at))]
fn take_property_change(alloc: Global, bytes: &mut &[u8]) -> Result<Act, ReadFault>
    ensures exact { Gives (λ x. (x, bytes.new.now)) result (last_at property_change_at (λ x. Some (Write (property_change x.0 x.1 x.2))) bytes.old.now) }
{
    let object = take_object(bytes)?;
    let property = PropertyId(take_u32(bytes)?);
    let value = take_value(alloc, bytes)?;
    let what = What::Property { property, value };
    Ok(Act::Write {
        change: Change { object, what },
    })
}

/// Takes a field fault: the object and the number of the reliability.
#[tactic(auto, unfolding(crate::specs::ReadingSteps::field_fault_at))]
fn take_field_fault(bytes: &mut &[u8]) -> Result<Act, ReadFault>
    ensures exact { Gives (λ x. (x, bytes.new.now)) result (last_at field_fault_at (λ x. Some (Write (field_fault x.0 x.1))) bytes.old.now) }
{
    let object = take_object(bytes)?;
    let reliability = take_octet(bytes)?;
    let what = What::FieldFault { reliability };
    Ok(Act::Write {
        change: Change { object, what },
    })
}

/// Takes an acknowledgement: the object, the transition and the event state.
#[tactic(auto, unfolding(crate::specs::ReadingSteps::acknowledgement_at))]
fn take_acknowledgement(bytes: &mut &[u8]) -> Result<Act, ReadFault>
    ensures exact { Gives (λ x. (x, bytes.new.now)) result (last_at acknowledgement_at (λ x. Some (Ack x.0 x.1 x.2)) bytes.old.now) }
{
    let object = take_object(bytes)?;
    let transition = take_transition(bytes)?;
    let state = take_state(bytes)?;
    Ok(Act::Ack {
        object,
        transition,
        state,
    })
}

/// Takes an answer: the peer, the invoke ID and the number of the PDU.
#[tactic(auto, unfolding(crate::specs::ReadingSteps::answer_at))]
fn take_answer(bytes: &mut &[u8]) -> Result<Act, ReadFault>
    ensures exact { Gives (λ x. (x, bytes.new.now)) result (last_at answer_at (λ x. Some (Answer x.0 x.1 x.2)) bytes.old.now) }
{
    let peer = take_peer(bytes)?;
    let invoke = take_octet(bytes)?;
    let kind = take_octet(bytes)?;
    Ok(Act::Answer { peer, invoke, kind })
}

/// Takes an edit: the class and its recipients.
#[tactic(auto, unfolding(crate::specs::ReadingSteps::edit_at))]
fn take_edit(alloc: Global, bytes: &mut &[u8]) -> Result<Act, ReadFault>
    ensures exact { Gives (λ x. (x, bytes.new.now)) result (last_at edit_at (λ x. Some (Edit x.0 x.1)) bytes.old.now) }
{
    let class = take_u32(bytes)?;
    let destinations = take_destinations(alloc, bytes)?;
    Ok(Act::Edit {
        class,
        destinations,
    })
}

/// Takes the fields at the front of what happens by a number.
#[tactic(auto, unfolding(crate::specs::ReadingSteps::fields_at))]
fn take_fields(alloc: Global, number: u8, bytes: &mut &[u8]) -> Result<Act, ReadFault>
    ensures exact { Gives (λ x. (x, bytes.new.now)) result (fields_at number bytes.old.now) }
{
    match number {
        TICK => Ok(Act::Tick),
        PROPERTY => take_property_change(alloc, bytes),
        FIELD_FAULT => take_field_fault(bytes),
        ACKNOWLEDGEMENT => take_acknowledgement(bytes),
        PUMP => Ok(Act::Pump),
        ANSWER => take_answer(bytes),
        EDIT => take_edit(alloc, bytes),
        _ => Err(ReadFault::NothingThere),
    }
}

/// Takes what happens at the front: its number, and its fields.
#[tactic(auto, unfolding(crate::specs::ReadingSteps::act_at))]
pub(crate) fn take_act(alloc: Global, bytes: &mut &[u8]) -> Result<Act, ReadFault>
    ensures exact { Gives (λ x. (x, bytes.new.now)) result (act_at bytes.old.now) }
{
    let number = take_octet(bytes)?;
    take_fields(alloc, number, bytes)
}

/// Appends a change of an object, behind its number.
fn put_what(out: &mut Vec<u8>, object: &ObjectId, what: &What) -> Result<(), NoMemory>
    requires recorded { IsRecordedWhat what.now }
    ensures written { OnOk result (out.new.items ≡ out.old.items ++ written_what object.now what.now) }
{
    match what {
        What::Property { property, value } => {
            push(out, PROPERTY)?;
            put_object(out, object)?;
            out.extend_from_slice(&property.0.to_be_bytes())?;
            put_value(out, value)
        }
        What::FieldFault { reliability } => {
            push(out, FIELD_FAULT)?;
            put_object(out, object)?;
            push(out, *reliability)
        }
    }
}

/// Appends what happens: its number, and its fields.
pub(crate) fn put_act(out: &mut Vec<u8>, act: &Act) -> Result<(), NoMemory>
    requires recorded { IsRecordedAct act.now }
    ensures written { OnOk result (out.new.items ≡ out.old.items ++ written_act act.now) }
{
    match act {
        Act::Tick => push(out, TICK),
        Act::Write { change } => put_what(out, &change.object, &change.what),
        Act::Ack {
            object,
            transition,
            state,
        } => {
            push(out, ACKNOWLEDGEMENT)?;
            put_object(out, object)?;
            push(out, transition.place() as u8)?;
            push(out, state.number())
        }
        Act::Pump => push(out, PUMP),
        Act::Answer { peer, invoke, kind } => {
            push(out, ANSWER)?;
            put_peer(out, peer)?;
            push(out, *invoke)?;
            push(out, *kind)
        }
        Act::Edit {
            class,
            destinations,
        } => {
            push(out, EDIT)?;
            out.extend_from_slice(&class.to_be_bytes())?;
            put_destinations(out, destinations.as_slice())
        }
    }
}
