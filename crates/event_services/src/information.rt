//! GetEventInformation: its parameters are read, and its answer is written (13.12).

ghost use Rattle.std.specs.Prelude.{◌≡◌, ◌↔◌, ◌⊎◌, ℕ, ◌+◌, ◌*◌, ◌<◌, ◌≤◌, Option, Some, None, List, ◌++◌, length, flat_map, drop, IfOk, OnOk, IfErr};
ghost use Rattle.bac_values.specs.Identifier.{ObjectIdData};
ghost use Rattle.bac_tags.specs.Contents.{SpellsObject};
ghost use Rattle.bac_tags.specs.Writing.{written_unsigned};
ghost use Rattle.bac_tags.specs.Refusals.{invalid_tag, too_many_arguments};
ghost use Rattle.bac_tags.specs.ParameterWriting.{written_enclosed};
ghost use Rattle.event_services.specs.Information.{SpellsInformationRequest, HasMoreThanObject, HasNoObject, written_moment, written_state, written_notifying, written_summary, written_information};
ghost use Rattle.event_services.specs.InformationSteps.{information_request_of};

use crate::write_note::write_enclosed_stamp;
use bac_tags::{
    Malformed, nothing_follows, optional_object, write_bits, write_bool, write_closing,
    write_object, write_opening, write_unsigned,
};
use bac_values::{Bits, EventState, NoMemory, ObjectId, Stamp};
use std::alloc::Global;

/// What is told of one object in answer to a GetEventInformation (BACnetEventSummary). Lists of three are in the order
/// to-offnormal, to-fault, to-normal.
#[derive(Clone, Copy, Debug, PartialEq, Eq)]
pub struct EventSummary {
    /// The object.
    pub object: ObjectId,
    /// Its event state.
    pub state: EventState,
    /// Which of its transitions are acknowledged.
    pub acked: [bool; 3],
    /// When its transitions were.
    pub stamps: [Stamp; 3],
    /// The number of its notify type.
    pub notify: u8,
    /// Which of its transitions are notified.
    pub enable: [bool; 3],
    /// The priorities of its transitions.
    pub priority: [u8; 3],
}

/// The request that the octets are.
#[tactic(auto, unfolding(crate::specs::InformationSteps::information_request_of))]
fn information_request_of(bytes: &[u8]) -> Result<Option<ObjectId>, Malformed>
    ensures { result ≡ information_request_of bytes.now }
{
    let (object, at) = optional_object(bytes, 0, 0)?;
    nothing_follows(bytes, at)?;
    Ok(object)
}

/// Reads the parameters of a GetEventInformation, which begin at the first octet: the object of the last summary that
/// was received, or none. No memory is taken.
pub fn read_information_request(bytes: &[u8]) -> Result<Option<ObjectId>, Malformed>
    // What is read is spelled so.
    ensures found { IfOk result (λ object. SpellsInformationRequest bytes.now object) }
    // What is spelled so is read.
    ensures only { (object : Option ObjectIdData) → SpellsInformationRequest bytes.now object → result ≡ Ok object }

    // Octets follow the object, or there is a whole tag of something else.
    ensures too_many { (place : ℕ) → (result ≡ Err (too_many_arguments place)) ↔ HasMoreThanObject bytes.now place }
    // What stands there is neither the object nor a whole tag of something else.
    ensures invalid { (place : ℕ) → (result ≡ Err (invalid_tag place)) ↔ HasNoObject bytes.now place }
    // There is no other refusal.
    ensures refusals { IfErr result (λ why. (why ≡ too_many_arguments why.at) ⊎ (why ≡ invalid_tag why.at)) }

    ensures exact { result ≡ information_request_of bytes.now }
{
    information_request_of(bytes)
}

/// Appends a date and a time in their form of a time stamp.
#[tactic(auto, using(crate::proofs::SummaryLengths::moment_length))]
fn write_moment(out: &mut Vec<u8>, stamp: Stamp) -> Result<(), NoMemory>
    ensures written { OnOk result (out.new.items ≡ out.old.items ++ written_moment stamp) }
    ensures long { length (written_moment stamp) ≡ 12 }
{
    write_enclosed_stamp(out, 2, stamp)
}

/// Appends time stamps, one behind the other.
fn write_moments(out: &mut Vec<u8>, stamps: &[Stamp]) -> Result<(), NoMemory>
    ensures written { OnOk result (out.new.items ≡ out.old.items ++ flat_map written_moment stamps.now) }
    ensures long { OnOk result (length (flat_map written_moment stamps.now) ≡ 12 * length stamps.now) }
{
    for stamp in stamps {
        write_moment(out, *stamp)?;
    }
    Ok(())
}

/// Appends a number of one octet.
#[tactic(auto, using(crate::proofs::SummaryLengths::number_length))]
fn write_number(out: &mut Vec<u8>, number: u8) -> Result<(), NoMemory>
    ensures written { OnOk result (out.new.items ≡ out.old.items ++ written_unsigned None number) }
    ensures long { length (written_unsigned None number) ≡ 2 }
{
    write_unsigned(out, None, u32::from(number))
}

/// Appends numbers, one behind the other.
fn write_numbers(out: &mut Vec<u8>, numbers: &[u8]) -> Result<(), NoMemory>
    ensures written { OnOk result (out.new.items ≡ out.old.items ++ flat_map (written_unsigned None) numbers.now) }
    ensures long { OnOk result (length (flat_map (written_unsigned None) numbers.now) ≡ 2 * length numbers.now) }
{
    for number in numbers {
        write_number(out, *number)?;
    }
    Ok(())
}

/// Appends the stamps of a summary.
#[tactic(auto, using(crate::proofs::SummaryLengths::stamps_part))]
fn write_stamps(out: &mut Vec<u8>, stamps: &[Stamp]) -> Result<(), NoMemory>
    ensures written { OnOk result (out.new.items ≡ out.old.items ++ written_enclosed 3 (flat_map written_moment stamps.now)) }
    ensures long { OnOk result (length (written_enclosed 3 (flat_map written_moment stamps.now)) ≡ 2 + 12 * length stamps.now) }
{
    write_opening(out, 3)?;
    write_moments(out, stamps)?;
    write_closing(out, 3)
}

/// Appends the priorities of a summary.
#[tactic(auto, using(crate::proofs::SummaryLengths::priorities_part))]
fn write_priorities(out: &mut Vec<u8>, priorities: &[u8]) -> Result<(), NoMemory>
    ensures written { OnOk result (out.new.items ≡ out.old.items ++ written_enclosed 6 (flat_map (written_unsigned None) priorities.now)) }
    ensures long { OnOk result (length (written_enclosed 6 (flat_map (written_unsigned None) priorities.now)) ≡ 2 + 2 * length priorities.now) }
{
    write_opening(out, 6)?;
    write_numbers(out, priorities)?;
    write_closing(out, 6)
}

/// Appends an object and its state.
fn write_state(out: &mut Vec<u8>, summary: &EventSummary) -> Result<(), NoMemory>
    ensures written { OnOk result (out.new.items ≡ out.old.items ++ written_state summary.now) }
    ensures long { length (written_state summary.now) ≡ 10 }
{
    write_object(out, Some(0), summary.object)?;
    write_unsigned(out, Some(1), u32::from(summary.state.number()))?;
    write_bits(out, Some(2), Bits::of_flags(&summary.acked))
}

/// Appends how an object notifies.
fn write_notifying(out: &mut Vec<u8>, summary: &EventSummary) -> Result<(), NoMemory>
    ensures written { OnOk result (out.new.items ≡ out.old.items ++ written_notifying summary.now) }
    ensures long { length (written_notifying summary.now) ≡ 5 }
{
    write_unsigned(out, Some(4), u32::from(summary.notify))?;
    write_bits(out, Some(5), Bits::of_flags(&summary.enable))
}

/// Appends a summary.
fn write_summary(out: &mut Vec<u8>, summary: &EventSummary) -> Result<(), NoMemory>
    ensures written { OnOk result (out.new.items ≡ out.old.items ++ written_summary summary.now) }
    ensures long { OnOk result (length (written_summary summary.now) ≡ 61) }
{
    write_state(out, summary)?;
    write_stamps(out, &summary.stamps)?;
    write_notifying(out, summary)?;
    write_priorities(out, &summary.priority)
}

/// Appends summaries, one behind the other.
fn write_summaries(out: &mut Vec<u8>, summaries: &[EventSummary]) -> Result<(), NoMemory>
    ensures written { OnOk result (out.new.items ≡ out.old.items ++ flat_map written_summary summaries.now) }
    ensures long { OnOk result (length (flat_map written_summary summaries.now) ≡ 61 * length summaries.now) }
{
    for summary in summaries {
        write_summary(out, summary)?;
    }
    Ok(())
}

/// Writes the result of a GetEventInformation, in its one spelling: the summaries, and whether there are more. Each
/// summary has 61 octets, and four stand round them.
#[tactic(auto, using(crate::proofs::SummaryLengths::information_part), unfolding(crate::specs::Information::written_information))]
pub fn write_information(
    alloc: Global,
    summaries: &[EventSummary],
    more: bool,
) -> Result<Vec<u8>, NoMemory>
    ensures written { IfOk result (λ octets. octets.items ≡ written_information summaries.now more) }
    ensures long { IfOk result (λ octets. length octets.items ≡ 4 + 61 * length summaries.now) }
{
    let mut out = Vec::new(alloc);
    write_opening(&mut out, 0)?;
    write_summaries(&mut out, summaries)?;
    write_closing(&mut out, 0)?;
    write_bool(&mut out, Some(1), more)?;
    Ok(out)
}
