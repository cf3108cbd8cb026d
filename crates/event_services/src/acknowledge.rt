//! The parameters of AcknowledgeAlarm are read (13.5).

ghost use Rattle.std.specs.Prelude.{◌≡◌, ◌↔◌, ◌⊎◌, ℕ, ◌<◌, ◌≤◌, Some, length, IfOk, IfErr};
ghost use Rattle.bac_tags.specs.ReadingSteps.{content_at};
ghost use Rattle.bac_tags.specs.Refusals.{invalid_tag, missing_parameter, too_many_arguments};
ghost use Rattle.event_services.specs.declared.acknowledge.AckRequest.{AckRequest};
ghost use Rattle.bac_tags.specs.ParameterReadingSteps.{required};
ghost use Rattle.bac_tags.specs.EnclosingSteps.{enclosed_at};
ghost use Rattle.event_services.specs.TimeStampSteps.{time_stamp_at};
ghost use Rattle.event_services.specs.Acknowledgements.{SpellsAcknowledgement, LacksParameter, HasInvalidParameter, HasMore};
ghost use Rattle.event_services.specs.AcknowledgementSteps.{skipped, acknowledge_request_of};

use crate::AckStamp;
use crate::time_stamp::enclosed_time_stamp;
use bac_tags::{
    Malformed, TagFault, nothing_follows, read_octets, required, required_object, required_unsigned,
};
use bac_values::ObjectId;

/// A request to acknowledge an alarm (ANSI/ASHRAE 135-2020, 13.5, AcknowledgeAlarm).
#[derive(Clone, Copy, Debug, PartialEq, Eq)]
pub struct AckRequest {
    /// The process that acknowledges.
    pub process: u32,
    /// The object whose alarm it is.
    pub object: ObjectId,
    /// The number of the event state that is acknowledged.
    pub state: u32,
    /// When the alarm was.
    pub stamp: AckStamp,
}

/// The required time stamp between the tags of a number, and the place after them.
fn required_stamp(input: &[u8], at: usize, number: u8) -> Result<(AckStamp, usize), Malformed>
    requires { at ≤ length input.now }
    ensures exact { result ≡ required input.now at (enclosed_at time_stamp_at number input.now at) }
    ensures within { IfOk result (λ x. (at < x.1) × (x.1 ≤ length input.now)) }
{
    required(input, at, enclosed_time_stamp(input, at, number))
}

/// The place after a primitive element with that number in a context, which has at least one octet.
fn skipped_octets(input: &[u8], at: usize, number: u8) -> Result<usize, TagFault>
    requires { at ≤ length input.now }
    ensures exact { result ≡ skipped (content_at input.now at 0 (Some number) 1 4294967295) }
    ensures within { IfOk result (λ end. (at < end) × (end ≤ length input.now)) }
{
    let (_, after) = read_octets(input, at, number, 1, u32::MAX)?;
    Ok(after)
}

/// The place after the required source, which has at least one octet.
fn required_source(input: &[u8], at: usize) -> Result<usize, Malformed>
    requires { at ≤ length input.now }
    ensures exact { result ≡ required input.now at (skipped (content_at input.now at 0 (Some 4) 1 4294967295)) }
    ensures within { IfOk result (λ end. (at < end) × (end ≤ length input.now)) }
{
    required(input, at, skipped_octets(input, at, 4))
}

/// The request that the octets are.
#[tactic(auto, unfolding(crate::specs::AcknowledgementSteps::acknowledge_request_of))]
fn acknowledge_request_of(bytes: &[u8]) -> Result<AckRequest, Malformed>
    ensures { result ≡ acknowledge_request_of bytes.now }
{
    let (process, at) = required_unsigned(bytes, 0, 0)?;
    let (object, at) = required_object(bytes, at, 1)?;
    let (state, at) = required_unsigned(bytes, at, 2)?;
    let (stamp, at) = required_stamp(bytes, at, 3)?;
    let at = required_source(bytes, at)?;
    let (_, at) = required_stamp(bytes, at, 5)?;
    nothing_follows(bytes, at)?;
    Ok(AckRequest {
        process,
        object,
        state,
        stamp,
    })
}

/// Reads the parameters of an AcknowledgeAlarm, which begin at the first octet. The source and the time of the
/// acknowledgment are read over. No memory is taken.
pub fn read_ack(bytes: &[u8]) -> Result<AckRequest, Malformed>
    // What is read is spelled so.
    ensures found { IfOk result (λ request. SpellsAcknowledgement bytes.now request) }
    // What is spelled so is read.
    ensures only { (request : AckRequest) → SpellsAcknowledgement bytes.now request → result ≡ Ok request }

    // The octets end where a parameter should begin.
    ensures missing { (result ≡ Err (missing_parameter (length bytes.now))) ↔ LacksParameter bytes.now }
    // Octets follow the last parameter, from the place on.
    ensures too_many { (place : ℕ) → (result ≡ Err (too_many_arguments place)) ↔ HasMore bytes.now place }
    // What stands at the place isn't the parameter that should.
    ensures invalid { (place : ℕ) → (result ≡ Err (invalid_tag place)) ↔ HasInvalidParameter bytes.now place }
    // There is no other refusal.
    ensures refusals { IfErr result (λ why. (why ≡ missing_parameter (length bytes.now)) ⊎ ((why ≡ too_many_arguments why.at) ⊎ (why ≡ invalid_tag why.at))) }

    ensures exact { result ≡ acknowledge_request_of bytes.now }
{
    acknowledge_request_of(bytes)
}
