//! The parameters of GetEnrollmentSummary are read (13.11).

ghost use Rattle.std.specs.Prelude.{◌≡◌, ◌≤◌, ◌↔◌, length, IfOk};
ghost use Rattle.bac_tags.specs.declared.malformed.Malformed.{Malformed as Refusal};
ghost use Rattle.recipients.specs.Recipients.{StandsWithin, recipient_in};
ghost use Rattle.summaries.specs.declared.filter.Filter.{Filter as Filters};
ghost use Rattle.summaries.specs.Requests.{SpellsFilter, who_of};
ghost use Rattle.summaries.specs.Refusals.{RefusesEnrollmentRequest};
ghost use Rattle.summaries.specs.RequestSteps.{any_listed_at, asked_at, enclosed_if_given, enrollment_request_of, filter_at, listed_at, opens_at, priorities_at};

use crate::{Asked, Filter, Who};
use bac_tags::{
    Malformed, TagFault, invalid_tag, nothing_follows, optional_unsigned, or_invalid, read_closing,
    read_opening, read_unsigned, required_unsigned,
};
use recipients::{Recipient, peer_at, read_recipient};

/// The numbers of the parameters.
const ACKNOWLEDGMENT_FILTER: u8 = 0;

const ENROLLMENT_FILTER: u8 = 1;

const EVENT_STATE_FILTER: u8 = 2;

const EVENT_TYPE_FILTER: u8 = 3;

const PRIORITY_FILTER: u8 = 4;

const NOTIFICATION_CLASS_FILTER: u8 = 5;

/// The greatest number of an Acknowledgment Filter, and of an Event State Filter.
const NOT_ACKED: u8 = 2;

const ACTIVE: u8 = 4;

/// The numbers within a recipient process, and within priorities.
const RECIPIENT: u8 = 0;

const PROCESS: u8 = 1;

const LEAST: u8 = 0;

const GREATEST: u8 = 1;

// A required number with that context number, none above the greatest one.
#[tactic(auto, unfolding(crate::specs::RequestSteps::listed_at))]
fn listed_at(input: &[u8], at: usize, number: u8, greatest: u8) -> Result<(u8, usize), Malformed>
    requires { at ≤ length input.now }
    ensures exact { result ≡ listed_at input.now at number greatest }
    ensures within { IfOk result (λ x. x.1 ≤ length input.now) }
{
    let (value, end) = required_unsigned(input, at, number)?;
    match u8::try_from(value) {
        Ok(listed) if listed <= greatest => Ok((listed, end)),
        _ => Err(invalid_tag(at)),
    }
}

// So does one that may be absent.
#[tactic(auto, unfolding(crate::specs::RequestSteps::any_listed_at))]
fn any_listed_at(
    input: &[u8],
    at: usize,
    number: u8,
    greatest: u8,
) -> Result<(Option<u8>, usize), Malformed>
    requires { at ≤ length input.now }
    ensures exact { result ≡ any_listed_at input.now at number greatest }
    ensures within { IfOk result (λ x. x.1 ≤ length input.now) }
{
    let (Some(value), end) = optional_unsigned(input, at, number)? else {
        return Ok((None, at));
    };
    match u8::try_from(value) {
        Ok(listed) if listed <= greatest => Ok((Some(listed), end)),
        _ => Err(invalid_tag(at)),
    }
}

// Who a recipient is, as far as destinations can be.
fn who_of(input: &[u8], recipient: Recipient) -> Who
    requires within { StandsWithin input.now recipient }
    ensures who { result ≡ who_of (recipient_in input.now recipient) }
{
    match recipient {
        Recipient::Device(object) => Who::Device { object },
        Recipient::Address(address) => match peer_at(input, address) {
            Some(peer) => Who::Address { peer },
            None => Who::Other,
        },
    }
}

// The recipient between its tags, and its process.
#[tactic(auto, unfolding(crate::specs::RequestSteps::asked_at))]
fn asked_at(input: &[u8], at: usize) -> Result<(Asked, usize), TagFault>
    requires { at ≤ length input.now }
    ensures exact { result ≡ asked_at input.now at }
    ensures within { IfOk result (λ x. x.1 ≤ length input.now) }
{
    let inside = read_opening(input, at, RECIPIENT)?;
    let (recipient, closing) = read_recipient(input, inside)?;
    let process_at = read_closing(input, closing, RECIPIENT)?;
    let (process, end) = read_unsigned(input, process_at, Some(PROCESS))?;
    let who = who_of(input, recipient);
    Ok((Asked { who, process }, end))
}

// Whether a tag with that number opens something there, and the place behind the tag, or the place itself.
fn opens_at(input: &[u8], at: usize, number: u8) -> Result<(bool, usize), Malformed>
    requires { at ≤ length input.now }
    ensures exact { result ≡ opens_at input.now at number }
    ensures within { IfOk result (λ x. x.1 ≤ length input.now) }
{
    if at >= input.len() {
        return Ok((false, at));
    }
    match read_opening(input, at, number) {
        Ok(inside) => Ok((true, inside)),
        Err(TagFault::WrongTag { at: other }) if other == at => Ok((false, at)),
        Err(_) => Err(invalid_tag(at)),
    }
}

// A recipient process between its tags, if such a tag opens one.
fn recipient_given_at(input: &[u8], at: usize) -> Result<(Option<Asked>, usize), Malformed>
    requires { at ≤ length input.now }
    ensures exact { result ≡ enclosed_if_given asked_at 1 input.now at }
    ensures within { IfOk result (λ x. x.1 ≤ length input.now) }
{
    let (opened, inside) = opens_at(input, at, ENROLLMENT_FILTER)?;
    if !opened {
        return Ok((None, inside));
    }
    let (asked, closing) = or_invalid(at, asked_at(input, inside))?;
    let end = or_invalid(at, read_closing(input, closing, ENROLLMENT_FILTER))?;
    Ok((Some(asked), end))
}

// The least and the greatest priority.
#[tactic(auto, unfolding(crate::specs::RequestSteps::priorities_at))]
fn priorities_at(input: &[u8], at: usize) -> Result<((u32, u32), usize), TagFault>
    requires { at ≤ length input.now }
    ensures exact { result ≡ priorities_at input.now at }
    ensures within { IfOk result (λ x. x.1 ≤ length input.now) }
{
    let (least, greatest_at) = read_unsigned(input, at, Some(LEAST))?;
    let (greatest, end) = read_unsigned(input, greatest_at, Some(GREATEST))?;
    Ok(((least, greatest), end))
}

// Priorities between their tags, if such a tag opens them.
fn priorities_given_at(input: &[u8], at: usize) -> Result<(Option<(u32, u32)>, usize), Malformed>
    requires { at ≤ length input.now }
    ensures exact { result ≡ enclosed_if_given priorities_at 4 input.now at }
    ensures within { IfOk result (λ x. x.1 ≤ length input.now) }
{
    let (opened, inside) = opens_at(input, at, PRIORITY_FILTER)?;
    if !opened {
        return Ok((None, inside));
    }
    let (priorities, closing) = or_invalid(at, priorities_at(input, inside))?;
    let end = or_invalid(at, read_closing(input, closing, PRIORITY_FILTER))?;
    Ok((Some(priorities), end))
}

// The parameters at the front of the octets, and the place after them.
#[tactic(auto, unfolding(crate::specs::RequestSteps::filter_at))]
fn filter_at(input: &[u8]) -> Result<(Filter, usize), Malformed>
    ensures exact { result ≡ filter_at input.now }
    ensures within { IfOk result (λ x. x.1 ≤ length input.now) }
{
    let (acked, recipient_place) = listed_at(input, 0, ACKNOWLEDGMENT_FILTER, NOT_ACKED)?;
    let (recipient, state_place) = recipient_given_at(input, recipient_place)?;
    let (state, type_place) = any_listed_at(input, state_place, EVENT_STATE_FILTER, ACTIVE)?;
    let (event_type, priorities_place) = optional_unsigned(input, type_place, EVENT_TYPE_FILTER)?;
    let (priorities, class_place) = priorities_given_at(input, priorities_place)?;
    let (class, end) = optional_unsigned(input, class_place, NOTIFICATION_CLASS_FILTER)?;
    Ok((
        Filter {
            acked,
            recipient,
            state,
            event_type,
            priorities,
            class,
        },
        end,
    ))
}

// The parameters, and nothing else.
fn enrollment_request_of(bytes: &[u8]) -> Result<Filter, Malformed>
    ensures exact { result ≡ enrollment_request_of bytes.now }
{
    let (filter, end) = filter_at(bytes)?;
    nothing_follows(bytes, end)?;
    Ok(filter)
}

/// Reads the parameters of GetEnrollmentSummary (13.11). No memory is taken.
pub fn read_enrollment_request(bytes: &[u8]) -> Result<Filter, Malformed>
    ensures found { IfOk result (λ filter. SpellsFilter bytes.now filter) }
    ensures only { (filter : Filters) → SpellsFilter bytes.now filter → result ≡ Ok filter }
    // Each refusal, and exactly where it comes.
    ensures refused { (fault : Refusal) → (result ≡ Err fault) ↔ RefusesEnrollmentRequest bytes.now fault }

    ensures exact { result ≡ enrollment_request_of bytes.now }
{
    enrollment_request_of(bytes)
}
