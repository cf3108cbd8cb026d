//! The parameters of ReadRange are read (15.8).

ghost use Rattle.std.specs.Prelude.{◌≡◌, ◌≤◌, ◌↔◌, length, IfOk};
ghost use Rattle.bac_tags.specs.declared.malformed.Malformed.{Malformed};
ghost use Rattle.bac_tags.specs.Refusals.{missing_parameter};
ghost use Rattle.property_services.specs.declared.requests.RangeRequest.{RangeRequest};
ghost use Rattle.property_services.specs.Requests.{SpellsReadRange};
ghost use Rattle.property_services.specs.Refusals.{RefusesReadRange, EndsBeforeProperty};
ghost use Rattle.bac_tags.specs.ParameterReadingSteps.{or_invalid};
ghost use Rattle.property_services.specs.ReadingSteps.{opened, counted_at, dated_at, range_behind, range_at, range_request_at, read_range_of};

use crate::reference::reference_at;
use crate::{RangeBy, RangeRequest};
use bac_tags::{
    Malformed, Shape, Tag, nothing_follows, or_invalid, read_closing, read_signed, read_stamp,
    read_tag, read_unsigned,
};
use bac_values::Stamp;

/// The number of a tag that opens a list.
fn opened(tag: Tag) -> Option<u8>
    ensures { result ≡ opened tag.context tag.shape tag.number }
{
    match tag.shape {
        Shape::Opening if tag.context => Some(tag.number),
        _ => None,
    }
}

/// A number and a count in the list with this number, which begins at `begin`, and the place after the list.
#[tactic(auto, unfolding(crate::specs::ReadingSteps::counted_at))]
fn counted_at(
    input: &[u8],
    begin: usize,
    at: usize,
    number: u8,
) -> Result<((u32, i32), usize), Malformed>
    requires { at ≤ length input.now }
    ensures exact { result ≡ counted_at input.now begin at number }
    ensures within { IfOk result (λ x. x.1 ≤ length input.now) }
{
    let (reference, count_at) = or_invalid(begin, read_unsigned(input, at, None))?;
    let (count, closing_at) = or_invalid(begin, read_signed(input, count_at, None))?;
    let end = or_invalid(begin, read_closing(input, closing_at, number))?;
    Ok(((reference, count), end))
}

/// A date, a time and a count in the list with this number, which begins at `begin`, and the place after the list.
#[tactic(auto, unfolding(crate::specs::ReadingSteps::dated_at))]
fn dated_at(
    input: &[u8],
    begin: usize,
    at: usize,
    number: u8,
) -> Result<((Stamp, i32), usize), Malformed>
    requires { at ≤ length input.now }
    ensures exact { result ≡ dated_at input.now begin at number }
    ensures within { IfOk result (λ x. x.1 ≤ length input.now) }
{
    let (reference, count_at) = or_invalid(begin, read_stamp(input, at, None))?;
    let (count, closing_at) = or_invalid(begin, read_signed(input, count_at, None))?;
    let end = or_invalid(begin, read_closing(input, closing_at, number))?;
    Ok(((reference, count), end))
}

/// The range in a list that begins at `begin` and whose opening tag has this number, or all where it isn't a range's.
#[tactic(auto, unfolding(crate::specs::ReadingSteps::range_behind))]
fn range_behind(
    input: &[u8],
    begin: usize,
    at: usize,
    number: Option<u8>,
) -> Result<(RangeBy, usize), Malformed>
    requires begin { begin ≤ length input.now }
    requires at { at ≤ length input.now }
    ensures exact { result ≡ range_behind input.now begin at number }
    ensures within { IfOk result (λ x. x.1 ≤ length input.now) }
{
    match number {
        Some(3) => {
            let ((reference, count), end) = counted_at(input, begin, at, 3)?;
            Ok((RangeBy::Position { reference, count }, end))
        }
        Some(6) => {
            let ((reference, count), end) = counted_at(input, begin, at, 6)?;
            Ok((RangeBy::Sequence { reference, count }, end))
        }
        Some(7) => {
            let ((reference, count), end) = dated_at(input, begin, at, 7)?;
            Ok((RangeBy::Time { reference, count }, end))
        }
        _ => Ok((RangeBy::All, begin)),
    }
}

/// The range at a place, all where there is none, and the place after it.
#[tactic(auto, unfolding(crate::specs::ReadingSteps::range_at))]
fn range_at(input: &[u8], at: usize) -> Result<(RangeBy, usize), Malformed>
    requires { at ≤ length input.now }
    ensures exact { result ≡ range_at input.now at }
    ensures within { IfOk result (λ x. x.1 ≤ length input.now) }
{
    if at >= input.len() {
        return Ok((RangeBy::All, at));
    }
    let (tag, inside_at) = or_invalid(at, read_tag(input, at))?;
    range_behind(input, at, inside_at, opened(tag))
}

/// What is to be read at the front of the octets, and the place after it.
#[tactic(auto, unfolding(crate::specs::ReadingSteps::range_request_at))]
fn range_request_at(input: &[u8]) -> Result<(RangeRequest, usize), Malformed>
    ensures exact { result ≡ range_request_at input.now }
    ensures within { IfOk result (λ x. x.1 ≤ length input.now) }
{
    let (reference, at) = reference_at(input)?;
    let (range, end) = range_at(input, at)?;
    Ok((
        RangeRequest {
            object: reference.object,
            property: reference.property,
            index: reference.index,
            range,
        },
        end,
    ))
}

/// What is to be read, and nothing else.
fn read_range_of(bytes: &[u8]) -> Result<RangeRequest, Malformed>
    ensures exact { result ≡ read_range_of bytes.now }
{
    let (request, end) = range_request_at(bytes)?;
    nothing_follows(bytes, end)?;
    Ok(request)
}

/// Reads the parameters of ReadRange (15.8). No memory is taken.
pub fn read_read_range(bytes: &[u8]) -> Result<RangeRequest, Malformed>
    ensures found { IfOk result (λ request. SpellsReadRange bytes.now request) }
    ensures only { (request : RangeRequest) → SpellsReadRange bytes.now request → result ≡ Ok request }
    // Each refusal, and exactly where it comes.
    ensures refused { (fault : Malformed) → (result ≡ Err fault) ↔ RefusesReadRange bytes.now fault }
    ensures missing { (result ≡ Err (missing_parameter (length bytes.now))) ↔ EndsBeforeProperty bytes.now }

    ensures exact { result ≡ read_range_of bytes.now }
{
    read_range_of(bytes)
}
