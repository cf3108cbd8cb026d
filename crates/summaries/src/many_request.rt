//! The parameters of ReadPropertyMultiple are read (15.7).

ghost use Rattle.std.specs.Prelude.{◌≡◌, ◌<◌, ◌≤◌, ◌↔◌, Some, List, length, option_map, slice_get, IfOk, IfSome};
ghost use Rattle.bac_tags.specs.declared.malformed.Malformed.{Malformed as Refusal};
ghost use Rattle.bac_tags.specs.ReadingSteps.{object_at};
ghost use Rattle.summaries.specs.ManyRefusals.{RefusesReadMany};
ghost use Rattle.summaries.specs.ManyRequests.{ObjectAsked, SpellsReadMany, spec_of, specs_in};
ghost use Rattle.summaries.specs.ManySteps.{closes_at, entry_at, further_at, group_at, is_other, many_request_of, or_before, passing, properties_at, property_at, specs_read};

use crate::{PropertyAsked, Spec};
use bac_tags::{
    Malformed, TagFault, invalid_tag, missing_parameter, optional_unsigned, or_invalid,
    read_closing, read_object, read_opening, read_unsigned, required, required_object,
    too_many_arguments,
};
use bac_values::{ObjectId, PropertyId};

/// The numbers of the parameters of a specification, and of a property.
const OBJECT: u8 = 0;

pub(crate) const PROPERTIES: u8 = 1;

const PROPERTY: u8 = 0;

const INDEX: u8 = 1;

/// A property and its index, and the place after them.
#[tactic(auto, unfolding(crate::specs::ManySteps::property_at))]
pub(crate) fn property_at(input: &[u8], at: usize) -> Result<(PropertyAsked, usize), Malformed>
    requires { at ≤ length input.now }
    ensures exact { result ≡ property_at input.now at }
    ensures within { IfOk result (λ x. (at < x.1) × (x.1 ≤ length input.now)) }
{
    let (property, index_at) = or_invalid(at, read_unsigned(input, at, Some(PROPERTY)))?;
    let (index, end) = optional_unsigned(input, index_at, INDEX)?;
    Ok((PropertyAsked { property, index }, end))
}

/// The place after the tag that closes the properties of an object, where it stands.
#[tactic(auto, unfolding(crate::specs::ManySteps::closes_at))]
pub(crate) fn closes_at(input: &[u8], at: usize) -> Option<usize>
    requires { at ≤ length input.now }
    ensures exact { result ≡ closes_at input.now at }
    ensures within { IfSome result (λ end. (at < end) × (end ≤ length input.now)) }
{
    read_closing(input, at, PROPERTIES).ok()
}

/// An object, and the place at which its properties begin.
#[tactic(auto, unfolding(crate::specs::ManySteps::entry_at))]
pub(crate) fn entry_at(input: &[u8], at: usize) -> Result<(ObjectId, usize), Malformed>
    requires { at ≤ length input.now }
    ensures exact { result ≡ entry_at input.now at }
    ensures within { IfOk result (λ x. (at < x.1) × (x.1 ≤ length input.now)) }
{
    let (object, opening_at) = required_object(input, at, OBJECT)?;
    let start = required(
        input,
        opening_at,
        read_opening(input, opening_at, PROPERTIES),
    )?;
    Ok((object, start))
}

// What was passed: the thing that was looked for, if it was among them, how many there were up to the place, and the place
// after them.
type Passed<T> = (Option<T>, usize, usize);

// The properties from a place on, of which so many are before them, up to their closing tag: the one with an index.
#[tactic(auto, unfolding(crate::specs::ManySteps::properties_at))]
fn properties_at(
    input: &[u8],
    start: usize,
    before: usize,
    index: usize,
) -> Result<Passed<PropertyAsked>, Malformed>
    requires within { start ≤ length input.now }
    requires some { before < start }
    ensures exact { result ≡ passing before index (properties_at input.now start) }
    ensures within { IfOk result (λ x. (x.1 < x.2) × (x.2 ≤ length input.now)) }
{
    let (mut found, mut passed, mut at) = (None, before, start);
    for _ in 0..input.len() {
        if let Some(end) = closes_at(input, at) {
            if at == start {
                return Err(missing_parameter(start));
            }
            return Ok((found, passed, end));
        }
        let (asked, next) = property_at(input, at)?;
        if passed == index {
            found = Some(asked);
        }
        passed += 1;
        at = next;
    }
    Err(invalid_tag(at))
}

fn spec_of(object: ObjectId, asked: PropertyAsked) -> Spec
    ensures spec { result ≡ spec_of object asked }
{
    Spec {
        object,
        property: PropertyId(asked.property),
        index: asked.index,
    }
}

fn spec_if(object: ObjectId, asked: Option<PropertyAsked>) -> Option<Spec>
    ensures spec { result ≡ option_map (spec_of object) asked }
{
    match asked {
        Some(asked) => Some(spec_of(object, asked)),
        None => None,
    }
}

// The same of an object with its properties.
#[tactic(auto, unfolding(crate::specs::ManySteps::group_at))]
fn group_at(input: &[u8], at: usize, before: usize, index: usize) -> Result<Passed<Spec>, Malformed>
    requires within { at ≤ length input.now }
    requires some { before ≤ at }
    ensures exact { result ≡ passing before index (specs_read (group_at input.now at)) }
    ensures within { IfOk result (λ x. (x.1 < x.2) × (x.2 ≤ length input.now)) }
{
    let (object, start) = entry_at(input, at)?;
    let (asked, passed, end) = properties_at(input, start, before, index)?;
    Ok((spec_if(object, asked), passed, end))
}

// Whether another element than an object stands at the place.
fn is_other(input: &[u8], at: usize) -> bool
    requires { at ≤ length input.now }
    ensures other { result ≡ is_other at (object_at input.now at (Some 0)) }
{
    match read_object(input, at, Some(OBJECT)) {
        Err(TagFault::WrongTag { at: other }) => other == at,
        _ => false,
    }
}

// The same of a further object, in whose place another element is one too many.
#[tactic(auto, unfolding(crate::specs::ManySteps::further_at))]
fn further_at(
    input: &[u8],
    at: usize,
    before: usize,
    index: usize,
) -> Result<Passed<Spec>, Malformed>
    requires within { at ≤ length input.now }
    requires some { before ≤ at }
    ensures exact { result ≡ passing before index (specs_read (further_at input.now at)) }
    ensures within { IfOk result (λ x. (x.1 < x.2) × (x.2 ≤ length input.now)) }
{
    if is_other(input, at) {
        return Err(too_many_arguments(at));
    }
    group_at(input, at, before, index)
}

// That of later properties, or else that of earlier ones.
fn or_before(later: Option<Spec>, before: Option<Spec>) -> Option<Spec>
    ensures either { result ≡ or_before later before }
{
    match later {
        Some(spec) => Some(spec),
        None => before,
    }
}

// The property with an index among all that are asked.
fn many_request_of(bytes: &[u8], index: usize) -> Result<Option<Spec>, Malformed>
    ensures exact { result ≡ many_request_of bytes.now index }
{
    let (mut found, mut passed, mut at) = group_at(bytes, 0, 0, index)?;
    for _ in 0..bytes.len() {
        if at >= bytes.len() {
            return Ok(found);
        }
        let (spec, so_far, end) = further_at(bytes, at, passed, index)?;
        found = or_before(spec, found);
        passed = so_far;
        at = end;
    }
    Err(invalid_tag(at))
}

/// Reads the parameters of ReadPropertyMultiple (15.7): the property at an index, from 0, among all that are asked, and none
/// exactly past the last. It refuses alike whatever the index. No memory is taken.
pub fn read_many_request(bytes: &[u8], index: u32) -> Result<Option<Spec>, Malformed>
    ensures found { IfOk result (λ spec. (groups : List ObjectAsked) × SpellsReadMany bytes.now groups × (spec ≡ slice_get (specs_in groups) index)) }
    ensures only { (groups : List ObjectAsked) → SpellsReadMany bytes.now groups → result ≡ Ok (slice_get (specs_in groups) index) }
    // Each refusal, and exactly where it comes.
    ensures refused { (fault : Refusal) → (result ≡ Err fault) ↔ RefusesReadMany bytes.now fault }

    ensures exact { result ≡ many_request_of bytes.now index }
{
    many_request_of(bytes, index as usize)
}
