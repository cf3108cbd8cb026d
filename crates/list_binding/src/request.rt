//! The parameters of AddListElement and RemoveListElement are read (15.1, 15.2).

ghost use Rattle.std.specs.Prelude.{◌≡◌, ◌≤◌, ◌↔◌, Err, length, slice_range, IfOk, IsOkAnd};
ghost use Rattle.bac_tags.specs.declared.malformed.Malformed.{Malformed as Refusal};
ghost use Rattle.bac_tags.specs.ParameterReadingSteps.{whole};
ghost use Rattle.bac_tags.specs.ReadingSteps.{Gives};
ghost use Rattle.list_binding.specs.Refusals.{RefusesListRequest};
ghost use Rattle.list_binding.specs.Requests.{ListAsked, SpellsListRequest, asked_in};
ghost use Rattle.list_binding.specs.RequestSteps.{list_at, list_request_of, listed_at};

use bac_tags::{
    Malformed, nothing_follows, optional_unsigned, read_elements, required, required_object,
    required_unsigned,
};
use bac_values::{ObjectId, PropertyId};

/// Whose list is edited, and where its elements stand among the octets of the request.
#[derive(Clone, Copy, Debug, PartialEq, Eq)]
pub struct ListRequest {
    /// The object.
    pub object: ObjectId,
    /// The property.
    pub property: PropertyId,
    /// The index in the property's array, if one is given.
    pub index: Option<u32>,
    /// The place of the first octet of the elements.
    pub start: usize,
    /// The place behind their last octet.
    pub end: usize,
}

/// The numbers of the parameters.
const OBJECT: u8 = 0;

const PROPERTY: u8 = 1;

const INDEX: u8 = 2;

const ELEMENTS: u8 = 3;

// Where the elements stand between their tags, and the place after the closing one.
#[tactic(auto, unfolding(crate::specs::RequestSteps::listed_at))]
fn listed_at(input: &[u8], at: usize) -> Result<((usize, usize), usize), Malformed>
    requires { at ≤ length input.now }
    ensures exact { Gives (λ x. (slice_range input.now x.0.0 x.0.1, x.1)) result (listed_at input.now at) }
    ensures within { IfOk result (λ x. (x.0.0 ≤ x.0.1) × (x.0.1 ≤ length input.now) × (x.1 ≤ length input.now)) }
{
    required(input, at, read_elements(input, at, ELEMENTS))
}

// The parameters at the front of the octets, and the place after them.
#[tactic(auto, unfolding(crate::specs::RequestSteps::list_at))]
fn list_at(input: &[u8]) -> Result<(ListRequest, usize), Malformed>
    ensures exact { Gives (λ x. (asked_in input.now x.0, x.1)) result (list_at input.now) }
    ensures within { IfOk result (λ x. (x.0.start ≤ x.0.end) × (x.0.end ≤ length input.now) × (x.1 ≤ length input.now)) }
{
    let (object, property_at) = required_object(input, 0, OBJECT)?;
    let (property, index_at) = required_unsigned(input, property_at, PROPERTY)?;
    let (index, elements_at) = optional_unsigned(input, index_at, INDEX)?;
    let ((start, stop), end) = listed_at(input, elements_at)?;
    Ok((
        ListRequest {
            object,
            property: PropertyId(property),
            index,
            start,
            end: stop,
        },
        end,
    ))
}

// The parameters, and nothing else.
fn list_request_of(bytes: &[u8]) -> Result<ListRequest, Malformed>
    ensures exact { Gives (asked_in bytes.now) result (list_request_of bytes.now) }
    ensures within { IfOk result (λ request. (request.start ≤ request.end) × (request.end ≤ length bytes.now)) }
{
    let (request, end) = list_at(bytes)?;
    nothing_follows(bytes, end)?;
    Ok(request)
}

/// Reads the parameters of AddListElement (15.1), or of RemoveListElement (15.2), which are the same. Of the elements it says
/// where they stand: whole elements of any kind, which are looked at no further. No memory is taken.
pub fn read_list_request(bytes: &[u8]) -> Result<ListRequest, Malformed>
    ensures found { IfOk result (λ request. SpellsListRequest bytes.now (asked_in bytes.now request)) }
    ensures only { (asked : ListAsked) → SpellsListRequest bytes.now asked → IsOkAnd result (λ request. asked_in bytes.now request ≡ asked) }
    // Each refusal, and exactly where it comes.
    ensures refused { (fault : Refusal) → (result ≡ Err fault) ↔ RefusesListRequest bytes.now fault }
    ensures within { IfOk result (λ request. (request.start ≤ request.end) × (request.end ≤ length bytes.now)) }

    ensures exact { Gives (asked_in bytes.now) result (list_request_of bytes.now) }
{
    list_request_of(bytes)
}
