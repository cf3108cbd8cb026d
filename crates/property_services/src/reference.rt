//! The parameters of ReadProperty are read, and those with which others begin (15.5).

ghost use Rattle.std.specs.Prelude.{◌≡◌, ◌≤◌, ◌↔◌, length, IfOk};
ghost use Rattle.bac_tags.specs.declared.malformed.Malformed.{Malformed};
ghost use Rattle.bac_tags.specs.Refusals.{missing_parameter};
ghost use Rattle.property_services.specs.declared.requests.ReadRequest.{ReadRequest};
ghost use Rattle.property_services.specs.Requests.{SpellsReadProperty};
ghost use Rattle.property_services.specs.Refusals.{RefusesReadProperty, EndsBeforeProperty};
ghost use Rattle.property_services.specs.ReadingSteps.{reference_at, read_property_of};

use crate::ReadRequest;
use bac_tags::{Malformed, nothing_follows, optional_unsigned, required_object, required_unsigned};
use bac_values::PropertyId;

/// The object, the property and the index at the front of the octets, and the place after them.
#[tactic(auto, unfolding(crate::specs::ReadingSteps::reference_at))]
pub(crate) fn reference_at(input: &[u8]) -> Result<(ReadRequest, usize), Malformed>
    ensures exact { result ≡ reference_at input.now }
    ensures within { IfOk result (λ x. x.1 ≤ length input.now) }
{
    let (object, property_at) = required_object(input, 0, 0)?;
    let (property, index_at) = required_unsigned(input, property_at, 1)?;
    let (index, end) = optional_unsigned(input, index_at, 2)?;
    let property = PropertyId(property);
    Ok((
        ReadRequest {
            object,
            property,
            index,
        },
        end,
    ))
}

/// What is to be read, and nothing else.
fn read_property_of(bytes: &[u8]) -> Result<ReadRequest, Malformed>
    ensures exact { result ≡ read_property_of bytes.now }
{
    let (request, end) = reference_at(bytes)?;
    nothing_follows(bytes, end)?;
    Ok(request)
}

/// Reads the parameters of ReadProperty (15.5). No memory is taken.
pub fn read_read_property(bytes: &[u8]) -> Result<ReadRequest, Malformed>
    ensures found { IfOk result (λ request. SpellsReadProperty bytes.now request) }
    ensures only { (request : ReadRequest) → SpellsReadProperty bytes.now request → result ≡ Ok request }
    // Each refusal, and exactly where it comes.
    ensures refused { (fault : Malformed) → (result ≡ Err fault) ↔ RefusesReadProperty bytes.now fault }
    ensures missing { (result ≡ Err (missing_parameter (length bytes.now))) ↔ EndsBeforeProperty bytes.now }

    ensures exact { result ≡ read_property_of bytes.now }
{
    read_property_of(bytes)
}
