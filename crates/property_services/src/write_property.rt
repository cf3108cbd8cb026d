//! The parameters of WriteProperty are read (15.9).

ghost use Rattle.std.specs.Prelude.{◌≡◌, ◌≤◌, ◌↔◌, ◌⊎◌, ℕ, List, length, IfOk, OnErr};
ghost use Rattle.bac_values.specs.Reasons.{missing_required_parameter_reason};
ghost use Rattle.bac_values.specs.declared.value.Value.{Value};
ghost use Rattle.bac_tags.specs.Places.{IsSpelledAt};
ghost use Rattle.bac_tags.specs.Values.{SpellsValue};
ghost use Rattle.property_services.specs.declared.requests.WriteRequest.{WriteRequest};
ghost use Rattle.property_services.specs.Requests.{SpellsWriteProperty};
ghost use Rattle.property_services.specs.Refusals.{RefusesWriteProperty, EndsBeforeValue, HasText};
ghost use Rattle.property_services.specs.ReadingSteps.{content_at, write_at, value_of, write_property_of, GivesWrite};
ghost use Rattle.bac_tags.specs.ReadingSteps.{Gives};
ghost use Rattle.bac_tags.specs.ParameterReadingSteps.{whole};

use crate::reference::reference_at;
use crate::{ReadRequest, ServiceFault, WriteRequest};
use bac_tags::{
    Malformed, TagFault, nothing_follows, optional_unsigned, read_elements, read_value, required,
};
use bac_values::{Foreign, NoMemory, Value};
use std::alloc::Global;

/// The elements of the value, and the place after its closing tag.
#[tactic(auto, unfolding(crate::specs::ReadingSteps::content_at))]
fn content_at(input: &[u8], at: usize) -> Result<(&[u8], usize), Malformed>
    requires { at ≤ length input.now }
    ensures exact { Gives (λ x. (x.0.now, x.1)) result (content_at input.now at) }
    ensures within { IfOk result (λ x. x.1 ≤ length input.now) }
{
    let ((start, stop), end) = required(input, at, read_elements(input, at, 3))?;
    Ok((&input[start..stop], end))
}

/// What is written, the elements of the value, and the place after the priority, if there is one.
#[tactic(auto, unfolding(crate::specs::ReadingSteps::write_at))]
fn write_at(input: &[u8]) -> Result<((ReadRequest, &[u8]), usize), Malformed>
    ensures exact { Gives (λ x. ((x.0.0, x.0.1.now), x.1)) result (write_at input.now) }
{
    let (reference, value_at) = reference_at(input)?;
    let (content, priority_at) = content_at(input, value_at)?;
    let (_, end) = optional_unsigned(input, priority_at, 4)?;
    Ok(((reference, content), end))
}

/// What is written and the elements of the value, and nothing else.
fn whole_write(input: &[u8]) -> Result<(ReadRequest, &[u8]), Malformed>
    ensures exact { Gives (λ x. (x.0, x.1.now)) result (whole input.now (write_at input.now)) }
{
    match write_at(input) {
        Ok((written, end)) => {
            nothing_follows(input, end)?;
            Ok(written)
        }
        Err(fault) => Err(fault),
    }
}

/// The value of elements that are exactly one application value.
#[tactic(auto, unfolding(crate::specs::ReadingSteps::value_of))]
fn value_of(alloc: Global, content: &[u8]) -> Result<Value, NoMemory>
    ensures value { IfOk result (λ value. value ≡ value_of content.now) }
    ensures no_memory { OnErr result ((text : List ℕ) × (end : ℕ) × IsSpelledAt SpellsValue content.now 0 (Value.Text text) end) }
{
    match read_value(alloc, content, 0) {
        Ok((value, end)) if end == content.len() => Ok(value),
        Err(TagFault::NoMemory) => Err(NoMemory),
        _ => Ok(Value::Opaque {
            tag: 0,
            why: Foreign::OtherType,
        }),
    }
}

/// What is written, with its value.
fn write_property_of(alloc: Global, bytes: &[u8]) -> Result<WriteRequest, ServiceFault>
    ensures exact { GivesWrite result (write_property_of bytes.now) }
    ensures no_memory { result ≡ Err ServiceFault.NoMemory → HasText bytes.now }
{
    let (reference, content) = match whole_write(bytes) {
        Ok(written) => written,
        Err(fault) => return Err(ServiceFault::from(fault)),
    };
    let value = value_of(alloc, content)?;
    Ok(WriteRequest {
        object: reference.object,
        property: reference.property,
        index: reference.index,
        value,
    })
}

/// Reads the parameters of WriteProperty (15.9). The priority is read over. A text takes memory, and nothing else does.
pub fn read_write_property(alloc: Global, bytes: &[u8]) -> Result<WriteRequest, ServiceFault>
    ensures found { IfOk result (λ request. SpellsWriteProperty bytes.now request) }
    ensures only { (request : WriteRequest) → SpellsWriteProperty bytes.now request → (result ≡ Ok request) ⊎ (result ≡ Err ServiceFault.NoMemory) }
    // Each refusal, and exactly where it comes.
    ensures refused { (reject at : ℕ) → (result ≡ Err (ServiceFault.Malformed reject at)) ↔ RefusesWriteProperty bytes.now (record { reject = reject; at = at }) }
    ensures missing { (result ≡ Err (ServiceFault.Malformed missing_required_parameter_reason (length bytes.now))) ↔ EndsBeforeValue bytes.now }
    // Memory is refused only where the octets are in the grammar and a text stands in the value.
    ensures no_memory { result ≡ Err ServiceFault.NoMemory → HasText bytes.now }

    ensures exact { GivesWrite result (write_property_of bytes.now) }
{
    write_property_of(alloc, bytes)
}
