//! All elements of a request are read.

ghost use Rattle.std.specs.Prelude.{◌≡◌, ◌<◌, ◌≤◌, ◌^◌, ℕ, length, IfOk};
ghost use Rattle.list_binding.specs.Edits.{Tells};
ghost use Rattle.list_binding.specs.EditSteps.{destination_at, destinations_of};

use crate::destination::destination_of;
use crate::element::element_at;
use crate::refusal::at_element;
use crate::{Binding, EditRefusal};
use bac_values::{ServiceError, push};
use notify_class::Destination;
use std::alloc::Global;

// The destination for which the element at a place stands, which is the one with a number, and the place after it.
#[tactic(auto, unfolding(crate::specs::EditSteps::destination_at))]
fn destination_at(
    bindings: &[Binding],
    input: &[u8],
    number: u32,
    at: usize,
) -> Result<(Destination, usize), EditRefusal>
    requires { at ≤ length input.now }
    ensures exact { Tells (λ x. x) (λ answer. answer ≡ destination_at bindings.now input.now number at) result }
    ensures within { IfOk result (λ x. (at < x.1) × (x.1 ≤ length input.now)) }
{
    let Ok((element, end)) = element_at(input, at) else {
        return Err(at_element(ServiceError::INVALID_DATA_TYPE, number));
    };
    match destination_of(input, &element, bindings) {
        Some(destination) => Ok((destination, end)),
        None => Err(at_element(ServiceError::VALUE_OUT_OF_RANGE, number)),
    }
}

/// All elements, as the destinations for which they stand.
pub(crate) fn destinations_of(
    alloc: Global,
    bindings: &[Binding],
    input: &[u8],
) -> Result<Vec<Destination>, EditRefusal>
    requires short { length input.now < 2 ^ 32 }
    ensures exact { Tells (λ left. left.items) (λ answer. answer ≡ destinations_of bindings.now input.now) result }
    ensures few { IfOk result (λ read. length read.items ≤ length input.now) }
{
    let mut read = Vec::new(alloc);
    let mut at = 0;
    while at < input.len() {
        let number = read.len() as u32 + 1;
        let (destination, end) = destination_at(bindings, input, number, at)?;
        push(&mut read, destination)?;
        at = end;
    }
    Ok(read)
}
