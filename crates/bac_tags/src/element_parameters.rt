//! Parameters of one element, required and optional.

ghost use Rattle.std.specs.Prelude.{◌≡◌, ◌↔◌, ℕ, ◌<◌, ◌≤◌, Option, Some, length, drop, IfOk};
ghost use Rattle.bac_values.specs.Identifier.{ObjectIdData};
ghost use Rattle.bac_tags.specs.Places.{IsSpelledAt};
ghost use Rattle.bac_tags.specs.Contents.{SpellsUnsigned, SpellsObject};
ghost use Rattle.bac_tags.specs.ReadingSteps.{unsigned_at, object_at};
ghost use Rattle.bac_tags.specs.Refusals.{invalid_tag, missing_parameter};
ghost use Rattle.bac_tags.specs.Parameters.{IsThere, IsAbsent, IsOptionalAt};
ghost use Rattle.bac_tags.specs.ParameterReadingSteps.{required, optional};

use crate::malformed::Malformed;
use crate::parameter::{optional, required};
use crate::{read_object, read_unsigned};
use bac_values::ObjectId;

/// Reads a required Unsigned with that number in a context, and answers it with the place after it. An Enumerated is
/// read alike.
pub fn required_unsigned(input: &[u8], at: usize, number: u8) -> Result<(u32, usize), Malformed>
    requires { at ≤ length input.now }
    ensures found { IfOk result (λ x. IsSpelledAt (SpellsUnsigned (Some number)) input.now at x.0 x.1) }
    ensures only { (value end : ℕ) → IsSpelledAt (SpellsUnsigned (Some number)) input.now at value end → result ≡ Ok (value, end) }

    ensures missing { (result ≡ Err (missing_parameter (length input.now))) ↔ (at ≡ length input.now) }
    ensures invalid { (result ≡ Err (invalid_tag at)) ↔ ((at < length input.now) × ¬ IsThere (SpellsUnsigned (Some number)) input.now at) }

    ensures exact { result ≡ required input.now at (unsigned_at input.now at (Some number)) }
    ensures within { IfOk result (λ x. (at < x.1) × (x.1 ≤ length input.now)) }
{
    required(input, at, read_unsigned(input, at, Some(number)))
}

/// Reads a required ObjectIdentifier with that number in a context, and answers it with the place after it.
pub fn required_object(input: &[u8], at: usize, number: u8) -> Result<(ObjectId, usize), Malformed>
    requires { at ≤ length input.now }
    ensures found { IfOk result (λ x. IsSpelledAt (SpellsObject (Some number)) input.now at x.0 x.1) }
    ensures only { (value : ObjectIdData) (end : ℕ) → IsSpelledAt (SpellsObject (Some number)) input.now at value end → result ≡ Ok (value, end) }

    ensures missing { (result ≡ Err (missing_parameter (length input.now))) ↔ (at ≡ length input.now) }
    ensures invalid { (result ≡ Err (invalid_tag at)) ↔ ((at < length input.now) × ¬ IsThere (SpellsObject (Some number)) input.now at) }

    ensures exact { result ≡ required input.now at (object_at input.now at (Some number)) }
    ensures within { IfOk result (λ x. (at < x.1) × (x.1 ≤ length input.now)) }
{
    required(input, at, read_object(input, at, Some(number)))
}

/// Reads an Unsigned with that number in a context, if one is there, and answers it with the place after it. An
/// Enumerated is read alike.
pub fn optional_unsigned(
    input: &[u8],
    at: usize,
    number: u8,
) -> Result<(Option<u32>, usize), Malformed>
    requires { at ≤ length input.now }
    ensures found { IfOk result (λ x. IsOptionalAt (SpellsUnsigned (Some number)) number input.now at x.0 x.1) }
    ensures only { (value : Option ℕ) (end : ℕ) → IsOptionalAt (SpellsUnsigned (Some number)) number input.now at value end → result ≡ Ok (value, end) }

    ensures invalid { (result ≡ Err (invalid_tag at)) ↔ (¬ IsAbsent number input.now at × ¬ IsThere (SpellsUnsigned (Some number)) input.now at) }

    ensures exact { result ≡ optional input.now at (unsigned_at input.now at (Some number)) }
    ensures within { IfOk result (λ x. (at ≤ x.1) × (x.1 ≤ length input.now)) }
{
    optional(input, at, read_unsigned(input, at, Some(number)))
}

/// Reads an ObjectIdentifier with that number in a context, if one is there, and answers it with the place after it.
pub fn optional_object(
    input: &[u8],
    at: usize,
    number: u8,
) -> Result<(Option<ObjectId>, usize), Malformed>
    requires { at ≤ length input.now }
    ensures found { IfOk result (λ x. IsOptionalAt (SpellsObject (Some number)) number input.now at x.0 x.1) }
    ensures only { (value : Option ObjectIdData) (end : ℕ) → IsOptionalAt (SpellsObject (Some number)) number input.now at value end → result ≡ Ok (value, end) }

    ensures invalid { (result ≡ Err (invalid_tag at)) ↔ (¬ IsAbsent number input.now at × ¬ IsThere (SpellsObject (Some number)) input.now at) }

    ensures exact { result ≡ optional input.now at (object_at input.now at (Some number)) }
    ensures within { IfOk result (λ x. (at ≤ x.1) × (x.1 ≤ length input.now)) }
{
    optional(input, at, read_object(input, at, Some(number)))
}
