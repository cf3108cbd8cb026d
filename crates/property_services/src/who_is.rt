//! The parameters of Who-Is are read (16.10).

ghost use Rattle.std.specs.Prelude.{◌≡◌, ◌≤◌, ◌↔◌, ℕ, Option, length, IfOk};
ghost use Rattle.bac_tags.specs.declared.malformed.Malformed.{Malformed};
ghost use Rattle.bac_tags.specs.Refusals.{missing_parameter};
ghost use Rattle.property_services.specs.Requests.{SpellsWhoIs};
ghost use Rattle.property_services.specs.Refusals.{RefusesWhoIs, EndsBeforeHighest};
ghost use Rattle.property_services.specs.ReadingSteps.{limits_behind, limits_at, who_is_of};

use bac_tags::{Malformed, nothing_follows, optional_unsigned, required_unsigned};

/// The limits behind the lowest instance, if that is given, and the place after them.
#[tactic(auto, unfolding(crate::specs::ReadingSteps::limits_behind))]
fn limits_behind(
    input: &[u8],
    low: Option<u32>,
    at: usize,
) -> Result<(Option<(u32, u32)>, usize), Malformed>
    requires { at ≤ length input.now }
    ensures exact { result ≡ limits_behind input.now low at }
    ensures within { IfOk result (λ x. x.1 ≤ length input.now) }
{
    let Some(low) = low else {
        return Ok((None, at));
    };
    let (high, end) = required_unsigned(input, at, 1)?;
    Ok((Some((low, high)), end))
}

/// The limits at the front of the octets, and the place after them.
#[tactic(auto, unfolding(crate::specs::ReadingSteps::limits_at))]
fn limits_at(input: &[u8]) -> Result<(Option<(u32, u32)>, usize), Malformed>
    ensures exact { result ≡ limits_at input.now }
    ensures within { IfOk result (λ x. x.1 ≤ length input.now) }
{
    let (low, at) = optional_unsigned(input, 0, 0)?;
    limits_behind(input, low, at)
}

/// The limits, and nothing else.
fn who_is_of(bytes: &[u8]) -> Result<Option<(u32, u32)>, Malformed>
    ensures exact { result ≡ who_is_of bytes.now }
{
    let (limits, end) = limits_at(bytes)?;
    nothing_follows(bytes, end)?;
    Ok(limits)
}

/// Reads the parameters of Who-Is (16.10): the lowest and the highest instance of the devices that are asked, or none
/// where all are. No memory is taken.
pub fn read_who_is(bytes: &[u8]) -> Result<Option<(u32, u32)>, Malformed>
    ensures found { IfOk result (λ limits. SpellsWhoIs bytes.now limits) }
    ensures only { (limits : Option (ℕ × ℕ)) → SpellsWhoIs bytes.now limits → result ≡ Ok limits }
    // Each refusal, and exactly where it comes.
    ensures refused { (fault : Malformed) → (result ≡ Err fault) ↔ RefusesWhoIs bytes.now fault }
    ensures missing { (result ≡ Err (missing_parameter (length bytes.now))) ↔ EndsBeforeHighest bytes.now }

    ensures exact { result ≡ who_is_of bytes.now }
{
    who_is_of(bytes)
}
