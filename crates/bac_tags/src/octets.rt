//! Octets at a place.

ghost use Rattle.std.specs.Prelude.{◌≡◌, ◌+◌, ◌<◌, ◌≤◌, length, OnOk, IfOk};
ghost use Rattle.bac_tags.specs.ReadingSteps.{Gives, octet_at, octets_at};

use crate::TagFault;

/// The octet at a place.
#[tactic(auto, unfolding(crate::specs::ReadingSteps::octet_at))]
pub(crate) fn octet_at(input: &[u8], place: usize) -> Result<u8, TagFault>
    ensures exact { result ≡ octet_at input.now place }
    ensures within { OnOk result (place < length input.now) }
{
    input
        .get(place)
        .copied()
        .ok_or(TagFault::Truncated { at: input.len() })
}

/// So many octets from a place on.
#[tactic(auto, unfolding(crate::specs::ReadingSteps::octets_at))]
pub(crate) fn octets_at(input: &[u8], place: usize, count: usize) -> Result<&[u8], TagFault>
    requires { place ≤ length input.now }
    ensures exact { Gives (λ octets. octets.now) result (octets_at input.now place count) }
    ensures whole { IfOk result (λ octets. (length octets.now ≡ count) × (place + count ≤ length input.now)) }
{
    if input.len() - place < count {
        return Err(TagFault::Truncated { at: input.len() });
    }
    Ok(&input[place..place + count])
}
