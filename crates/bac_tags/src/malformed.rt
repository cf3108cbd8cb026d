//! Why parameters aren't read, as a Reject says it (clause 18).

ghost use Rattle.std.specs.Prelude.{◌≡◌};
ghost use Rattle.bac_tags.specs.Refusals.{invalid_tag, missing_parameter, too_many_arguments};

use bac_values::RejectReason;

/// Why octets aren't the parameters of a service.
#[derive(Clone, Copy, Debug, PartialEq, Eq)]
pub struct Malformed {
    /// The number of the reason (`RejectReason`): that of an invalid tag, of a missing required parameter, or of too many
    /// arguments.
    pub reject: u8,
    /// The first place of the parameter that isn't one, the length of the octets where one is missing, or the first
    /// octet too many.
    pub at: usize,
}

/// What stands at the place isn't the parameter that should.
pub fn invalid_tag(at: usize) -> Malformed
    ensures { result ≡ invalid_tag at }
{
    Malformed {
        reject: RejectReason::INVALID_TAG.0,
        at,
    }
}

/// The octets end at the place, where a required parameter should begin.
pub fn missing_parameter(at: usize) -> Malformed
    ensures { result ≡ missing_parameter at }
{
    Malformed {
        reject: RejectReason::MISSING_REQUIRED_PARAMETER.0,
        at,
    }
}

/// Octets follow the last parameter, from the place on.
pub fn too_many_arguments(at: usize) -> Malformed
    ensures { result ≡ too_many_arguments at }
{
    Malformed {
        reject: RejectReason::TOO_MANY_ARGUMENTS.0,
        at,
    }
}
