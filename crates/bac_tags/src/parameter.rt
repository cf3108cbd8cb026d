//! From what a reader of an element answers to what a parameter is.

ghost use Rattle.std.specs.Prelude.{◌≡◌};
ghost use Rattle.bac_tags.specs.ParameterReadingSteps.{or_invalid, required, optional, nothing_follows};

use crate::TagFault;
use crate::malformed::{Malformed, invalid_tag, missing_parameter, too_many_arguments};

/// What a reader of elements refuses is no parameter, which begins at a place.
pub fn or_invalid<T: Drop>(at: usize, read: Result<T, TagFault>) -> Result<T, Malformed>
    ensures exact { result ≡ or_invalid at read }
{
    match read {
        Ok(found) => Ok(found),
        Err(_) => Err(invalid_tag(at)),
    }
}

/// A parameter that has to stand at a place, where `read` is what the reader of its element answers there. It is
/// missing where the octets end.
pub fn required<T: Drop>(input: &[u8], at: usize, read: Result<T, TagFault>) -> Result<T, Malformed>
    ensures exact { result ≡ required input.now at read }
{
    if at >= input.len() {
        return Err(missing_parameter(input.len()));
    }
    or_invalid(at, read)
}

/// A parameter that may stand at a place, where `read` is what the reader of its element answers there. It is absent
/// where the octets end, or where another whole tag stands.
pub fn optional<T: Drop>(
    input: &[u8],
    at: usize,
    read: Result<(T, usize), TagFault>,
) -> Result<(Option<T>, usize), Malformed>
    ensures exact { result ≡ optional input.now at read }
{
    if at >= input.len() {
        return Ok((None, at));
    }
    match read {
        Ok((found, after)) => Ok((Some(found), after)),
        Err(TagFault::WrongTag { at: other }) if other == at => Ok((None, at)),
        Err(_) => Err(invalid_tag(at)),
    }
}

/// The last parameter ends at a place, and so do the octets.
pub fn nothing_follows(input: &[u8], at: usize) -> Result<(), Malformed>
    ensures exact { result ≡ nothing_follows input.now at }
{
    if at < input.len() {
        return Err(too_many_arguments(at));
    }
    Ok(())
}
