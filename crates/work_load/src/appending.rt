//! A text is put behind octets.

ghost use Rattle.std.specs.Prelude.{◌≡◌, ◌++◌, OnOk};

use bac_values::NoMemory;

/// Puts a text behind the octets.
pub fn append(octets: &mut Vec<u8>, text: &str) -> Result<(), NoMemory>
    ensures appended { OnOk result (octets.new.items ≡ octets.old.items ++ text.now) }
{
    octets.extend_from_slice(text.as_bytes())?;
    Ok(())
}
