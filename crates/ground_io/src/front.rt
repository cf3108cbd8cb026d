//! Octets are copied to the front of a slice.

ghost use Rattle.std.specs.Prelude.{◌≡◌, drop, take, min, length};

/// Copies as many octets as fit to the front of a slice, and says how many. Behind them the slice is as it was.
pub fn copy_front(octets: &[u8], into: &mut [u8]) -> usize
    ensures count { result ≡ min (length octets.now) (length into.old) }
    ensures copied { take result into.new ≡ take result octets.now }
    ensures behind { drop result into.new ≡ drop result into.old }
{
    let count = octets.len().min(into.len());
    into[..count].copy_from_slice(&octets[..count]);
    count
}
