//! What lies beside a value for the proof alone.
ghost use Rattle.std.specs.Prelude.{◌≡◌};

use noted::Noted;

/// A memo of what the reference shows. A client's entries and origins hold it where a history tells of a value that no
/// entry could keep.
pub fn noted_of<T>(shown: &T) -> Noted<T>
    ensures kept { result.value ≡ shown.now }
{
    Noted::picked(shown)
}
