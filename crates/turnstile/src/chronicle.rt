//! What a value under a turnstile stands for.

/// A value that stands for a history: the list of the entries so far, each beside the number of the pass
/// that made it. The numbers are seen by contracts alone.
pub trait Chronicle {
    ghost use Rattle.std.specs.Prelude.{◌≡◌, ℕ, List, ◌++◌};

    /// What one turn adds to the history.
    type Entry;

    /// What a value keeps for good, as the state that it was opened with. Contracts alone see it.
    type Origin;

    /// The histories that a value stands for.
    ghost stands: { Self → List (ℕ × Self.Entry) → Type 0 };

    /// What the value keeps for good.
    ghost origin: { Self → Self.Origin };

    /// The marks that a history licenses.
    ghost licenses: { List (ℕ × Self.Entry) → ℕ → Type 0 };

    /// What a history licenses, every history that begins with it licenses.
    ghost licenses_more: { (log more : List (ℕ × Self.Entry)) (to : ℕ) → licenses log to → licenses (log ++ more) to };
}
