//! How many evaluations a call made, for contracts alone.

ghost use Rattle.std.specs.Prelude.{◌≡◌};

use event_machine::Steps;
use noted::Noted;
use std::sync::ledger::Ledger;

/// How many evaluations a call made. It has no bytes: contracts alone see the number, by the field `value`.
pub type EvaluationCount = Noted<u64>;

/// Those that a ledger has counted.
pub fn counted_in<L: Ledger>(steps: &Steps<L>) -> EvaluationCount
    ensures count { result.value ≡ steps.now }
{
    Noted::picked(steps)
}

/// None at all.
pub fn none_counted() -> EvaluationCount
    ensures count { result.value ≡ 0 }
{
    Noted::picked(&())
}
