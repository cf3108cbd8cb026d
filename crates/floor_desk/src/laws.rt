//! A law of a floor's definitions, the contract of a call that does nothing.

ghost use Rattle.std.specs.Prelude.{ℕ, List, reverse};
ghost use Rattle.alarm_core.specs.State.{CoreState};
ghost use Rattle.alarm_journal.specs.Press.{PressState};
ghost use Rattle.floor_desk.specs.declared.entry.Entry.{Entry as Step};
ghost use Rattle.floor_desk.specs.Accounts.{account};
ghost use Rattle.floor_desk.specs.LookingBack.{IsLookedBack};

use ground_io::Ground;

/// Going on from entry to entry gives what looking back over the whole history gives: the state, the events in their order,
/// what is owed and what is pending, which event is the last that is written, the loan that is open, and the place at which
/// the press was lost.
pub fn accounts_look_back<G: Ground>()
    ensures law { (origin : CoreState × PressState G) (history : List (ℕ × Step G)) → IsLookedBack origin (reverse history) (account origin history) }
{}
