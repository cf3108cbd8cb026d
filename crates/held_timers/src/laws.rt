//! The law of the least moment.

ghost use Rattle.held_timers.specs.Laws.{LeastTellsWhetherDue};

/// The least due moment tells whether some index is due at a moment.
pub fn least_tells_whether_due()
    ensures law { LeastTellsWhetherDue }
{}
