//! The laws that going on from point to point is looking back, and that what isn't evaluated stays.

ghost use Rattle.event_machine.specs.Laws.{KeepsCourse, LooksAreSkipped, RunStartTellsHeld, RunsGoOn, TellsHeld};
ghost use Rattle.event_machine.specs.Since.{HoldsSinceEntry, KeepsPointsSince};

/// The alarm that goes on from look to look is what looking back over the course gives, and so are the runs in it.
pub fn keeps_course()
    ensures course { KeepsCourse }
    ensures runs { RunsGoOn }
{}

/// The test of a rule says whether it is held. No point before the object entered its state, or before it was last seen
/// inhibited, counts for it; and the moment from which on its condition has held says as much.
pub fn holds_since_entry()
    ensures test { TellsHeld }
    ensures points { KeepsPointsSince }
    ensures start { HoldsSinceEntry }
    ensures run_start { RunStartTellsHeld }
{}

/// An object that is settled needs no look before it is due: nothing would come of one. A look when it is due makes a move,
/// and each look settles the object.
pub fn looks_are_skipped()
    ensures law { LooksAreSkipped }
{}
