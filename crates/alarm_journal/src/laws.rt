//! The laws of what an image opens to.

ghost use Rattle.alarm_journal.specs.Laws.{IsComputed, OpensOnce};

/// For each site each image opens to one content, or is refused for one fault.
pub fn images_open_once()
    ensures once { OpensOnce }
{}

/// What is computed of an image is what the rules of a journal say.
pub fn openings_are_computed()
    ensures computed { IsComputed }
{}
