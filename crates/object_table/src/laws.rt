//! The law of what is taken.

ghost use Rattle.object_table.specs.Laws.{TakesWhatWritesMake};

/// A table takes a property's value exactly where a write of it, without an index, is answered with no error.
pub fn takes_what_writes_make()
    ensures writes { TakesWhatWritesMake }
{}
