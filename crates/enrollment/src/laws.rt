//! The laws of what is taken, and of who sees a change.

ghost use Rattle.enrollment.specs.Laws.{TakesWhatWritesMake, WatchersAreAllThatRefer};

/// Enrollments take a property's value exactly where a write of it, without an index, is answered with no error.
pub fn takes_what_writes_make()
    ensures writes { TakesWhatWritesMake }
{}

/// A change of an object is seen by nobody but itself and the enrollments that refer to it, which are its watchers.
pub fn watchers_are_all_that_refer()
    ensures law { WatchersAreAllThatRefer }
{}
