//! What ties the book to the definitions in use, each the contract of a call that does nothing.

ghost use Rattle.book_laws.specs.CourseLaws.{HasCourseOfBook, HasMovesOfBook};
ghost use Rattle.book_laws.specs.NumberLaws.{HasBoundsOfCode, HasDatatypesOfCode, HasEnumerationsOfCode, HasErrorsOfCode, HasPropertiesOfCode};
ghost use Rattle.book_laws.specs.RecordLaws.{HasRecordsOfBook};
ghost use Rattle.book_laws.specs.ReliabilityLaws.{HasReliabilityOfBook};
ghost use Rattle.book_laws.specs.RuleLaws.{HasRulesOfBook};
ghost use Rattle.book_laws.specs.TimeLaws.{HasRecipientsOfBook, HasTimesOfBook, HasWindowsOfBook};

/// In each state each algorithm has the rules of the book, in their order: each leads to the same state, and whatever is seen has
/// the same key and the same delay.
pub fn rules_are_those_of_the_book()
    ensures rules { HasRulesOfBook }
{}

/// Each number of the standard in the book, of a state, a transition, a reliability, a type of objects or events, an error, a
/// datatype or a property, is the one that the code has by that name.
pub fn numbers_are_those_of_the_book()
    ensures enumerations { HasEnumerationsOfCode }
    ensures errors { HasErrorsOfCode }
    ensures datatypes { HasDatatypesOfCode }
    ensures properties { HasPropertiesOfCode }
    ensures bounds { HasBoundsOfCode }
{}

/// After every course of an object its state, the alarm value that led to it, its last reliability and the points that count for
/// its rules are those of the book, and so are the moves at each point, in their order.
pub fn courses_are_those_of_the_book()
    ensures course { HasCourseOfBook }
    ensures moves { HasMovesOfBook }
{}

/// After every history of a site the state of an object, and of each of its transitions the time stamp and whether it is
/// acknowledged, are what the book says: wherever the looks of the book are those of the code, so are what is kept of them.
pub fn records_are_those_of_the_book()
    ensures records { HasRecordsOfBook }
{}

/// What the clock of a zone shows of a moment in range, but for the date, is what the book says; whether a recipient is notified
/// then of a transition too; and so those of a list who are, in its order.
pub fn times_are_those_of_the_book()
    ensures times { HasTimesOfBook }
    ensures windows { HasWindowsOfBook }
    ensures recipients { HasRecipientsOfBook }
{}

/// The reliability of a value object that has the faults of its kind alone is what the book says, by its value, what the field
/// tells, and whether any is looked for.
pub fn reliabilities_are_those_of_the_book()
    ensures reliability { HasReliabilityOfBook }
{}
