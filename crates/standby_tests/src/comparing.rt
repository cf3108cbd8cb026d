// This file stands in each crate of tests, letter for letter the same: the kit lets nothing but a test stop a program, so no
// crate can hold it for them all. `checks/levels` sees that none of them differs.
ghost use Rattle.std.specs.Prelude.{◌≡◌, IsTrue};

use std::fmt::Debug;
use std::process::Abort;

/// That what was answered is what was wanted. A test that calls this is proved in a fraction of the time of one that
/// asserts by itself, whose every `assert_eq!` is a branch that carries all that the test holds.
pub(crate) fn same<T: PartialEq + Debug>(rt: &impl Abort, answered: &T, wanted: &T) {
    assert_eq!(rt; answered, wanted);
}

/// That this is so.
pub(crate) fn holds(rt: &impl Abort, it: bool)
    ensures so { IsTrue it }
{
    assert!(rt; it);
}

/// That there are so many; what comes behind may rest on that.
pub(crate) fn counts(rt: &impl Abort, found: usize, wanted: usize)
    ensures so_many { found ≡ wanted }
{
    assert_eq!(rt; found, wanted);
}
