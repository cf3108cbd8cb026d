//! Which destinations are equal.

ghost use Rattle.std.specs.Prelude.{◌≡◌, ◌==◌, ◌&&◌, ◌↔◌, IsTrue};
ghost use Rattle.std.specs.List.{list_all, zip};
ghost use Rattle.std.specs.Bool.{beq};
ghost use lib.Pointwise.{pointwise};
ghost use Rattle.bac_values.specs.Orders.{is_same};
ghost use Rattle.list_binding.specs.Edits.{are_same, is_equal, is_in};

use notify_class::Destination;

// Whether both have the same days and the same times of day.
fn have_one_window(one: &Destination, other: &Destination) -> bool
    ensures equal { result ≡ (one.now.days == other.now.days && (one.now.from == other.now.from && one.now.to == other.now.to)) }
{
    one.days == other.days && one.from == other.from && one.to == other.to
}

// Whether both have the same peer and the same process.
fn have_one_recipient(one: &Destination, other: &Destination) -> bool
    ensures equal { result ≡ (is_same one.now.peer other.now.peer && one.now.process == other.now.process) }
{
    one.peer.is_same(&other.peer) && one.process == other.process
}

// Whether both are confirmed or neither is, and both are for the same transitions.
fn have_one_kind(one: &Destination, other: &Destination) -> bool
    ensures equal { result ≡ (beq one.now.confirmed other.now.confirmed && pointwise beq one.now.transitions other.now.transitions) }
{
    one.confirmed == other.confirmed && one.transitions == other.transitions
}

/// Whether all parts of two destinations are equal.
pub(crate) fn is_equal(one: &Destination, other: &Destination) -> bool
    ensures equal { result ≡ is_equal one.now other.now }
{
    have_one_window(one, other) && have_one_recipient(one, other) && have_one_kind(one, other)
}

/// Whether one of a list is equal to an element.
pub(crate) fn is_in(list: &[Destination], element: &Destination) -> bool
    ensures in_list { result ≡ is_in list.now element.now }
{
    list.iter().any(|other| is_equal(element, other))
}

// Whether all pairs of two lists are equal.
fn are_pairs(list: &[Destination], others: &[Destination]) -> bool
    ensures pairs { result ≡ list_all (λ pair. is_equal pair.0 pair.1) (zip list.now others.now) }
{
    list.iter()
        .zip(others.iter())
        .all(|(one, other)| is_equal(one, other))
}

/// Whether two lists are the same: as long as each other, and equal one by one.
pub fn are_same(list: &[Destination], others: &[Destination]) -> bool
    ensures same { result ≡ are_same list.now others.now }
    ensures equal { IsTrue result ↔ (list.now ≡ others.now) }
{
    list.len() == others.len() && are_pairs(list, others)
}
