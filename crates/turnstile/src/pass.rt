//! Who may take a turn, and who has it.

use crate::chronicle::Chronicle;
use crate::view::{Place, View};
use atomic_table::{Badge, Seat};
use std::marker::Model;

/// What one caller knows of a turnstile. It has no bytes.
///
/// Contracts see it as a `Known` of `specs/Passes.antt`: its number, the calls that it made, those that it
/// carries for passes that were joined to it, the numbers of the passes that were split off from it or
/// from those, the beginning of the history that it has seen, and a mark that the turnstile's mark has
/// reached.
#[derive(Drop)]
pub struct Pass<E, O> {
    pub(crate) badge: Badge<View<E, O>>,
}

impl<E, O> Model for Pass<E, O> {
    ghost use Rattle.turnstile.specs.Passes.{Known};
    ghost use Rattle.turnstile.specs.ViewSteps.{of_views, AreAtRest};

    ghost Value = { Known E O };

    ghost view = { λ pass. of_views pass.badge.table_id pass.badge.views };

    ghost invariant = { λ pass. AreAtRest pass.badge.views };
}

/// The pass of a caller that has the turn. Contracts see the same of it as of a [`Pass`]. It can't be
/// dropped.
pub struct Holding<T: Chronicle> {
    pub(crate) seat: Seat<Place<T, T::Entry>, View<T::Entry, T::Origin>>,
}

impl<T: Chronicle> Model for Holding<T> {
    ghost use Rattle.turnstile.specs.Passes.{Known};
    ghost use Rattle.turnstile.specs.ViewSteps.{of_view, IsHolding};

    ghost Value = { Known T.Entry T.Origin };

    ghost view = { λ pass. of_view pass.seat.table_id pass.seat.me.0 };

    ghost invariant = { λ pass. IsHolding pass.seat.me };
}

/// A turn: the lock is taken, and the value is in hand. It can't be dropped: a turn is given back, or ends
/// the turnstile.
pub struct Turn<T: Chronicle> {
    /// The pass that has the turn. It has seen the whole history.
    pub pass: Holding<T>,
    /// The place that this turn's entry will have in the history, counted from 1.
    pub place: u64,
    /// The value that the turnstile guards.
    pub value: T,
}
