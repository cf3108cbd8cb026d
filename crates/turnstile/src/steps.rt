//! The kinds of atomic step. Each is a type without values: `specs/Steps.antt` says what such a step tells
//! the seat that makes it.

use crate::chronicle::Chronicle;
use crate::view::{Place, View};
use atomic_table::{Join, Play, Split};
use std::marker::PhantomData;

/// The next ticket is drawn, if the number of tickets was the expected one.
pub struct Draw;

impl<T, E, O> Play<Place<T, E>, View<E, O>> for Draw {
    ghost use Rattle.turnstile.specs.Steps.{Drew};

    ghost then = { Drew };
}

/// A look at the ticket that is served. It takes the slot where the ticket is the seat's own.
///
/// A kind of step cannot read what the turnstile keeps of its value, so this one tells of it by the origin
/// that the seat knows.
pub struct Look<T> {
    of: PhantomData<T>,
}

impl<T: Chronicle> Play<Place<T, T::Entry>, View<T::Entry, T::Origin>> for Look<T> {
    ghost use Rattle.turnstile.specs.Steps.{Looked};

    ghost then = { Looked T.stands T.origin T.licenses };
}

/// The turn passes on, the slot goes back, and the entry beside its value joins the history.
pub struct PassOn;

impl<T, E, O> Play<Place<T, E>, View<E, O>> for PassOn {
    ghost use Rattle.turnstile.specs.Steps.{PassedOn};

    ghost then = { PassedOn };
}

/// A seat comes to a further number, which no seat and no entry has.
pub struct Name;

impl<T, E, O> Play<Place<T, E>, View<E, O>> for Name {
    ghost use Rattle.turnstile.specs.Steps.{Named};

    ghost then = { Named };
}

/// A seat takes in what it was told.
pub struct Settle;

impl<T, E, O> Play<Place<T, E>, View<E, O>> for Settle {
    ghost use Rattle.turnstile.specs.Steps.{Settled};

    ghost then = { Settled };
}

/// The mark rises to a number, where it is below it.
pub struct Raise;

impl<T, E, O> Play<Place<T, E>, View<E, O>> for Raise {
    ghost use Rattle.turnstile.specs.Steps.{Raised};

    ghost then = { Raised };
}

/// The mark is read.
pub struct LoadMark;

impl<T, E, O> Play<Place<T, E>, View<E, O>> for LoadMark {
    ghost use Rattle.turnstile.specs.Steps.{Loaded};

    ghost then = { Loaded };
}

/// The turn ends with nobody after it, and the empty slot goes back.
pub struct Close;

impl<T, E, O> Play<Place<T, E>, View<E, O>> for Close {
    ghost use Rattle.turnstile.specs.Steps.{Closed};

    ghost then = { Closed };
}

/// The number in front is split off a seat, with all that the seat has seen.
pub struct Part;

impl<E, O> Split<View<E, O>> for Part {
    ghost use Rattle.turnstile.specs.ViewSteps.{left_of, right_of};

    ghost left = { left_of };

    ghost right = { right_of };
}

/// A seat is joined to another.
pub struct Merge;

impl<E, O> Join<View<E, O>> for Merge {
    ghost use Rattle.turnstile.specs.ViewSteps.{joined, nobody};

    ghost both = { joined };

    ghost spent = { nobody };
}
