//! What lies in the turnstile's slot, what a seat of its table knows, and the rule of the table. No caller
//! sees these types.

ghost use Rattle.turnstile.specs.RuleSteps.{IsFull, Contains};

use crate::chronicle::Chronicle;
use atomic_table::TableRule;
use noted::Noted;
use std::collections::LinkedList;
use std::marker::PhantomData;

/// How far a seat has come to its turn, with its ticket.
pub enum Stage {
    /// It has no ticket.
    Idle,
    /// It waits for its turn.
    Waits(u64),
    /// It has the turn.
    Within(u64),
    /// It has the turn, and nobody has one after it.
    Shut(u64),
}

/// What the slot holds.
#[derive(Drop)]
pub enum Place<T, E> {
    /// Nothing: the value is in the hand of the seat whose turn it is.
    Empty,
    /// The value as it was opened.
    Held(T),
    /// The value as it was given back, beside the last entry, which the proof alone reads.
    Given(T, Noted<E>),
}

/// What a seat knows. No value of this type is made.
pub struct View<E, O> {
    /// What the turnstile's value keeps for good.
    pub origin: Option<O>,
    /// The seat's number and its own calls, then those that it carries.
    pub calls: LinkedList<(u64, LinkedList<E>)>,
    /// The numbers of the seats that were split off from it, or from those that were joined to it.
    pub split_off: LinkedList<u64>,
    /// The beginning of the history that it has seen.
    pub seen: LinkedList<(u64, E)>,
    /// The beginning of the history that it was told of, and hasn't taken in.
    pub told: LinkedList<(u64, E)>,
    /// The mark is at least this.
    pub mark: u64,
    /// How far it has come to its turn.
    pub stage: Stage,
}

/// The rule of a turnstile's table, which `specs/Rule.antt` states.
pub struct Ruling<T> {
    of: PhantomData<T>,
}

impl<T: Chronicle> TableRule<Place<T, T::Entry>, View<T::Entry, T::Origin>, Noted<T>>
    for Ruling<T> {
    ghost use Rattle.std.specs.Prelude.{◌≡◌};
    ghost use Rattle.turnstile.specs.ViewSteps.{newcomer};
    ghost use Rattle.turnstile.specs.RuleSteps.{Kept};

    ghost holds = { λ key. Kept T.stands T.origin (T.origin key.value) T.licenses };

    ghost first = { λ key. newcomer (T.origin key.value) 0 };
}

/// The value in a place.
pub fn value_in<T, E>(place: Place<T, E>) -> T
    requires { IsFull place }
    ensures { Contains place result }
{
    match place {
        Place::Empty => unreachable!(),
        Place::Held(value) => value,
        Place::Given(value, _) => value,
    }
}
