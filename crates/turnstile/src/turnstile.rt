//! The turnstile and its calls.

ghost use Rattle.std.specs.Prelude.{◌≡◌, [], ◌∷◌, ◌++◌, IfOk, IfErr, IsOkAnd, length, ◌+◌, ◌^◌, ◌<◌, ◌≤◌, max};
ghost use Rattle.turnstile.specs.Histories.{times, Licensed};
ghost use Rattle.turnstile.specs.Passes.{IsOf, Sees, Joins, IsNewFrom, all_calls, with_entry, first_pass};

use crate::bell::Bells;
use crate::board::{give_turn, take_in, take_turn};
use crate::chronicle::Chronicle;
use crate::memo::noted_of;
use crate::no_memory::NoMemory;
use crate::pass::{Holding, Pass, Turn};
use crate::steps::{Close, LoadMark, Name, Part, Raise};
use crate::view::{Place, Ruling, View, value_in};
use atomic_table::{Refused, Table};
use noted::Noted;
use std::alloc::Global;
use std::marker::Model;
use std::sync::Wait;

/// A lock round a value that stands for the history of all turns.
///
/// Contracts see it as an `Identity` of `specs/Passes.antt`: which turnstile it is, and the origin of its
/// value. Passes are of the turnstile that they came from.
#[derive(Drop)]
pub struct Turnstile<T: Chronicle> {
    table: Table<Place<T, T::Entry>, View<T::Entry, T::Origin>, Noted<T>, Ruling<T>, Global>,
    bells: Bells,
}

impl<T: Chronicle> Model for Turnstile<T> {
    ghost use Rattle.turnstile.specs.Passes.{Identity};
    ghost use Rattle.turnstile.specs.ViewSteps.{IsBoard};

    ghost Value = { Identity T.Origin };

    ghost view = { λ t. record { table = t.table.shared.table_id; origin = T.origin t.table.shared.key.value } };

    ghost invariant = { λ t. IsBoard t.table.shared.table_id };
}

impl<T: Chronicle> Turnstile<T> {
    /// A turnstile round a value that stands for the empty history, and its first pass, which has made and
    /// seen nothing. The value's origin is the turnstile's from now on. Where there is no memory the value
    /// comes back.
    pub fn open(
        alloc: Global,
        value: T,
    ) -> Result<(Turnstile<T>, Pass<T::Entry, T::Origin>), (T, NoMemory)>
        requires { T.stands value [] }
        ensures origin { IfOk result (λ opened. opened.0.origin ≡ T.origin value) }
        ensures first { IfOk result (λ opened. opened.1 ≡ first_pass opened.0) }
        ensures refused { IfErr result (λ back. back.0 ≡ value) }
    {
        let about = noted_of(&value);
        let mut slots = match Vec::with_capacity(alloc, 1) {
            Ok(slots) => slots,
            Err(failed) => return Err((value, NoMemory::from(failed))),
        };
        slots.push_reserved(Place::Held(value));
        match Table::new(alloc, &[0, 0, 0], slots, &about) {
            Ok((table, seat)) => Ok((
                Turnstile {
                    table,
                    bells: Bells::new(),
                },
                Pass {
                    badge: seat.into_badge(),
                },
            )),
            Err(refused) => {
                let Refused { slots: mut back } = refused;
                let value = match back.pop() {
                    Some(place) => value_in(place),
                    None => unreachable!(),
                };
                back.destroy_empty();
                Err((value, NoMemory))
            }
        }
    }

    /// Takes a turn, once those with earlier tickets have given theirs. The pass has then seen the whole
    /// history: it begins with all that the pass had seen, and under each number that the pass has or
    /// carries it has just the calls beside that number, and nothing else where the pass is whole. It takes
    /// no memory, and sleeps while it waits.
    pub fn take<R: Wait>(&self, rt: &R, pass: Pass<T::Entry, T::Origin>) -> Turn<T>
        requires { IsOf self.now pass }
        ensures sees { Sees T.licenses pass result.pass }
        ensures place { result.place ≡ length result.pass.seen + 1 }
        ensures room { length result.pass.seen + 1 < 2 ^ 64 }
        ensures value { T.stands result.value result.pass.seen }
        ensures origin { T.origin result.value ≡ self.now.origin }
    {
        let Pass { badge } = pass;
        let mut seat = badge.into_seat();
        let (ticket, value) = take_turn(rt, &self.table.shared, &self.bells, &mut seat);
        Turn {
            pass: Holding { seat },
            place: ticket + 1,
            value,
        }
    }

    /// Gives the turn back. The entry joins the history under the pass's number, and the pass's own calls.
    /// The value has to stand for the history with that entry. It never waits, and takes no memory.
    pub fn give(&self, turn: Turn<T>, entry: &T::Entry) -> Pass<T::Entry, T::Origin>
        requires here { IsOf self.now turn.pass }
        requires value { T.stands turn.value (turn.pass.seen ++ (turn.pass.number, entry.now) ∷ []) }
        requires origin { T.origin turn.value ≡ self.now.origin }
        ensures { result ≡ with_entry turn.pass entry.now }
    {
        let Turn {
            pass,
            place: _,
            value,
        } = turn;
        let Holding { mut seat } = pass;
        give_turn(&self.table.shared, &self.bells, &mut seat, value, entry);
        Pass {
            badge: seat.into_badge(),
        }
    }

    /// The pass as it was, but that one more was split off from it, and that new one, which has seen the
    /// same. The new one has another number, has made no call and carries none. It wants no memory, so the
    /// answer is always `Ok`.
    pub fn split(
        &self,
        pass: Pass<T::Entry, T::Origin>,
    ) -> Result<
        (Pass<T::Entry, T::Origin>, Pass<T::Entry, T::Origin>),
        (Pass<T::Entry, T::Origin>, NoMemory),
    >
        requires { IsOf self.now pass }
        ensures same { IsOkAnd result (λ both. both.0 ≡ record pass { split_off = both.1.number ∷ pass.split_off }) }
        ensures new { IsOkAnd result (λ both. IsNewFrom pass both.1) }
        ensures other { IsOkAnd result (λ both. times both.1.number (all_calls pass) ≡ 0) }
    {
        let Pass { badge } = pass;
        let mut seat = badge.into_seat();
        self.table.shared.load::<Name>(&mut seat, 0);
        let fresh = self.table.shared.split_seat::<Part>(&mut seat);
        let same = Pass {
            badge: seat.into_badge(),
        };
        let new = Pass {
            badge: fresh.into_badge(),
        };
        Ok((same, new))
    }

    /// One pass of two. It has seen what both had seen, and carries the number and the calls of the ended
    /// one beside those that both carried. What was split off from either was split off from it. It takes no
    /// memory.
    pub fn join(
        &self,
        keep: Pass<T::Entry, T::Origin>,
        ended: Pass<T::Entry, T::Origin>,
    ) -> Pass<T::Entry, T::Origin>
        requires keep { IsOf self.now keep }
        requires ended { IsOf self.now ended }
        ensures { Joins keep ended result }
    {
        let Pass { badge } = keep;
        let Pass { badge: other } = ended;
        let mut seat = badge.into_seat();
        let other = other.into_seat();
        take_in(&self.table.shared, &mut seat, other);
        Pass {
            badge: seat.into_badge(),
        }
    }

    /// Raises the mark to a number that the history which the pass has seen licenses, where the mark is
    /// below it. The mark is 0 at first and never falls; the pass knows from now on that it is at least
    /// this number. It takes no memory.
    pub fn raise_mark(&self, pass: Pass<T::Entry, T::Origin>, to: u64) -> Pass<T::Entry, T::Origin>
        requires here { IsOf self.now pass }
        requires licensed { Licensed T.licenses pass.seen to }
        ensures { result ≡ record pass { mark = max pass.mark to } }
    {
        let Pass { badge } = pass;
        let mut seat = badge.into_seat();
        self.table.shared.fetch_max::<Raise>(&mut seat, 2, to);
        Pass {
            badge: seat.into_badge(),
        }
    }

    /// Reads the mark, which isn't below what the pass knew of it. It takes no memory.
    pub fn load_mark(&self, pass: Pass<T::Entry, T::Origin>) -> (Pass<T::Entry, T::Origin>, u64)
        requires { IsOf self.now pass }
        ensures known { pass.mark ≤ result.1 }
        ensures mark { result.0 ≡ record pass { mark = result.1 } }
    {
        let Pass { badge } = pass;
        let mut seat = badge.into_seat();
        let mark = self.table.shared.load::<LoadMark>(&mut seat, 2);
        let pass = Pass {
            badge: seat.into_badge(),
        };
        (pass, mark)
    }

    /// Ends the turnstile. The turn is never given back, and the answer is its value. It never waits, and
    /// takes no memory.
    pub fn close(self, turn: Turn<T>) -> T
        requires { IsOf self turn.pass }
        ensures { result ≡ turn.value }
    {
        let Turn {
            pass,
            place: _,
            value,
        } = turn;
        let Holding { mut seat } = pass;
        let Turnstile { table, bells: _ } = self;
        table.shared.load::<Close>(&mut seat, 0);
        let mut closed = table.close_with(seat);
        let last = closed.take(0);
        let Place::Empty = last else { unreachable!() };
        closed.free();
        value
    }
}
