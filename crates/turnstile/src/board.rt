//! The walk of a seat through its turn, over the turnstile's table: word 0 counts the tickets that were
//! drawn, word 1 is the length of the history, which is the ticket that is served, and word 2 is the mark.
//! Slot 0 has the value.

ghost use Rattle.std.specs.Prelude.{◌≡◌, [], ◌∷◌, ◌++◌, length, ◌+◌, ◌^◌, ◌<◌, Some};
ghost use Rattle.turnstile.specs.declared.view.Stage.TheVariants.{Idle, Waits};
ghost use Rattle.turnstile.specs.Histories.{StartsWith, IsOnce};
ghost use Rattle.turnstile.specs.Passes.{Sees};
ghost use Rattle.turnstile.specs.ViewSteps.{IsBoard, own_number, of_view, at_stage, after_call, heard, joined, IsHolding};
ghost use Rattle.turnstile.specs.Steps.{Turned};

use crate::bell::{Bell, Bells};
use crate::chronicle::Chronicle;
use crate::memo::noted_of;
use crate::steps::{Draw, Look, Merge, PassOn, Settle};
use crate::view::{Place, Ruling, View, value_in};
use atomic_table::{Seat, Shared};
use noted::Noted;
use std::sync::Wait;

/// A seat at a turnstile's table.
pub type SeatOf<T> = Seat<
    Place<T, <T as Chronicle>::Entry>,
    View<<T as Chronicle>::Entry, <T as Chronicle>::Origin>,
>;

/// A turnstile's table.
pub type Board<T> = Shared<
    Place<T, <T as Chronicle>::Entry>,
    View<<T as Chronicle>::Entry, <T as Chronicle>::Origin>,
    Noted<T>,
    Ruling<T>,
>;

/// Draws the next ticket. Once 2^64 - 1 tickets were drawn there is none, and it sleeps for good.
pub fn draw_ticket<T: Chronicle, R: Wait>(rt: &R, board: &Board<T>, seat: &mut SeatOf<T>) -> u64
    requires board { IsBoard board.now.table_id }
    requires seat { seat.old.table_id ≡ board.now.table_id }
    requires idle { seat.old.me.0.stage ≡ Idle }
    ensures table { seat.new.table_id ≡ seat.old.table_id }
    ensures drawn { seat.new.me ≡ (at_stage seat.old.me.0 (Waits result), seat.old.me.1) }
{
    for _ in rt.forever() {
        let next = board.peek(0);
        if next < u64::MAX {
            let found = board.compare_exchange::<Draw>(seat, 0, next, next + 1);
            if found == next {
                return next;
            }
        } else {
            board.park(rt, 0, u32::MAX);
        }
    }
    unreachable!()
}

/// Waits until the ticket is served, and takes the slot.
pub fn await_turn<T: Chronicle, R: Wait>(
    rt: &R,
    board: &Board<T>,
    bell: &Bell,
    seat: &mut SeatOf<T>,
    ticket: u64,
)
    requires board { IsBoard board.now.table_id }
    requires seat { seat.old.table_id ≡ board.now.table_id }
    requires empty { seat.old.me.1 ≡ [] }
    requires waits { seat.old.me.0.stage ≡ Waits ticket }
    ensures table { seat.new.table_id ≡ seat.old.table_id }
    ensures turned { Turned T.stands T.origin T.licenses seat.old.me.0 ticket seat.new.me }
{
    let mut looks = 0;
    for _ in rt.forever() {
        let rings = bell.rings();
        let served = board.load::<Look<T>>(seat, 1);
        if served == ticket {
            return;
        }
        looks = bell.rest(rt, rings, looks);
    }
    unreachable!()
}

/// Takes the turn. The answer is its ticket, and the value.
pub fn take_turn<T: Chronicle, R: Wait>(
    rt: &R,
    board: &Board<T>,
    bells: &Bells,
    seat: &mut SeatOf<T>,
) -> (u64, T)
    requires board { IsBoard board.now.table_id }
    requires seat { seat.old.table_id ≡ board.now.table_id }
    requires rest { (seat.old.me.1 ≡ []) × (seat.old.me.0.stage ≡ Idle) × (0 < length seat.old.me.0.calls) }
    ensures table { seat.new.table_id ≡ seat.old.table_id }
    ensures holds { IsHolding seat.new.me }
    ensures sees { Sees T.licenses (of_view seat.old.table_id seat.old.me.0) (of_view seat.new.table_id seat.new.me.0) }
    ensures ticket { (result.0 ≡ length seat.new.me.0.seen) × (result.0 + 1 < 2 ^ 64) }
    ensures value { T.stands result.1 seat.new.me.0.seen }
    ensures origin { (first : T.Origin) → seat.old.me.0.origin ≡ Some first → T.origin result.1 ≡ first }
{
    let ticket = draw_ticket(rt, board, seat);
    await_turn(rt, board, bells.of(ticket), seat, ticket);
    (ticket, value_in(board.exchange(seat, 0, Place::Empty)))
}

/// Gives the turn back with one more entry, and rings the bell of the next ticket.
pub fn give_turn<T: Chronicle>(
    board: &Board<T>,
    bells: &Bells,
    seat: &mut SeatOf<T>,
    value: T,
    entry: &T::Entry,
)
    requires board { IsBoard board.now.table_id }
    requires seat { seat.old.table_id ≡ board.now.table_id }
    requires holds { IsHolding seat.old.me }
    requires value { T.stands value (seat.old.me.0.seen ++ (own_number seat.old.me.0.calls, entry.now) ∷ []) }
    requires origin { T.origin value ≡ T.origin board.now.key.value }
    ensures table { seat.new.table_id ≡ seat.old.table_id }
    ensures given { seat.new.me ≡ (after_call seat.old.me.0 entry.now, []) }
{
    let place = Place::Given(value, noted_of(entry));
    let was = board.exchange(seat, 0, place);
    let Place::Empty = was else { unreachable!() };
    let served = board.fetch_add::<PassOn>(seat, 1, 1);
    bells.of(served.wrapping_add(1)).ring();
}

/// Takes in what another seat tells, and the calls that it has.
pub fn take_in<T: Chronicle>(board: &Board<T>, seat: &mut SeatOf<T>, other: SeatOf<T>)
    requires board { IsBoard board.now.table_id }
    requires seat { seat.old.table_id ≡ board.now.table_id }
    requires other { other.table_id ≡ board.now.table_id }
    requires empty { (seat.old.me.1 ≡ []) × (other.me.1 ≡ []) }
    requires idle { (seat.old.me.0.stage ≡ Idle) × (other.me.0.stage ≡ Idle) }
    ensures table { seat.new.table_id ≡ seat.old.table_id }
    ensures heard { seat.new.me ≡ (heard (joined seat.old.me.0 other.me.0), []) }
    ensures one { StartsWith seat.new.me.0.seen seat.old.me.0.seen }
    ensures other { StartsWith seat.new.me.0.seen other.me.0.seen }
    ensures once { IsOnce seat.new.me.0.calls }
{
    board.join_seat::<Merge>(seat, other);
    board.load::<Settle>(seat, 0);
}
