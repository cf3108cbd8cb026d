//! Windows of the week, and edits of a list.

ghost use Rattle.notify_class.specs.Recipients.{IsListedRecipient};

// Each wanted answer at a moment was computed by Python's datetime.
use crate::comparing::{holds, same};
use bac_values::{Items, Peer, Transition};
use civil_stamp::{LocalMoment, Zone};
use notify_class::{Class, Destination, EditFault, check_edit, chosen, uses, uses_at};
use std::test::Fail;

/// 2023-11-13, a Monday, at 08:00:00.000 UTC.
const MONDAY_AT_EIGHT: u64 = 1_699_862_400_000;

const EIGHT: u32 = 2_880_000;

const NINE: u32 = 3_240_000;

fn destination(ip: u32, days: u8, from: u32, to: u32) -> Destination
    requires { IsListedRecipient days from to }
{
    Destination {
        days,
        from,
        to,
        peer: Peer::local(ip, 47_808),
        process: 0,
        confirmed: true,
        transitions: [true, true, false],
    }
}

#[test]
fn includes_both_ends_of_a_window(rt: HostRuntime) -> Result<(), Fail> {
    let zone = Zone::fixed(0)?;
    let instant = destination(1, 1, EIGHT, EIGHT);
    let off = Transition::ToOffnormal;
    holds(&rt, uses(&instant, off, MONDAY_AT_EIGHT, &zone));
    holds(&rt, uses(&instant, off, MONDAY_AT_EIGHT + 9, &zone));
    holds(&rt, !uses(&instant, off, MONDAY_AT_EIGHT + 10, &zone));
    holds(&rt, !uses(&instant, off, MONDAY_AT_EIGHT - 1, &zone));
    holds(
        &rt,
        !uses(&instant, Transition::ToNormal, MONDAY_AT_EIGHT, &zone),
    );
    Ok(())
}

#[test]
fn a_window_with_its_ends_exchanged_is_empty(rt: HostRuntime) -> Result<(), Fail> {
    let zone = Zone::fixed(0)?;
    let empty = destination(1, 1, NINE, EIGHT);
    let off = Transition::ToOffnormal;
    holds(&rt, !uses(&empty, off, MONDAY_AT_EIGHT, &zone));
    holds(&rt, !uses(&empty, off, MONDAY_AT_EIGHT + 9, &zone));
    holds(&rt, !uses(&empty, off, MONDAY_AT_EIGHT + 10, &zone));
    Ok(())
}

#[test]
fn the_weekday_is_the_zones(rt: HostRuntime) -> Result<(), Fail> {
    // Sixteen hours later it is Tuesday, 2023-11-14, at 00:00:00.00 in UTC, and still Monday a minute west of it.
    let midnight = MONDAY_AT_EIGHT + 57_600_000;
    let tuesdays = destination(1, 2, 0, 8_639_999);
    holds(
        &rt,
        uses(&tuesdays, Transition::ToFault, midnight, &Zone::fixed(0)?),
    );
    holds(
        &rt,
        !uses(&tuesdays, Transition::ToFault, midnight, &Zone::fixed(-1)?),
    );
    Ok(())
}

#[test]
fn the_time_of_day_is_the_zones(rt: HostRuntime) -> Result<(), Fail> {
    // An hour east of UTC it is nine o'clock.
    let at = LocalMoment::new(MONDAY_AT_EIGHT, &Zone::fixed(60)?);
    let off = Transition::ToOffnormal;
    holds(&rt, uses_at(&destination(1, 1, NINE, NINE), off, &at));
    holds(&rt, !uses_at(&destination(1, 1, EIGHT, EIGHT), off, &at));
    Ok(())
}

#[test]
fn chooses_in_the_order_of_the_list(rt: HostRuntime) -> Result<(), Fail> {
    let zone = Zone::fixed(0)?;
    let mut list = Vec::new(rt.alloc());
    list.push(destination(1, 1, EIGHT, NINE))?;
    list.push(destination(2, 2, EIGHT, NINE))?;
    list.push(destination(3, 1, 0, NINE))?;
    let class = Class {
        instance: 7,
        priority: [10, 20, 30],
        ack_required: [true, true, false],
        destinations: Items::of(list),
    };
    let off = Transition::ToOffnormal;
    same(
        &rt,
        &chosen(&class, off, MONDAY_AT_EIGHT, &zone, 0),
        &Some(0),
    );
    same(
        &rt,
        &chosen(&class, off, MONDAY_AT_EIGHT, &zone, 1),
        &Some(2),
    );
    same(&rt, &chosen(&class, off, MONDAY_AT_EIGHT, &zone, 3), &None);
    same(&rt, &chosen(&class, off, MONDAY_AT_EIGHT, &zone, 4), &None);
    Ok(())
}

#[test]
fn an_edit_keeps_the_limits(rt: HostRuntime) -> Result<(), Fail> {
    let known = [Peer::local(2, 47_808)];
    let list = [
        destination(1, 1, 0, 1),
        destination(2, 1, 0, 1),
        destination(1, 1, 0, 1),
    ];
    same(&rt, &check_edit(&known, &list, 3, 9), &Ok(()));
    same(
        &rt,
        &check_edit(&known, &list, 3, 8),
        &Err(EditFault::TooManyNotes { would: 9 }),
    );
    let longer = [destination(1, 1, 0, 1); 33];
    same(
        &rt,
        &check_edit(&known, &longer, 3, 8),
        &Err(EditFault::TooMany { count: 33 }),
    );
    Ok(())
}
