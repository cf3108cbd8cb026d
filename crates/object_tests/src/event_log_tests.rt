//! Event logs, and ranges of them.

use crate::comparing::{holds, same};
use bac_values::{Items, Stamp};
use event_log::*;
use std::alloc::{AllocError, Global};
use std::process::Abort;
use std::test::Fail;

fn second(second: u8) -> Stamp {
    Stamp {
        octets: [123, 11, 14, 2, 22, 13, second, 0],
    }
}

// When that was at UTC: the 14th of November 2023, at 22:13 and so many seconds.
fn hundredths(second: u8) -> u64 {
    169_999_998_000 + u64::from(second) * 100
}

fn put(alloc: Global, log: &mut EventLog, at: u8) -> Result<(), AllocError> {
    log.record(second(at), hundredths(at), vec![in alloc; at]?);
    Ok(())
}

fn three_in_two(alloc: Global, stop_when_full: bool) -> Result<EventLog, Fail> {
    let mut log = EventLog::new(alloc, 2, stop_when_full, true)?;
    put(alloc, &mut log, 1)?;
    put(alloc, &mut log, 2)?;
    put(alloc, &mut log, 3)?;
    Ok(log)
}

fn range(first: u32, count: u32) -> LogRange {
    LogRange { first, count }
}

fn answers_for_three_in_two(rt: &impl Abort, log: &EventLog) {
    same(rt, &log.total(), &3);
    same(rt, &log.len(), &2);
    same(rt, &log.range_by_sequence(2, 2), &range(0, 2));
    same(rt, &log.range_by_position(3, 1), &range(0, 0));
    same(rt, &log.item(1).map(|entry| entry.sequence), &Some(3));
    holds(rt, log.item(2).is_none());
}

#[test]
fn the_oldest_record_goes(rt: HostRuntime) -> Result<(), Fail> {
    let log = three_in_two(rt.alloc(), false)?;
    answers_for_three_in_two(&rt, &log);
    Ok(())
}

#[test]
fn a_full_log_that_stops_takes_nothing(rt: HostRuntime) -> Result<(), Fail> {
    let log = three_in_two(rt.alloc(), true)?;
    same(&rt, &log.total(), &2);
    same(&rt, &log.item(0).map(|entry| entry.sequence), &Some(1));
    same(&rt, &log.item(1).map(|entry| entry.sequence), &Some(2));
    holds(&rt, log.enabled());
    Ok(())
}

/// A log of two that has the second and the third record.
fn restored(alloc: Global) -> Result<EventLog, Fail> {
    let mut records = Vec::new(alloc);
    records.push(LogRecord {
        stamp: second(2),
        hundredths: hundredths(2),
        sequence: 2,
        body: Items::of(vec![in alloc; 2u8]?),
    })?;
    records.push(LogRecord {
        stamp: second(3),
        hundredths: hundredths(3),
        sequence: 3,
        body: Items::of(vec![in alloc; 3u8]?),
    })?;
    Ok(EventLog::restore(alloc, 2, false, true, 3, records)?)
}

#[test]
fn a_restored_log_answers_as_before(rt: HostRuntime) -> Result<(), Fail> {
    let log = restored(rt.alloc())?;
    answers_for_three_in_two(&rt, &log);
    same(&rt, &log.item(0).map(|entry| entry.stamp), &Some(second(2)));
    holds(&rt, log.enabled());
    Ok(())
}

/// A log that isn't enabled takes no record, and the next one once it is again.
fn expect_enabled_and_not(rt: &impl Abort, alloc: Global, log: &mut EventLog) -> Result<(), Fail> {
    log.set_enabled(false);
    put(alloc, log, 4)?;
    same(rt, &log.item(1).map(|entry| entry.sequence), &Some(3));
    log.set_enabled(true);
    put(alloc, log, 5)?;
    same(rt, &log.item(1).map(|entry| entry.sequence), &Some(4));
    Ok(())
}

#[test]
fn a_restored_log_takes_records_while_it_is_enabled(rt: HostRuntime) -> Result<(), Fail> {
    expect_enabled_and_not(&rt, rt.alloc(), &mut restored(rt.alloc())?)
}

/// A log whose first record has the last number there is, and which took two more.
fn of_the_last_number(alloc: Global) -> Result<EventLog, Fail> {
    let record = LogRecord {
        stamp: second(1),
        hundredths: hundredths(1),
        sequence: u32::MAX,
        body: Items::of(Vec::new(alloc)),
    };
    let records = vec![in alloc; record]?;
    let mut log = EventLog::restore(alloc, 4, false, true, u32::MAX, records)?;
    put(alloc, &mut log, 2)?;
    put(alloc, &mut log, 3)?;
    Ok(log)
}

fn expect_numbers_from_1(rt: &impl Abort, log: &EventLog) {
    same(rt, &log.total(), &2);
    same(rt, &log.range_by_sequence(u32::MAX, 3), &range(0, 3));
    same(rt, &log.range_by_sequence(1, 5), &range(1, 2));
    same(rt, &log.range_by_sequence(2, -2), &range(1, 2));
    same(rt, &log.range_by_sequence(3, 1), &range(0, 0));
    same(rt, &log.range_by_sequence(0, 1), &range(0, 0));
}

#[test]
fn numbers_go_on_with_1(rt: HostRuntime) -> Result<(), Fail> {
    expect_numbers_from_1(&rt, &of_the_last_number(rt.alloc())?);
    Ok(())
}

/// A log of four records, of which two have the same time.
fn of_four(alloc: Global) -> Result<EventLog, Fail> {
    let mut log = EventLog::new(alloc, 8, false, true)?;
    put(alloc, &mut log, 1)?;
    put(alloc, &mut log, 3)?;
    put(alloc, &mut log, 3)?;
    put(alloc, &mut log, 5)?;
    Ok(log)
}

fn expect_positions(rt: &impl Abort, log: &EventLog) {
    same(rt, &log.range_by_position(0, 1), &range(0, 0));
    same(rt, &log.range_by_position(5, -1), &range(0, 0));
    same(rt, &log.range_by_position(1, 9), &range(0, 4));
    same(rt, &log.range_by_position(3, -2), &range(1, 2));
    same(rt, &log.range_by_position(2, -9), &range(0, 2));
    same(rt, &log.range_by_position(2, 0), &range(0, 0));
    same(rt, &log.range_by_position(4, i32::MIN), &range(0, 4));
}

fn expect_times(rt: &impl Abort, log: &EventLog) {
    same(rt, &log.range_by_time(&second(3), 9), &range(3, 1));
    same(rt, &log.range_by_time(&second(3), -9), &range(0, 1));
    same(rt, &log.range_by_time(&second(0), 2), &range(0, 2));
    same(rt, &log.range_by_time(&second(9), -3), &range(1, 3));
    same(rt, &log.range_by_time(&second(5), 1), &range(0, 0));
    same(rt, &log.range_by_time(&second(1), -1), &range(0, 0));
}

#[test]
fn ranges_end_at_the_edges(rt: HostRuntime) -> Result<(), Fail> {
    let log = of_four(rt.alloc())?;
    expect_positions(&rt, &log);
    expect_times(&rt, &log);
    Ok(())
}

/// A log of which two records were cleared has the total, and goes on from it once it is enabled.
fn expect_cleared(rt: &impl Abort, alloc: Global, log: &mut EventLog) -> Result<(), Fail> {
    same(rt, &log.len(), &0);
    same(rt, &log.total(), &3);
    log.set_enabled(false);
    put(alloc, log, 4)?;
    same(rt, &log.total(), &3);
    log.set_enabled(true);
    put(alloc, log, 5)?;
    same(rt, &log.item(0).map(|entry| entry.sequence), &Some(4));
    Ok(())
}

#[test]
fn a_cleared_log_keeps_its_total(rt: HostRuntime) -> Result<(), Fail> {
    let alloc = rt.alloc();
    let mut log = three_in_two(alloc, false)?;
    log.clear();
    expect_cleared(&rt, alloc, &mut log)
}

// A log with one record of a Tuesday, one of the same time and an unknown weekday, and one of the next day.
fn of_two_days(alloc: Global) -> Result<EventLog, Fail> {
    let mut log = EventLog::new(alloc, 8, false, true)?;
    for (day, weekday) in [(14u8, 2u8), (14, 255), (15, 1)] {
        log.record(at_day(day, weekday), hundredths(20), Vec::new(alloc));
    }
    Ok(log)
}

fn at_day(day: u8, weekday: u8) -> Stamp {
    Stamp {
        octets: [123, 11, day, weekday, 22, 13, 20, 0],
    }
}

#[test]
fn the_weekday_is_not_looked_at(rt: HostRuntime) -> Result<(), Fail> {
    let log = of_two_days(rt.alloc())?;
    same(&rt, &log.range_by_time(&at_day(14, 255), 9), &range(2, 1));
    same(&rt, &log.range_by_time(&at_day(14, 2), 9), &range(2, 1));
    same(&rt, &log.range_by_time(&at_day(14, 7), -9), &range(0, 0));
    same(&rt, &log.range_by_time(&at_day(15, 9), -9), &range(0, 2));
    Ok(())
}

#[test]
fn a_new_log_has_nothing(rt: HostRuntime) -> Result<(), Fail> {
    let log = EventLog::new(rt.alloc(), 2, false, false)?;
    same(&rt, &(log.len(), log.total()), &(0, 0));
    holds(&rt, log.item(0).is_none());
    holds(&rt, !log.enabled());
    Ok(())
}

#[test]
fn records_have_the_numbers_up_to_the_total(rt: HostRuntime) -> Result<(), Fail> {
    let log = three_in_two(rt.alloc(), false)?;
    same(
        &rt,
        &log.item(0).map(|entry| entry.sequence),
        &Some(number_back(log.total(), 1)),
    );
    same(&rt, &number_back(3, 0), &3);
    same(&rt, &number_back(2, 1), &1);
    same(&rt, &number_back(2, 2), &u32::MAX);
    same(&rt, &number_back(1, 2), &(u32::MAX - 1));
    Ok(())
}

// A log of the night on which the clock of Berlin is put back: a record at 02:30, one at 02:45 and, an hour after the first,
// one at 02:30 again.
fn of_a_fold(alloc: Global) -> Result<EventLog, Fail> {
    let mut log = EventLog::new(alloc, 8, false, true)?;
    log.record(in_the_fold(30), 172_998_900_000, Vec::new(alloc));
    log.record(in_the_fold(45), 172_998_990_000, Vec::new(alloc));
    log.record(in_the_fold(30), 172_999_260_000, Vec::new(alloc));
    Ok(log)
}

fn in_the_fold(minute: u8) -> Stamp {
    Stamp {
        octets: [124, 10, 27, 7, 2, minute, 0, 0],
    }
}

fn expect_records_in_the_fold(rt: &impl Abort, log: &EventLog) {
    let by = |reference: i64, count: i32| log.range_by_hundredths(reference, count);
    same(rt, &by(172_998_990_000, 9), &range(2, 1));
    same(rt, &by(172_998_990_000, -9), &range(0, 1));
    same(rt, &by(172_999_260_000, 1), &range(0, 0));
    same(rt, &by(172_998_900_000, -1), &range(0, 0));
    same(rt, &by(172_998_990_000, 0), &range(0, 0));
}

fn expect_times_beside_the_fold(rt: &impl Abort, log: &EventLog) {
    let by = |reference: i64, count: i32| log.range_by_hundredths(reference, count);
    same(rt, &by(172_998_899_999, 9), &range(0, 3));
    same(rt, &by(172_999_260_001, -2), &range(1, 2));
    same(rt, &by(-1, 2), &range(0, 2));
    same(rt, &by(i64::MAX, -1), &range(2, 1));
}

/// By the local time the second record is behind the third one.
fn expect_local_time(rt: &impl Abort, log: &EventLog) {
    same(rt, &log.range_by_time(&in_the_fold(30), 9), &range(1, 2));
    same(
        rt,
        &log.item(2).map(|entry| entry.hundredths),
        &Some(172_999_260_000),
    );
}

#[test]
fn hundredths_tell_times_in_a_fold_apart(rt: HostRuntime) -> Result<(), Fail> {
    let log = of_a_fold(rt.alloc())?;
    expect_records_in_the_fold(&rt, &log);
    expect_times_beside_the_fold(&rt, &log);
    expect_local_time(&rt, &log);
    Ok(())
}
