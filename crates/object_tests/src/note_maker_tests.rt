//! What notifications say, and whom they tell.

ghost use Rattle.std.specs.Prelude.{◌≡◌, IfOk};
ghost use Rattle.bac_values.specs.Moments.{IsMoment};
ghost use Rattle.algorithm_rules.specs.declared.table.Algorithm.TheVariants.{SignedOutOfRange};
ghost use Rattle.notify_class.specs.Recipients.{IsListedRecipient};

use crate::comparing::same;
use algorithm_rules::Algorithm;
use bac_values::{EventState, Items, Note, ObjectId, Peer, Stamp, Transition};
use civil_stamp::{LocalMoment, Zone};
use event_services::{Notification, WrittenNotification, read_notification};
use note_maker::*;
use notify_class::{Class, Destination};
use std::alloc::Global;
use std::process::Abort;
use std::test::Fail;

/// Tuesday, the 14th of November 2023, 22:13:30, in UTC.
const RAISED_AT: u64 = 1_700_000_010_000;

/// Ten seconds later, as it is shown.
const LATER: Stamp = Stamp {
    octets: [0x7b, 0x0b, 0x0e, 0x02, 0x16, 0x0d, 0x28, 0x00],
};

/// Integer value 1 of device 1001.
fn source() -> Result<Source, Fail>
    ensures { IfOk result (λ source. source.algorithm ≡ SignedOutOfRange) }
{
    Ok(Source {
        device: ObjectId::new(8, 1001)?,
        object: ObjectId::new(45, 1)?,
        algorithm: Algorithm::SignedOutOfRange,
        notify: 0,
    })
}

/// A recipient at all times whose process is `process`.
fn always(process: u32) -> Destination {
    Destination {
        days: 127,
        from: 0,
        to: 8_639_999,
        peer: Peer::local(0x0a00_0005, 47_808),
        process,
        confirmed: true,
        transitions: [true; 3],
    }
}

/// Class 7 with some recipients.
fn class(destinations: Vec<Destination>) -> Class {
    Class {
        instance: 7,
        priority: [100, 90, 200],
        ack_required: [true, true, false],
        destinations: Items::of(destinations),
    }
}

/// A recipient whose process is `process`, on some days in a window of the day, of some kinds of transitions.
fn recipient(process: u32, days: u8, from: u32, to: u32, transitions: [bool; 3]) -> Destination
    requires { IsListedRecipient days from to }
{
    Destination {
        days,
        from,
        to,
        transitions,
        ..always(process)
    }
}

/// Six recipients: at all times; on weekdays from 08:00 to 17:00; on weekdays of to-fault alone; on Tuesdays in one
/// hundredth of a second, of to-offnormal alone; at weekends, but for to-fault; and never, since the ends of its window
/// are exchanged.
fn class_of_six(alloc: Global) -> Result<Class, Fail> {
    let all = [true, true, true];
    let destinations = [
        recipient(1, 127, 0, 8_639_999, all),
        recipient(2, 31, 2_880_000, 6_119_999, all),
        recipient(3, 31, 0, 8_639_999, [false, true, false]),
        recipient(4, 2, 8_001_000, 8_001_000, [true, false, false]),
        recipient(5, 96, 0, 8_639_999, [true, false, true]),
        recipient(6, 127, 6_120_000, 2_880_000, all),
    ];
    Ok(class(Vec::from_array(alloc, destinations)?))
}

/// The process of a notification, which is given up.
fn process_given(told: Notification) -> u32 {
    let process = told.process;
    drop(told);
    process
}

/// The process that a note names.
fn process_of(alloc: Global, note: &Note) -> Result<u32, Fail> {
    match read_notification(alloc, note.body.as_slice()) {
        Ok(told) => Ok(process_given(told)),
        Err(_) => Err(Fail::new("not read back")),
    }
}

/// Appends the processes that notes name, and a 0.
fn add_processes(alloc: Global, notes: &[Note], processes: &mut Vec<u32>) -> Result<(), Fail> {
    for note in notes {
        processes.push(process_of(alloc, note)?)?;
    }
    Ok(processes.push(0)?)
}

/// The processes of a class that are told of each kind of transition, one list behind the other with a 0 between them.
fn processes_of(
    alloc: Global,
    facts: &WrittenNotification,
    class: &Class,
    at: &LocalMoment,
) -> Result<Vec<u32>, Fail> {
    let mut processes = Vec::new(alloc);
    for transition in [
        Transition::ToOffnormal,
        Transition::ToFault,
        Transition::ToNormal,
    ] {
        let notes = notes_of(alloc, facts, class, transition, at)?;
        add_processes(alloc, notes.as_slice(), &mut processes)?;
    }
    Ok(processes)
}

/// Those of the six at a moment, in a zone.
fn processes_told(alloc: Global, moment: u64, minutes: i16) -> Result<Vec<u32>, Fail>
    requires { IsMoment moment }
{
    let at = LocalMoment::new(moment, &Zone::fixed(minutes)?);
    let source = source()?;
    let class = class_of_six(alloc)?;
    let facts = acknowledgement_notification(&source, &class, EventState::Normal, LATER);
    let facts = WrittenNotification::new(alloc, facts)?;
    let processes = processes_of(alloc, &facts, &class, &at);
    drop(facts);
    drop(class);
    processes
}

/// Those of the six that are told at a moment, in a zone, are these.
fn expect_told(
    rt: &impl Abort,
    alloc: Global,
    moment: u64,
    minutes: i16,
    processes: &[u32],
) -> Result<(), Fail>
    requires { IsMoment moment }
{
    let told = processes_told(alloc, moment, minutes)?;
    same(rt, &told.as_slice(), &processes);
    Ok(())
}

// Each wanted answer was computed by Python's datetime.

#[test]
fn recipients_are_told_up_to_the_end_of_their_windows(rt: HostRuntime) -> Result<(), Fail> {
    let (alloc, within) = (rt.alloc(), [1, 4, 0, 1, 3, 0, 1, 0]);
    expect_told(&rt, alloc, RAISED_AT, 0, &within)?;
    expect_told(&rt, alloc, RAISED_AT + 9, 0, &within)?;
    expect_told(&rt, alloc, RAISED_AT + 10, 0, &[1, 0, 1, 3, 0, 1, 0])
}

#[test]
fn recipients_are_told_by_the_day_and_the_time_of_the_zone(rt: HostRuntime) -> Result<(), Fail> {
    let (alloc, beside) = (rt.alloc(), [1, 0, 1, 3, 0, 1, 0]);
    expect_told(&rt, alloc, RAISED_AT, -1, &beside)?;
    // Monday, the 13th of November 2023, at 08:00 in UTC, and a minute earlier west of it.
    let monday = [1, 2, 0, 1, 2, 3, 0, 1, 2, 0];
    expect_told(&rt, alloc, 1_699_862_400_000, 0, &monday)?;
    expect_told(&rt, alloc, 1_699_862_400_000, -1, &beside)?;
    // Saturday, the 18th.
    let saturday = [1, 5, 0, 1, 0, 1, 5, 0];
    expect_told(&rt, alloc, 1_700_345_600_000, 120, &saturday)
}
