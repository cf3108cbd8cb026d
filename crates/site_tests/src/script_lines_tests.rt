//! Lines of scripts, and readers of them.

ghost use Rattle.std.specs.Prelude.{◌≡◌, ◌≢◌, None};
ghost use Rattle.script_lines.specs.declared.line.Grammar.TheVariants.{Packets};

use crate::comparing::{holds, same};
use bac_values::*;
use ground_io::{Failed, Source};
use script_lines::*;
use std::alloc::Global;
use std::process::Abort;
use std::test::Fail;

// Octets that come in pieces of a size. One call may fail.
#[derive(Drop)]
pub(crate) struct Pieces<'a> {
    octets: &'a [u8],
    size: usize,
    calls: u64,
    failing: u64,
    faults: u64,
}

impl<'a> Pieces<'a> {
    pub(crate) fn of(octets: &'a [u8], size: usize) -> Pieces<'a> {
        Pieces {
            octets,
            size,
            calls: 0,
            failing: 0,
            faults: 0,
        }
    }

    /// The same, where the call with this number fails.
    pub(crate) fn failing_at(octets: &'a [u8], size: usize, failing: u64) -> Pieces<'a> {
        Pieces {
            octets,
            size,
            calls: 0,
            failing,
            faults: 0,
        }
    }

    /// The next call fails.
    pub(crate) fn fail_next(&mut self) {
        self.failing = self.calls.saturating_add(1);
    }
}

impl Source for Pieces<'_> {
    ghost left = { λ _. None };

    ghost faults = { λ source. source.faults };

    fn read(&mut self, into: &mut [u8]) -> Result<usize, Failed> {
        self.calls = self.calls.saturating_add(1);
        if self.calls == self.failing {
            self.faults = self.faults.saturating_add(1);
            return Err(Failed);
        }
        let count = self.octets.len().min(into.len()).min(self.size);
        into[..count].copy_from_slice(&self.octets[..count]);
        self.octets = &self.octets[count..];
        Ok(count)
    }
}

// The number, the moment and the value of a line that sets.
fn set_of(line: &Line) -> Option<(u64, u64, i32)> {
    if let Input::Set { object, value } = &line.input {
        if let Value::Signed(signed) = value {
            if object.number() == 45 && object.instance() == 1 {
                return Some((line.number, line.moment, *signed));
            }
        }
    }
    None
}

/// The next line is one that sets, with this number, moment and value, and so many lines were read then.
fn expect_set(
    rt: &impl Abort,
    lines: &mut Lines,
    source: &mut Pieces<'_>,
    wanted: (u64, u64, i32),
) -> Result<(), Fail>
    requires inputs { lines.old.grammar ≢ Packets }
    ensures grammar { lines.new.grammar ≡ lines.old.grammar }
{
    let line = lines.next_line(source)?.ok_or("no line")?;
    same(rt, &set_of(&line), &Some(wanted));
    same(rt, &lines.count(), &wanted.0);
    Ok(())
}

/// There is no line any more.
pub(crate) fn expect_end(
    rt: &impl Abort,
    lines: &mut Lines,
    source: &mut Pieces<'_>,
) -> Result<(), Fail>
    requires inputs { lines.old.grammar ≢ Packets }
    ensures grammar { lines.new.grammar ≡ lines.old.grammar }
{
    holds(rt, lines.next_line(source)?.is_none());
    Ok(())
}

/// There are two lines that set in this script, however large the pieces are in which it comes.
fn expect_two(rt: &impl Abort, lines: &mut Lines, size: usize) -> Result<(), Fail>
    requires inputs { lines.old.grammar ≢ Packets }
{
    let script = b"# a comment\n\nset 946684800000 -7\n#\nset 946684801000 0";
    let mut source = Pieces::of(script, size);
    expect_set(rt, lines, &mut source, (3, 946_684_800_000, -7))?;
    expect_set(rt, lines, &mut source, (5, 946_684_801_000, 0))?;
    expect_end(rt, lines, &mut source)
}

/// The same for lines that begin anew.
fn expect_two_anew(rt: &impl Abort, alloc: Global, size: usize) -> Result<(), Fail> {
    let mut lines = Lines::trial(alloc)?;
    expect_two(rt, &mut lines, size)
}

#[test]
fn skipped_lines_count_and_the_last_may_lack_its_line_feed(rt: HostRuntime) -> Result<(), Fail> {
    for size in 1..20 {
        expect_two_anew(&rt, rt.alloc(), size)?;
    }
    Ok(())
}

/// Whether an empty line with a number is skipped.
fn is_skipped(alloc: Global, grammar: Grammar, number: u64) -> bool {
    matches!(&Line::says(alloc, grammar, number, b""), Ok(Says::Skipped))
}

/// Whether it is refused.
fn is_outside(alloc: Global, grammar: Grammar, number: u64) -> bool {
    matches!(&Line::says(alloc, grammar, number, b""), Ok(Says::Outside))
}

#[test]
fn a_line_beyond_the_last_is_refused_also_where_it_would_be_skipped(rt: HostRuntime) {
    for grammar in [Grammar::Trial, Grammar::Session] {
        holds(&rt, is_skipped(rt.alloc(), grammar, 1_000_000));
        holds(&rt, is_outside(rt.alloc(), grammar, 1_000_001));
    }
}

/// Reading fails where the source does, and one line was read then.
fn expect_failed_read(rt: &impl Abort, lines: &mut Lines, source: &mut Pieces<'_>)
    requires inputs { lines.old.grammar ≢ Packets }
    ensures grammar { lines.new.grammar ≡ lines.old.grammar }
{
    holds(rt, matches!(&lines.next_line(source), Err(LineFault::Read)));
    same(rt, &lines.count(), &1);
}

/// The next line is a tick at a moment.
fn expect_tick(
    rt: &impl Abort,
    lines: &mut Lines,
    source: &mut Pieces<'_>,
    moment: u64,
) -> Result<(), Fail>
    requires inputs { lines.old.grammar ≢ Packets }
    ensures grammar { lines.new.grammar ≡ lines.old.grammar }
{
    let line = lines.next_line(source)?.ok_or("no line")?;
    holds(rt, matches!(&line.input, Input::Tick));
    same(rt, &line.moment, &moment);
    Ok(())
}

/// A line that sets, and a tick, come after a failed read, and behind them nothing is read.
fn expect_after_failed_read(rt: &impl Abort, lines: &mut Lines) -> Result<(), Fail>
    requires inputs { lines.old.grammar ≢ Packets }
{
    let mut source = Pieces::failing_at(b"#\nset 946684800000 12\ntick 946684800001", 9, 3);
    expect_failed_read(rt, lines, &mut source);
    expect_set(rt, lines, &mut source, (2, 946_684_800_000, 12))?;
    expect_tick(rt, lines, &mut source, 946_684_800_001)?;
    source.fail_next();
    expect_end(rt, lines, &mut source)
}

#[test]
fn lines_are_the_same_after_a_failed_read(rt: HostRuntime) -> Result<(), Fail> {
    let mut lines = Lines::trial(rt.alloc())?;
    expect_after_failed_read(&rt, &mut lines)
}

// Whether a line of a report is written as this text.
fn is_written(alloc: Global, line: ReportLine, text: &str) -> bool {
    match write_report(alloc, &line) {
        Ok(octets) => octets.as_slice() == text.as_bytes(),
        Err(_) => false,
    }
}

#[test]
fn lines_with_objects_and_datagrams(rt: HostRuntime) -> Result<(), Fail> {
    let alloc = rt.alloc();
    let mut moved = Moved {
        object: ObjectId::of_kind(ObjectKind::CharacterStringValue, 4_194_303)?,
        from: EventState::Offnormal,
        to: EventState::Fault,
    };
    let change = ReportLine::Change { line: 1, moved };
    let text = "1 change characterstring-value:4194303 offnormal fault\n";
    holds(&rt, is_written(alloc, change, text));
    moved.object = ObjectId::new(2, 0)?;
    let change = ReportLine::Change { line: 2, moved };
    holds(
        &rt,
        is_written(alloc, change, "2 change 2:0 offnormal fault\n"),
    );
    let send = Send {
        peer: Peer::local(0x0A00_01FE, 47_808),
        bytes: Items::of(vec![in alloc; 0x81u8, 0x0A, 0x00, 0xFF]?),
    };
    let sent = ReportLine::Sent { line: 3, send };
    holds(
        &rt,
        is_written(alloc, sent, "3 send 10.0.1.254:47808 810a00ff\n"),
    );
    Ok(())
}
