//! Lines of packets, and a reader of them.

ghost use Rattle.std.specs.Prelude.{◌≡◌};
ghost use Rattle.script_lines.specs.declared.line.Grammar.TheVariants.{Packets};

use crate::comparing::{holds, same};
use crate::script_lines_tests::Pieces;
use script_lines::*;
use std::alloc::Global;
use std::process::Abort;
use std::test::Fail;

/// Whether a line spells a packet of these octets, and has its number.
fn spells(alloc: Global, text: &[u8], octets: &[u8]) -> bool {
    match PacketLine::says(alloc, 7, text) {
        Ok(Says::Spells(line)) => line.number == 7 && line.packet.as_slice() == octets,
        _ => false,
    }
}

/// Whether a line is outside the grammar.
fn is_outside(alloc: Global, number: u64, text: &[u8]) -> bool {
    matches!(&PacketLine::says(alloc, number, text), Ok(Says::Outside))
}

#[test]
fn a_packet_is_spelled_in_small_and_great_letters(rt: HostRuntime) {
    let alloc = rt.alloc();
    holds(&rt, spells(alloc, b"packet 00", &[0]));
    holds(&rt, spells(alloc, b"packet 01aFfA", &[1, 0xAF, 0xFA]));
    holds(&rt, spells(alloc, b"packet ABcd", &[0xAB, 0xCD]));
}

#[test]
fn what_is_no_packet_in_digits_is_outside(rt: HostRuntime) {
    let texts: [&[u8]; 7] = [
        b"packet",
        b"packet ",
        b"packet 0",
        b"packet 012",
        b"packet 0g",
        b"packet 01\r",
        b"packet 01 ",
    ];
    for text in texts {
        holds(&rt, is_outside(rt.alloc(), 7, text));
    }
}

#[test]
fn other_words_and_other_blanks_are_outside(rt: HostRuntime) {
    let texts: [&[u8]; 8] = [
        b"packets 01",
        b"packe 01",
        b"Packet 01",
        b"packet\t01",
        b"packet  01",
        b" packet 01",
        b"tick 946684800000",
        b"end 1 3",
    ];
    for text in texts {
        holds(&rt, is_outside(rt.alloc(), 7, text));
    }
}

/// Whether a line with a packet is outside the grammar of lines that name a moment.
fn is_no_input(alloc: Global, grammar: Grammar) -> bool {
    matches!(
        &Line::says(alloc, grammar, 7, b"packet 01"),
        Ok(Says::Outside)
    )
}

#[test]
fn no_other_script_has_packets(rt: HostRuntime) {
    holds(&rt, is_no_input(rt.alloc(), Grammar::Trial));
    holds(&rt, is_no_input(rt.alloc(), Grammar::Session));
}

/// A line with a packet of so many octets.
fn long_line(alloc: Global, count: usize) -> Result<Vec<u8>, Fail> {
    let mut text = Vec::new(alloc);
    text.extend_from_slice(b"packet ")?;
    for _ in 0..count {
        text.extend_from_slice(b"0f")?;
    }
    Ok(text)
}

#[test]
fn a_line_has_room_for_2044_octets(rt: HostRuntime) -> Result<(), Fail> {
    let alloc = rt.alloc();
    let text = long_line(alloc, 2044)?;
    holds(&rt, spells(alloc, &text, &[0x0F; 2044]));
    let text = long_line(alloc, 2045)?;
    holds(&rt, is_outside(alloc, 7, &text));
    Ok(())
}

#[test]
fn a_line_of_packets_beyond_the_last_is_refused(rt: HostRuntime) {
    holds(&rt, !is_outside(rt.alloc(), 1_000_000, b"packet 01"));
    holds(&rt, is_outside(rt.alloc(), 1_000_001, b"packet 01"));
    holds(&rt, !is_outside(rt.alloc(), 1_000_000, b"#"));
    holds(&rt, is_outside(rt.alloc(), 1_000_001, b"#"));
}

/// The next line has this number and this packet, and so many lines were read then.
fn expect_packet(
    rt: &impl Abort,
    lines: &mut Lines,
    source: &mut Pieces<'_>,
    number: u64,
    octets: &[u8],
) -> Result<(), Fail>
    requires packets { lines.old.grammar ≡ Packets }
    ensures packets { lines.new.grammar ≡ Packets }
{
    let line = lines.next_packet(source)?.ok_or("no line")?;
    same(rt, &line.number, &number);
    holds(rt, line.packet.as_slice() == octets);
    same(rt, &lines.count(), &number);
    Ok(())
}

/// There is no line any more, and so many were read.
fn expect_end(
    rt: &impl Abort,
    lines: &mut Lines,
    source: &mut Pieces<'_>,
    count: u64,
) -> Result<(), Fail>
    requires packets { lines.old.grammar ≡ Packets }
    ensures packets { lines.new.grammar ≡ Packets }
{
    holds(rt, lines.next_packet(source)?.is_none());
    same(rt, &lines.count(), &count);
    Ok(())
}

/// There are two packets in this script, however large the pieces are in which it comes.
fn expect_two(rt: &impl Abort, lines: &mut Lines, size: usize) -> Result<(), Fail>
    requires packets { lines.old.grammar ≡ Packets }
{
    let script = b"# a comment\n\npacket 03\n#\n\npacket 02fF00";
    let mut source = Pieces::of(script, size);
    expect_packet(rt, lines, &mut source, 3, &[3])?;
    expect_packet(rt, lines, &mut source, 6, &[2, 0xFF, 0])?;
    expect_end(rt, lines, &mut source, 6)
}

/// The same for lines that begin anew.
fn expect_two_anew(rt: &impl Abort, alloc: Global, size: usize) -> Result<(), Fail> {
    let mut lines = Lines::packets(alloc)?;
    expect_two(rt, &mut lines, size)
}

#[test]
fn packets_come_in_order_with_the_numbers_of_their_lines(rt: HostRuntime) -> Result<(), Fail> {
    for size in 1..20 {
        expect_two_anew(&rt, rt.alloc(), size)?;
    }
    Ok(())
}

/// A line is refused, by its number.
fn expect_refused(rt: &impl Abort, lines: &mut Lines, source: &mut Pieces<'_>, number: u64)
    requires packets { lines.old.grammar ≡ Packets }
    ensures packets { lines.new.grammar ≡ Packets }
{
    let fault = lines.next_packet(source).err();
    holds(rt, fault == Some(LineFault::Grammar { line: number }));
    same(rt, &lines.count(), &number.saturating_sub(1));
}

/// A line outside the grammar is refused, again and again, and nothing behind it is given.
fn expect_refusal_that_stays(rt: &impl Abort, lines: &mut Lines) -> Result<(), Fail>
    requires packets { lines.old.grammar ≡ Packets }
{
    let mut source = Pieces::of(b"packet 01\n\ntick 946684800000\npacket 02\n", 8192);
    expect_packet(rt, lines, &mut source, 1, &[1])?;
    expect_refused(rt, lines, &mut source, 3);
    expect_refused(rt, lines, &mut source, 3);
    Ok(())
}

#[test]
fn a_refused_line_of_packets_stays_the_next(rt: HostRuntime) -> Result<(), Fail> {
    let mut lines = Lines::packets(rt.alloc())?;
    expect_refusal_that_stays(&rt, &mut lines)
}

/// Reading fails where the source does, and so many lines were read then.
fn expect_failed_read(rt: &impl Abort, lines: &mut Lines, source: &mut Pieces<'_>, count: u64)
    requires packets { lines.old.grammar ≡ Packets }
    ensures packets { lines.new.grammar ≡ Packets }
{
    holds(
        rt,
        matches!(&lines.next_packet(source), Err(LineFault::Read)),
    );
    same(rt, &lines.count(), &count);
}

/// Two packets come after a failed read, and behind them nothing is read.
fn expect_after_failed_read(rt: &impl Abort, lines: &mut Lines) -> Result<(), Fail>
    requires packets { lines.old.grammar ≡ Packets }
{
    let mut source = Pieces::failing_at(b"#\npacket 0102\npacket 03", 7, 2);
    expect_failed_read(rt, lines, &mut source, 1);
    expect_packet(rt, lines, &mut source, 2, &[1, 2])?;
    expect_packet(rt, lines, &mut source, 3, &[3])?;
    source.fail_next();
    expect_end(rt, lines, &mut source, 3)
}

#[test]
fn packets_are_the_same_after_a_failed_read(rt: HostRuntime) -> Result<(), Fail> {
    let mut lines = Lines::packets(rt.alloc())?;
    expect_after_failed_read(&rt, &mut lines)
}
