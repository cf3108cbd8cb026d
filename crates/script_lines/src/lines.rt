//! A script is read line by line.

ghost use Rattle.std.specs.Prelude.{◌≡◌, ◌<◌, ◌≤◌, ◌⊎◌, true, false, length, position, IfOk, IsErr, OnErr, OnOk, IsErrOf};
ghost use Rattle.std.specs.List.{position_or_len};
ghost use Rattle.std.specs.Io.KnownBytes.{prepend_known, IsAtEnd};
ghost use Rattle.ground_io.specs.Source.{Keeps};
ghost use Rattle.ground_io.specs.Counts.{HasCause};
ghost use Rattle.script_lines.specs.Script.{is_line_feed};
ghost use Rattle.script_lines.specs.TakingSteps.{taken_of};
ghost use Rattle.script_lines.specs.declared.line.Grammar.TheVariants.{Packets, Session, Trial};
ghost use Rattle.script_lines.specs.declared.line.Says.TheVariants.{Skipped};
ghost use Rattle.script_lines.specs.declared.lines.LineFault.TheVariants.{Read, NoMemory as WantsMemory};

use crate::line::LONGEST_LINE;
use crate::pending::Pending;
use crate::{Grammar, Line, PacketLine, Says};
use bac_values::NoMemory;
use ground_io::{Failed, Source};
use std::alloc::Global;
use std::marker::Model;

/// Why a script gave no line.
#[derive(Clone, Copy, Debug, PartialEq, Eq)]
pub enum LineFault {
    /// A line isn't in the grammar. It is given again by each later call.
    Grammar {
        /// The line's number, from 1.
        line: u64,
    },
    /// The source failed. The lines still to come are the same.
    Read,
    /// Memory was refused. The lines still to come are the same.
    NoMemory,
}

impl From<NoMemory> for LineFault {
    ghost from_gives = { λ _ fault. fault ≡ WantsMemory };

    fn from(_refused: NoMemory) -> LineFault {
        LineFault::NoMemory
    }
}

impl From<Failed> for LineFault {
    ghost from_gives = { λ _ fault. fault ≡ Read };

    fn from(_failed: Failed) -> LineFault {
        LineFault::Read
    }
}

// The place of the first line feed.
fn line_feed(octets: &[u8]) -> Option<usize>
    ensures place { result ≡ position is_line_feed octets.now }
{
    octets.iter().position(|octet| *octet == b'\n')
}

// How long the line at the front is, where so many octets are known to have no line feed.
#[tactic(auto, using(crate::proofs::First::first_within))]
fn line_end(octets: &[u8], seen: usize) -> usize
    requires seen { seen ≤ position_or_len is_line_feed octets.now }
    ensures end { result ≡ position_or_len is_line_feed octets.now }
{
    match line_feed(&octets[seen..]) {
        Some(place) => seen + place,
        None => octets.len(),
    }
}

// Reads until the line at the front is whole, and gives its length. It is cut where more octets are pending than a line
// may have, and has no line feed where the source ends before one.
fn find_end<S: Source>(
    source: &mut S,
    pending: &mut Pending,
    ended: &mut bool,
) -> Result<usize, Failed>
    requires source { ended.old ≡ true → IsAtEnd (S.left source.old) }
    ensures source { ended.new ≡ true → IsAtEnd (S.left source.new) }
    ensures octets { Keeps (prepend_known pending.old (S.left source.old)) (prepend_known pending.new (S.left source.new)) }
    ensures end { IfOk result (λ end. end ≡ position_or_len is_line_feed pending.new) }
    ensures found { IfOk result (λ end. (end < length pending.new) ⊎ ((4096 < length pending.new) ⊎ (ended.new ≡ true))) }
    ensures ended { ended.new ≡ false → ended.old ≡ false }
    ensures waits { OnErr result ((ended.new ≡ false) × (position is_line_feed pending.new ≡ None)) }
    ensures cause { HasCause (S.faults source.old) (S.faults source.new) (IsErr result) }
    ensures uncounted { OnOk result (S.faults source.new ≡ S.faults source.old) }
{
    let mut end = 0;
    loop {
        let octets = pending.octets();
        end = line_end(octets, end);
        let count = octets.len();
        if end < count || *ended || count > LONGEST_LINE {
            return Ok(end);
        }
        if !pending.read(source)? {
            *ended = true;
            return Ok(end);
        }
    }
}

// What one line gave.
#[derive(Drop)]
enum Taken<L> {
    // There is none.
    End,
    // It says nothing.
    Passed,
    // It says this.
    Took(L),
}

// What a line with this number gave, which says this.
fn taken_of<L>(number: u64, says: Says<L>) -> Result<Taken<L>, LineFault>
    ensures taken { result ≡ taken_of number says }
{
    match says {
        Says::Outside => Err(LineFault::Grammar { line: number }),
        Says::Skipped => Ok(Taken::Passed),
        Says::Spells(line) => Ok(Taken::Took(line)),
    }
}

/// A reader of a script's lines. Each call is handed the same source.
#[derive(Drop)]
pub struct Lines {
    alloc: Global,
    grammar: Grammar,
    pending: Pending,
    number: u64,
    ended: bool,
}

impl Model for Lines {
    ghost use Rattle.std.specs.Prelude.{◌≤◌};
    ghost use Rattle.script_lines.specs.Reading.{LinesState};

    ghost Value = { LinesState };

    ghost view = { λ lines. record { grammar = lines.grammar; pending = lines.pending; number = lines.number; ended = lines.ended } };

    ghost invariant = { λ lines. lines.number ≤ 1000000 };
}

impl Lines {
    ghost use Rattle.std.specs.Prelude.{◌≢◌, ◌+◌, ◌<◌, ◌≤◌, [], true, false, position, IfSome, IsOk, OnSome};
    ghost use Rattle.std.specs.List.{before_first, position_or_len};
    ghost use Rattle.script_lines.specs.Line.{HoldsOctets, IfSpells, IsLineOf, IsSpelled, line_says};
    ghost use Rattle.script_lines.specs.PacketLine.{packet_says};
    ghost use Rattle.script_lines.specs.Reading.{octets_to_come};
    ghost use Rattle.ground_io.specs.Trace.{WhereTold};
    ghost use Rattle.script_lines.specs.Script.{is_line_feed, ReadsLine, TakesLines};
    ghost use Rattle.script_lines.specs.Front.{front_says};
    ghost use Rattle.script_lines.specs.TakingSteps.{CountsLine, IfTook, TakesLine, behind_line};

    // A reader of a script in a grammar, at its first line.
    fn of(alloc: Global, grammar: Grammar) -> Result<Lines, NoMemory>
        ensures start { IfOk result (λ lines. lines ≡ record { grammar = grammar; pending = []; number = 0; ended = false }) }
    {
        let pending = Pending::new(alloc)?;
        Ok(Lines {
            alloc,
            grammar,
            pending,
            number: 0,
            ended: false,
        })
    }

    /// A reader of a session's script, at its first line.
    pub fn new(alloc: Global) -> Result<Lines, NoMemory>
        ensures start { IfOk result (λ lines. lines ≡ record { grammar = Session; pending = []; number = 0; ended = false }) }
    {
        Lines::of(alloc, Grammar::Session)
    }

    /// A reader of a trial's script, at its first line.
    pub fn trial(alloc: Global) -> Result<Lines, NoMemory>
        ensures start { IfOk result (λ lines. lines ≡ record { grammar = Trial; pending = []; number = 0; ended = false }) }
    {
        Lines::of(alloc, Grammar::Trial)
    }

    /// A reader of a script of packets, at its first line.
    pub fn packets(alloc: Global) -> Result<Lines, NoMemory>
        ensures start { IfOk result (λ lines. lines ≡ record { grammar = Packets; pending = []; number = 0; ended = false }) }
    {
        Lines::of(alloc, Grammar::Packets)
    }

    /// How many lines were read. Blank lines and comments count, a line that is refused doesn't.
    pub fn count(&self) -> u64
        ensures number { result ≡ self.now.number }
    {
        self.number
    }

    // Gives out the line at the front, which is up to the first line feed, and counts it. One outside the grammar stays.
    #[tactic(auto, using(crate::proofs::First::first_within))]
    fn leave<L>(&mut self, end: usize, says: &Says<L>)
        requires end { end ≡ position_or_len is_line_feed self.old.pending }
        requires few { IfSpells says.now (λ _. self.old.number + 1 ≤ 1000000) × (says.now ≡ Skipped → self.old.number + 1 ≤ 1000000) }
        ensures rest { self.new ≡ behind_line says.now self.old }
    {
        if !matches!(says, Says::Outside) {
            let octets = self.pending.octets();
            let width = octets.len().min(end + 1);
            self.pending.take(width);
            self.number += 1;
        }
    }

    // Takes what is pending of the line at the front, and says what it says. A line outside the grammar stays, and so does
    // one that wants memory.
    fn judge(&mut self, end: usize) -> Result<Says<Line>, NoMemory>
        requires end { end ≡ position_or_len is_line_feed self.old.pending }
        ensures says { IfOk result (λ says. says ≡ line_says self.old.grammar (self.old.number + 1) (before_first is_line_feed self.old.pending)) }
        ensures rest { IfOk result (λ says. self.new ≡ behind_line says self.old) }
        ensures number { IfOk result (λ says. IfSpells says (λ line. line.number ≡ self.old.number + 1)) }
        ensures of_grammar { IfOk result (λ says. IfSpells says (IsLineOf self.old.grammar)) }
        ensures limit { self.new.number ≤ 1000000 }
        ensures same { OnErr result (self.new ≡ self.old) }
        ensures wants { IsErr result → HoldsOctets (front_says (line_says self.old.grammar) self.new) }
        ensures trial { self.old.grammar ≡ Trial → IsOk result }
    {
        let octets = self.pending.octets();
        let says = Line::says(self.alloc, self.grammar, self.number + 1, &octets[..end])?;
        self.leave(end, &says);
        Ok(says)
    }

    // The same of a line of packets.
    fn judge_packet(&mut self, end: usize) -> Result<Says<PacketLine>, NoMemory>
        requires end { end ≡ position_or_len is_line_feed self.old.pending }
        ensures says { IfOk result (λ says. says ≡ packet_says (self.old.number + 1) (before_first is_line_feed self.old.pending)) }
        ensures rest { IfOk result (λ says. self.new ≡ behind_line says self.old) }
        ensures number { IfOk result (λ says. IfSpells says (λ line. line.number ≡ self.old.number + 1)) }
        ensures limit { self.new.number ≤ 1000000 }
        ensures same { OnErr result (self.new ≡ self.old) }
        ensures wants { IsErr result → IsSpelled (front_says packet_says self.new) }
    {
        let octets = self.pending.octets();
        let says = PacketLine::says(self.alloc, self.number + 1, &octets[..end])?;
        self.leave(end, &says);
        Ok(says)
    }

    // Takes one line.
    fn take_line<S: Source>(&mut self, source: &mut S) -> Result<Taken<Line>, LineFault>
        requires source { self.old.ended ≡ true → IsAtEnd (S.left source.old) }
        ensures source { self.new.ended ≡ true → IsAtEnd (S.left source.new) }
        ensures line { WhereTold (octets_to_come self.old (S.left source.old)) (octets_to_come self.new (S.left source.new))
            (TakesLine (line_says self.old.grammar) self.old.number self.new.number result) }
        ensures whole_lines { self.new.ended ≡ false → WhereTold (octets_to_come self.old (S.left source.old)) (octets_to_come self.new (S.left source.new))
            (TakesLines self.old.number self.new.number) }
        ensures at_end { result ≡ Ok Taken.End → IsAtEnd (S.left source.new) }
        ensures counts { IfOk result (CountsLine self.old.number self.new.number) }
        ensures number { IfOk result (λ taken. IfTook taken (λ line. line.number ≡ self.new.number)) }
        ensures of_grammar { IfOk result (λ taken. IfTook taken (IsLineOf self.old.grammar)) }
        ensures grammar { self.new.grammar ≡ self.old.grammar }
        ensures limit { self.new.number ≤ 1000000 }
        ensures ended { self.new.ended ≡ false → self.old.ended ≡ false }
        ensures waits { result ≡ Err LineFault.Read → (self.new.ended ≡ false) × (position is_line_feed self.new.pending ≡ None) }
        ensures cause { HasCause (S.faults source.old) (S.faults source.new) (IsErrOf result LineFault.Read) }
        ensures uncounted { OnOk result (S.faults source.new ≡ S.faults source.old) }
        ensures wants { result ≡ Err LineFault.NoMemory → HoldsOctets (front_says (line_says self.old.grammar) self.new) }
        ensures trial { self.old.grammar ≡ Trial → result ≢ Err LineFault.NoMemory }
    {
        let end = find_end(source, &mut self.pending, &mut self.ended)?;
        if self.pending.octets().is_empty() {
            return Ok(Taken::End);
        }
        let number = self.number + 1;
        let says = self.judge(end)?;
        taken_of(number, says)
    }

    // Takes one line of packets.
    fn take_packet<S: Source>(&mut self, source: &mut S) -> Result<Taken<PacketLine>, LineFault>
        requires source { self.old.ended ≡ true → IsAtEnd (S.left source.old) }
        ensures source { self.new.ended ≡ true → IsAtEnd (S.left source.new) }
        ensures line { WhereTold (octets_to_come self.old (S.left source.old)) (octets_to_come self.new (S.left source.new))
            (TakesLine packet_says self.old.number self.new.number result) }
        ensures whole_lines { self.new.ended ≡ false → WhereTold (octets_to_come self.old (S.left source.old)) (octets_to_come self.new (S.left source.new))
            (TakesLines self.old.number self.new.number) }
        ensures at_end { result ≡ Ok Taken.End → IsAtEnd (S.left source.new) }
        ensures counts { IfOk result (CountsLine self.old.number self.new.number) }
        ensures number { IfOk result (λ taken. IfTook taken (λ line. line.number ≡ self.new.number)) }
        ensures grammar { self.new.grammar ≡ self.old.grammar }
        ensures limit { self.new.number ≤ 1000000 }
        ensures ended { self.new.ended ≡ false → self.old.ended ≡ false }
        ensures waits { result ≡ Err LineFault.Read → (self.new.ended ≡ false) × (position is_line_feed self.new.pending ≡ None) }
        ensures cause { HasCause (S.faults source.old) (S.faults source.new) (IsErrOf result LineFault.Read) }
        ensures uncounted { OnOk result (S.faults source.new ≡ S.faults source.old) }
        ensures wants { result ≡ Err LineFault.NoMemory → IsSpelled (front_says packet_says self.new) }
    {
        let width = find_end(source, &mut self.pending, &mut self.ended)?;
        let octets = self.pending.octets();
        if octets.is_empty() {
            return Ok(Taken::End);
        }
        let number = self.number + 1;
        let says = self.judge_packet(width)?;
        taken_of(number, says)
    }

    /// The next line of the script, or none at its end. Blank lines and comments are passed over and counted.
    ///
    /// `Grammar` comes at a line outside the grammar, which stays the next one. `NoMemory` comes only at a line that sets an
    /// object to a text or brings a datagram, which is still to come; so a trial's lines want none. After the source's end it
    /// is never read again.
    pub fn next_line<S: Source>(&mut self, source: &mut S) -> Result<Option<Line>, LineFault>
        requires inputs { self.old.grammar ≢ Packets }

        // The same source is handed to each call: where its end was seen, it is at its end.
        requires source { self.old.ended ≡ true → IsAtEnd (S.left source.old) }
        ensures source { self.new.ended ≡ true → IsAtEnd (S.left source.new) }

        ensures line { WhereTold (octets_to_come self.old (S.left source.old)) (octets_to_come self.new (S.left source.new))
            (ReadsLine (line_says self.old.grammar) self.old.number self.new.number result) }
        ensures whole_lines { self.new.ended ≡ false → WhereTold (octets_to_come self.old (S.left source.old)) (octets_to_come self.new (S.left source.new))
            (TakesLines self.old.number self.new.number) }
        ensures at_end { result ≡ Ok None → IsAtEnd (S.left source.new) }
        ensures number { IfOk result (λ found. IfSome found (λ line. line.number ≡ self.new.number)) }
        ensures of_grammar { IfOk result (λ found. IfSome found (IsLineOf self.old.grammar)) }
        ensures grammar { self.new.grammar ≡ self.old.grammar }
        ensures grows { IfOk result (λ found. OnSome found (self.old.number < self.new.number)) }
        ensures limit { self.new.number ≤ 1000000 }

        ensures ended { self.new.ended ≡ false → self.old.ended ≡ false }
        ensures waits { result ≡ Err LineFault.Read → (self.new.ended ≡ false) × (position is_line_feed self.new.pending ≡ None) }
        ensures cause { HasCause (S.faults source.old) (S.faults source.new) (IsErrOf result LineFault.Read) }
        ensures uncounted { OnOk result (S.faults source.new ≡ S.faults source.old) }
        ensures wants { result ≡ Err LineFault.NoMemory → HoldsOctets (front_says (line_says self.old.grammar) self.new) }
        ensures trial { self.old.grammar ≡ Trial → result ≢ Err LineFault.NoMemory }
    {
        loop {
            match self.take_line(source)? {
                Taken::End => return Ok(None),
                Taken::Passed => {}
                Taken::Took(line) => return Ok(Some(line)),
            }
        }
    }

    /// The next line of a script of packets, or none at its end. Blank lines and comments are passed over and counted.
    ///
    /// `Grammar` comes at a line outside the grammar, which stays the next one. `NoMemory` comes only at a line of a packet,
    /// which is still to come. After the source's end it is never read again.
    pub fn next_packet<S: Source>(
        &mut self,
        source: &mut S,
    ) -> Result<Option<PacketLine>, LineFault>
        requires packets { self.old.grammar ≡ Packets }

        // The same source is handed to each call: where its end was seen, it is at its end.
        requires source { self.old.ended ≡ true → IsAtEnd (S.left source.old) }
        ensures source { self.new.ended ≡ true → IsAtEnd (S.left source.new) }

        ensures line { WhereTold (octets_to_come self.old (S.left source.old)) (octets_to_come self.new (S.left source.new))
            (ReadsLine packet_says self.old.number self.new.number result) }
        ensures whole_lines { self.new.ended ≡ false → WhereTold (octets_to_come self.old (S.left source.old)) (octets_to_come self.new (S.left source.new))
            (TakesLines self.old.number self.new.number) }
        ensures at_end { result ≡ Ok None → IsAtEnd (S.left source.new) }
        ensures number { IfOk result (λ found. IfSome found (λ line. line.number ≡ self.new.number)) }
        ensures grammar { self.new.grammar ≡ self.old.grammar }
        ensures grows { IfOk result (λ found. OnSome found (self.old.number < self.new.number)) }
        ensures limit { self.new.number ≤ 1000000 }

        ensures ended { self.new.ended ≡ false → self.old.ended ≡ false }
        ensures waits { result ≡ Err LineFault.Read → (self.new.ended ≡ false) × (position is_line_feed self.new.pending ≡ None) }
        ensures cause { HasCause (S.faults source.old) (S.faults source.new) (IsErrOf result LineFault.Read) }
        ensures uncounted { OnOk result (S.faults source.new ≡ S.faults source.old) }
        ensures wants { result ≡ Err LineFault.NoMemory → IsSpelled (front_says packet_says self.new) }
    {
        loop {
            match self.take_packet(source)? {
                Taken::End => return Ok(None),
                Taken::Passed => {}
                Taken::Took(line) => return Ok(Some(line)),
            }
        }
    }
}
