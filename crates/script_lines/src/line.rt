//! What a line of a script may say.

ghost use Rattle.std.specs.Prelude.{◌≡◌, ◌||◌, nat_lt, length};
ghost use Rattle.script_lines.specs.Line.{is_skipped, longest_line, most_lines, trial_object};

use crate::number::signed;
use crate::session_line::session_line;
use crate::words::{read_moment, split_word};
use bac_values::{Input, NoMemory, ObjectId, ObjectKind, Value};
use std::alloc::Global;

/// A line of a script.
#[derive(Debug, Drop)]
pub struct Line {
    /// The line's number, from 1. Blank lines and comments count.
    pub number: u64,
    /// The moment that it names, in milliseconds since 1970.
    pub moment: u64,
    /// What comes in at that moment.
    pub input: Input,
}

/// Which lines a script may have.
#[derive(Clone, Copy, Debug, PartialEq, Eq)]
pub enum Grammar {
    /// Those of a trial: `tick M` and `set M V`.
    Trial,
    /// Those of a session: `tick`, `pump`, `set` with an object, `fault` and `from`.
    Session,
    /// Those of packets: `packet HEX`. None of them is a [`Line`].
    Packets,
}

/// What the octets of a line say, in a grammar of lines of one type.
#[derive(Debug, Drop)]
pub enum Says<L> {
    /// Nothing: the line is blank or a comment.
    Skipped,
    /// Nothing of the grammar.
    Outside,
    /// A line.
    Spells(L),
}

const MOST_LINES: u64 = 1_000_000;

/// How many octets a line may have, its line feed not counted.
pub const LONGEST_LINE: usize = 4096;

// The object on trial, which is integer-value 1.
fn object_on_trial() -> ObjectId
    ensures object { result ≡ trial_object }
{
    ObjectId::of_kind(ObjectKind::IntegerValue, 1).unwrap()
}

/// Whether a line with this number is beyond what a line or a script may be.
pub fn is_beyond(number: u64, text: &[u8]) -> bool
    ensures beyond { result ≡ (nat_lt most_lines number || nat_lt longest_line (length text.now)) }
{
    number > MOST_LINES || text.len() > LONGEST_LINE
}

/// Whether a line is blank or a comment.
pub fn is_skipped(text: &[u8]) -> bool
    ensures skipped { result ≡ is_skipped text.now }
{
    matches!(text, [] | [b'#', ..])
}

impl Line {
    ghost use Rattle.std.specs.Prelude.{◌≡◌, IfOk, IfSome, IsErr, IsOk, IsSomeAnd};
    ghost use Rattle.script_lines.specs.Line.{line_by_word, line_of, line_says, HoldsOctets, IfSpells, IsLineOf, IsTrialLine};
    ghost use Rattle.script_lines.specs.SessionLine.{IsOfOctets};
    ghost use Rattle.script_lines.specs.declared.line.Grammar.TheVariants.{Trial};

    // The line of a trial that a text spells.
    fn of_trial(number: u64, text: &[u8]) -> Option<Line>
        ensures line { result ≡ line_by_word number text.now }
        ensures number { IfSome result (λ line. line.number ≡ number) }
        ensures of_trial { IfSome result IsTrialLine }
    {
        let (word, others) = split_word(text);
        if word == b"tick".as_slice() {
            let moment = read_moment(others)?;
            return Some(Line {
                number,
                moment,
                input: Input::Tick,
            });
        }
        if word == b"set".as_slice() {
            let (moment, value) = split_word(others);
            let moment = read_moment(moment)?;
            let value = Value::Signed(signed(value)?);
            let object = object_on_trial();
            return Some(Line {
                number,
                moment,
                input: Input::Set { object, value },
            });
        }
        None
    }

    // The line that a text spells in a grammar.
    fn read(
        alloc: Global,
        grammar: Grammar,
        number: u64,
        text: &[u8],
    ) -> Result<Option<Line>, NoMemory>
        ensures line { IfOk result (λ found. found ≡ line_of grammar number text.now) }
        ensures number { IfOk result (λ found. IfSome found (λ line. line.number ≡ number)) }
        ensures of_grammar { IfOk result (λ found. IfSome found (IsLineOf grammar)) }
        ensures wants { IsErr result → IsSomeAnd (line_of grammar number text.now) IsOfOctets }
        ensures trial { grammar ≡ Trial → IsOk result }
    {
        match grammar {
            Grammar::Trial => Ok(Line::of_trial(number, text)),
            Grammar::Session => Ok(session_line(alloc, number, text)?),
            Grammar::Packets => Ok(None),
        }
    }

    /// What the octets of a line say in a grammar; its number counts blank lines and comments. A line has no line feed,
    /// at most 4,096 octets, and a number up to 1,000,000: what is beyond that is outside each grammar. Memory is wanted only
    /// by a line of the grammar that sets an object to a text or brings a datagram.
    pub fn says(
        alloc: Global,
        grammar: Grammar,
        number: u64,
        text: &[u8],
    ) -> Result<Says<Line>, NoMemory>
        ensures says { IfOk result (λ says. says ≡ line_says grammar number text.now) }
        ensures number { IfOk result (λ says. IfSpells says (λ line. line.number ≡ number)) }
        ensures of_grammar { IfOk result (λ says. IfSpells says (IsLineOf grammar)) }
        ensures wants { IsErr result → HoldsOctets (line_says grammar number text.now) }
        ensures trial { grammar ≡ Trial → IsOk result }
    {
        if is_beyond(number, text) {
            return Ok(Says::Outside);
        }
        if is_skipped(text) {
            return Ok(Says::Skipped);
        }
        match Line::read(alloc, grammar, number, text)? {
            Some(line) => Ok(Says::Spells(line)),
            None => Ok(Says::Outside),
        }
    }
}
