//! The lines of a session.

ghost use Rattle.std.specs.Prelude.{◌≡◌, IfOk, IsErr, IsSomeAnd};
ghost use Rattle.script_lines.specs.SessionLine.{IsOfOctets, moment_line, value_line, fault_line, datagram_line, session_line_of};

use crate::Line;
use crate::address::read_peer;
use crate::number::unsigned;
use crate::object::read_object;
use crate::value::{read_datagram, read_value};
use crate::words::{read_moment, split_word};
use bac_values::{Input, NoMemory};
use std::alloc::Global;

// A line that has a moment and nothing else, from the words behind the first.
#[tactic(auto, unfolding(crate::specs::SessionLine::moment_line))]
fn moment_line(input: Input, number: u64, words: &[u8]) -> Option<Line>
    ensures line { result ≡ moment_line input number words.now }
{
    let moment = read_moment(words)?;
    Some(Line {
        number,
        moment,
        input,
    })
}

// The line `set M KIND:INSTANCE VALUE`, from the words behind the first.
#[tactic(auto, unfolding(crate::specs::SessionLine::value_line))]
fn value_line(alloc: Global, number: u64, words: &[u8]) -> Result<Option<Line>, NoMemory>
    ensures line { IfOk result (λ found. found ≡ value_line number words.now) }
    ensures wants { IsErr result → IsSomeAnd (value_line number words.now) IsOfOctets }
{
    let (moment, words) = split_word(words);
    let (object, value) = split_word(words);
    let Some(moment) = read_moment(moment) else {
        return Ok(None);
    };
    let Some(object) = read_object(object) else {
        return Ok(None);
    };
    let Some(value) = read_value(alloc, value)? else {
        return Ok(None);
    };
    Ok(Some(Line {
        number,
        moment,
        input: Input::Set { object, value },
    }))
}

// The line `fault M KIND:INSTANCE N`, from the words behind the first.
#[tactic(auto, unfolding(crate::specs::SessionLine::fault_line))]
fn fault_line(number: u64, words: &[u8]) -> Option<Line>
    ensures line { result ≡ fault_line number words.now }
{
    let (moment, words) = split_word(words);
    let (object, reliability) = split_word(words);
    let moment = read_moment(moment)?;
    let object = read_object(object)?;
    let reliability = unsigned(reliability, u64::from(u32::MAX))? as u32;
    Some(Line {
        number,
        moment,
        input: Input::Fault {
            object,
            reliability,
        },
    })
}

// The line `from M A.B.C.D:PORT HEX`, from the words behind the first.
#[tactic(auto, unfolding(crate::specs::SessionLine::datagram_line))]
fn datagram_line(alloc: Global, number: u64, words: &[u8]) -> Result<Option<Line>, NoMemory>
    ensures line { IfOk result (λ found. found ≡ datagram_line number words.now) }
    ensures wants { IsErr result → IsSomeAnd (datagram_line number words.now) IsOfOctets }
{
    let (moment, words) = split_word(words);
    let (peer, octets) = split_word(words);
    let Some(moment) = read_moment(moment) else {
        return Ok(None);
    };
    let Some(peer) = read_peer(peer) else {
        return Ok(None);
    };
    let Some(bytes) = read_datagram(alloc, octets)? else {
        return Ok(None);
    };
    Ok(Some(Line {
        number,
        moment,
        input: Input::Datagram { peer, bytes },
    }))
}

/// The line of a session that a text spells.
#[tactic(auto, unfolding(crate::specs::SessionLine::session_line_of))]
pub fn session_line(alloc: Global, number: u64, text: &[u8]) -> Result<Option<Line>, NoMemory>
    ensures line { IfOk result (λ found. found ≡ session_line_of number text.now) }
    ensures wants { IsErr result → IsSomeAnd (session_line_of number text.now) IsOfOctets }
{
    let (word, others) = split_word(text);
    if word == b"tick".as_slice() {
        return Ok(moment_line(Input::Tick, number, others));
    }
    if word == b"pump".as_slice() {
        return Ok(moment_line(Input::Pump, number, others));
    }
    if word == b"set".as_slice() {
        return value_line(alloc, number, others);
    }
    if word == b"fault".as_slice() {
        return Ok(fault_line(number, others));
    }
    if word == b"from".as_slice() {
        return datagram_line(alloc, number, others);
    }
    Ok(None)
}
