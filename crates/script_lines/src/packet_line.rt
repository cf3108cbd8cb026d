//! The lines of a script of packets.

ghost use Rattle.std.specs.Prelude.{◌≡◌, ◌≤◌, IfOk, IfSome, IsErr, IsSome, length};
ghost use Rattle.script_lines.specs.PacketLine.{packet_line, packet_of};

use crate::Says;
use crate::line::{LONGEST_LINE, is_beyond, is_skipped};
use crate::value::{copied, fill};
use crate::words::split_word;
use bac_values::{Items, NoMemory};
use std::alloc::Global;

/// A line of a script of packets.
#[derive(Debug, Drop)]
pub struct PacketLine {
    /// The line's number, from 1. Blank lines and comments count.
    pub number: u64,
    /// The packet's octets, of which there are 1 to 2,044.
    pub packet: Items<u8>,
}

// The packet whose octets pairs of hexadecimal digits spell.
fn read_packet(alloc: Global, digits: &[u8]) -> Result<Option<Items<u8>>, NoMemory>
    requires size { length digits.now ≤ 4096 }
    ensures packet { IfOk result (λ found. found ≡ packet_of digits.now) }
    ensures wants { IsErr result → IsSome (packet_of digits.now) }
{
    let mut room = [0; LONGEST_LINE / 2];
    let octets = &mut room[..digits.len() / 2];
    if !fill(digits, octets) || octets.is_empty() {
        return Ok(None);
    }
    Ok(Some(copied(alloc, octets)?))
}

// The line `packet HEX` that a text spells.
#[tactic(auto, unfolding(crate::specs::PacketLine::packet_line), using(crate::proofs::Packets::others_within))]
fn packet_line(alloc: Global, number: u64, text: &[u8]) -> Result<Option<PacketLine>, NoMemory>
    requires size { length text.now ≤ 4096 }
    ensures line { IfOk result (λ found. found ≡ packet_line number text.now) }
    ensures number { IfOk result (λ found. IfSome found (λ line. line.number ≡ number)) }
    ensures wants { IsErr result → IsSome (packet_line number text.now) }
{
    let (word, digits) = split_word(text);
    if word != b"packet".as_slice() {
        return Ok(None);
    }
    match read_packet(alloc, digits)? {
        Some(packet) => Ok(Some(PacketLine { number, packet })),
        None => Ok(None),
    }
}

impl PacketLine {
    ghost use Rattle.std.specs.Prelude.{◌≡◌, IfOk, IsErr};
    ghost use Rattle.script_lines.specs.Line.{IfSpells, IsSpelled};
    ghost use Rattle.script_lines.specs.PacketLine.{packet_says};

    /// What the octets of a line say of a script of packets; its number counts blank lines and comments. A line has no line
    /// feed, at most 4,096 octets, and a number up to 1,000,000: what is beyond that is outside the grammar. Memory is wanted
    /// only by a line of the grammar.
    pub fn says(alloc: Global, number: u64, text: &[u8]) -> Result<Says<PacketLine>, NoMemory>
        ensures says { IfOk result (λ says. says ≡ packet_says number text.now) }
        ensures number { IfOk result (λ says. IfSpells says (λ line. line.number ≡ number)) }
        ensures wants { IsErr result → IsSpelled (packet_says number text.now) }
    {
        if is_beyond(number, text) {
            return Ok(Says::Outside);
        }
        if is_skipped(text) {
            return Ok(Says::Skipped);
        }
        match packet_line(alloc, number, text)? {
            Some(line) => Ok(Says::Spells(line)),
            None => Ok(Says::Outside),
        }
    }
}
