//! What was read of a script and not given out.

ghost use Rattle.std.specs.Prelude.{◌≡◌, ◌+◌, ◌<◌, ◌≤◌, [], length, take, drop, vec_len, vec_capacity, IfOk, IsErr, OnErr, OnOk, MatchBool};
ghost use Rattle.std.specs.Io.KnownBytes.{prepend_known, IsAtEnd};
ghost use Rattle.ground_io.specs.Source.{Keeps};
ghost use Rattle.ground_io.specs.Counts.{HasCause};

use crate::line::LONGEST_LINE;
use ground_io::{Failed, Source};
use std::alloc::{AllocError, Global};
use std::marker::Model;

// How many octets are read at once.
const CHUNK: usize = 8192;

// Room for the front of a line whose end isn't read yet, and for what is read at once behind it.
const ROOM: usize = LONGEST_LINE + CHUNK;

// Reads once, behind the octets that are there. `false` is the source's end.
fn read_behind<S: Source>(source: &mut S, octets: &mut Vec<u8>) -> Result<bool, Failed>
    requires room { vec_len octets.old + 8192 ≤ vec_capacity octets.old }
    ensures room { vec_capacity octets.old ≤ vec_capacity octets.new }
    ensures octets { Keeps (prepend_known octets.old.items (S.left source.old)) (prepend_known octets.new.items (S.left source.new)) }
    ensures more { IfOk result (λ more. MatchBool more (vec_len octets.old < vec_len octets.new)
        (IsAtEnd (S.left source.new) × (octets.new.items ≡ octets.old.items))) }
    ensures front { take (length octets.old.items) octets.new.items ≡ octets.old.items }
    ensures same { OnErr result (octets.new.items ≡ octets.old.items) }
    ensures cause { HasCause (S.faults source.old) (S.faults source.new) (IsErr result) }
    ensures uncounted { OnOk result (S.faults source.new ≡ S.faults source.old) }
{
    let mut chunk = [0; CHUNK];
    let count = source.read(&mut chunk)?;
    octets.extend_from_slice(&chunk[..count]).unwrap();
    Ok(count > 0)
}

// Takes octets off the front.
fn bring_forward(octets: &mut Vec<u8>, count: usize)
    requires { count ≤ vec_len octets.old }
    ensures rest { octets.new.items ≡ drop count octets.old.items }
    ensures room { vec_capacity octets.new ≡ vec_capacity octets.old }
{
    let rest = octets.len() - count;
    octets.copy_within(count.., 0);
    octets.truncate(rest);
}

/// Octets that were read and not given out. Contracts see their list.
#[derive(Drop)]
pub struct Pending {
    buffer: Vec<u8>,
    start: usize,
}

impl Model for Pending {
    ghost use Rattle.std.specs.Prelude.{ℕ, ◌≤◌, List, drop, vec_len, vec_capacity};

    ghost Value = { List ℕ };

    ghost view = { λ pending. drop pending.start pending.buffer.items };

    ghost invariant = { λ pending. (pending.start ≤ vec_len pending.buffer) × (12288 ≤ vec_capacity pending.buffer) };
}

impl Pending {
    /// None, with room for all that is ever to be held at once.
    pub fn new(alloc: Global) -> Result<Pending, AllocError>
        ensures none { IfOk result (λ pending. pending ≡ []) }
    {
        let buffer = Vec::with_capacity(alloc, ROOM)?;
        Ok(Pending { buffer, start: 0 })
    }

    /// The octets.
    pub fn octets(&self) -> &[u8]
        ensures same { result.now ≡ self.now }
    {
        &self.buffer[self.start..]
    }

    /// Gives so many octets out, from the front.
    pub fn take(&mut self, count: usize)
        requires { count ≤ length self.old }
        ensures rest { self.new ≡ drop count self.old }
    {
        self.start += count;
    }

    /// Reads once, behind the octets that are there. `false` is the source's end. It takes no memory: there is room for the
    /// front of a line and a reading behind it.
    pub fn read<S: Source>(&mut self, source: &mut S) -> Result<bool, Failed>
        requires front { length self.old ≤ 4096 }
        ensures octets { Keeps (prepend_known self.old (S.left source.old)) (prepend_known self.new (S.left source.new)) }
        ensures more { IfOk result (λ more. MatchBool more (length self.old < length self.new)
            (IsAtEnd (S.left source.new) × (self.new ≡ self.old))) }
        ensures front { take (length self.old) self.new ≡ self.old }
        ensures same { OnErr result (self.new ≡ self.old) }
        ensures cause { HasCause (S.faults source.old) (S.faults source.new) (IsErr result) }
        ensures uncounted { OnOk result (S.faults source.new ≡ S.faults source.old) }
    {
        bring_forward(&mut self.buffer, self.start);
        self.start = 0;
        read_behind(source, &mut self.buffer)
    }
}
