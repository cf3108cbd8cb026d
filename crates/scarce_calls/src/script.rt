//! The scripts of the parts, and a reader of their lines.

ghost use Rattle.std.specs.Prelude.{◌≡◌, IfOk};
ghost use Rattle.script_lines.specs.declared.line.Grammar.TheVariants.{Session};

use crate::missed::Missed;
use ground_io::{Failed, Source};
use script_lines::{Line, LineFault, Lines};
use std::alloc::Global;

/// The octets of a script.
#[derive(Drop)]
pub(crate) struct Script<'a> {
    octets: &'a [u8],
}

impl<'a> Script<'a> {
    pub(crate) fn of(octets: &'a [u8]) -> Script<'a> {
        Script { octets }
    }
}

impl Source for Script<'_> {
    ghost use Rattle.std.specs.Prelude.{None};

    ghost left = { λ _. None };

    ghost faults = { λ _. 0 };

    fn read(&mut self, into: &mut [u8]) -> Result<usize, Failed> {
        let count = self.octets.len().min(into.len());
        into[..count].copy_from_slice(&self.octets[..count]);
        self.octets = &self.octets[count..];
        Ok(count)
    }
}

/// A reader of lines.
pub(crate) fn lines_of(alloc: Global) -> Result<Lines, Missed>
    ensures grammar { IfOk result (λ lines. lines.grammar ≡ Session) }
{
    match Lines::new(alloc) {
        Ok(lines) => Ok(lines),
        Err(_) => Ok(Lines::new(alloc)?),
    }
}

/// The next line of a script, if it has one.
pub(crate) fn next_line(lines: &mut Lines, script: &mut Script<'_>) -> Result<Option<Line>, Missed>
    requires grammar { lines.old.grammar ≡ Session }
    ensures grammar { lines.new.grammar ≡ Session }
{
    let found = match lines.next_line(script) {
        Err(LineFault::NoMemory) => lines.next_line(script),
        found => found,
    };
    match found {
        Ok(line) => Ok(line),
        Err(LineFault::NoMemory) => Err(Missed::Twice),
        Err(_) => Err(Missed::Other),
    }
}

/// The line that sets a tank to a value, a number of milliseconds behind the start.
fn push_set(
    alloc: Global,
    script: &mut Vec<u8>,
    at: u64,
    instance: u32,
    value: u32,
) -> Result<(), Missed> {
    let moment = 1_700_000_000_000u64.saturating_add(at);
    let line = format!(in alloc; "set {moment} integer-value:{instance} signed:{value}\n")?;
    script.extend_from_slice(line.as_bytes())?;
    Ok(())
}

/// Sixty-three alarms and their ends, one more for whose notifications there is no room, a pump, the answer to what it sends,
/// and the alarm again.
pub(crate) fn full_script(alloc: Global) -> Result<Vec<u8>, Missed> {
    let mut script = Vec::new(alloc);
    for at in 0..63u64 {
        let value = if at % 2 == 0 { 90 } else { 50 };
        push_set(alloc, &mut script, at, 1, value)?;
    }
    push_set(alloc, &mut script, 63, 2, 90)?;
    script.extend_from_slice(
        b"pump 1700000000064\nfrom 1700000000065 10.0.0.6:47808 810a00090100200002\n",
    )?;
    push_set(alloc, &mut script, 66, 2, 90)?;
    Ok(script)
}
