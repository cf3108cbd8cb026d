//! How many lines of each kind a report has.

ghost use Rattle.std.specs.Prelude.{◌≡◌, ◌+◌, ◌∷◌, [], OnOk};
ghost use Rattle.alarm_server.specs.Tallies.{no_tally, tally_with};

use bac_values::{NoMemory, ReportLine};

/// How many lines of each kind the report of a session has.
#[derive(Clone, Copy, Debug, PartialEq, Eq)]
pub struct Tally {
    /// Lines that are events.
    pub events: u64,
    /// Changes of event states.
    pub changes: u64,
    /// Datagrams.
    pub sends: u64,
    /// Lines whose event wasn't taken, since its notifications don't fit.
    pub full: u64,
}

// One more; a count that is at its last value is as good as no memory.
fn raise(count: &mut u64) -> Result<(), NoMemory>
    ensures raised { OnOk result (count.new ≡ count.old + 1) }
{
    match count.checked_add(1) {
        Some(next) => {
            *count = next;
            Ok(())
        }
        None => Err(NoMemory),
    }
}

impl Tally {
    /// Nothing yet.
    pub fn new() -> Tally
        ensures nothing { result ≡ no_tally }
    {
        Tally {
            events: 0,
            changes: 0,
            sends: 0,
            full: 0,
        }
    }

    fn add_line(&mut self, line: &ReportLine) -> Result<(), NoMemory>
        ensures counted { OnOk result (self.new ≡ tally_with (line.now ∷ []) self.old) }
    {
        match line {
            ReportLine::Entered { .. } => raise(&mut self.events),
            ReportLine::Change { .. } => raise(&mut self.changes),
            ReportLine::Sent { .. } => raise(&mut self.sends),
            ReportLine::Full { .. } => raise(&mut self.full),
            _ => Ok(()),
        }
    }

    /// Counts the lines of one more piece.
    pub fn add(&mut self, piece: &[ReportLine]) -> Result<(), NoMemory>
        ensures counted { OnOk result (self.new ≡ tally_with piece.now self.old) }
    {
        for line in piece {
            self.add_line(line)?;
        }
        Ok(())
    }
}
