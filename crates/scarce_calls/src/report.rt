//! What the parts print.

use crate::missed::Missed;
use bac_values::ReportLine;
use script_lines::write_report;
use std::alloc::Global;

/// What a part prints.
pub(crate) type Text = Vec<u8>;

/// What is printed in place of the rest of a part whose ground in memory failed: it found no memory for an entry of its trace.
pub(crate) const DISK_FAULT: &str = "disk fault";

/// A line of a text.
pub(crate) fn say(text: &mut Text, line: &str) -> Result<(), Missed> {
    text.extend_from_slice(line.as_bytes())?;
    text.push(b'\n')?;
    Ok(())
}

/// A line with octets, two digits each.
pub(crate) fn say_octets(
    alloc: Global,
    text: &mut Text,
    name: &str,
    octets: &[u8],
) -> Result<(), Missed> {
    text.extend_from_slice(name.as_bytes())?;
    text.push(b' ')?;
    for octet in octets {
        let digits = format!(in alloc; "{octet:02x}")?;
        text.extend_from_slice(digits.as_bytes())?;
    }
    text.push(b'\n')?;
    Ok(())
}

/// A line of a session's report.
pub(crate) fn say_report(alloc: Global, text: &mut Text, line: &ReportLine) -> Result<(), Missed> {
    let written = match write_report(alloc, line) {
        Ok(written) => written,
        Err(_) => write_report(alloc, line)?,
    };
    text.extend_from_slice(written.as_slice())?;
    Ok(())
}
