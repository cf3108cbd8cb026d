//! The lines of a report in text.

ghost use Rattle.std.specs.Prelude.{◌≡◌, IfOk, string_bytes};
ghost use Rattle.script_lines.specs.Report.{object_text, address_text, counts_text, number_text, report_text, word_text};

use crate::names::{kind_name, refusal_word, state_name};
use bac_values::{EventState, Items, Moved, NoMemory, ObjectId, Peer, ReportLine, Send, SetFault};
use std::alloc::{AllocError, Global};

/// The text `KIND:INSTANCE` of an object, with the type's number where it has no name.
pub fn object_text(alloc: Global, object: ObjectId) -> Result<String, AllocError>
    ensures text { IfOk result (λ text. string_bytes text ≡ object_text object) }
{
    let instance = object.instance();
    match object.kind() {
        Some(kind) => {
            let kind = kind_name(kind);
            format!(in alloc; "{kind}:{instance}")
        }
        None => {
            let number = object.number();
            format!(in alloc; "{number}:{instance}")
        }
    }
}

// A.B.C.D:PORT.
fn address_text(alloc: Global, peer: Peer) -> Result<String, AllocError>
    ensures text { IfOk result (λ text. string_bytes text ≡ address_text peer) }
{
    let ip = peer.ip;
    let port = peer.port;
    let (a, b, c, d) = (ip / 16_777_216, ip / 65_536 % 256, ip / 256 % 256, ip % 256);
    format!(in alloc; "{a}.{b}.{c}.{d}:{port}")
}

// N change KIND:INSTANCE FROM TO.
fn change_text(alloc: Global, line: u64, moved: Moved) -> Result<String, AllocError>
    ensures text { IfOk result (λ text. string_bytes text ≡ report_text (ReportLine.Change line moved)) }
{
    let object = object_text(alloc, moved.object)?;
    let from = state_name(moved.from);
    let to = state_name(moved.to);
    format!(in alloc; "{line} change {object} {from} {to}\n")
}

// N send A.B.C.D:PORT hex.
fn send_text(alloc: Global, line: u64, send: &Send) -> Result<String, AllocError>
    ensures text { IfOk result (λ text. string_bytes text ≡ report_text (ReportLine.Sent line send.now)) }
{
    let address = address_text(alloc, send.peer)?;
    let octets = hex::encode(alloc, send.bytes.as_slice())?;
    format!(in alloc; "{line} send {address} {octets}\n")
}

// packet hex.
fn packet_text(alloc: Global, packet: &Items<u8>) -> Result<String, AllocError>
    ensures text { IfOk result (λ text. string_bytes text ≡ report_text (ReportLine.Packet packet.now)) }
{
    let octets = hex::encode(alloc, packet.as_slice())?;
    format!(in alloc; "packet {octets}\n")
}

// N WORD NUMBER.
fn number_text(alloc: Global, line: u64, word: &str, number: u64) -> Result<String, AllocError>
    ensures text { IfOk result (λ text. string_bytes text ≡ number_text line word.now number) }
{
    format!(in alloc; "{line} {word} {number}\n")
}

// events E changes C sends S full F.
fn counts_text(
    alloc: Global,
    events: u64,
    changes: u64,
    sends: u64,
    full: u64,
) -> Result<String, AllocError>
    ensures text { IfOk result (λ text. string_bytes text ≡ counts_text events changes sends full) }
{
    format!(in alloc; "events {events} changes {changes} sends {sends} full {full}")
}

// MOMENT FROM TO.
fn move_text(
    alloc: Global,
    moment: u64,
    from: EventState,
    to: EventState,
) -> Result<String, AllocError>
    ensures text { IfOk result (λ text. string_bytes text ≡ report_text (ReportLine.TrialMove moment from to)) }
{
    let from = state_name(from);
    let to = state_name(to);
    format!(in alloc; "{moment} {from} {to}\n")
}

// N refused WORD.
fn refused_text(alloc: Global, line: u64, why: SetFault) -> Result<String, AllocError>
    ensures text { IfOk result (λ text. string_bytes text ≡ report_text (ReportLine.Refused line why)) }
{
    let word = refusal_word(why);
    format!(in alloc; "{line} refused {word}\n")
}

// end N EVENTS.
fn end_text(alloc: Global, number: u64, events: u64) -> Result<String, AllocError>
    ensures text { IfOk result (λ text. string_bytes text ≡ report_text (ReportLine.End number events)) }
{
    format!(in alloc; "end {number} {events}\n")
}

// N WORD.
fn word_text(alloc: Global, line: u64, word: &str) -> Result<String, AllocError>
    ensures text { IfOk result (λ text. string_bytes text ≡ word_text line word.now) }
{
    format!(in alloc; "{line} {word}\n")
}

// The text of a report's line.
fn line_text(alloc: Global, line: &ReportLine) -> Result<String, AllocError>
    ensures text { IfOk result (λ text. string_bytes text ≡ report_text line.now) }
{
    match line {
        ReportLine::TrialMove { moment, from, to } => move_text(alloc, *moment, *from, *to),
        ReportLine::TrialEnd { lines } => format!(in alloc; "end {lines}\n"),
        ReportLine::Open { events } => format!(in alloc; "open {events}\n"),
        ReportLine::Entered {
            line,
            event,
            moment,
        } => format!(in alloc; "{line} entered {event} {moment}\n"),
        ReportLine::Idle { line } => word_text(alloc, *line, "idle"),
        ReportLine::Ignored { line } => word_text(alloc, *line, "ignored"),
        ReportLine::Refused { line, why } => refused_text(alloc, *line, *why),
        ReportLine::Reply { line } => word_text(alloc, *line, "reply"),
        ReportLine::Full { line, would, limit } => {
            format!(in alloc; "{line} full {would} {limit}\n")
        }
        ReportLine::Change { line, moved } => change_text(alloc, *line, *moved),
        ReportLine::Sent { line, send } => send_text(alloc, *line, send),
        ReportLine::End { lines, events } => end_text(alloc, *lines, *events),
        ReportLine::Packet { packet } => packet_text(alloc, packet),
        ReportLine::ShipEnd { packets, events } => end_text(alloc, *packets, *events),
        ReportLine::Malformed { line } => word_text(alloc, *line, "malformed"),
        ReportLine::Gap { line, events } => number_text(alloc, *line, "gap", *events),
        ReportLine::Repeat { line, events } => number_text(alloc, *line, "repeat", *events),
        ReportLine::Part { line, place } => number_text(alloc, *line, "part", u64::from(*place)),
        ReportLine::Taken { line, events } => number_text(alloc, *line, "taken", *events),
        ReportLine::Summary {
            seed,
            count,
            events,
            changes,
            sends,
            full,
        } => {
            let counts = counts_text(alloc, *events, *changes, *sends, *full)?;
            format!(in alloc; "workload {seed} {count} {counts}\n")
        }
    }
}

/// The octets of a report's line, a line feed at its end. Octets are written as hexadecimal digits in small letters.
pub fn write_report(alloc: Global, line: &ReportLine) -> Result<Vec<u8>, NoMemory>
    ensures text { IfOk result (λ octets. octets.items ≡ report_text line.now) }
{
    let text = line_text(alloc, line)?;
    Ok(text.into_bytes())
}
