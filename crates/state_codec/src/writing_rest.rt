//! Classes, logs and the outbox in octets.
ghost use Rattle.std.specs.Prelude.{◌≡◌, ◌++◌, [], OnOk, length, slice_get};
ghost use Rattle.std.specs.List.{flat_map};
ghost use Rattle.std.specs.Option.{option_map_or};
ghost use Rattle.state_codec.specs.Snapshots.{written_body, written_class, written_entry, written_log, written_note, written_outbox, written_post};
ghost use Rattle.state_codec.specs.WritingSteps.{notes_at, written_delivery, written_told};

use crate::writing::{
    put_count, put_flag, put_list, put_long, put_octet_count, put_peer, put_word,
};
use alarm_core::{Core, SiteLog};
use bac_values::{NoMemory, Note, push};
use event_log::{EventLog, LogRecord};
use notify_class::Class;
use outbox::{Outbox, Post};

/// Appends the recipients of a class behind their number.
fn put_class(out: &mut Vec<u8>, class: &Class) -> Result<(), NoMemory>
    ensures written { OnOk result (out.new.items ≡ out.old.items ++ written_class class.now) }
{
    let recipients = class.destinations.as_slice();
    put_octet_count(out, recipients.len())?;
    put_list(out, recipients)
}

/// Appends classes, one behind the other.
pub(crate) fn put_classes(out: &mut Vec<u8>, classes: &[Class]) -> Result<(), NoMemory>
    ensures written { OnOk result (out.new.items ≡ out.old.items ++ flat_map written_class classes.now) }
{
    for class in classes {
        put_class(out, class)?;
    }
    Ok(())
}

/// Appends octets behind their number.
fn put_body(out: &mut Vec<u8>, body: &[u8]) -> Result<(), NoMemory>
    ensures written { OnOk result (out.new.items ≡ out.old.items ++ written_body body.now) }
{
    put_count(out, body.len())?;
    out.extend_from_slice(body)?;
    Ok(())
}

/// Appends a record of a log, with its hundredths where the site has a zone rule.
fn put_entry(out: &mut Vec<u8>, has_rule: bool, entry: &LogRecord) -> Result<(), NoMemory>
    ensures written { OnOk result (out.new.items ≡ out.old.items ++ written_entry has_rule entry.now) }
{
    out.extend_from_slice(&entry.stamp.octets)?;
    if has_rule {
        put_long(out, entry.hundredths)?;
    }
    put_body(out, entry.body.as_slice())
}

/// Appends the record at a place of a log, if there is one.
fn put_item(out: &mut Vec<u8>, has_rule: bool, log: &EventLog, place: u32) -> Result<(), NoMemory>
    ensures written { OnOk result (out.new.items ≡ out.old.items ++ option_map_or (written_entry has_rule) (slice_get log.now.records place) []) }
{
    match log.item(place) {
        Some(entry) => put_entry(out, has_rule, entry),
        None => Ok(()),
    }
}

/// Appends the records of a log, the oldest first.
fn put_items(out: &mut Vec<u8>, has_rule: bool, log: &EventLog) -> Result<(), NoMemory>
    ensures written { OnOk result (out.new.items ≡ out.old.items ++ flat_map (written_entry has_rule) log.now.records) }
{
    for place in 0..log.len() {
        put_item(out, has_rule, log, place)?;
    }
    Ok(())
}

/// Appends a log.
fn put_log(out: &mut Vec<u8>, has_rule: bool, kept: &SiteLog) -> Result<(), NoMemory>
    ensures written { OnOk result (out.new.items ≡ out.old.items ++ written_log has_rule kept.now) }
{
    let log = kept.log();
    put_flag(out, log.enabled())?;
    put_word(out, log.total())?;
    put_word(out, log.len())?;
    put_items(out, has_rule, log)
}

/// Appends logs, one behind the other.
pub(crate) fn put_logs(out: &mut Vec<u8>, has_rule: bool, logs: &[SiteLog]) -> Result<(), NoMemory>
    ensures written { OnOk result (out.new.items ≡ out.old.items ++ flat_map (written_log has_rule) logs.now) }
{
    for kept in logs {
        put_log(out, has_rule, kept)?;
    }
    Ok(())
}

/// Appends a note.
fn put_note(out: &mut Vec<u8>, note: &Note) -> Result<(), NoMemory>
    ensures written { OnOk result (out.new.items ≡ out.old.items ++ written_note note.now) }
{
    put_flag(out, note.confirmed)?;
    put_body(out, note.body.as_slice())
}

/// Appends the note at an index of the post at a place, if there is one.
fn put_note_at(out: &mut Vec<u8>, outbox: &Outbox, place: u32, index: u32) -> Result<(), NoMemory>
    ensures written { OnOk result (out.new.items ≡ out.old.items ++ option_map_or written_note (slice_get (notes_at outbox.now place) index) []) }
{
    match outbox.note(place, index) {
        Some(note) => put_note(out, note),
        None => Ok(()),
    }
}

/// Appends the notes of the post at a place, of which there are so many.
fn put_notes(out: &mut Vec<u8>, outbox: &Outbox, place: u32, count: u32) -> Result<(), NoMemory>
    requires all { count ≡ length (notes_at outbox.now place) }
    ensures written { OnOk result (out.new.items ≡ out.old.items ++ flat_map written_note (notes_at outbox.now place)) }
{
    for index in 0..count {
        put_note_at(out, outbox, place, index)?;
    }
    Ok(())
}

/// Appends what is told of a delivery: the next invoke ID, the attempts, the deadline, and how many notes there are.
fn put_delivery(out: &mut Vec<u8>, post: &Post) -> Result<(), NoMemory>
    ensures written { OnOk result (out.new.items ≡ out.old.items ++ written_delivery post.now) }
{
    push(out, post.next_invoke)?;
    push(out, post.attempts)?;
    put_long(out, post.deadline)?;
    put_count(out, post.notes as usize)
}

/// Appends what is told of a post, and how many notes it has.
fn put_told(out: &mut Vec<u8>, post: &Post) -> Result<(), NoMemory>
    ensures written { OnOk result (out.new.items ≡ out.old.items ++ written_told post.now) }
{
    put_peer(out, &post.peer)?;
    put_delivery(out, post)
}

/// Appends the post at a place, if there is one.
fn put_post(out: &mut Vec<u8>, outbox: &Outbox, place: u32) -> Result<(), NoMemory>
    ensures written { OnOk result (out.new.items ≡ out.old.items ++ option_map_or written_post (slice_get outbox.now.posts place) []) }
{
    match outbox.post(place) {
        Some(post) => {
            put_told(out, &post)?;
            put_notes(out, outbox, place, post.notes)
        }
        None => Ok(()),
    }
}

/// Appends the first posts of an outbox.
fn put_posts(out: &mut Vec<u8>, outbox: &Outbox, count: u32) -> Result<(), NoMemory>
    requires all { count ≡ length outbox.now.posts }
    ensures written { OnOk result (out.new.items ≡ out.old.items ++ flat_map written_post outbox.now.posts) }
{
    for place in 0..count {
        put_post(out, outbox, place)?;
    }
    Ok(())
}

/// Appends what waits for each known peer. Memory wouldn't hold the octets of more posts than a number of 32 bits counts.
pub(crate) fn put_outbox(out: &mut Vec<u8>, core: &Core) -> Result<(), NoMemory>
    ensures written { OnOk result (out.new.items ≡ out.old.items ++ written_outbox core.now.outbox) }
{
    let count = core.known_peers().len();
    if count > u32::MAX as usize {
        return Err(NoMemory);
    }
    put_count(out, count)?;
    put_posts(out, core.outbox(), count as u32)
}
