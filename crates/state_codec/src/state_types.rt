//! What the types of a core's parts say of its state, for proofs alone: what is asked in a `prove!` costs nothing as the
//! program runs.
ghost use Rattle.std.specs.Prelude.{◌≡◌, ◌<◌, ◌^◌, true, All, IfSome, OnOk, length, slice_get};
ghost use Rattle.state_codec.specs.SnapshotLaws.{FitsAlarm, FitsRow, FitsRunAt, IsStamp};
ghost use Rattle.state_codec.specs.Spelled.{FitsClass, FitsDetected, FitsEntry, FitsLog, FitsPost, FitsState};
ghost use Rattle.state_codec.specs.WritingSteps.{FitsTold};

use crate::types::{destinations_fit, peer_fits, value_fits};
use crate::writing_state::has_rule;
use alarm_core::{Core, DetectedObject, SiteLog};
use bac_values::{NoMemory, Stamp};
use event_log::{EventLog, LogRecord};
use event_machine::Run;
use notify_class::Class;
use object_table::Row;
use outbox::{Outbox, Post};

// Whether a delay is below 2^32, where there is one.
fn delay_fits(delay: Option<u32>) -> bool
    ensures fits { IfSome delay (λ seconds. seconds < 2 ^ 32) }
    ensures always { result ≡ true }
{
    let _delay = delay;
    true
}

// Whether a row keeps the rules of the types of its parts, as each does.
fn row_fits(row: &Row) -> bool
    ensures fits { FitsRow row.now }
    ensures always { result ≡ true }
{
    prove!(delay_fits(row.site.time_delay_normal));
    let _delay = row.site.time_delay;
    let _deadband = row.site.deadband;
    let _fault = row.field_fault;
    value_fits(&row.site.value)
}

// Rows do.
fn rows_fit(rows: &[Row])
    ensures fit { All FitsRow rows.now }
{
    prove!(rows.iter().all(|row| row_fits(row)));
}

// Whether a stamp has eight octets.
fn stamp_fits(stamp: Stamp) -> bool
    ensures fits { IsStamp stamp }
    ensures always { result ≡ true }
{
    let _octets = stamp.octets;
    true
}

// Whether the key of a run is below 2^32, if there is one.
fn run_fits(run: Option<Run>) -> bool
    ensures fits { FitsRunAt run }
    ensures always { result ≡ true }
{
    let _run = run;
    true
}

// Three stamps have eight octets each.
fn stamps_fit(stamps: [Stamp; 3])
    ensures fit { All IsStamp stamps }
{
    prove!(stamps.iter().all(|stamp| stamp_fits(*stamp)));
}

// The keys of runs are below 2^32.
fn runs_fit(runs: [Option<Run>; 3])
    ensures fit { All FitsRunAt runs }
{
    prove!(runs.iter().all(|run| run_fits(*run)));
}

// Whether the alarm of an object keeps the rules of the types of its parts.
fn detected_fits(detected: &DetectedObject) -> bool
    ensures fits { FitsDetected detected.now }
    ensures always { result ≡ true }
{
    let alarm = detected.alarm();
    stamps_fit(alarm.stamps());
    runs_fit(alarm.runs());
    true
}

// The alarms of objects do.
fn alarms_fit(alarms: &[DetectedObject])
    ensures fit { All FitsDetected alarms.now }
{
    prove!(alarms.iter().all(|detected| detected_fits(detected)));
}

// Whether a class does.
fn class_fits(class: &Class) -> bool
    ensures fits { FitsClass class.now }
    ensures always { result ≡ true }
{
    destinations_fit(class.destinations.as_slice());
    true
}

// Classes do.
fn classes_fit(classes: &[Class])
    ensures fit { All FitsClass classes.now }
{
    prove!(classes.iter().all(|class| class_fits(class)));
}

// Whether a record of a log does.
fn entry_fits(rule: bool, entry: &LogRecord) -> bool
    ensures fits { FitsEntry rule entry.now }
    ensures always { result ≡ true }
{
    let _hundredths = entry.hundredths;
    stamp_fits(entry.stamp)
}

// Whether the record at a place of a log does, if there is one.
fn item_fits(rule: bool, log: &EventLog, place: u32) -> bool
    ensures fits { IfSome (slice_get log.now.records place) (FitsEntry rule) }
    ensures always { result ≡ true }
{
    match log.item(place) {
        Some(entry) => entry_fits(rule, entry),
        None => true,
    }
}

// Whether the records of a log do.
fn items_fit(rule: bool, log: &EventLog) -> bool
    ensures fit { All (FitsEntry rule) log.now.records }
    ensures always { result ≡ true }
{
    for place in 0..log.len() {
        prove!(item_fits(rule, log, place));
    }
    true
}

// Whether a log does.
fn log_fits(rule: bool, kept: &SiteLog) -> bool
    ensures fits { FitsLog rule kept.now }
    ensures always { result ≡ true }
{
    items_fit(rule, kept.log())
}

// Logs do.
fn logs_fit(rule: bool, logs: &[SiteLog])
    ensures fit { All (FitsLog rule) logs.now }
{
    prove!(logs.iter().all(|kept| log_fits(rule, kept)));
}

// Whether what is told of a post does.
fn told_fits(post: &Post) -> bool
    ensures fits { FitsTold post.now }
    ensures always { result ≡ true }
{
    let _invoke = post.next_invoke;
    let _attempts = post.attempts;
    let _deadline = post.deadline;
    peer_fits(post.peer)
}

// Whether the post at a place does, if there is one.
fn post_fits(outbox: &Outbox, place: u32) -> bool
    ensures fits { IfSome (slice_get outbox.now.posts place) FitsPost }
    ensures always { result ≡ true }
{
    match outbox.post(place) {
        Some(post) => told_fits(&post),
        None => true,
    }
}

// Whether the posts of an outbox do, of which there are so many.
fn are_fit(outbox: &Outbox, count: u32) -> bool
    requires all { count ≡ length outbox.now.posts }
    ensures fit { All FitsPost outbox.now.posts }
    ensures always { result ≡ true }
{
    for place in 0..count {
        prove!(post_fits(outbox, place));
    }
    true
}

// The posts of an outbox do.
fn posts_fit(outbox: &Outbox, count: u32)
    requires all { count ≡ length outbox.now.posts }
    ensures fit { All FitsPost outbox.now.posts }
{
    prove!(are_fit(outbox, count));
}

// So do those of a core. Memory wouldn't hold more of them than a number of 32 bits counts.
fn outbox_fits(core: &Core) -> Result<(), NoMemory>
    ensures fit { OnOk result (All FitsPost core.now.outbox.posts) }
{
    let count = core.known_peers().len();
    if count > u32::MAX as usize {
        return Err(NoMemory);
    }
    posts_fit(core.outbox(), count as u32);
    Ok(())
}

/// Every core's state keeps the rules of the types of its parts: each number fits its field, and values, stamps, recipients
/// and peers keep the rules of their types. It takes no memory.
pub(crate) fn state_fits(core: &Core) -> Result<(), NoMemory>
    ensures fits { OnOk result (FitsState core.now) }
{
    outbox_fits(core)?;
    rows_fit(core.table().rows());
    alarms_fit(core.alarms());
    classes_fit(core.classes());
    logs_fit(has_rule(core.site()), core.logs());
    Ok(())
}
