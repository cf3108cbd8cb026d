//! How long a snapshot may become, and how large a device has to be.
ghost use Rattle.std.specs.Prelude.{◌≡◌, ◌<◌, ◌≤◌, ◌^◌, count_by, length, sum_by};
ghost use Rattle.bac_values.specs.Limits.{most_records};
ghost use Rattle.alarm_core.specs.Limits.{size_of};
ghost use Rattle.alarm_core.specs.Sites.{IsSite};
ghost use Rattle.state_codec.specs.Sizes.{has_alarm, most_text, need, record_octets, snapshot_bound};
ghost use Rattle.state_codec.specs.WritingSteps.{logs_bound, objects_bound, outbox_bound};

use crate::writing_state::has_rule;
use alarm_core::{LogSite, Site};
use object_table::ObjectSite;

/// The version, the number of events, the last moment, and the number of known peers.
const FRAME_OCTETS: u64 = 19;

/// At most so many octets of a value object.
const OBJECT_OCTETS: u64 = 320;

/// At most so many octets of an alarm.
const ALARM_OCTETS: u64 = 128;

/// At most so many octets of a class: their number, and 32 recipients.
const CLASS_OCTETS: u64 = 993;

/// The octets of a log beside its records.
const LOG_OCTETS: u64 = 9;

/// At most so many octets of all posts beside their notes: 8,192 posts.
const POST_OCTETS: u64 = 229_376;

/// At most so many octets of a note.
const NOTE_OCTETS: u64 = 1_027;

/// At most so many octets of a log's record at a site without a zone rule.
const RECORD_OCTETS: u64 = 1_034;

/// At most so many octets of a log's record at a site with a zone rule.
const RULE_RECORD_OCTETS: u64 = 1_042;

/// What stands before the areas of a device beside the site's text.
const HEADER_OCTETS: u64 = 22;

/// What an area is to take beside the longest snapshot.
const BATCH_OCTETS: u64 = 60_010;

/// How many of some value objects have a notification class.
fn count_alarms(objects: &[ObjectSite]) -> u64
    ensures count { result ≡ count_by has_alarm objects.now }
    ensures few { result ≤ length objects.now }
{
    let mut count = 0;
    for site in objects {
        count += u64::from(site.class.is_some());
    }
    count
}

/// How many records some logs hold together.
fn count_records(logs: &[LogSite]) -> u64
    requires few { sum_by size_of logs.now ≤ most_records }
    ensures count { result ≡ sum_by size_of logs.now }
{
    let mut count = 0;
    for listed in logs {
        count += u64::from(listed.size);
    }
    count
}

/// The longest record of a site's logs.
fn record_octets(site: &Site) -> u64
    ensures longest { result ≡ record_octets site.now }
{
    if has_rule(site) {
        RULE_RECORD_OCTETS
    } else {
        RECORD_OCTETS
    }
}

/// The longest of a site's objects, alarms and classes together.
fn objects_bound(site: &Site) -> u64
    requires site { IsSite site.now }
    ensures bound { result ≡ objects_bound site.now }
    ensures fits { result < 2 ^ 60 }
{
    let objects = site.objects.as_slice();
    let alarms = count_alarms(objects) + site.enrollments.as_slice().len() as u64;
    let classes = site.classes.as_slice().len() as u64;
    OBJECT_OCTETS * objects.len() as u64 + ALARM_OCTETS * alarms + CLASS_OCTETS * classes
}

/// The longest of a site's logs together.
fn logs_bound(site: &Site) -> u64
    requires site { IsSite site.now }
    ensures bound { result ≡ logs_bound site.now }
    ensures fits { result < 2 ^ 60 }
{
    let logs = site.logs.as_slice();
    LOG_OCTETS * logs.len() as u64 + record_octets(site) * count_records(logs)
}

/// The longest outbox of a site.
fn outbox_bound(site: &Site) -> u64
    ensures bound { result ≡ outbox_bound site.now }
    ensures fits { result < 2 ^ 60 }
{
    POST_OCTETS + NOTE_OCTETS * u64::from(site.device.outbox)
}

/// The longest of all parts together.
fn bound_of(site: &Site) -> u64
    requires site { IsSite site.now }
    ensures bound { result ≡ snapshot_bound site.now }
    ensures fits { result < 2 ^ 62 }
{
    FRAME_OCTETS + objects_bound(site) + logs_bound(site) + outbox_bound(site)
}

/// No snapshot of the site is longer. It is below 36,000,000.
pub fn snapshot_bound(site: &Site) -> u64
    requires site { IsSite site.now }
    ensures bound { result ≡ snapshot_bound site.now }
{
    bound_of(site)
}

/// How many octets the device of a site's journal has to have, where the site's text has so many.
pub fn need(site: &Site, text: u64) -> u64
    requires site { IsSite site.now }
    requires short { text ≤ most_text }
    ensures need { result ≡ need site.now text }
{
    HEADER_OCTETS + text + 2 * (BATCH_OCTETS + bound_of(site))
}
