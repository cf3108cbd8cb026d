//! The parts of which a core is made.

use bac_values::Items;
use enrollment::Enrollments;
use event_log::EventLog;
use event_machine::Alarm;
use notify_class::Class;
use object_table::Table;
use outbox::Outbox;

/// What a core is made of, beside what its site says.
#[derive(Drop)]
pub struct Parts {
    /// How many events there were.
    pub events: u64,
    /// The moment of the last of them, or the site's start, in milliseconds since 1970.
    pub last_moment: u64,
    /// The value objects, ascending, as the writes have left them.
    pub table: Table,
    /// The event enrollments, ascending, as the writes have left them, which know who refers to an object.
    pub enrollments: Enrollments,
    /// The alarms of the value objects with a notification class and of the enrollments, by ascending identifier.
    pub alarms: Items<Alarm>,
    /// The notification classes, ascending, with their lists as the edits have left them.
    pub classes: Items<Class>,
    /// The event logs, in the order of the site.
    pub logs: Items<EventLog>,
    /// What waits for each known peer.
    pub outbox: Outbox,
}
