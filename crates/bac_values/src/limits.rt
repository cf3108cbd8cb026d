//! The limits of this server, each the number of the same name in `specs/Limits.antt`.

ghost use Rattle.std.specs.Prelude.{◌≡◌};
ghost use Rattle.bac_values.specs.Limits.{most_objects, most_classes, most_destinations, most_logs, most_records, most_bindings, most_listed_values, most_peers, least_outbox, most_outbox, most_pending_calls, most_events, most_text_octets, most_bits, most_note_octets, most_datagram_octets, most_site_octets, most_record_octets, most_batch_octets, snapshot_octets_limit};

/// The most value objects and enrollments of a site, together.
pub const MOST_OBJECTS: usize = 2_048;

/// The most notification classes of a site.
pub const MOST_CLASSES: usize = 256;

/// The most destinations of a notification class.
pub const MOST_DESTINATIONS: usize = 32;

/// The most event logs of a site.
pub const MOST_LOGS: usize = 16;

/// The most records of all event logs of a site, together.
pub const MOST_RECORDS: u32 = 16_384;

/// The most bindings of a site, each of a device to the peer at which it is.
pub const MOST_BINDINGS: usize = 256;

/// The most alarm values of an object, and the most fault values.
pub const MOST_LISTED_VALUES: usize = 32;

/// The most peers that may be known: those of the site's destinations and of all that were entered since.
pub const MOST_PEERS: usize = 8_192;

/// The least number of notifications for which a site may have room.
pub const LEAST_OUTBOX: u32 = 64;

/// The greatest number of notifications for which a site may have room.
pub const MOST_OUTBOX: u32 = 16_384;

/// The most calls with a record or a datagram that wait for a commit.
pub const MOST_PENDING_CALLS: u64 = 1_024;

/// The most events of a history.
pub const MOST_EVENTS: u64 = 1 << 63;

/// The most octets of a text.
pub const MOST_TEXT_OCTETS: usize = 256;

/// The most bits of a bit string.
pub const MOST_BITS: u8 = 64;

/// The most octets of a notification's parameters.
pub const MOST_NOTE_OCTETS: usize = 1_024;

/// The most octets of a datagram.
pub const MOST_DATAGRAM_OCTETS: usize = 1_497;

/// The most octets of a site's text.
pub const MOST_SITE_OCTETS: usize = 1_048_576;

/// The most octets of an event in a journal.
pub const MOST_RECORD_OCTETS: u64 = 2_048;

/// The most octets of the events that one write to a journal takes.
pub const MOST_BATCH_OCTETS: u64 = 60_000;

/// A snapshot has fewer octets.
pub const SNAPSHOT_OCTETS_LIMIT: u64 = 36_000_000;

/// Each limit is the one that contracts name.
pub fn limits_are_those_of_contracts()
    ensures objects { MOST_OBJECTS ≡ most_objects }
    ensures classes { MOST_CLASSES ≡ most_classes }
    ensures destinations { MOST_DESTINATIONS ≡ most_destinations }
    ensures logs { MOST_LOGS ≡ most_logs }
    ensures records { MOST_RECORDS ≡ most_records }
    ensures bindings { MOST_BINDINGS ≡ most_bindings }
    ensures listed_values { MOST_LISTED_VALUES ≡ most_listed_values }
    ensures peers { MOST_PEERS ≡ most_peers }
    ensures least_outbox { LEAST_OUTBOX ≡ least_outbox }
    ensures outbox { MOST_OUTBOX ≡ most_outbox }
    ensures pending_calls { MOST_PENDING_CALLS ≡ most_pending_calls }
    ensures events { MOST_EVENTS ≡ most_events }
    ensures text_octets { MOST_TEXT_OCTETS ≡ most_text_octets }
    ensures bits { MOST_BITS ≡ most_bits }
    ensures note_octets { MOST_NOTE_OCTETS ≡ most_note_octets }
    ensures datagram_octets { MOST_DATAGRAM_OCTETS ≡ most_datagram_octets }
    ensures site_octets { MOST_SITE_OCTETS ≡ most_site_octets }
    ensures record_octets { MOST_RECORD_OCTETS ≡ most_record_octets }
    ensures batch_octets { MOST_BATCH_OCTETS ≡ most_batch_octets }
    ensures snapshot_octets { SNAPSHOT_OCTETS_LIMIT ≡ snapshot_octets_limit }
{}
