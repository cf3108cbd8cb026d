//! Events and states in octets: the records and the snapshots that a journal keeps of them, each in one spelling.
//!
//! A reader takes what stands at the front of octets, and leaves what is behind it; so one part is read behind another. The
//! numbers of 1, 2, 4 and 8 octets, the high one first, are for whoever reads and writes records beside these.
#![tactic(auto)]

mod act;
mod destination;
mod event;
mod fault;
mod keep_fault;
mod keeping;
mod laws;
mod opening;
mod parts;
mod reading;
mod reading_alarms;
mod reading_keys;
mod reading_lists;
mod reading_logs;
mod reading_outbox;
mod reading_posts;
mod reading_rest;
mod reading_rows;
mod reading_site;
mod reading_state;
mod reading_subjects;
mod recording;
mod recovering;
mod sizes;
mod snapshot;
mod state_types;
mod types;
mod value;
mod work;
mod writing;
mod writing_alarms;
mod writing_rest;
mod writing_rows;
mod writing_state;

pub use event::{read_event, write_event};
pub use fault::CodecFault;
pub use keep_fault::KeepFault;
pub use keeping::{keep_event, keep_events};
pub use laws::{
    allowed_event_has_record, bounds_are_low, contents_lead_once, damage_is_told_by_histories,
    reads_what_it_writes, records_are_short, records_have_one_spelling, snapshots_are_short,
    snapshots_have_one_spelling,
};
pub use opening::open_journal;
pub use parts::{take_octet, take_octets, take_u16, take_u32, take_u64};
pub use reading::ReadFault;
pub use reading_state::read_state;
pub use recording::event_to_record;
pub use recovering::{RecoverFault, follow_records, recover};
pub use sizes::{need, snapshot_bound};
pub use work::{Work, work_of, write_work};
pub use writing::{put_count, put_long, put_octet_count, put_word};
pub use writing_state::write_state;
