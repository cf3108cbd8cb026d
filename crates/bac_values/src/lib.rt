//! The plain values of the alarm server: identifiers, property values, event states, stamps, peers, notes,
//! what comes in, and the lines of a report.
//!
//! Nothing here decides anything. Types whose range the standard limits keep it by their constructors, and
//! contracts see every type as plain data.
#![tactic(auto)]

mod alarm_row;
mod application_tag;
mod bits;
mod event_state;
mod event_type;
mod growing;
mod input;
mod items;
mod laws;
mod limits;
mod mac;
mod moment;
mod moved;
mod no_memory;
mod note;
mod numbers;
mod object_id;
mod object_kind;
mod parts;
mod pdu_type;
mod peer;
mod peer_list;
mod property_id;
mod reasons;
mod reliability;
mod report;
mod service_error;
mod services;
mod stamp;
mod status_flags;
mod text;
mod transition;
mod value;

pub use alarm_row::AlarmRow;
pub use application_tag::ApplicationTag;
pub use bits::{Bits, TooManyBits};
pub use event_state::EventState;
pub use event_type::{EventType, NotifyType};
pub use growing::{push, single};
pub use input::{Input, SetFault};
pub use items::Items;
pub use laws::{equal_peers_are_one, orders_are_by_fields};
pub use limits::{
    LEAST_OUTBOX, MOST_BATCH_OCTETS, MOST_BINDINGS, MOST_BITS, MOST_CLASSES, MOST_DATAGRAM_OCTETS,
    MOST_DESTINATIONS, MOST_EVENTS, MOST_LISTED_VALUES, MOST_LOGS, MOST_NOTE_OCTETS, MOST_OBJECTS,
    MOST_OUTBOX, MOST_PEERS, MOST_PENDING_CALLS, MOST_RECORD_OCTETS, MOST_RECORDS,
    MOST_SITE_OCTETS, MOST_TEXT_OCTETS, SNAPSHOT_OCTETS_LIMIT, limits_are_those_of_contracts,
};
pub use mac::Mac;
pub use moment::{FIRST_MOMENT, LAST_MOMENT};
pub use moved::Moved;
pub use no_memory::NoMemory;
pub use note::{Note, Send};
pub use numbers::{
    errors_have_their_numbers, event_types_have_their_numbers, kinds_are_all,
    moments_have_their_numbers, pdus_have_their_numbers, properties_have_their_numbers,
    reasons_have_their_numbers, services_have_their_numbers, tags_have_their_numbers,
};
pub use object_id::{InstanceRange, ObjectId};
pub use object_kind::ObjectKind;
pub use parts::part_count;
pub use pdu_type::PduType;
pub use peer::Peer;
pub use peer_list::{PeerList, is_among};
pub use property_id::PropertyId;
pub use reasons::{AbortReason, RejectReason};
pub use reliability::Reliability;
pub use report::ReportLine;
pub use service_error::ServiceError;
pub use services::{ConfirmedService, LONGEST_APDU, NO_SEGMENTATION, UnconfirmedService};
pub use stamp::Stamp;
pub use status_flags::StatusFlags;
pub use text::{Text, TextFault};
pub use transition::Transition;
pub use value::{Foreign, Value};
