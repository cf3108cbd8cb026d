//! The lines of a report.

use crate::{EventState, Items, Moved, Send, SetFault};

/// A line of a program's report. A `line` is the number of the script's line, from 1.
#[derive(Debug, Drop)]
pub enum ReportLine {
    /// The object on trial changed its state.
    TrialMove {
        /// When, in milliseconds since 1970.
        moment: u64,
        /// The state before.
        from: EventState,
        /// The state after.
        to: EventState,
    },
    /// The script of a trial was read to its end.
    TrialEnd {
        /// How many lines it has.
        lines: u64,
    },
    /// A session began.
    Open {
        /// How many events were recovered.
        events: u64,
    },
    /// The line is an event.
    Entered {
        /// The script's line.
        line: u64,
        /// The number of the event, from 1.
        event: u64,
        /// Its moment, in milliseconds since 1970.
        moment: u64,
    },
    /// The line would change nothing.
    Idle {
        /// The script's line.
        line: u64,
    },
    /// The line's datagram asks for nothing.
    Ignored {
        /// The script's line.
        line: u64,
    },
    /// The line's value or fault isn't taken.
    Refused {
        /// The script's line.
        line: u64,
        /// Why.
        why: SetFault,
    },
    /// The line's datagram is answered without an event.
    Reply {
        /// The script's line.
        line: u64,
    },
    /// The line's notifications don't fit the outbox.
    Full {
        /// The script's line.
        line: u64,
        /// How many notifications there would be.
        would: u32,
        /// How many there may be.
        limit: u32,
    },
    /// An object's event state has changed.
    Change {
        /// The script's line.
        line: u64,
        /// The change.
        moved: Moved,
    },
    /// A datagram went out.
    Sent {
        /// The script's line.
        line: u64,
        /// The datagram.
        send: Send,
    },
    /// The script of a session was read to its end.
    End {
        /// How many lines it has.
        lines: u64,
        /// How many events there are.
        events: u64,
    },
    /// A packet for a standby.
    Packet {
        /// Its octets.
        packet: Items<u8>,
    },
    /// All that a leader's journal has past a number of events was shipped.
    ShipEnd {
        /// How many packets it took.
        packets: u64,
        /// How many events the journal has.
        events: u64,
    },
    /// The line's packet is none, or none that may come next.
    Malformed {
        /// The script's line.
        line: u64,
    },
    /// The line's packet begins past what the standby has.
    Gap {
        /// The script's line.
        line: u64,
        /// How many events the standby has.
        events: u64,
    },
    /// The line's packet holds nothing that the standby hasn't.
    Repeat {
        /// The script's line.
        line: u64,
        /// How many events the standby has, all of them on its disk.
        events: u64,
    },
    /// The line's packet is a piece of a snapshot of which more is to come.
    Part {
        /// The script's line.
        line: u64,
        /// How many octets of the snapshot have come.
        place: u32,
    },
    /// What the line's packet holds was taken.
    Taken {
        /// The script's line.
        line: u64,
        /// How many events the standby has now, all of them on its disk.
        events: u64,
    },
    /// A workload was run to its end.
    Summary {
        /// The seed of its numbers.
        seed: u64,
        /// How many lines were generated.
        count: u32,
        /// How many of them were events.
        events: u64,
        /// How many changes of state there were.
        changes: u64,
        /// How many datagrams went out.
        sends: u64,
        /// How many lines found the outbox full.
        full: u64,
    },
}
