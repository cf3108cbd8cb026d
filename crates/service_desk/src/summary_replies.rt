//! How results of many objects are answered.

ghost use Rattle.std.specs.Prelude.{◌≡◌, List, ℕ, IfOk, option_map};
ghost use Rattle.summaries.specs.Summaries.{within_room};
ghost use Rattle.service_desk.specs.Replies.{complex_ack};
ghost use Rattle.service_desk.specs.SummaryDecisions.{result_room};

use crate::replies::Requester;
use bac_values::{AbortReason, NoMemory, Send};
use std::alloc::Global;

/// The octets in front of a result: the header of a ComplexACK (20.1.5).
const HEADER: u16 = 3;

/// The octets of a result that an answer to the requester has room for.
pub(crate) fn result_room(requester: &Requester) -> usize
    ensures room { result ≡ result_room requester.now }
{
    usize::from(requester.max_apdu().saturating_sub(HEADER))
}

/// A result that has room, as it is answered; where it had none, the device would have to send segments.
pub(crate) fn summary_reply(
    alloc: Global,
    requester: &Requester,
    summary: Option<Vec<u8>>,
) -> Result<Send, NoMemory>
    ensures reply { (body : List ℕ) → option_map (λ octets. octets.items) summary ≡ within_room (result_room requester.now) body → IfOk result (λ send. send ≡ complex_ack requester.now body) }
{
    match summary {
        Some(octets) => requester.complex_ack(alloc, octets.as_slice()),
        None => requester.abort(alloc, AbortReason::SEGMENTATION_NOT_SUPPORTED.0),
    }
}
