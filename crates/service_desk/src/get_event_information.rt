//! What becomes of GetEventInformation (13.12).

ghost use Rattle.std.specs.Prelude.{◌≡◌, IfOk};
ghost use Rattle.alarm_core.specs.Information.{has_more, summaries_of};
ghost use Rattle.service_desk.specs.Information.{information_decision, information_reply, information_room};

use crate::Decision;
use crate::replies::Requester;
use alarm_core::Core;
use bac_values::{AbortReason, NoMemory, ObjectId, Send};
use event_services::{EventSummary, read_information_request, write_information};
use std::alloc::Global;

/// The octets of an answer that aren't its summaries': its header, the tags round them, and whether more remain.
const ROUND_SUMMARIES: u16 = 7;

/// The octets of summaries that an answer to the requester has room for.
fn information_room(requester: &Requester) -> usize
    ensures room { result ≡ information_room requester.now }
{
    usize::from(requester.max_apdu().saturating_sub(ROUND_SUMMARIES))
}

/// The summaries, as they are answered, and whether more remain.
fn information_reply(
    alloc: Global,
    requester: &Requester,
    summaries: &[EventSummary],
    more: bool,
) -> Result<Send, NoMemory>
    ensures reply { IfOk result (λ send. send ≡ information_reply requester.now summaries.now more) }
{
    if more && summaries.is_empty() {
        return requester.abort(alloc, AbortReason::SEGMENTATION_NOT_SUPPORTED.0);
    }
    let body = write_information(alloc, summaries, more)?;
    requester.complex_ack(alloc, body.as_slice())
}

// The active objects behind the last one, as many as the requester has room for, as they are answered.
fn information_answer(
    alloc: Global,
    core: &Core,
    requester: &Requester,
    last: Option<ObjectId>,
) -> Result<Send, NoMemory>
    ensures reply { IfOk result (λ send. send ≡ information_reply requester.now (summaries_of last (information_room requester.now) core.now) (has_more last (information_room requester.now) core.now)) }
{
    let (summaries, more) = core.event_information(alloc, last, information_room(requester))?;
    information_reply(alloc, requester, &summaries, more)
}

/// GetEventInformation (ANSI/ASHRAE 135-2020, 13.12).
pub(crate) fn event_information(
    alloc: Global,
    core: &Core,
    requester: &Requester,
    parameters: &[u8],
) -> Result<Decision, NoMemory>
    ensures decision { IfOk result (λ decision. decision ≡ information_decision core.now requester.now parameters.now) }
{
    let send = match read_information_request(parameters) {
        Ok(last) => information_answer(alloc, core, requester, last)?,
        Err(refusal) => requester.reject(alloc, refusal.reject)?,
    };
    Ok(Decision::Reply { send })
}
