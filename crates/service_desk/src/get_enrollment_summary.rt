//! What becomes of GetEnrollmentSummary (13.11).

ghost use Rattle.std.specs.Prelude.{◌≡◌, IfOk};
ghost use Rattle.alarm_core.specs.AlarmRows.{alarm_rows};
ghost use Rattle.summaries.specs.Summaries.{enrollment_summary_of};
ghost use Rattle.service_desk.specs.Replies.{complex_ack};
ghost use Rattle.service_desk.specs.SummaryDecisions.{classes_in, enrollment_summary_decision};

use crate::Decision;
use crate::replies::Requester;
use crate::summary_replies::{result_room, summary_reply};
use crate::view::View;
use alarm_core::Core;
use bac_values::{NoMemory, Send};
use std::alloc::Global;
use summaries::{Filter, enrollment_summary, read_enrollment_request};

// The objects that pass a filter, as they are answered.
fn enrollment_summary_reply(
    alloc: Global,
    core: &Core,
    requester: &Requester,
    filter: &Filter,
) -> Result<Send, NoMemory>
    ensures reply { IfOk result (λ send. send ≡ complex_ack requester.now (enrollment_summary_of (alarm_rows core.now) (classes_in core.now) filter.now)) }
{
    let summary = enrollment_summary(alloc, &View::of(core), filter, result_room(requester))?;
    summary_reply(alloc, requester, summary)
}

/// GetEnrollmentSummary (ANSI/ASHRAE 135-2020, 13.11).
pub(crate) fn get_enrollment_summary(
    alloc: Global,
    core: &Core,
    requester: &Requester,
    parameters: &[u8],
) -> Result<Decision, NoMemory>
    ensures decision { IfOk result (λ decision. decision ≡ enrollment_summary_decision core.now requester.now parameters.now) }
{
    let send = match read_enrollment_request(parameters) {
        Ok(filter) => enrollment_summary_reply(alloc, core, requester, &filter)?,
        Err(refusal) => requester.reject(alloc, refusal.reject)?,
    };
    Ok(Decision::Reply { send })
}
