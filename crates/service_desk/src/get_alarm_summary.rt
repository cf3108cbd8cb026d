//! What becomes of GetAlarmSummary (13.10).

ghost use Rattle.std.specs.Prelude.{◌≡◌, IfOk};
ghost use Rattle.alarm_core.specs.AlarmRows.{alarm_rows};
ghost use Rattle.summaries.specs.Summaries.{alarm_summary_of};
ghost use Rattle.service_desk.specs.Replies.{complex_ack};
ghost use Rattle.service_desk.specs.SummaryDecisions.{alarm_summary_decision};

use crate::Decision;
use crate::replies::Requester;
use crate::summary_replies::{result_room, summary_reply};
use crate::view::View;
use alarm_core::Core;
use bac_values::{NoMemory, RejectReason, Send};
use std::alloc::Global;
use summaries::alarm_summary;

// The objects in alarm, as they are answered.
fn alarm_summary_reply(alloc: Global, core: &Core, requester: &Requester) -> Result<Send, NoMemory>
    ensures reply { IfOk result (λ send. send ≡ complex_ack requester.now (alarm_summary_of (alarm_rows core.now))) }
{
    let summary = alarm_summary(alloc, &View::of(core), result_room(requester))?;
    summary_reply(alloc, requester, summary)
}

/// GetAlarmSummary (ANSI/ASHRAE 135-2020, 13.10).
pub(crate) fn get_alarm_summary(
    alloc: Global,
    core: &Core,
    requester: &Requester,
    parameters: &[u8],
) -> Result<Decision, NoMemory>
    ensures decision { IfOk result (λ decision. decision ≡ alarm_summary_decision core.now requester.now parameters.now) }
{
    let send = if parameters.is_empty() {
        alarm_summary_reply(alloc, core, requester)?
    } else {
        requester.reject(alloc, RejectReason::TOO_MANY_ARGUMENTS.0)?
    };
    Ok(Decision::Reply { send })
}
