//! What becomes of AcknowledgeAlarm (13.5).

ghost use Rattle.std.specs.Prelude.{◌≡◌, IfOk};
ghost use Rattle.ack_alarm.specs.Verdicts.{AcceptsAllowed};
ghost use Rattle.alarm_core.specs.Found.{found_in};
ghost use Rattle.service_desk.specs.AcknowledgeAlarm.{acknowledge_decision, verdict_decision};
ghost use Rattle.service_desk.specs.Decisions.{EntersAllowed};

use crate::Decision;
use crate::replies::Requester;
use ack_alarm::{Verdict, judge};
use alarm_core::{Act, Core, Event};
use bac_values::{AbortReason, NoMemory, ObjectId};
use event_services::read_ack;
use std::alloc::Global;

// A verdict on an acknowledgement, as it is answered.
fn verdict_decision(
    alloc: Global,
    moment: u64,
    requester: &Requester,
    object: ObjectId,
    verdict: Verdict,
) -> Result<Decision, NoMemory>
    ensures decision { IfOk result (λ decision. decision ≡ verdict_decision moment requester.now object verdict) }
{
    match verdict {
        Verdict::Accept { transition, state } => {
            let act = Act::Ack {
                object,
                transition,
                state,
            };
            let reply = requester.simple_ack(alloc)?;
            let full = requester.abort(alloc, AbortReason::OTHER.0)?;
            Ok(Decision::Enter {
                event: Event { moment, act },
                reply: Some(reply),
                full: Some(full),
            })
        }
        Verdict::Already => Ok(Decision::Reply {
            send: requester.simple_ack(alloc)?,
        }),
        Verdict::Error { class, code } => Ok(Decision::Reply {
            send: requester.error_numbered(alloc, class, code)?,
        }),
    }
}

/// AcknowledgeAlarm (ANSI/ASHRAE 135-2020, 13.5).
pub(crate) fn acknowledge(
    alloc: Global,
    core: &Core,
    moment: u64,
    requester: &Requester,
    parameters: &[u8],
) -> Result<Decision, NoMemory>
    ensures decision { IfOk result (λ decision. decision ≡ acknowledge_decision core.now moment requester.now parameters.now) }
    ensures allowed { IfOk result (EntersAllowed core.now moment) }
{
    let request = match read_ack(parameters) {
        Ok(request) => request,
        Err(refusal) => {
            return Ok(Decision::Reply {
                send: requester.reject(alloc, refusal.reject)?,
            });
        }
    };
    let verdict = judge(core.found(request.object), &request);
    verdict_decision(alloc, moment, requester, request.object, verdict)
}
