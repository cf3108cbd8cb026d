//! What becomes of WriteProperty (15.9).

ghost use Rattle.std.specs.Prelude.{◌≡◌, IfOk};
ghost use Rattle.alarm_core.specs.declared.event.Act.TheVariants.{Write};
ghost use Rattle.alarm_core.specs.Allowed.{IsAllowed};
ghost use Rattle.alarm_core.specs.Reading.{write_of};
ghost use Rattle.alarm_core.specs.State.{CoreState};
ghost use Rattle.service_desk.specs.WriteProperty.{change_decision, write_decision};
ghost use Rattle.service_desk.specs.Decisions.{EntersAllowed};

use crate::Decision;
use crate::replies::Requester;
use alarm_core::{Act, Core, Event};
use bac_values::{AbortReason, NoMemory};
use object_table::{Change, WriteFault};
use property_services::{ServiceFault, WriteRequest, read_write_property};
use std::alloc::Global;

// A change that a write makes, as it is entered and answered.
fn enter_change(
    alloc: Global,
    moment: u64,
    requester: &Requester,
    change: Change,
) -> Result<Decision, NoMemory>
    ensures decision { IfOk result (λ decision. decision ≡ change_decision moment requester.now (Ok change)) }
    ensures allowed { (state : CoreState) → IsAllowed state (Write change) → IfOk result (EntersAllowed state moment) }
{
    let reply = requester.simple_ack(alloc)?;
    let full = requester.abort(alloc, AbortReason::OTHER.0)?;
    let act = Act::Write { change };
    Ok(Decision::Enter {
        event: Event { moment, act },
        reply: Some(reply),
        full: Some(full),
    })
}

// A write that was read, as it is entered or refused.
fn change_decision(
    alloc: Global,
    core: &Core,
    moment: u64,
    requester: &Requester,
    request: &WriteRequest,
) -> Result<Decision, NoMemory>
    ensures decision { IfOk result (λ decision. decision ≡ change_decision moment requester.now
        (write_of core.now request.now.object request.now.property.0 request.now.index request.now.value)) }
    ensures allowed { IfOk result (EntersAllowed core.now moment) }
{
    let (object, property, index) = (request.object, request.property, request.index);
    match core.check_write(alloc, object, property, index, &request.value) {
        Ok(change) => enter_change(alloc, moment, requester, change),
        Err(WriteFault::Error { class, code }) => Ok(Decision::Reply {
            send: requester.error_numbered(alloc, class, code)?,
        }),
        Err(WriteFault::NoMemory) => Err(NoMemory),
    }
}

/// WriteProperty (ANSI/ASHRAE 135-2020, 15.9).
pub(crate) fn write_property(
    alloc: Global,
    core: &Core,
    moment: u64,
    requester: &Requester,
    parameters: &[u8],
) -> Result<Decision, NoMemory>
    ensures decision { IfOk result (λ decision. decision ≡ write_decision core.now moment requester.now parameters.now) }
    ensures allowed { IfOk result (EntersAllowed core.now moment) }
{
    match read_write_property(alloc, parameters) {
        Ok(request) => change_decision(alloc, core, moment, requester, &request),
        Err(ServiceFault::Malformed { reject, .. }) => Ok(Decision::Reply {
            send: requester.reject(alloc, reject)?,
        }),
        Err(ServiceFault::NoMemory) => Err(NoMemory),
    }
}
