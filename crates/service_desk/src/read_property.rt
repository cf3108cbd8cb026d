//! What becomes of ReadProperty (15.5).

ghost use Rattle.std.specs.Prelude.{◌≡◌, IfOk};
ghost use Rattle.alarm_core.specs.Reading.{read_of};
ghost use Rattle.service_desk.specs.ReadProperty.{read_decision, read_reply};

use crate::Decision;
use crate::replies::Requester;
use alarm_core::{Core, ReadFault};
use bac_values::{NoMemory, Send};
use property_services::{ReadRequest, read_read_property, write_read_ack};
use std::alloc::Global;

// The values of a property that was read.
fn read_answer(
    alloc: Global,
    requester: &Requester,
    request: &ReadRequest,
    values: &[u8],
) -> Result<Send, NoMemory>
    ensures reply { IfOk result (λ send. send ≡ read_reply requester.now request.now (Ok values.now)) }
{
    let body = write_read_ack(alloc, request, values)?;
    requester.complex_ack(alloc, body.as_slice())
}

// A property that was read, or the error, as it is answered.
fn read_reply(
    alloc: Global,
    requester: &Requester,
    request: &ReadRequest,
    core: &Core,
) -> Result<Send, NoMemory>
    ensures reply { IfOk result (λ send. send ≡ read_reply requester.now request.now (read_of core.now request.now.object request.now.property.0 request.now.index)) }
{
    match core.read(alloc, request.object, request.property, request.index) {
        Ok(values) => read_answer(alloc, requester, request, values.as_slice()),
        Err(ReadFault::Error { class, code }) => requester.error_numbered(alloc, class, code),
        Err(ReadFault::NoMemory) => Err(NoMemory),
    }
}

/// ReadProperty (ANSI/ASHRAE 135-2020, 15.5).
pub(crate) fn read_property(
    alloc: Global,
    core: &Core,
    requester: &Requester,
    parameters: &[u8],
) -> Result<Decision, NoMemory>
    ensures decision { IfOk result (λ decision. decision ≡ read_decision core.now requester.now parameters.now) }
{
    let send = match read_read_property(parameters) {
        Ok(request) => read_reply(alloc, requester, &request, core)?,
        Err(refusal) => requester.reject(alloc, refusal.reject)?,
    };
    Ok(Decision::Reply { send })
}
