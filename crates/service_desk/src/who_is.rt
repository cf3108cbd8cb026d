//! What becomes of Who-Is (16.10).

ghost use Rattle.std.specs.Prelude.{◌≡◌, IfOk, Option, Result};
ghost use Rattle.bac_tags.specs.declared.malformed.Malformed.{Malformed};
ghost use Rattle.service_desk.specs.WhoIs.{names_device, i_am, who_is_decision};

use crate::Decision;
use crate::replies::reply_to;
use alarm_core::Core;
use apdu_frame::unconfirmed;
use bac_values::{NoMemory, Peer, Send, UnconfirmedService};
use property_services::{Malformed, read_who_is, write_i_am};
use std::alloc::Global;

// Whether the devices that are asked include one of this instance.
fn names_device(limits: Result<Option<(u32, u32)>, Malformed>, instance: u32) -> bool
    ensures asked { result ≡ names_device limits instance }
{
    match limits {
        Ok(Some((low, high))) => low <= instance && instance <= high,
        Ok(None) => true,
        Err(_refusal) => false,
    }
}

// I-Am, to the peer that asked.
fn i_am(alloc: Global, core: &Core, peer: Peer) -> Result<Send, NoMemory>
    ensures reply { IfOk result (λ send. send ≡ i_am core.now.site peer) }
{
    let body = write_i_am(alloc, core.device(), core.site().device.vendor)?;
    let apdu = unconfirmed(alloc, UnconfirmedService::I_AM.0, body.as_slice())?;
    reply_to(alloc, peer, apdu.as_slice())
}

/// Who-Is (ANSI/ASHRAE 135-2020, 16.10).
pub(crate) fn who_is(
    alloc: Global,
    core: &Core,
    peer: Peer,
    parameters: &[u8],
) -> Result<Decision, NoMemory>
    ensures decision { IfOk result (λ decision. decision ≡ who_is_decision core.now.site peer parameters.now) }
{
    if !names_device(read_who_is(parameters), core.site().device.instance) {
        return Ok(Decision::Ignore);
    }
    Ok(Decision::Reply {
        send: i_am(alloc, core, peer)?,
    })
}
