//! What becomes of ReadPropertyMultiple (15.7).

ghost use Rattle.std.specs.Prelude.{◌≡◌, List, IfOk};
ghost use Rattle.summaries.specs.Many.{properties_of};
ghost use Rattle.summaries.specs.ManyRequests.{ObjectAsked, SpellsReadMany};
ghost use Rattle.service_desk.specs.Replies.{complex_ack};
ghost use Rattle.service_desk.specs.SummaryDecisions.{many_decision, reads_in};

use crate::Decision;
use crate::replies::Requester;
use crate::summary_replies::{result_room, summary_reply};
use crate::view::View;
use alarm_core::Core;
use bac_values::{NoMemory, Send};
use std::alloc::Global;
use summaries::{read_many, read_many_request};

// What is read of each property that is asked, as it is answered.
fn many_reply(
    alloc: Global,
    core: &Core,
    requester: &Requester,
    parameters: &[u8],
) -> Result<Send, NoMemory>
    requires asked { (groups : List ObjectAsked) × SpellsReadMany parameters.now groups }
    ensures reply { (groups : List ObjectAsked) → SpellsReadMany parameters.now groups → IfOk result (λ send. send ≡ complex_ack requester.now (properties_of (reads_in core.now) groups)) }
{
    let many = read_many(alloc, &View::of(core), parameters, result_room(requester))?;
    summary_reply(alloc, requester, many)
}

/// ReadPropertyMultiple (ANSI/ASHRAE 135-2020, 15.7).
pub(crate) fn read_property_multiple(
    alloc: Global,
    core: &Core,
    requester: &Requester,
    parameters: &[u8],
) -> Result<Decision, NoMemory>
    ensures decision { IfOk result (λ decision. decision ≡ many_decision core.now requester.now parameters.now) }
{
    let send = match read_many_request(parameters, 0) {
        Ok(_) => many_reply(alloc, core, requester, parameters)?,
        Err(refusal) => requester.reject(alloc, refusal.reject)?,
    };
    Ok(Decision::Reply { send })
}
