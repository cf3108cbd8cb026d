//! What becomes of AddListElement and RemoveListElement (15.1, 15.2).

ghost use Rattle.std.specs.Prelude.{◌≡◌, ◌<◌, ◌^◌, ◌↔◌, IfOk, IsTrue, Ok, Some, length};
ghost use Rattle.bac_values.specs.Reasons.{other_reason};
ghost use Rattle.list_binding.specs.Edits.{EditAnswer, Tells};
ghost use Rattle.alarm_core.specs.declared.event.Act.TheVariants.{Edit};
ghost use Rattle.alarm_core.specs.Allowed.{IsAllowed};
ghost use Rattle.alarm_core.specs.State.{CoreState};
ghost use Rattle.service_desk.specs.declared.decision.Decision.TheVariants.{Enter};
ghost use Rattle.service_desk.specs.Decisions.{EntersAllowed};
ghost use Rattle.service_desk.specs.ListDecisions.{edit_at, edited_decision, list_decision, list_in};
ghost use Rattle.service_desk.specs.Replies.{abort, simple_ack};

use crate::Decision;
use crate::list_edits::list_answer;
use crate::replies::Requester;
use alarm_core::{Act, Core, Event};
use bac_values::{AbortReason, Items, NoMemory, ServiceError};
use list_binding::{EditRefusal, are_same, read_list_request};
use notify_class::{Destination, check_edit};
use std::alloc::Global;

// The list of the class with an instance.
fn list_in(core: &Core, number: u32) -> &[Destination]
    ensures list { result.now ≡ list_in core.now number }
{
    match core.class(number) {
        Some(class) => class.destinations.as_slice(),
        None => &[],
    }
}

// Whether a list may be that of the class with an instance.
fn may_be_list(core: &Core, number: u32, list: &[Destination]) -> bool
    ensures allowed { IsTrue result ↔ IsAllowed core.now (Edit number list.now) }
{
    match core.edit_room(number) {
        Some((members, room)) => check_edit(core.known_peers(), list, members, room).is_ok(),
        None => false,
    }
}

// An edit, as it is entered and answered.
fn enter_edit(
    alloc: Global,
    moment: u64,
    requester: &Requester,
    number: u32,
    left: Vec<Destination>,
) -> Result<Decision, NoMemory>
    ensures decision { IfOk result (λ decision. decision ≡ Enter (edit_at moment number left.items) (Some (simple_ack requester.now)) (Some (abort requester.now other_reason))) }
    ensures allowed { (state : CoreState) → IsAllowed state (Edit number left.items) → IfOk result (EntersAllowed state moment) }
{
    let reply = requester.simple_ack(alloc)?;
    let full = requester.abort(alloc, AbortReason::OTHER.0)?;
    let act = Act::Edit {
        class: number,
        destinations: Items::of(left),
    };
    Ok(Decision::Enter {
        event: Event { moment, act },
        reply: Some(reply),
        full: Some(full),
    })
}

// A list that an edit leaves: it is entered, unless it stays as it is.
//
// Each list that `edit` tells is within the limits of a core that an allowed event may follow. No clause of a core tells that
// it knows the peers of its lists, so the limits are asked for once more; where the answer could be no, nothing is decided.
fn left_decision(
    alloc: Global,
    core: &Core,
    moment: u64,
    requester: &Requester,
    number: u32,
    left: Vec<Destination>,
) -> Result<Decision, NoMemory>
    ensures decision { IfOk result (λ decision. decision ≡ edited_decision moment requester.now number (list_in core.now number) (Ok left.items)) }
    ensures allowed { IfOk result (EntersAllowed core.now moment) }
{
    if are_same(left.as_slice(), list_in(core, number)) {
        return Ok(Decision::Reply {
            send: requester.simple_ack(alloc)?,
        });
    }
    if !may_be_list(core, number, left.as_slice()) {
        return Err(NoMemory);
    }
    enter_edit(alloc, moment, requester, number, left)
}

// What an edit comes to, as it is entered or answered.
fn edited_decision(
    alloc: Global,
    core: &Core,
    moment: u64,
    requester: &Requester,
    number: u32,
    answer: Result<Vec<Destination>, EditRefusal>,
) -> Result<Decision, NoMemory>
    ensures decision { (told : EditAnswer) → Tells (λ left. left.items) (λ found. found ≡ told) answer →
        IfOk result (λ decision. decision ≡ edited_decision moment requester.now number (list_in core.now number) told) }
    ensures allowed { IfOk result (EntersAllowed core.now moment) }
{
    match answer {
        Ok(left) => left_decision(alloc, core, moment, requester, number, left),
        Err(
            EditRefusal::Error {
                class,
                code,
                element,
            },
        ) => Ok(Decision::Reply {
            send: requester.list_error(alloc, ServiceError { class, code }, element)?,
        }),
        Err(EditRefusal::NoMemory) => Err(NoMemory),
    }
}

/// AddListElement (ANSI/ASHRAE 135-2020, 15.1), which adds, or RemoveListElement (15.2), which doesn't.
pub(crate) fn edit_list(
    alloc: Global,
    core: &Core,
    moment: u64,
    requester: &Requester,
    adding: bool,
    parameters: &[u8],
) -> Result<Decision, NoMemory>
    requires short { length parameters.now < 2 ^ 16 }
    ensures decision { IfOk result (λ decision. decision ≡ list_decision core.now moment requester.now adding parameters.now) }
    ensures allowed { IfOk result (EntersAllowed core.now moment) }
{
    match read_list_request(parameters) {
        Ok(request) => {
            let elements = &parameters[request.start..request.end];
            let answer = list_answer(alloc, core, &request, adding, elements);
            let number = request.object.instance();
            edited_decision(alloc, core, moment, requester, number, answer)
        }
        Err(refusal) => Ok(Decision::Reply {
            send: requester.reject(alloc, refusal.reject)?,
        }),
    }
}
