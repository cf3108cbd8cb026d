//! What becomes of an answer to a notification (5.4.4).

ghost use Rattle.std.specs.Prelude.{◌≡◌};
ghost use Rattle.alarm_core.specs.Allowed.{IsAnswer};
ghost use Rattle.service_desk.specs.NotificationAnswers.{answer_decision, named_answer_decision};
ghost use Rattle.service_desk.specs.Decisions.{EntersAllowed};

use crate::Decision;
use alarm_core::{Act, Core, Event};
use bac_values::{ConfirmedService, Peer};

/// An answer of a peer to the request with this invoke ID, by the number of its PDU.
pub(crate) fn answer_decision(
    core: &Core,
    moment: u64,
    peer: Peer,
    invoke: u8,
    kind: u8,
) -> Decision
    requires kind { IsAnswer kind }
    ensures decision { result ≡ answer_decision core.now moment peer invoke kind }
    ensures allowed { EntersAllowed core.now moment result }
{
    if !core.has_in_flight(&peer, invoke) {
        return Decision::Ignore;
    }
    let act = Act::Answer { peer, invoke, kind };
    Decision::Enter {
        event: Event { moment, act },
        reply: None,
        full: None,
    }
}

/// An answer that names the service that was asked for.
pub(crate) fn named_answer_decision(
    core: &Core,
    moment: u64,
    peer: Peer,
    invoke: u8,
    service: u8,
    kind: u8,
) -> Decision
    requires kind { IsAnswer kind }
    ensures decision { result ≡ named_answer_decision core.now moment peer invoke service kind }
    ensures allowed { EntersAllowed core.now moment result }
{
    if service != ConfirmedService::CONFIRMED_EVENT_NOTIFICATION.0 {
        return Decision::Ignore;
    }
    answer_decision(core, moment, peer, invoke, kind)
}
