//! What becomes of a datagram: its APDU, and the service that it asks for.

ghost use Rattle.std.specs.Prelude.{◌≡◌, ◌<◌, ◌^◌, ℕ, IfOk, drop, length};
ghost use Rattle.apdu_frame.specs.ReadingSteps.{apdu_of};
ghost use Rattle.service_desk.specs.Decisions.{EntersAllowed, apdu_decision, incoming_decision, request_decision, unconfirmed_decision};
ghost use Rattle.bvlc_npdu.specs.ReadingSteps.{incoming_at};

use crate::Decision;
use crate::acknowledge_alarm::acknowledge;
use crate::get_alarm_summary::get_alarm_summary;
use crate::get_enrollment_summary::get_enrollment_summary;
use crate::get_event_information::event_information;
use crate::list_elements::edit_list;
use crate::notification_answers::{answer_decision, named_answer_decision};
use crate::read_property::read_property;
use crate::read_property_multiple::read_property_multiple;
use crate::read_range::read_range;
use crate::replies::{Requester, abort_to};
use crate::service::Service;
use crate::who_is::who_is;
use crate::write_property::write_property;
use alarm_core::Core;
use apdu_frame::{Apdu, read_apdu};
use bac_values::{AbortReason, NoMemory, PduType, Peer, RejectReason, UnconfirmedService};
use bvlc_npdu::unwrap;
use std::alloc::Global;

// A confirmed request, by its service.
fn request_decision(
    alloc: Global,
    core: &Core,
    moment: u64,
    requester: &Requester,
    parameters: &[u8],
) -> Result<Decision, NoMemory>
    requires short { length parameters.now < 2 ^ 16 }
    ensures decision { IfOk result (λ decision. decision ≡ request_decision core.now moment requester.now parameters.now) }
    ensures allowed { IfOk result (EntersAllowed core.now moment) }
{
    match Service::of_number(requester.service()) {
        Some(Service::AcknowledgeAlarm) => acknowledge(alloc, core, moment, requester, parameters),
        Some(Service::GetAlarmSummary) => get_alarm_summary(alloc, core, requester, parameters),
        Some(Service::GetEnrollmentSummary) => {
            get_enrollment_summary(alloc, core, requester, parameters)
        }
        Some(Service::AddListElement) => {
            edit_list(alloc, core, moment, requester, true, parameters)
        }
        Some(Service::RemoveListElement) => {
            edit_list(alloc, core, moment, requester, false, parameters)
        }
        Some(Service::ReadProperty) => read_property(alloc, core, requester, parameters),
        Some(Service::ReadPropertyMultiple) => {
            read_property_multiple(alloc, core, requester, parameters)
        }
        Some(Service::WriteProperty) => write_property(alloc, core, moment, requester, parameters),
        Some(Service::ReadRange) => read_range(alloc, core, requester, parameters),
        Some(Service::GetEventInformation) => event_information(alloc, core, requester, parameters),
        None => Ok(Decision::Reply {
            send: requester.reject(alloc, RejectReason::UNRECOGNIZED_SERVICE.0)?,
        }),
    }
}

// An unconfirmed request, by its service.
fn unconfirmed_decision(
    alloc: Global,
    core: &Core,
    peer: Peer,
    service: u8,
    parameters: &[u8],
) -> Result<Decision, NoMemory>
    ensures decision { IfOk result (λ decision. decision ≡ unconfirmed_decision core.now.site peer service parameters.now) }
    ensures allowed { (moment : ℕ) → IfOk result (EntersAllowed core.now moment) }
{
    match UnconfirmedService(service) {
        UnconfirmedService::WHO_IS => who_is(alloc, core, peer, parameters),
        _ => Ok(Decision::Ignore),
    }
}

// An APDU of a peer.
fn apdu_decision(
    alloc: Global,
    core: &Core,
    moment: u64,
    peer: Peer,
    octets: &[u8],
) -> Result<Decision, NoMemory>
    requires short { length octets.now < 2 ^ 16 }
    ensures decision { IfOk result (λ decision. decision ≡ apdu_decision core.now moment peer octets.now (apdu_of octets.now)) }
    ensures allowed { IfOk result (EntersAllowed core.now moment) }
{
    match read_apdu(octets) {
        Apdu::Request {
            max_apdu,
            invoke,
            service,
            start,
        } => {
            let requester = Requester::new(peer, max_apdu, invoke, service);
            request_decision(alloc, core, moment, &requester, &octets[start..])
        }
        Apdu::Segmented { invoke } => Ok(Decision::Reply {
            send: abort_to(
                alloc,
                peer,
                invoke,
                AbortReason::SEGMENTATION_NOT_SUPPORTED.0,
            )?,
        }),
        Apdu::Unconfirmed { service, start } => {
            unconfirmed_decision(alloc, core, peer, service, &octets[start..])
        }
        Apdu::SimpleAck { invoke, service } => Ok(named_answer_decision(
            core,
            moment,
            peer,
            invoke,
            service,
            PduType::SIMPLE_ACK.0,
        )),
        Apdu::Error { invoke, service } => Ok(named_answer_decision(
            core,
            moment,
            peer,
            invoke,
            service,
            PduType::ERROR.0,
        )),
        Apdu::Reject { invoke } => Ok(answer_decision(
            core,
            moment,
            peer,
            invoke,
            PduType::REJECT.0,
        )),
        Apdu::Abort { invoke } => Ok(answer_decision(core, moment, peer, invoke, PduType::ABORT.0)),
        Apdu::Other => Ok(Decision::Ignore),
    }
}

/// A datagram that came from a sender.
pub(crate) fn datagram_decision(
    alloc: Global,
    core: &Core,
    moment: u64,
    sender: Peer,
    octets: &[u8],
) -> Result<Decision, NoMemory>
    ensures decision { IfOk result (λ decision. decision ≡ incoming_decision core.now moment octets.now (incoming_at sender octets.now)) }
    ensures allowed { IfOk result (EntersAllowed core.now moment) }
{
    match unwrap(sender, octets) {
        Some(incoming) => {
            let apdu = &octets[incoming.start..];
            apdu_decision(alloc, core, moment, incoming.peer, apdu)
        }
        None => Ok(Decision::Ignore),
    }
}
