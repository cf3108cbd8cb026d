//! Who asks, and how it is answered.

ghost use Rattle.std.specs.Prelude.{◌≡◌, ◌≤◌, IfOk, length};
ghost use Rattle.bac_values.specs.Services.{longest_apdu};
ghost use Rattle.service_desk.specs.Requesters.{requester_of};
ghost use Rattle.service_desk.specs.Replies.{abort_to, abort, simple_ack, complex_ack, within_max_apdu, error_numbered, error, list_error, reject, reply_to};

use apdu_frame::{abort, change_list_error, complex_ack, error, reject, simple_ack};
use bac_values::{AbortReason, Items, NoMemory, Peer, Send, ServiceError};
use bvlc_npdu::wrap;
use std::alloc::Global;
use std::marker::Model;

/// Who asks by a confirmed request, the most octets that it takes in an answer, at most `LONGEST_APDU`, the number of the
/// request, and the number of the service.
#[derive(Clone, Copy, Debug)]
pub(crate) struct Requester {
    peer: Peer,
    max_apdu: u16,
    invoke: u8,
    service: u8,
}

impl Model for Requester {
    ghost use Rattle.std.specs.Prelude.{◌≤◌};
    ghost use Rattle.bac_values.specs.Services.{longest_apdu};
    ghost use Rattle.service_desk.specs.Requesters.{RequesterData};

    ghost Value = { RequesterData };

    ghost view = { λ it. record { peer = it.peer; max_apdu = it.max_apdu; invoke = it.invoke; service = it.service } };

    ghost invariant = { λ it. it.max_apdu ≤ longest_apdu };

    ghost inverse = { λ it. record { peer = it.peer; max_apdu = it.max_apdu; invoke = it.invoke; service = it.service } };
}

/// An APDU on its way to a peer that needn't answer it.
pub(crate) fn reply_to(alloc: Global, peer: Peer, apdu: &[u8]) -> Result<Send, NoMemory>
    requires short { length apdu.now ≤ longest_apdu }
    ensures reply { IfOk result (λ send. send ≡ reply_to peer apdu.now) }
{
    let bytes = wrap(alloc, &peer, false, apdu)?;
    Ok(Send {
        peer,
        bytes: Items::of(bytes),
    })
}

/// An Abort of the request of this number.
pub(crate) fn abort_to(alloc: Global, peer: Peer, invoke: u8, reason: u8) -> Result<Send, NoMemory>
    ensures reply { IfOk result (λ send. send ≡ abort_to peer invoke reason) }
{
    reply_to(alloc, peer, &abort(invoke, reason))
}

impl Requester {
    /// The requester of a request with this header.
    pub(crate) fn new(peer: Peer, max_apdu: u16, invoke: u8, service: u8) -> Requester
        requires most { max_apdu ≤ longest_apdu }
        ensures requester { result ≡ requester_of peer max_apdu invoke service }
    {
        Requester {
            peer,
            max_apdu,
            invoke,
            service,
        }
    }

    /// The most octets that it takes in an answer, at most `LONGEST_APDU`.
    pub(crate) fn max_apdu(&self) -> u16
        ensures most { result ≡ self.now.max_apdu }
        ensures range { self.now.max_apdu ≤ longest_apdu }
    {
        self.max_apdu
    }

    /// The number of the service.
    pub(crate) fn service(&self) -> u8
        ensures service { result ≡ self.now.service }
    {
        self.service
    }

    /// The request is acknowledged without a result.
    pub(crate) fn simple_ack(&self, alloc: Global) -> Result<Send, NoMemory>
        ensures reply { IfOk result (λ send. send ≡ simple_ack self.now) }
    {
        reply_to(alloc, self.peer, &simple_ack(self.invoke, self.service))
    }

    /// The request is answered by an error.
    pub(crate) fn error_numbered(
        &self,
        alloc: Global,
        class: u8,
        code: u8,
    ) -> Result<Send, NoMemory>
        ensures reply { IfOk result (λ send. send ≡ error_numbered self.now class code) }
    {
        reply_to(
            alloc,
            self.peer,
            &error(self.invoke, self.service, class, code),
        )
    }

    /// The request is answered with an error of the standard.
    pub(crate) fn error(&self, alloc: Global, named: ServiceError) -> Result<Send, NoMemory>
        ensures reply { IfOk result (λ send. send ≡ error self.now named) }
    {
        self.error_numbered(alloc, named.class, named.code)
    }

    /// The list isn't edited, for the reason that an error gives, at the element with a number, from 1; 0 where it is none of
    /// them.
    pub(crate) fn list_error(
        &self,
        alloc: Global,
        named: ServiceError,
        element: u32,
    ) -> Result<Send, NoMemory>
        ensures reply { IfOk result (λ send. send ≡ list_error self.now named element) }
    {
        let apdu = change_list_error(
            alloc,
            self.invoke,
            self.service,
            named.class,
            named.code,
            element,
        )?;
        reply_to(alloc, self.peer, apdu.as_slice())
    }

    /// The request isn't understood.
    pub(crate) fn reject(&self, alloc: Global, reason: u8) -> Result<Send, NoMemory>
        ensures reply { IfOk result (λ send. send ≡ reject self.now reason) }
    {
        reply_to(alloc, self.peer, &reject(self.invoke, reason))
    }

    /// The request isn't carried out.
    pub(crate) fn abort(&self, alloc: Global, reason: u8) -> Result<Send, NoMemory>
        ensures reply { IfOk result (λ send. send ≡ abort self.now reason) }
    {
        abort_to(alloc, self.peer, self.invoke, reason)
    }

    // An answer, unless it is longer than the requester takes.
    #[tactic(auto, unfolding(crate::specs::Replies::within_max_apdu))]
    fn within_max_apdu(&self, alloc: Global, apdu: &[u8]) -> Result<Send, NoMemory>
        ensures reply { IfOk result (λ send. send ≡ within_max_apdu self.now apdu.now) }
    {
        if apdu.len() > usize::from(self.max_apdu) {
            return self.abort(alloc, AbortReason::SEGMENTATION_NOT_SUPPORTED.0);
        }
        reply_to(alloc, self.peer, apdu)
    }

    /// The request is answered by its result, where that isn't longer than the requester takes.
    pub(crate) fn complex_ack(&self, alloc: Global, body: &[u8]) -> Result<Send, NoMemory>
        ensures reply { IfOk result (λ send. send ≡ complex_ack self.now body.now) }
    {
        let apdu = complex_ack(alloc, self.invoke, self.service, body)?;
        self.within_max_apdu(alloc, apdu.as_slice())
    }
}
