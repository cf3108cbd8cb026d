//! Short answers are written: SimpleACK, Error, Reject, Abort (20.1).

ghost use Rattle.std.specs.Prelude.{◌≡◌, ◌≤◌, IfOk, length};
ghost use Rattle.apdu_frame.specs.declared.apdu.Apdu.{Apdu};
ghost use Rattle.apdu_frame.specs.ReadingSteps.{apdu_of};
ghost use Rattle.apdu_frame.specs.Writing.{written_simple_ack, written_error, written_list_error, written_reject, written_abort};

use crate::first::first_octet;
use bac_tags::{write_closing, write_enumerated, write_opening, write_unsigned};
use bac_values::{ApplicationTag, NoMemory, PduType};
use std::alloc::Global;

/// The tag of an Enumerated of one octet.
const ENUMERATED: u8 = 16 * ApplicationTag::ENUMERATED.0 + 1;

/// The flag of an Abort by the server.
const BY_SERVER: u8 = 1;

/// A SimpleACK: the request was carried out.
pub fn simple_ack(invoke: u8, service: u8) -> [u8; 3]
    ensures text { result ≡ written_simple_ack invoke service }
    ensures read_back { apdu_of result ≡ Apdu.SimpleAck invoke service }
{
    [first_octet(PduType::SIMPLE_ACK), invoke, service]
}

/// An Error: the request can't be carried out, for the reason that `class` and `code` give.
pub fn error(invoke: u8, service: u8, class: u8, code: u8) -> [u8; 7]
    ensures text { result ≡ written_error invoke service class code }
    ensures read_back { apdu_of result ≡ Apdu.Error invoke service }
{
    let first = first_octet(PduType::ERROR);
    [first, invoke, service, ENUMERATED, class, ENUMERATED, code]
}

/// The numbers of the parameters of an error of a service that edits a list.
const ERROR_TYPE: u8 = 0;

const FIRST_FAILED_ELEMENT: u8 = 1;

/// The most octets of an error of a service that edits a list.
const LIST_ERROR: usize = 14;

/// An Error of a service that edits a list (clause 21, ChangeList-Error): the list isn't edited, for the reason that `class`
/// and `code` give, at the element with that number, from 1. The number is 0 where it is none of them.
pub fn change_list_error(
    alloc: Global,
    invoke: u8,
    service: u8,
    class: u8,
    code: u8,
    element: u32,
) -> Result<Vec<u8>, NoMemory>
    ensures text { IfOk result (λ octets. octets.items ≡ written_list_error invoke service class code element) }
    ensures read_back { IfOk result (λ octets. apdu_of octets.items ≡ Apdu.Error invoke service) }
    ensures short { IfOk result (λ octets. length octets.items ≤ 14) }
{
    let mut octets = Vec::with_capacity(alloc, LIST_ERROR)?;
    octets.extend_from_slice(&[first_octet(PduType::ERROR), invoke, service])?;
    write_opening(&mut octets, ERROR_TYPE)?;
    write_enumerated(&mut octets, u32::from(class))?;
    write_enumerated(&mut octets, u32::from(code))?;
    write_closing(&mut octets, ERROR_TYPE)?;
    write_unsigned(&mut octets, Some(FIRST_FAILED_ELEMENT), element)?;
    Ok(octets)
}

/// A Reject: the request isn't one, for this reason.
pub fn reject(invoke: u8, reason: u8) -> [u8; 3]
    ensures text { result ≡ written_reject invoke reason }
    ensures read_back { apdu_of result ≡ Apdu.Reject invoke }
{
    [first_octet(PduType::REJECT), invoke, reason]
}

/// An Abort by the server, for this reason.
pub fn abort(invoke: u8, reason: u8) -> [u8; 3]
    ensures text { result ≡ written_abort invoke reason }
    ensures read_back { apdu_of result ≡ Apdu.Abort invoke }
{
    [first_octet(PduType::ABORT) + BY_SERVER, invoke, reason]
}
