//! APDUs with a body are written: requests and ComplexACK (20.1).

ghost use Rattle.std.specs.Prelude.{◌≡◌, ◌++◌, IfOk};
ghost use Rattle.bac_values.specs.Services.{longest_apdu};
ghost use Rattle.apdu_frame.specs.declared.apdu.Apdu.{Apdu};
ghost use Rattle.apdu_frame.specs.ReadingSteps.{apdu_of};
ghost use Rattle.apdu_frame.specs.Writing.{written_complex_ack, written_request, written_unconfirmed};

use crate::first::first_octet;
use bac_values::{NoMemory, PduType};
use std::alloc::Global;

/// The octet that says that answers of up to `LONGEST_APDU` octets are taken, and none in segments.
const ACCEPTS: u8 = 0x05;

/// A header and what stands behind it.
fn joined(alloc: Global, header: &[u8], body: &[u8]) -> Result<Vec<u8>, NoMemory>
    ensures { IfOk result (λ octets. octets.items ≡ header.now ++ body.now) }
{
    let mut octets = Vec::with_capacity(alloc, header.len() + body.len())?;
    octets.extend_from_slice(header)?;
    octets.extend_from_slice(body)?;
    Ok(octets)
}

/// A ComplexACK: the answer to a request with its result, `body`.
pub fn complex_ack(alloc: Global, invoke: u8, service: u8, body: &[u8]) -> Result<Vec<u8>, NoMemory>
    ensures text { IfOk result (λ octets. octets.items ≡ written_complex_ack invoke service body.now) }
{
    joined(
        alloc,
        &[first_octet(PduType::COMPLEX_ACK), invoke, service],
        body,
    )
}

/// A confirmed request with its parameters, `body`.
pub fn request(alloc: Global, invoke: u8, service: u8, body: &[u8]) -> Result<Vec<u8>, NoMemory>
    ensures text { IfOk result (λ octets. octets.items ≡ written_request invoke service body.now) }
    ensures read_back { IfOk result (λ octets. apdu_of octets.items ≡ Apdu.Request longest_apdu invoke service 4) }
{
    joined(
        alloc,
        &[
            first_octet(PduType::CONFIRMED_REQUEST),
            ACCEPTS,
            invoke,
            service,
        ],
        body,
    )
}

/// An unconfirmed request with its parameters, `body`.
pub fn unconfirmed(alloc: Global, service: u8, body: &[u8]) -> Result<Vec<u8>, NoMemory>
    ensures text { IfOk result (λ octets. octets.items ≡ written_unconfirmed service body.now) }
    ensures read_back { IfOk result (λ octets. apdu_of octets.items ≡ Apdu.Unconfirmed service 2) }
{
    joined(
        alloc,
        &[first_octet(PduType::UNCONFIRMED_REQUEST), service],
        body,
    )
}
