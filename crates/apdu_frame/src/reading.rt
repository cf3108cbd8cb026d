//! The headers of APDUs are read (20.1).

ghost use Rattle.std.specs.Prelude.{◌≡◌, ◌≢◌, ◌∷◌};
ghost use Rattle.apdu_frame.specs.declared.apdu.Apdu.{Apdu};
ghost use Rattle.apdu_frame.specs.Headers.{BeginsWithin, IsApdu, max_apdu_of};
ghost use Rattle.apdu_frame.specs.ReadingSteps.{apdu_of, request_of};

use crate::Apdu;
use bac_values::{LONGEST_APDU, PduType};

/// The bit of a confirmed request's first octet that marks a segment.
const IS_SEGMENTED: u8 = 0x08;

/// The most octets of an answer, by the second octet of a confirmed request.
fn read_max_apdu(second: u8) -> u16
    ensures { result ≡ max_apdu_of second }
{
    match second & 0x0f {
        0 => 50,
        1 => 128,
        2 => 206,
        3 => 480,
        4 => 1024,
        _ => LONGEST_APDU,
    }
}

/// The header of a confirmed request, of which `rest` stands behind the first octet.
fn read_request(first: u8, rest: &[u8]) -> Apdu
    ensures exact { result ≡ request_of first rest.now }
    ensures within { BeginsWithin (first ∷ rest.now) result }
{
    let [second, invoke, service, more @ ..] = rest else {
        return Apdu::Other;
    };
    if first & IS_SEGMENTED == 0 {
        return Apdu::Request {
            max_apdu: read_max_apdu(*second),
            invoke: *invoke,
            service: *service,
            start: 4,
        };
    }
    if more.len() < 2 {
        return Apdu::Other;
    }
    Apdu::Segmented { invoke: *invoke }
}

/// The header of an APDU. What isn't in the standard's table, is a ComplexACK or a SegmentACK, or is cut within
/// its header, is `Other`.
pub fn read_apdu(bytes: &[u8]) -> Apdu
    ensures exact { result ≡ apdu_of bytes.now }
    ensures found { result ≢ Apdu.Other → IsApdu bytes.now result }
    ensures within { BeginsWithin bytes.now result }
    ensures only { (apdu : Apdu) → IsApdu bytes.now apdu → result ≡ apdu }
{
    let Some((first, rest)) = bytes.split_first() else {
        return Apdu::Other;
    };
    match (PduType(*first >> 4), rest) {
        (PduType::CONFIRMED_REQUEST, _) => read_request(*first, rest),
        (PduType::UNCONFIRMED_REQUEST, [service, ..]) => Apdu::Unconfirmed {
            service: *service,
            start: 2,
        },
        (PduType::SIMPLE_ACK, [invoke, service, ..]) => Apdu::SimpleAck {
            invoke: *invoke,
            service: *service,
        },
        (PduType::ERROR, [invoke, service, ..]) => Apdu::Error {
            invoke: *invoke,
            service: *service,
        },
        (PduType::REJECT, [invoke, _, ..]) => Apdu::Reject { invoke: *invoke },
        (PduType::ABORT, [invoke, _, ..]) => Apdu::Abort { invoke: *invoke },
        _ => Apdu::Other,
    }
}
