//! The first octet of an APDU.

ghost use Rattle.std.specs.Prelude.{◌≡◌, ◌<◌};
ghost use Rattle.apdu_frame.specs.Writing.{first_octet};

use bac_values::PduType;

/// The first octet of an APDU without flags: its type in the high four bits.
pub(crate) fn first_octet(pdu: PduType) -> u8
    requires kind { pdu.0 < 16 }
    ensures first { result ≡ first_octet pdu.0 }
{
    16 * pdu.0
}
