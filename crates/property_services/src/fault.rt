//! Why a request isn't read.

use bac_tags::Malformed;
use bac_values::NoMemory;

/// Why no request was answered.
#[derive(Clone, Copy, Debug, PartialEq, Eq)]
pub enum ServiceFault {
    /// The octets aren't the parameters of the service.
    Malformed {
        /// The reason of the Reject, as in `bac_tags::Malformed`.
        reject: u8,
        /// The place in the octets.
        at: usize,
    },
    /// Memory was refused.
    NoMemory,
}

impl From<Malformed> for ServiceFault {
    ghost use Rattle.std.specs.Prelude.{◌≡◌};
    ghost use Rattle.property_services.specs.declared.fault.ServiceFault.TheVariants as faults;

    ghost from_gives = { λ fault e. e ≡ faults.Malformed fault.reject fault.at };

    fn from(fault: Malformed) -> ServiceFault {
        ServiceFault::Malformed {
            reject: fault.reject,
            at: fault.at,
        }
    }
}

impl From<NoMemory> for ServiceFault {
    ghost use Rattle.std.specs.Prelude.{◌≡◌};
    ghost use Rattle.property_services.specs.declared.fault.ServiceFault.TheVariants as faults;

    ghost from_gives = { λ _ e. e ≡ faults.NoMemory };

    fn from(_refused: NoMemory) -> ServiceFault {
        ServiceFault::NoMemory
    }
}
