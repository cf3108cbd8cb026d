//! Why a reader of the front answers nothing.

use bac_values::NoMemory;

/// Why a reader of the front of octets answers nothing.
#[derive(Clone, Copy, Debug, PartialEq, Eq)]
pub enum ReadFault {
    /// Nothing of its kind stands there.
    NothingThere,
    /// Memory was refused.
    NoMemory,
}

impl From<NoMemory> for ReadFault {
    ghost use Rattle.std.specs.Prelude.{◌≡◌};
    ghost use Rattle.state_codec.specs.declared.reading.ReadFault.TheVariants.{NoMemory as Refused};

    ghost from_gives = { λ _ fault. fault ≡ Refused };

    fn from(_refused: NoMemory) -> ReadFault {
        ReadFault::NoMemory
    }
}
