//! Addresses of stations behind a router.

ghost use Rattle.std.specs.Prelude.{◌≡◌, ◌≤◌, [], length, SomeIff};

use std::marker::Model;

/// The address of a station behind a router: at most seven octets, which contracts see as their list.
/// The order is by length, then by the octets.
#[derive(Clone, Copy, Debug, PartialEq, Eq, PartialOrd, Ord)]
pub struct Mac {
    size: u8,
    octets: [u8; 7],
}

impl Model for Mac {
    ghost use Rattle.std.specs.Prelude.{ℕ, List, length, take};
    ghost use Rattle.bac_values.specs.Address.{IsPadded, padded};

    ghost Value = { List ℕ };

    ghost view = { λ mac. take mac.size mac.octets };

    ghost invariant = { λ mac. IsPadded mac.size mac.octets };

    ghost inverse = { λ octets. record { size = length octets; octets = padded octets } };

    ghost use Rattle.bac_values.specs.Padding.{gives_back};

    ghost inverse_ok = { λ mac h. gives_back mac h };
}

impl Mac {
    /// No octets: there is no station behind the address.
    pub fn none() -> Mac
        ensures none { result ≡ [] }
    {
        Mac {
            size: 0,
            octets: [0; 7],
        }
    }

    /// The address with these octets; none exactly where there are more than seven.
    pub fn new(octets: &[u8]) -> Option<Mac>
        ensures made { SomeIff result (length octets.now ≤ 7) octets.now }
    {
        if octets.len() > 7 {
            return None;
        }
        let mut places = [0; 7];
        places[..octets.len()].copy_from_slice(octets);
        Some(Mac {
            size: octets.len() as u8,
            octets: places,
        })
    }

    /// The octets, at most seven.
    pub fn octets(&self) -> &[u8]
        ensures same { result.now ≡ self.now }
        ensures short { length self.now ≤ 7 }
    {
        &self.octets[..self.size as usize]
    }
}
