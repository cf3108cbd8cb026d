//! Peers on the network.

ghost use Rattle.std.specs.Prelude.{◌≡◌, []};
ghost use Rattle.bac_values.specs.Address.{console};
ghost use Rattle.bac_values.specs.Orders.{is_same};

use crate::Mac;
use std::marker::Model;

/// A peer on the network. On the local network, 0, there is no station behind the address.
/// The order is by the fields, in their order.
#[derive(Clone, Copy, Debug, PartialEq, Eq, PartialOrd, Ord)]
pub struct Peer {
    /// The address of IPv4, its first octet highest.
    pub ip: u32,
    /// The port of UDP.
    pub port: u16,
    /// The number of the network behind a router, or 0.
    pub net: u16,
    /// The station on that network.
    pub mac: Mac,
}

impl Model for Peer {
    ghost use Rattle.bac_values.specs.Address.{IsAddress, PeerData};

    ghost Value = { PeerData };

    ghost view = { λ peer. record { ip = peer.ip; port = peer.port; net = peer.net; mac = peer.mac } };

    ghost invariant = { λ peer. IsAddress peer.net peer.mac };

    ghost inverse = { λ peer. record { ip = peer.ip; port = peer.port; net = peer.net; mac = peer.mac } };
}

impl Peer {
    /// Whether it is the same peer: all fields are equal, as `==` says.
    pub fn is_same(&self, other: &Peer) -> bool
        ensures same { result ≡ is_same self.now other.now }
    {
        self == other
    }

    /// The console, which is the peer of zeros.
    pub fn console() -> Peer
        ensures console { result ≡ console }
    {
        Peer::local(0, 0)
    }

    /// The peer at an address and a port of the local network.
    pub fn local(ip: u32, port: u16) -> Peer
        ensures local { result ≡ record { ip = ip; port = port; net = 0; mac = [] } }
    {
        Peer {
            ip,
            port,
            net: 0,
            mac: Mac::none(),
        }
    }
}
