//! The laws of the orders of identifiers, stations and peers.

ghost use Rattle.std.specs.Prelude.{◌≡◌, ◌↔◌, ℕ, List, IsTrue};
ghost use Rattle.bac_values.specs.Address.{PeerData};
ghost use Rattle.bac_values.specs.Identifier.{ObjectIdData};
ghost use Rattle.bac_values.specs.Orders.{identifier_order, is_same, peer_order, station_order};

use crate::{Mac, ObjectId, Peer};

/// Identifiers, stations and peers are ordered by their fields, each in the order that the definition names.
pub fn orders_are_by_fields()
    ensures identifiers { (first second : ObjectIdData) → ⟦<ObjectId as Ord>⟧.cmp first second ≡ identifier_order first second }
    ensures stations { (first second : List ℕ) → ⟦<Mac as Ord>⟧.cmp first second ≡ station_order first second }
    ensures peers { (first second : PeerData) → ⟦<Peer as Ord>⟧.cmp first second ≡ peer_order first second }
{}

/// Two peers compare as equal exactly where they are one, and they are one exactly where all their fields are equal.
pub fn equal_peers_are_one()
    ensures compared { (first second : PeerData) → ⟦<Peer as PartialEq>⟧.eq first second ≡ is_same first second }
    ensures one { (first second : PeerData) → IsTrue (is_same first second) ↔ first ≡ second }
{}
