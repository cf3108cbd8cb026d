//! Whether a list may take the place of a class's.

ghost use Rattle.std.specs.Prelude.{◌≡◌, ◌↔◌, ◌+◌, ◌<◌, ◌≤◌, ◌^◌, IsTrue, length, not, ◌&&◌};
ghost use Rattle.bac_values.specs.Address.{PeerData};
ghost use Rattle.bac_values.specs.Orders.{IsAscending, is_among};
ghost use Rattle.notify_class.specs.Recipients.{DestinationData};
ghost use Rattle.notify_class.specs.Edits.{IsUnion, known_with, recipient_peers, edit_verdict};

use crate::Destination;
use bac_values::{MOST_DESTINATIONS, MOST_PEERS, Peer, is_among};

/// Why the destinations of a class cannot be replaced.
#[derive(Clone, Copy, Debug, PartialEq, Eq)]
pub enum EditFault {
    /// More than `MOST_DESTINATIONS` destinations.
    TooMany {
        /// How many.
        count: usize,
    },
    /// The peers that are known and those that are new are together more than `MOST_PEERS`.
    TooManyPeers {
        /// How many there would be.
        would: usize,
    },
    /// A note of each member to each destination is more than there is room for.
    TooManyNotes {
        /// How many there would be.
        would: u64,
    },
}

/// Whether one of the destinations has the peer.
fn has_peer(destinations: &[Destination], peer: &Peer) -> bool
    ensures has { result ≡ is_among (recipient_peers destinations.now) peer.now }
{
    destinations
        .iter()
        .map(|destination| destination.peer)
        .any(|other| other.is_same(peer))
}

/// Whether the peer is neither known nor that of an earlier destination.
#[tactic(auto, using(crate::proofs::UnionLemmas::among_both))]
fn is_new(known: &[Peer], earlier: &[Destination], peer: &Peer) -> bool
    requires ascending { IsAscending known.now }
    ensures new { result ≡ not (is_among (known_with known.now (recipient_peers earlier.now)) peer.now) }
{
    !is_among(known, peer) && !has_peer(earlier, peer)
}

/// How many peers of the destinations are not known.
fn new_peers(known: &[Peer], destinations: &[Destination]) -> usize
    requires ascending { IsAscending known.now }
    ensures together { length known.now + result ≡ length (known_with known.now (recipient_peers destinations.now)) }
    ensures most { result ≤ length destinations.now }
{
    let mut count = 0;
    for (place, destination) in destinations.iter().enumerate() {
        if is_new(known, &destinations[..place], &destination.peer) {
            count += 1;
        }
    }
    count
}

/// Whether these destinations may be those of a class with so many members, where `room` is how many notes the
/// class may add; the first limit that they are above is told.
pub fn check_edit(
    known: &[Peer],
    destinations: &[Destination],
    members: u32,
    room: u32,
) -> Result<(), EditFault>
    requires ascending { IsAscending known.now }
    ensures verdict { result ≡ edit_verdict known.now destinations.now members room }
    ensures union { IsUnion known.now (recipient_peers destinations.now) (known_with known.now (recipient_peers destinations.now)) }
{
    let count = destinations.len();
    if count > MOST_DESTINATIONS {
        return Err(EditFault::TooMany { count });
    }
    let would = known.len() + new_peers(known, destinations);
    if would > MOST_PEERS {
        return Err(EditFault::TooManyPeers { would });
    }
    let would = u64::from(members) * count as u64;
    if would > u64::from(room) {
        return Err(EditFault::TooManyNotes { would });
    }
    Ok(())
}
