//! Peers in their order, each once.

ghost use Rattle.std.specs.Prelude.{◌≡◌, ◌+◌, ◌<◌, ◌≤◌, [], IfOk, OkIff, OnErr, OnOk, length, vec_capacity, vec_len};
ghost use Rattle.bac_values.specs.Orders.{IsAscending, is_among, peer_with, peers_with};

use crate::{NoMemory, Peer};
use std::alloc::Global;
use std::marker::Model;

/// Peers that ascend, so that each stands there once. Contracts see them as their list.
#[derive(Debug, Drop)]
pub struct PeerList {
    peers: Vec<Peer>,
}

impl Model for PeerList {
    ghost use Rattle.std.specs.Prelude.{List};
    ghost use Rattle.bac_values.specs.Address.{PeerData};
    ghost use Rattle.bac_values.specs.Orders.{IsAscending};

    ghost Value = { List PeerData };

    ghost view = { λ list. list.peers.items };

    ghost invariant = { λ list. IsAscending list.peers.items };
}

/// Whether a peer is among some that ascend: found by halving.
pub fn is_among(peers: &[Peer], peer: &Peer) -> bool
    requires ascending { IsAscending peers.now }
    ensures among { result ≡ is_among peers.now peer.now }
{
    peers.binary_search(peer).is_ok()
}

// A peer at its place, unless it is there. There is room for it.
fn add_one(peers: &mut Vec<Peer>, peer: Peer)
    requires ascending { IsAscending peers.old.items }
    requires room { vec_len peers.old < vec_capacity peers.old }
    ensures added { peers.new.items ≡ peer_with peer peers.old.items }
    ensures ascending { IsAscending peers.new.items }
    ensures length { vec_len peers.new ≤ vec_len peers.old + 1 }
    ensures capacity { vec_capacity peers.old ≤ vec_capacity peers.new }
{
    if let Err(place) = peers.binary_search(&peer) {
        let _inserted = peers.insert(place, peer);
    }
}

// Each of the others at its place, unless it is there. There is room for them.
fn add_all(peers: &mut Vec<Peer>, others: &[Peer])
    requires ascending { IsAscending peers.old.items }
    requires room { vec_len peers.old + length others.now ≤ vec_capacity peers.old }
    ensures added { peers.new.items ≡ peers_with others.now peers.old.items }
    ensures ascending { IsAscending peers.new.items }
{
    for other in others {
        add_one(peers, *other);
    }
}

impl PeerList {
    /// No peers.
    pub fn new(alloc: Global) -> PeerList
        ensures empty { result ≡ [] }
    {
        PeerList {
            peers: Vec::new(alloc),
        }
    }

    /// The peers, ascending.
    pub fn as_slice(&self) -> &[Peer]
        ensures same { result.now ≡ self.now }
        ensures ascending { IsAscending self.now }
    {
        self.peers.as_slice()
    }

    /// Whether a peer is among them.
    pub fn contains(&self, peer: &Peer) -> bool
        ensures among { result ≡ is_among self.now peer.now }
    {
        is_among(&self.peers, peer)
    }

    /// Puts a peer at its place, unless it is there.
    pub fn insert(&mut self, peer: Peer) -> Result<(), NoMemory>
        ensures added { OnOk result (self.new ≡ peer_with peer self.old) }
        ensures same { OnErr result (self.new ≡ self.old) }
    {
        self.peers.reserve(1)?;
        add_one(&mut self.peers, peer);
        Ok(())
    }

    /// Puts each of some other peers at its place, unless it is there.
    pub fn extend(&mut self, others: &[Peer]) -> Result<(), NoMemory>
        ensures added { OnOk result (self.new ≡ peers_with others.now self.old) }
        ensures same { OnErr result (self.new ≡ self.old) }
    {
        self.peers.reserve(others.len())?;
        add_all(&mut self.peers, others);
        Ok(())
    }

    /// A list of these peers and others.
    pub fn with(&self, alloc: Global, others: &[Peer]) -> Result<PeerList, NoMemory>
        ensures together { IfOk result (λ list. list ≡ peers_with others.now self.now) }
    {
        let mut list = PeerList {
            peers: self.peers.to_vec(alloc)?,
        };
        list.extend(others)?;
        Ok(list)
    }
}
