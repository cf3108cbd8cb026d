//! The law that what is written is read back.

ghost use Rattle.std.specs.Prelude.{◌≡◌, ◌+◌, ◌++◌, List, ℕ, Some, Ok, length};
ghost use Rattle.bac_values.specs.Address.{PeerData};
ghost use Rattle.recipients.specs.Recipients.{OfAddress, SpellsRecipient, IsWrittenPeer, IsLocalPeer, address_of, peer_at, written_peer};
ghost use Rattle.recipients.specs.RecipientSteps.{recipient_at};

/// The address of a peer that is written spells that address, is read back whatever stands before it and behind it, and on
/// the local network is that of the same peer.
pub fn written_peers_are_read()
    ensures spelled { (peer : PeerData) → IsWrittenPeer peer → SpellsRecipient (written_peer peer) (OfAddress (address_of peer)) }
    ensures read { (before rest : List ℕ) (peer : PeerData) → IsWrittenPeer peer → recipient_at (before ++ written_peer peer ++ rest) (length before) ≡ Ok (OfAddress (address_of peer), length before + length (written_peer peer)) }
    ensures peer { (peer : PeerData) → IsLocalPeer peer → peer_at (address_of peer) ≡ Some peer }
{}
