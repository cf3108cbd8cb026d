//! The peers to which classes send.

ghost use Rattle.std.specs.Prelude.{◌≡◌, ◌++◌, IfOk, OnOk};
ghost use Rattle.notify_class.specs.Edits.{recipient_peers};
ghost use Rattle.alarm_core.specs.Classes.{peers_in};

use bac_values::{NoMemory, Peer, push};
use notify_class::{Class, Destination};
use std::alloc::Global;

fn add_peers(peers: &mut Vec<Peer>, destinations: &[Destination]) -> Result<(), NoMemory>
    ensures added { OnOk result (peers.new.items ≡ peers.old.items ++ recipient_peers destinations.now) }
{
    for destination in destinations {
        push(peers, destination.peer)?;
    }
    Ok(())
}

/// The peers of a list of recipients, in its order.
pub(crate) fn recipient_peers(
    alloc: Global,
    destinations: &[Destination],
) -> Result<Vec<Peer>, NoMemory>
    ensures peers { IfOk result (λ peers. peers.items ≡ recipient_peers destinations.now) }
{
    let mut peers = Vec::new(alloc);
    add_peers(&mut peers, destinations)?;
    Ok(peers)
}

/// The peers of the lists of some classes.
pub(crate) fn peers_in(alloc: Global, classes: &[Class]) -> Result<Vec<Peer>, NoMemory>
    ensures peers { IfOk result (λ peers. peers.items ≡ peers_in classes.now) }
{
    let mut peers = Vec::new(alloc);
    for class in classes {
        add_peers(&mut peers, class.destinations.as_slice())?;
    }
    Ok(peers)
}
