//! Recipients of a class in octets are read.

ghost use Rattle.std.specs.Prelude.{◌≡◌};
ghost use Rattle.state_codec.specs.ReadingSteps.{Gives, destination_at, destinations_at, list_at};

use crate::parts::{take_flag, take_flags, take_octet, take_peer, take_u32};
use crate::reading::ReadFault;
use bac_values::{Items, MOST_DESTINATIONS, push};
use notify_class::Destination;
use std::alloc::Global;

/// Takes the recipient at the front.
#[tactic(auto, unfolding(crate::specs::ReadingSteps::destination_at))]
fn take_destination(bytes: &mut &[u8]) -> Result<Destination, ReadFault>
    ensures exact { Gives (λ x. (x, bytes.new.now)) result (destination_at bytes.old.now) }
{
    let days = take_octet(bytes)?;
    let from = take_u32(bytes)?;
    let to = take_u32(bytes)?;
    let peer = take_peer(bytes)?;
    let process = take_u32(bytes)?;
    let confirmed = take_flag(bytes)?;
    let transitions = take_flags(bytes)?;
    if days >= 128 || from >= 8_640_000 || to >= 8_640_000 {
        return Err(ReadFault::NothingThere);
    }
    Ok(Destination {
        days,
        from,
        to,
        peer,
        process,
        confirmed,
        transitions,
    })
}

/// Takes so many recipients from the front.
fn take_list(alloc: Global, count: u8, bytes: &mut &[u8]) -> Result<Vec<Destination>, ReadFault>
    ensures exact { Gives (λ x. (x.items, bytes.new.now)) result (list_at count bytes.old.now) }
{
    let mut recipients = Vec::new(alloc);
    for _ in 0..count {
        let recipient = take_destination(bytes)?;
        push(&mut recipients, recipient)?;
    }
    Ok(recipients)
}

/// Takes the recipients at the front, behind their number.
#[tactic(auto, unfolding(crate::specs::ReadingSteps::destinations_at))]
pub(crate) fn take_destinations(
    alloc: Global,
    bytes: &mut &[u8],
) -> Result<Items<Destination>, ReadFault>
    ensures exact { Gives (λ x. (x, bytes.new.now)) result (destinations_at bytes.old.now) }
{
    let count = take_octet(bytes)?;
    if usize::from(count) > MOST_DESTINATIONS {
        return Err(ReadFault::NothingThere);
    }
    Ok(Items::of(take_list(alloc, count, bytes)?))
}
