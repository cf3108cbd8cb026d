//! The destination for which an element stands.

ghost use Rattle.std.specs.Prelude.{◌≡◌, ◌<◌, IfSome};
ghost use Rattle.std.specs.Option.{option_and_then};
ghost use Rattle.recipients.specs.Recipients.{StandsWithin, recipient_in};
ghost use Rattle.list_binding.specs.Elements.{binding_of, destination_of, element_in, if_device, of_size, peer_of, time_of, with_port};

use crate::Binding;
use crate::element::Element;
use bac_values::{Bits, ObjectId, ObjectKind, Peer};
use notify_class::Destination;
use recipients::{Recipient, peer_at};

/// The days of a week, and the kinds of transitions.
const DAYS: u8 = 7;

const TRANSITIONS: u8 = 3;

// A time of day in hundredths of a second, no part of which is any (X'FF').
fn time_of(time: [u8; 4]) -> Option<u32>
    ensures time { result ≡ time_of time }
    ensures day { IfSome result (λ hundredths. hundredths < 8640000) }
{
    let [hour, minute, second, hundredth] = time;
    if hour > 23 || minute > 59 || second > 59 || hundredth > 99 {
        return None;
    }
    let seconds = 3_600 * u32::from(hour) + 60 * u32::from(minute) + u32::from(second);
    Some(100 * seconds + u32::from(hundredth))
}

// A string of so many bits.
fn of_size(size: u8, string: Option<Bits>) -> Option<Bits>
    ensures string { result ≡ option_and_then (of_size size) string }
{
    match string {
        Some(bits) if bits.length() == size => Some(bits),
        _ => None,
    }
}

// The peer to which a device is bound.
fn binding_of(bindings: &[Binding], device: u32) -> Option<Peer>
    ensures bound { result ≡ binding_of device bindings.now }
{
    bindings
        .iter()
        .find(|binding| binding.device == device)
        .map(|binding| binding.peer)
}

fn if_device(bindings: &[Binding], object: ObjectId) -> Option<Peer>
    ensures bound { result ≡ if_device bindings.now object }
{
    if object.number() != ObjectKind::Device.number() {
        return None;
    }
    binding_of(bindings, object.instance())
}

// A port of 0 is that of no peer.
fn with_port(peer: Peer) -> Option<Peer>
    ensures peer { result ≡ with_port peer }
{
    if peer.port == 0 {
        return None;
    }
    Some(peer)
}

// The peer of a recipient: a device stands for the one to which it is bound.
fn peer_of(input: &[u8], recipient: Recipient, bindings: &[Binding]) -> Option<Peer>
    requires within { StandsWithin input.now recipient }
    ensures peer { result ≡ peer_of bindings.now (recipient_in input.now recipient) }
{
    match recipient {
        Recipient::Device(object) => if_device(bindings, object),
        Recipient::Address(address) => with_port(peer_at(input, address)?),
    }
}

/// The destination for which an element stands, if its parts are those of one.
pub(crate) fn destination_of(
    input: &[u8],
    element: &Element,
    bindings: &[Binding],
) -> Option<Destination>
    requires within { StandsWithin input.now element.now.recipient }
    ensures destination { result ≡ destination_of bindings.now (element_in input.now element.now) }
{
    let days = of_size(DAYS, element.days)?;
    let from = time_of(element.from)?;
    let to = time_of(element.to)?;
    let peer = peer_of(input, element.recipient, bindings)?;
    let transitions = of_size(TRANSITIONS, element.transitions)?;
    Some(Destination {
        days: days.bits() as u8,
        from,
        to,
        peer,
        process: element.process,
        confirmed: element.confirmed,
        transitions: transitions.three_flags(),
    })
}
