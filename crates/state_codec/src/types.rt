//! What the types of an event's parts say of it, for proofs alone: what is asked in a `prove!` costs nothing as the program
//! runs.
ghost use Rattle.std.specs.Prelude.{◌≡◌, ◌<◌, ◌^◌, All, true};
ghost use Rattle.state_codec.specs.Records.{IsDestination, IsPeer};
ghost use Rattle.state_codec.specs.Types.{AreOctets, FitsAct, FitsValue, FitsWhat};

use alarm_core::{Act, Event};
use bac_values::{Peer, Value};
use notify_class::Destination;
use object_table::What;

/// Octets are below 2^8. The call does nothing.
pub(crate) fn octets_fit(octets: &[u8])
    ensures below { AreOctets octets.now }
{
    let _octets = octets;
}

/// Whether a peer keeps the rules of its type, as each does.
pub(crate) fn peer_fits(peer: Peer) -> bool
    ensures fits { IsPeer peer }
    ensures always { result ≡ true }
{
    let _parts = (peer.ip, peer.port, peer.net);
    let _octets = peer.mac.octets();
    true
}

/// Whether a value does.
pub(crate) fn value_fits(value: &Value) -> bool
    ensures fits { FitsValue value.now }
    ensures always { result ≡ true }
{
    match value {
        Value::Unsigned(number) | Value::Enumerated(number) => {
            let _number = *number;
            true
        }
        Value::Signed(number) => {
            let _number = *number;
            true
        }
        Value::Text(text) => {
            let _octets = text.octets();
            true
        }
        Value::Bits(string) => {
            let _length = string.length();
            true
        }
        Value::Object(object) => {
            let _number = object.number();
            true
        }
        _ => true,
    }
}

// Whether a change does.
fn what_fits(what: &What) -> bool
    ensures fits { FitsWhat what.now }
    ensures always { result ≡ true }
{
    match what {
        What::Property { property, value } => {
            let _number = property.0;
            value_fits(value)
        }
        What::FieldFault { reliability } => {
            let _number = *reliability;
            true
        }
    }
}

// Whether a recipient does.
fn destination_fits(recipient: Destination) -> bool
    ensures fits { IsDestination recipient }
    ensures always { result ≡ true }
{
    let _process = recipient.process;
    let _flags = recipient.transitions;
    peer_fits(recipient.peer)
}

/// Recipients do. The call does nothing.
pub(crate) fn destinations_fit(recipients: &[Destination])
    ensures fit { All IsDestination recipients.now }
{
    prove!(
        recipients
            .iter()
            .all(|recipient| destination_fits(*recipient))
    );
}

/// Every event keeps the rules of the types of its parts. The call does nothing.
pub(crate) fn event_fits(event: &Event)
    ensures fits { FitsAct event.now.act }
{
    match &event.act {
        Act::Tick | Act::Pump => {}
        Act::Write { change } => {
            let _number = change.object.number();
            prove!(what_fits(&change.what));
        }
        Act::Ack { object, .. } => {
            let _number = object.number();
        }
        Act::Answer { peer, invoke, kind } => {
            let _numbers = (*invoke, *kind);
            prove!(peer_fits(*peer));
        }
        Act::Edit {
            class,
            destinations,
        } => {
            let _class = *class;
            destinations_fit(destinations.as_slice());
        }
    }
}
