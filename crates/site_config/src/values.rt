//! What the texts of a document spell: objects, peers, days, bits, names.

ghost use Rattle.std.specs.Prelude.{◌≡◌, ◌≤◌, ◌<◌, IfSome};
ghost use Rattle.toml.specs.View.{view};
ghost use Rattle.site_config.specs.Values.{bits_in, days_in, peer_in, object_in, binary_value_in, notify_in, algorithm_in, value_kind, kind_in, binary_in, limit_in};

use algorithm_rules::Algorithm;
use bac_values::{Bits, ObjectId, ObjectKind, Peer};
use script_lines::{kind_named, read_bits, read_object, read_peer};
use toml::Value;
use toml_items::whole_in;

/// The greatest instance of an object.
pub const LAST_INSTANCE: u32 = 4_194_302;

/// The string of bits that a value spells.
pub fn bits_in(value: &Value) -> Option<Bits>
    ensures bits { result ≡ bits_in (view value.now) }
{
    read_bits(value.as_str()?.as_bytes())
}

/// The days of the week that a value spells, Monday the lowest bit.
pub fn days_in(value: &Value) -> Option<u8>
    ensures days { result ≡ days_in (view value.now) }
    ensures range { IfSome result (λ days. days < 128) }
{
    let bits = bits_in(value)?;
    if bits.length() == 7 {
        Some(bits.bits() as u8)
    } else {
        None
    }
}

/// The peer that a value names.
pub fn peer_in(value: &Value) -> Option<Peer>
    ensures peer { result ≡ peer_in (view value.now) }
{
    read_peer(value.as_str()?.as_bytes())
}

/// The object that a value names.
pub fn object_in(value: &Value) -> Option<ObjectId>
    ensures object { result ≡ object_in (view value.now) }
{
    let object = read_object(value.as_str()?.as_bytes())?;
    if object.instance() <= LAST_INSTANCE {
        Some(object)
    } else {
        None
    }
}

/// The binary value that a value names.
pub fn binary_value_in(value: &Value) -> Option<ObjectId>
    ensures object { result ≡ binary_value_in (view value.now) }
{
    let object = object_in(value)?;
    if object.number() == ObjectKind::BinaryValue.number() {
        Some(object)
    } else {
        None
    }
}

/// The Notify_Type that a value names: 0 is alarm, 1 is event.
pub fn notify_in(value: &Value) -> Option<u8>
    ensures notify { result ≡ notify_in (view value.now) }
    ensures range { IfSome result (λ n. n ≤ 1) }
{
    let text = value.as_str()?;
    if text == "alarm" {
        Some(0)
    } else if text == "event" {
        Some(1)
    } else {
        None
    }
}

/// The algorithm of an enrollment that a value names.
pub fn algorithm_in(value: &Value) -> Option<Algorithm>
    ensures algorithm { result ≡ algorithm_in (view value.now) }
{
    let text = value.as_str()?;
    if text == "command-failure" {
        Some(Algorithm::CommandFailure)
    } else if text == "unsigned-range" {
        Some(Algorithm::UnsignedRange)
    } else {
        None
    }
}

/// The kind, if objects of it have a value.
fn value_kind(kind: ObjectKind) -> Option<ObjectKind>
    ensures kind { result ≡ value_kind kind }
{
    match kind {
        ObjectKind::BinaryValue
        | ObjectKind::MultiStateValue
        | ObjectKind::BitStringValue
        | ObjectKind::CharacterStringValue
        | ObjectKind::IntegerValue
        | ObjectKind::PositiveIntegerValue => Some(kind),
        ObjectKind::Device
        | ObjectKind::EventEnrollment
        | ObjectKind::NotificationClass
        | ObjectKind::EventLog => None,
    }
}

/// The kind of value objects that a value names.
pub fn kind_in(value: &Value) -> Option<ObjectKind>
    ensures kind { result ≡ kind_in (view value.now) }
{
    value_kind(kind_named(value.as_str()?.as_bytes())?)
}

/// The state of a binary value that a value names.
pub fn binary_in(value: &Value) -> Option<u32>
    ensures state { result ≡ binary_in (view value.now) }
    ensures range { IfSome result (λ n. n ≤ 1) }
{
    let text = value.as_str()?;
    if text == "inactive" {
        Some(0)
    } else if text == "active" {
        Some(1)
    } else {
        None
    }
}

/// The limit of a value of the kind that a value is.
pub fn limit_in(value: &Value, kind: ObjectKind) -> Option<i64>
    ensures limit { result ≡ limit_in kind (view value.now) }
{
    match kind {
        ObjectKind::IntegerValue => whole_in(value, i64::from(i32::MIN), i64::from(i32::MAX)),
        _ => whole_in(value, 0, i64::from(u32::MAX)),
    }
}
