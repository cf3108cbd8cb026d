//! The names of the keys, in their order.

ghost use Rattle.std.specs.Prelude.{◌≡◌};
ghost use Rattle.toml_items.specs.Members.{is_among};
ghost use Rattle.site_config.specs.Keys.{has_key, keys_of_kind, alarm_keys_of_kind, keys_of_algorithm};

use algorithm_rules::Algorithm;
use bac_values::ObjectKind;
use toml_items::{KnownKeys, is_among};

/// Which keys an item has.
#[derive(Clone, Copy)]
pub enum Keys {
    /// Those of the document: its sections.
    Top,
    /// Those of the device.
    Device,
    /// Those of a class.
    Class,
    /// Those of a destination.
    Destination,
    /// Those of an object.
    Object {
        /// Its kind. Where it isn't known the object has the keys of every kind.
        kind: Option<ObjectKind>,
        /// Whether it has a class.
        class: bool,
    },
    /// Those of an enrollment.
    Enrollment {
        /// Its algorithm. Where it isn't known the enrollment has the keys of both.
        algorithm: Option<Algorithm>,
    },
    /// Those of a log.
    Log,
    /// Those of a binding.
    Binding,
}

const SECTIONS: [&str; 7] = [
    "device",
    "class",
    "destination",
    "object",
    "enrollment",
    "log",
    "binding",
];

const DEVICE: [&str; 10] = [
    "instance",
    "name",
    "vendor",
    "start",
    "zone_minutes",
    "zone_rule",
    "apdu_timeout",
    "retries",
    "outbox",
    "flush_silent",
];

const CLASS: [&str; 4] = ["instance", "name", "priority", "ack_required"];

const DESTINATION: [&str; 8] = [
    "class",
    "address",
    "process",
    "days",
    "from",
    "to",
    "confirmed",
    "transitions",
];

const OBJECT: [&str; 7] = [
    "kind",
    "instance",
    "name",
    "value",
    "out_of_service",
    "reliability_inhibit",
    "class",
];

const ALARM: [&str; 8] = [
    "notify",
    "enable",
    "time_delay",
    "time_delay_normal",
    "detection",
    "inhibit",
    "inhibit_ref",
    "texts",
];

const ENROLLMENT: [&str; 5] = ["instance", "name", "class", "algorithm", "monitored"];

const LOG: [&str; 6] = [
    "instance",
    "name",
    "size",
    "stop_when_full",
    "enable",
    "classes",
];

const BINDING: [&str; 2] = ["device", "address"];

/// Whether objects of the kind have the key, with a class or without one.
fn kind_has(kind: Option<ObjectKind>, key: &str) -> bool
    ensures has { result ≡ is_among (keys_of_kind kind) key.now }
{
    match kind {
        None => is_among(&["states", "fault_low", "fault_high", "fault_values"], key),
        Some(ObjectKind::MultiStateValue) => is_among(&["states", "fault_values"], key),
        Some(ObjectKind::CharacterStringValue) => is_among(&["fault_values"], key),
        Some(ObjectKind::IntegerValue | ObjectKind::PositiveIntegerValue) => {
            is_among(&["fault_low", "fault_high"], key)
        }
        Some(_) => false,
    }
}

/// Whether objects of the kind have the key where they have a class.
fn alarm_kind_has(kind: Option<ObjectKind>, key: &str) -> bool
    ensures has { result ≡ is_among (alarm_keys_of_kind kind) key.now }
{
    match kind {
        None => is_among(
            &[
                "low",
                "high",
                "deadband",
                "limit_enable",
                "alarm_value",
                "alarm_values",
                "mask",
            ],
            key,
        ),
        Some(ObjectKind::IntegerValue | ObjectKind::PositiveIntegerValue) => {
            is_among(&["low", "high", "deadband", "limit_enable"], key)
        }
        Some(ObjectKind::BinaryValue) => is_among(&["alarm_value"], key),
        Some(ObjectKind::MultiStateValue | ObjectKind::CharacterStringValue) => {
            is_among(&["alarm_values"], key)
        }
        Some(ObjectKind::BitStringValue) => is_among(&["alarm_values", "mask"], key),
        Some(_) => false,
    }
}

/// Whether enrollments with the algorithm have the key.
fn algorithm_has(algorithm: Option<Algorithm>, key: &str) -> bool
    ensures has { result ≡ is_among (keys_of_algorithm algorithm) key.now }
{
    match algorithm {
        None => is_among(&["feedback", "low", "high"], key),
        Some(Algorithm::CommandFailure) => is_among(&["feedback"], key),
        Some(Algorithm::UnsignedRange) => is_among(&["low", "high"], key),
        Some(_) => false,
    }
}

/// Whether items with these keys have the key.
fn has_key(keys: Keys, key: &str) -> bool
    ensures has { result ≡ has_key keys key.now }
{
    match keys {
        Keys::Top => is_among(&SECTIONS, key),
        Keys::Device => is_among(&DEVICE, key),
        Keys::Class => is_among(&CLASS, key),
        Keys::Destination => is_among(&DESTINATION, key),
        Keys::Object { kind, class } => {
            is_among(&OBJECT, key)
                || kind_has(kind, key)
                || class && (is_among(&ALARM, key) || alarm_kind_has(kind, key))
        }
        Keys::Enrollment { algorithm } => {
            is_among(&ENROLLMENT, key) || algorithm_has(algorithm, key) || is_among(&ALARM, key)
        }
        Keys::Log => is_among(&LOG, key),
        Keys::Binding => is_among(&BINDING, key),
    }
}

impl KnownKeys for Keys {
    ghost has_key = { has_key };

    fn has(self, key: &str) -> bool {
        has_key(self, key)
    }
}
