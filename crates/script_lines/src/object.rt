//! Objects in text, `KIND:INSTANCE`.

ghost use Rattle.std.specs.Prelude.{◌≡◌, ◌↔◌};
ghost use Rattle.bac_values.specs.Identifier.{ObjectIdData};
ghost use Rattle.script_lines.specs.Report.{object_text};
ghost use Rattle.script_lines.specs.SessionLine.{IsNamedObject, kind_named, object_of};

use crate::names::kind_name;
use crate::number::unsigned;
use crate::words::split_at;
use bac_values::{ObjectId, ObjectKind};

// The types of objects that have a name.
const KINDS: [ObjectKind; 10] = [
    ObjectKind::BinaryValue,
    ObjectKind::Device,
    ObjectKind::EventEnrollment,
    ObjectKind::NotificationClass,
    ObjectKind::MultiStateValue,
    ObjectKind::EventLog,
    ObjectKind::BitStringValue,
    ObjectKind::CharacterStringValue,
    ObjectKind::IntegerValue,
    ObjectKind::PositiveIntegerValue,
];

/// The type of objects with a name.
pub fn kind_named(name: &[u8]) -> Option<ObjectKind>
    ensures kind { result ≡ kind_named name.now }
{
    KINDS
        .iter()
        .copied()
        .find(|kind| kind_name(*kind).as_bytes() == name)
}

// The object that a text names.
fn object(text: &[u8]) -> Option<ObjectId>
    ensures object { result ≡ object_of text.now }
{
    let (name, instance) = split_at(b':', text);
    let kind = kind_named(name)?;
    let instance = unsigned(instance, 4_194_303)? as u32;
    ObjectId::of_kind(kind, instance).ok()
}

/// The object that a text `KIND:INSTANCE` names, with an instance up to 4194303. The text is just how a report writes the
/// object.
pub fn read_object(text: &[u8]) -> Option<ObjectId>
    ensures object { result ≡ object_of text.now }
    ensures written { (object : ObjectIdData) → (result ≡ Some object) ↔ ((text.now ≡ object_text object) × IsNamedObject object) }
{
    object(text)
}
