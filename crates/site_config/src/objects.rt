//! The identifier of an object.

ghost use Rattle.std.specs.Prelude.{◌≡◌, ◌≤◌};
ghost use Rattle.site_config.specs.Devices.{object_with};

use bac_values::{ObjectId, ObjectKind};

/// The identifier of an object of a kind.
pub fn identifier(kind: ObjectKind, instance: u32) -> ObjectId
    requires { instance ≤ 4194303 }
    ensures object { result ≡ object_with kind instance }
{
    ObjectId::of_kind(kind, instance).unwrap()
}
