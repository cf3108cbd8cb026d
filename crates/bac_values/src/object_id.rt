//! Object identifiers.

ghost use Rattle.std.specs.Prelude.{◌≡◌, ◌↔◌, OkIff};
ghost use Rattle.bac_values.specs.Identifier.{IsIdentifier, kind_of, number_of_kind};

use crate::ObjectKind;
use std::marker::Model;

/// An object identifier: the number of its type, and its instance. The order is by number, then by instance.
#[derive(Clone, Copy, Debug, PartialEq, Eq, PartialOrd, Ord)]
pub struct ObjectId {
    number: u16,
    instance: u32,
}

impl Model for ObjectId {
    ghost use Rattle.std.specs.Prelude.{◌≤◌};
    ghost use Rattle.bac_values.specs.Identifier.{IsIdentifier, ObjectIdData};

    ghost Value = { ObjectIdData };

    ghost view = { λ id. record { number = id.number; instance = id.instance } };

    ghost invariant = { λ id. IsIdentifier id.number id.instance };

    ghost inverse = { λ id. record { number = id.number; instance = id.instance } };
}

/// The number of the type is above 1023, or the instance is above 4194303.
#[derive(Clone, Copy, Debug, PartialEq, Eq)]
pub struct InstanceRange;

impl ObjectId {
    /// The identifier of a type's number and an instance.
    pub fn new(number: u16, instance: u32) -> Result<ObjectId, InstanceRange>
        ensures made { OkIff result (IsIdentifier number instance) (record { number = number; instance = instance }) }
    {
        if number > 1023 || instance > 4_194_303 {
            return Err(InstanceRange);
        }
        Ok(ObjectId { number, instance })
    }

    /// The identifier of an object of a kind.
    pub fn of_kind(kind: ObjectKind, instance: u32) -> Result<ObjectId, InstanceRange>
        ensures made { OkIff result (IsIdentifier (number_of_kind kind) instance) (record { number = number_of_kind kind; instance = instance }) }
    {
        ObjectId::new(kind.number(), instance)
    }

    /// The number of the type, at most 1023.
    pub fn number(&self) -> u16
        ensures number { result ≡ self.now.number }
        ensures range { IsIdentifier self.now.number self.now.instance }
    {
        self.number
    }

    /// The instance, at most 4194303.
    pub fn instance(&self) -> u32
        ensures instance { result ≡ self.now.instance }
        ensures range { IsIdentifier self.now.number self.now.instance }
    {
        self.instance
    }

    /// The kind of the type, if the server knows it.
    pub fn kind(&self) -> Option<ObjectKind>
        ensures kind { result ≡ kind_of self.now.number }
    {
        ObjectKind::of_number(self.number)
    }
}
