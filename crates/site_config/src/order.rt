//! Items in the order of their identifiers.

ghost use Rattle.std.specs.Prelude.{◌≡◌, [], fold, IfOk};
ghost use Rattle.site_config.specs.Sites.{put, in_order};

use crate::binding_item::BindingItem;
use crate::class::ClassItem;
use alarm_core::{EnrollmentSite, LogSite};
use bac_values::{Items, NoMemory, ObjectId};
use object_table::ObjectSite;
use std::alloc::Global;
use std::collections::BTreeMap;

/// What has an identifier.
pub trait Identified: Sized + Drop {
    ghost use Rattle.bac_values.specs.Identifier.{ObjectIdData};

    /// The identifier.
    ghost id_of: { Self → ObjectIdData };

    /// The identifier.
    fn object(&self) -> ObjectId
        ensures object { result ≡ id_of self.now };
}

impl Identified for ClassItem {
    ghost use Rattle.site_config.specs.Identifiers.{id_of_class};

    ghost id_of = { id_of_class };

    fn object(&self) -> ObjectId {
        self.object
    }
}

impl Identified for ObjectSite {
    ghost use Rattle.site_config.specs.Identifiers.{id_of_object};

    ghost id_of = { id_of_object };

    fn object(&self) -> ObjectId {
        self.object
    }
}

impl Identified for EnrollmentSite {
    ghost use Rattle.site_config.specs.Identifiers.{id_of_enrollment};

    ghost id_of = { id_of_enrollment };

    fn object(&self) -> ObjectId {
        self.object
    }
}

impl Identified for LogSite {
    ghost use Rattle.site_config.specs.Identifiers.{id_of_log};

    ghost id_of = { id_of_log };

    fn object(&self) -> ObjectId {
        self.object
    }
}

impl Identified for BindingItem {
    ghost use Rattle.site_config.specs.Identifiers.{id_of_binding};

    ghost id_of = { id_of_binding };

    fn object(&self) -> ObjectId {
        self.object
    }
}

/// The items by their identifiers.
fn by_identifier<T: Identified>(
    alloc: Global,
    items: Vec<T>,
) -> Result<BTreeMap<ObjectId, T>, NoMemory>
    ensures entries { IfOk result (λ map. map.entries ≡ fold (put T.id_of) [] items.items) }
{
    let mut map = BTreeMap::new(alloc);
    for item in items {
        let object = item.object();
        match map.insert(object, item) {
            Ok(_) => {}
            Err(_refused) => return Err(NoMemory),
        }
    }
    Ok(map)
}

/// The items in the ascending order of their identifiers.
pub fn in_order<T: Identified>(alloc: Global, items: Items<T>) -> Result<Items<T>, NoMemory>
    ensures order { IfOk result (λ ordered. ordered ≡ in_order T.id_of items) }
{
    let map = by_identifier(alloc, items.into_vec())?;
    match map.into_values().collect(alloc) {
        Ok(ordered) => Ok(Items::of(ordered)),
        Err(_refused) => Err(NoMemory),
    }
}
