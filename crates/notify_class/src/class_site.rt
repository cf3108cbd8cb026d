//! A notification class as a site describes it.

ghost use Rattle.std.specs.Prelude.{◌≡◌, IfOk};

use crate::Class;
use bac_values::{Items, NoMemory, Text, push};
use std::alloc::Global;

/// A notification class of a site, and the name of its object.
#[derive(Debug, Drop)]
pub struct ClassSite {
    /// Its Object_Name.
    pub name: Text,
    /// The class.
    pub class: Class,
}

fn copy_of_class(alloc: Global, site: &ClassSite) -> Result<ClassSite, NoMemory>
    ensures same { IfOk result (λ copy. copy ≡ site.now) }
{
    let name = site.name.clone()?;
    let destinations = site.class.destinations.as_slice().to_vec(alloc)?;
    let class = Class {
        instance: site.class.instance,
        priority: site.class.priority,
        ack_required: site.class.ack_required,
        destinations: Items::of(destinations),
    };
    Ok(ClassSite { name, class })
}

/// The same classes once more.
pub fn copy_of_classes(alloc: Global, sites: &[ClassSite]) -> Result<Items<ClassSite>, NoMemory>
    ensures same { IfOk result (λ copy. copy ≡ sites.now) }
{
    let mut copy = Vec::new(alloc);
    for site in sites {
        push(&mut copy, copy_of_class(alloc, site)?)?;
    }
    Ok(Items::of(copy))
}
