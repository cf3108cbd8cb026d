//! The classes of a site as edits leave them.

ghost use Rattle.std.specs.Prelude.{◌≡◌, IfOk, map};
ghost use Rattle.notify_class.specs.declared.class_site.ClassSite.{ClassSite as Named};
ghost use Rattle.alarm_core.specs.Classes.{edited};
ghost use Rattle.alarm_core.specs.ListLimits.{InstancesAscend};

use crate::ClassSite;
use crate::class_search::place_of_class;
use bac_values::{Items, NoMemory, push};
use notify_class::{Class, Destination};
use std::alloc::Global;

/// The same list once more.
pub(crate) fn copy_of_list(
    alloc: Global,
    destinations: &[Destination],
) -> Result<Items<Destination>, NoMemory>
    ensures same { IfOk result (λ copy. copy ≡ destinations.now) }
{
    Ok(Items::of(destinations.to_vec(alloc)?))
}

// A class with this list.
fn class_with(alloc: Global, class: &Class, destinations: &[Destination]) -> Result<Class, NoMemory>
    ensures class { IfOk result (λ made. made ≡ record class.now { destinations = destinations.now }) }
{
    let destinations = copy_of_list(alloc, destinations)?;
    Ok(Class {
        instance: class.instance,
        priority: class.priority,
        ack_required: class.ack_required,
        destinations,
    })
}

/// The classes of a site.
pub(crate) fn classes_of(alloc: Global, sites: &[ClassSite]) -> Result<Vec<Class>, NoMemory>
    ensures classes { IfOk result (λ classes. classes.items ≡ map (λ (listed : Named). listed.class) sites.now) }
{
    let mut classes = Vec::new(alloc);
    for listed in sites {
        let class = class_with(alloc, &listed.class, listed.class.destinations.as_slice())?;
        push(&mut classes, class)?;
    }
    Ok(classes)
}

/// Gives the class with this instance another list, if it is among classes that ascend. No memory is taken.
pub(crate) fn put_list(classes: &mut Vec<Class>, instance: u32, destinations: Items<Destination>)
    requires ascending { InstancesAscend classes.old.items }
    ensures classes { classes.new.items ≡ map (edited instance destinations) classes.old.items }
{
    if let Ok(place) = place_of_class(classes, instance) {
        classes[place].destinations = destinations;
    }
}
