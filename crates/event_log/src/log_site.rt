//! A log as a site describes it.

ghost use Rattle.std.specs.Prelude.{◌≡◌, IfOk};

use bac_values::{Items, NoMemory, ObjectId, Text, push};
use std::alloc::Global;

/// An event log of a site (ANSI/ASHRAE 135-2020, 12.27).
#[derive(Debug, Drop)]
pub struct LogSite {
    /// Its identifier.
    pub object: ObjectId,
    /// Its Object_Name.
    pub name: Text,
    /// How many records it holds (Buffer_Size), from 1 to 16,384.
    pub size: u32,
    /// Whether it takes no record where it is full (Stop_When_Full).
    pub stop_when_full: bool,
    /// Whether it takes records at the start (Enable).
    pub enable: bool,
    /// The instances of the notification classes whose notifications it records.
    pub classes: Items<u32>,
}

/// The same log once more.
pub fn copy_of_log(alloc: Global, site: &LogSite) -> Result<LogSite, NoMemory>
    ensures same { IfOk result (λ copy. copy ≡ site.now) }
{
    let name = site.name.clone()?;
    let classes = site.classes.as_slice().to_vec(alloc)?;
    Ok(LogSite {
        object: site.object,
        name,
        size: site.size,
        stop_when_full: site.stop_when_full,
        enable: site.enable,
        classes: Items::of(classes),
    })
}

/// The same logs once more.
pub fn copy_of_logs(alloc: Global, sites: &[LogSite]) -> Result<Items<LogSite>, NoMemory>
    ensures same { IfOk result (λ copy. copy ≡ sites.now) }
{
    let mut copy = Vec::new(alloc);
    for site in sites {
        push(&mut copy, copy_of_log(alloc, site)?)?;
    }
    Ok(Items::of(copy))
}
