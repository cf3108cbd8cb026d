//! How many objects have each class, and whether the outbox has room for the notifications of all.

ghost use Rattle.std.specs.Prelude.{◌≡◌, ◌↔◌, ◌+◌, ◌-◌, ◌^◌, IfOk, IsTrue, fold, map, min};
ghost use Rattle.notify_class.specs.declared.class.Class.{Class as Listed};
ghost use Rattle.alarm_core.specs.Classes.{is_member};
ghost use Rattle.alarm_core.specs.Room.{LeaveRoom, members_at, members_of_class, share_at};
ghost use Rattle.alarm_core.specs.Sites.{IsSite};

use crate::Site;
use bac_values::{NoMemory, push};
use notify_class::Class;
use std::alloc::Global;

// Whether a class that an object may have is the one with an instance.
fn is_member(class: Option<u32>, instance: u32) -> bool
    ensures member { result ≡ is_member class instance }
{
    class == Some(instance)
}

// How many objects of a site have a class.
fn members_at(site: &Site, class: u32) -> u64
    ensures members { result ≡ members_at site.now class }
{
    let objects = site
        .objects
        .as_slice()
        .iter()
        .filter(|object| is_member(object.class, class))
        .count();
    let enrollments = site
        .enrollments
        .as_slice()
        .iter()
        .filter(|enrollment| enrollment.class == class)
        .count();
    objects as u64 + enrollments as u64
}

/// How many objects of a site have a class, which are no more than a site may have.
pub(crate) fn few_members(site: &Site, class: u32) -> u32
    requires site { IsSite site.now }
    ensures members { result ≡ members_at site.now class }
{
    members_at(site, class) as u32
}

/// How many objects of a site have each of some classes, in their order.
pub(crate) fn members_of(
    alloc: Global,
    site: &Site,
    classes: &[Class],
) -> Result<Vec<u32>, NoMemory>
    requires site { IsSite site.now }
    ensures members { IfOk result (λ members. members.items ≡ map (members_of_class site.now) classes.now) }
{
    let mut members = Vec::new(alloc);
    for class in classes {
        push(&mut members, few_members(site, class.instance))?;
    }
    Ok(members)
}

// How many notifications one transition of each object of a class gives at most, as far as 64 bits go.
fn share_at(site: &Site, class: &Class) -> u64
    ensures share { result ≡ min (share_at site.now class.now) (2 ^ 64 - 1) }
{
    let recipients = class.destinations.as_slice().len();
    members_at(site, class.instance).saturating_mul(recipients as u64)
}

/// One more share, as far as 64 bits go.
pub(crate) fn added(sum: u64, share: u64) -> u64
    ensures sum { result ≡ min (sum + share) (2 ^ 64 - 1) }
{
    sum.saturating_add(share)
}

// What classes need of the outbox, as far as 64 bits go.
fn shares_at(site: &Site, classes: &[Class]) -> u64
    ensures shares { result ≡ fold (λ sum share. min (sum + share) (2 ^ 64 - 1)) 0 (map (λ (class : Listed). min (share_at site.now class) (2 ^ 64 - 1)) classes.now) }
{
    classes
        .iter()
        .map(|class| share_at(site, class))
        .fold(0, added)
}

/// Whether classes leave room in the outbox of their site for the notifications of one transition of every object.
pub fn leave_room(site: &Site, classes: &[Class]) -> bool
    ensures room { IsTrue result ↔ LeaveRoom site.now classes.now }
{
    shares_at(site, classes) <= u64::from(site.device.outbox)
}
