//! The outbox of a snapshot is read.

ghost use Rattle.std.specs.Prelude.{◌≡◌, ◌↔◌, IfOk, IsTrue, Some, length, map};
ghost use Rattle.std.specs.List.{list_all};
ghost use Rattle.bac_values.specs.Orders.{IsAscending, is_among};
ghost use Rattle.notify_class.specs.Recipients.{DestinationData};
ghost use Rattle.outbox.specs.Outboxes.{AreParts, AreSettings, IsOutbox, notes_told, restored_posts};
ghost use Rattle.outbox.specs.declared.post.Post.{Post as Told};
ghost use Rattle.state_codec.specs.ReadingSteps.{Gives};
ghost use Rattle.state_codec.specs.SnapshotSteps.{are_posts_of, knows_class, knows_classes, may_have_posts, outbox_with, posts_at, site_outbox_at};

use crate::parts::take_u16;
use crate::reading::ReadFault;
use crate::reading_posts::take_list;
use alarm_core::{DeviceSite, Site};
use bac_values::{MOST_PEERS, NoMemory, Note, Peer, is_among, push};
use notify_class::{Class, Destination};
use outbox::{Outbox, Post, tests_posts};
use std::alloc::Global;

/// Takes posts behind how many they are, and their notifications, one post's after the other's.
#[tactic(auto, unfolding(crate::specs::SnapshotSteps::posts_at))]
fn take_posts(alloc: Global, bytes: &mut &[u8]) -> Result<(Vec<Post>, Vec<Note>), ReadFault>
    ensures exact { Gives (λ x. (restored_posts x.0.items x.1.items, bytes.new.now)) result (posts_at bytes.old.now) }
    ensures told { IfOk result (λ x. notes_told x.0.items ≡ length x.1.items) }
{
    let count = take_u16(bytes)?;
    let (posts, notes) = take_list(alloc, count, bytes)?;
    Ok((posts, notes))
}

/// Whether an outbox with a device's settings may be made of posts and notifications.
fn can_restore(device: &DeviceSite, posts: &[Post], notes: &[Note]) -> bool
    ensures exact { IsTrue result ↔ AreParts posts.now notes.now device.now.outbox device.now.apdu_timeout device.now.retries }
{
    Outbox::can_restore(
        posts,
        notes,
        device.outbox,
        u64::from(device.apdu_timeout),
        device.retries,
    )
}

/// Whether a site may have an outbox with these posts and notifications.
fn may_have_posts(site: &Site, posts: &[Post], notes: &[Note]) -> bool
    requires settings { AreSettings site.now.device.outbox site.now.device.apdu_timeout site.now.device.retries }
    requires told { notes_told posts.now ≡ length notes.now }
    ensures exact { result ≡ may_have_posts site.now (restored_posts posts.now notes.now) }
{
    tests_posts();
    let few = posts.len() <= MOST_PEERS;
    few && can_restore(&site.device, posts, notes)
}

/// The recipients of posts.
fn peers_of(alloc: Global, posts: &[Post]) -> Result<Vec<Peer>, NoMemory>
    ensures peers { IfOk result (λ peers. peers.items ≡ map (λ (post : Told). post.peer) posts.now) }
{
    let mut peers = Vec::new(alloc);
    for post in posts {
        push(&mut peers, post.peer)?;
    }
    Ok(peers)
}

/// Whether each of some recipients is known.
fn knows_all(known: &[Peer], destinations: &[Destination]) -> bool
    requires ascending { IsAscending known.now }
    ensures exact { result ≡ list_all (λ (it : DestinationData). is_among known.now it.peer) destinations.now }
{
    destinations.iter().all(|it| is_among(known, &it.peer))
}

/// Whether each recipient of a class is known.
#[tactic(auto, using(crate::proofs::PostsOf::all_recipients))]
fn knows_class(known: &[Peer], class: &Class) -> bool
    requires ascending { IsAscending known.now }
    ensures exact { result ≡ knows_class known.now class.now }
{
    knows_all(known, class.destinations.as_slice())
}

/// Whether each recipient of some classes is known.
fn knows_classes(known: &[Peer], classes: &[Class]) -> bool
    requires ascending { IsAscending known.now }
    ensures exact { result ≡ knows_classes known.now classes.now }
{
    classes.iter().all(|class| knows_class(known, class))
}

/// Whether a site may have an outbox with these posts and notifications, and such classes.
fn are_posts_of(
    alloc: Global,
    site: &Site,
    classes: &[Class],
    posts: &[Post],
    notes: &[Note],
) -> Result<bool, NoMemory>
    requires settings { AreSettings site.now.device.outbox site.now.device.apdu_timeout site.now.device.retries }
    requires told { notes_told posts.now ≡ length notes.now }
    ensures exact { IfOk result (λ are. are ≡ are_posts_of site.now classes.now (restored_posts posts.now notes.now)) }
{
    if !may_have_posts(site, posts, notes) {
        return Ok(false);
    }
    let known = peers_of(alloc, posts)?;
    Ok(knows_classes(&known, classes))
}

/// An outbox of a site with posts and notifications.
fn restored(
    alloc: Global,
    site: &Site,
    posts: Vec<Post>,
    notes: Vec<Note>,
) -> Result<Outbox, ReadFault>
    requires counts { notes_told posts.items ≡ length notes.items }
    requires outbox { IsOutbox (outbox_with site.now (restored_posts posts.items notes.items)) }
    ensures exact { Gives (λ x. x) result (Some (outbox_with site.now (restored_posts posts.items notes.items))) }
{
    let device = &site.device;
    let timeout = u64::from(device.apdu_timeout);
    match Outbox::restore(alloc, posts, notes, device.outbox, timeout, device.retries) {
        Ok(outbox) => Ok(outbox.flushing(device.flush_silent)),
        Err(_) => Err(ReadFault::NoMemory),
    }
}

/// Takes the posts of a site with such classes, of which its outbox is made.
#[tactic(auto, unfolding(crate::specs::SnapshotSteps::site_outbox_at, crate::specs::SnapshotSteps::outbox_at))]
pub(crate) fn take_outbox(
    alloc: Global,
    site: &Site,
    classes: &[Class],
    bytes: &mut &[u8],
) -> Result<Outbox, ReadFault>
    requires settings { AreSettings site.now.device.outbox site.now.device.apdu_timeout site.now.device.retries }
    ensures exact { Gives (λ x. (x, bytes.new.now)) result (site_outbox_at site.now classes.now bytes.old.now) }
{
    tests_posts();
    let (posts, notes) = take_posts(alloc, bytes)?;
    if !are_posts_of(alloc, site, classes, &posts, &notes)? {
        return Err(ReadFault::NothingThere);
    }
    restored(alloc, site, posts, notes)
}
