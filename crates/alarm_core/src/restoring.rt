//! A core is made of parts that were told.

ghost use Rattle.std.specs.Prelude.{◌≡◌, ◌≤◌, ◌++◌, ◌∷◌, [], All, IfOk, List, OnOk, filter, flat_map, if◌then◌else◌, length, map, zip};
ghost use Rattle.bac_values.specs.Limits.{most_peers};
ghost use Rattle.bac_values.specs.Orders.{IsAscending};
ghost use Rattle.event_log.specs.declared.log_site.LogSite.{LogSite as Listed};
ghost use Rattle.outbox.specs.Outboxes.{IsOutbox, peers_of};
ghost use Rattle.alarm_core.specs.Parts.{ArePartsOf, detected_by, kept_by, state_of_parts};
ghost use Rattle.alarm_core.specs.Sites.{IsLogSite, IsSite};
ghost use Rattle.alarm_core.specs.Subjects.{alarm_subjects, has_class};

use crate::detection::DetectedObject;
use crate::detections::Detections;
use crate::identifiers::listed_identifiers;
use crate::initial_state::ack_required_of;
use crate::logs::SiteLog;
use crate::members::members_of;
use crate::site::copy_of_site;
use crate::state::site_zone;
use crate::{Core, LogSite, Parts, Site};
use bac_values::{NoMemory, Peer, PeerList, push};
use civil_stamp::LocalMoment;
use enrollment::{Objects, Subject, subjects_of};
use event_log::EventLog;
use event_machine::Alarm;
use outbox::Outbox;
use std::alloc::Global;
use std::vec::IntoIter;

fn has_class(subject: &Subject) -> bool
    ensures same { result ≡ has_class subject.now }
{
    subject.class.is_some()
}

// Those that have alarms.
fn with_class(alloc: Global, subjects: &[Subject]) -> Result<Vec<Subject>, NoMemory>
    ensures those { IfOk result (λ those. those.items ≡ filter has_class subjects.now) }
{
    let mut those = Vec::new(alloc);
    for subject in subjects {
        if has_class(subject) {
            push(&mut those, *subject)?;
        }
    }
    Ok(those)
}

// The objects of a site that have alarms.
fn alarm_subjects(alloc: Global, site: &Site) -> Result<Vec<Subject>, NoMemory>
    requires site { IsSite site.now }
    ensures subjects { IfOk result (λ subjects. subjects.items ≡ alarm_subjects site.now) }
{
    let subjects = subjects_of(alloc, site.objects.as_slice(), site.enrollments.as_slice())?;
    with_class(alloc, &subjects)
}

// One more with its alarm, if its event detection is enabled.
fn add_detected(
    site: &Site,
    subject: &Subject,
    alarm: Alarm,
    detected: &mut Vec<DetectedObject>,
) -> Result<(), NoMemory>
    ensures added { OnOk result (detected.new.items ≡ detected.old.items ++ detected_by site.now (subject.now, alarm)) }
{
    if !subject.is_detecting() {
        return Ok(());
    }
    let ack_required = ack_required_of(site, subject);
    push(
        detected,
        DetectedObject::restored(subject, ack_required, alarm),
    )
}

// Those whose event detection is enabled, each with its alarm.
fn detected_of(
    alloc: Global,
    site: &Site,
    subjects: &[Subject],
    alarms: &[Alarm],
) -> Result<Vec<DetectedObject>, NoMemory>
    ensures detected { IfOk result (λ detected. detected.items ≡ flat_map (detected_by site.now) (zip subjects.now alarms.now)) }
{
    let mut detected = Vec::new(alloc);
    for (subject, alarm) in subjects.iter().zip(alarms) {
        add_detected(site, subject, *alarm, &mut detected)?;
    }
    Ok(detected)
}

// The objects whose event detection is enabled, with the alarms that parts tell.
fn restored_alarms(
    alloc: Global,
    site: &Site,
    alarms: &[Alarm],
) -> Result<Vec<DetectedObject>, NoMemory>
    requires site { IsSite site.now }
    ensures alarms { IfOk result (λ detected. detected.items ≡ flat_map (detected_by site.now) (zip (alarm_subjects site.now) alarms.now)) }
{
    let subjects = alarm_subjects(alloc, site)?;
    detected_of(alloc, site, &subjects, alarms)
}

// One more log with the next that was told, if there is one: what is done and what is left, with the sites behind, is what
// it was.
fn add_log(
    alloc: Global,
    site: &LogSite,
    told: &mut IntoIter<EventLog>,
    logs: &mut Vec<SiteLog>,
) -> Result<(), NoMemory>
    requires listed { IsLogSite site.now }
    ensures added { (behind : List Listed) →
        OnOk result (logs.new.items ++ map kept_by (zip behind told.new.rest.items) ≡ logs.old.items ++ map kept_by (zip (site.now ∷ behind) told.old.rest.items)) }
{
    match told.next() {
        Some(log) => push(logs, SiteLog::restored(alloc, site, log)?),
        None => Ok(()),
    }
}

// The logs of a site with what parts tell of each.
fn restored_logs(alloc: Global, site: &Site, logs: Vec<EventLog>) -> Result<Vec<SiteLog>, NoMemory>
    requires listed { All IsLogSite site.now.logs }
    ensures logs { IfOk result (λ kept. kept.items ≡ map kept_by (zip site.now.logs logs.items)) }
{
    let mut told = logs.into_iter();
    let mut logs = Vec::new(alloc);
    for listed in site.logs.as_slice() {
        add_log(alloc, listed, &mut told, &mut logs)?;
    }
    Ok(logs)
}

// The peers for whom there are posts, in their order.
fn peers_of_posts(alloc: Global, outbox: &Outbox) -> Result<Vec<Peer>, NoMemory>
    requires few { length outbox.now.posts ≤ most_peers }
    ensures peers { IfOk result (λ peers. peers.items ≡ peers_of outbox.now.posts) }
{
    let mut peers = Vec::new(alloc);
    let mut place = 0;
    while let Some(post) = outbox.post(place) {
        push(&mut peers, post.peer)?;
        place += 1;
    }
    Ok(peers)
}

// A list of peers that ascend.
fn peer_list(alloc: Global, peers: &[Peer]) -> Result<PeerList, NoMemory>
    requires ascending { IsAscending peers.now }
    ensures same { IfOk result (λ list. list ≡ peers.now) }
{
    PeerList::new(alloc).with(alloc, peers)
}

// The peers that an outbox knows.
fn known_peers(alloc: Global, outbox: &Outbox) -> Result<PeerList, NoMemory>
    requires few { length outbox.now.posts ≤ most_peers }
    requires outbox { IsOutbox outbox.now }
    ensures peers { IfOk result (λ peers. peers ≡ peers_of outbox.now.posts) }
{
    let peers = peers_of_posts(alloc, outbox)?;
    peer_list(alloc, &peers)
}

impl Core {
    /// The core that parts make at a site: it shows exactly what they tell, and mends nothing.
    pub fn restore(alloc: Global, site: &Site, parts: Parts) -> Result<Core, NoMemory>
        requires site { IsSite site.now }
        requires parts { ArePartsOf site.now parts }
        ensures restored { IfOk result (λ core. core ≡ state_of_parts site.now parts) }
    {
        let Parts {
            events,
            last_moment,
            table,
            enrollments,
            alarms,
            classes,
            logs,
            outbox,
        } = parts;
        let zone = site_zone(site);
        let at = LocalMoment::new(last_moment, &zone);
        let objects = Objects::new(table, enrollments);
        let alarms = restored_alarms(alloc, site, alarms.as_slice())?;
        let detections = Detections::new(alloc, objects, alarms, &at)?;
        let identifiers = listed_identifiers(alloc, site)?;
        let classes = classes.into_vec();
        let members = members_of(alloc, site, &classes)?;
        let peers = known_peers(alloc, &outbox)?;
        let logs = restored_logs(alloc, site, logs.into_vec())?;
        let site = copy_of_site(alloc, site)?;
        Ok(Core {
            site,
            identifiers,
            zone,
            events,
            last_moment,
            detections,
            classes,
            members,
            peers,
            outbox,
            logs,
        })
    }
}
