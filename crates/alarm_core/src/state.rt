//! The core itself: what it keeps, how it starts, and what may be asked of it.

ghost use Rattle.std.specs.Prelude.{◌≡◌, ◌↔◌, ◌<◌, ◌^◌, length, [], All, IfOk, IsTrue, max};
ghost use Rattle.std.specs.Option.{option_copied};
ghost use Rattle.bac_values.specs.Moments.{IsMoment};
ghost use Rattle.bac_values.specs.Orders.{IsAscending, peers_with};
ghost use Rattle.outbox.specs.Outboxes.{has_in_flight, is_idle, peers_of as peers_of_posts, pumped, sends_of};
ghost use Rattle.enrollment.specs.References.{enrollments_in};
ghost use Rattle.event_machine.specs.Finding.{as_finding};
ghost use Rattle.alarm_core.specs.Allowed.{Represents};
ghost use Rattle.alarm_core.specs.Classes.{peers_in};
ghost use Rattle.alarm_core.specs.CoreSteps.{empty_outbox, first_state, states_of};
ghost use Rattle.alarm_core.specs.Evaluations.{site_zone};
ghost use Rattle.alarm_core.specs.Found.{alarm_in, device_object, found_in, has_object, is_other_object};
ghost use Rattle.alarm_core.specs.ListLimits.{KeepLists};
ghost use Rattle.alarm_core.specs.Logs.{log_in};
ghost use Rattle.alarm_core.specs.Sites.{IsSite};

use crate::Site;
use crate::class_peers::peers_in;
use crate::classes::classes_of;
use crate::detection::{DetectedObject, detected_object};
use crate::detections::Detections;
use crate::identifiers::{device_object, listed_identifiers};
use crate::initial_state::first_detections;
use crate::logs::{SiteLog, first_logs, kept_log};
use crate::members::members_of;
use crate::site::{copy_of_site, is_other_object};
use crate::taking::raised_moment;
use bac_values::{NoMemory, ObjectId, Peer, PeerList};
use civil_stamp::{LocalMoment, Zone};
use enrollment::Enrollments;
use event_log::EventLog;
use event_machine::{Alarm, Found};
use notify_class::Class;
use object_table::Table;
use outbox::Outbox;
use std::alloc::Global;
use std::marker::Model;

/// The core of a site: the properties and the alarms of its objects, its notification classes, and what waits for each
/// recipient, as its events have left them.
#[derive(Drop)]
pub struct Core {
    pub(crate) site: Site,
    pub(crate) identifiers: Vec<ObjectId>,
    pub(crate) zone: Zone,
    pub(crate) events: u64,
    pub(crate) last_moment: u64,
    pub(crate) detections: Detections,
    pub(crate) classes: Vec<Class>,
    pub(crate) members: Vec<u32>,
    pub(crate) peers: PeerList,
    pub(crate) outbox: Outbox,
    pub(crate) logs: Vec<SiteLog>,
}

impl Model for Core {
    ghost use Rattle.std.specs.Prelude.{◌≡◌, All, map};
    ghost use Rattle.bac_values.specs.Moments.{IsMoment};
    ghost use Rattle.outbox.specs.Outboxes.{peers_of};
    ghost use Rattle.property_values.specs.DeviceProperties.{object_list};
    ghost use Rattle.alarm_core.specs.Devices.{identifiers_of};
    ghost use Rattle.alarm_core.specs.Room.{members_of_class};
    ghost use Rattle.alarm_core.specs.Known.{KnowsClass};
    ghost use Rattle.alarm_core.specs.Evaluations.{site_zone};
    ghost use Rattle.alarm_core.specs.ListLimits.{KeepLists};
    ghost use Rattle.alarm_core.specs.Logs.{HasNoLog};
    ghost use Rattle.alarm_core.specs.Sites.{IsSite};
    ghost use Rattle.alarm_core.specs.State.{CoreState};

    ghost Value = { CoreState };

    ghost view = { λ core. record {
      site = core.site;
      events = core.events;
      last_moment = core.last_moment;
      values = core.detections.values;
      alarms = core.detections.alarms;
      classes = core.classes.items;
      outbox = core.outbox;
      logs = core.logs.items;
    } };

    ghost invariant = { λ core. record {
      site : IsSite core.site;
      zone : core.zone ≡ site_zone core.site;
      moment : IsMoment core.last_moment;
      limit : core.outbox.limit ≡ core.site.device.outbox;
      peers : core.peers ≡ peers_of core.outbox.posts;
      known : All (KnowsClass core.peers) core.classes.items;
      lists : KeepLists core.site core.classes.items core.peers;
      members : core.members.items ≡ map (members_of_class core.site) core.classes.items;
      identifiers : core.identifiers.items ≡ object_list (identifiers_of core.site);
      apart : HasNoLog core.detections.values;
    } };
}

/// The zone of a site's local time.
pub fn site_zone(site: &Site) -> Zone
    requires site { IsSite site.now }
    ensures zone { result ≡ site_zone site.now }
{
    match &site.device.zone_rule {
        Some(rule) => Zone::rule(rule.as_str()).unwrap(),
        None => Zone::fixed(site.device.zone_minutes).unwrap(),
    }
}

// Nothing waits for the peers of some classes.
fn first_outbox(alloc: Global, site: &Site, peers: &[Peer]) -> Result<Outbox, NoMemory>
    requires site { IsSite site.now }
    requires ascending { IsAscending peers.now }
    ensures outbox { IfOk result (λ outbox. outbox ≡ empty_outbox site.now peers.now) }
{
    let device = &site.device;
    let peers = peers.to_vec(alloc)?;
    let outbox = Outbox::new(
        alloc,
        peers,
        device.outbox,
        u64::from(device.apdu_timeout),
        device.retries,
    )?;
    Ok(outbox.flushing(device.flush_silent))
}

// The peers of some classes, for whom nothing waits.
fn first_queues(
    alloc: Global,
    site: &Site,
    classes: &[Class],
) -> Result<(PeerList, Outbox), NoMemory>
    requires site { IsSite site.now }
    ensures peers { IfOk result (λ first. first.0 ≡ peers_with (peers_in classes.now) []) }
    ensures outbox { IfOk result (λ first. first.1 ≡ empty_outbox site.now first.0) }
{
    let listed = peers_in(alloc, classes)?;
    let peers = PeerList::new(alloc).with(alloc, &listed)?;
    let outbox = first_outbox(alloc, site, peers.as_slice())?;
    Ok((peers, outbox))
}

impl Core {
    /// The core of a site, with no event yet.
    pub fn start(alloc: Global, site: &Site) -> Result<Core, NoMemory>
        requires site { IsSite site.now }
        ensures starts { IfOk result (λ core. core ≡ first_state site.now) }
        ensures represents { IfOk result (λ core. Represents core []) }
    {
        let zone = site_zone(site);
        let start = site.device.start;
        let at = LocalMoment::new(start, &zone);
        let identifiers = listed_identifiers(alloc, site)?;
        let classes = classes_of(alloc, site.classes.as_slice())?;
        let members = members_of(alloc, site, &classes)?;
        let queues = first_queues(alloc, site, &classes)?;
        let logs = first_logs(alloc, site)?;
        let kept = copy_of_site(alloc, site)?;
        let detections = first_detections(alloc, site, &at)?;
        let (peers, outbox) = queues;
        Ok(Core {
            site: kept,
            identifiers,
            zone,
            events: 0,
            last_moment: start,
            detections,
            classes,
            members,
            peers,
            outbox,
            logs,
        })
    }

    /// The site.
    pub fn site(&self) -> &Site
        ensures site { result.now ≡ self.now.site }
        ensures keeps { IsSite self.now.site }
    {
        &self.site
    }

    /// The identifier of the site's device.
    pub fn device(&self) -> ObjectId
        ensures device { result ≡ device_object self.now.site }
    {
        device_object(&self.site)
    }

    /// The zone of its local time.
    pub fn zone(&self) -> &Zone
        ensures zone { result.now ≡ site_zone self.now.site }
    {
        &self.zone
    }

    /// The alarm of an object; one whose event detection isn't enabled has that of an object that never moved.
    pub fn alarm_of(&self, object: ObjectId) -> Alarm
        ensures alarm { result ≡ alarm_in self.now object }
    {
        match detected_object(self.detections.alarms(), object) {
            Some(detected) => *detected.alarm(),
            None => Alarm::new(),
        }
    }

    /// The objects whose event detection is enabled, with their alarms.
    pub fn alarms(&self) -> &[DetectedObject]
        ensures alarms { result.now ≡ self.now.alarms }
        ensures few { length result.now < 2 ^ 32 }
    {
        self.detections.alarms()
    }

    /// How many events there were.
    pub fn events(&self) -> u64
        ensures events { result ≡ self.now.events }
    {
        self.events
    }

    /// The moment of the last of them, or the site's start.
    pub fn last_moment(&self) -> u64
        ensures last_moment { result ≡ self.now.last_moment }
        ensures range { IsMoment result }
    {
        self.last_moment
    }

    /// The value objects, ascending, as the writes have left them.
    pub fn table(&self) -> &Table
        ensures table { result.now ≡ self.now.values.rows }
    {
        self.detections.objects().table()
    }

    /// The event enrollments, ascending, as the writes have left them, which know who refers to an object.
    pub fn enrollments(&self) -> &Enrollments
        ensures enrollments { result.now ≡ enrollments_in self.now.values }
    {
        self.detections.objects().enrollments()
    }

    /// The notification classes, ascending, with their lists as the edits have left them, which keep to the limits.
    pub fn classes(&self) -> &[Class]
        ensures classes { result.now ≡ self.now.classes }
        ensures keep { KeepLists self.now.site self.now.classes (peers_of_posts self.now.outbox.posts) }
    {
        self.classes.as_slice()
    }

    /// The peers that it knows, ascending: those of the site's lists, and those of every edit.
    pub fn known_peers(&self) -> &[Peer]
        ensures known { result.now ≡ peers_of_posts self.now.outbox.posts }
        ensures ascending { IsAscending result.now }
    {
        self.peers.as_slice()
    }

    /// What waits for each of them.
    pub fn outbox(&self) -> &Outbox
        ensures outbox { result.now ≡ self.now.outbox }
    {
        &self.outbox
    }

    /// The event logs, in the order of the site.
    pub fn logs(&self) -> &[SiteLog]
        ensures logs { result.now ≡ self.now.logs }
    {
        self.logs.as_slice()
    }

    /// The event log with an identifier, if there is one.
    pub fn log(&self, object: ObjectId) -> Option<&EventLog>
        ensures log { option_copied result ≡ log_in object self.now.logs }
    {
        match kept_log(&self.logs, object) {
            Some(kept) => Some(kept.log()),
            None => None,
        }
    }

    /// Whether a pump at a moment, raised to the last one, would send nothing and finish nothing.
    pub fn idle_pump(&self, moment: u64) -> bool
        requires moment { IsMoment moment }
        ensures idle { result ≡ is_idle (max moment self.now.last_moment) self.now.outbox }
        ensures nothing { IsTrue result ↔ ((sends_of (max moment self.now.last_moment) self.now.outbox ≡ [])
            × (pumped (max moment self.now.last_moment) self.now.outbox ≡ self.now.outbox)) }
    {
        self.outbox.idle(raised_moment(moment, self.last_moment))
    }

    /// Whether a notification to this peer with this invoke ID is in flight.
    pub fn has_in_flight(&self, peer: &Peer, invoke: u8) -> bool
        ensures in_flight { result ≡ has_in_flight peer.now invoke self.now.outbox }
    {
        self.outbox.has_in_flight(peer, invoke)
    }

    /// What there is under an identifier.
    pub fn found(&self, object: ObjectId) -> Found<'_>
        ensures found { as_finding result ≡ found_in self.now object }
    {
        if let Some(detected) = detected_object(self.detections.alarms(), object) {
            return Found::Has(detected.alarm());
        }
        if self.has_object(object) {
            Found::NoAlarm
        } else {
            Found::NoObject
        }
    }

    /// Whether the site has the object, of whatever type.
    pub fn has_object(&self, object: ObjectId) -> bool
        ensures there { result ≡ has_object self.now object }
    {
        self.detections.objects().table().row(object).is_some()
            || is_other_object(&self.site, object)
    }

    /// Whether the site has the object beside its value objects: as its device, a class, an enrollment or a log.
    pub fn has_other_object(&self, object: ObjectId) -> bool
        ensures other { result ≡ is_other_object self.now.site object }
    {
        is_other_object(&self.site, object)
    }
}
