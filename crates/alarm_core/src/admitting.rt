//! Which events may come next, and what the members of other classes leave of the outbox.

ghost use Rattle.std.specs.Prelude.{◌≡◌, ◌==◌, ◌↔◌, ◌+◌, ◌^◌, ◌-◌, ◌≤◌, IsSome, IsTrue, Ok, min, not, map, filter, fold};
ghost use Rattle.bac_values.specs.Limits.{most_outbox};
ghost use Rattle.bac_values.specs.Moments.{IsMoment};
ghost use Rattle.notify_class.specs.Edits.{edit_verdict};
ghost use Rattle.notify_class.specs.declared.class.Class.{Class as Listed};
ghost use Rattle.outbox.specs.Outboxes.{peers_of as peers_of_posts};
ghost use Rattle.alarm_core.specs.Allowed.{IsAllowed, IsAnswer, members_of, room_beside, share_of};
ghost use Rattle.alarm_core.specs.Classes.{class_in};
ghost use Rattle.alarm_core.specs.Logs.{IsTakenByLog};

use crate::class_search::place_of_class;
use crate::logs::{SiteLog, kept_log};
use crate::members::{added, few_members};
use crate::{Act, Core, Event};
use bac_values::{FIRST_MOMENT, LAST_MOMENT, PduType};
use event_machine::may_acknowledge;
use notify_class::{Class, Destination, check_edit};
use object_table::Change;
use property_values::log_takes;

fn is_moment(moment: u64) -> bool
    ensures moment { IsTrue result ↔ IsMoment moment }
{
    FIRST_MOMENT <= moment && moment <= LAST_MOMENT
}

// Whether a kind of PDU answers a confirmed request.
fn is_answer(kind: u8) -> bool
    ensures answer { IsTrue result ↔ IsAnswer kind }
{
    kind == PduType::SIMPLE_ACK.0
        || kind == PduType::ERROR.0
        || kind == PduType::REJECT.0
        || kind == PduType::ABORT.0
}

// Whether there is the log of a change, and it takes it.
fn is_taken_by_log(logs: &[SiteLog], change: &Change) -> bool
    ensures taken { IsTrue result ↔ IsTakenByLog change.now logs.now }
{
    kept_log(logs, change.object).is_some() && log_takes(&change.what)
}

impl Core {
    /// How many objects have a class: those of a class that is there were counted at the start.
    pub(crate) fn members(&self, class: u32) -> u32
        ensures members { result ≡ members_of self.now class }
    {
        match place_of_class(self.classes(), class) {
            Ok(place) => self.members[place],
            Err(_place) => few_members(&self.site, class),
        }
    }

    // How many notifications one transition of each object of a class gives at most, as far as 64 bits go.
    fn share(&self, class: &Class) -> u64
        ensures share { result ≡ min (share_of self.now class.now) (2 ^ 64 - 1) }
    {
        let recipients = class.destinations.as_slice().len();
        u64::from(self.members(class.instance)).saturating_mul(recipients as u64)
    }

    // What the other classes need of the outbox, as far as 64 bits go.
    fn shares_beside(&self, class: u32) -> u64
        ensures shares { result ≡ fold (λ sum share. min (sum + share) (2 ^ 64 - 1)) 0
            (map (λ (other : Listed). min (share_of self.now other) (2 ^ 64 - 1)) (filter (λ (other : Listed). not (other.instance == class)) self.now.classes)) }
    {
        self.classes()
            .iter()
            .filter(|other| other.instance != class)
            .map(|other| self.share(other))
            .fold(0, added)
    }

    /// What the other classes leave of the outbox.
    pub(crate) fn room_beside(&self, class: u32) -> u32
        ensures room { result ≡ room_beside self.now class }
        ensures within { result ≤ most_outbox }
    {
        let room = u64::from(self.site().device.outbox);
        room.saturating_sub(self.shares_beside(class)) as u32
    }

    // Whether an edit of a class keeps to the limits.
    fn fits(&self, class: u32, destinations: &[Destination]) -> bool
        ensures fits { IsTrue result ↔ (edit_verdict (peers_of_posts self.now.outbox.posts) destinations.now (members_of self.now class) (room_beside self.now class) ≡ Ok tt) }
    {
        let (members, room) = (self.members(class), self.room_beside(class));
        check_edit(self.known_peers(), destinations, members, room).is_ok()
    }

    fn has_class(&self, class: u32) -> bool
        ensures there { IsTrue result ↔ IsSome (class_in class self.now.classes) }
    {
        self.class(class).is_some()
    }

    // Whether the act may come next.
    fn allows(&self, act: &Act) -> bool
        ensures allowed { IsTrue result ↔ IsAllowed self.now act.now }
    {
        match act {
            Act::Tick | Act::Pump => true,
            Act::Write { change } => {
                self.detections.objects().takes(change) || is_taken_by_log(&self.logs, change)
            }
            Act::Ack {
                object,
                transition,
                state,
            } => may_acknowledge(self.found(*object), *transition, *state),
            Act::Answer { peer, invoke, kind } => {
                is_answer(*kind) && self.has_in_flight(peer, *invoke)
            }
            Act::Edit {
                class,
                destinations,
            } => self.has_class(*class) && self.fits(*class, destinations.as_slice()),
        }
    }

    /// Whether an event may come next, apart from the limit on notifications that wait, which `step` tests: its moment is in
    /// range and not before the last one, and its act is allowed. No memory is taken.
    pub fn admits(&self, event: &Event) -> bool
        ensures admits { IsTrue result ↔ ((self.now.last_moment ≤ event.now.moment) × IsMoment event.now.moment × IsAllowed self.now event.now.act) }
    {
        self.last_moment() <= event.moment && is_moment(event.moment) && self.allows(&event.act)
    }
}
