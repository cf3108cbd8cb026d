//! What GetEventInformation is told of active objects.

ghost use Rattle.std.specs.Prelude.{◌≡◌, ◌≤◌, IfOk, drop, filter, length};
ghost use Rattle.std.specs.Option.{option_and_then, option_copied, option_map};
ghost use Rattle.alarm_core.specs.DueSteps.{AscendByObject};
ghost use Rattle.alarm_core.specs.ListLimits.{InstancesAscend};
ghost use Rattle.alarm_core.specs.Notes.{class_for};
ghost use Rattle.alarm_core.specs.Information.{enable_of, has_more, is_active, is_behind, is_told, notify_of, priority_of, summaries_of, summary_of};

use crate::Core;
use crate::detection::DetectedObject;
use crate::notifications::class_for;
use bac_values::{EventState, NoMemory, ObjectId, push};
use enrollment::Subject;
use event_services::EventSummary;
use notify_class::Class;
use std::alloc::Global;

// Whether an object's event state isn't NORMAL, or a transition of it isn't acknowledged.
fn is_active(detected: &DetectedObject) -> bool
    ensures active { result ≡ is_active detected.now }
{
    let alarm = detected.alarm();
    let [first, second, third] = alarm.acked();
    !matches!(alarm.state(), EventState::Normal) || !first || !second || !third
}

// Whether an object is behind the last one, if there is one.
fn is_behind(last: Option<&ObjectId>, object: ObjectId) -> bool
    ensures behind { result ≡ is_behind (option_map (λ last. last.now) last.entry) object }
{
    match last {
        Some(last) => *last < object,
        None => true,
    }
}

fn is_told(last: Option<&ObjectId>, detected: &DetectedObject) -> bool
    ensures told { result ≡ is_told (option_map (λ last. last.now) last.entry) detected.now }
{
    is_behind(last, detected.object()) && is_active(detected)
}

// How many alarms of those that ascend aren't behind the last object, if there is one: found by halving.
fn passed(alarms: &[DetectedObject], last: Option<&ObjectId>) -> usize
    requires ascending { AscendByObject alarms.now }
    ensures within { result ≤ length alarms.now }
    ensures told { filter (is_told (option_map (λ last. last.now) last.entry)) alarms.now ≡ filter (is_told (option_map (λ last. last.now) last.entry)) (drop result alarms.now) }
{
    let Some(last) = last else {
        return 0;
    };
    match alarms.binary_search_by_key(last, |detected| detected.object()) {
        Ok(place) => place + 1,
        Err(place) => place,
    }
}

// The alarms behind the last object, if there is one, of those that ascend.
fn behind_last<'a>(alarms: &'a [DetectedObject], last: Option<&ObjectId>) -> &'a [DetectedObject]
    requires ascending { AscendByObject alarms.now }
    ensures told { filter (is_told (option_map (λ last. last.now) last.entry)) result.now ≡ filter (is_told (option_map (λ last. last.now) last.entry)) alarms.now }
{
    &alarms[passed(alarms, last)..]
}

/// Notify_Type of a subject, if there is one.
pub(crate) fn notify_of(subject: Option<&Subject>) -> u8
    ensures notify { result ≡ notify_of (option_copied subject.entry) }
{
    match subject {
        Some(subject) => subject.notify,
        None => 0,
    }
}

fn enable_of(subject: Option<&Subject>) -> [bool; 3]
    ensures enable { result ≡ enable_of (option_copied subject.entry) }
{
    match subject {
        Some(subject) => subject.enable,
        None => [false; 3],
    }
}

fn priority_of(class: Option<&Class>) -> [u8; 3]
    ensures priority { result ≡ priority_of (option_copied class.entry) }
{
    match class {
        Some(class) => class.priority,
        None => [0; 3],
    }
}

// The notification class of a subject, if there is one.
fn class_of<'a>(subject: Option<&Subject>, classes: &'a [Class]) -> Option<&'a Class>
    requires ascending { InstancesAscend classes.now }
    ensures class { option_copied result ≡ option_and_then (λ s. class_for s classes.now) (option_copied subject.entry) }
{
    match subject {
        Some(subject) => class_for(subject, classes),
        None => None,
    }
}

impl Core {
    fn summary_of(&self, detected: &DetectedObject) -> EventSummary
        ensures summary { result ≡ summary_of self.now detected.now }
    {
        let (object, alarm) = (detected.object(), detected.alarm());
        let subject = self.detections.objects().subject(object);
        let subject = subject.as_ref();
        EventSummary {
            object,
            state: alarm.state(),
            acked: alarm.acked(),
            stamps: alarm.stamps(),
            notify: notify_of(subject),
            enable: enable_of(subject),
            priority: priority_of(class_of(subject, self.classes())),
        }
    }

    /// The active objects behind the last one that was received, by ascending identifier: what is told of each
    /// (ANSI/ASHRAE 135-2020, 13.12), as many as `room` octets hold at 61 each, and whether more remain.
    pub fn event_information(
        &self,
        alloc: Global,
        last: Option<ObjectId>,
        room: usize,
    ) -> Result<(Vec<EventSummary>, bool), NoMemory>
        ensures summaries { IfOk result (λ told. told.0.items ≡ summaries_of last room self.now) }
        ensures more { IfOk result (λ told. told.1 ≡ has_more last room self.now) }
    {
        let last = last.as_ref();
        let behind = behind_last(self.detections.alarms(), last);
        let mut summaries = Vec::new(alloc);
        let mut left = room / 61;
        for detected in behind {
            if !is_told(last, detected) {
                continue;
            }
            if left == 0 {
                return Ok((summaries, true));
            }
            left -= 1;
            push(&mut summaries, self.summary_of(detected))?;
        }
        Ok((summaries, false))
    }
}
