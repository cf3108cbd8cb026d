//! What summaries are told of the objects and the enrollments.

ghost use Rattle.std.specs.Prelude.{◌≡◌, ◌<◌, ◌^◌, length, slice_get};
ghost use Rattle.std.specs.Option.{option_and_then, option_copied};
ghost use Rattle.enrollment.specs.declared.subject.Subject.{Subject as AnySubject};
ghost use Rattle.property_values.specs.Properties.{or_zero};
ghost use Rattle.alarm_core.specs.AlarmRows.{alarm_row_of, alarm_rows};

use crate::Core;
use crate::detection::DetectedObject;
use crate::event_information::notify_of;
use bac_values::AlarmRow;
use enrollment::Subject;

fn class_number_of(subject: Option<&Subject>) -> u32
    ensures class { result ≡ or_zero (option_and_then (λ (s : AnySubject). s.class) (option_copied subject.entry)) }
{
    match subject {
        Some(subject) => subject.class.unwrap_or(0),
        None => 0,
    }
}

impl Core {
    fn alarm_row_of(&self, detected: &DetectedObject) -> AlarmRow
        ensures row { result ≡ alarm_row_of self.now detected.now }
    {
        let (object, alarm) = (detected.object(), detected.alarm());
        let subject = self.detections.objects().subject(object);
        let subject = subject.as_ref();
        AlarmRow {
            object,
            state: alarm.state(),
            acked: alarm.acked(),
            notify: notify_of(subject),
            event_type: detected.algorithm().event_type(),
            class: class_number_of(subject),
        }
    }

    /// What summaries tell of the object or the enrollment at a place, from 0, among those whose event detection is enabled
    /// (ANSI/ASHRAE 135-2020, 13.10 and 13.11), which stand by ascending identifier; there is none behind the last. It takes
    /// as many looks as the number of objects has binary digits, and no memory.
    pub fn alarm_row(&self, place: u32) -> Option<AlarmRow>
        ensures row { result ≡ slice_get (alarm_rows self.now) place }
        ensures few { length (alarm_rows self.now) < 2 ^ 32 }
    {
        let (alarms, place) = (self.alarms(), place as usize);
        if place >= alarms.len() {
            return None;
        }
        Some(self.alarm_row_of(&alarms[place]))
    }
}
