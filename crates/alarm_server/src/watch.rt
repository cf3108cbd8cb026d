//! The object on trial, and its detection.

ghost use Rattle.std.specs.Prelude.{◌≡◌, ◌≤◌, ◌<◌, ◌∷◌, [], List, length, false, replicate};
ghost use Rattle.bac_values.specs.Limits.{most_listed_values};
ghost use Rattle.bac_values.specs.Moments.{IsMoment};
ghost use Rattle.event_machine.specs.AlarmRecord.{never};
ghost use Rattle.event_machine.specs.Detection.{moves_at};
ghost use Rattle.event_machine.specs.Given.{moves_in, point_of};
ghost use Rattle.event_machine.specs.Points.{Incident, IsCourse, Looked, Point};
ghost use Rattle.event_machine.specs.Summary.{IsAfter};
ghost use Rattle.algorithm_rules.specs.declared.table.Algorithm.TheVariants.{SignedOutOfRange};
ghost use Rattle.bac_values.specs.declared.value.Value.TheVariants.{Signed};
ghost use Rattle.alarm_server.specs.Looks.{point_at};
ghost use Rattle.alarm_server.specs.Trial.{first_point};
ghost use Rattle.alarm_server.specs.Watched.{HasSeen};

use crate::settings::Settings;
use algorithm_rules::Snapshot;
use bac_values::{FIRST_MOMENT, Reliability, Stamp, Value};
use event_machine::{Alarm, Changed, PointFacts, Steps, begin, evaluate};
use std::marker::{Brand, Model};
use std::sync::ledger::{Blank, Ledger};

/// The object on trial: its last look, which is at a moment in range, and its alarm.
#[derive(Clone, Copy, Debug)]
pub struct Watch {
    settings: Settings,
    moment: u64,
    value: i32,
    alarm: Alarm,
}

impl Model for Watch {
    ghost use Rattle.bac_values.specs.Moments.{IsMoment};
    ghost use Rattle.alarm_server.specs.Watched.{WatchState};

    ghost Value = { WatchState };

    ghost view = { λ watch. record {
      settings = watch.settings;
      moment = watch.moment;
      value = watch.value;
      alarm = watch.alarm;
    } };

    ghost invariant = { λ watch. IsMoment watch.moment };

    ghost inverse = { λ watch. record {
      settings = watch.settings;
      moment = watch.moment;
      value = watch.value;
      alarm = watch.alarm;
    } };
}

// What is seen of the object at a moment, beside its value. Nothing that a trial reports shows the stamp.
fn point_facts(moment: u64) -> PointFacts
    ensures facts { result ≡ record {
      moment = moment;
      stamp = never;
      reliability = Reliability.NoFaultDetected;
      inhibited = false;
      ack_required = replicate 3 false;
    } }
{
    PointFacts {
        moment,
        stamp: Stamp::NEVER,
        reliability: Reliability::NoFaultDetected,
        inhibited: false,
        ack_required: [false; 3],
    }
}

// One more point of the object, counted in a ledger of its own.
fn counted<L: Ledger>(
    alarm: &mut Alarm,
    snapshot: &Snapshot<'_>,
    point: &PointFacts,
    blank: Blank,
) -> Changed
    requires name { blank.name ≡ L.name }
    requires parts { blank.parts ≡ L.parts }
    requires some { 0 < blank.parts }
    requires few { length snapshot.now.alarm_values.now ≤ most_listed_values }
    requires moment { IsMoment point.now.moment }
    ensures course { (first : Point) (later : List Incident) → IsCourse first (Looked (point_of snapshot.now point.now) ∷ later) → IsAfter snapshot.now.algorithm first later alarm.old →
        IsAfter snapshot.now.algorithm first (Looked (point_of snapshot.now point.now) ∷ later) alarm.new }
    ensures course_moves { (first : Point) (later : List Incident) → IsCourse first (Looked (point_of snapshot.now point.now) ∷ later) → IsAfter snapshot.now.algorithm first later alarm.old →
        moves_in result ≡ moves_at snapshot.now.algorithm first (Looked (point_of snapshot.now point.now) ∷ later) }
{
    let mut steps = Steps::<L>::new(blank);
    evaluate(alarm, snapshot, point, &mut steps)
}

impl Watch {
    /// The object at its first point, with its first value.
    pub fn start(settings: Settings) -> Watch
        ensures settings { result.settings ≡ settings }
        ensures first { HasSeen (first_point settings) [] result }
    {
        let mut alarm = Alarm::new();
        let value = Value::Signed(settings.low);
        let point = point_facts(FIRST_MOMENT);
        begin(&mut alarm, &settings.snapshot(&value), &point);
        Watch {
            settings,
            moment: FIRST_MOMENT,
            value: settings.low,
            alarm,
        }
    }

    /// When the object was last looked at, in milliseconds since 1970.
    pub fn moment(&self) -> u64
        ensures moment { result ≡ self.now.moment }
        ensures range { IsMoment result }
    {
        self.moment
    }

    /// Its value there.
    pub fn value(&self) -> i32
        ensures value { result ≡ self.now.value }
    {
        self.value
    }

    /// Looks once more, with a value, at a moment that isn't before the last one, and gives the moves of the object. Memory
    /// is not asked for.
    pub fn look(&mut self, moment: u64, value: i32) -> Changed
        requires range { IsMoment moment }
        requires not_before { self.old.moment ≤ moment }
        ensures settings { self.new.settings ≡ self.old.settings }
        ensures moment { self.new.moment ≡ moment }
        ensures seen { (first : Point) (later : List Incident) → HasSeen first later self.old →
            HasSeen first (Looked (point_at self.old.settings moment (Signed value)) ∷ later) self.new }
        ensures moves { (first : Point) (later : List Incident) → HasSeen first later self.old →
            moves_in result ≡ moves_at SignedOutOfRange first (Looked (point_at self.old.settings moment (Signed value)) ∷ later) }
    {
        self.moment = moment;
        self.value = value;
        let seen = Value::Signed(value);
        let snapshot = self.settings.snapshot(&seen);
        let point = point_facts(moment);
        counted::<Brand>(&mut self.alarm, &snapshot, &point, Blank::new(1))
    }
}
