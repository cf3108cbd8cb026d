//! One event enters the core: what is due and what it touches is evaluated, told, logged and queued, or nothing changes.

ghost use Rattle.std.specs.Prelude.{◌≡◌, ◌↔◌, ◌<◌, ◌≤◌, ◌∷◌, ◌+◌, ◌++◌, [], All, List, None, Ok, length, max, map, IfOk, IfSome, IsFalse, IsTrue, OnErr, OnOk};
ghost use Rattle.std.specs.List.{flat_map};
ghost use Rattle.bac_values.specs.Limits.{most_events};
ghost use Rattle.bac_values.specs.Moments.{IsMoment};
ghost use Rattle.bac_values.specs.declared.note.Note.{Note};
ghost use Rattle.notify_class.specs.Edits.{recipient_peers};
ghost use Rattle.outbox.specs.Outboxes.{AreKnown, answered, learned, pumped, queued, sends_of, unfinished_in};
ghost use Rattle.enrollment.specs.Objects.{IsTaken, written};
ghost use Rattle.event_log.specs.declared.log_site.LogSite.{LogSite as LogPlace};
ghost use Rattle.event_log.specs.History.{Call};
ghost use Rattle.alarm_core.specs.declared.event.Act.TheVariants.{Tick, Write, Ack, Edit};
ghost use Rattle.alarm_core.specs.declared.event.Event.{Event as Happening};
ghost use Rattle.alarm_core.specs.Allowed.{IsAllowed, Represents};
ghost use Rattle.alarm_core.specs.Classes.{edited};
ghost use Rattle.alarm_core.specs.CoreSteps.{acted, after_calls, evaluated_all, next_notes, next_sends, next_state, next_transitions, sends_with, states_of, transitions_all, transitions_by};
ghost use Rattle.alarm_core.specs.Deliveries.{notifications_of};
ghost use Rattle.alarm_core.specs.DueSteps.{LeadsBack, all_once, detections_of, due_count, due_steps, dues_of, start_of, touched_by, undone_by};
ghost use Rattle.alarm_core.specs.Evaluations.{site_moment, site_zone};
ghost use Rattle.alarm_core.specs.History.{event_at, moved_by, raised, tick_at, transitions_of};
ghost use Rattle.alarm_core.specs.Logs.{call_of_change, kept_log, records_of, SiteLogState};
ghost use Rattle.alarm_core.specs.Moving.{moving_of, touched_of};
ghost use Rattle.alarm_core.specs.Notes.{IsShort, notes_of_transitions};
ghost use Rattle.alarm_core.specs.Verdicts.{Answers, queue_verdict, step_verdict};
ghost use Rattle.alarm_core.specs.ViewSteps.{HasRoom, seen_in};

use crate::class_peers::recipient_peers;
use crate::classes::{copy_of_list, put_list};
use crate::due_looks::Round;
use crate::logs::{change_all, enter_all, kept_log};
use crate::note_queue::{queue_all, see_room};
use crate::notifications::{add_notes, count_notes, notes_of_acknowledgement};
use crate::taking::raised_moment;
use crate::transition::ObjectTransition;
use crate::transition_report::{Told, add_moves, tell};
use crate::view::SiteView;
use crate::{Act, Core, Event, Outcome, StepFault};
use bac_values::{EventState, Items, Moved, NoMemory, ObjectId, Peer, Send, Transition};
use civil_stamp::LocalMoment;
use event_machine::Steps;
use notify_class::Destination;
use object_table::{Change, copy_of_change};
use std::alloc::Global;
use std::sync::ledger::Ledger;

/// What is told of a look if its notes find room, and nothing if they don't; and how many they are.
#[derive(Drop)]
struct Look {
    count: usize,
    told: Told,
}

/// What an act reports.
#[derive(Drop)]
struct Done {
    moves: Vec<Moved>,
    sends: Vec<Send>,
}

impl Core {
    /// A moment with its local date and time at the site.
    pub(crate) fn at(&self, moment: u64) -> LocalMoment
        requires moment { IsMoment moment }
        ensures moment { result.moment ≡ moment }
        ensures zone { result.zone ≡ site_zone self.now.site }
    {
        LocalMoment::new(moment, &self.zone)
    }

    // What the transitions of the last look are told with.
    fn view<'a>(&'a self, at: &'a LocalMoment) -> SiteView<'a>
        requires zone { at.now.zone ≡ site_zone self.now.site }
        ensures view { result ≡ record { site = self.now.site; moment = at.now.moment; classes = self.now.classes; values = self.now.values; states = states_of self.now.alarms } }
    {
        SiteView {
            site: &self.site,
            classes: self.classes.as_slice(),
            objects: self.detections.objects(),
            alarms: self.detections.alarms(),
            at,
        }
    }

    // What is told of the transitions of the last look.
    fn told(
        &self,
        alloc: Global,
        at: &LocalMoment,
        transitions: &[ObjectTransition],
    ) -> Result<Told, NoMemory>
        requires zone { at.now.zone ≡ site_zone self.now.site }
        ensures moves { IfOk result (λ told. told.moves.items ≡ map moved_by (seen_in at.now.moment self.now transitions.now)) }
        ensures notes { IfOk result (λ told. told.notes.items ≡ notes_of_transitions self.now.site self.now.classes (seen_in at.now.moment self.now transitions.now)) }
        ensures records { IfOk result (λ told. map (λ list. list.items) told.records.items
            ≡ map (λ (kept : SiteLogState). records_of self.now.site self.now.classes kept.site (seen_in at.now.moment self.now transitions.now)) self.now.logs) }
        ensures short { IfOk result (λ told. All IsShort told.notes.items) }
    {
        let view = self.view(at);
        tell(alloc, &view, &self.logs, transitions)
    }

    // How many notes tell of the transitions of the last look, behind so many others. None is made.
    fn count(
        &self,
        at: &LocalMoment,
        transitions: &[ObjectTransition],
        others: usize,
    ) -> Result<usize, NoMemory>
        requires zone { at.now.zone ≡ site_zone self.now.site }
        ensures count { IfOk result (λ count. count ≡ others + length (notes_of_transitions self.now.site self.now.classes (seen_in at.now.moment self.now transitions.now))) }
    {
        let view = self.view(at);
        count_notes(&view, transitions, others)
    }

    // Whether the notes of the transitions of the last look find room behind so many others of the event. None is made.
    fn see_room(
        &self,
        at: &LocalMoment,
        transitions: &[ObjectTransition],
        others: usize,
    ) -> Result<(), StepFault>
        requires zone { at.now.zone ≡ site_zone self.now.site }
        ensures verdict { (notes : List Note) → length notes ≡ others →
            Answers result (queue_verdict (notes ++ notes_of_transitions self.now.site self.now.classes (seen_in at.now.moment self.now transitions.now)) self.now.outbox) }
        ensures room { OnOk result (HasRoom others self.now.outbox) }
    {
        let count = self.count(at, transitions, others)?;
        see_room(&self.outbox, self.site.device.outbox, count)
    }

    // The transitions of a look if so many notes find room, and none if they don't.
    fn that_fit<'a>(
        &self,
        transitions: &'a [ObjectTransition],
        count: usize,
    ) -> &'a [ObjectTransition]
        ensures fit { HasRoom count self.now.outbox → result.now ≡ transitions.now }
    {
        if count <= self.outbox.room() as usize {
            transitions
        } else {
            &[]
        }
    }

    // One more look at the objects that are due, and what is told of it. Where its own notes find no room, nothing is made.
    fn look<L: Ledger>(
        &mut self,
        alloc: Global,
        at: &LocalMoment,
        steps: &mut Steps<L>,
        round: &mut Round,
    ) -> Result<Look, NoMemory>
        requires zone { at.now.zone ≡ site_zone self.old.site }
        requires none { round.old.formers.items ≡ [] }
        ensures rest { self.new ≡ record self.old { alarms = self.new.alarms } }
        ensures alarms { OnOk result (self.new.alarms ≡ evaluated_all (site_moment self.old.site at.now.moment) self.old.values self.old.alarms) }
        ensures count { IfOk result (λ look. look.count ≡ length (notes_of_transitions self.old.site self.old.classes (transitions_all (site_moment self.old.site at.now.moment) self.old.values self.old.alarms))) }
        ensures moves { IfOk result (λ look. HasRoom look.count self.old.outbox → look.told.moves.items ≡ map moved_by (transitions_all (site_moment self.old.site at.now.moment) self.old.values self.old.alarms)) }
        ensures notes { IfOk result (λ look. HasRoom look.count self.old.outbox → look.told.notes.items
            ≡ notes_of_transitions self.old.site self.old.classes (transitions_all (site_moment self.old.site at.now.moment) self.old.values self.old.alarms)) }
        ensures records { IfOk result (λ look. HasRoom look.count self.old.outbox → map (λ list. list.items) look.told.records.items
            ≡ map (λ (kept : SiteLogState). records_of self.old.site self.old.classes kept.site (transitions_all (site_moment self.old.site at.now.moment) self.old.values self.old.alarms)) self.old.logs) }
        ensures short { IfOk result (λ look. All IsShort look.told.notes.items) }
        ensures known { IfOk result (λ look. AreKnown look.told.notes.items self.old.outbox.posts) }
        ensures undoes { LeadsBack round.new.formers.items (detections_of self.old) (detections_of self.new) }
        ensures steps { steps.new ≤ steps.old + due_count at.now.moment (dues_of (detections_of self.old)) }
    {
        self.detections.evaluate(at, steps, round)?;
        let count = self.count(at, &round.transitions, 0)?;
        let told = self.told(alloc, at, self.that_fit(&round.transitions, count))?;
        Ok(Look { count, told })
    }

    fn tick<L: Ledger>(
        &mut self,
        alloc: Global,
        at: &LocalMoment,
        steps: &mut Steps<L>,
        round: &mut Round,
    ) -> Result<Done, StepFault>
        requires zone { at.now.zone ≡ site_zone self.old.site }
        requires none { round.old.formers.items ≡ [] }
        ensures state { OnOk result (self.new ≡ acted (tick_at at.now.moment) self.old) }
        ensures moves { IfOk result (λ done. done.moves.items ≡ map moved_by (next_transitions (tick_at at.now.moment) self.old)) }
        ensures sends { IfOk result (λ done. done.sends.items ≡ []) }
        ensures rest { OnErr result (self.new ≡ record self.old { alarms = self.new.alarms }) }
        ensures undoes { OnErr result (LeadsBack round.new.formers.items (detections_of self.old) (detections_of self.new)) }
        ensures verdict { Answers result (step_verdict (tick_at at.now.moment) self.old) }
        ensures steps { steps.new ≤ steps.old + due_count at.now.moment (dues_of (detections_of self.old)) }
    {
        let look = self.look(alloc, at, steps, round)?;
        see_room(&self.outbox, self.site.device.outbox, look.count)?;
        let told = look.told;
        queue_all(alloc, &mut self.outbox, told.notes)?;
        enter_all(&mut self.logs, told.records);
        Ok(Done {
            moves: told.moves,
            sends: Vec::new(alloc),
        })
    }

    // Whether a change is one of an event log, which passes the objects by.
    fn is_of_log(&self, change: &Change) -> bool
        ensures log { IsTrue result → written change.now self.now.values ≡ self.now.values }
        ensures none { IsFalse result → kept_log change.now.object self.now.logs ≡ None }
    {
        kept_log(&self.logs, change.object).is_some()
    }

    // The second look of a write, after the change of an object or before that of a log. It gives the change that takes the
    // former back.
    fn change<L: Ledger>(
        &mut self,
        change: &Change,
        at: &LocalMoment,
        steps: &mut Steps<L>,
        round: &mut Round,
    ) -> Result<Option<Change>, NoMemory>
        requires zone { at.now.zone ≡ site_zone self.old.site }
        requires allowed { IsAllowed self.old (Write change.now) }
        requires undoes { LeadsBack round.old.formers.items (start_of round.old.formers.items (detections_of self.old)) (detections_of self.old) }
        ensures rest { self.new ≡ record self.old { values = self.new.values; alarms = self.new.alarms } }
        ensures values { OnOk result (self.new.values ≡ written change.now self.old.values) }
        ensures alarms { OnOk result (self.new.alarms ≡ evaluated_all (site_moment self.old.site at.now.moment) (written change.now self.old.values) self.old.alarms) }
        ensures transitions { OnOk result (round.new.transitions.items ≡ flat_map (transitions_by (site_moment self.old.site at.now.moment) (written change.now self.old.values)) self.old.alarms) }
        ensures back { IfOk result (λ undo. undone_by undo self.new.values ≡ self.old.values) }
        ensures takes { IfOk result (λ undo. IfSome undo (λ undo. IsTaken undo self.new.values)) }
        ensures same { OnErr result (self.new.values ≡ self.old.values) }
        ensures undoes { LeadsBack round.new.formers.items (start_of round.old.formers.items (detections_of self.old)) (detections_of self.new) }
        ensures steps { steps.new ≤ steps.old + due_count at.now.moment (all_once (touched_by change.now.object self.old.values) self.old.alarms (dues_of (detections_of self.old))) }
    {
        if self.is_of_log(change) {
            self.detections.evaluate(at, steps, round)?;
            return Ok(None);
        }
        let undo = self
            .detections
            .write(copy_of_change(change)?, at, steps, round)?;
        Ok(Some(undo))
    }

    // A write after its second look: the notes of both looks are queued, and the logs are given what they record of both,
    // with the change between.
    fn finish_write(
        &mut self,
        alloc: Global,
        before: Look,
        change: &Change,
        at: &LocalMoment,
        transitions: &[ObjectTransition],
    ) -> Result<Done, StepFault>
        requires zone { at.now.zone ≡ site_zone self.old.site }
        requires short { All IsShort before.told.notes.items }
        requires known { AreKnown before.told.notes.items self.old.outbox.posts }
        ensures state { OnOk result (self.new ≡ record self.old {
          outbox = queued (before.told.notes.items ++ notes_of_transitions self.old.site self.old.classes (seen_in at.now.moment self.old transitions.now)) self.old.outbox;
          logs = self.new.logs;
        }) }
        ensures logs { (first : LogPlace → List Call) → map (λ list. list.items) before.told.records.items ≡ map (λ (kept : SiteLogState). first kept.site) self.old.logs →
            OnOk result (self.new.logs ≡ map (λ (kept : SiteLogState). record kept {
              log = after_calls (first kept.site ++ (call_of_change kept.site change.now
                  ++ records_of self.old.site self.old.classes kept.site (seen_in at.now.moment self.old transitions.now))) kept.log;
            }) self.old.logs) }
        ensures moves { IfOk result (λ done. done.moves.items ≡ before.told.moves.items ++ map moved_by (seen_in at.now.moment self.old transitions.now)) }
        ensures sends { IfOk result (λ done. done.sends.items ≡ []) }
        ensures same { OnErr result (self.new ≡ self.old) }
        ensures room { OnOk result (HasRoom before.count self.old.outbox) }
        ensures verdict { (first : List Note) → length first ≡ before.count → (HasRoom before.count self.old.outbox → before.told.notes.items ≡ first) →
            Answers result (queue_verdict (first ++ notes_of_transitions self.old.site self.old.classes (seen_in at.now.moment self.old transitions.now)) self.old.outbox) }
    {
        self.see_room(at, transitions, before.count)?;
        let (before, after) = (before.told, self.told(alloc, at, transitions)?);
        let (mut moves, mut notes) = (before.moves, before.notes);
        add_moves(&mut moves, after.moves)?;
        add_notes(&mut notes, after.notes)?;
        queue_all(alloc, &mut self.outbox, notes)?;
        enter_all(&mut self.logs, before.records);
        change_all(&mut self.logs, change);
        enter_all(&mut self.logs, after.records);
        let sends = Vec::new(alloc);
        Ok(Done { moves, sends })
    }

    fn write<L: Ledger>(
        &mut self,
        alloc: Global,
        at: &LocalMoment,
        change: &Change,
        steps: &mut Steps<L>,
        round: &mut Round,
    ) -> Result<Done, StepFault>
        requires zone { at.now.zone ≡ site_zone self.old.site }
        requires allowed { IsAllowed self.old (Write change.now) }
        requires none { round.old.formers.items ≡ [] }
        ensures state { OnOk result (self.new ≡ acted (event_at at.now.moment (Write change.now)) self.old) }
        ensures moves { IfOk result (λ done. done.moves.items ≡ map moved_by (next_transitions (event_at at.now.moment (Write change.now)) self.old)) }
        ensures sends { IfOk result (λ done. done.sends.items ≡ []) }
        ensures rest { OnErr result (self.new ≡ record self.old { alarms = self.new.alarms }) }
        ensures undoes { OnErr result (LeadsBack round.new.formers.items (detections_of self.old) (detections_of self.new)) }
        ensures verdict { Answers result (step_verdict (event_at at.now.moment (Write change.now)) self.old) }
        ensures steps { steps.new ≤ steps.old + due_steps at.now (Write change.now) (detections_of self.old) }
    {
        let before = self.look(alloc, at, steps, round)?;
        let undo = self.change(change, at, steps, round)?;
        match self.finish_write(alloc, before, change, at, &round.transitions) {
            Ok(done) => Ok(done),
            Err(fault) => {
                if let Some(undo) = undo {
                    self.detections.undo_write(undo, round, at);
                }
                Err(fault)
            }
        }
    }

    fn acknowledge(
        &mut self,
        alloc: Global,
        at: &LocalMoment,
        object: ObjectId,
        transition: Transition,
        named: EventState,
    ) -> Result<Done, StepFault>
        requires zone { at.now.zone ≡ site_zone self.old.site }
        ensures state { OnOk result (self.new ≡ acted (event_at at.now.moment (Ack object transition named)) self.old) }
        ensures moves { IfOk result (λ done. done.moves.items ≡ []) }
        ensures sends { IfOk result (λ done. done.sends.items ≡ []) }
        ensures same { OnErr result (self.new ≡ self.old) }
        ensures verdict { Answers result (step_verdict (event_at at.now.moment (Ack object transition named)) self.old) }
    {
        let view = self.view(at);
        let told = notes_of_acknowledgement(alloc, &view, object, transition, named)?;
        queue_all(alloc, &mut self.outbox, told)?;
        self.detections.acknowledge(object, transition);
        Ok(Done {
            moves: Vec::new(alloc),
            sends: Vec::new(alloc),
        })
    }

    fn pump(&mut self, alloc: Global, moment: u64) -> Result<Done, StepFault>
        requires moment { IsMoment moment }
        ensures state { OnOk result (self.new ≡ record self.old { outbox = pumped moment self.old.outbox }) }
        ensures moves { IfOk result (λ done. done.moves.items ≡ []) }
        ensures sends { IfOk result (λ done. done.sends.items ≡ sends_of moment self.old.outbox) }
        ensures same { OnErr result (self.new ≡ self.old) }
        ensures verdict { Answers result (Ok tt) }
    {
        let sends = self.outbox.pump(alloc, moment)?;
        Ok(Done {
            moves: Vec::new(alloc),
            sends,
        })
    }

    fn answer(&mut self, alloc: Global, peer: &Peer, invoke: u8) -> Done
        ensures state { self.new ≡ record self.old { outbox = answered peer.now invoke self.old.outbox } }
        ensures moves { result.moves.items ≡ [] }
        ensures sends { result.sends.items ≡ [] }
    {
        let _answered = self.outbox.answer(peer, invoke);
        Done {
            moves: Vec::new(alloc),
            sends: Vec::new(alloc),
        }
    }

    fn edit(
        &mut self,
        alloc: Global,
        class: u32,
        destinations: &[Destination],
    ) -> Result<Done, StepFault>
        requires allowed { IsAllowed self.old (Edit class destinations.now) }
        ensures state { OnOk result (self.new ≡ record self.old {
          classes = map (edited class destinations.now) self.old.classes;
          outbox = learned (recipient_peers destinations.now) self.old.outbox;
        }) }
        ensures moves { IfOk result (λ done. done.moves.items ≡ []) }
        ensures sends { IfOk result (λ done. done.sends.items ≡ []) }
        ensures same { OnErr result (self.new ≡ self.old) }
        ensures verdict { Answers result (Ok tt) }
    {
        let list = copy_of_list(alloc, destinations)?;
        let others = recipient_peers(alloc, destinations)?;
        let peers = self.peers.with(alloc, &others)?;
        self.outbox.learn(alloc, &others)?;
        put_list(&mut self.classes, class, list);
        self.peers = peers;
        Ok(Done {
            moves: Vec::new(alloc),
            sends: Vec::new(alloc),
        })
    }

    // What an event does. Where it is refused, some objects have been looked at.
    fn attempt<L: Ledger>(
        &mut self,
        alloc: Global,
        at: &LocalMoment,
        act: &Act,
        steps: &mut Steps<L>,
        round: &mut Round,
    ) -> Result<Done, StepFault>
        requires zone { at.now.zone ≡ site_zone self.old.site }
        requires allowed { IsAllowed self.old act.now }
        requires none { round.old.formers.items ≡ [] }
        ensures state { OnOk result (self.new ≡ acted (event_at at.now.moment act.now) self.old) }
        ensures moves { IfOk result (λ done. done.moves.items ≡ map moved_by (next_transitions (event_at at.now.moment act.now) self.old)) }
        ensures sends { IfOk result (λ done. done.sends.items ≡ sends_with at.now.moment act.now self.old.outbox) }
        ensures rest { OnErr result (self.new ≡ record self.old { alarms = self.new.alarms }) }
        ensures undoes { OnErr result (LeadsBack round.new.formers.items (detections_of self.old) (detections_of self.new)) }
        ensures verdict { Answers result (step_verdict (event_at at.now.moment act.now) self.old) }
        ensures steps { steps.new ≤ steps.old + due_steps at.now act.now (detections_of self.old) }
    {
        match act {
            Act::Tick => self.tick(alloc, at, steps, round),
            Act::Write { change } => self.write(alloc, at, change, steps, round),
            Act::Ack {
                object,
                transition,
                state,
            } => self.acknowledge(alloc, at, *object, *transition, *state),
            Act::Pump => self.pump(alloc, at.moment()),
            Act::Answer { peer, invoke, .. } => Ok(self.answer(alloc, peer, *invoke)),
            Act::Edit {
                class,
                destinations,
            } => self.edit(alloc, *class, destinations.as_slice()),
        }
    }

    // What an event does. Nothing of it is left where it is refused.
    fn act<L: Ledger>(
        &mut self,
        alloc: Global,
        at: &LocalMoment,
        act: &Act,
        steps: &mut Steps<L>,
    ) -> Result<Done, StepFault>
        requires zone { at.now.zone ≡ site_zone self.old.site }
        requires allowed { IsAllowed self.old act.now }
        ensures state { OnOk result (self.new ≡ acted (event_at at.now.moment act.now) self.old) }
        ensures moves { IfOk result (λ done. done.moves.items ≡ map moved_by (next_transitions (event_at at.now.moment act.now) self.old)) }
        ensures sends { IfOk result (λ done. done.sends.items ≡ sends_with at.now.moment act.now self.old.outbox) }
        ensures same { OnErr result (self.new ≡ self.old) }
        ensures verdict { Answers result (step_verdict (event_at at.now.moment act.now) self.old) }
        ensures steps { steps.new ≤ steps.old + due_steps at.now act.now (detections_of self.old) }
    {
        let mut round = Round::new(alloc);
        match self.attempt(alloc, at, act, steps, &mut round) {
            Ok(done) => Ok(done),
            Err(fault) => {
                self.detections.undo(&mut round, at);
                Err(fault)
            }
        }
    }

    /// Takes an event, whose moment is raised to the last one. A fault changes nothing: notifications that don't fit the
    /// outbox are `Full`, with the number that would then wait and the one that may. A tick is never `Full` where nothing
    /// waits. Each look at an object is a step: there are at most as many as objects move at the looks of the event, and for a
    /// write one more for each object that it touches.
    pub fn step<L: Ledger>(
        &mut self,
        alloc: Global,
        event: &Event,
        steps: &mut Steps<L>,
    ) -> Result<Outcome, StepFault>
        requires moment { IsMoment event.now.moment }
        requires allowed { IsAllowed self.old event.now.act }
        requires few { self.old.events < most_events }
        ensures state { OnOk result (self.new ≡ next_state (raised self.old.last_moment event.now) self.old) }
        ensures moment { IfOk result (λ outcome. outcome.moment ≡ max event.now.moment self.old.last_moment) }
        ensures moves { IfOk result (λ outcome. outcome.moves ≡ map moved_by (next_transitions (raised self.old.last_moment event.now) self.old)) }
        ensures sends { IfOk result (λ outcome. outcome.sends ≡ next_sends (raised self.old.last_moment event.now) self.old) }
        ensures same { OnErr result (self.new ≡ self.old) }
        ensures verdict { Answers result (step_verdict (raised self.old.last_moment event.now) self.old) }
        ensures represents { (history : List Happening) → Represents self.old history →
            OnOk result (Represents self.new (raised self.old.last_moment event.now ∷ history)) }
        ensures transitions { (history : List Happening) → Represents self.old history →
            transitions_of self.old.site (raised self.old.last_moment event.now ∷ history)
            ≡ transitions_of self.old.site history ++ next_transitions (raised self.old.last_moment event.now) self.old }
        ensures notifications { (history : List Happening) → Represents self.old history →
            notifications_of self.old.site (raised self.old.last_moment event.now ∷ history)
            ≡ notifications_of self.old.site history ++ next_notes (raised self.old.last_moment event.now) self.old }
        ensures ticks_fit { (history : List Happening) → Represents self.old history → unfinished_in self.old.outbox.posts ≡ 0 →
            event.now.act ≡ Tick → step_verdict (raised self.old.last_moment event.now) self.old ≡ Ok tt }
        ensures counts { (history : List Happening) → Represents self.old history →
            steps.new ≤ steps.old + (moving_of self.old.site (raised self.old.last_moment event.now) history + touched_of self.old.site (raised self.old.last_moment event.now) history) }
    {
        let moment = raised_moment(event.moment, self.last_moment);
        let at = self.at(moment);
        let done = self.act(alloc, &at, &event.act, steps)?;
        self.events += 1;
        self.last_moment = moment;
        Ok(Outcome {
            moment,
            moves: Items::of(done.moves),
            sends: Items::of(done.sends),
        })
    }
}
