//! What a floor makes of an input.

ghost use Rattle.std.specs.Prelude.{◌≡◌, ◌≢◌, ◌<◌, ◌≤◌, ◌+◌, ◌-◌, ◌^◌, ℕ, List, [], ◌∷◌, ◌++◌, IfOk, IfErr, IfSome, IsNone, Some, None, Option, Ok, Err, is_some, length, Result, vec_len, vec_capacity};
ghost use Rattle.std.specs.VecDeque.{deque_len, deque_capacity};
ghost use Rattle.bac_values.specs.Limits.{most_batch_octets, most_pending_calls};
ghost use Rattle.bac_values.specs.Moments.{IsMoment};
ghost use Rattle.bac_values.specs.declared.input.Input.{Input as Entered};
ghost use Rattle.bac_values.specs.declared.note.Send.{Send as Datagram};
ghost use Rattle.noted.specs.declared.noted.Noted.{Noted as Kept};
ghost use Rattle.alarm_core.specs.Allowed.{IsAllowed};
ghost use Rattle.alarm_core.specs.Fits.{FitsEvent};
ghost use Rattle.alarm_core.specs.History.{raised};
ghost use Rattle.alarm_core.specs.Verdicts.{step_verdict};
ghost use Rattle.service_desk.specs.Answers.{Replied, answer_to, entering, if_owed};
ghost use Rattle.state_codec.specs.Records.{HasRecord, written_event};
ghost use Rattle.floor_desk.specs.declared.entry.Entry.{Entry as Step};
ghost use Rattle.floor_desk.specs.declared.entry.Look.TheVariants.{Refused};
ghost use Rattle.floor_desk.specs.declared.faults.EnterFault.TheVariants as enters;
ghost use Rattle.floor_desk.specs.Accounts.{entry_for, most_pending_octets};
ghost use Rattle.floor_desk.specs.MovesSteps.{CameOf, IsReady, Refuses};
ghost use Rattle.floor_desk.specs.Owed.{sends_of};
ghost use Rattle.floor_desk.specs.Standing.{FloorStands};
ghost use Rattle.floor_desk.specs.declared.pending.Owed.{Owed as Owing};

use crate::entry::{Kind, Ticket};
use crate::faults::EnterFault;
use crate::floor::{Floor, Spot};
use crate::pending::{Owed, Pending};
use alarm_core::{Event, Outcome, StepFault};
use bac_values::{Input, Items, NoMemory, Send};
use ground_io::Ground;
use service_desk::{Decision, decide};
use state_codec::{event_to_record, records_are_short, write_event};
use std::alloc::Global;

// What is owed for a reply, if there is one.
fn owed_for(alloc: Global, reply: Option<Send>) -> Owed
    ensures owed { sends_of result ≡ if_owed reply }
{
    match reply {
        Some(send) => Owed::One(send),
        None => Owed::Several(Items::of(Vec::new(alloc))),
    }
}

/// What an event adds to what is pending.
#[derive(Drop)]
struct Parts {
    // Its record.
    octets: Vec<u8>,
    // Its reply, where one is owed.
    reply: Owed,
    // The answer where its notifications don't fit the outbox.
    full: Owed,
}

// What an event adds, made ready.
fn readied(
    alloc: Global,
    event: &Event,
    reply: Option<Send>,
    full: Option<Send>,
) -> Result<Parts, NoMemory>
    requires record { HasRecord event.now }
    ensures record { IfOk result (λ parts. parts.octets.items ≡ written_event event.now) }
    ensures short { IfOk result (λ parts. length parts.octets.items ≤ 1006) }
    ensures reply { IfOk result (λ parts. sends_of parts.reply ≡ if_owed reply) }
    ensures full { IfOk result (λ parts. sends_of parts.full ≡ if_owed full) }
{
    let octets = write_event(alloc, event)?;
    records_are_short();
    let reply = owed_for(alloc, reply);
    let full = owed_for(alloc, full);
    Ok(Parts {
        octets,
        reply,
        full,
    })
}

// An event's record, what it sends and its reply come to what is pending.
fn add_entered(pending: &mut Pending, parts: Parts, outcome: Outcome)
    requires few { pending.old.calls < 2 ^ 63 }
    requires records { vec_len pending.old.records + length parts.octets.items ≤ vec_capacity pending.old.records }
    requires sends { deque_len pending.old.sends + 2 ≤ deque_capacity pending.old.sends }
    ensures records { pending.new.records.items ≡ pending.old.records.items ++ parts.octets.items }
    ensures sends { pending.new.sends.items ≡ (pending.old.sends.items ++ Owing.Several outcome.sends ∷ []) ++ parts.reply ∷ [] }
    ensures calls { pending.new.calls ≡ pending.old.calls + 1 }
{
    pending.add_event(parts.octets, outcome.sends, parts.reply);
}

// The answer to an event that doesn't fit comes to what is pending.
fn add_full(pending: &mut Pending, parts: Parts)
    requires few { pending.old.calls < 2 ^ 63 }
    requires sends { deque_len pending.old.sends + 2 ≤ deque_capacity pending.old.sends }
    ensures records { pending.new.records.items ≡ pending.old.records.items }
    ensures sends { pending.new.sends.items ≡ pending.old.sends.items ++ parts.full ∷ [] }
    ensures calls { pending.new.calls ≡ pending.old.calls + 1 }
{
    pending.add_reply(parts.full);
}

impl<G: Ground> Floor<G> {
    // The ticket of an input that is no event.
    fn ticket(&self, kind: Kind) -> Ticket
        ensures ticket { result ≡ record { number = self.now.core.events; kind = kind } }
    {
        Ticket {
            number: self.core.events(),
            kind,
        }
    }

    // An input that is answered without an event.
    fn reply(&mut self, send: Send) -> Result<Ticket, EnterFault>
        requires few { self.old.calls < most_pending_calls }
        ensures comes { CameOf self.old self.new (Replied send) result }
    {
        if self.pending.make_room(0).is_err() {
            return Err(EnterFault::NoMemory);
        }
        self.pending.add_reply(Owed::One(send));
        Ok(self.ticket(Kind::Replied))
    }

    // An event comes next with what it adds, which is ready. Whether it fits or not, its requester is told where one is.
    fn enter_with(
        &mut self,
        alloc: Global,
        event: &Event,
        parts: Parts,
        told: bool,
    ) -> Result<Ticket, EnterFault>
        requires moment { IsMoment event.now.moment }
        requires raised { raised self.old.core.last_moment event.now ≡ event.now }
        requires allowed { IsAllowed self.old.core event.now.act }
        requires record { HasRecord event.now }
        requires fits { FitsEvent event.now }
        requires few { self.old.calls < most_pending_calls }
        requires short { length self.old.records + length parts.octets.items ≤ most_batch_octets }
        requires written { parts.octets.items ≡ written_event event.now }
        ensures comes { (reply full : Option Datagram) → sends_of parts.reply ≡ if_owed reply → sends_of parts.full ≡ if_owed full → told ≡ is_some full → CameOf self.old self.new (entering event.now reply full (step_verdict event.now self.old.core)) result }
    {
        if self.pending.make_room(parts.octets.len()).is_err() {
            return Err(EnterFault::NoMemory);
        }
        match self.core.take(alloc, event) {
            Ok(outcome) => {
                add_entered(&mut self.pending, parts, outcome);
                Ok(self.ticket(Kind::Entered))
            }
            Err(StepFault::Full { would, limit }) => {
                if told {
                    add_full(&mut self.pending, parts);
                } else {
                    drop(parts);
                }
                Err(EnterFault::Full { would, limit })
            }
            Err(StepFault::NoMemory) => Err(EnterFault::NoMemory),
        }
    }

    // An event that comes next.
    fn enter(
        &mut self,
        alloc: Global,
        event: Event,
        reply: Option<Send>,
        full: Option<Send>,
    ) -> Result<Ticket, EnterFault>
        requires moment { IsMoment event.moment }
        requires allowed { IsAllowed self.old.core event.act }
        requires few { self.old.calls < most_pending_calls }
        requires short { length self.old.records ≤ most_pending_octets }
        ensures comes { CameOf self.old self.new (entering (raised self.old.core.last_moment event) reply full (step_verdict (raised self.old.core.last_moment event) self.old.core)) result }
    {
        let event = event_to_record(&self.core, event);
        let told = full.is_some();
        let parts = match readied(alloc, &event, reply, full) {
            Ok(parts) => parts,
            Err(NoMemory) => return Err(EnterFault::NoMemory),
        };
        self.enter_with(alloc, &event, parts, told)
    }

    // An input that is looked at.
    fn look(&mut self, alloc: Global, moment: u64, input: &Input) -> Result<Ticket, EnterFault>
        requires moment { IsMoment moment }
        requires few { self.old.calls < most_pending_calls }
        requires short { length self.old.records ≤ most_pending_octets }
        ensures comes { CameOf self.old self.new (answer_to self.old.core input.now moment) result }
    {
        let decision = match decide(alloc, &self.core, input, moment) {
            Ok(decision) => decision,
            Err(NoMemory) => return Err(EnterFault::NoMemory),
        };
        match decision {
            Decision::Ignore => Ok(self.ticket(Kind::Ignored)),
            Decision::Idle => Ok(self.ticket(Kind::Idle)),
            Decision::Refuse { why } => Ok(self.ticket(Kind::Refused { why })),
            Decision::Reply { send } => self.reply(send),
            Decision::Enter { event, reply, full } => self.enter(alloc, event, reply, full),
        }
    }

    // Why no input is looked at now.
    fn shut(&self) -> Option<EnterFault>
        ensures shut { IfSome result (Refuses self.now) }
        ensures ready { IsNone result → IsReady self.now }
    {
        if let Spot::Broken { place, .. } = &self.spot {
            return Some(EnterFault::Stopped { at: *place });
        }
        if self.pending.is_behind() {
            return Some(EnterFault::Behind {
                pending: self.pending.calls,
                octets: self.pending.octets(),
            });
        }
        None
    }

    /// Takes an input at a moment. The causes of a refusal are looked at in the order of `EnterFault`; but for `Full`,
    /// whose requester is told, nothing has changed behind one.
    pub fn admit(&mut self, alloc: Global, moment: u64, input: &Input) -> Result<Ticket, EnterFault>
        requires moment { IsMoment moment }
        ensures stands { (h : List (ℕ × Step G)) (n : ℕ) (memo : Kept Entered) → memo.value ≡ input.now → FloorStands G.told G.size G.disk_faults G.emit_faults self.old h → FloorStands G.told G.size G.disk_faults G.emit_faults self.new (h ++ (n, entry_for memo moment result) ∷ []) }
        ensures refused { IfErr result (λ fault. self.new.core ≡ self.old.core) }
        ensures same { IfErr result (λ fault. ((would limit : ℕ) → fault ≢ enters.Full would limit) → self.new ≡ self.old) }
        ensures origin { self.new.origin ≡ self.old.origin }
    {
        match self.shut() {
            Some(fault) => Err(fault),
            None => self.look(alloc, moment, input),
        }
    }
}
