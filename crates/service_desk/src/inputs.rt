//! What becomes of an input of any kind.

ghost use Rattle.std.specs.Prelude.{◌≡◌, IfOk, List, Result};
ghost use Rattle.bac_values.specs.Moments.{IsMoment};
ghost use Rattle.bac_values.specs.declared.input.Input.TheVariants.{Tick};
ghost use Rattle.bac_values.specs.declared.input.SetFault.{SetFault as Fault};
ghost use Rattle.object_table.specs.declared.change.Change.{Change as Changed};
ghost use Rattle.object_table.specs.Verdicts.{checked_fault, checked_set};
ghost use Rattle.alarm_core.specs.declared.event.Event.{Event as Happening};
ghost use Rattle.alarm_core.specs.Allowed.{Represents};
ghost use Rattle.service_desk.specs.Decisions.{EntersAllowed, by_kind, decision_on, evaluations_deciding, field_decision, has_no_value, pump_decision, tick_decision};

use crate::Decision;
use crate::apdus::datagram_decision;
use alarm_core::{Act, Core, EvaluationCount, Event, none_counted};
use bac_values::{Input, NoMemory, ObjectId, SetFault, Value};
use object_table::Change;
use std::alloc::Global;

// What a value or a fault from the field comes to.
fn field_decision(moment: u64, checked: Result<Change, SetFault>) -> Decision
    ensures decision { result ≡ field_decision moment checked }
{
    match checked {
        Ok(change) => Decision::Enter {
            event: Event {
                moment,
                act: Act::Write { change },
            },
            reply: None,
            full: None,
        },
        Err(why) => Decision::Refuse { why },
    }
}

// Whether the object is of the site and has no value.
fn has_no_value(core: &Core, object: ObjectId) -> bool
    ensures none { result ≡ has_no_value core.now object }
{
    core.table().row(object).is_none() && core.has_other_object(object)
}

fn set_decision(
    core: &Core,
    moment: u64,
    object: ObjectId,
    value: &Value,
) -> Result<Decision, NoMemory>
    ensures decision { IfOk result (λ decision. decision ≡ field_decision moment (by_kind core.now object (checked_set core.now.values.rows object value.now))) }
    ensures allowed { IfOk result (EntersAllowed core.now moment) }
{
    if has_no_value(core, object) {
        return Ok(field_decision(moment, Err(SetFault::WrongKind)));
    }
    let value = value.clone()?;
    Ok(field_decision(moment, core.table().check_set(object, value)))
}

fn fault_decision(core: &Core, moment: u64, object: ObjectId, reliability: u32) -> Decision
    ensures decision { result ≡ field_decision moment (by_kind core.now object (checked_fault core.now.values.rows object reliability)) }
    ensures allowed { EntersAllowed core.now moment result }
{
    if has_no_value(core, object) {
        return field_decision(moment, Err(SetFault::WrongKind));
    }
    field_decision(moment, core.table().check_fault(object, reliability))
}

// What a tick comes to, and how many evaluations it took to see that.
fn tick_decision(core: &Core, moment: u64) -> (Decision, EvaluationCount)
    requires moment { IsMoment moment }
    ensures decision { result.0 ≡ tick_decision core.now moment }
    ensures allowed { EntersAllowed core.now moment result.0 }
    ensures counts { (history : List Happening) → Represents core.now history → result.1.value ≡ evaluations_deciding core.now Tick moment }
{
    let (idle, count) = core.idle_tick_counted(moment);
    if idle {
        return (Decision::Idle, count);
    }
    let decision = Decision::Enter {
        event: Event {
            moment,
            act: Act::Tick,
        },
        reply: None,
        full: None,
    };
    (decision, count)
}

fn pump_decision(core: &Core, moment: u64) -> Decision
    requires moment { IsMoment moment }
    ensures decision { result ≡ pump_decision core.now moment }
    ensures allowed { EntersAllowed core.now moment result }
{
    if core.idle_pump(moment) {
        return Decision::Idle;
    }
    Decision::Enter {
        event: Event {
            moment,
            act: Act::Pump,
        },
        reply: None,
        full: None,
    }
}

/// What becomes of an input at a moment, and how many evaluations it took to decide that: a tick takes one where an object would
/// move, and nothing else any.
pub fn decide_counted(
    alloc: Global,
    core: &Core,
    input: &Input,
    moment: u64,
) -> (Result<Decision, NoMemory>, EvaluationCount)
    requires moment { IsMoment moment }
    ensures decision { IfOk result.0 (λ decision. decision ≡ decision_on core.now input.now moment) }
    ensures allowed { IfOk result.0 (EntersAllowed core.now moment) }
    ensures counts { (history : List Happening) → Represents core.now history → result.1.value ≡ evaluations_deciding core.now input.now moment }
{
    let none = none_counted();
    match input {
        Input::Tick => {
            let (told, count) = tick_decision(core, moment);
            (Ok(told), count)
        }
        Input::Pump => (Ok(pump_decision(core, moment)), none),
        Input::Set { object, value } => (set_decision(core, moment, *object, value), none),
        Input::Fault {
            object,
            reliability,
        } => (
            Ok(fault_decision(core, moment, *object, *reliability)),
            none,
        ),
        Input::Datagram { peer, bytes } => {
            (
                datagram_decision(alloc, core, moment, *peer, bytes.as_slice()),
                none,
            )
        }
    }
}

/// What becomes of an input at a moment, for those who don't ask how many evaluations it took to decide that.
pub fn decide(alloc: Global, core: &Core, input: &Input, moment: u64) -> Result<Decision, NoMemory>
    requires moment { IsMoment moment }
    ensures decision { IfOk result (λ decision. decision ≡ decision_on core.now input.now moment) }
    ensures allowed { IfOk result (EntersAllowed core.now moment) }
{
    let (decision, _count) = decide_counted(alloc, core, input, moment);
    decision
}
