//! An item of the section `object`.

ghost use Rattle.std.specs.Prelude.{◌≡◌, ◌≤◌, IfOk, codes};
ghost use Rattle.toml.specs.View.{table_view};
ghost use Rattle.object_table.specs.Objects.{IsObject};
ghost use Rattle.toml_items.specs.Answers.{Gives};
ghost use Rattle.toml_items.specs.Members.{required};
ghost use Rattle.site_config.specs.Objects.{keys_of_object, value_part_of, class_part_of, joined, object_of};
ghost use Rattle.site_config.specs.Values.{kind_in, present_in};

use crate::alarm_keys::{AlarmKeys, alarm_keys_of, no_alarm_keys};
use crate::fault_keys::{FaultKeys, fault_keys_of};
use crate::keys::Keys;
use crate::kind_keys::{KindKeys, kind_keys_of, no_kind_keys};
use crate::lists::present_in;
use crate::members::name_or;
use crate::objects::identifier;
use crate::values::{LAST_INSTANCE, kind_in};
use bac_values::{ObjectId, ObjectKind, Text, Value};
use object_table::ObjectSite;
use std::alloc::Global;
use toml::Table;
use toml_items::{
    ItemFault, member_at, optional_unsigned, required_member, truth_or, unsigned, valid_value,
};

/// Which keys the object of a table has.
pub fn keys_of_object(table: &Table) -> Keys
    ensures keys { result ≡ keys_of_object (table_view table.now) }
{
    let class = member_at(table, "class").is_some();
    match member_at(table, "kind") {
        Some(value) => Keys::Object {
            kind: kind_in(value),
            class,
        },
        None => Keys::Object { kind: None, class },
    }
}

/// What is said of an object before its class.
#[derive(Drop)]
pub struct ValuePart {
    /// Its kind.
    pub kind: ObjectKind,
    /// Its identifier.
    pub object: ObjectId,
    /// Its name.
    pub name: Text,
    /// Its value.
    pub value: Value,
    /// Out_Of_Service.
    pub out_of_service: bool,
    /// Reliability_Evaluation_Inhibit.
    pub reliability_inhibit: bool,
    /// What has to do with faults.
    pub faults: FaultKeys,
}

/// What is said of an object from its class on.
#[derive(Drop)]
pub struct ClassPart {
    /// Its class.
    pub class: Option<u32>,
    /// Its alarm keys.
    pub alarm: AlarmKeys,
    /// The alarm keys of its kind.
    pub kind: KindKeys,
}

/// The kind of an object.
fn kind(alloc: Global, table: &Table) -> Result<ObjectKind, ItemFault>
    ensures answer { Gives ItemFault.NoMemory result (required kind_in (codes "kind") (table_view table.now)) }
{
    let value = required_member(alloc, table, "kind")?;
    valid_value(alloc, "kind", kind_in(value))
}

/// The value of an object of a kind.
fn value(alloc: Global, table: &Table, kind: ObjectKind) -> Result<Value, ItemFault>
    ensures answer { Gives ItemFault.NoMemory result (required (present_in kind) (codes "value") (table_view table.now)) }
{
    let value = required_member(alloc, table, "value")?;
    let found = present_in(alloc, value, kind)?;
    valid_value(alloc, "value", found)
}

/// What is said before the class.
#[tactic(auto, unfolding(crate::specs::Objects::value_part_of))]
fn value_part_of(alloc: Global, table: &Table) -> Result<ValuePart, ItemFault>
    ensures answer { Gives ItemFault.NoMemory result (value_part_of (table_view table.now)) }
{
    let kind = kind(alloc, table)?;
    let instance = unsigned(alloc, table, "instance", 0, LAST_INSTANCE)?;
    let object = identifier(kind, instance);
    let name = name_or(alloc, table, object)?;
    let value = value(alloc, table, kind)?;
    let out_of_service = truth_or(alloc, table, "out_of_service", false)?;
    let reliability_inhibit = truth_or(alloc, table, "reliability_inhibit", false)?;
    let faults = fault_keys_of(alloc, table, kind, &value)?;
    Ok(ValuePart {
        kind,
        object,
        name,
        value,
        out_of_service,
        reliability_inhibit,
        faults,
    })
}

/// What is said from the class on.
#[tactic(auto, unfolding(crate::specs::Objects::class_part_of))]
fn class_part_of(alloc: Global, table: &Table, kind: ObjectKind) -> Result<ClassPart, ItemFault>
    ensures answer { Gives ItemFault.NoMemory result (class_part_of kind (table_view table.now)) }
{
    let class = optional_unsigned(alloc, table, "class", LAST_INSTANCE)?;
    if class.is_none() {
        return Ok(ClassPart {
            class,
            alarm: no_alarm_keys(alloc),
            kind: no_kind_keys(alloc),
        });
    }
    let alarm = alarm_keys_of(alloc, table)?;
    let kind = kind_keys_of(alloc, table, kind)?;
    Ok(ClassPart { class, alarm, kind })
}

/// The object of both parts.
fn joined(part: ValuePart, of_class: ClassPart) -> ObjectSite
    ensures object { result ≡ joined part of_class }
{
    let faults = part.faults;
    let alarm = of_class.alarm;
    let kind = of_class.kind;
    let enable = alarm.enable;
    let limit_enable = kind.limit_enable;
    ObjectSite {
        object: part.object,
        name: part.name,
        value: part.value,
        out_of_service: part.out_of_service,
        reliability_inhibit: part.reliability_inhibit,
        states: faults.states,
        fault_low: faults.fault_low,
        fault_high: faults.fault_high,
        fault_values: faults.fault_values,
        class: of_class.class,
        notify: alarm.notify,
        enable,
        time_delay: alarm.time_delay,
        time_delay_normal: alarm.time_delay_normal,
        detection: alarm.detection,
        inhibit: alarm.inhibit,
        inhibit_ref: alarm.inhibit_ref,
        texts: alarm.texts,
        low: kind.low,
        high: kind.high,
        deadband: kind.deadband,
        limit_enable,
        alarm_value: kind.alarm_value,
        alarm_values: kind.alarm_values,
        mask: kind.mask,
    }
}

/// The object of a table, whose keys are all known.
#[tactic(auto, unfolding(crate::specs::Objects::object_of))]
pub fn object_of(alloc: Global, table: &Table) -> Result<ObjectSite, ItemFault>
    ensures answer { Gives ItemFault.NoMemory result (object_of (table_view table.now)) }
{
    let value = value_part_of(alloc, table)?;
    let class = class_part_of(alloc, table, value.kind)?;
    Ok(joined(value, class))
}
