//! Value objects with which tests begin.

ghost use Rattle.std.specs.Prelude.{◌≡◌, ◌≤◌, [], IfOk, None, Some};
ghost use Rattle.bac_values.specs.Identifier.{number_of_kind};
ghost use Rattle.bac_values.specs.declared.object_kind.ObjectKind.TheVariants.{BinaryValue, IntegerValue, PositiveIntegerValue};
ghost use Rattle.object_table.specs.Objects.{IsObject, LacksAlarmKeys};

use bac_values::{Items, ObjectId, ObjectKind, Text, Value};
use object_table::ObjectSite;
use std::alloc::Global;
use std::test::Fail;

/// An object with a value, and without a class, fault limits and fault values.
pub fn plain(alloc: Global, object: ObjectId, name: Text, value: Value) -> ObjectSite
    ensures object { result.object ≡ object }
    ensures value { result.value ≡ value }
    ensures states { result.states ≡ 0 }
    ensures fault_low { result.fault_low ≡ None }
    ensures fault_high { result.fault_high ≡ None }
    ensures fault_values { result.fault_values ≡ [] }
    ensures class { result.class ≡ None }
    ensures keys { LacksAlarmKeys result }
{
    ObjectSite {
        object,
        name,
        value,
        out_of_service: false,
        reliability_inhibit: false,
        states: 0,
        fault_low: None,
        fault_high: None,
        fault_values: Items::of(Vec::new(alloc)),
        class: None,
        notify: 0,
        enable: [false, false, false],
        time_delay: 0,
        time_delay_normal: None,
        detection: false,
        inhibit: false,
        inhibit_ref: None,
        texts: Items::of(Vec::new(alloc)),
        low: 0,
        high: 0,
        deadband: 0,
        limit_enable: [false, false],
        alarm_value: None,
        alarm_values: Items::of(Vec::new(alloc)),
        mask: None,
    }
}

/// Character string value 1, whose text is `ok`, without a class.
pub fn label(alloc: Global) -> Result<ObjectSite, Fail>
    ensures object { IfOk result (λ site. IsObject site) }
{
    let object = ObjectId::of_kind(ObjectKind::CharacterStringValue, 1)?;
    let name = Text::new(alloc, "Label")?;
    let value = Value::Text(Text::new(alloc, "ok")?);
    Ok(plain(alloc, object, name, value))
}

/// An integer value without a class.
pub fn level(alloc: Global, instance: u32, number: i32) -> Result<ObjectSite, Fail>
    requires instance { instance ≤ 4194302 }
    ensures object { IfOk result (λ site. IsObject site) }
    ensures identifier { IfOk result (λ site. site.object ≡ record { number = number_of_kind IntegerValue; instance = instance }) }
    ensures class { IfOk result (λ site. site.class ≡ None) }
{
    let object = ObjectId::of_kind(ObjectKind::IntegerValue, instance)?;
    let name = Text::new(alloc, "Level")?;
    Ok(plain(alloc, object, name, Value::Signed(number)))
}

/// Positive integer value 1: 90, of class 7, with limits 40 and 60, of which the low one is enabled, and two delays.
pub fn flow(alloc: Global) -> Result<ObjectSite, Fail>
    ensures object { IfOk result (λ site. IsObject site) }
    ensures identifier { IfOk result (λ site. site.object ≡ record { number = number_of_kind PositiveIntegerValue; instance = 1 }) }
    ensures class { IfOk result (λ site. site.class ≡ Some 7) }
{
    let object = ObjectId::of_kind(ObjectKind::PositiveIntegerValue, 1)?;
    let name = Text::new(alloc, "Flow")?;
    let mut site = plain(alloc, object, name, Value::Unsigned(90));
    site.class = Some(7);
    site.enable = [true; 3];
    site.time_delay = 10;
    site.time_delay_normal = Some(20);
    site.detection = true;
    site.low = 40;
    site.high = 60;
    site.deadband = 5;
    site.limit_enable = [true, false];
    Ok(site)
}

/// An integer value: 50, of a class, with limits 20 and 80, and a delay in seconds.
pub fn tank(alloc: Global, instance: u32, class: u32, time_delay: u32) -> Result<ObjectSite, Fail>
    requires instance { instance ≤ 4194302 }
    ensures object { IfOk result (λ site. IsObject site) }
    ensures identifier { IfOk result (λ site. site.object ≡ record { number = number_of_kind IntegerValue; instance = instance }) }
    ensures class { IfOk result (λ site. site.class ≡ Some class) }
{
    let object = ObjectId::of_kind(ObjectKind::IntegerValue, instance)?;
    let name = Text::new(alloc, "Tank")?;
    let mut site = plain(alloc, object, name, Value::Signed(50));
    site.class = Some(class);
    site.enable = [true; 3];
    site.time_delay = time_delay;
    site.detection = true;
    site.low = 20;
    site.high = 80;
    site.deadband = 5;
    site.limit_enable = [true; 2];
    Ok(site)
}

/// Binary value 1: 0 is inactive, 1 is active. It has no class.
pub fn mode(alloc: Global, number: u32) -> Result<ObjectSite, Fail>
    requires value { number ≤ 1 }
    ensures object { IfOk result (λ site. IsObject site) }
    ensures identifier { IfOk result (λ site. site.object ≡ record { number = number_of_kind BinaryValue; instance = 1 }) }
    ensures class { IfOk result (λ site. site.class ≡ None) }
{
    let object = ObjectId::of_kind(ObjectKind::BinaryValue, 1)?;
    let name = Text::new(alloc, "Mode")?;
    Ok(plain(alloc, object, name, Value::Enumerated(number)))
}

/// Binary value 2 of class 7: a door, which is in alarm while it is active. Binary value 1 inhibits it, and it has three
/// texts, of which that for TO_FAULT is empty.
pub fn door(alloc: Global) -> Result<ObjectSite, Fail>
    ensures object { IfOk result (λ site. IsObject site) }
    ensures identifier { IfOk result (λ site. site.object ≡ record { number = number_of_kind BinaryValue; instance = 2 }) }
    ensures class { IfOk result (λ site. site.class ≡ Some 7) }
{
    let object = ObjectId::of_kind(ObjectKind::BinaryValue, 2)?;
    let name = Text::new(alloc, "Door")?;
    let mode = ObjectId::of_kind(ObjectKind::BinaryValue, 1)?;
    let opened = Text::new(alloc, "The door is open")?;
    let unknown = Text::new(alloc, "")?;
    let closed = Text::new(alloc, "The door is closed")?;
    let mut site = plain(alloc, object, name, Value::Enumerated(0));
    site.class = Some(7);
    site.enable = [true; 3];
    site.detection = true;
    site.inhibit_ref = Some(mode);
    site.texts = Items::of(vec![in alloc; opened, unknown, closed]?);
    site.alarm_value = Some(Value::Enumerated(1));
    Ok(site)
}
