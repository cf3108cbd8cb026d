//! Value objects and changes are copied.

ghost use Rattle.std.specs.Prelude.{◌≡◌, IfOk};

use crate::{Change, ObjectSite};
use bac_values::{Items, NoMemory, Text, Value, push};
use std::alloc::Global;

/// The same change once more.
pub fn copy_of_change(change: &Change) -> Result<Change, NoMemory>
    ensures same { IfOk result (λ copy. copy ≡ change.now) }
{
    Ok(change.clone()?)
}

fn copy_of_value(value: &Value) -> Result<Value, NoMemory>
    ensures same { IfOk result (λ copy. copy ≡ value.now) }
{
    Ok(value.clone()?)
}

fn copy_of_optional(value: &Option<Value>) -> Result<Option<Value>, NoMemory>
    ensures same { IfOk result (λ copy. copy ≡ value.now) }
{
    Ok(value.clone()?)
}

fn copy_of_values(alloc: Global, values: &[Value]) -> Result<Items<Value>, NoMemory>
    ensures same { IfOk result (λ copy. copy ≡ values.now) }
{
    let mut copy = Vec::new(alloc);
    for value in values {
        push(&mut copy, copy_of_value(value)?)?;
    }
    Ok(Items::of(copy))
}

fn copy_of_text(text: &Text) -> Result<Text, NoMemory>
    ensures same { IfOk result (λ copy. copy ≡ text.now) }
{
    Ok(text.clone()?)
}

/// The same texts once more.
pub fn copy_of_texts(alloc: Global, texts: &[Text]) -> Result<Items<Text>, NoMemory>
    ensures same { IfOk result (λ copy. copy ≡ texts.now) }
{
    let mut copy = Vec::new(alloc);
    for text in texts {
        push(&mut copy, copy_of_text(text)?)?;
    }
    Ok(Items::of(copy))
}

fn copy_of_object(alloc: Global, site: &ObjectSite) -> Result<ObjectSite, NoMemory>
    ensures same { IfOk result (λ copy. copy ≡ site.now) }
{
    let name = site.name.clone()?;
    let value = copy_of_value(&site.value)?;
    let fault_values = copy_of_values(alloc, site.fault_values.as_slice())?;
    let texts = copy_of_texts(alloc, site.texts.as_slice())?;
    let alarm_value = copy_of_optional(&site.alarm_value)?;
    let alarm_values = copy_of_values(alloc, site.alarm_values.as_slice())?;
    Ok(ObjectSite {
        object: site.object,
        name,
        value,
        out_of_service: site.out_of_service,
        reliability_inhibit: site.reliability_inhibit,
        states: site.states,
        fault_low: site.fault_low,
        fault_high: site.fault_high,
        fault_values,
        class: site.class,
        notify: site.notify,
        enable: site.enable,
        time_delay: site.time_delay,
        time_delay_normal: site.time_delay_normal,
        detection: site.detection,
        inhibit: site.inhibit,
        inhibit_ref: site.inhibit_ref,
        texts,
        low: site.low,
        high: site.high,
        deadband: site.deadband,
        limit_enable: site.limit_enable,
        alarm_value,
        alarm_values,
        mask: site.mask,
    })
}

/// The same objects once more.
pub fn copy_of_objects(alloc: Global, sites: &[ObjectSite]) -> Result<Vec<ObjectSite>, NoMemory>
    ensures same { IfOk result (λ copy. copy.items ≡ sites.now) }
{
    let mut copy = Vec::new(alloc);
    for site in sites {
        push(&mut copy, copy_of_object(alloc, site)?)?;
    }
    Ok(copy)
}
