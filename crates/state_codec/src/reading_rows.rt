//! The rows of value objects are read.

ghost use Rattle.state_codec.specs.ReadingSteps.{Gives, octet_at};
ghost use Rattle.object_table.specs.Values.{is_field_fault};
ghost use Rattle.std.specs.Prelude.{◌≡◌};
ghost use Rattle.state_codec.specs.SnapshotSteps.{detecting_with, detection_at, detection_data, has_inhibit, present_at, row_at, row_with, settings_at, settings_data, where_at};

use crate::parts::{take_flag, take_octet};
use crate::reading::ReadFault;
use crate::reading_keys::{
    Keys, take_delay, take_kept_flag, take_kept_flags, take_kept_number, take_keys,
};
use crate::value::take_value;
use bac_values::Value;
use object_table::{ObjectSite, Row, is_field_fault, is_present_value};
use std::alloc::Global;

/// Takes the present value of an object, where it is one that a write of it takes.
#[tactic(auto, unfolding(crate::specs::SnapshotSteps::present_at))]
fn take_present(alloc: Global, site: &ObjectSite, bytes: &mut &[u8]) -> Result<Value, ReadFault>
    ensures exact { Gives (λ x. (x, bytes.new.now)) result (present_at site.now bytes.old.now) }
{
    let value = take_value(alloc, bytes)?;
    if is_present_value(site.object.kind(), site, &value) {
        Ok(value)
    } else {
        Err(ReadFault::NothingThere)
    }
}

/// Takes the number of the reliability of what gives an object its value.
fn take_field_fault(bytes: &mut &[u8]) -> Result<u8, ReadFault>
    ensures exact { Gives (λ x. (x, bytes.new.now)) result (where_at octet_at is_field_fault bytes.old.now) }
{
    let number = take_octet(bytes)?;
    if is_field_fault(u32::from(number)) {
        Ok(number)
    } else {
        Err(ReadFault::NothingThere)
    }
}

/// What is kept of an object's detection beside what its site says.
#[derive(Drop)]
struct Detection {
    enable: [bool; 3],
    time_delay: u32,
    time_delay_normal: Option<u32>,
    keys: Keys,
}

/// What a row has beside what its site says.
#[derive(Drop)]
struct Settings {
    value: Value,
    out_of_service: bool,
    inhibit: bool,
    reliability_inhibit: bool,
    field_fault: u8,
    detection: Detection,
}

/// Takes Event_Enable, the delays and what only some kinds have.
#[tactic(auto, unfolding(crate::specs::SnapshotSteps::detection_at))]
fn take_detection(site: &ObjectSite, bytes: &mut &[u8]) -> Result<Detection, ReadFault>
    ensures exact { Gives (λ x. (detection_data x, bytes.new.now)) result (detection_at site.now bytes.old.now) }
{
    let has = site.class.is_some();
    let enable = take_kept_flags(has, bytes)?;
    let time_delay = take_kept_number(has, bytes)?;
    let time_delay_normal = take_delay(site.time_delay_normal.is_some(), bytes)?;
    let keys = take_keys(site.object.kind(), has, bytes)?;
    Ok(Detection {
        enable,
        time_delay,
        time_delay_normal,
        keys,
    })
}

/// Whether an object has an Event_Algorithm_Inhibit of its own.
fn has_inhibit(site: &ObjectSite) -> bool
    ensures has { result ≡ has_inhibit site.now }
{
    site.class.is_some() && site.inhibit_ref.is_none()
}

/// Takes what the row of an object has beside what its site says.
#[tactic(auto, unfolding(crate::specs::SnapshotSteps::settings_at))]
fn take_settings(alloc: Global, site: &ObjectSite, bytes: &mut &[u8]) -> Result<Settings, ReadFault>
    ensures exact { Gives (λ x. (settings_data x, bytes.new.now)) result (settings_at site.now bytes.old.now) }
{
    let value = take_present(alloc, site, bytes)?;
    let out_of_service = take_flag(bytes)?;
    let inhibit = take_kept_flag(has_inhibit(site), bytes)?;
    let reliability_inhibit = take_flag(bytes)?;
    let field_fault = take_field_fault(bytes)?;
    let detection = take_detection(site, bytes)?;
    Ok(Settings {
        value,
        out_of_service,
        inhibit,
        reliability_inhibit,
        field_fault,
        detection,
    })
}

/// An object with what is kept of its detection.
fn with_detection(mut site: ObjectSite, detection: Detection) -> ObjectSite
    ensures made { result ≡ detecting_with site (detection_data detection) }
{
    let Detection {
        enable,
        time_delay,
        time_delay_normal,
        keys,
    } = detection;
    let Keys {
        low,
        high,
        deadband,
        limit_enable,
        alarm_value,
    } = keys;
    site.enable = enable;
    site.time_delay = time_delay;
    site.time_delay_normal = time_delay_normal;
    site.low = low;
    site.high = high;
    site.deadband = deadband;
    site.limit_enable = limit_enable;
    site.alarm_value = alarm_value;
    site
}

/// The row of an object with what was read.
fn row_with(site: ObjectSite, settings: Settings) -> Row
    ensures made { result ≡ row_with site (settings_data settings) }
{
    let Settings {
        value,
        out_of_service,
        inhibit,
        reliability_inhibit,
        field_fault,
        detection,
    } = settings;
    let mut site = with_detection(site, detection);
    site.value = value;
    site.out_of_service = out_of_service;
    site.inhibit = inhibit;
    site.reliability_inhibit = reliability_inhibit;
    Row { site, field_fault }
}

/// Takes the row of an object of a site.
#[tactic(auto, unfolding(crate::specs::SnapshotSteps::row_at))]
pub(crate) fn take_row(alloc: Global, site: ObjectSite, bytes: &mut &[u8]) -> Result<Row, ReadFault>
    ensures exact { Gives (λ x. (x, bytes.new.now)) result (row_at site bytes.old.now) }
{
    let settings = take_settings(alloc, &site, bytes)?;
    Ok(row_with(site, settings))
}
