//! The section `device`.

ghost use Rattle.toml.specs.View.{table_view, view};
ghost use Rattle.std.specs.Prelude.{◌≡◌, IfOk, pos, neg_ℤ, codes, option_map};
ghost use Rattle.std.specs.Char.{is_ascii};
ghost use Rattle.std.specs.List.{list_all};
ghost use Rattle.toml.specs.Data.{get_member};
ghost use Rattle.bac_values.specs.Moments.{IsMoment};
ghost use Rattle.civil_stamp.specs.LocalTime.{IsZone};
ghost use Rattle.toml_items.specs.Answers.{Gives};
ghost use Rattle.toml_items.specs.Members.{optional, or_else};
ghost use Rattle.toml_items.specs.Values.{unsigned_in, whole_in};
ghost use Rattle.site_config.specs.Devices.{device_of, is_short_ascii, zone_rule_beside, zone_rule_of};
ghost use Rattle.alarm_core.specs.Sites.{is_zone_rule};

use crate::members::name_or;
use crate::objects::identifier;
use crate::values::LAST_INSTANCE;
use alarm_core::DeviceSite;
use bac_values::{LEAST_OUTBOX, MOST_OUTBOX, NoMemory, ObjectKind, Text};
use civil_stamp::{Zone, ZoneFault};
use std::alloc::Global;
use toml::{Table, Value};
use toml_items::{
    ItemFault, member_at, moment, text_in, truth_or, unsigned, unsigned_or, valid_value,
    whole_or_zero,
};

/// Vendor_Identifier.
fn vendor(alloc: Global, table: &Table) -> Result<u16, ItemFault>
    ensures answer { Gives ItemFault.NoMemory result (or_else 0 (unsigned_in 0 65535) (codes "vendor") (table_view table.now)) }
{
    let vendor = unsigned_or(alloc, table, "vendor", 0, 65_535, 0)?;
    Ok(vendor as u16)
}

/// How many minutes the local time is ahead of UTC.
fn zone_minutes(alloc: Global, table: &Table) -> Result<i16, ItemFault>
    ensures answer { Gives ItemFault.NoMemory result (or_else (pos 0) (whole_in (neg_ℤ (pos 840)) (pos 840)) (codes "zone_minutes") (table_view table.now)) }
    ensures zone { IfOk result IsZone }
{
    let minutes = whole_or_zero(alloc, table, "zone_minutes", -840, 840)?;
    Ok(minutes as i16)
}

/// Whether all octets of a text are ASCII.
fn are_ascii(text: &[u8]) -> bool
    ensures ascii { result ≡ list_all is_ascii text.now }
{
    text.iter().all(|octet| octet.is_ascii())
}

/// Whether a text has from 1 to 64 octets, all of them ASCII.
fn is_short_ascii(text: &[u8]) -> bool
    ensures short { result ≡ is_short_ascii text.now }
{
    1 <= text.len() && text.len() <= 64 && are_ascii(text)
}

/// Whether a text may be a site's zone rule.
fn is_zone_rule(text: &str) -> Result<bool, NoMemory>
    ensures rule { IfOk result (λ is_rule. is_rule ≡ is_zone_rule text.now) }
{
    if !is_short_ascii(text.as_bytes()) {
        return Ok(false);
    }
    match Zone::rule(text) {
        Ok(_) => Ok(true),
        Err(ZoneFault::NotARule) => Ok(false),
        Err(ZoneFault::NoMemory) => Err(NoMemory),
    }
}

/// The zone rule that a text is.
fn zone_rule_of(text: Text) -> Result<Option<Text>, NoMemory>
    ensures rule { IfOk result (λ found. found ≡ zone_rule_of text) }
{
    if is_zone_rule(text.as_str())? {
        Ok(Some(text))
    } else {
        Ok(None)
    }
}

/// The zone rule that a value is, where there are no minutes beside it.
fn zone_rule_beside(
    alloc: Global,
    minutes: Option<&Value>,
    value: &Value,
) -> Result<Option<Text>, NoMemory>
    ensures rule { IfOk result (λ found. found ≡ zone_rule_beside (option_map (λ v. view v.now) minutes.entry) (view value.now)) }
{
    if minutes.is_some() {
        return Ok(None);
    }
    match text_in(alloc, value)? {
        Some(text) => zone_rule_of(text),
        None => Ok(None),
    }
}

/// By which rule the local time stands to UTC, if it goes by one.
fn zone_rule(alloc: Global, table: &Table) -> Result<Option<Text>, ItemFault>
    ensures answer { let ms = table_view table.now in Gives ItemFault.NoMemory result (optional (zone_rule_beside (get_member (codes "zone_minutes") ms)) (codes "zone_rule") ms) }
{
    let Some(value) = member_at(table, "zone_rule") else {
        return Ok(None);
    };
    let rule = zone_rule_beside(alloc, member_at(table, "zone_minutes"), value)?;
    Ok(Some(valid_value(alloc, "zone_rule", rule)?))
}

/// Number_Of_APDU_Retries.
fn retries(alloc: Global, table: &Table) -> Result<u8, ItemFault>
    ensures answer { Gives ItemFault.NoMemory result (or_else 3 (unsigned_in 0 15) (codes "retries") (table_view table.now)) }
{
    let retries = unsigned_or(alloc, table, "retries", 0, 15, 3)?;
    Ok(retries as u8)
}

/// The device of a table, whose keys are all known.
#[tactic(auto, unfolding(crate::specs::Devices::device_of))]
pub fn device_of(alloc: Global, table: &Table) -> Result<DeviceSite, ItemFault>
    ensures answer { Gives ItemFault.NoMemory result (device_of (table_view table.now)) }
    ensures start { IfOk result (λ device. IsMoment device.start) }
    ensures zone { IfOk result (λ device. IsZone device.zone_minutes) }
{
    let instance = unsigned(alloc, table, "instance", 0, LAST_INSTANCE)?;
    let name = name_or(alloc, table, identifier(ObjectKind::Device, instance))?;
    let vendor = vendor(alloc, table)?;
    let start = moment(alloc, table, "start")?;
    let zone_minutes = zone_minutes(alloc, table)?;
    let zone_rule = zone_rule(alloc, table)?;
    let apdu_timeout = unsigned_or(alloc, table, "apdu_timeout", 1, 3_600_000, 3_000)?;
    let retries = retries(alloc, table)?;
    let outbox = unsigned_or(alloc, table, "outbox", LEAST_OUTBOX, MOST_OUTBOX, 256)?;
    let flush_silent = truth_or(alloc, table, "flush_silent", false)?;
    Ok(DeviceSite {
        instance,
        name,
        vendor,
        start,
        zone_minutes,
        zone_rule,
        apdu_timeout,
        retries,
        outbox,
        flush_silent,
    })
}
