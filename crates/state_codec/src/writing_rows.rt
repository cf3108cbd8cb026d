//! The rows of value objects in octets.
ghost use Rattle.std.specs.Prelude.{◌≡◌, ◌++◌, All, OnOk};
ghost use Rattle.std.specs.Int.{cast_unsigned, to_be_bytes, w32};
ghost use Rattle.std.specs.List.{flat_map};
ghost use Rattle.bac_values.specs.Identifier.{kind_of};
ghost use Rattle.object_table.specs.Objects.{IsRow};
ghost use Rattle.state_codec.specs.Records.{written_flags};
ghost use Rattle.state_codec.specs.Snapshots.{number_of, written_delay, written_keys, written_limits, written_row};
ghost use Rattle.state_codec.specs.WritingSteps.{AreLimits, IsLimit, written_settings};

use crate::writing::{put_flag, put_flags, put_value, put_word};
use bac_values::{NoMemory, ObjectKind, Value, push};
use object_table::{ObjectSite, Row};

/// Appends Time_Delay_Normal, and before it whether the object has it.
fn put_delay(out: &mut Vec<u8>, delay: Option<u32>) -> Result<(), NoMemory>
    ensures written { OnOk result (out.new.items ≡ out.old.items ++ written_delay delay) }
{
    match delay {
        Some(seconds) => {
            put_flag(out, true)?;
            put_word(out, seconds)
        }
        None => {
            put_flag(out, false)?;
            put_word(out, 0)
        }
    }
}

/// A limit as a number of 32 bits, in two's complement where it is below 0.
fn limit_word(limit: &i64) -> u32
    requires fits { IsLimit limit.now }
    ensures word { result ≡ cast_unsigned w32 limit.now }
{
    let limit = *limit;
    if limit < 0 {
        (limit as i32).cast_unsigned()
    } else {
        limit as u32
    }
}

/// Appends a limit.
fn put_limit(out: &mut Vec<u8>, limit: &i64) -> Result<(), NoMemory>
    requires fits { IsLimit limit.now }
    ensures written { OnOk result (out.new.items ≡ out.old.items ++ to_be_bytes w32 (cast_unsigned w32 limit.now)) }
{
    put_word(out, limit_word(limit))
}

/// Appends two flags in one octet, the first one in the lowest bit.
fn put_two_flags(out: &mut Vec<u8>, flags: &[bool; 2]) -> Result<(), NoMemory>
    ensures written { OnOk result (out.new.items ≡ out.old.items ++ written_flags flags.now) }
{
    let [first, second] = *flags;
    push(out, u8::from(first) + 2 * u8::from(second))
}

/// Appends the limits of an integer or a positive integer value.
fn put_limits(out: &mut Vec<u8>, site: &ObjectSite) -> Result<(), NoMemory>
    requires limits { AreLimits site.now }
    ensures written { OnOk result (out.new.items ≡ out.old.items ++ written_limits site.now) }
{
    put_limit(out, &site.high)?;
    put_limit(out, &site.low)?;
    put_word(out, site.deadband)?;
    put_two_flags(out, &site.limit_enable)
}

/// The number of an alarm value, 0 where there is none.
fn number_of(value: &Option<Value>) -> u32
    ensures number { result ≡ number_of value.now }
{
    match value {
        Some(Value::Enumerated(number)) => *number,
        _ => 0,
    }
}

/// Appends what only some kinds of objects have.
fn put_keys(out: &mut Vec<u8>, site: &ObjectSite) -> Result<(), NoMemory>
    requires limits { AreLimits site.now }
    ensures written { OnOk result (out.new.items ≡ out.old.items ++ written_keys (kind_of site.now.object.number) site.now) }
{
    match site.object.kind() {
        Some(ObjectKind::IntegerValue | ObjectKind::PositiveIntegerValue) => put_limits(out, site),
        Some(ObjectKind::BinaryValue) => put_word(out, number_of(&site.alarm_value)),
        _ => Ok(()),
    }
}

/// Appends the settings that every value object has: between its value and Time_Delay_Normal.
fn put_settings(out: &mut Vec<u8>, row: &Row) -> Result<(), NoMemory>
    ensures written { OnOk result (out.new.items ≡ out.old.items ++ written_settings row.now) }
{
    let site = &row.site;
    put_flag(out, site.out_of_service)?;
    put_flag(out, site.inhibit)?;
    put_flag(out, site.reliability_inhibit)?;
    push(out, row.field_fault)?;
    put_flags(out, &site.enable)?;
    put_word(out, site.time_delay)
}

/// Appends the row of a value object.
fn put_row(out: &mut Vec<u8>, row: &Row) -> Result<(), NoMemory>
    requires row { IsRow row.now }
    ensures written { OnOk result (out.new.items ≡ out.old.items ++ written_row row.now) }
{
    put_value(out, &row.site.value)?;
    put_settings(out, row)?;
    put_delay(out, row.site.time_delay_normal)?;
    put_keys(out, &row.site)
}

/// Appends rows, one behind the other.
pub(crate) fn put_rows(out: &mut Vec<u8>, rows: &[Row]) -> Result<(), NoMemory>
    requires rows { All IsRow rows.now }
    ensures written { OnOk result (out.new.items ≡ out.old.items ++ flat_map written_row rows.now) }
{
    for row in rows {
        put_row(out, row)?;
    }
    Ok(())
}
