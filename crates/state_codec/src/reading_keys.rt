//! What only some kinds of objects have is read.

ghost use Rattle.std.specs.Prelude.{◌≡◌, ◌==◌, not};
ghost use Rattle.std.specs.Int.{w32};
ghost use Rattle.state_codec.specs.ReadingSteps.{Gives, flag_at, flags_at, last_at, number_at};
ghost use Rattle.state_codec.specs.SnapshotSteps.{alarm_value_of, are_clear, delay_at, is_none, keys_at, kept_at, limits_at, signed_at, two_flags_at, unsigned_at};

use crate::parts::{take_flag, take_flags, take_octet, take_u32};
use crate::reading::ReadFault;
use bac_values::{Bits, ObjectKind, Value};

/// Limits and the alarm value, of which each kind of value object has some or none.
#[derive(Drop)]
pub(crate) struct Keys {
    /// Low_Limit.
    pub(crate) low: i64,
    /// High_Limit.
    pub(crate) high: i64,
    /// Deadband.
    pub(crate) deadband: u32,
    /// Limit_Enable.
    pub(crate) limit_enable: [bool; 2],
    /// Alarm_Value.
    pub(crate) alarm_value: Option<Value>,
}

impl Keys {
    /// What an object has that has none of them.
    const NONE: Keys = Keys {
        low: 0,
        high: 0,
        deadband: 0,
        limit_enable: [false; 2],
        alarm_value: None,
    };
}

/// Whether no flag is set.
fn are_clear(flags: &[bool]) -> bool
    ensures clear { result ≡ are_clear flags.now }
{
    flags.iter().all(|flag| !*flag)
}

/// Takes a flag, which isn't set where it is to be absent.
pub(crate) fn take_kept_flag(has: bool, bytes: &mut &[u8]) -> Result<bool, ReadFault>
    ensures exact { Gives (λ x. (x, bytes.new.now)) result (kept_at has flag_at not bytes.old.now) }
{
    let flag = take_flag(bytes)?;
    if has || !flag {
        Ok(flag)
    } else {
        Err(ReadFault::NothingThere)
    }
}

/// Takes three flags, none of which is set where they are to be absent.
pub(crate) fn take_kept_flags(has: bool, bytes: &mut &[u8]) -> Result<[bool; 3], ReadFault>
    ensures exact { Gives (λ x. (x, bytes.new.now)) result (kept_at has flags_at are_clear bytes.old.now) }
{
    let flags = take_flags(bytes)?;
    if has || are_clear(&flags) {
        Ok(flags)
    } else {
        Err(ReadFault::NothingThere)
    }
}

/// Takes a number of four octets, which is 0 where it is to be absent.
pub(crate) fn take_kept_number(has: bool, bytes: &mut &[u8]) -> Result<u32, ReadFault>
    ensures exact { Gives (λ x. (x, bytes.new.now)) result (kept_at has (number_at w32) (λ number. number == 0) bytes.old.now) }
{
    let number = take_u32(bytes)?;
    if has || number == 0 {
        Ok(number)
    } else {
        Err(ReadFault::NothingThere)
    }
}

/// Takes two flags, the first one in the lowest bit.
#[tactic(auto, unfolding(crate::specs::SnapshotSteps::two_flags_at))]
fn take_two_flags(bytes: &mut &[u8]) -> Result<[bool; 2], ReadFault>
    ensures exact { Gives (λ x. (x, bytes.new.now)) result (two_flags_at bytes.old.now) }
{
    let octet = take_octet(bytes)?;
    match Bits::new(2, u64::from(octet)) {
        Ok(bits) => Ok(bits.two_flags()),
        Err(_) => Err(ReadFault::NothingThere),
    }
}

/// Takes two flags, none of which is set where they are to be absent.
fn take_kept_two(has: bool, bytes: &mut &[u8]) -> Result<[bool; 2], ReadFault>
    ensures exact { Gives (λ x. (x, bytes.new.now)) result (kept_at has two_flags_at are_clear bytes.old.now) }
{
    let flags = take_two_flags(bytes)?;
    if has || are_clear(&flags) {
        Ok(flags)
    } else {
        Err(ReadFault::NothingThere)
    }
}

/// Takes a limit with a sign, which is 0 where it is to be absent.
#[tactic(auto, unfolding(crate::specs::SnapshotSteps::signed_at))]
fn take_signed(has: bool, bytes: &mut &[u8]) -> Result<i64, ReadFault>
    ensures exact { Gives (λ x. (x, bytes.new.now)) result (kept_at has signed_at is_none bytes.old.now) }
{
    let number = i64::from(take_u32(bytes)?.cast_signed());
    if has || number == 0 {
        Ok(number)
    } else {
        Err(ReadFault::NothingThere)
    }
}

/// Takes a limit without a sign, which is 0 where it is to be absent.
#[tactic(auto, unfolding(crate::specs::SnapshotSteps::unsigned_at))]
fn take_unsigned(has: bool, bytes: &mut &[u8]) -> Result<i64, ReadFault>
    ensures exact { Gives (λ x. (x, bytes.new.now)) result (kept_at has unsigned_at is_none bytes.old.now) }
{
    let number = i64::from(take_u32(bytes)?);
    if has || number == 0 {
        Ok(number)
    } else {
        Err(ReadFault::NothingThere)
    }
}

/// Takes the limits of an integer value.
#[tactic(auto, unfolding(crate::specs::SnapshotSteps::limits_at))]
fn take_signed_limits(has: bool, bytes: &mut &[u8]) -> Result<Keys, ReadFault>
    ensures exact { Gives (λ x. (x, bytes.new.now)) result (limits_at signed_at has bytes.old.now) }
{
    let high = take_signed(has, bytes)?;
    let low = take_signed(has, bytes)?;
    let deadband = take_kept_number(has, bytes)?;
    let limit_enable = take_kept_two(has, bytes)?;
    Ok(Keys {
        low,
        high,
        deadband,
        limit_enable,
        alarm_value: None,
    })
}

/// Takes the limits of a positive integer value.
#[tactic(auto, unfolding(crate::specs::SnapshotSteps::limits_at))]
fn take_unsigned_limits(has: bool, bytes: &mut &[u8]) -> Result<Keys, ReadFault>
    ensures exact { Gives (λ x. (x, bytes.new.now)) result (limits_at unsigned_at has bytes.old.now) }
{
    let high = take_unsigned(has, bytes)?;
    let low = take_unsigned(has, bytes)?;
    let deadband = take_kept_number(has, bytes)?;
    let limit_enable = take_kept_two(has, bytes)?;
    Ok(Keys {
        low,
        high,
        deadband,
        limit_enable,
        alarm_value: None,
    })
}

/// Takes the alarm value of a binary value: inactive or active, and 0 where it is to be absent.
fn take_alarm_value(has: bool, bytes: &mut &[u8]) -> Result<Keys, ReadFault>
    ensures exact { Gives (λ x. (x, bytes.new.now)) result (last_at (number_at w32) (alarm_value_of has) bytes.old.now) }
{
    let number = take_u32(bytes)?;
    match (has, number) {
        (true, 0 | 1) => Ok(Keys {
            alarm_value: Some(Value::Enumerated(number)),
            ..Keys::NONE
        }),
        (false, 0) => Ok(Keys::NONE),
        _ => Err(ReadFault::NothingThere),
    }
}

/// Takes what only some kinds of value objects have.
#[tactic(auto, unfolding(crate::specs::SnapshotSteps::keys_at))]
pub(crate) fn take_keys(
    kind: Option<ObjectKind>,
    has: bool,
    bytes: &mut &[u8],
) -> Result<Keys, ReadFault>
    ensures exact { Gives (λ x. (x, bytes.new.now)) result (keys_at kind has bytes.old.now) }
{
    match kind {
        Some(ObjectKind::IntegerValue) => take_signed_limits(has, bytes),
        Some(ObjectKind::PositiveIntegerValue) => take_unsigned_limits(has, bytes),
        Some(ObjectKind::BinaryValue) => take_alarm_value(has, bytes),
        _ => Ok(Keys::NONE),
    }
}

/// Takes Time_Delay_Normal, which is there where it is to be.
#[tactic(auto, unfolding(crate::specs::SnapshotSteps::delay_at))]
pub(crate) fn take_delay(has: bool, bytes: &mut &[u8]) -> Result<Option<u32>, ReadFault>
    ensures exact { Gives (λ x. (x, bytes.new.now)) result (delay_at has bytes.old.now) }
{
    let flag = take_flag(bytes)?;
    let seconds = take_u32(bytes)?;
    match (has, flag, seconds) {
        (true, true, seconds) => Ok(Some(seconds)),
        (false, false, 0) => Ok(None),
        _ => Err(ReadFault::NothingThere),
    }
}
