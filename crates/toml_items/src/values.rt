//! Values that are numbers, texts and truths.

ghost use Rattle.std.specs.Prelude.{◌≡◌, ◌≤◌, ◌<◌, ◌≤ℤ◌, IfSome, IfOk, length};
ghost use Rattle.toml.specs.View.{view};
ghost use Rattle.bac_values.specs.Moments.{IsMoment};
ghost use Rattle.toml_items.specs.Values.{whole_in, unsigned_in, moment_in, text_in, flag_of, three_flags, three_flags_in, two_flags, two_flags_in, two_digits, hundredths, time_of, time_in};

use bac_values::{FIRST_MOMENT, LAST_MOMENT, NoMemory, Text, TextFault};
use std::alloc::Global;
use toml::Value;

/// The whole number that a value is, from the least to the most.
pub fn whole_in(value: &Value, least: i64, most: i64) -> Option<i64>
    ensures number { result ≡ whole_in least most (view value.now) }
    ensures range { IfSome result (λ n. (least ≤ℤ n) × (n ≤ℤ most)) }
{
    let number = value.as_integer()?;
    if least <= number && number <= most {
        Some(number)
    } else {
        None
    }
}

/// The same without a sign.
pub fn unsigned_in(value: &Value, least: u32, most: u32) -> Option<u32>
    ensures number { result ≡ unsigned_in least most (view value.now) }
    ensures range { IfSome result (λ n. (least ≤ n) × (n ≤ most)) }
{
    let number = whole_in(value, i64::from(least), i64::from(most))?;
    Some(number as u32)
}

/// The moment that a value is.
pub fn moment_in(value: &Value) -> Option<u64>
    ensures moment { result ≡ moment_in (view value.now) }
    ensures range { IfSome result IsMoment }
{
    let number = whole_in(value, FIRST_MOMENT as i64, LAST_MOMENT as i64)?;
    Some(number as u64)
}

/// The text that a value is, of at most 256 octets.
pub fn text_in(alloc: Global, value: &Value) -> Result<Option<Text>, NoMemory>
    ensures text { IfOk result (λ found. found ≡ text_in (view value.now)) }
{
    let Some(source) = value.as_str() else {
        return Ok(None);
    };
    match Text::new(alloc, source) {
        Ok(text) => Ok(Some(text)),
        Err(TextFault::TooLong { .. }) => Ok(None),
        Err(TextFault::NoMemory) => Err(NoMemory),
    }
}

/// The flag that a digit is.
fn flag(digit: u8) -> Option<bool>
    ensures flag { result ≡ flag_of digit }
{
    match digit {
        b'0' => Some(false),
        b'1' => Some(true),
        _ => None,
    }
}

fn three_flags(text: &[u8]) -> Option<[bool; 3]>
    ensures flags { result ≡ three_flags text.now }
{
    match text {
        [a, b, c] => Some([flag(*a)?, flag(*b)?, flag(*c)?]),
        _ => None,
    }
}

/// The three flags that a value spells.
pub fn three_flags_in(value: &Value) -> Option<[bool; 3]>
    ensures flags { result ≡ three_flags_in (view value.now) }
{
    three_flags(value.as_str()?.as_bytes())
}

fn two_flags(text: &[u8]) -> Option<[bool; 2]>
    ensures flags { result ≡ two_flags text.now }
{
    match text {
        [a, b] => Some([flag(*a)?, flag(*b)?]),
        _ => None,
    }
}

/// The two flags that a value spells.
pub fn two_flags_in(value: &Value) -> Option<[bool; 2]>
    ensures flags { result ≡ two_flags_in (view value.now) }
{
    two_flags(value.as_str()?.as_bytes())
}

/// The number below a limit that two digits spell.
fn two_digits(limit: u32, a: u8, b: u8) -> Option<u32>
    ensures number { result ≡ two_digits limit a b }
    ensures range { IfSome result (λ n. n < limit) }
{
    if !a.is_ascii_digit() || !b.is_ascii_digit() {
        return None;
    }
    let number = u32::from(a - b'0') * 10 + u32::from(b - b'0');
    if number < limit { Some(number) } else { None }
}

/// The hundredths of a second since midnight that pairs of digits spell: hour, minute, second and hundredth.
fn hundredths(hour: (u8, u8), minute: (u8, u8), second: (u8, u8), rest: (u8, u8)) -> Option<u32>
    ensures time { result ≡ hundredths hour.0 hour.1 minute.0 minute.1 second.0 second.1 rest.0 rest.1 }
    ensures range { IfSome result (λ n. n < 8640000) }
{
    let hour = two_digits(24, hour.0, hour.1)?;
    let minute = two_digits(60, minute.0, minute.1)?;
    let second = two_digits(60, second.0, second.1)?;
    let hundredth = two_digits(100, rest.0, rest.1)?;
    Some(((hour * 60 + minute) * 60 + second) * 100 + hundredth)
}

fn time(text: &[u8]) -> Option<u32>
    ensures time { result ≡ time_of text.now }
    ensures range { IfSome result (λ n. n < 8640000) }
{
    match text {
        [a, b, b':', c, d, b':', e, f, b'.', g, h] => {
            hundredths((*a, *b), (*c, *d), (*e, *f), (*g, *h))
        }
        _ => None,
    }
}

/// The time of day that a value spells, in hundredths of a second since midnight.
pub fn time_in(value: &Value) -> Option<u32>
    ensures time { result ≡ time_in (view value.now) }
    ensures range { IfSome result (λ n. n < 8640000) }
{
    time(value.as_str()?.as_bytes())
}
