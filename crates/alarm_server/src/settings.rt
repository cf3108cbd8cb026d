//! The object on trial, as the words set it.

ghost use Rattle.std.specs.Prelude.{◌≡◌, [], ◌-◌, ◌^◌, map, string_bytes};
ghost use Rattle.algorithm_rules.specs.Facts.{facts_of};
ghost use Rattle.script_lines.specs.Number.{signed_of, unsigned_of};
ghost use Rattle.alarm_server.specs.Settings.{settings_from, settings_of, facts_with};

use algorithm_rules::{Algorithm, Snapshot};
use bac_values::Value;
use script_lines::{signed, unsigned};

/// The settings of the object on trial, an Integer Value with both limits enabled.
#[derive(Clone, Copy, Debug)]
pub struct Settings {
    /// Low_Limit, which is the object's first value too.
    pub low: i32,
    /// High_Limit.
    pub high: i32,
    /// Deadband.
    pub deadband: u32,
    /// Time_Delay, in seconds.
    pub delay: u32,
    /// Time_Delay_Normal, in seconds.
    pub normal: u32,
}

fn signed_word(word: &String) -> Option<i32>
    ensures value { result ≡ signed_of (string_bytes word.now) }
{
    signed(word.as_bytes())
}

fn unsigned_word(word: &String) -> Option<u32>
    ensures value { result ≡ unsigned_of (2 ^ 32 - 1) (string_bytes word.now) }
{
    Some(unsigned(word.as_bytes(), u64::from(u32::MAX))? as u32)
}

// The settings that these words give, if each of them is the number that it has to be.
fn settings_in(
    low: &String,
    high: &String,
    deadband: &String,
    delay: &String,
    normal: &String,
) -> Option<Settings>
    ensures settings { result ≡ settings_from (string_bytes low.now) (string_bytes high.now) (string_bytes deadband.now) (string_bytes delay.now) (string_bytes normal.now) }
{
    Some(Settings {
        low: signed_word(low)?,
        high: signed_word(high)?,
        deadband: unsigned_word(deadband)?,
        delay: unsigned_word(delay)?,
        normal: unsigned_word(normal)?,
    })
}

impl Settings {
    /// The settings that the words `trial LOW HIGH DEADBAND DELAY NORMAL` give, and none exactly where the words are
    /// none of this form.
    pub fn read(words: &[String]) -> Option<Settings>
        ensures settings { result ≡ settings_of (map string_bytes words.now) }
    {
        let [trial, low, high, deadband, delay, normal] = words else {
            return None;
        };
        if trial.as_str() != "trial" {
            return None;
        }
        settings_in(low, high, deadband, delay, normal)
    }

    /// What the rules see of the object with a value.
    pub fn snapshot<'a>(&self, value: &'a Value) -> Snapshot<'a>
        ensures facts { facts_of result ≡ facts_with self.now value.now }
        ensures no_list { result.alarm_values.now ≡ [] }
        ensures algorithm { result.algorithm ≡ Algorithm.SignedOutOfRange }
    {
        Snapshot {
            algorithm: Algorithm::SignedOutOfRange,
            value,
            feedback: None,
            alarm_value: None,
            alarm_values: &[],
            mask: None,
            low: i64::from(self.low),
            high: i64::from(self.high),
            limit_enable: [true, true],
            deadband: self.deadband,
            time_delay: self.delay,
            time_delay_normal: Some(self.normal),
        }
    }
}
