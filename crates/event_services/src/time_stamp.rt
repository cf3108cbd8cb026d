//! Time stamps in their three forms are read.

ghost use Rattle.std.specs.Prelude.{◌≡◌, ◌<◌, ◌≤◌, length, IfOk};
ghost use Rattle.bac_tags.specs.ReadingSteps.{stamp_at};
ghost use Rattle.bac_tags.specs.EnclosingSteps.{enclosed_at};
ghost use Rattle.event_services.specs.TimeStampSteps.{form_at, time_stamp_at};

use bac_tags::{
    TagFault, read_closing, read_octets, read_opening, read_stamp, read_tag, read_unsigned,
};
use bac_values::Stamp;

/// When an alarm was, in one of the three forms of a BACnetTimeStamp.
#[derive(Clone, Copy, Debug, PartialEq, Eq)]
pub enum AckStamp {
    /// A time of day, which isn't looked at.
    Time,
    /// A sequence number, which isn't looked at.
    Sequence,
    /// A date and a time of day.
    DateTime(Stamp),
}

/// The date and the time between the tags of a number, and the place after them.
pub(crate) fn enclosed_stamp(
    input: &[u8],
    at: usize,
    number: u8,
) -> Result<(Stamp, usize), TagFault>
    requires { at ≤ length input.now }
    ensures exact { result ≡ enclosed_at stamp_at number input.now at }
    ensures within { IfOk result (λ x. (at < x.1) × (x.1 ≤ length input.now)) }
{
    let start = read_opening(input, at, number)?;
    let (stamp, end) = read_stamp(input, start, None)?;
    let after = read_closing(input, end, number)?;
    Ok((stamp, after))
}

/// The time stamp at a place, whose tag there has that number, and the place after it.
fn form_at(number: u8, input: &[u8], at: usize) -> Result<(AckStamp, usize), TagFault>
    requires { at ≤ length input.now }
    ensures exact { result ≡ form_at number input.now at }
    ensures within { IfOk result (λ x. (at < x.1) × (x.1 ≤ length input.now)) }
{
    match number {
        0 => {
            let (_, after) = read_octets(input, at, 0, 4, 4)?;
            Ok((AckStamp::Time, after))
        }
        1 => {
            let (_, after) = read_unsigned(input, at, Some(1))?;
            Ok((AckStamp::Sequence, after))
        }
        2 => {
            let (stamp, after) = enclosed_stamp(input, at, 2)?;
            Ok((AckStamp::DateTime(stamp), after))
        }
        _ => Err(TagFault::WrongTag { at }),
    }
}

/// The time stamp at a place, in any of its forms, and the place after it.
#[tactic(auto, unfolding(crate::specs::TimeStampSteps::time_stamp_at))]
fn time_stamp_at(input: &[u8], at: usize) -> Result<(AckStamp, usize), TagFault>
    requires { at ≤ length input.now }
    ensures exact { result ≡ time_stamp_at input.now at }
    ensures within { IfOk result (λ x. (at < x.1) × (x.1 ≤ length input.now)) }
{
    let (tag, _) = read_tag(input, at)?;
    form_at(tag.number, input, at)
}

/// The time stamp between the tags of a number, and the place after them.
pub(crate) fn enclosed_time_stamp(
    input: &[u8],
    at: usize,
    number: u8,
) -> Result<(AckStamp, usize), TagFault>
    requires { at ≤ length input.now }
    ensures exact { result ≡ enclosed_at time_stamp_at number input.now at }
    ensures within { IfOk result (λ x. (at < x.1) × (x.1 ≤ length input.now)) }
{
    let start = read_opening(input, at, number)?;
    let (stamp, end) = time_stamp_at(input, start)?;
    let after = read_closing(input, end, number)?;
    Ok((stamp, after))
}
