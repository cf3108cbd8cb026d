//! One element of a request is read.

ghost use Rattle.std.specs.Prelude.{◌≡◌, ◌<◌, ◌≤◌, length, IfOk};
ghost use Rattle.bac_tags.specs.ReadingSteps.{Gives};
ghost use Rattle.recipients.specs.Recipients.{StandsWithin};
ghost use Rattle.list_binding.specs.Elements.{element_in};
ghost use Rattle.list_binding.specs.EditSteps.{element_at};

use bac_tags::{TagFault, read_any_bits, read_bool, read_time, read_unsigned};
use bac_values::Bits;
use recipients::{Recipient, read_recipient};

/// What an element of a Recipient_List says (clause 21, BACnetDestination), whether a destination can have it or not.
#[derive(Clone, Copy, Debug)]
pub(crate) struct Element {
    /// The valid days; a string of more than 64 bits is None, as of the transitions.
    pub(crate) days: Option<Bits>,
    /// From Time: the hour, the minute, the second and the hundredth.
    pub(crate) from: [u8; 4],
    /// To Time.
    pub(crate) to: [u8; 4],
    /// The recipient.
    pub(crate) recipient: Recipient,
    /// The process identifier.
    pub(crate) process: u32,
    /// Issue Confirmed Notifications.
    pub(crate) confirmed: bool,
    /// The transitions.
    pub(crate) transitions: Option<Bits>,
}

/// The element at a place, and the place after it.
#[tactic(auto, unfolding(crate::specs::EditSteps::element_at))]
pub(crate) fn element_at(input: &[u8], at: usize) -> Result<(Element, usize), TagFault>
    requires { at ≤ length input.now }
    ensures exact { Gives (λ x. (element_in input.now x.0, x.1)) result (element_at input.now at) }
    ensures within { IfOk result (λ x. StandsWithin input.now x.0.recipient × (at < x.1) × (x.1 ≤ length input.now)) }
{
    let (days, from_at) = read_any_bits(input, at)?;
    let (from, to_at) = read_time(input, from_at)?;
    let (to, recipient_at) = read_time(input, to_at)?;
    let (recipient, process_at) = read_recipient(input, recipient_at)?;
    let (process, confirmed_at) = read_unsigned(input, process_at, None)?;
    let (confirmed, transitions_at) = read_bool(input, confirmed_at, None)?;
    let (transitions, end) = read_any_bits(input, transitions_at)?;
    Ok((
        Element {
            days,
            from,
            to,
            recipient,
            process,
            confirmed,
            transitions,
        },
        end,
    ))
}
