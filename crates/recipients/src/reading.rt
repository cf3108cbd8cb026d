//! Recipients are read.

ghost use Rattle.std.specs.Prelude.{◌≡◌, ◌↔◌, ℕ, ◌<◌, ◌≤◌, length, IfOk, IsErr, IsOkAnd};
ghost use Rattle.bac_tags.specs.Places.{IsSpelledAt};
ghost use Rattle.bac_tags.specs.Parameters.{IsThere};
ghost use Rattle.bac_tags.specs.ReadingSteps.{Gives};
ghost use Rattle.recipients.specs.Recipients.{RecipientData, SpellsRecipient, StandsWithin, IsStretch, address_in, recipient_in};
ghost use Rattle.recipients.specs.RecipientSteps.{address_at, enclosed_address_at, recipient_at};

use crate::recipient::{ADDRESS, Address, DEVICE, Recipient};
use bac_tags::{
    TagFault, read_closing, read_object, read_octet_string, read_opening, read_unsigned,
};

/// The address at a place, and the place after it.
#[tactic(auto, unfolding(crate::specs::RecipientSteps::address_at))]
fn address_at(input: &[u8], at: usize) -> Result<(Address, usize), TagFault>
    requires { at ≤ length input.now }
    ensures exact { Gives (λ x. (address_in input.now x.0, x.1)) result (address_at input.now at) }
    ensures within { IfOk result (λ x. IsStretch input.now x.0 × (at < x.1) × (x.1 ≤ length input.now)) }
{
    let (network, after) = read_unsigned(input, at, None)?;
    let (start, end) = read_octet_string(input, after)?;
    Ok((
        Address {
            network,
            start,
            end,
        },
        end,
    ))
}

/// The address between its tags at a place, and the place after them.
#[tactic(auto, unfolding(crate::specs::RecipientSteps::enclosed_address_at))]
fn enclosed_address_at(input: &[u8], at: usize) -> Result<(Address, usize), TagFault>
    requires { at ≤ length input.now }
    ensures exact { Gives (λ x. (address_in input.now x.0, x.1)) result (enclosed_address_at input.now at) }
    ensures within { IfOk result (λ x. IsStretch input.now x.0 × (at < x.1) × (x.1 ≤ length input.now)) }
{
    let start = read_opening(input, at, ADDRESS)?;
    let (address, end) = address_at(input, start)?;
    let after = read_closing(input, end, ADDRESS)?;
    Ok((address, after))
}

/// The recipient at a place, and the place after it.
#[tactic(auto, unfolding(crate::specs::RecipientSteps::recipient_at))]
fn recipient_at(input: &[u8], at: usize) -> Result<(Recipient, usize), TagFault>
    requires { at ≤ length input.now }
    ensures exact { Gives (λ x. (recipient_in input.now x.0, x.1)) result (recipient_at input.now at) }
    ensures within { IfOk result (λ x. StandsWithin input.now x.0 × (at < x.1) × (x.1 ≤ length input.now)) }
{
    match read_object(input, at, Some(DEVICE)) {
        Ok((object, after)) => Ok((Recipient::Device(object), after)),
        Err(TagFault::WrongTag { .. }) => {
            let (address, after) = enclosed_address_at(input, at)?;
            Ok((Recipient::Address(address), after))
        }
        Err(fault) => Err(fault),
    }
}

/// Reads a recipient at a place, and answers it with the place after it: [0] a device, or [1] an address between its tags.
/// A fault is that of the device where one begins there, and else that of the address. No memory is taken.
pub fn read_recipient(input: &[u8], at: usize) -> Result<(Recipient, usize), TagFault>
    requires { at ≤ length input.now }
    ensures found { IfOk result (λ x. IsSpelledAt SpellsRecipient input.now at (recipient_in input.now x.0) x.1) }
    ensures only { (recipient : RecipientData) (end : ℕ) → IsSpelledAt SpellsRecipient input.now at recipient end → IsOkAnd result (λ x. (recipient_in input.now x.0 ≡ recipient) × (x.1 ≡ end)) }
    ensures refused { IsErr result ↔ ¬ IsThere SpellsRecipient input.now at }

    ensures exact { Gives (λ x. (recipient_in input.now x.0, x.1)) result (recipient_at input.now at) }
    ensures within { IfOk result (λ x. StandsWithin input.now x.0 × (at < x.1) × (x.1 ≤ length input.now)) }
{
    recipient_at(input, at)
}
