//! The rules of each algorithm, in the order in which they are tried.

ghost use Rattle.std.specs.Prelude.{◌≡◌, slice_get};
ghost use Rattle.algorithm_rules.specs.Rules.{rules_of, match_rules, command_rules, limit_rules, range_rules};

use crate::{Algorithm, Rule, Test, Waiting};
use bac_values::EventState::{self, HighLimit, LowLimit, Normal, Offnormal};

/// The rule at a place, from 0, of those that are tried in a state.
pub fn rule(algorithm: Algorithm, state: EventState, place: u8) -> Option<Rule>
    ensures rule { result ≡ slice_get (rules_of algorithm state) place }
{
    match algorithm {
        Algorithm::ChangeOfState
        | Algorithm::ChangeOfBitstring
        | Algorithm::ChangeOfCharacterstring => match_rule(state, place),
        Algorithm::CommandFailure => command_rule(state, place),
        Algorithm::SignedOutOfRange | Algorithm::UnsignedOutOfRange => limit_rule(state, place),
        Algorithm::UnsignedRange => range_rule(state, place),
    }
}

fn match_rule(state: EventState, place: u8) -> Option<Rule>
    ensures rule { result ≡ slice_get (match_rules state) place }
{
    let (target, test, wait) = match (state, place) {
        (Normal, 0) => (Offnormal, Test::SomeMatch, Waiting::TimeDelay),
        (Offnormal, 0) => (Normal, Test::NoMatch, Waiting::NormalDelay),
        (Offnormal, 1) => (Offnormal, Test::OtherMatch, Waiting::TimeDelay),
        _ => return None,
    };
    Some(Rule { target, test, wait })
}

fn command_rule(state: EventState, place: u8) -> Option<Rule>
    ensures rule { result ≡ slice_get (command_rules state) place }
{
    let (target, test, wait) = match (state, place) {
        (Normal, 0) => (Offnormal, Test::FeedbackDiffers, Waiting::TimeDelay),
        (Offnormal, 0) => (Normal, Test::FeedbackEquals, Waiting::NormalDelay),
        _ => return None,
    };
    Some(Rule { target, test, wait })
}

fn limit_rule(state: EventState, place: u8) -> Option<Rule>
    ensures rule { result ≡ slice_get (limit_rules state) place }
{
    let (target, test, wait) = match (state, place) {
        (Normal, 0) => (HighLimit, Test::AboveEnabledHigh, Waiting::TimeDelay),
        (Normal, 1) => (LowLimit, Test::BelowEnabledLow, Waiting::TimeDelay),
        (HighLimit, 0) => (Normal, Test::HighDisabled, Waiting::AtOnce),
        (HighLimit, 1) => (LowLimit, Test::BelowEnabledLow, Waiting::TimeDelay),
        (HighLimit, 2) => (Normal, Test::BelowHighLessDeadband, Waiting::NormalDelay),
        (LowLimit, 0) => (Normal, Test::LowDisabled, Waiting::AtOnce),
        (LowLimit, 1) => (HighLimit, Test::AboveEnabledHigh, Waiting::TimeDelay),
        (LowLimit, 2) => (Normal, Test::AboveLowPlusDeadband, Waiting::NormalDelay),
        _ => return None,
    };
    Some(Rule { target, test, wait })
}

fn range_rule(state: EventState, place: u8) -> Option<Rule>
    ensures rule { result ≡ slice_get (range_rules state) place }
{
    let (target, test, wait) = match (state, place) {
        (Normal, 0) => (HighLimit, Test::AboveHigh, Waiting::TimeDelay),
        (Normal, 1) => (LowLimit, Test::BelowLow, Waiting::TimeDelay),
        (HighLimit, 0) => (LowLimit, Test::BelowLow, Waiting::TimeDelay),
        (HighLimit, 1) => (Normal, Test::Within, Waiting::NormalDelay),
        (LowLimit, 0) => (HighLimit, Test::AboveHigh, Waiting::TimeDelay),
        (LowLimit, 1) => (Normal, Test::Within, Waiting::NormalDelay),
        _ => return None,
    };
    Some(Rule { target, test, wait })
}
