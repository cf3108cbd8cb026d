//! The columns of the table of rules: algorithms, conditions and delays.

ghost use Rattle.std.specs.Prelude.{◌≡◌};
ghost use Rattle.algorithm_rules.specs.EventTypes.{event_type_of};

use bac_values::{EventState, EventType};

/// The event algorithms (ANSI/ASHRAE 135-2020, 13.3).
#[derive(Clone, Copy, Debug, PartialEq, Eq)]
pub enum Algorithm {
    /// CHANGE_OF_BITSTRING.
    ChangeOfBitstring,
    /// CHANGE_OF_STATE.
    ChangeOfState,
    /// COMMAND_FAILURE.
    CommandFailure,
    /// UNSIGNED_RANGE.
    UnsignedRange,
    /// SIGNED_OUT_OF_RANGE.
    SignedOutOfRange,
    /// UNSIGNED_OUT_OF_RANGE.
    UnsignedOutOfRange,
    /// CHANGE_OF_CHARACTERSTRING.
    ChangeOfCharacterstring,
}

impl Algorithm {
    /// The number of its event type (BACnetEventType).
    pub fn event_type(self) -> u8
        ensures number { result ≡ event_type_of self }
    {
        match self {
            Algorithm::ChangeOfBitstring => EventType::CHANGE_OF_BITSTRING.0,
            Algorithm::ChangeOfState => EventType::CHANGE_OF_STATE.0,
            Algorithm::CommandFailure => EventType::COMMAND_FAILURE.0,
            Algorithm::UnsignedRange => EventType::UNSIGNED_RANGE.0,
            Algorithm::SignedOutOfRange => EventType::SIGNED_OUT_OF_RANGE.0,
            Algorithm::UnsignedOutOfRange => EventType::UNSIGNED_OUT_OF_RANGE.0,
            Algorithm::ChangeOfCharacterstring => EventType::CHANGE_OF_CHARACTERSTRING.0,
        }
    }
}

/// The condition of a rule.
#[derive(Clone, Copy, Debug, PartialEq, Eq)]
pub enum Test {
    /// Some alarm value matches the value.
    SomeMatch,
    /// No alarm value matches the value.
    NoMatch,
    /// Some alarm value matches, and the first one is another than that by which the state was entered. The key tells
    /// which is the first; whoever knows by which the state was entered leaves that one out.
    OtherMatch,
    /// The feedback differs from the value.
    FeedbackDiffers,
    /// The feedback equals the value.
    FeedbackEquals,
    /// The high limit is enabled, and the value is above it.
    AboveEnabledHigh,
    /// The low limit is enabled, and the value is below it.
    BelowEnabledLow,
    /// The high limit is not enabled.
    HighDisabled,
    /// The low limit is not enabled.
    LowDisabled,
    /// The value is below the high limit by more than the deadband.
    BelowHighLessDeadband,
    /// The value is above the low limit by more than the deadband.
    AboveLowPlusDeadband,
    /// The value is above the high limit.
    AboveHigh,
    /// The value is below the low limit.
    BelowLow,
    /// The value is neither below the low limit nor above the high one.
    Within,
}

/// How long the condition of a rule must last.
#[derive(Clone, Copy, Debug, PartialEq, Eq)]
pub enum Waiting {
    /// For the object's Time_Delay.
    TimeDelay,
    /// For its Time_Delay_Normal, or its Time_Delay where it has no other.
    NormalDelay,
    /// Not at all.
    AtOnce,
}

/// A rule of an algorithm.
#[derive(Clone, Copy, Debug, PartialEq, Eq)]
pub struct Rule {
    /// The state that it leads to.
    pub target: EventState,
    /// Its condition.
    pub test: Test,
    /// How long the condition must last.
    pub wait: Waiting,
}
