//! Strings of bits.

ghost use Rattle.std.specs.Prelude.{◌≡◌, ◌^◌, ◌<◌, ◌≤◌, ◌↔◌, OkIff, length};
ghost use Rattle.bac_values.specs.BitString.{IsBitString, flags_number, four_flags, string_of_flags, three_flags, two_flags};
ghost use Rattle.bac_values.specs.Limits.{most_bits};

use crate::MOST_BITS;
use std::marker::Model;

/// A string of at most `MOST_BITS` bits. The first bit is the lowest of the number.
#[derive(Clone, Copy, Debug, PartialEq, Eq)]
pub struct Bits {
    size: u8,
    bits: u64,
}

impl Model for Bits {
    ghost use Rattle.bac_values.specs.BitString.{IsBitString, BitsData};

    ghost Value = { BitsData };

    ghost view = { λ string. record { size = string.size; bits = string.bits } };

    ghost invariant = { λ string. IsBitString string.size string.bits };

    ghost inverse = { λ string. record { size = string.size; bits = string.bits } };
}

/// A length above `MOST_BITS`, or a bit that is set at or above the length.
#[derive(Clone, Copy, Debug, PartialEq, Eq)]
pub struct TooManyBits;

impl Bits {
    /// The string with a length and its bits, the first one lowest.
    pub fn new(length: u8, bits: u64) -> Result<Bits, TooManyBits>
        ensures made { OkIff result (IsBitString length bits) (record { size = length; bits = bits }) }
    {
        if length > MOST_BITS {
            return Err(TooManyBits);
        }
        if length < MOST_BITS && bits >= 1 << length {
            return Err(TooManyBits);
        }
        Ok(Bits { size: length, bits })
    }

    /// How many bits there are, at most `MOST_BITS`.
    pub fn length(&self) -> u8
        ensures length { result ≡ self.now.size }
        ensures range { IsBitString self.now.size self.now.bits }
    {
        self.size
    }

    /// The bits as a number whose lowest bit is the first. None is set at or above the length.
    pub fn bits(&self) -> u64
        ensures bits { result ≡ self.now.bits }
        ensures range { IsBitString self.now.size self.now.bits }
    {
        self.bits
    }

    /// The string of flags, the first flag first.
    pub fn of_flags(flags: &[bool]) -> Bits
        requires few { length flags.now ≤ most_bits }
        ensures string { result ≡ string_of_flags flags.now }
    {
        Bits {
            size: flags.len() as u8,
            bits: flags_number(flags),
        }
    }

    /// The first two flags, the first one first.
    pub fn two_flags(self) -> [bool; 2]
        ensures flags { result ≡ two_flags self }
    {
        [self.bits & 1 != 0, self.bits & 2 != 0]
    }

    /// The first three flags, the first one first.
    pub fn three_flags(self) -> [bool; 3]
        ensures flags { result ≡ three_flags self }
    {
        [self.bits & 1 != 0, self.bits & 2 != 0, self.bits & 4 != 0]
    }

    /// The first four flags, the first one first.
    pub fn four_flags(self) -> [bool; 4]
        ensures flags { result ≡ four_flags self }
    {
        [
            self.bits & 1 != 0,
            self.bits & 2 != 0,
            self.bits & 4 != 0,
            self.bits & 8 != 0,
        ]
    }
}

// The number whose lowest bit is the first flag.
fn flags_number(flags: &[bool]) -> u64
    requires few { length flags.now ≤ most_bits }
    ensures number { result ≡ flags_number flags.now }
    ensures range { result < 2 ^ length flags.now }
{
    match flags {
        [] => 0,
        [flag, rest @ ..] => u64::from(*flag) + 2 * flags_number(rest),
    }
}
