//! Words of a line, and moments.

ghost use Rattle.std.specs.Prelude.{◌≡◌, ◌==◌, position, IfSome};
ghost use Rattle.std.specs.List.{before_first, after_first};
ghost use Rattle.bac_values.specs.Moments.{IsMoment};
ghost use Rattle.script_lines.specs.Words.{first_word, other_words, moment_of};

use crate::number::unsigned;
use bac_values::{FIRST_MOMENT, LAST_MOMENT};

/// The place of the first of these octets in a text.
pub fn place_of(octet: u8, text: &[u8]) -> Option<usize>
    ensures place { result ≡ position (λ c. c == octet) text.now }
{
    text.iter().position(|other| *other == octet)
}

/// What stands before the first of these octets, and what stands behind it. Where there is none, all stands before it.
pub fn split_at(octet: u8, text: &[u8]) -> (&[u8], &[u8])
    ensures before { result.0.now ≡ before_first (λ c. c == octet) text.now }
    ensures after { result.1.now ≡ after_first (λ c. c == octet) text.now }
{
    match place_of(octet, text) {
        Some(place) => (&text[..place], &text[place + 1..]),
        None => (text, &[]),
    }
}

/// The first word of a text, and what follows the blank behind it.
pub fn split_word(text: &[u8]) -> (&[u8], &[u8])
    ensures word { result.0.now ≡ first_word text.now }
    ensures others { result.1.now ≡ other_words text.now }
{
    split_at(b' ', text)
}

/// The moment that a word names.
pub fn read_moment(word: &[u8]) -> Option<u64>
    ensures moment { result ≡ moment_of word.now }
    ensures in_range { IfSome result IsMoment }
{
    unsigned(word, LAST_MOMENT).filter(|moment| *moment >= FIRST_MOMENT)
}
