//! Texts of UTF-8.

ghost use Rattle.std.specs.Prelude.{◌≡◌, ℕ, ◌<◌, ◌≤◌, ◌↔◌, length, IfOk, IfErr, IsErrOf, IsUtf8};
ghost use Rattle.bac_values.specs.Limits.{most_text_octets};
ghost use Rattle.bac_values.specs.declared.text.TextFault.TheVariants.{NoMemory, TooLong};

use crate::MOST_TEXT_OCTETS;
use std::alloc::{AllocError, Global};
use std::marker::Model;

/// A text of at most `MOST_TEXT_OCTETS` octets of UTF-8. Contracts see the octets.
#[derive(Clone, Debug, Drop)]
pub struct Text {
    text: String,
}

impl Model for Text {
    ghost use Rattle.std.specs.Prelude.{List, ℕ, ◌≤◌, length, string_bytes};
    ghost use Rattle.bac_values.specs.Limits.{most_text_octets};

    ghost Value = { List ℕ };

    ghost view = { λ text. string_bytes text.text };

    ghost invariant = { λ text. length (string_bytes text.text) ≤ most_text_octets };
}

/// Why no text was made.
#[derive(Clone, Copy, Debug, PartialEq, Eq)]
pub enum TextFault {
    /// The source has this many octets, which are too many.
    TooLong {
        /// The octets of the source.
        octets: usize,
    },
    /// Memory was refused.
    NoMemory,
}

impl From<AllocError> for TextFault {
    ghost from_gives = { λ _ fault. fault ≡ NoMemory };

    fn from(_refused: AllocError) -> TextFault {
        TextFault::NoMemory
    }
}

impl Text {
    /// A copy of a source of at most `MOST_TEXT_OCTETS` octets.
    pub fn new(alloc: Global, source: &str) -> Result<Text, TextFault>
        ensures same { IfOk result (λ text. text ≡ source.now) }
        ensures too_long { (octets : ℕ) → (IsErrOf result (TextFault.TooLong octets)) ↔ ((octets ≡ length source.now) × (most_text_octets < octets)) }
    {
        if source.len() > MOST_TEXT_OCTETS {
            return Err(TextFault::TooLong {
                octets: source.len(),
            });
        }
        let text = String::from_str(alloc, source)?;
        Ok(Text { text })
    }

    /// The octets, at most `MOST_TEXT_OCTETS`, which are UTF-8.
    pub fn octets(&self) -> &[u8]
        ensures same { result.now ≡ self.now }
        ensures short { length self.now ≤ most_text_octets }
        ensures utf8 { IsUtf8 self.now }
    {
        self.text.as_str().as_bytes()
    }

    /// The text.
    pub fn as_str(&self) -> &str
        ensures same { result.now ≡ self.now }
        ensures short { length self.now ≤ most_text_octets }
    {
        self.text.as_str()
    }
}

impl PartialEq for Text {
    ghost use Rattle.std.proofs.Common.{rules};
    ghost use Rattle.std.specs.Cmp.Rules.{comparing};
    ghost use Rattle.std.specs.Str.{bytes_eq};

    ghost eq = { bytes_eq };

    ghost laws = { Prim.search (comparing, rules) };

    fn eq(&self, other: &Text) -> bool {
        self.text.as_str() == other.text.as_str()
    }
}
