//! Decimal numbers.

ghost use Rattle.std.specs.Prelude.{◌≡◌, ◌↔◌, ℕ, ℤ, ◌≤◌, ◌^◌, ◌-◌, IfSome};
ghost use Rattle.std.specs.Fmt.{decimal, signed_decimal};
ghost use Rattle.script_lines.specs.Number.{digits_after, number_of, up_to, unsigned_of, below_zero, signed_of, IsSigned};

// The number that digits spell, if it is one of 64 bits.
fn digits_value(digits: &[u8]) -> Option<u64>
    ensures value { result ≡ up_to (2 ^ 64 - 1) (digits_after 0 digits.now) }
{
    let mut value: u64 = 0;
    for digit in digits {
        if !digit.is_ascii_digit() {
            return None;
        }
        value = value
            .checked_mul(10)?
            .checked_add(u64::from(*digit - b'0'))?;
    }
    Some(value)
}

// The number that a text spells, if it is one of 64 bits.
fn number(text: &[u8]) -> Option<u64>
    ensures value { result ≡ up_to (2 ^ 64 - 1) (number_of text.now) }
{
    match text {
        [] | [b'0', _, ..] => None,
        _ => digits_value(text),
    }
}

/// The number that a text spells in decimal digits, if it is at most `most`. There is no sign, and no needless zero: the
/// text is just how the number is written.
pub fn unsigned(text: &[u8], most: u64) -> Option<u64>
    ensures value { result ≡ unsigned_of most text.now }
    ensures written { (n : ℕ) → (result ≡ Some n) ↔ ((text.now ≡ decimal n) × (n ≤ most)) }
    ensures small { IfSome result (λ value. value ≤ most) }
{
    number(text).filter(|value| *value <= most)
}

// The number of 32 bits below zero whose digits are these.
fn negative(digits: &[u8]) -> Option<i32>
    ensures value { result ≡ below_zero (unsigned_of (2 ^ 31) digits.now) }
{
    let size = unsigned(digits, 1 << 31)?;
    if size == 0 {
        return None;
    }
    Some((-(size as i64)) as i32)
}

/// The number of 32 bits with a sign that a text spells in decimal digits. `-` is the only sign, there is no needless
/// zero, and `-0` is none: the text is just how the number is written.
pub fn signed(text: &[u8]) -> Option<i32>
    ensures value { result ≡ signed_of text.now }
    ensures written { (z : ℤ) → (result ≡ Some z) ↔ ((text.now ≡ signed_decimal z) × IsSigned z) }
{
    match text {
        [b'-', digits @ ..] => negative(digits),
        _ => Some(unsigned(text, (1 << 31) - 1)? as i32),
    }
}
