//! Decimal numbers as words.

ghost use Rattle.std.specs.Prelude.{◌≡◌, ◌+◌, ◌^◌, ◌↔◌, ℕ, ℤ, Some};
ghost use Rattle.gs_bytes.specs.NumberForms.{IsBelowZero, begins_plainly};
ghost use Rattle.gs_bytes.specs.Numbers.{SpellsNumber, SpellsSigned, decimal_up_to};

use std::str;

/// Whether the word begins with a digit, and with `0` only where that is all of it.
fn begins_plainly(word: &[u8]) -> bool
    ensures { result ≡ begins_plainly word.now }
{
    match word {
        [] => false,
        [b'0', rest @ ..] => rest.is_empty(),
        [first, ..] => first.is_ascii_digit(),
    }
}

/// The number of 32 bits that the word spells.
fn whole_number(word: &[u8]) -> Option<u32>
    ensures { (number : ℕ) → (result ≡ Some number) ↔ SpellsNumber (2 ^ 32) word.now number }
{
    if !begins_plainly(word) {
        return None;
    }
    str::from_utf8(word).ok()?.parse().ok()
}

/// The number that the word spells in decimal, without a sign or a leading zero, where it is no
/// greater than `most`.
pub fn parse_number(word: &[u8], most: u32) -> Option<u32>
    ensures spelled { (number : ℕ) → (result ≡ Some number) ↔ SpellsNumber (most + 1) word.now number }
    ensures value { result ≡ decimal_up_to most word.now }
{
    let number = whole_number(word)?;
    if number > most {
        return None;
    }
    Some(number)
}

/// The number below 0 of this size.
fn negative(size: u32) -> Option<i16>
    ensures { (number : ℤ) → (result ≡ Some number) ↔ IsBelowZero size number }
{
    match size {
        1..=0x8000 => Some((-(size as i32)) as i16),
        _ => None,
    }
}

/// The number that the word spells in decimal, with a leading `-` where it is below 0, and without
/// a leading zero. There is no `-0`.
pub fn parse_signed(word: &[u8]) -> Option<i16>
    ensures { (number : ℤ) → (result ≡ Some number) ↔ SpellsSigned word.now number }
{
    match word {
        [b'-', digits @ ..] => negative(whole_number(digits)?),
        _ => i16::try_from(whole_number(word)?).ok(),
    }
}
