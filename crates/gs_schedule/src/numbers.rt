//! The numbers behind a line's first word.

ghost use Rattle.std.specs.Prelude.{◌≡◌, ◌^◌, ◌↔◌, ◌∷◌, [], IfNone, IfSome, IsTrue, List, ℕ};
ghost use Rattle.gs_input.specs.Words.{TakesNumber};
ghost use Rattle.gs_schedule.specs.Step.{SpellNumbers};

use gs_bytes::{Words, parse_number};

/// Takes a number.
pub fn next_number(words: &mut Words<'_>) -> Option<u32>
    ensures found { IfSome result (λ number. TakesNumber (2 ^ 32) words.old number words.new) }
    ensures none { IfNone result ((number : ℕ) (rest : List (List ℕ)) → TakesNumber (2 ^ 32) words.old number rest
        → ⊥) }
{
    parse_number(words.next_word()?, u32::MAX)
}

/// Whether no word is left.
pub fn no_number(mut words: Words<'_>) -> bool
    ensures { IsTrue result ↔ (words.entry ≡ []) }
{
    words.next_word().is_none()
}

/// The one number that is left.
pub fn one_number(mut words: Words<'_>) -> Option<u32>
    ensures found { IfSome result (λ a. SpellNumbers words.entry (a ∷ [])) }
    ensures none { IfNone result ((a : ℕ) → SpellNumbers words.entry (a ∷ []) → ⊥) }
{
    let number = next_number(&mut words)?;
    no_number(words).then_some(number)
}

/// The two numbers that are left.
pub fn two_numbers(mut words: Words<'_>) -> Option<(u32, u32)>
    ensures found { IfSome result (λ pair. SpellNumbers words.entry (pair.0 ∷ pair.1 ∷ [])) }
    ensures none { IfNone result ((a b : ℕ) → SpellNumbers words.entry (a ∷ b ∷ []) → ⊥) }
{
    let first = next_number(&mut words)?;
    let second = one_number(words)?;
    Some((first, second))
}

/// The three numbers that are left.
pub fn three_numbers(mut words: Words<'_>) -> Option<(u32, u32, u32)>
    ensures found { IfSome result (λ all. SpellNumbers words.entry (all.0 ∷ all.1 ∷ all.2 ∷ [])) }
    ensures none { IfNone result ((a b c : ℕ) → SpellNumbers words.entry (a ∷ b ∷ c ∷ []) → ⊥) }
{
    let first = next_number(&mut words)?;
    let (second, third) = two_numbers(words)?;
    Some((first, second, third))
}
