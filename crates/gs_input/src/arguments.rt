//! The words behind an event's name.

ghost use Rattle.std.specs.Prelude.{◌≡◌, ◌^◌, ◌↔◌, IfNone, IfSome, IsTrue, List, [], ℕ, ℤ};
ghost use Rattle.gs_input.specs.Event.{IsButton};
ghost use Rattle.gs_input.specs.Line.{HasArguments};
ghost use Rattle.gs_input.specs.Words.{TakesNumber, TakesSigned};

use crate::event::Event;
use gs_bytes::{Words, parse_number, parse_signed};

/// Takes a signed number.
fn next_signed(words: &mut Words<'_>) -> Option<i16>
    ensures found { IfSome result (λ number. TakesSigned words.old number words.new) }
    ensures none { IfNone result ((number : ℤ) (rest : List (List ℕ)) → TakesSigned words.old number rest → ⊥) }
{
    parse_signed(words.next_word()?)
}

/// Takes a number of 8 bits.
fn next_byte(words: &mut Words<'_>) -> Option<u8>
    ensures found { IfSome result (λ number. TakesNumber (2 ^ 8) words.old number words.new) }
    ensures none { IfNone result ((number : ℕ) (rest : List (List ℕ)) → TakesNumber (2 ^ 8) words.old number rest → ⊥) }
{
    u8::try_from(parse_number(words.next_word()?, 255)?).ok()
}

fn is_empty(mut words: Words<'_>) -> bool
    ensures { IsTrue result ↔ (words.entry ≡ []) }
{
    words.next_word().is_none()
}

/// The code and the modifiers of a key.
pub fn key_words(mut words: Words<'_>) -> Option<(i16, u8)>
    ensures found { IfSome result (λ key. HasArguments words.entry (Event.KeyDown key.0 key.1)) }
    ensures none { IfNone result ((code : ℤ) (modifiers : ℕ) → HasArguments words.entry (Event.KeyDown code modifiers)
        → ⊥) }
{
    let code = next_signed(&mut words)?;
    let modifiers = next_byte(&mut words)?;
    is_empty(words).then_some((code, modifiers))
}

/// How far the wheel was turned.
pub fn scroll_words(mut words: Words<'_>) -> Option<i16>
    ensures found { IfSome result (λ amount. HasArguments words.entry (Event.Scroll amount)) }
    ensures none { IfNone result ((amount : ℤ) → HasArguments words.entry (Event.Scroll amount) → ⊥) }
{
    let amount = next_signed(&mut words)?;
    is_empty(words).then_some(amount)
}

/// How far the pointer moved.
pub fn move_words(mut words: Words<'_>) -> Option<(i16, i16)>
    ensures found { IfSome result (λ by. HasArguments words.entry (Event.Move by.0 by.1)) }
    ensures none { IfNone result ((dx dy : ℤ) → HasArguments words.entry (Event.Move dx dy) → ⊥) }
{
    let dx = next_signed(&mut words)?;
    let dy = next_signed(&mut words)?;
    is_empty(words).then_some((dx, dy))
}

/// A place, and the width and the height of the area that it is in.
pub fn place_words(mut words: Words<'_>) -> Option<((i16, i16), (i16, i16))>
    ensures found { IfSome result (λ at. HasArguments words.entry (Event.At at.0.0 at.0.1 at.1.0 at.1.1)) }
    ensures none { IfNone result ((x y width height : ℤ) → HasArguments words.entry (Event.At x y width height) → ⊥) }
{
    let x = next_signed(&mut words)?;
    let y = next_signed(&mut words)?;
    let area = move_words(words)?;
    Some(((x, y), area))
}

/// The number of a button.
#[tactic(auto, using(crate::proofs::Lines::number_is))]
pub fn button_words(mut words: Words<'_>) -> Option<u8>
    ensures found { IfSome result (λ button. IsButton button × HasArguments words.entry (Event.Press button)) }
    ensures none { IfNone result ((button : ℕ) → IsButton button → HasArguments words.entry (Event.Press button) → ⊥) }
{
    let button = next_byte(&mut words)?;
    if !is_empty(words) {
        return None;
    }
    match button {
        1..=5 => Some(button),
        _ => None,
    }
}
