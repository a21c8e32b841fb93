//! Events as lines of words.

ghost use Rattle.std.specs.Prelude.{◌≡◌, ◌↔◌, IfNone, IfOk, IfSome, Some};
ghost use Rattle.gs_input.specs.declared.event.Event.{Event};
ghost use Rattle.gs_input.specs.Event.{HasButton};
ghost use Rattle.gs_input.specs.Line.{AreEventWords, IsLine, event_line};

use crate::arguments::{button_words, key_words, move_words, place_words, scroll_words};
use crate::event::Event;
use gs_bytes::{OutOfMemory, Text, Words};
use std::alloc::Global;
use std::fmt;

impl fmt::Display for Event {
    ghost use Rattle.gs_input.specs.Line.{event_line};

    ghost output = { λ event. Some (event_line event) };

    fn fmt<W: fmt::Write>(&self, f: &mut fmt::Formatter<W>) -> fmt::Result {
        match self {
            Event::KeyDown { code, modifiers } => write!(f, "keydown {code} {modifiers}"),
            Event::KeyUp { code, modifiers } => write!(f, "keyup {code} {modifiers}"),
            Event::Move { dx, dy } => write!(f, "move {dx} {dy}"),
            Event::At {
                x,
                y,
                width,
                height,
            } => write!(f, "at {x} {y} {width} {height}"),
            Event::Press { button } => write!(f, "press {button}"),
            Event::Release { button } => write!(f, "release {button}"),
            Event::Scroll { amount } => write!(f, "scroll {amount}"),
            Event::Unknown { magic } => write!(f, "unknown {magic}"),
        }
    }
}

/// The line of an event, without a newline. An unknown one is `unknown MAGIC`.
pub fn write_line(alloc: Global, event: &Event) -> Result<Text, OutOfMemory>
    requires { HasButton event.now }
    ensures { IfOk result (λ line. line ≡ event_line event.now) }
{
    Ok(Text::from_vec(format!(in alloc; "{event}")?.into_bytes()))
}

/// The event of a name and of the words behind it, which are all that are left.
pub fn read_arguments(name: &[u8], words: Words<'_>) -> Option<Event>
    ensures found { IfSome result (λ event. AreEventWords name.now words.entry event) }
    ensures none { IfNone result ((event : Event) → AreEventWords name.now words.entry event → ⊥) }
{
    if name == b"keydown".as_slice() {
        let (code, modifiers) = key_words(words)?;
        Some(Event::KeyDown { code, modifiers })
    } else if name == b"keyup".as_slice() {
        let (code, modifiers) = key_words(words)?;
        Some(Event::KeyUp { code, modifiers })
    } else if name == b"move".as_slice() {
        let (dx, dy) = move_words(words)?;
        Some(Event::Move { dx, dy })
    } else if name == b"at".as_slice() {
        let ((x, y), (width, height)) = place_words(words)?;
        Some(Event::At {
            x,
            y,
            width,
            height,
        })
    } else if name == b"press".as_slice() {
        let button = button_words(words)?;
        Some(Event::Press { button })
    } else if name == b"release".as_slice() {
        let button = button_words(words)?;
        Some(Event::Release { button })
    } else if name == b"scroll".as_slice() {
        let amount = scroll_words(words)?;
        Some(Event::Scroll { amount })
    } else {
        None
    }
}

/// The event of a line, which is all of the line.
pub fn read_line(line: &[u8]) -> Option<Event>
    // An event is read exactly where the line is one of it.
    ensures line { (event : Event) → (result ≡ Some event) ↔ IsLine line.now event }
    ensures button { IfSome result (λ event. HasButton event) }
{
    let mut words = Words::of(line);
    let name = words.next_word()?;
    read_arguments(name, words)
}
