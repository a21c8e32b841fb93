//! The lines of a schedule.

ghost use Rattle.std.specs.Prelude.{◌≡◌, ◌↔◌, ◌∷◌, IfNone, IfSome, IsTrue, Some, codes, ℕ};
ghost use Rattle.gs_input.specs.declared.event.Event.{Event};
ghost use Rattle.gs_schedule.specs.declared.step.Step.{Step};
ghost use Rattle.gs_schedule.specs.declared.step.Step.TheVariants.{Blank, Input};
ghost use Rattle.gs_schedule.specs.Keyword.{keyword_text};
ghost use Rattle.gs_schedule.specs.Step.{AreWords, IsBlank, IsWindow, Spells};

use crate::keyword::{Keyword, keyword_of};
use crate::limits::MOST_TIME;
use crate::numbers::{next_number, no_number, one_number, three_numbers, two_numbers};
use crate::step::Step;
use gs_bytes::{Words, parse_number};
use gs_input::read_arguments;

/// The window of a session whose line has no word for it.
const ONE_FRAME: u32 = 1;

/// Whether the line is empty or a comment.
fn is_blank(line: &[u8]) -> bool
    ensures { IsTrue result ↔ IsBlank line.now }
{
    match line {
        [] => true,
        [first, ..] => *first == b'#',
    }
}

/// The window, where a word is left for it.
fn read_window(mut words: Words<'_>) -> Option<u32>
    ensures found { IfSome result (λ window. IsWindow words.entry window) }
    ensures none { IfNone result ((window : ℕ) → IsWindow words.entry window → ⊥) }
{
    let Some(word) = words.next_word() else {
        return Some(ONE_FRAME);
    };
    let window = parse_number(word, u32::MAX)?;
    no_number(words).then_some(window)
}

fn read_session(mut words: Words<'_>) -> Option<Step>
    ensures found { IfSome result (λ step. AreWords (codes "session" ∷ words.entry) step) }
    ensures none { IfNone result ((step : Step) → AreWords (codes "session" ∷ words.entry) step → ⊥) }
{
    let packet = next_number(&mut words)?;
    let percentage = next_number(&mut words)?;
    let minimum = next_number(&mut words)?;
    let window = read_window(words)?;
    Some(Step::Session {
        packet,
        percentage,
        minimum,
        window,
    })
}

fn read_videos(words: Words<'_>) -> Option<Step>
    ensures found { IfSome result (λ step. AreWords (codes "videos" ∷ words.entry) step) }
    ensures none { IfNone result ((step : Step) → AreWords (codes "videos" ∷ words.entry) step → ⊥) }
{
    let (session, first, last) = three_numbers(words)?;
    (first <= last).then_some(Step::Videos {
        session,
        first,
        last,
    })
}

fn read_time(words: Words<'_>) -> Option<Step>
    ensures found { IfSome result (λ step. AreWords (codes "time" ∷ words.entry) step) }
    ensures none { IfNone result ((step : Step) → AreWords (codes "time" ∷ words.entry) step → ⊥) }
{
    let by = one_number(words)?;
    (by <= MOST_TIME).then_some(Step::Time { by })
}

/// The step of a keyword and of the numbers behind it.
fn read_numbered(keyword: Keyword, words: Words<'_>) -> Option<Step>
    ensures found { IfSome result (λ step. AreWords (keyword_text keyword ∷ words.entry) step) }
    ensures none { IfNone result ((step : Step) → AreWords (keyword_text keyword ∷ words.entry) step → ⊥) }
{
    match keyword {
        Keyword::Session => read_session(words),
        Keyword::Cap => no_number(words).then_some(Step::Cap),
        Keyword::Send => one_number(words).map(|session| Step::Send { session }),
        Keyword::Video => two_numbers(words).map(|(session, k)| Step::Video { session, k }),
        Keyword::Audio => two_numbers(words).map(|(session, k)| Step::Audio { session, k }),
        Keyword::Videos => read_videos(words),
        Keyword::Up => two_numbers(words).map(|(session, k)| Step::Up { session, k }),
        Keyword::Down => two_numbers(words).map(|(session, k)| Step::Down { session, k }),
        Keyword::Idr => one_number(words).map(|session| Step::Idr { session }),
        Keyword::Time => read_time(words),
        Keyword::Pump => two_numbers(words).map(|(session, every)| Step::Pump { session, every }),
        Keyword::Close => one_number(words).map(|session| Step::Close { session }),
        Keyword::Reset => one_number(words).map(|session| Step::Reset { session }),
    }
}

/// The step of an event's name, and of the session and the event's own words behind it.
fn read_input(name: &[u8], mut words: Words<'_>) -> Option<Step>
    ensures found { IfSome result (λ step. AreWords (name.now ∷ words.entry) step) }
    ensures none { IfNone result ((session : ℕ) (event : Event)
        → AreWords (name.now ∷ words.entry) (Input session event) → ⊥) }
{
    let session = next_number(&mut words)?;
    let event = read_arguments(name, words)?;
    Some(Step::Input { session, event })
}

/// The step of a line, which is given without its newline.
pub fn read_line(line: &[u8]) -> Option<Step>
    // A step is read exactly where the line spells it.
    ensures { (step : Step) → (result ≡ Some step) ↔ Spells line.now step }
{
    if is_blank(line) {
        return Some(Step::Blank);
    }
    let mut words = Words::of(line);
    let name = words.next_word()?;
    match keyword_of(name) {
        Some(keyword) => read_numbered(keyword, words),
        None => read_input(name, words),
    }
}
