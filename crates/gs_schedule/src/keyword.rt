//! The first words of the lines that have only numbers behind them.

ghost use Rattle.std.specs.Prelude.{◌≡◌, IfNone, IfSome};
ghost use Rattle.gs_schedule.specs.declared.keyword.Keyword.{Keyword};
ghost use Rattle.gs_schedule.specs.Keyword.{keyword_text};

/// The first word of a line that has only numbers behind it.
#[derive(Clone, Copy, Debug)]
pub enum Keyword {
    Session,
    Cap,
    Send,
    Video,
    Audio,
    Videos,
    Up,
    Down,
    Idr,
    Time,
    Pump,
    Close,
    Reset,
}

/// The keyword that the word is.
pub fn keyword_of(word: &[u8]) -> Option<Keyword>
    ensures found { IfSome result (λ keyword. word.now ≡ keyword_text keyword) }
    ensures none { IfNone result ((keyword : Keyword) → word.now ≡ keyword_text keyword → ⊥) }
{
    if word == b"session".as_slice() {
        Some(Keyword::Session)
    } else if word == b"cap".as_slice() {
        Some(Keyword::Cap)
    } else if word == b"send".as_slice() {
        Some(Keyword::Send)
    } else if word == b"video".as_slice() {
        Some(Keyword::Video)
    } else if word == b"audio".as_slice() {
        Some(Keyword::Audio)
    } else if word == b"videos".as_slice() {
        Some(Keyword::Videos)
    } else if word == b"up".as_slice() {
        Some(Keyword::Up)
    } else if word == b"down".as_slice() {
        Some(Keyword::Down)
    } else if word == b"idr".as_slice() {
        Some(Keyword::Idr)
    } else if word == b"time".as_slice() {
        Some(Keyword::Time)
    } else if word == b"pump".as_slice() {
        Some(Keyword::Pump)
    } else if word == b"close".as_slice() {
        Some(Keyword::Close)
    } else if word == b"reset".as_slice() {
        Some(Keyword::Reset)
    } else {
        None
    }
}
