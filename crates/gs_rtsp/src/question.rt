//! What a client asks.

ghost use Rattle.std.specs.Prelude.{◌≡◌, ◌≤◌, ◌-◌, Some, slice_get};
ghost use Rattle.gs_rtsp.specs.Asking.{questions, question_number, method_of};

use crate::stream::Stream;
use gs_rtsp_text::Method;

/// A request of a client.
#[derive(Clone, Copy, Debug, PartialEq, Eq)]
pub(crate) enum Question {
    Options,
    Describe,
    SetUp(Stream),
    Announce,
    Play,
}

/// How many requests a client asks.
pub(crate) const COUNT: u8 = 7;

impl Question {
    /// The request of this number, from 1.
    pub(crate) fn numbered(number: u8) -> Question
        requires least { 1 ≤ number }
        requires greatest { number ≤ 7 }
        ensures place { slice_get questions (number - 1) ≡ Some result }
        ensures number { question_number result ≡ number }
    {
        match number {
            1 => Question::Options,
            2 => Question::Describe,
            3 => Question::SetUp(Stream::Audio),
            4 => Question::SetUp(Stream::Video),
            5 => Question::SetUp(Stream::Control),
            6 => Question::Announce,
            _ => Question::Play,
        }
    }

    pub(crate) fn method(self) -> Method
        ensures { result ≡ method_of self }
    {
        match self {
            Question::Options => Method::Options,
            Question::Describe => Method::Describe,
            Question::SetUp(_) => Method::Setup,
            Question::Announce => Method::Announce,
            Question::Play => Method::Play,
        }
    }
}
