//! Laws of the answers to bytes that come one after the other.

ghost use Rattle.gs_rtsp_text.specs.Lines.{IsRequestLine, IsStatusLine};
ghost use Rattle.gs_rtsp_text.specs.Message.{is_one, is_at_most_one};
ghost use Rattle.gs_rtsp_text.specs.Laws.{HasOneAnswer, Stays, IsSameInPieces};
ghost use Rattle.gs_rtsp_text.specs.Writing.{RequestIsReadAgain, ResponseIsReadAgain};

/// A stream of requests has one answer, whatever pieces it comes in: as soon as what has come has
/// one, it stays.
pub fn requests_in_any_pieces()
    ensures one { HasOneAnswer IsRequestLine is_one }
    ensures stays { Stays IsRequestLine is_one }
    ensures pieces { IsSameInPieces IsRequestLine is_one }
{}

/// The same of responses.
pub fn responses_in_any_pieces()
    ensures one { HasOneAnswer IsStatusLine is_at_most_one }
    ensures stays { Stays IsStatusLine is_at_most_one }
    ensures pieces { IsSameInPieces IsStatusLine is_at_most_one }
{}

/// A request that is written is read again as the same value, whatever comes behind it.
pub fn written_request_is_read()
    ensures { RequestIsReadAgain }
{}

/// The same of a response.
pub fn written_response_is_read()
    ensures { ResponseIsReadAgain }
{}
