//! What the reply to a request tells, and what it lacks.

ghost use Rattle.std.specs.Prelude.{◌≡◌, ◌≤◌, ◌&&◌, Some, None, true, false, is_some, unwrap_or, MatchOption};
ghost use Rattle.std.specs.Prelude.{MatchResult};
ghost use Rattle.gs_rtp.specs.Stream.{numbers_of};
ghost use Rattle.gs_rtsp.specs.Asking.{duration_in as duration_of, audio_in as audio_of, session_in};
ghost use Rattle.gs_rtsp.specs.Asking.{is_session_allowed};
ghost use Rattle.gs_rtsp.specs.Asking.{names_stream, is_good, reply_fault, with_told};

use crate::field::{Field, has_number, header_number};
use crate::question::Question;
use crate::response::AUDIO_LENGTH;
use crate::step::Fault;
use crate::stream::Stream;
use crate::verdict::OK;
use gs_bytes::{DURATION_LONG, DURATION_SHORT, MOST_AUDIO, parse_number};
use gs_rtp::{SSRC_GREATEST, SSRC_LEAST, Settings};
use gs_rtsp_text::{Headers, Response};
use gs_sdp::{SettingName, last_value};

/// The duration of an audio unit that a description names.
fn duration_in(body: &[u8]) -> Option<u32>
    ensures { result ≡ duration_of body.now }
{
    let value = last_value(body, SettingName::Duration.attribute())?;
    let duration = parse_number(value, u32::from(DURATION_LONG))?;
    if duration == u32::from(DURATION_SHORT) || duration == u32::from(DURATION_LONG) {
        Some(duration)
    } else {
        None
    }
}

/// The length of an audio unit that a description names.
fn audio_in(body: &[u8]) -> Option<u32>
    ensures { result ≡ audio_of body.now }
{
    let value = last_value(body, AUDIO_LENGTH)?;
    parse_number(value, u32::from(MOST_AUDIO))
}

fn described(settings: &Settings, body: &[u8]) -> Option<Settings>
    ensures { MatchOption result ((is_some (duration_of body.now) && is_some (audio_of body.now)) ≡ false)
        (λ s. ((is_some (duration_of body.now) && is_some (audio_of body.now)) ≡ true)
        × (numbers_of s ≡ record (numbers_of settings.now) {
          duration = unwrap_or (duration_of body.now) settings.now.duration;
          audio = unwrap_or (audio_of body.now) settings.now.audio;
        })) }
{
    let Some(duration) = duration_in(body) else {
        return None;
    };
    let Some(audio) = audio_in(body) else {
        return None;
    };
    let mut settings = *settings;
    settings.duration = duration as u8;
    settings.audio = audio as u16;
    Some(settings)
}

/// Whether a session has a number that it may have: at the second and third set-up that of the first.
fn is_session(agreed_on: u32, stream: Stream, session: u32) -> bool
    ensures { result ≡ is_session_allowed agreed_on stream session }
{
    (SSRC_LEAST..=SSRC_GREATEST).contains(&session)
        && (stream == Stream::Audio || session == agreed_on)
}

fn set_up(settings: &Settings, base: u16, stream: Stream, headers: &Headers) -> Option<Settings>
    requires { base ≤ 65000 }
    ensures { MatchOption result
        (names_stream base settings.now.ssrc stream headers.now (session_in headers.now) ≡ false)
        (λ s. (names_stream base settings.now.ssrc stream headers.now (session_in headers.now) ≡ true)
        × (numbers_of s ≡ record (numbers_of settings.now) {
          ssrc = unwrap_or (session_in headers.now) settings.now.ssrc;
        })) }
{
    let Some(session) = header_number(headers, Field::Session) else {
        return None;
    };
    if !is_session(settings.ssrc, stream, session) {
        return None;
    }
    if !has_number(headers, Field::Port, u32::from(stream.port(base))) {
        return None;
    }
    if !has_number(headers, stream.data_field(), session) {
        return None;
    }
    let mut settings = *settings;
    settings.ssrc = session;
    Some(settings)
}

/// The settings with what a reply of code 200 tells, where it lacks nothing.
fn told(
    settings: &Settings,
    base: u16,
    number: u8,
    question: Question,
    reply: &Response,
) -> Option<Settings>
    requires { base ≤ 65000 }
    ensures { MatchOption result (is_good base settings.now.ssrc number question reply.now ≡ false)
        (λ s. (is_good base settings.now.ssrc number question reply.now ≡ true)
        × (numbers_of s ≡ with_told question reply.now (numbers_of settings.now))) }
{
    if !has_number(&reply.headers, Field::Sequence, u32::from(number)) {
        return None;
    }
    match question {
        Question::Options | Question::Announce | Question::Play => Some(*settings),
        Question::Describe => described(settings, reply.body.as_bytes()),
        Question::SetUp(stream) => set_up(settings, base, stream, &reply.headers),
    }
}

/// The settings with what the reply to a request tells, or the reply's fault.
pub(crate) fn judged(
    settings: &Settings,
    base: u16,
    number: u8,
    question: Question,
    reply: &Response,
) -> Result<Settings, Fault>
    requires { base ≤ 65000 }
    ensures { MatchResult result
        (λ s. (reply_fault base settings.now.ssrc number question reply.now ≡ None)
        × (is_good base settings.now.ssrc number question reply.now ≡ true)
        × (numbers_of s ≡ with_told question reply.now (numbers_of settings.now)))
        (λ fault. reply_fault base settings.now.ssrc number question reply.now ≡ Some fault) }
{
    if reply.code != OK {
        return Err(Fault::Refused(reply.code));
    }
    match told(settings, base, number, question, reply) {
        Some(settings) => Ok(settings),
        None => Err(Fault::BadReply(number)),
    }
}
