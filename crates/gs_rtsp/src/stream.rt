//! The streams of a session.

ghost use Rattle.std.specs.Prelude.{◌≡◌, ◌≤◌};
ghost use Rattle.gs_rtsp.specs.Fields.{port_of, data_field as data_field_of};
ghost use Rattle.gs_rtsp.specs.Reply.{stream_word, stream_at, stream_in};
ghost use Rattle.gs_rtsp.specs.Asking.{stream_target};

use crate::field::Field;

/// A stream, which a SETUP of its own sets up (RFC 2326, section 10.4).
#[derive(Clone, Copy, Debug, PartialEq, Eq)]
pub enum Stream {
    Audio,
    Video,
    Control,
}

/// The video port, above the base.
const VIDEO_PORT: u16 = 9;

/// The control port, above the base.
const CONTROL_PORT: u16 = 10;

/// The audio port, above the base.
const AUDIO_PORT: u16 = 11;

impl Stream {
    /// The host's port of the stream, by the base of its ports.
    pub fn port(self, base: u16) -> u16
        requires { base ≤ 65000 }
        ensures { result ≡ port_of base self }
    {
        match self {
            Stream::Video => base + VIDEO_PORT,
            Stream::Control => base + CONTROL_PORT,
            Stream::Audio => base + AUDIO_PORT,
        }
    }

    /// The header in which the host tells the client what to name its session by on this stream.
    pub fn data_field(self) -> Field
        ensures { result ≡ data_field_of self }
    {
        match self {
            Stream::Audio | Stream::Video => Field::PingPayload,
            Stream::Control => Field::ConnectData,
        }
    }

    /// The word of the stream in a target.
    fn word(self) -> &'static [u8]
        ensures { result.now ≡ stream_word self }
    {
        match self {
            Stream::Audio => b"streamid=audio",
            Stream::Video => b"streamid=video",
            Stream::Control => b"streamid=control",
        }
    }

    /// The target of a client's SETUP.
    pub(crate) fn target(self) -> &'static [u8]
        ensures { result.now ≡ stream_target self }
    {
        match self {
            Stream::Audio => b"streamid=audio/0/0",
            Stream::Video => b"streamid=video/0/0",
            Stream::Control => b"streamid=control/1/0",
        }
    }

    /// The stream whose word these bytes begin with.
    fn at(bytes: &[u8]) -> Option<Stream>
        ensures { result ≡ stream_at bytes.now }
    {
        if bytes.starts_with(Stream::Audio.word()) {
            Some(Stream::Audio)
        } else if bytes.starts_with(Stream::Video.word()) {
            Some(Stream::Video)
        } else if bytes.starts_with(Stream::Control.word()) {
            Some(Stream::Control)
        } else {
            None
        }
    }

    /// The stream whose word stands first in a target.
    pub(crate) fn named_in(target: &[u8]) -> Option<Stream>
        ensures { result ≡ stream_in target.now }
    {
        for i in 0..target.len() {
            if let Some(stream) = Stream::at(&target[i..]) {
                return Some(stream);
            }
        }
        None
    }
}
