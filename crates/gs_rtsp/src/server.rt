//! The host's end.

use crate::field::{Field, has_number};
use crate::response::response;
use crate::stream::Stream;
use crate::verdict::{BAD_REQUEST, METHOD_NOT_VALID, SESSION_NOT_FOUND, Verdict};
use gs_bytes::OutOfMemory;
use gs_rtp::Settings;
use gs_rtsp_text::{Method, Request, Response};
use gs_sdp::settings_of;
use std::alloc::Global;

/// How far a session has come.
#[derive(Clone, Copy, Debug)]
pub(crate) enum Phase {
    /// No settings were announced.
    SettingUp,
    /// These settings were announced.
    Announced(Settings),
    /// The session plays with these settings.
    Playing(Settings),
}

/// The host's end of a session's set-up (RFC 2326, sections 10.1 to 10.5): it answers the requests
/// of one client. Which it accepts depends on those before (appendix A.2).
#[derive(Debug, Drop)]
pub struct Server {
    pub(crate) offer: Settings,
    pub(crate) base: u16,
    pub(crate) audio: bool,
    pub(crate) video: bool,
    pub(crate) control: bool,
    pub(crate) phase: Phase,
    pub(crate) ghost base_greatest: { base ≤ 65000 },
}

ghost use Rattle.std.specs.Prelude.{◌≤◌};

impl Server {
    ghost use Rattle.std.specs.Prelude.{◌≡◌, ◌≢◌, ℕ, List, [], ◌∷◌, ◌&&◌, IsTrue, IfOk, OnOk, OnErr};
    ghost use Rattle.gs_rtp.specs.declared.settings.Settings.{Settings};
    ghost use Rattle.gs_rtsp_text.specs.declared.message.Method.TheVariants.{Setup as method_setup};
    ghost use Rattle.gs_rtsp_text.specs.declared.message.Method.TheVariants.{Announce as method_announce};
    ghost use Rattle.gs_rtsp_text.specs.declared.message.Method.TheVariants.{Play as method_play};
    ghost use Rattle.gs_rtsp_text.specs.declared.message.Request.{Request};
    ghost use Rattle.gs_rtsp_text.specs.Lines.{cseq_count};
    ghost use Rattle.gs_rtsp_text.specs.Message.{is_one, IsRequest};
    ghost use Rattle.gs_rtsp_text.specs.Writing.{IsSendableResponse};
    ghost use Rattle.gs_rtsp.specs.Reply.{answered, status_code, reply, names_session as names_session_of};
    ghost use Rattle.gs_rtsp.specs.Reply.{names_other_session as names_other_session_of};
    ghost use Rattle.gs_rtsp.specs.Verdicts.{IsVerdict, IsVerdictBy, answer_of, has_code};
    ghost use Rattle.gs_rtsp.specs.Standing.{Serves, ArePlayed, is_phase_playing};

    /// A server that offers these settings over the ports of this base. Its session's number is
    /// the offer's `ssrc`.
    pub fn new(offer: Settings, base: u16) -> Server
        requires least { 1024 ≤ base }
        requires greatest { base ≤ 65000 }
        ensures { Serves result offer base [] }
    {
        Server {
            offer,
            base,
            audio: false,
            video: false,
            control: false,
            phase: Phase::SettingUp,
        }
    }

    /// The settings with which the session plays, if it does.
    pub fn playing(&self) -> Option<Settings>
        ensures { (offer : Settings) (base : ℕ) (requests : List Request)
            → Serves self.now offer base requests → ArePlayed offer requests result }
    {
        match self.phase {
            Phase::Playing(settings) => Some(settings),
            Phase::SettingUp | Phase::Announced(_) => None,
        }
    }

    fn is_playing(&self) -> bool
        ensures { result ≡ is_phase_playing self.now.phase }
    {
        match self.phase {
            Phase::Playing(_) => true,
            Phase::SettingUp | Phase::Announced(_) => false,
        }
    }

    fn is_set_up(&self) -> bool
        ensures { result ≡ (self.now.audio && self.now.video && self.now.control) }
    {
        self.audio && self.video && self.control
    }

    /// Whether the request's session is this one.
    fn names_session(&self, request: &Request) -> bool
        ensures { result ≡ names_session_of self.now.offer.ssrc request.now.headers }
    {
        has_number(&request.headers, Field::Session, self.offer.ssrc)
    }

    /// Whether the request has a session, and it isn't this one.
    fn names_other_session(&self, request: &Request) -> bool
        ensures { result ≡ names_other_session_of self.now.offer.ssrc request.now.headers }
    {
        request.headers.value_of(Field::Session.name()).is_some() && !self.names_session(request)
    }

    fn set_up_verdict(&self, request: &Request) -> Verdict
        ensures verdict { (offer : Settings) (base : ℕ) (earlier : List Request)
            → Serves self.now offer base earlier
            → IsVerdictBy offer (answered offer earlier) method_setup request.now result }
        ensures code { IsTrue (has_code result) }
    {
        if self.is_playing() {
            return Verdict::Refused(METHOD_NOT_VALID);
        }
        let Some(stream) = Stream::named_in(request.target.as_bytes()) else {
            return Verdict::Refused(BAD_REQUEST);
        };
        if self.names_other_session(request) {
            return Verdict::Refused(SESSION_NOT_FOUND);
        }
        Verdict::SetUp(stream)
    }

    fn announce_verdict(&self, request: &Request) -> Verdict
        ensures verdict { (offer : Settings) (base : ℕ) (earlier : List Request)
            → Serves self.now offer base earlier
            → IsVerdictBy offer (answered offer earlier) method_announce request.now result }
        ensures code { IsTrue (has_code result) }
    {
        if self.is_playing() || !self.is_set_up() {
            return Verdict::Refused(METHOD_NOT_VALID);
        }
        if !self.names_session(request) {
            return Verdict::Refused(SESSION_NOT_FOUND);
        }
        match settings_of(request.body.as_bytes(), &self.offer) {
            Ok(settings) => Verdict::Announced(settings),
            Err(_) => Verdict::Refused(BAD_REQUEST),
        }
    }

    fn play_verdict(&self, request: &Request) -> Verdict
        ensures verdict { (offer : Settings) (base : ℕ) (earlier : List Request)
            → Serves self.now offer base earlier
            → IsVerdictBy offer (answered offer earlier) method_play request.now result }
        ensures code { IsTrue (has_code result) }
    {
        let settings = match self.phase {
            Phase::SettingUp => return Verdict::Refused(METHOD_NOT_VALID),
            Phase::Announced(settings) | Phase::Playing(settings) => settings,
        };
        if !self.names_session(request) {
            return Verdict::Refused(SESSION_NOT_FOUND);
        }
        Verdict::Playing(settings)
    }

    fn verdict(&self, request: &Request) -> Verdict
        ensures verdict { (offer : Settings) (base : ℕ) (earlier : List Request)
            → Serves self.now offer base earlier
            → IsVerdict offer (answered offer earlier) request.now result }
        ensures code { IsTrue (has_code result) }
    {
        match request.method {
            Method::Options => Verdict::Unchanged,
            Method::Describe => Verdict::Described,
            Method::Setup => self.set_up_verdict(request),
            Method::Announce => self.announce_verdict(request),
            Method::Play => self.play_verdict(request),
        }
    }

    /// Keeps what the verdict on a request changes.
    fn keep(&mut self, verdict: Verdict)
        ensures stands { (offer : Settings) (base : ℕ) (earlier : List Request) (request : Request)
            → Serves self.old offer base earlier
            → IsVerdict offer (answered offer earlier) request verdict
            → Serves self.new offer base (request ∷ earlier) }
        ensures refused { status_code (answer_of verdict) ≢ 200 → self.new ≡ self.old }
    {
        match verdict {
            Verdict::SetUp(Stream::Audio) => self.audio = true,
            Verdict::SetUp(Stream::Video) => self.video = true,
            Verdict::SetUp(Stream::Control) => self.control = true,
            Verdict::Announced(settings) => self.phase = Phase::Announced(settings),
            Verdict::Playing(settings) => self.phase = Phase::Playing(settings),
            Verdict::Unchanged | Verdict::Described | Verdict::Refused(_) => {}
        }
    }

    /// The response to a request, by those that came before it.
    pub fn answer(&mut self, alloc: Global, request: &Request) -> Result<Response, OutOfMemory>
        requires sequence { IsTrue (is_one (cseq_count request.now.headers)) }
        ensures reply { IfOk result (λ response.
            (offer : Settings) (base : ℕ) (earlier : List Request)
            → Serves self.old offer base earlier → response ≡ reply offer base earlier request.now) }
        ensures stands { OnOk result (
            (offer : Settings) (base : ℕ) (earlier : List Request)
            → Serves self.old offer base earlier → Serves self.new offer base (request.now ∷ earlier)) }
        ensures refused { IfOk result (λ response. response.code ≢ 200 → self.new ≡ self.old) }
        ensures memory { OnErr result (self.new ≡ self.old) }
        // The response to a request that was read can be written.
        ensures sendable { (bytes : List ℕ) → IsRequest bytes request.now → IfOk result IsSendableResponse }
    {
        let verdict = self.verdict(request);
        let response = response(alloc, &self.offer, self.base, request, verdict)?;
        self.keep(verdict);
        Ok(response)
    }
}
