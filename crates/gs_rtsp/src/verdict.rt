//! What a request comes to.

ghost use Rattle.std.specs.Prelude.{◌≡◌};
ghost use Rattle.gs_rtsp.specs.Reply.{status_code};
ghost use Rattle.gs_rtsp.specs.Verdicts.{answer_of};

use crate::stream::Stream;
use gs_rtp::Settings;

/// The code of a response to a request that is accepted (RFC 2326, section 7.1.1).
pub(crate) const OK: u16 = 200;

/// The code for a target or a body that isn't right.
pub(crate) const BAD_REQUEST: u16 = 400;

/// The code for a request that doesn't name its session.
pub(crate) const SESSION_NOT_FOUND: u16 = 454;

/// The code for a request that comes too early or too late.
pub(crate) const METHOD_NOT_VALID: u16 = 455;

/// What a request comes to.
#[derive(Clone, Copy, Debug)]
pub(crate) enum Verdict {
    /// It is answered, and changes nothing.
    Unchanged,
    /// The offer is described.
    Described,
    /// The stream is set up.
    SetUp(Stream),
    /// The settings are kept.
    Announced(Settings),
    /// The session plays with these settings.
    Playing(Settings),
    /// It is refused with this code.
    Refused(u16),
}

impl Verdict {
    /// The code of the response.
    pub(crate) fn code(self) -> u16
        ensures { result ≡ status_code (answer_of self) }
    {
        match self {
            Verdict::Refused(code) => code,
            Verdict::Unchanged
            | Verdict::Described
            | Verdict::SetUp(_)
            | Verdict::Announced(_)
            | Verdict::Playing(_) => OK,
        }
    }
}
