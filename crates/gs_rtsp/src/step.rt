//! What a client does next.

use gs_bytes::OutOfMemory;
use gs_rtp::Settings;
use gs_rtsp_text::Request;
use thiserror::Error;

/// What is to be done next.
#[derive(Debug, Drop)]
pub enum Step {
    /// This request is to be sent, and its response handed to the next call.
    Ask(Request),
    /// The host plays, with these settings.
    Ready(Settings),
}

/// Why a reply ends the set-up.
#[derive(Clone, Copy, Debug, PartialEq, Eq)]
pub(crate) enum Fault {
    /// Its code isn't 200.
    Refused(u16),
    /// The reply to this request, from 1, lacks something that it must have.
    BadReply(u8),
}

impl Fault {
    ghost use Rattle.std.specs.Prelude.{◌≡◌};
    ghost use Rattle.gs_rtsp.specs.Asking.{error_of};

    pub(crate) fn error(self) -> SetupError
        ensures { result ≡ error_of self }
    {
        match self {
            Fault::Refused(code) => SetupError::Refused(code),
            Fault::BadReply(number) => SetupError::BadReply(number),
        }
    }
}

/// Why there is no next step.
#[derive(Clone, Copy, Debug, PartialEq, Eq, Error)]
pub enum SetupError {
    /// The host answered with this code, which isn't 200.
    #[error("refused with {0}")]
    Refused(u16),
    /// The reply to this request, from 1, lacks something that it must have.
    #[error("bad reply to step {0}")]
    BadReply(u8),
    #[error("out of memory")]
    OutOfMemory,
}

impl From<OutOfMemory> for SetupError {
    ghost use Rattle.std.specs.Prelude.{◌≡◌};
    ghost use Rattle.gs_rtsp.specs.declared.step.SetupError.TheVariants.{OutOfMemory};

    ghost from_gives = { λ _ e. e ≡ OutOfMemory };

    fn from(_refused: OutOfMemory) -> SetupError {
        SetupError::OutOfMemory
    }
}
