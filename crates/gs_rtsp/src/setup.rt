//! The client's end.

use crate::question::{COUNT, Question};
use crate::request::request;
use crate::step::{Fault, SetupError, Step};
use crate::told::judged;
use gs_bytes::{Addr, OutOfMemory};
use gs_rtp::Settings;
use gs_rtsp_text::Response;
use std::alloc::Global;

/// The host's RTSP port, above the base of its ports.
const RTSP_PORT: u16 = 21;

/// The client's end of a session's set-up (RFC 2326, sections 10.1 to 10.5): it asks seven
/// requests, one after the other (appendix A.1).
#[derive(Debug, Drop)]
pub struct Setup {
    /// What is wanted, with what the replies told.
    pub(crate) settings: Settings,
    /// The address of the host's RTSP port.
    pub(crate) host: Addr,
    /// How many requests were asked, and one more where the last reply came.
    pub(crate) asked: u8,
    /// The first fault of a reply.
    pub(crate) fault: Option<Fault>,
    pub(crate) ghost port_least: { 1045 ≤ host.port },
    pub(crate) ghost port_greatest: { host.port ≤ 65021 },
}

ghost use Rattle.std.specs.Prelude.{◌≤◌};

impl Setup {
    ghost use Rattle.std.specs.Prelude.{◌≡◌, ◌+◌, List, [], None, IfOk, OnOk, OnErr, is_some, nat_lt};
    ghost use Rattle.std.specs.Option.{option_copied};
    ghost use Rattle.gs_bytes.specs.declared.addr.Addr.{Addr};
    ghost use Rattle.gs_rtp.specs.declared.settings.Settings.{Settings};
    ghost use Rattle.gs_rtsp_text.specs.declared.message.Response.{Response};
    ghost use Rattle.gs_rtsp.specs.Asking.{IsNextAnswer, with_reply};
    ghost use Rattle.gs_rtsp.specs.Standing.{asked_count, Asks, IsJudged, IsStepAfter, Leaves, IfAsk};
    ghost use Rattle.gs_rtsp_text.specs.Writing.{IsSendableRequest};

    /// A set-up that wants these settings of a host, by the address of its RTSP port.
    pub fn new(want: Settings, host: Addr) -> Setup
        requires least { 1045 ≤ host.port }
        requires greatest { host.port ≤ 65021 }
        ensures stands { Asks result want host [] }
        ensures asked { asked_count result ≡ 0 }
    {
        Setup {
            settings: want,
            host,
            asked: 0,
            fault: None,
        }
    }

    /// The settings with what a reply told, or the first fault.
    fn told_by(&self, reply: Option<&Response>) -> Result<Settings, Fault>
        requires reply { is_some reply ≡ nat_lt 0 (asked_count self.now) }
        requires open { asked_count self.now ≤ 7 }
        ensures judged { (want : Settings) (host : Addr) (replies : List Response)
            → Asks self.now want host replies
            → IsJudged want host (with_reply (option_copied reply.entry) replies) result }
        ensures faultless { OnOk result (self.now.fault ≡ None) }
    {
        if let Some(fault) = self.fault {
            return Err(fault);
        }
        match reply {
            None => Ok(self.settings),
            Some(reply) => {
                let question = Question::numbered(self.asked);
                let base = self.host.port - RTSP_PORT;
                judged(&self.settings, base, self.asked, question, reply)
            }
        }
    }

    /// What is done next with these settings.
    fn step(&self, alloc: Global, settings: Settings) -> Result<Step, OutOfMemory>
        requires { asked_count self.now ≤ 7 }
        ensures step { IfOk result (IsStepAfter self.now.host self.now.asked settings) }
        ensures sendable { IfOk result (λ step. IfAsk step IsSendableRequest) }
    {
        if self.asked == COUNT {
            return Ok(Step::Ready(settings));
        }
        let number = self.asked + 1;
        let question = Question::numbered(number);
        let request = request(alloc, self.host, &settings, number, question)?;
        Ok(Step::Ask(request))
    }

    /// What is to be done next, once the reply to the last request came.
    pub fn next(&mut self, alloc: Global, reply: Option<&Response>) -> Result<Step, SetupError>
        requires reply { is_some reply ≡ nat_lt 0 (asked_count self.old) }
        requires open { asked_count self.old ≤ 7 }
        ensures next { (want : Settings) (host : Addr) (replies : List Response)
            → Asks self.old want host replies
            → IsNextAnswer want host (with_reply (option_copied reply.entry) replies) result }
        ensures stands { Leaves self.old self.new (option_copied reply.entry) result }
        ensures asked { OnOk result (asked_count self.new ≡ asked_count self.old + 1) }
        ensures same { OnErr result (asked_count self.new ≡ asked_count self.old) }
        ensures sendable { IfOk result (λ step. IfAsk step IsSendableRequest) }
    {
        match self.told_by(reply) {
            Err(fault) => {
                self.fault = Some(fault);
                Err(fault.error())
            }
            Ok(settings) => {
                let step = self.step(alloc, settings)?;
                self.settings = settings;
                self.asked += 1;
                Ok(step)
            }
        }
    }
}
