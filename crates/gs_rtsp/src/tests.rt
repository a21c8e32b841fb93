//! The two ends against each other, the table of replies, and replies that lack something.

ghost use Rattle.std.specs.Prelude.{◌≡◌, ◌≤◌, ◌+◌, IfOk, OnOk};
ghost use Rattle.gs_rtsp_text.specs.Writing.{IsSendableRequest};
ghost use Rattle.gs_rtsp.specs.Standing.{asked_count, IfAsk};

mod texts;

use super::*;
use gs_bytes::{Addr, Text};
use gs_rtp::Settings;
use gs_rtsp_text::{
    Read, Request, Response, read_request, read_response, write_request, write_response,
};
use gs_sdp::{BadSetting, SettingName, settings_of};
use std::alloc::Global;
use std::test::Fail;

const HOST: Addr = Addr {
    ip: 0x7F00_0001,
    port: 48_010,
};

const BASE: u16 = 47_989;

/// What a host offers.
fn offer() -> Result<Settings, Fail> {
    Ok(Settings::make(1_100, 20, 1, 30, 5, 240, 7).ok_or("an offer")?)
}

/// What a client wants.
fn want() -> Result<Settings, Fail> {
    Ok(Settings::make(1_392, 20, 2, 120, 10, 0, 1).ok_or("a wish")?)
}

/// The response of a server to a request, both as texts.
fn answered(server: &mut Server, alloc: Global, text: &[u8]) -> Result<Text, Fail> {
    match read_request(alloc, text)? {
        Read::Whole { value, used: _ } => {
            let response = server.answer(alloc, &value)?;
            Ok(write_response(alloc, &response)?)
        }
        Read::More => Err(Fail::new("a request is cut")),
    }
}

fn response_of(alloc: Global, text: &[u8]) -> Result<Response, Fail> {
    match read_response(alloc, text)? {
        Read::Whole { value, used: _ } => Ok(value),
        Read::More => Err(Fail::new("a response is cut")),
    }
}

/// The step behind one more request and its response, both by their texts.
fn round(
    setup: &mut Setup,
    server: &mut Server,
    alloc: Global,
    request: &Request,
) -> Result<Step, Fail>
    requires sendable { IsSendableRequest request.now }
    requires asked { 1 ≤ asked_count setup.old }
    requires open { asked_count setup.old ≤ 7 }
    ensures asked { OnOk result (asked_count setup.new ≡ asked_count setup.old + 1) }
    ensures sendable { IfOk result (λ step. IfAsk step IsSendableRequest) }
{
    let text = write_request(alloc, request)?;
    let text = answered(server, alloc, text.as_bytes())?;
    let response = response_of(alloc, text.as_bytes())?;
    Ok(setup.next(alloc, Some(&response))?)
}

/// The settings behind seven rounds.
fn settled(setup: &mut Setup, server: &mut Server, alloc: Global) -> Result<Settings, Fail>
    requires { asked_count setup.old ≡ 0 }
{
    let mut step = setup.next(alloc, None)?;
    for _round in 0..7_usize {
        step = match step {
            Step::Ask(request) => round(setup, server, alloc, &request)?,
            Step::Ready(_) => return Err(Fail::new("ready too early")),
        };
    }
    match step {
        Step::Ready(settings) => Ok(settings),
        Step::Ask(_) => Err(Fail::new("not ready")),
    }
}

#[test]
fn both_ends_by_their_texts(rt: HostRuntime) -> Result<(), Fail> {
    let mut server = Server::new(offer()?, BASE);
    let mut setup = Setup::new(want()?, HOST);
    assert_eq!(rt; server.playing(), None);
    let settings = settled(&mut setup, &mut server, rt.alloc())?;
    assert_eq!(rt; server.playing(), Some(settings));
    assert_eq!(rt;
        Some(settings),
        Settings::make(1_392, 20, 2, 120, 5, 240, 7)
    );
    Ok(())
}

/// The requests of a whole set-up from the first SETUP on.
const REQUESTS: [&[u8]; 5] = [
    b"SETUP streamid=audio RTSP/1.0\r\nCSeq: 1\r\n\r\n",
    b"SETUP streamid=video RTSP/1.0\r\nCSeq: 2\r\nSession: DEADBEEF0007\r\n\r\n",
    b"SETUP streamid=control RTSP/1.0\r\nCSeq: 3\r\nSession: DEADBEEF0007\r\n\r\n",
    b"ANNOUNCE x RTSP/1.0\r\nCSeq: 4\r\nSession: DEADBEEF0007\r\n\r\n",
    b"PLAY x RTSP/1.0\r\nCSeq: 5\r\nSession: DEADBEEF0007\r\n\r\n",
];

/// The code of the response to a request behind so many of these.
fn code_behind(alloc: Global, count: usize, text: &[u8]) -> Result<u16, Fail> {
    let mut server = Server::new(offer()?, BASE);
    for (i, request) in REQUESTS.iter().enumerate() {
        if i < count {
            let _response = answered(&mut server, alloc, request)?;
        }
    }
    let text = answered(&mut server, alloc, text)?;
    Ok(response_of(alloc, text.as_bytes())?.code)
}

#[test]
fn each_row_met_and_passed_over(rt: HostRuntime) -> Result<(), Fail> {
    for (count, text, want) in [
        (0, b"OPTIONS x RTSP/1.0\r\nCSeq: 9\r\n\r\n".as_slice(), 200),
        (5, b"OPTIONS x RTSP/1.0\r\nCSeq: 9\r\n\r\n".as_slice(), 200),
        (5, b"DESCRIBE x RTSP/1.0\r\nCSeq: 9\r\n\r\n".as_slice(), 200),
        (5, b"SETUP x RTSP/1.0\r\nCSeq: 9\r\n\r\n".as_slice(), 455),
        (5, b"ANNOUNCE x RTSP/1.0\r\nCSeq: 9\r\n\r\n".as_slice(), 455),
        (
            4,
            b"SETUP x RTSP/1.0\r\nCSeq: 9\r\nSession: x\r\n\r\n".as_slice(),
            400,
        ),
        (
            4,
            b"SETUP streamid=audio RTSP/1.0\r\nCSeq: 9\r\nSession: x\r\n\r\n".as_slice(),
            454,
        ),
        (
            0,
            b"SETUP streamid=audio RTSP/1.0\r\nCSeq: 9\r\nSession: DEADBEEF0008\r\n\r\n".as_slice(),
            454,
        ),
        (
            0,
            b"SETUP streamid=audio RTSP/1.0\r\nCSeq: 9\r\nSession: DEADBEEF0007;x\r\n\r\n".as_slice(),
            200,
        ),
        (
            4,
            b"SETUP streamid=video RTSP/1.0\r\nCSeq: 9\r\n\r\n".as_slice(),
            200,
        ),
        (2, b"ANNOUNCE x RTSP/1.0\r\nCSeq: 9\r\n\r\n".as_slice(), 455),
        (3, b"PLAY x RTSP/1.0\r\nCSeq: 9\r\n\r\n".as_slice(), 455),
        (
            3,
            b"ANNOUNCE x RTSP/1.0\r\nCSeq: 9\r\nContent-length: 1\r\n\r\nx".as_slice(),
            454,
        ),
        (
            4,
            b"PLAY x RTSP/1.0\r\nCSeq: 9\r\nSession: DEADBEEF007\r\n\r\n".as_slice(),
            454,
        ),
        (
            3,
            b"ANNOUNCE x RTSP/1.0\r\nCSeq: 9\r\nSession: DEADBEEF0007\r\nContent-length: 32\r\n\r\n\
                a=x-nv-video[0].packetSize:512\r\n"
                .as_slice(),
            400,
        ),
        (
            3,
            b"ANNOUNCE x RTSP/1.0\r\nCSeq: 9\r\nSession: DEADBEEF0007\r\nContent-length: 33\r\n\r\n\
                a=x-nv-video[0].packetSize:1024\r\n"
                .as_slice(),
            200,
        ),
        (
            4,
            b"ANNOUNCE x RTSP/1.0\r\nCSeq: 9\r\nSession: DEADBEEF0007\r\n\r\n".as_slice(),
            200,
        ),
        (
            4,
            b"PLAY x RTSP/1.0\r\nCSeq: 9\r\nSession: DEADBEEF0007\r\n\r\n".as_slice(),
            200,
        ),
        (
            5,
            b"PLAY x RTSP/1.0\r\nCSeq: 9\r\nSession: DEADBEEF0007\r\n\r\n".as_slice(),
            200,
        ),
    ] {
        assert_eq!(rt; code_behind(rt.alloc(), count, text)?, want);
    }
    let bad = settings_of(b"a=x-nv-video[0].packetSize:512\r\n", &offer()?);
    assert_eq!(rt; bad, Err(BadSetting(SettingName::PacketSize)));
    Ok(())
}

/// The replies to the first six requests.
const REPLIES: [&[u8]; 6] = [
    b"RTSP/1.0 200 OK\r\nCSeq: 1\r\n\r\n",
    b"RTSP/1.0 200 OK\r\nCSeq: 2\r\nContent-length: 55\r\n\r\na=x-nv-aqos.packetDuration:5\r\n\
        a=x-gs-audio.length:240\r\n",
    b"RTSP/1.0 200 OK\r\nCSeq: 3\r\nSession: DEADBEEF0007;timeout = 90\r\nTransport: server_port=48000\r\n\
        X-SS-Ping-Payload: 0000000000000007\r\n\r\n",
    b"RTSP/1.0 200 OK\r\nCSeq: 4\r\nSession: DEADBEEF0007\r\nTransport: server_port=47998\r\n\
        X-SS-Ping-Payload: 0000000000000007\r\n\r\n",
    b"RTSP/1.0 200 OK\r\nCSeq: 5\r\nSession: DEADBEEF0007\r\nTransport: server_port=47999\r\n\
        X-SS-Connect-Data: 7\r\n\r\n",
    b"RTSP/1.0 200 OK\r\nCSeq: 6\r\n\r\n",
];

/// What a set-up says of a reply behind so many of these, and then of one more.
fn faults_behind(
    alloc: Global,
    count: usize,
    text: &[u8],
) -> Result<(Option<SetupError>, Option<SetupError>), Fail> {
    let mut setup = Setup::new(want()?, HOST);
    let _step = setup.next(alloc, None)?;
    for (i, reply) in REPLIES.iter().enumerate() {
        if i == count {
            break;
        }
        let _step = setup.next(alloc, Some(&response_of(alloc, reply)?))?;
    }
    let response = response_of(alloc, text)?;
    match setup.next(alloc, Some(&response)) {
        Ok(_step) => Ok((None, None)),
        Err(first) => {
            let again = setup.next(alloc, Some(&response)).err();
            Ok((Some(first), again))
        }
    }
}

#[test]
fn replies_that_lack_something(rt: HostRuntime) -> Result<(), Fail> {
    for (count, text, want) in [
        (
            0,
            b"RTSP/1.0 404 x\r\n\r\n".as_slice(),
            SetupError::Refused(404),
        ),
        (
            6,
            b"RTSP/1.0 454 x\r\nCSeq: 7\r\n\r\n".as_slice(),
            SetupError::Refused(454),
        ),
        (
            0,
            b"RTSP/1.0 200 OK\r\n\r\n".as_slice(),
            SetupError::BadReply(1),
        ),
        (
            0,
            b"RTSP/1.0 200 OK\r\nCSeq: 2\r\n\r\n".as_slice(),
            SetupError::BadReply(1),
        ),
        (
            1,
            b"RTSP/1.0 200 OK\r\nCSeq: 2\r\nContent-length: 25\r\n\r\na=x-gs-audio.length:240\r\n".as_slice(),
            SetupError::BadReply(2),
        ),
        (
            1,
            b"RTSP/1.0 200 OK\r\nCSeq: 2\r\nContent-length: 55\r\n\r\na=x-nv-aqos.packetDuration:7\r\n\
                a=x-gs-audio.length:240\r\n"
                .as_slice(),
            SetupError::BadReply(2),
        ),
        (
            1,
            b"RTSP/1.0 200 OK\r\nCSeq: 2\r\nContent-length: 30\r\n\r\na=x-nv-aqos.packetDuration:5\r\n".as_slice(),
            SetupError::BadReply(2),
        ),
        (
            1,
            b"RTSP/1.0 200 OK\r\nCSeq: 2\r\nContent-length: 56\r\n\r\na=x-nv-aqos.packetDuration:5\r\n\
                a=x-gs-audio.length:1401\r\n"
                .as_slice(),
            SetupError::BadReply(2),
        ),
        (
            2,
            b"RTSP/1.0 200 OK\r\nCSeq: 3\r\nTransport: server_port=48000\r\n\
                X-SS-Ping-Payload: 0000000000000007\r\n\r\n"
                .as_slice(),
            SetupError::BadReply(3),
        ),
        (
            2,
            b"RTSP/1.0 200 OK\r\nCSeq: 3\r\nSession: DEADBEEF0000\r\nTransport: server_port=48000\r\n\
                X-SS-Ping-Payload: 0000000000000000\r\n\r\n"
                .as_slice(),
            SetupError::BadReply(3),
        ),
        (
            2,
            b"RTSP/1.0 200 OK\r\nCSeq: 3\r\nSession: DEADBEEF0007\r\n\
                X-SS-Ping-Payload: 0000000000000007\r\n\r\n"
                .as_slice(),
            SetupError::BadReply(3),
        ),
        (
            2,
            b"RTSP/1.0 200 OK\r\nCSeq: 3\r\nSession: DEADBEEF0007\r\nTransport: server_port=48000\r\n\
                X-SS-Ping-Payload: 7\r\n\r\n"
                .as_slice(),
            SetupError::BadReply(3),
        ),
        (
            3,
            b"RTSP/1.0 200 OK\r\nCSeq: 4\r\nSession: DEADBEEF0007\r\nTransport: server_port=48000\r\n\
                X-SS-Ping-Payload: 0000000000000007\r\n\r\n"
                .as_slice(),
            SetupError::BadReply(4),
        ),
        (
            3,
            b"RTSP/1.0 200 OK\r\nCSeq: 4\r\nSession: DEADBEEF0008\r\nTransport: server_port=47998\r\n\
                X-SS-Ping-Payload: 0000000000000008\r\n\r\n"
                .as_slice(),
            SetupError::BadReply(4),
        ),
        (
            4,
            b"RTSP/1.0 200 OK\r\nCSeq: 5\r\nSession: DEADBEEF0007\r\nTransport: server_port=47999\r\n\r\n".as_slice(),
            SetupError::BadReply(5),
        ),
        (
            4,
            b"RTSP/1.0 200 OK\r\nCSeq: 5\r\nSession: DEADBEEF0009\r\nTransport: server_port=47999\r\n\
                X-SS-Connect-Data: 9\r\n\r\n"
                .as_slice(),
            SetupError::BadReply(5),
        ),
        (
            5,
            b"RTSP/1.0 200 OK\r\n\r\n".as_slice(),
            SetupError::BadReply(6),
        ),
        (
            6,
            b"RTSP/1.0 200 OK\r\nCSeq: 6\r\n\r\n".as_slice(),
            SetupError::BadReply(7),
        ),
    ] {
        let faults = faults_behind(rt.alloc(), count, text)?;
        assert_eq!(rt; faults, (Some(want), Some(want)));
    }
    let whole = faults_behind(rt.alloc(), 6, b"RTSP/1.0 200 OK\r\nCSeq: 7\r\n\r\n")?;
    assert_eq!(rt; whole, (None, None));
    Ok(())
}
