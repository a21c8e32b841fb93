//! Worked bodies with their settings.

use super::*;
use gs_rtp::Settings;
use std::test::Fail;

/// Packet size, frames per second and least parity.
type Seen = Result<(u16, u16, u8), SettingName>;

fn settings_by(body: &[u8], offer: &Settings) -> Seen {
    match settings_of(body, offer) {
        Ok(settings) => Ok((settings.packet, settings.fps, settings.minimum)),
        Err(bad) => Err(bad.0),
    }
}

#[test]
fn announced_settings(rt: HostRuntime) {
    let offer = Settings::make(1_100, 20, 1, 30, 5, 400, 7).expect(&rt, "an offer");
    for (body, want) in [
        (b"".as_slice(), Ok((1_392, 60, 2))),
        (
            b"a=x-nv-video[0].packetSize:1440\r\n".as_slice(),
            Ok((1_440, 60, 2)),
        ),
        (
            b"a=x-nv-video[0].packetSize:1024\n".as_slice(),
            Ok((1_024, 60, 2)),
        ),
        (
            b"a=x-nv-video[0].packetSize:1024  \r\n".as_slice(),
            Ok((1_024, 60, 2)),
        ),
        (
            b"a=x-nv-video[0].packetSize:1024".as_slice(),
            Ok((1_392, 60, 2)),
        ),
        (
            b"a=x-nv-video[0].maxFPS:120\r\nv=0\r\na=other:1\r\na=lone\r\n".as_slice(),
            Ok((1_392, 120, 2)),
        ),
        (
            b"a=x-nv-video[0].maxFPS:x\na=x-nv-video[0].maxFPS:1\n".as_slice(),
            Ok((1_392, 1, 2)),
        ),
        (
            b"b=x-nv-video[0].maxFPS:x\r\na=X-NV-video[0].maxFPS:x\r\n".as_slice(),
            Ok((1_392, 60, 2)),
        ),
        (
            b"a=x-nv-vqos[0].fec.minRequiredFecPackets:0\r\n".as_slice(),
            Ok((1_392, 60, 0)),
        ),
        (
            b"a=x-nv-aqos.packetDuration:5\r\n".as_slice(),
            Ok((1_392, 60, 2)),
        ),
    ] {
        assert_eq!(rt; settings_by(body, &offer), want);
    }
}

#[test]
fn bad_settings(rt: HostRuntime) {
    let offer = Settings::make(1_100, 20, 1, 30, 5, 400, 7).expect(&rt, "an offer");
    for (body, want) in [
        (
            b"a=x-nv-video[0].packetSize:512\r\n".as_slice(),
            SettingName::PacketSize,
        ),
        (
            b"a=x-nv-video[0].packetSize:1441\r\n".as_slice(),
            SettingName::PacketSize,
        ),
        (
            b"a=x-nv-video[0].packetSize: 1400\r\n".as_slice(),
            SettingName::PacketSize,
        ),
        (
            b"a=x-nv-video[0].packetSize:01400\r\n".as_slice(),
            SettingName::PacketSize,
        ),
        (
            b"a=x-nv-video[0].packetSize:\r\n".as_slice(),
            SettingName::PacketSize,
        ),
        (
            b"a=x-nv-video[0].maxFPS:0\r\na=x-nv-video[0].packetSize:1\r\n".as_slice(),
            SettingName::PacketSize,
        ),
        (
            b"a=x-nv-video[0].maxFPS:241\r\n".as_slice(),
            SettingName::MaxFps,
        ),
        (
            b"a=x-nv-vqos[0].fec.minRequiredFecPackets:3\n".as_slice(),
            SettingName::Minimum,
        ),
        (
            b"a=x-nv-aqos.packetDuration:10\r\n".as_slice(),
            SettingName::Duration,
        ),
    ] {
        assert_eq!(rt; settings_by(body, &offer), Err(want));
    }
}

#[test]
fn written_body(rt: HostRuntime) -> Result<(), Fail> {
    let settings = Settings::make(1_392, 20, 2, 60, 5, 400, 1).ok_or("settings")?;
    let text = body_of(rt.alloc(), &settings)?;
    let want = b"a=x-nv-video[0].packetSize:1392\r\na=x-nv-video[0].maxFPS:60\r\n\
            a=x-nv-vqos[0].fec.minRequiredFecPackets:2\r\na=x-nv-aqos.packetDuration:5\r\n";
    assert_eq!(rt; text.as_bytes(), want.as_slice());
    assert_eq!(rt; settings_of(text.as_bytes(), &settings), Ok(settings));
    Ok(())
}

#[test]
fn last_values(rt: HostRuntime) -> Result<(), Fail> {
    let mut out = Vec::new(rt.alloc());
    push_line(&mut out, b"x-gs-audio.length", 400)?;
    assert_eq!(rt; out.as_slice(), b"a=x-gs-audio.length:400\r\n".as_slice());
    assert_eq!(rt;
        last_value(out.as_slice(), b"x-gs-audio.length"),
        Some(b"400".as_slice())
    );
    assert_eq!(rt; last_value(out.as_slice(), b"x-gs-audio"), None);
    Ok(())
}
