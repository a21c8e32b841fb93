ghost use Rattle.std.specs.Prelude.{◌≡◌, [], IfOk};
ghost use Rattle.gs_rtp.specs.Stream.{StreamSettings};
ghost use Rattle.gs_host_core.specs.Hosting.{IsSendable};

use crate::{Act, Host, ToldError, TurnError, act_of};
use gs_bytes::{Addr, LinkEntry, MemLink};
use gs_refs::Sent;
use gs_rtp::Settings;
use gs_tape::{Deltas, Tick, Unit, Units};
use std::alloc::Global;
use std::test::Fail;

const VIDEO: Addr = Addr { ip: 1, port: 9 };

const AUDIO: Addr = Addr { ip: 1, port: 11 };

// Audio units of one byte.
fn settings() -> Result<Settings, Fail>
    ensures { IfOk result (λ settings. settings.audio ≡ 1) }
{
    let settings = Settings::make(1_024, 0, 0, 60, 5, 1, 1).ok_or("settings")?;
    if settings.audio != 1 {
        return Err("settings".into());
    }
    Ok(settings)
}

// A host of which nothing was sent.
fn host(alloc: Global) -> Result<Host, Fail>
    ensures history { IfOk result (λ host. host.history ≡ []) }
    ensures audio { IfOk result (λ host. host.settings.audio ≡ 1) }
{
    Ok(Host::open(alloc, &settings()?)?)
}

// The third tick, with four audio units, which are a whole block.
fn tick(alloc: Global) -> Result<Tick, Fail>
    ensures { IfOk result (λ tick. (s : StreamSettings) → s.audio ≡ 1 → IsSendable s tick) }
{
    let mut audio = Vec::new(alloc);
    audio.push(Unit::copy_of(alloc, &[7])?)?;
    audio.push(Unit::copy_of(alloc, &[8])?)?;
    audio.push(Unit::copy_of(alloc, &[9])?)?;
    audio.push(Unit::copy_of(alloc, &[10])?)?;
    Ok(Tick {
        number: 3,
        time: 0,
        idr: Unit::copy_of(alloc, b"55555")?,
        deltas: Deltas::from_vec(Vec::new(alloc)),
        audio: Units::from_vec(audio),
    })
}

// The first turn of a host.
fn first_turn(
    host: &mut Host,
    newest: &Tick,
    video: &mut MemLink,
    audio: &mut MemLink,
) -> Result<Sent, TurnError>
    requires history { host.old.history ≡ [] }
    requires audio { host.old.settings.audio ≡ 1 }
    requires newest { (s : StreamSettings) → s.audio ≡ 1 → IsSendable s newest.now }
{
    host.turn(newest, &[], video, audio, VIDEO, AUDIO)
}

// The two links behind a host's first turn, where the calls of these numbers fail on the second, and what it answers.
fn turned(
    alloc: Global,
    fails: &[u64],
) -> Result<(MemLink, MemLink, Result<Sent, TurnError>), Fail> {
    let mut host = host(alloc)?;
    let newest = tick(alloc)?;
    let mut video = MemLink::new(alloc, &[])?;
    let mut audio = MemLink::new(alloc, fails)?;
    let sent = first_turn(&mut host, &newest, &mut video, &mut audio);
    Ok((video, audio, sent))
}

// What was put on one link is a front of what was put on another.
fn is_front(part: &[LinkEntry], whole: &[LinkEntry]) -> bool {
    part.len() <= whole.len()
        && part
            .iter()
            .zip(whole.iter())
            .all(|(one, other)| one == other)
}

// The range from frame 2 to frame 2.
fn second_frame() -> [u8; 26] {
    let mut range = [0; 26];
    range[0] = 1;
    range[1] = 3;
    range[2] = 2;
    range[10] = 2;
    range
}

#[test]
fn acts_of_messages(rt: HostRuntime) {
    assert_eq!(rt;
        act_of(&second_frame()),
        Act::Invalidate { first: 2, last: 2 }
    );
    assert_eq!(rt; act_of(&[2, 3, 0, 0]), Act::AskIdr);
    assert_eq!(rt; act_of(&[]), Act::Nothing);
}

#[test]
fn a_first_turn(rt: HostRuntime) -> Result<(), Fail> {
    let sent = Sent {
        frame: 1,
        tick: 3,
        kind: 2,
        reference: 0,
        named: 0,
    };
    let (video, audio, answer) = turned(rt.alloc(), &[])?;
    assert_eq!(rt; video.entries().len(), 1);
    assert_eq!(rt; audio.entries().len(), 6);
    assert_eq!(rt; answer, Ok(sent));
    Ok(())
}

// The four data datagrams and the two of parity are put one by one: where a call fails, those before it stand.
#[test]
fn an_audio_link_fails_at_each_call(rt: HostRuntime) -> Result<(), Fail> {
    let (_, whole, _) = turned(rt.alloc(), &[])?;
    for before in 0..6_u64 {
        let (video, audio, answer) = turned(rt.alloc(), &[before + 1])?;
        assert_eq!(rt; answer, Err(TurnError::LinkFault));
        assert_eq!(rt; video.entries().len(), 1);
        assert_eq!(rt; audio.entries().len() as u64, before);
        assert!(rt; is_front(audio.entries(), whole.entries()));
    }
    Ok(())
}

#[test]
fn a_bad_range_ends(rt: HostRuntime) -> Result<(), Fail> {
    let mut host = host(rt.alloc())?;
    assert_eq!(rt; host.told(&[2, 3, 0, 0]), Ok(Act::AskIdr));
    assert_eq!(rt;
        host.told(&second_frame()),
        Err(ToldError::BadRange { sent: 0 })
    );
    assert_eq!(rt; host.told(&[2, 3, 0, 0]), Err(ToldError::Ended));
    Ok(())
}
