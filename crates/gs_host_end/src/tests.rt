ghost use Rattle.std.specs.Prelude.{◌≡◌, IfOk, OnOk};
ghost use Rattle.gs_feed.specs.Feeding.{Feeding};
ghost use Rattle.gs_host_end.specs.Outcomes.{KeepsTicks};

use crate::HostEnd;
use gs_bytes::{OutOfMemory, SureSource};
use gs_feed::Feed;
use gs_report::{Detail, Reporter};
use gs_rtp::Settings;
use gs_sides::ControlSide;
use std::alloc::Global;
use std::test::Fail;

/// A file of two ticks, each with an IDR unit and an audio unit of one byte.
const FILE: &[u8; 39] = b"GSTAPE01\x01\x00\x05\x00\
T\x01\x00\x00\x00\x01\x00\x01\x00\x00\x00Aa\
T\x02\x00\x00\x00\x01\x00\x01\x00\x00\x00BbE";

/// The host of session 1, with audio units of one byte.
fn host(alloc: Global) -> Result<HostEnd, Fail>
    ensures { IfOk result (λ end. (feed : Feeding) → feed.tape.audio ≡ 1 → KeepsTicks feed end) }
{
    let settings = Settings::make(1_024, 0, 0, 60, 5, 1, 1).ok_or("settings")?;
    if settings.audio != 1 {
        return Err("settings".into());
    }
    Ok(HostEnd::open(alloc, 1, &settings, 0)?)
}

/// The file, of which a tick was captured.
fn feed(alloc: Global) -> Result<Feed, Fail>
    ensures { IfOk result (λ feed. feed.tape.audio ≡ 1) }
{
    let mut source = SureSource::new(alloc, FILE)?;
    let mut feed = Feed::open(alloc, &mut source)?;
    if !feed.capture(&mut source)? || feed.audio() != 1 {
        return Err("file".into());
    }
    Ok(feed)
}

// Each call alone, so that its contract stands in no goal of a test.

fn turn(host: &mut HostEnd, feed: &Feed, reporter: &mut Reporter) -> Result<(), OutOfMemory>
    requires { KeepsTicks feed.now host.old }
    ensures { OnOk result (KeepsTicks feed.now host.new) }
{
    host.turn(feed, reporter)
}

fn settle(host: &mut HostEnd) -> Result<(), OutOfMemory> {
    host.settle(0)
}

fn timer(host: &mut HostEnd, reporter: &mut Reporter) -> Result<(), OutOfMemory> {
    host.timer(0, reporter)
}

fn take_up(
    host: &mut HostEnd,
    client: &ControlSide,
    number: u64,
    reporter: &mut Reporter,
) -> Result<bool, OutOfMemory> {
    host.take_up(client, number, 0, reporter)
}

/// A client whose connection to the host is up.
fn connected(alloc: Global, host: &mut HostEnd) -> Result<ControlSide, Fail> {
    let mut client = ControlSide::connect(alloc, 0, 1, 1, 0)?;
    let mut reporter = Reporter::new(alloc, Detail::Sums);
    let mut events = Vec::new(alloc);
    client.write_out(0)?;
    settle(host)?;
    client.take(host.side(), 1, 0, &mut events)?;
    client.write_out(0)?;
    take_up(host, &client, 2, &mut reporter)?;
    Ok(client)
}

#[test]
fn the_newest_tick_is_sent_once(rt: HostRuntime) -> Result<(), Fail> {
    let feed = feed(rt.alloc())?;
    let mut host = host(rt.alloc())?;
    let mut reporter = Reporter::new(rt.alloc(), Detail::Brief);
    turn(&mut host, &feed, &mut reporter)?;
    turn(&mut host, &feed, &mut reporter)?;
    assert!(rt; reporter.text() == b"sent 1 1 2 1 0\n".as_slice());
    assert_eq!(rt; host.frames(), 1);
    assert!(rt; host.last_tick() == Some(1));
    Ok(())
}

#[test]
fn what_is_sent_can_be_named(rt: HostRuntime) -> Result<(), Fail> {
    let feed = feed(rt.alloc())?;
    let mut host = host(rt.alloc())?;
    let mut reporter = Reporter::new(rt.alloc(), Detail::Sums);
    turn(&mut host, &feed, &mut reporter)?;
    assert_eq!(rt; host.video_count(), 1);
    assert_eq!(rt; host.audio_count(), 1);
    assert!(rt; host.video(1).is_some());
    assert!(rt; host.audio(1).is_some());
    Ok(())
}

#[test]
fn what_the_client_asks_for_is_reported(rt: HostRuntime) -> Result<(), Fail> {
    let mut host = host(rt.alloc())?;
    let mut client = connected(rt.alloc(), &mut host)?;
    let mut reporter = Reporter::new(rt.alloc(), Detail::Brief);
    client.send(1, b"\x02\x03\x00\x00")?;
    client.write_out(0)?;
    assert!(rt; take_up(&mut host, &client, 3, &mut reporter)?);
    timer(&mut host, &mut reporter)?;
    assert!(rt; reporter.text() == b"idr 1\n".as_slice());
    assert_eq!(rt; host.inputs(), 0);
    Ok(())
}
