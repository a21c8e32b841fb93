ghost use Rattle.std.specs.Prelude.{◌≡◌, IfOk};
ghost use Rattle.gs_feed.specs.Feeding.{Feeding};
ghost use Rattle.gs_host_end.specs.Outcomes.{KeepsTicks};

use super::*;
use gs_bytes::{OutOfMemory, SureSource};
use gs_feed::Feed;
use gs_input::Event;
use gs_report::{Detail, Reporter};
use gs_rtp::Settings;
use std::alloc::Global;
use std::test::Fail;

/// A capture file of one tick, with an IDR unit of three bytes and four audio units of one byte.
fn file() -> &'static [u8] {
    b"GSTAPE01\x01\x00\x05\x00T\x00\x00\x00\x00\x04\x00\x03\x00\x00\x00ABCabcdE"
}

/// What is reported of it.
fn tick_text() -> &'static [u8] {
    b"sent 1 1 2 1 0\nhand 1 1 2 3\nplay 1 0 1\nplay 1 1 1\nplay 1 2 1\nplay 1 3 1\n"
}

/// What is reported of a key, a request, a reset and the end.
fn user_text() -> &'static [u8] {
    b"input 1 2 keydown 65 0\nidr 1\nreset 1\nidr 1\nclosed 1\n"
}

/// Session 1, which is opened at moment 0, over a capture file with this audio.
fn opened(alloc: Global, audio: u16) -> Result<Loopback, Fail>
    ensures { IfOk result (λ opened. (feed : Feeding) → feed.tape.audio ≡ audio → KeepsTicks feed opened.host) }
{
    let Some(settings) = Settings::make(1_024, 0, 0, 60, 5, audio, 1) else {
        return Err(Fail::new("settings"));
    };
    Ok(Loopback::open(alloc, 1, &settings, 1, 0)?)
}

/// The file, of which the tick was captured.
fn captured(alloc: Global) -> Result<Feed, Fail>
    ensures { IfOk result (λ feed. feed.tape.audio ≡ 1) }
{
    let mut source = SureSource::new(alloc, file())?;
    let mut feed = Feed::open(alloc, &mut source)?;
    if !feed.capture(&mut source)? || feed.audio() != 1 {
        return Err(Fail::new("file"));
    }
    Ok(feed)
}

// Each call alone, so that its contract stands in no goal of a test.

fn turn(session: &mut Loopback, feed: &Feed, reporter: &mut Reporter) -> Result<(), OutOfMemory>
    requires { KeepsTicks feed.now session.old.host }
{
    session.turn(feed, 0, reporter)
}

fn deliver_first(session: &mut Loopback, reporter: &mut Reporter) -> Result<bool, OutOfMemory> {
    session.deliver_videos(1, 1, 0, reporter)
}

fn deliver_unwritten(session: &mut Loopback, reporter: &mut Reporter) -> Result<bool, OutOfMemory> {
    session.deliver(Delivery::Down(9), 0, reporter)
}

fn pump(session: &mut Loopback, reporter: &mut Reporter) -> Result<bool, OutOfMemory> {
    session.pump(0, 1_000, reporter)
}

fn give(session: &mut Loopback, reporter: &mut Reporter) -> Result<bool, OutOfMemory> {
    let key = Event::KeyDown {
        code: 65,
        modifiers: 0,
    };
    session.give(&key, 1_000, reporter)
}

fn ask_idr(session: &mut Loopback, reporter: &mut Reporter) -> Result<bool, OutOfMemory> {
    session.ask_idr(1_000, reporter)
}

fn reset(session: &mut Loopback, reporter: &mut Reporter) -> Result<bool, OutOfMemory> {
    session.reset(1_000, reporter)
}

fn pass(session: &mut Loopback, reporter: &mut Reporter) -> Result<(), OutOfMemory> {
    session.timer(1_000, reporter)?;
    session.settle(1_000)
}

fn close(session: &mut Loopback) -> Result<bool, OutOfMemory> {
    session.close(1_000)
}

fn sums(session: &Loopback) -> Sums {
    session.sums()
}

fn last_tick(session: &Loopback) -> Option<u32> {
    session.last_tick()
}

#[test]
fn a_tick_goes_to_the_client(rt: HostRuntime) -> Result<(), Fail> {
    let feed = captured(rt.alloc())?;
    let mut session = opened(rt.alloc(), 1)?;
    let mut reporter = Reporter::new(rt.alloc(), Detail::Brief);
    turn(&mut session, &feed, &mut reporter)?;
    assert_eq!(rt; last_tick(&session), Some(1));
    assert!(rt; deliver_first(&mut session, &mut reporter)?);
    assert!(rt; pump(&mut session, &mut reporter)?);
    assert!(rt; reporter.text() == tick_text());
    let sums = sums(&session);
    assert_eq!(rt; (sums.frames, sums.handed, sums.units), (1, 1, 4));
    Ok(())
}

#[test]
fn the_host_hears_the_user(rt: HostRuntime) -> Result<(), Fail> {
    let mut session = opened(rt.alloc(), 0)?;
    let mut reporter = Reporter::new(rt.alloc(), Detail::Brief);
    assert!(rt; give(&mut session, &mut reporter)?);
    assert!(rt; ask_idr(&mut session, &mut reporter)?);
    assert!(rt; pump(&mut session, &mut reporter)?);
    assert!(rt; reset(&mut session, &mut reporter)?);
    assert!(rt; pump(&mut session, &mut reporter)?);
    pass(&mut session, &mut reporter)?;
    assert!(rt; close(&mut session)?);
    assert!(rt; pump(&mut session, &mut reporter)?);
    assert!(rt; reporter.text() == user_text());
    assert_eq!(rt; sums(&session).inputs, 1);
    Ok(())
}

#[test]
fn what_was_never_written_is_refused(rt: HostRuntime) -> Result<(), Fail> {
    let mut session = opened(rt.alloc(), 0)?;
    let mut reporter = Reporter::new(rt.alloc(), Detail::Brief);
    assert!(rt; !deliver_unwritten(&mut session, &mut reporter)?);
    assert!(rt; reporter.text().is_empty());
    assert_eq!(rt; last_tick(&session), None);
    Ok(())
}
