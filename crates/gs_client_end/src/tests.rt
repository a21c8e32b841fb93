use crate::ClientEnd;
use gs_enet::PeerEvent;
use gs_input::Event;
use gs_report::{Detail, Reporter};
use gs_rtp::Settings;
use gs_sides::ControlSide;
use std::alloc::Global;
use std::test::Fail;

/// A client whose audio units have one byte, and its host's side, where the connection is up.
fn opened(alloc: Global, reporter: &mut Reporter) -> Result<(ClientEnd, ControlSide), Fail> {
    let settings = Settings::make(1_024, 0, 0, 60, 5, 1, 1).ok_or("settings")?;
    let mut end = ClientEnd::open(alloc, 1, &settings, 1, 0)?;
    let mut host = ControlSide::accept(alloc, 0, 0, 1, 0)?;
    end.settle(0)?;
    host.write_out(0)?;
    end.take_down(&host, 1, 0, reporter)?;
    end.settle(0)?;
    Ok((end, host))
}

/// A datagram of an IDR frame of one packet, whose unit is its index and its kind.
fn small_frame(alloc: Global, frame: u8) -> Result<Vec<u8>, Fail> {
    let head = [
        0x90, 0, 0, 0, 0, 0, 0, 0, 0, 0, 0, 1, 0, 0, 0, 0, 0, 0, 0, 0, frame, 0, 0, 0, 7, 0, 0x10,
        0, 0, 0, 0x40, 0, 1, 0, 0, 2, 10, 0, 0, 0, b'A', b'B',
    ];
    let mut bytes = head.to_vec(alloc)?;
    bytes.resize(1_040, 0)?;
    Ok(bytes)
}

#[test]
fn what_is_lost_is_asked_for_and_owed(rt: HostRuntime) -> Result<(), Fail> {
    let mut reporter = Reporter::new(rt.alloc(), Detail::Bytes);
    let (mut end, _host) = opened(rt.alloc(), &mut reporter)?;
    let datagram = small_frame(rt.alloc(), 3)?;
    assert!(rt; end.take_video(&datagram, &mut reporter)?);
    assert!(rt; reporter.text() == b"ask 1 1 2\nhand 1 3 2 2\nAB\n".as_slice());
    assert_eq!(rt; end.side().given(1), 0);
    end.settle(0)?;
    assert_eq!(rt; end.side().given(1), 1);
    assert_eq!(rt; end.sums().handed, 1);
    assert_eq!(rt; end.sums().asks, 1);
    Ok(())
}

#[test]
fn units_are_played(rt: HostRuntime) -> Result<(), Fail> {
    let mut reporter = Reporter::new(rt.alloc(), Detail::Bytes);
    let (mut end, _host) = opened(rt.alloc(), &mut reporter)?;
    let first = [0x80, 0x61, 0, 0, 0, 0, 0, 0, 0, 0, 0, 1, b'C'];
    let second = [0x80, 0x61, 0, 4, 0, 0, 0, 20, 0, 0, 0, 1, b'D'];
    end.take_audio(&first, &mut reporter)?;
    end.take_audio(&second, &mut reporter)?;
    assert!(rt; reporter.text() == b"play 1 0 1\nC\n".as_slice());
    assert_eq!(rt; end.sums().units, 1);
    Ok(())
}

#[test]
fn the_user_is_heard_until_the_end(rt: HostRuntime) -> Result<(), Fail> {
    let mut reporter = Reporter::new(rt.alloc(), Detail::Brief);
    let (mut end, mut host) = opened(rt.alloc(), &mut reporter)?;
    assert!(rt; end.give(&Event::Press { button: 1 }, &mut reporter)?);
    assert!(rt; end.ask_idr(&mut reporter)?);
    assert!(rt; end.reset(&mut reporter)?);
    end.settle(0)?;
    assert_eq!(rt; end.side().given(1), 2);
    assert_eq!(rt; end.side().given(3), 1);
    assert!(rt; end.close());
    assert!(rt; !end.give(&Event::Press { button: 1 }, &mut reporter)?);
    assert!(rt; !end.reset(&mut reporter)?);
    assert!(rt; !end.close());
    assert!(rt; reporter.text() == b"reset 1\n".as_slice());
    let mut events: Vec<PeerEvent> = Vec::new(rt.alloc());
    assert!(rt; host.take(end.side(), 2, 0, &mut events)?);
    Ok(())
}

#[test]
fn a_lost_connection_is_reported(rt: HostRuntime) -> Result<(), Fail> {
    let mut reporter = Reporter::new(rt.alloc(), Detail::Brief);
    let (mut end, _host) = opened(rt.alloc(), &mut reporter)?;
    assert!(rt; end.ask_idr(&mut reporter)?);
    for turn in 0..14_u32 {
        end.settle(4_000 * turn)?;
        end.timer(4_000 * (turn + 1), &mut reporter)?;
    }
    assert!(rt; reporter.text() == b"lost 1\n".as_slice());
    Ok(())
}
