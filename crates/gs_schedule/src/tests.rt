use super::*;
use gs_bytes::{MemSource, SureSource};
use gs_input::Event;
use std::test::Fail;

#[test]
fn steps(rt: HostRuntime) -> Result<(), Fail> {
    let spelled: [(&[u8], Step); 25] = [
        (b"", Step::Blank),
        (b"#", Step::Blank),
        (b"# cap \xff", Step::Blank),
        (
            b"session 1024 0 0",
            Step::Session {
                packet: 1024,
                percentage: 0,
                minimum: 0,
                window: 1,
            },
        ),
        (
            b"session 1392 20 2 4",
            Step::Session {
                packet: 1392,
                percentage: 20,
                minimum: 2,
                window: 4,
            },
        ),
        (b"cap", Step::Cap),
        (b"send 1", Step::Send { session: 1 }),
        (
            b"video 4294967295 4294967295",
            Step::Video {
                session: 4_294_967_295,
                k: 4_294_967_295,
            },
        ),
        (b"audio 1 0", Step::Audio { session: 1, k: 0 }),
        (
            b"videos 1 1 9",
            Step::Videos {
                session: 1,
                first: 1,
                last: 9,
            },
        ),
        (
            b"videos 2 7 7",
            Step::Videos {
                session: 2,
                first: 7,
                last: 7,
            },
        ),
        (b"up 1 3", Step::Up { session: 1, k: 3 }),
        (b"down 1 2", Step::Down { session: 1, k: 2 }),
        (
            b"keydown 1 65 0",
            Step::Input {
                session: 1,
                event: Event::KeyDown {
                    code: 65,
                    modifiers: 0,
                },
            },
        ),
        (
            b"move 8 -10 3",
            Step::Input {
                session: 8,
                event: Event::Move { dx: -10, dy: 3 },
            },
        ),
        (
            b"at 1 2 3 4 5",
            Step::Input {
                session: 1,
                event: Event::At {
                    x: 2,
                    y: 3,
                    width: 4,
                    height: 5,
                },
            },
        ),
        (
            b"press 1 5",
            Step::Input {
                session: 1,
                event: Event::Press { button: 5 },
            },
        ),
        (b"idr 1", Step::Idr { session: 1 }),
        (b"time 0", Step::Time { by: 0 }),
        (b"time 60000", Step::Time { by: 60_000 }),
        (
            b"pump 1 50",
            Step::Pump {
                session: 1,
                every: 50,
            },
        ),
        (
            b"pump 2 0",
            Step::Pump {
                session: 2,
                every: 0,
            },
        ),
        (b"close 1", Step::Close { session: 1 }),
        (b"reset 1", Step::Reset { session: 1 }),
        (b"send 0", Step::Send { session: 0 }),
    ];
    for (line, step) in spelled.iter() {
        assert_eq!(rt; read_line(line), Some(*step));
    }
    Ok(())
}

#[test]
fn refused_lines(rt: HostRuntime) {
    let refused: [&[u8]; 30] = [
        b" ",
        b" #",
        b"cap ",
        b" cap",
        b"cap 1",
        b"CAP",
        b"caps",
        b"send",
        b"send 1 2",
        b"send  1",
        b"send\t1",
        b"send 01",
        b"send -0",
        b"send +1",
        b"send 4294967296",
        b"send 1\n",
        b"session 1024 0",
        b"session 1024 0 0 1 1",
        b"session 1024 0 0 ",
        b"video 1",
        b"videos 1 9 8",
        b"videos 1 1",
        b"time 60001",
        b"time -1",
        b"65 keydown 1 0",
        b"keydown 65 0",
        b"keydown 1 -0 0",
        b"press 1 6",
        b"unknown 1 12",
        b"sent 1 1 2 1 0",
    ];
    for line in refused.iter() {
        assert!(rt; read_line(line).is_none());
    }
}

#[test]
fn output_lines(rt: HostRuntime) -> Result<(), Fail> {
    let written: [(Output, &[u8]); 14] = [
        (
            Output::Sent {
                session: 1,
                frame: 5,
                kind: 5,
                tick: 5,
                reference: 1,
            },
            b"sent 1 5 5 5 1\n",
        ),
        (
            Output::Ask {
                session: 1,
                first: 2,
                last: 2,
            },
            b"ask 1 2 2\n",
        ),
        (
            Output::Hand {
                session: 1,
                frame: 1,
                kind: 2,
                length: 10_000,
            },
            b"hand 1 1 2 10000\n",
        ),
        (
            Output::Play {
                session: 1,
                unit: 0,
                length: 1,
            },
            b"play 1 0 1\n",
        ),
        (
            Output::Invalid {
                session: 1,
                first: 4,
                last: 4,
            },
            b"invalid 1 4 4\n",
        ),
        (Output::Idr { session: 1 }, b"idr 1\n"),
        (
            Output::Ended {
                session: 1,
                first: -9_223_372_036_854_775_808,
                last: 9,
            },
            b"ended 1 -9223372036854775808 9\n",
        ),
        (
            Output::Input {
                session: 1,
                channel: 2,
                event: Event::KeyDown {
                    code: 65,
                    modifiers: 0,
                },
            },
            b"input 1 2 keydown 65 0\n",
        ),
        (
            Output::Full {
                session: 1,
                channel: 2,
            },
            b"full 1 2\n",
        ),
        (Output::Closed { session: 1 }, b"closed 1\n"),
        (Output::Lost { session: 8 }, b"lost 8\n"),
        (Output::Reset { session: 1 }, b"reset 1\n"),
        (
            Output::Total {
                session: 1,
                frames: 600,
                handed: 600,
                asks: 0,
                inputs: 600,
                units: 2000,
            },
            b"total 1 600 600 0 600 2000\n",
        ),
        (Output::Done, b"ok\n"),
    ];
    for (output, line) in written.iter() {
        let text = output_line(rt.alloc(), output)?;
        assert_eq!(rt; text.as_bytes(), *line);
    }
    Ok(())
}

#[test]
fn statuses(rt: HostRuntime) -> Result<(), Fail> {
    let ends: [(TrialStatus, u8, &str); 11] = [
        (TrialStatus::Ok, 0, ""),
        (TrialStatus::Usage { word: 2 }, 2, "usage: word 2"),
        (TrialStatus::TapeFault, 3, "tape: read failed"),
        (
            TrialStatus::BadTape { kind: 6, place: 40 },
            4,
            "tape: kind 6 at 40",
        ),
        (TrialStatus::TapeFull { tick: 9 }, 5, "tape: full at tick 9"),
        (
            TrialStatus::UnitTooLarge { tick: 1 },
            6,
            "tape: unit too large in tick 1",
        ),
        (
            TrialStatus::AudioLength { length: 1401 },
            7,
            "tape: audio length 1401",
        ),
        (TrialStatus::ScheduleFault, 8, "schedule: read failed"),
        (TrialStatus::BadSchedule { line: 5 }, 9, "schedule: line 5"),
        (TrialStatus::WriteFault, 10, "write failed"),
        (TrialStatus::OutOfMemory, 12, "out of memory"),
    ];
    for (status, code, text) in ends.iter() {
        assert_eq!(rt; status.code(), *code);
        let shown = format!(in rt.alloc(); "{status}")?;
        assert_eq!(rt; shown.as_str(), *text);
    }
    Ok(())
}

// A line of 64 bytes is given, and the last one needs no newline.
#[test]
fn lines_in_order(rt: HostRuntime) -> Result<(), Fail> {
    let text: &[u8] =
        b"cap\n\n#234567890123456789012345678901234567890123456789012345678901234\nsend 1";
    let expected: [&[u8]; 4] = [b"cap", b"", &text[5..69], b"send 1"];
    let mut source = SureSource::new(rt.alloc(), text)?;
    let mut lines = Lines::new(rt.alloc());
    for bytes in expected.iter() {
        let line = lines.next(&mut source)?.ok_or("a line")?;
        assert_eq!(rt; line.bytes.as_bytes(), *bytes);
    }
    assert!(rt; lines.next(&mut source)?.is_none());
    Ok(())
}

// A line is held where its newline was read.
#[test]
fn a_line_is_held(rt: HostRuntime) -> Result<(), Fail> {
    let mut source = SureSource::new(rt.alloc(), b"cap\nidr\nreset")?;
    let mut lines = Lines::new(rt.alloc());
    assert!(rt; !lines.holds_line());
    lines.next(&mut source)?.ok_or("a line")?;
    assert!(rt; lines.holds_line());
    lines.next(&mut source)?.ok_or("a line")?;
    assert!(rt; !lines.holds_line());
    lines.next(&mut source)?.ok_or("a line")?;
    assert!(rt; !lines.holds_line());
    Ok(())
}

// A step that can't be done is told by its line.
#[test]
fn the_fifth_line(rt: HostRuntime) -> Result<(), Fail> {
    let text = b"session 1024 0 0\ncap\nsend 1\nvideo 1 1\nvideo 1 2\n";
    let mut source = SureSource::new(rt.alloc(), text)?;
    let mut lines = Lines::new(rt.alloc());
    for _ in 0..4 {
        lines.next(&mut source)?.ok_or("a line")?;
    }
    let line = lines.next(&mut source)?.ok_or("a line")?;
    let step = Step::Video { session: 1, k: 2 };
    assert_eq!(rt; read_line(line.bytes.as_bytes()), Some(step));
    let status = TrialStatus::BadSchedule { line: line.number };
    assert_eq!(rt; status.code(), 9);
    let shown = format!(in rt.alloc(); "{status}")?;
    assert_eq!(rt; shown.as_str(), "schedule: line 5");
    Ok(())
}

// A line of 65 bytes is refused, again and again.
#[test]
fn a_long_line(rt: HostRuntime) -> Result<(), Fail> {
    let text = b"#2345678901234567890123456789012345678901234567890123456789012345\n";
    let mut source = SureSource::new(rt.alloc(), text)?;
    let mut lines = Lines::new(rt.alloc());
    for _ in 0..2 {
        let refused = lines.next(&mut source).err();
        assert_eq!(rt; refused, Some(LinesError::TooLong { line: 1 }));
        assert!(rt; lines.holds_line());
    }
    Ok(())
}

// A read that fails loses nothing.
#[test]
fn a_failing_source(rt: HostRuntime) -> Result<(), Fail> {
    let mut source = MemSource::new(rt.alloc(), b"cap", &[1])?;
    let mut lines = Lines::new(rt.alloc());
    assert_eq!(rt; lines.next(&mut source).err(), Some(LinesError::ReadFault));
    let line = lines.next(&mut source)?.ok_or("a line")?;
    assert_eq!(rt; line.bytes.as_bytes(), b"cap".as_slice());
    Ok(())
}
