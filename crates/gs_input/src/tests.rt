use super::*;
use gs_bytes::Failed;
use std::test::Fail;

const KEY_DOWN_PACKET: [u8; 14] = [0, 0, 0, 10, 3, 0, 0, 0, 0, 65, 0, 0, 0, 0];

#[test]
fn lines(rt: HostRuntime) -> Result<(), Fail> {
    let accepted: [(&[u8], Event); 18] = [
        (
            b"keydown 65 0",
            Event::KeyDown {
                code: 65,
                modifiers: 0,
            },
        ),
        (
            b"keydown -1 255",
            Event::KeyDown {
                code: -1,
                modifiers: 255,
            },
        ),
        (
            b"keydown 32767 7",
            Event::KeyDown {
                code: 32767,
                modifiers: 7,
            },
        ),
        (
            b"keydown -32768 0",
            Event::KeyDown {
                code: -32768,
                modifiers: 0,
            },
        ),
        (
            b"keyup 65 0",
            Event::KeyUp {
                code: 65,
                modifiers: 0,
            },
        ),
        (
            b"keyup 0 1",
            Event::KeyUp {
                code: 0,
                modifiers: 1,
            },
        ),
        (b"move 0 0", Event::Move { dx: 0, dy: 0 }),
        (b"move -10 3", Event::Move { dx: -10, dy: 3 }),
        (
            b"at 1 2 3 4",
            Event::At {
                x: 1,
                y: 2,
                width: 3,
                height: 4,
            },
        ),
        (
            b"at -1 0 1920 1080",
            Event::At {
                x: -1,
                y: 0,
                width: 1920,
                height: 1080,
            },
        ),
        (b"press 1", Event::Press { button: 1 }),
        (b"press 5", Event::Press { button: 5 }),
        (b"release 1", Event::Release { button: 1 }),
        (b"release 3", Event::Release { button: 3 }),
        (b"scroll 120", Event::Scroll { amount: 120 }),
        (b"scroll -120", Event::Scroll { amount: -120 }),
        (b"scroll 10", Event::Scroll { amount: 10 }),
        (b"scroll 0", Event::Scroll { amount: 0 }),
    ];
    for (line, event) in accepted.iter() {
        let read = read_line(line).ok_or("a line that is accepted")?;
        assert_eq!(rt; read, *event);
        let written = write_line(rt.alloc(), &read)?;
        assert_eq!(rt; written.as_bytes(), *line);
    }
    Ok(())
}

#[test]
fn refused_lines(rt: HostRuntime) {
    let refused: [&[u8]; 36] = [
        b"",
        b" ",
        b"keydown",
        b"keydown 65",
        b"keydown 65 0 0",
        b"keydown  65 0",
        b"keydown 65  0",
        b" keydown 65 0",
        b"keydown 65 0 ",
        b"keydown\t65 0",
        b"keydown 65 0\n",
        b"KEYDOWN 65 0",
        b"keydow 65 0",
        b"keydownn 65 0",
        b"keydown 065 0",
        b"keydown +65 0",
        b"keydown -0 0",
        b"keydown - 0",
        b"keydown 0x41 0",
        b"keydown 32768 0",
        b"keydown -32769 0",
        b"keydown 65 -1",
        b"keydown 65 256",
        b"keydown 65 00",
        b"keyup 1 +1",
        b"move 1",
        b"move 1 2 3",
        b"move 1 --2",
        b"move 99999999999 0",
        b"at 1 2 3",
        b"press 0",
        b"press 6",
        b"release -1",
        b"scroll -00",
        b"scroll 1\xff",
        b"unknown 12",
    ];
    for line in refused.iter() {
        assert!(rt; read_line(line).is_none());
    }
}

#[test]
fn packets(rt: HostRuntime) -> Result<(), Fail> {
    let read: [(&[u8], Result<Event, BadEvent>); 18] = [
        (
            &KEY_DOWN_PACKET,
            Ok(Event::KeyDown {
                code: 65,
                modifiers: 0,
            }),
        ),
        (
            &[0, 0, 0, 10, 4, 0, 0, 0, 9, 0xFE, 0xFF, 3, 9, 9],
            Ok(Event::KeyUp {
                code: -2,
                modifiers: 3,
            }),
        ),
        (
            &[
                0, 0, 0, 14, 5, 0, 0, 0, 0, 1, 0xFF, 0xFE, 9, 9, 7, 0x80, 4, 0x38,
            ],
            Ok(Event::At {
                x: 1,
                y: -2,
                width: 1920,
                height: 1080,
            }),
        ),
        (
            &[0, 0, 0, 8, 7, 0, 0, 0, 0xFF, 0xF6, 0, 3],
            Ok(Event::Move { dx: -10, dy: 3 }),
        ),
        (&[0, 0, 0, 5, 8, 0, 0, 0, 5], Ok(Event::Press { button: 5 })),
        (
            &[0, 0, 0, 5, 9, 0, 0, 0, 1],
            Ok(Event::Release { button: 1 }),
        ),
        (
            &[0, 0, 0, 10, 10, 0, 0, 0, 0, 120, 9, 9, 9, 9],
            Ok(Event::Scroll { amount: 120 }),
        ),
        (&[0, 0, 0, 4, 12, 0, 0, 0], Ok(Event::Unknown { magic: 12 })),
        (
            &[0, 0, 0, 6, 6, 0, 0, 1, 1, 2],
            Ok(Event::Unknown { magic: 0x0100_0006 }),
        ),
        (&[], Err(BadEvent { place: 0 })),
        (&[0, 0, 0, 3, 12, 0, 0], Err(BadEvent { place: 0 })),
        (&[0, 0, 0, 5, 12, 0, 0, 0], Err(BadEvent { place: 0 })),
        (
            &[10, 0, 0, 0, 3, 0, 0, 0, 0, 65, 0, 0, 0, 0],
            Err(BadEvent { place: 0 }),
        ),
        (
            &[0, 0, 0, 9, 3, 0, 0, 0, 0, 65, 0, 0, 0],
            Err(BadEvent { place: 4 }),
        ),
        (&[0, 0, 0, 6, 8, 0, 0, 0, 0, 0], Err(BadEvent { place: 4 })),
        (&[0, 0, 0, 5, 7, 0, 0, 0, 1], Err(BadEvent { place: 4 })),
        (&[0, 0, 0, 5, 8, 0, 0, 0, 0], Err(BadEvent { place: 8 })),
        (&[0, 0, 0, 5, 9, 0, 0, 0, 6], Err(BadEvent { place: 8 })),
    ];
    for (bytes, event) in read.iter() {
        assert_eq!(rt; Event::read(bytes), *event);
    }
    Ok(())
}

#[test]
fn written_packets(rt: HostRuntime) {
    let mut out = [0xAA; EVENT_ROOM];
    let length = Event::KeyDown {
        code: 65,
        modifiers: 0,
    }
    .write(&mut out);
    assert_eq!(rt; &out[..length], KEY_DOWN_PACKET.as_slice());
    let length = Event::Scroll { amount: -120 }.write(&mut out);
    assert_eq!(rt;
        &out[..length],
        [0, 0, 0, 10, 10, 0, 0, 0, 0xFF, 0x88, 0xFF, 0x88, 0, 0].as_slice()
    );
}

#[test]
fn unknown_line(rt: HostRuntime) -> Result<(), Fail> {
    let line = write_line(rt.alloc(), &Event::Unknown { magic: 0xFFFF_FFFF })?;
    assert_eq!(rt; line.as_bytes(), b"unknown 4294967295".as_slice());
    Ok(())
}

#[test]
fn keys(rt: HostRuntime) -> Result<(), Fail> {
    let mut pressed = Pressed::new(rt.alloc());
    pressed.apply(&Event::KeyDown {
        code: 65,
        modifiers: 0,
    })?;
    pressed.apply(&Event::KeyDown {
        code: 66,
        modifiers: 0,
    })?;
    pressed.apply(&Event::KeyUp {
        code: 66,
        modifiers: 0,
    })?;
    pressed.apply(&Event::Press { button: 1 })?;
    assert!(rt; pressed.is_down(65));
    assert!(rt; !pressed.is_down(66));
    assert!(rt; !pressed.is_down(-1));
    Ok(())
}

#[test]
fn sinks(rt: HostRuntime) -> Result<(), Fail> {
    let event = Event::Scroll { amount: 1 };
    let mut failing = MemInput::new(rt.alloc(), &[2])?;
    assert_eq!(rt; failing.put(1, 3, &event), Ok(()));
    assert_eq!(rt; failing.put(2, 3, &event), Err(Failed::Fault));
    assert_eq!(rt; failing.put(3, 2, &event), Ok(()));
    assert_eq!(rt; failing.faults(), 1);
    assert_eq!(rt;
        failing.inputs(),
        [
            Input {
                session: 1,
                channel: 3,
                event
            },
            Input {
                session: 3,
                channel: 2,
                event
            }
        ]
        .as_slice()
    );
    let mut sure = SureInput::new(rt.alloc())?;
    assert_eq!(rt; sure.put(1, 3, &event), Ok(()));
    assert_eq!(rt; sure.inputs().len(), 1);
    Ok(())
}
