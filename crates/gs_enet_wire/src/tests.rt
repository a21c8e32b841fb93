use super::*;
use gs_bytes::{OutOfMemory, Text};
use std::alloc::Global;
use std::test::Fail;

/// A header with peer 5, session 0 and sent time 0x1234.
const HEADER: [u8; 4] = [0x80, 0x05, 0x12, 0x34];

/// A command of each kind, with each ignored bit at 0.
static COMMANDS: [&[u8]; 12] = [
    &[0x01, 0x02, 0x00, 0x07, 0x01, 0x05, 0x12, 0x34],
    &[
        0x82, 0xFF, 0x00, 0x01, 0x00, 0x03, 0x01, 0x02, 0x00, 0x00, 0x05, 0x70, 0x00, 0x01, 0x00,
        0x00, 0x00, 0x00, 0x00, 0x30, 0x00, 0x00, 0x00, 0x06, 0x00, 0x00, 0x00, 0x07, 0x00, 0x00,
        0x13, 0x88, 0x00, 0x00, 0x00, 0x02, 0x00, 0x00, 0x00, 0x04, 0xDE, 0xAD, 0xBE, 0xEF, 0x00,
        0x00, 0x00, 0x09,
    ],
    &[
        0x83, 0xFF, 0x00, 0x01, 0x00, 0x03, 0x01, 0x02, 0x00, 0x00, 0x05, 0x70, 0x00, 0x01, 0x00,
        0x00, 0x00, 0x00, 0x00, 0x30, 0x00, 0x00, 0x00, 0x06, 0x00, 0x00, 0x00, 0x07, 0x00, 0x00,
        0x13, 0x88, 0x00, 0x00, 0x00, 0x02, 0x00, 0x00, 0x00, 0x04, 0xDE, 0xAD, 0xBE, 0xEF,
    ],
    &[0x84, 0xFF, 0x00, 0x02, 0x00, 0x00, 0x00, 0x0A],
    &[0x85, 0xFF, 0x00, 0x03],
    &[0x86, 0x01, 0x00, 0x04, 0x00, 0x02, 0x41, 0x42],
    &[0x07, 0x01, 0x00, 0x05, 0x00, 0x08, 0x00, 0x01, 0x43],
    &[
        0x88, 0x01, 0x00, 0x06, 0x00, 0x05, 0x00, 0x03, 0x00, 0x00, 0x00, 0x02, 0x00, 0x00, 0x00,
        0x01, 0x00, 0x00, 0x00, 0x06, 0x00, 0x00, 0x00, 0x03, 0x44, 0x45, 0x46,
    ],
    &[0x09, 0x01, 0x00, 0x00, 0x00, 0x0B, 0x00, 0x00],
    &[
        0x8A, 0xFF, 0x00, 0x08, 0x00, 0x00, 0x01, 0x00, 0x00, 0x00, 0x02, 0x00,
    ],
    &[
        0x8B, 0xFF, 0x00, 0x09, 0x00, 0x00, 0x13, 0x88, 0x00, 0x00, 0x00, 0x02, 0x00, 0x00, 0x00,
        0x04,
    ],
    &[
        0x0C, 0x01, 0x00, 0x0A, 0x00, 0x05, 0x00, 0x01, 0x00, 0x00, 0x00, 0x02, 0x00, 0x00, 0x00,
        0x01, 0x00, 0x00, 0x00, 0x06, 0x00, 0x00, 0x00, 0x03, 0x47,
    ],
];

fn connect() -> Connect {
    Connect {
        channel: 0xFF,
        number: 1,
        asks: true,
        peer: 3,
        incoming: 1,
        outgoing: 2,
        mtu: 1392,
        window: 65_536,
        channels: 48,
        incoming_bandwidth: 6,
        outgoing_bandwidth: 7,
        throttle_interval: 5_000,
        acceleration: 2,
        deceleration: 4,
        connect_id: 0xDEAD_BEEF,
        extra: 9,
    }
}

fn verify_connect() -> Command {
    Command::VerifyConnect {
        channel: 0xFF,
        number: 1,
        asks: true,
        peer: 3,
        incoming: 1,
        outgoing: 2,
        mtu: 1392,
        window: 65_536,
        channels: 48,
        incoming_bandwidth: 6,
        outgoing_bandwidth: 7,
        throttle_interval: 5_000,
        acceleration: 2,
        deceleration: 4,
        connect_id: 0xDEAD_BEEF,
    }
}

/// The value of a command without data, by its number.
fn plain_value(kind: usize) -> Command {
    match kind {
        1 => Command::Acknowledge {
            channel: 2,
            number: 7,
            asks: false,
            received: 0x0105,
            received_sent: 0x1234,
        },
        2 => Command::Connect(connect()),
        3 => verify_connect(),
        4 => Command::Disconnect {
            channel: 0xFF,
            number: 2,
            asks: true,
            extra: 10,
        },
        10 => Command::Bandwidth {
            channel: 0xFF,
            number: 8,
            asks: true,
            incoming: 256,
            outgoing: 512,
        },
        11 => Command::Throttle {
            channel: 0xFF,
            number: 9,
            asks: true,
            interval: 5_000,
            acceleration: 2,
            deceleration: 4,
        },
        _ => Command::Ping {
            channel: 0xFF,
            number: 3,
            asks: true,
        },
    }
}

/// The data of a command, by its number.
fn data(kind: usize) -> &'static [u8] {
    match kind {
        6 => b"AB",
        7 => b"C",
        8 => b"DEF",
        12 => b"G",
        _ => b"",
    }
}

fn fragment(bytes: Text) -> Command {
    Command::Fragment {
        channel: 1,
        number: 6,
        asks: true,
        start: 5,
        count: 2,
        fragment: 1,
        total: 6,
        offset: 3,
        bytes,
    }
}

fn unreliable_fragment(bytes: Text) -> Command {
    Command::UnreliableFragment {
        channel: 1,
        number: 10,
        asks: false,
        start: 5,
        count: 2,
        fragment: 1,
        total: 6,
        offset: 3,
        bytes,
    }
}

/// The value of each command, by its number.
fn value(alloc: Global, kind: usize) -> Result<Command, OutOfMemory> {
    let bytes = Text::copy_of(alloc, data(kind))?;
    Ok(match kind {
        6 => Command::Reliable {
            channel: 1,
            number: 4,
            asks: true,
            bytes,
        },
        7 => Command::Unreliable {
            channel: 1,
            number: 5,
            asks: false,
            unreliable: 8,
            bytes,
        },
        8 => fragment(bytes),
        9 => Command::Unsequenced {
            channel: 1,
            number: 0,
            asks: false,
            group: 11,
            bytes,
        },
        12 => unreliable_fragment(bytes),
        _ => plain_value(kind),
    })
}

/// The header, and these bytes behind it.
fn behind_header(alloc: Global, bytes: &[u8]) -> Result<Vec<u8>, OutOfMemory> {
    let mut all = Vec::from_slice(alloc, &HEADER)?;
    all.extend_from_slice(bytes)?;
    Ok(all)
}

/// The header, and all commands behind it.
fn all_bytes(alloc: Global) -> Result<Vec<u8>, OutOfMemory> {
    let mut all = Vec::from_slice(alloc, &HEADER)?;
    for bytes in COMMANDS.iter() {
        all.extend_from_slice(bytes)?;
    }
    Ok(all)
}

/// The bytes have a fault at the place.
fn refused(rt: &HostRuntime, bytes: &[u8], place: usize) -> bool {
    matches!(read(rt.alloc(), bytes), Err(WireError::BadDatagram(found)) if found == place)
}

#[test]
fn each_command(rt: HostRuntime) -> Result<(), Fail> {
    for (index, bytes) in COMMANDS.iter().enumerate() {
        let whole = behind_header(rt.alloc(), bytes)?;
        let datagram = read(rt.alloc(), &whole)?;
        assert_eq!(rt; datagram.peer, 5);
        assert_eq!(rt; datagram.session, 0);
        assert_eq!(rt; datagram.sent, Some(0x1234));
        assert_eq!(rt; datagram.commands.len(), 1);
        for command in datagram.commands.as_slice() {
            assert!(rt; *command == value(rt.alloc(), index + 1)?);
        }
    }
    Ok(())
}

#[test]
fn all_commands(rt: HostRuntime) -> Result<(), Fail> {
    let bytes = all_bytes(rt.alloc())?;
    let datagram = read(rt.alloc(), &bytes)?;
    assert_eq!(rt; datagram.commands.len(), 12);
    for (index, command) in datagram.commands.as_slice().iter().enumerate() {
        assert!(rt; *command == value(rt.alloc(), index + 1)?);
    }
    Ok(())
}

#[test]
fn faults(rt: HostRuntime) {
    assert!(rt; refused(&rt, &[0xC0, 0x00], 0));
    assert!(rt; refused(&rt, &[0x80, 0x00, 0x00], 2));
    assert!(rt; refused(&rt, &[0x00, 0x00], 2));
    assert!(rt; refused(&rt, &[0x00, 0x00, 0x86, 0x00, 0x00, 0x01, 0x00, 0x00], 2));
    assert!(rt; refused(&rt, &[0x80, 0x00, 0x00, 0x00, 0x0D, 0x00, 0x00, 0x01], 4));
    assert!(rt;
        refused(
            &rt,
            &[
                0x80, 0x00, 0x00, 0x00, 0x06, 0x00, 0x00, 0x01, 0x00, 0x05, 0x41
            ],
            4
        )
    );
}

#[test]
fn too_long(rt: HostRuntime) -> Result<(), Fail> {
    let long = vec![in rt.alloc(); 0; 4097]?;
    assert!(rt; refused(&rt, &long, 4096));
    Ok(())
}

#[test]
fn cut_commands(rt: HostRuntime) -> Result<(), Fail> {
    for bytes in COMMANDS.iter() {
        for cut in 0..bytes.len() {
            let whole = behind_header(rt.alloc(), &bytes[..cut])?;
            assert!(rt; refused(&rt, &whole, 4));
        }
    }
    Ok(())
}

#[test]
fn written_again(rt: HostRuntime) -> Result<(), Fail> {
    let bytes = all_bytes(rt.alloc())?;
    let datagram = read(rt.alloc(), &bytes)?;
    assert_eq!(rt; datagram.session, 0);
    assert!(rt; datagram.sent.is_some());
    assert_eq!(rt; datagram.written_length(), bytes.len());
    let mut out = vec![in rt.alloc(); 0xEE; 300]?;
    assert!(rt; bytes.len() <= out.len());
    let end = write(&datagram, &mut out);
    assert_eq!(rt; end, bytes.len());
    assert_eq!(rt; &out[..end], bytes.as_slice());
    assert!(rt; out[end..].iter().all(|byte| *byte == 0xEE));
    Ok(())
}

/// The bits of a command's first byte between its number and the wish for an acknowledgement are
/// ignored, and the session is read.
#[test]
fn ignored_bits(rt: HostRuntime) -> Result<(), Fail> {
    let plain = read(
        rt.alloc(),
        &[0xA0, 0x05, 0x12, 0x34, 0x85, 0xFF, 0x00, 0x03],
    )?;
    let odd = read(
        rt.alloc(),
        &[0xA0, 0x05, 0x12, 0x34, 0xF5, 0xFF, 0x00, 0x03],
    )?;
    assert_eq!(rt; plain.session, 2);
    assert!(rt; plain == odd);
    Ok(())
}
