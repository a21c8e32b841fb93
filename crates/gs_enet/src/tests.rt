use crate::{Peer, PeerEvent, SendError, TakeError};
use gs_enet_wire::{Command, read};
use std::alloc::Global;
use std::test::Fail;

/// Hands everything that one side writes to the other, twice, and answers how many datagrams that is.
fn deliver(from: &mut Peer, to: &mut Peer, now: u32) -> Result<u32, TakeError> {
    let mut out = [0; 1392];
    for count in 0..1000 {
        let Some(length) = from.next_out(now, &mut out) else {
            return Ok(count);
        };
        to.take(&out[..length], now)?;
        to.take(&out[..length], now)?;
    }
    Ok(1000)
}

/// The next datagram of a side, empty where there is none.
pub fn written(alloc: Global, peer: &mut Peer, now: u32) -> Result<Vec<u8>, Fail> {
    let mut out = [0; 1392];
    let mut bytes = Vec::new(alloc);
    if let Some(length) = peer.next_out(now, &mut out) {
        bytes.extend_from_slice(&out[..length])?;
    }
    Ok(bytes)
}

/// A client that waits for its answer, and the host that answers it.
fn begun(alloc: Global) -> Result<(Peer, Peer), Fail> {
    let mut client = Peer::connect(alloc, 0, 1, 1, 0)?;
    let request = written(alloc, &mut client, 0)?;
    let datagram = read(alloc, &request)?;
    let [Command::Connect(connect)] = datagram.commands.as_slice() else {
        return Err(Fail::from("no connect"));
    };
    let host = Peer::accept(alloc, 0, connect, 0)?;
    Ok((client, host))
}

/// A client and a host that are connected, and told it.
pub fn connected(alloc: Global) -> Result<(Peer, Peer), Fail> {
    let (mut client, mut host) = begun(alloc)?;
    deliver(&mut host, &mut client, 0)?;
    deliver(&mut client, &mut host, 0)?;
    let (Some(PeerEvent::Connected), Some(PeerEvent::Connected)) = (
        client.next_event(),
        host.next_event(),
    ) else {
        return Err(Fail::from("not connected"));
    };
    Ok((client, host))
}

/// Whether the next event of a side is that message on channel 2.
pub fn tells(peer: &mut Peer, wanted: u64, text: &[u8]) -> bool {
    match peer.next_event() {
        Some(
            PeerEvent::Message {
                channel,
                number,
                bytes,
            },
        ) => channel == 2 && number == wanted && bytes.as_bytes() == text,
        _ => false,
    }
}

/// Gives that many messages one by one, and tells whether each is told once before the next.
fn each_told_once(client: &mut Peer, host: &mut Peer, count: u64) -> Result<bool, Fail> {
    for number in 1..=count {
        if client.send(2, b"key")? != number {
            return Ok(false);
        }
        deliver(client, host, 0)?;
        deliver(host, client, 0)?;
        if !tells(host, number, b"key") || host.next_event().is_some() {
            return Ok(false);
        }
    }
    Ok(true)
}

#[test]
fn numbers_wrap_on_the_wire(rt: HostRuntime) -> Result<(), Fail> {
    let (mut client, mut host) = connected(rt.alloc())?;
    assert!(rt; each_told_once(&mut client, &mut host, 69_999)?);
    client.send(2, b"key")?;
    let last = written(rt.alloc(), &mut client, 0)?;
    let wanted = [0x80, 0, 0, 0, 0x86, 2, 0x11, 0x70, 0, 3, b'k', b'e', b'y'];
    assert_eq!(rt; last.as_slice(), wanted.as_slice());
    host.take(&last, 0)?;
    assert!(rt; tells(&mut host, 70_000, b"key"));
    Ok(())
}

/// Gives that many messages, and tells whether each got the next number.
fn gives_all(client: &mut Peer, count: u64) -> Result<bool, Fail> {
    for number in 1..=count {
        if client.send(2, b"key")? != number {
            return Ok(false);
        }
    }
    Ok(true)
}

#[test]
fn a_window_holds_256_messages(rt: HostRuntime) -> Result<(), Fail> {
    let (mut client, _host) = connected(rt.alloc())?;
    assert!(rt; gives_all(&mut client, 256)?);
    assert!(rt; matches!(client.send(2, b"key"), Err(SendError::WindowFull)));
    assert_eq!(rt; client.send(3, b"key")?, 1);
    Ok(())
}

#[test]
fn a_message_that_is_never_acknowledged_is_lost(rt: HostRuntime) -> Result<(), Fail> {
    let (mut client, _host) = connected(rt.alloc())?;
    client.send(2, b"key")?;
    assert!(rt; is_written_13_times(&mut client));
    client.timer(43_499);
    assert!(rt; client.next_event().is_none());
    client.timer(43_500);
    let event = client.next_event();
    assert!(rt;
        matches!(
            event,
            Some(PeerEvent::Lost {
                channel: 2,
                number: 1
            })
        )
    );
    Ok(())
}

/// Whether the one message is written at once, and again when each wait has passed and not before.
fn is_written_13_times(client: &mut Peer) -> bool {
    let mut out = [0; 1392];
    if client.next_out(0, &mut out) != Some(13) {
        return false;
    }
    for moment in [
        500, 1500, 3500, 7500, 11_500, 15_500, 19_500, 23_500, 27_500, 31_500, 35_500, 39_500,
    ] {
        client.timer(moment - 1);
        if client.next_out(moment - 1, &mut out).is_some() {
            return false;
        }
        client.timer(moment);
        if client.next_out(moment, &mut out) != Some(13) {
            return false;
        }
    }
    true
}

#[test]
fn a_close_waits_for_what_was_sent(rt: HostRuntime) -> Result<(), Fail> {
    let (mut client, mut host) = connected(rt.alloc())?;
    client.send(2, b"key")?;
    client.close();
    assert_eq!(rt; deliver(&mut client, &mut host, 0)?, 1);
    assert_eq!(rt; deliver(&mut host, &mut client, 0)?, 1);
    assert_eq!(rt; deliver(&mut client, &mut host, 0)?, 1);
    assert_eq!(rt; deliver(&mut host, &mut client, 0)?, 1);
    assert!(rt; tells(&mut host, 1, b"key"));
    assert!(rt; matches!(host.next_event(), Some(PeerEvent::PeerClosed)));
    assert!(rt; matches!(client.next_event(), Some(PeerEvent::Closed)));
    Ok(())
}

/// A key that went down, as a host's control channel reads it.
const KEY_DOWN: [u8; 16] = [6, 2, 0, 0, 0, 10, 3, 0, 0, 0, 0, 65, 0, 0, 0, 0];

#[test]
fn bytes_of_a_message_and_its_answer(rt: HostRuntime) -> Result<(), Fail> {
    let (mut client, mut host) = connected(rt.alloc())?;
    client.send(2, &KEY_DOWN)?;
    let message = written(rt.alloc(), &mut client, 0)?;
    assert_eq!(rt;
        message.as_slice(),
        [
            0x80, 0, 0, 0, 0x86, 2, 0, 1, 0, 16, 6, 2, 0, 0, 0, 10, 3, 0, 0, 0, 0, 65, 0, 0, 0, 0
        ]
        .as_slice()
    );
    host.take(&message, 0)?;
    let answer = written(rt.alloc(), &mut host, 0)?;
    assert_eq!(rt;
        answer.as_slice(),
        [0x80, 0, 0, 0, 1, 2, 0, 1, 0, 1, 0, 0].as_slice()
    );
    Ok(())
}

#[test]
fn channels_are_packed_from_0_up(rt: HostRuntime) -> Result<(), Fail> {
    let (mut client, _host) = connected(rt.alloc())?;
    client.send(47, &[9; 1024])?;
    client.send(3, b"b")?;
    client.send(0, b"a")?;
    client.send(3, &[8; 350])?;
    let first = written(rt.alloc(), &mut client, 0)?;
    assert_eq!(rt; first.len(), 4 + 7 + 7 + 356);
    assert_eq!(rt;
        &first[4..18],
        [0x86, 0, 0, 1, 0, 1, 97, 0x86, 3, 0, 1, 0, 1, 98].as_slice()
    );
    let second = written(rt.alloc(), &mut client, 0)?;
    assert_eq!(rt; second.len(), 4 + 6 + 1024);
    assert!(rt; written(rt.alloc(), &mut client, 0)?.is_empty());
    Ok(())
}
