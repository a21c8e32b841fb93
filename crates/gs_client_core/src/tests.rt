mod taken_whole;

use crate::{Asker, Client, Given, Taken};
use gs_enet::{Peer, PeerEvent};
use gs_enet_wire::{Command, read};
use gs_frames::{Added, Range, Why};
use gs_rtp::Settings;
use std::alloc::Global;
use std::test::Fail;

// A client of a stream whose audio units have one byte.
fn client(alloc: Global, window: u8) -> Result<Client, Fail> {
    let settings = Settings::make(1_024, 0, 0, 60, 5, 1, 1).ok_or("settings")?;
    Ok(Client::new(alloc, &settings, window.clamp(1, 4))?)
}

// A datagram of a frame of one packet, whose unit is its index and its kind.
fn small_frame(alloc: Global, frame: u8, kind: u8) -> Result<Vec<u8>, Fail> {
    let head = [
        0x90, 0, 0, 0, 0, 0, 0, 0, 0, 0, 0, 1, 0, 0, 0, 0, 0, 0, 0, 0, frame, 0, 0, 0, 7, 0, 0x10,
        0, 0, 0, 0x40, 0, 1, 0, 0, kind, 10, 0, 0, 0, frame, kind,
    ];
    let mut bytes = head.to_vec(alloc)?;
    bytes.resize(1_040, 0)?;
    Ok(bytes)
}

// The first frame of a range, and 0 of none.
fn first_of(range: Option<Range>) -> u32 {
    match range {
        Some(range) => range.first,
        None => 0,
    }
}

// The index of a frame that is given, and 0 of none.
fn frame_of(unit: Option<Given<'_>>) -> u32 {
    match unit {
        Some(unit) => unit.frame,
        None => 0,
    }
}

// What a client asks for first when such a datagram comes, and the frames that it hands.
fn take(client: &mut Client, alloc: Global, frame: u8, kind: u8) -> Result<[u32; 5], Fail> {
    let bytes = small_frame(alloc, frame, kind)?;
    let Taken { ask, units, .. } = client.take(&bytes);
    let [a, b, c, d] = units;
    Ok([
        first_of(ask),
        frame_of(a),
        frame_of(b),
        frame_of(c),
        frame_of(d),
    ])
}

#[test]
fn takes_a_frame_once(rt: HostRuntime) -> Result<(), Fail> {
    let mut client = client(rt.alloc(), 1)?;
    let bytes = small_frame(rt.alloc(), 1, 2)?;
    assert_eq!(rt; client.take(&[]).what, Added::Foreign(Why::Grammar));
    let taken = client.take(&bytes);
    assert_eq!(rt; taken.what, Added::FrameWhole);
    let [Some(unit), None, None, None] = taken.units else {
        return Err("one frame".into());
    };
    assert_eq!(rt; unit.frame, 1);
    assert_eq!(rt; unit.kind, 2);
    assert_eq!(rt; unit.bytes, [1, 2].as_slice());
    assert_eq!(rt; client.take(&bytes).what, Added::Repeat);
    Ok(())
}

#[test]
fn waits_in_its_window_and_behind_a_reset(rt: HostRuntime) -> Result<(), Fail> {
    let mut client = client(rt.alloc(), 3)?;
    let rows = [
        (1, 2, [0, 1, 0, 0, 0]),
        (3, 1, [0; 5]),
        (2, 1, [0, 2, 3, 0, 0]),
    ];
    for (frame, kind, answer) in rows {
        assert_eq!(rt; take(&mut client, rt.alloc(), frame, kind)?, answer);
    }
    client.reset();
    // a frame that refers to another is barred, until an IDR frame is handed
    let rows = [(4, 5, [0; 5]), (6, 2, [0; 5]), (8, 1, [5, 6, 0, 0, 0])];
    for (frame, kind, answer) in rows {
        assert_eq!(rt; take(&mut client, rt.alloc(), frame, kind)?, answer);
    }
    Ok(())
}

// The first byte that such a datagram plays of the first unit of a block.
fn first_played(client: &mut Client, datagram: &[u8]) -> Option<u8> {
    let [unit, ..] = client.play(datagram).units;
    unit?.first().copied()
}

#[test]
fn plays_a_unit_that_did_not_come(rt: HostRuntime) -> Result<(), Fail> {
    let mut client = client(rt.alloc(), 1)?;
    let first = [
        0x80, 0x7F, 0, 4, 0, 0, 0, 0, 0, 0, 0, 1, 0, 0x61, 0, 0, 0, 0, 0, 0, 0, 0, 0, 1, 0x77,
    ];
    let second = [
        0x80, 0x7F, 0, 5, 0, 0, 0, 0, 0, 0, 0, 1, 1, 0x61, 0, 0, 0, 0, 0, 0, 0, 0, 0, 1, 0xC7,
    ];
    let third = [0x80, 0x61, 0, 1, 0, 0, 0, 5, 0, 0, 0, 1, 0];
    let fourth = [0x80, 0x61, 0, 2, 0, 0, 0, 10, 0, 0, 0, 1, 0];
    assert_eq!(rt; first_played(&mut client, &first), None);
    assert_eq!(rt; first_played(&mut client, &second), None);
    assert_eq!(rt; first_played(&mut client, &third), None);
    assert_eq!(rt; first_played(&mut client, &fourth), Some(1));
    Ok(())
}

// Hands all that one side writes to the other.
fn deliver(from: &mut Peer, to: &mut Peer) -> Result<(), Fail> {
    let mut out = [0; 1_392];
    for _ in 0..100 {
        let Some(length) = from.next_out(0, &mut out) else {
            return Ok(());
        };
        to.take(out.get(..length).unwrap_or(&[]), 0)?;
    }
    Ok(())
}

// A client's side that waits for its answer, and a host's that answers.
fn sides(alloc: Global) -> Result<(Peer, Peer), Fail> {
    let mut own = Peer::connect(alloc, 0, 1, 1, 0)?;
    let mut out = [0; 1_392];
    let length = own.next_out(0, &mut out).ok_or("a request")?;
    let datagram = read(alloc, out.get(..length).unwrap_or(&[]))?;
    let [Command::Connect(connect)] = datagram.commands.as_slice() else {
        return Err("a connect".into());
    };
    let host = Peer::accept(alloc, 0, connect, 0)?;
    Ok((own, host))
}

// The bytes of the next message that a side tells of channel 1.
fn asked(peer: &mut Peer, alloc: Global) -> Result<Vec<u8>, Fail> {
    match peer.next_event() {
        Some(
            PeerEvent::Message {
                channel: 1,
                bytes,
                ..
            },
        ) => Ok(bytes.as_bytes().to_vec(alloc)?),
        _ => Err("a message".into()),
    }
}

#[test]
fn asks_in_order_as_it_can(rt: HostRuntime) -> Result<(), Fail> {
    let (mut own, mut host) = sides(rt.alloc())?;
    let mut asker = Asker::new(rt.alloc());
    asker.owe(Range { first: 2, last: 3 })?;
    for _ in 0..256 {
        asker.owe_idr()?;
    }
    // the connection isn't up, and then the window has room for all but one
    assert_eq!(rt; asker.send_owed(&mut own)?, 0);
    deliver(&mut host, &mut own)?;
    assert_eq!(rt; asker.send_owed(&mut own)?, 256);
    deliver(&mut own, &mut host)?;
    assert!(rt; matches!(host.next_event(), Some(PeerEvent::Connected)));
    let range = [
        1, 3, 2, 0, 0, 0, 0, 0, 0, 0, 3, 0, 0, 0, 0, 0, 0, 0, 0, 0, 0, 0, 0, 0, 0, 0,
    ];
    assert_eq!(rt; asked(&mut host, rt.alloc())?.as_slice(), range.as_slice());
    let idr = [2, 3, 0, 0];
    assert_eq!(rt; asked(&mut host, rt.alloc())?.as_slice(), idr.as_slice());
    Ok(())
}
