// Streams by the bytes of their datagrams, and what a client makes of them.

use crate::{Client, Taken};
use gs_frames::{Added, Range};
use gs_rs::Code;
use gs_rtp::Settings;
use std::alloc::Global;
use std::test::Fail;

const PAYLOAD: usize = 1_008;

// A client of a stream without audio, whose window is one frame.
fn client(alloc: Global, percentage: u8) -> Result<Client, Fail> {
    let settings = Settings::make(1_024, percentage, 0, 60, 5, 0, 1).ok_or("settings")?;
    Ok(Client::new(alloc, &settings, 1)?)
}

// A unit of so many bytes, which differ.
fn unit_of(alloc: Global, length: usize) -> Result<Vec<u8>, Fail> {
    let mut unit = vec![in alloc; 0; length]?;
    let mut state = 1_u8;
    for byte in unit.iter_mut() {
        state = state.wrapping_mul(5).wrapping_add(1);
        *byte = state;
    }
    Ok(unit)
}

// The payloads of an IDR frame with this length of the last one: its data, of so many bytes.
fn data_of(alloc: Global, unit: &[u8], last: [u8; 2], length: usize) -> Result<Vec<u8>, Fail> {
    let [low, high] = last;
    let mut data = [1, 0, 0, 2, low, high, 0, 0].to_vec(alloc)?;
    data.extend_from_slice(unit)?;
    data.resize(length, 0)?;
    Ok(data)
}

// Those of a frame of ten data shards, and two of parity.
fn ten_and_two(alloc: Global, unit: &[u8]) -> Result<Vec<u8>, Fail> {
    let code = Code::video(10, 2)?;
    let mut all = data_of(alloc, unit, [0xA8, 3], 10_080)?;
    all.resize(code.data() * PAYLOAD, 0)?;
    let mut parity = vec![in alloc; 0; code.parity() * PAYLOAD]?;
    code.encode(PAYLOAD, &all, &mut parity);
    all.extend_from_slice(&parity)?;
    Ok(all)
}

// A datagram of a frame of one block: the four bytes that place it there, and its payload, which is this one of all.
fn datagram(
    alloc: Global,
    frame: u8,
    place: [u8; 4],
    all: &[u8],
    index: u8,
) -> Result<Vec<u8>, Fail> {
    let mut bytes = [
        0x90, 0, 0, 0, 0, 0, 0, 0, 0, 0, 0, 1, 0, 0, 0, 0, 0, 0, 0, 0, frame, 0, 0, 0, 7, 0, 0x10,
        0,
    ]
    .to_vec(alloc)?;
    bytes.extend_from_slice(&place)?;
    let start = usize::from(index) * PAYLOAD;
    bytes.extend_from_slice(all.get(start..start + PAYLOAD).unwrap_or(&[]))?;
    Ok(bytes)
}

// A datagram of a frame of ten data shards and two of parity.
fn of_twelve(alloc: Global, all: &[u8], index: u8) -> Result<Vec<u8>, Fail> {
    datagram(alloc, 1, [0x40, index << 4 | 1, 0x80, 2], all, index)
}

// A datagram of a frame of two data shards.
fn of_two(alloc: Global, frame: u8, all: &[u8], index: u8) -> Result<Vec<u8>, Fail> {
    datagram(alloc, frame, [0, index << 4, 0x80, 0], all, index)
}

// The verdict on a datagram with which nothing is asked for, and nothing handed.
fn noted(client: &mut Client, datagram: &[u8]) -> Option<Added> {
    let Taken { what, ask, units } = client.take(datagram);
    let [None, None, None, None] = units else {
        return None;
    };
    match ask {
        Some(_) => None,
        None => Some(what),
    }
}

// What is asked for with a datagram with which nothing is handed.
fn asked(client: &mut Client, datagram: &[u8]) -> Option<Range> {
    let Taken { ask, units, .. } = client.take(datagram);
    let [None, None, None, None] = units else {
        return None;
    };
    ask
}

// The index, the kind and the length of the one frame that is handed with a datagram, where its unit has these bytes.
fn handed(client: &mut Client, datagram: &[u8], unit: &[u8]) -> Option<(u32, u8, usize)> {
    let Taken { units, .. } = client.take(datagram);
    let [Some(given), None, None, None] = units else {
        return None;
    };
    if given.bytes == unit {
        Some((given.frame, given.kind, given.bytes.len()))
    } else {
        None
    }
}

#[test]
fn a_shard_that_comes_twice_counts_once(rt: HostRuntime) -> Result<(), Fail> {
    let unit = unit_of(rt.alloc(), 10_000)?;
    let all = ten_and_two(rt.alloc(), &unit)?;
    let mut client = client(rt.alloc(), 20)?;
    for index in 0..9 {
        let bytes = of_twelve(rt.alloc(), &all, index)?;
        assert_eq!(rt; noted(&mut client, &bytes), Some(Added::Added));
    }
    let ninth = of_twelve(rt.alloc(), &all, 8)?;
    assert_eq!(rt; noted(&mut client, &ninth), Some(Added::Repeat));
    // the first of parity stands for the tenth
    let eleventh = of_twelve(rt.alloc(), &all, 10)?;
    assert_eq!(rt; handed(&mut client, &eleventh, &unit), Some((1, 2, 10_000)));
    Ok(())
}

#[test]
fn a_frame_that_is_left_is_asked_for(rt: HostRuntime) -> Result<(), Fail> {
    let unit = unit_of(rt.alloc(), 1_500)?;
    let all = data_of(rt.alloc(), &unit, [0xF4, 1], 2_016)?;
    let mut client = client(rt.alloc(), 0)?;
    let first = of_two(rt.alloc(), 1, &all, 0)?;
    let second = of_two(rt.alloc(), 1, &all, 1)?;
    let third = of_two(rt.alloc(), 2, &all, 0)?;
    let fourth = of_two(rt.alloc(), 2, &all, 1)?;
    assert_eq!(rt; noted(&mut client, &first), Some(Added::Added));
    let range = Range { first: 1, last: 1 };
    assert_eq!(rt; asked(&mut client, &third), Some(range));
    assert_eq!(rt;
        noted(&mut client, &second),
        Some(Added::Old { current: 2 })
    );
    assert_eq!(rt; handed(&mut client, &fourth, &unit), Some((2, 2, 1_500)));
    Ok(())
}
