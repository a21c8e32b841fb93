// Small frames, by the bytes of their datagrams.
use crate::Queue;
use crate::tests::{payload_at, payloads, queue};
use gs_frames::Added;
use std::alloc::Global;
use std::test::Fail;

// A datagram of a frame of one block, with the four bytes that place it there.
fn datagram_at(
    alloc: Global,
    frame: u8,
    fec_info: [u8; 4],
    payload: &[u8],
) -> Result<Vec<u8>, Fail> {
    let mut bytes = [
        0x90, 0, 0, 0, 0, 0, 0, 0, 0, 0, 0, 1, 0, 0, 0, 0, 0, 0, 0, 0, frame, 0, 0, 0, 7, 0, 0x10,
        0,
    ]
    .to_vec(alloc)?;
    bytes.extend_from_slice(&fec_info)?;
    bytes.extend_from_slice(payload)?;
    Ok(bytes)
}

fn take(
    queue: &mut Queue,
    alloc: Global,
    frame: u8,
    fec_info: [u8; 4],
    payload: &[u8],
) -> Result<Added, Fail> {
    let bytes = datagram_at(alloc, frame, fec_info, payload)?;
    Ok(queue.add(&bytes).what)
}

#[test]
fn takes_units_at_the_edge_of_a_payload(rt: HostRuntime) -> Result<(), Fail> {
    let mut queue = queue(rt.alloc(), 1)?;
    // a unit of 1,000 bytes fills one payload, and one of 1,001 takes a byte of a second
    let mut full = [7; 1_008];
    full[..8].copy_from_slice(&[1, 0, 0, 2, 0xF0, 3, 0, 0]);
    let what = take(&mut queue, rt.alloc(), 1, [0, 0, 0x40, 0], &full)?;
    assert_eq!(rt; what, Added::FrameWhole);
    assert!(rt; queue.image(1) == &full[..]);
    let mut first = [7; 1_008];
    first[..8].copy_from_slice(&[1, 0, 0, 2, 1, 0, 0, 0]);
    let mut second = [0; 1_008];
    second[0] = 7;
    let mut both = first.to_vec(rt.alloc())?;
    both.extend_from_slice(&second)?;
    let what = take(&mut queue, rt.alloc(), 2, [0, 0x10, 0x80, 0], &second)?;
    assert_eq!(rt; what, Added::Added);
    let what = take(&mut queue, rt.alloc(), 2, [0, 0, 0x80, 0], &first)?;
    assert_eq!(rt; what, Added::FrameWhole);
    assert!(rt; queue.image(2) == both.as_slice());
    Ok(())
}

#[test]
fn takes_the_sixth_of_ten(rt: HostRuntime) -> Result<(), Fail> {
    let mut queue = queue(rt.alloc(), 1)?;
    let all = payloads(rt.alloc(), 10, 2, 11)?;
    // the number's low byte, for each of the numbers but 5, and then 5
    let rows = [
        (0, 0x01),
        (1, 0x11),
        (2, 0x21),
        (3, 0x31),
        (4, 0x41),
        (6, 0x61),
        (7, 0x71),
        (8, 0x81),
        (9, 0x91),
    ];
    for (index, place) in rows {
        let info = [0x40, place, 0x80, 0x02];
        let what = take(&mut queue, rt.alloc(), 1, info, payload_at(&all, index))?;
        assert_eq!(rt; what, Added::Added);
        let what = take(&mut queue, rt.alloc(), 1, info, payload_at(&all, index))?;
        assert_eq!(rt; what, Added::Repeat);
    }
    let info = [0x40, 0x51, 0x80, 0x02];
    let what = take(&mut queue, rt.alloc(), 1, info, payload_at(&all, 5))?;
    assert_eq!(rt; what, Added::FrameWhole);
    assert!(rt; queue.image(1) == &all[..10_080.min(all.len())]);
    Ok(())
}

#[test]
fn restores_from_the_least_parity(rt: HostRuntime) -> Result<(), Fail> {
    let mut queue = queue(rt.alloc(), 1)?;
    // one data shard and two of parity, of which each alone is enough
    let one = payloads(rt.alloc(), 1, 2, 13)?;
    let rows = [
        (1, 0, [0x80, 0x0C, 0x40, 0]),
        (2, 1, [0x80, 0x1C, 0x40, 0]),
        (3, 2, [0x80, 0x2C, 0x40, 0]),
    ];
    for (frame, index, info) in rows {
        let what = take(&mut queue, rt.alloc(), frame, info, payload_at(&one, index))?;
        assert_eq!(rt; what, Added::FrameWhole);
        assert!(rt; queue.image(u32::from(frame)) == payload_at(&one, 0));
    }
    // three of data and two of parity, without the first and the third
    let three = payloads(rt.alloc(), 3, 2, 17)?;
    let rows = [
        (1, [0x20, 0x14, 0xC0, 0], Added::Added),
        (4, [0x20, 0x44, 0xC0, 0], Added::Added),
        (3, [0x20, 0x34, 0xC0, 0], Added::FrameWhole),
    ];
    for (index, info, want) in rows {
        let what = take(&mut queue, rt.alloc(), 4, info, payload_at(&three, index))?;
        assert_eq!(rt; what, want);
    }
    assert!(rt; queue.image(4) == &three[..3_024.min(three.len())]);
    Ok(())
}
