use crate::{Moved, Outcome, Queue};
use byteorder::{BigEndian, ByteOrder, LittleEndian};
use gs_frames::Added;
use gs_rs::Code;
use gs_rtp::Settings;
use std::alloc::Global;
use std::process::Abort;
use std::test::Fail;

const SSRC: u32 = 1;

const PACKET: u16 = 1_024;

const PAYLOAD: usize = 1_008;

// What a datagram says of its place.
#[derive(Clone, Copy)]
pub(crate) struct Place {
    pub(crate) frame: u32,
    pub(crate) block: u8,
    pub(crate) last_block: u8,
    pub(crate) shards: u16,
    pub(crate) percentage: u8,
}

fn one_block(frame: u32, shards: u16, percentage: u8) -> Place {
    Place {
        frame,
        block: 0,
        last_block: 0,
        shards,
        percentage,
    }
}

pub(crate) fn queue(alloc: Global, window: u8) -> Result<Queue, Fail> {
    let settings = Settings::make(PACKET, 20, 0, 60, 5, 0, SSRC).ok_or("settings")?;
    let window = window.clamp(1, 4);
    Ok(Queue::new(alloc, &settings, window)?)
}

pub(crate) fn datagram(
    alloc: Global,
    place: Place,
    index: u16,
    payload: &[u8],
) -> Result<Vec<u8>, Fail> {
    let mut header = [0; 32];
    header[0] = 0x90;
    BigEndian::write_u32(&mut header[8..], SSRC);
    LittleEndian::write_u32(&mut header[20..], place.frame);
    header[27] = place.block << 4 | place.last_block << 6;
    let fec_info = u32::from(place.shards) << 22
        | u32::from(index) << 12
        | u32::from(place.percentage) << 4;
    LittleEndian::write_u32(&mut header[28..], fec_info);
    let mut bytes = header.to_vec(alloc)?;
    bytes.extend_from_slice(payload)?;
    Ok(bytes)
}

// The payloads of a block, data and then parity.
pub(crate) fn payloads(alloc: Global, d: usize, p: usize, seed: u8) -> Result<Vec<u8>, Fail> {
    let code = Code::video(d, p)?;
    let mut data = vec![in alloc; 0; code.data() * PAYLOAD]?;
    let mut state = seed;
    for byte in data.iter_mut() {
        state = state.wrapping_mul(5).wrapping_add(1);
        *byte = state;
    }
    let mut parity = vec![in alloc; 0; code.parity() * PAYLOAD]?;
    code.encode(PAYLOAD, &data, &mut parity);
    data.extend_from_slice(&parity)?;
    Ok(data)
}

pub(crate) fn payload_at(all: &[u8], index: u16) -> &[u8] {
    let place = usize::from(index) * PAYLOAD;
    all.get(place..place + PAYLOAD).unwrap_or(&[])
}

pub(crate) fn add(
    queue: &mut Queue,
    alloc: Global,
    place: Place,
    index: u16,
    all: &[u8],
) -> Result<Added, Fail> {
    let bytes = datagram(alloc, place, index, payload_at(all, index))?;
    Ok(queue.add(&bytes).what)
}

fn is_image(queue: &Queue, frame: u32, all: &[u8], shards: u16) -> bool {
    queue.image(frame) == &all[..(usize::from(shards) * PAYLOAD).min(all.len())]
}

// An order in which the shards of a block come: from the first on, from the last on, or those of odd numbers first.
#[derive(Clone, Copy)]
enum Order {
    Forward,
    Backward,
    OddFirst,
}

// The number of the shard that comes k-th of so many.
fn shard_at(order: Order, k: u16, count: u16) -> u16 {
    let odd = count / 2;
    match order {
        Order::Forward => k,
        Order::Backward => count.wrapping_sub(1).wrapping_sub(k),
        Order::OddFirst => {
            if k < odd {
                k.wrapping_mul(2).wrapping_add(1)
            } else {
                k.wrapping_sub(odd).wrapping_mul(2)
            }
        }
    }
}

// Takes those shards of a block that are in the mask, each twice, in this order.
fn take_some(
    rt: &impl Abort,
    queue: &mut Queue,
    alloc: Global,
    place: Place,
    all: &[u8],
    mask: u32,
    order: Order,
    count: u16,
) -> Result<(), Fail> {
    let mut held = 0;
    for k in 0..count {
        let index = shard_at(order, k, count);
        if mask >> u32::from(index & 31) & 1 == 1 {
            let was = add(queue, alloc, place, index, all)?;
            let want = if held >= place.shards {
                Added::Spare
            } else if held + 1 == place.shards {
                Added::FrameWhole
            } else {
                Added::Added
            };
            assert_eq!(rt; was, want);
            if want != Added::Spare {
                held = held.wrapping_add(1);
                assert_eq!(rt; add(queue, alloc, place, index, all)?, Added::Repeat);
            }
        }
    }
    Ok(())
}

#[test]
fn restores_every_loss(rt: HostRuntime) -> Result<(), Fail> {
    let mut queue = queue(rt.alloc(), 2)?;
    let mut frame = 0_u32;
    for (d, p, percentage) in [
        (1_u16, 2_u16, 200),
        (2, 1, 50),
        (3, 2, 66),
        (4, 1, 25),
        (4, 3, 75),
        (2, 0, 0),
    ] {
        let count = d.wrapping_add(p);
        let all = payloads(rt.alloc(), usize::from(d), usize::from(p), 5)?;
        for mask in 0..1_u32.wrapping_shl(u32::from(count)) {
            for order in [Order::Forward, Order::Backward, Order::OddFirst] {
                frame = frame.wrapping_add(1);
                let place = one_block(frame, d, percentage);
                take_some(&rt, &mut queue, rt.alloc(), place, &all, mask, order, count)?;
                if mask.count_ones() >= u32::from(d) {
                    assert!(rt; is_image(&queue, frame, &all, d));
                }
            }
        }
    }
    Ok(())
}

#[test]
fn joins_four_blocks(rt: HostRuntime) -> Result<(), Fail> {
    let mut queue = queue(rt.alloc(), 1)?;
    let mut image = Vec::new(rt.alloc());
    for block in 0..4_u8 {
        let d = if block == 3 { 211 } else { 212 };
        let all = payloads(rt.alloc(), usize::from(d), 43, block)?;
        image.extend_from_slice(&all[..(usize::from(d) * PAYLOAD).min(all.len())])?;
        let place = Place {
            frame: 1,
            block,
            last_block: 3,
            shards: d,
            percentage: 20,
        };
        for k in 0..d {
            // the first 43 are lost
            let index = k.wrapping_add(43);
            let what = add(&mut queue, rt.alloc(), place, index, &all)?;
            let want = if k + 1 < d {
                Added::Added
            } else if block < 3 {
                Added::BlockWhole
            } else {
                Added::FrameWhole
            };
            assert_eq!(rt; what, want);
        }
    }
    assert!(rt; queue.image(1) == image.as_slice());
    Ok(())
}

#[test]
fn joins_four_bare_blocks(rt: HostRuntime) -> Result<(), Fail> {
    let mut queue = queue(rt.alloc(), 1)?;
    let mut image = Vec::new(rt.alloc());
    let mut payload = [0; PAYLOAD];
    for block in 0..4_u8 {
        let place = Place {
            frame: 7,
            block,
            last_block: 3,
            shards: 1_023,
            percentage: 0,
        };
        for index in 0..1_023_u16 {
            payload[usize::from(index) % PAYLOAD] = (index & 0xFF) as u8 ^ block;
            image.extend_from_slice(&payload)?;
            let bytes = datagram(rt.alloc(), place, index, &payload)?;
            let what = queue.add(&bytes).what;
            let want = if index < 1_022 {
                Added::Added
            } else if block < 3 {
                Added::BlockWhole
            } else {
                Added::FrameWhole
            };
            assert_eq!(rt; what, want);
        }
    }
    assert!(rt; queue.image(7) == image.as_slice());
    Ok(())
}

#[test]
fn keeps_the_window_open(rt: HostRuntime) -> Result<(), Fail> {
    let all = payloads(rt.alloc(), 2, 0, 9)?;
    for window in 1..5_u8 {
        let mut queue = queue(rt.alloc(), window)?;
        let late = u32::from(window);
        for frame in 1..late + 1 {
            let what = add(&mut queue, rt.alloc(), one_block(frame, 2, 0), 0, &all)?;
            assert_eq!(rt; what, Added::Added);
        }
        assert_eq!(rt;
            add(&mut queue, rt.alloc(), one_block(1, 2, 0), 1, &all)?,
            Added::FrameWhole
        );
        assert!(rt; is_image(&queue, 1, &all, 2));
        let bytes = datagram(
            rt.alloc(),
            one_block(late + 1, 2, 0),
            0,
            payload_at(&all, 0),
        )?;
        let outcome = queue.add(&bytes);
        let mut whole = [false; 4];
        whole[usize::from(window - 1) & 3] = true;
        let moved = Moved {
            from: late,
            to: late + 1,
            whole,
        };
        assert_eq!(rt;
            outcome,
            Outcome {
                moved: Some(moved),
                what: Added::Added
            }
        );
        if window > 1 {
            assert!(rt; is_image(&queue, 1, &all, 2));
        }
        let what = add(&mut queue, rt.alloc(), one_block(1, 2, 0), 1, &all)?;
        assert_eq!(rt; what, Added::Old { current: late + 1 });
        // a jump leaves all, and their images stay until the next datagram
        if window > 1 {
            for frame in 2..late + 2 {
                let what = add(&mut queue, rt.alloc(), one_block(frame, 2, 0), 1, &all)?;
                assert_eq!(rt; what, Added::FrameWhole);
            }
            let what = add(&mut queue, rt.alloc(), one_block(100, 2, 0), 0, &all)?;
            assert_eq!(rt; what, Added::Added);
            for frame in 2..late + 2 {
                assert!(rt; is_image(&queue, frame, &all, 2));
            }
        }
    }
    Ok(())
}

#[test]
fn counts_distinct_shards(rt: HostRuntime) -> Result<(), Fail> {
    let mut queue = queue(rt.alloc(), 1)?;
    let all = payloads(rt.alloc(), 10, 2, 3)?;
    let place = one_block(1, 10, 20);
    for index in 0..9 {
        assert_eq!(rt;
            add(&mut queue, rt.alloc(), place, index, &all)?,
            Added::Added
        );
    }
    assert_eq!(rt; add(&mut queue, rt.alloc(), place, 8, &all)?, Added::Repeat);
    assert_eq!(rt;
        add(&mut queue, rt.alloc(), place, 10, &all)?,
        Added::FrameWhole
    );
    assert!(rt; is_image(&queue, 1, &all, 10));
    assert_eq!(rt; add(&mut queue, rt.alloc(), place, 9, &all)?, Added::Spare);
    Ok(())
}

#[test]
fn leaves_a_frame_behind(rt: HostRuntime) -> Result<(), Fail> {
    let mut queue = queue(rt.alloc(), 1)?;
    let all = payloads(rt.alloc(), 2, 0, 7)?;
    // the frame, the shard, and the verdict
    let rows = [
        (1, 0, Added::Added),
        (2, 0, Added::Added),
        (1, 1, Added::Old { current: 2 }),
        (2, 1, Added::FrameWhole),
    ];
    for (frame, index, want) in rows {
        assert_eq!(rt;
            add(&mut queue, rt.alloc(), one_block(frame, 2, 0), index, &all)?,
            want
        );
    }
    assert!(rt; is_image(&queue, 2, &all, 2));
    Ok(())
}
