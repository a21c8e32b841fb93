use crate::{Depack, ImageHead, read_image};
use gs_fecqueue::{Moved, Queue};
use gs_frames::{Added, Range};
use gs_rtp::Settings;
use std::test::Fail;

fn moved(from: u32, to: u32) -> Moved {
    Moved {
        from,
        to,
        whole: [false; 4],
    }
}

#[test]
fn reads_images_in_order(rt: HostRuntime) {
    // the header, the length of the image and of its payloads, and what is read
    let rows = [
        (
            [1, 0, 0, 2, 11, 0, 0, 0],
            1_008,
            1_008,
            Some(ImageHead { kind: 2, length: 3 }),
        ),
        (
            [1, 9, 9, 4, 11, 0, 9, 9],
            1_008,
            1_008,
            Some(ImageHead { kind: 1, length: 3 }),
        ),
        (
            [1, 0, 0, 5, 8, 0, 0, 0],
            1_008,
            1_008,
            Some(ImageHead { kind: 5, length: 0 }),
        ),
        (
            [1, 0, 0, 1, 1, 0, 0, 0],
            2_016,
            1_008,
            Some(ImageHead {
                kind: 1,
                length: 1_001,
            }),
        ),
        (
            [1, 0, 0, 1, 0xF0, 3, 0, 0],
            1_008,
            1_008,
            Some(ImageHead {
                kind: 1,
                length: 1_000,
            }),
        ),
        ([1, 0, 0, 1, 0xF1, 3, 0, 0], 1_008, 1_008, None),
        ([1, 0, 0, 1, 7, 0, 0, 0], 1_008, 1_008, None),
        ([1, 0, 0, 1, 0, 0, 0, 0], 2_016, 1_008, None),
        ([1, 0, 0, 3, 11, 0, 0, 0], 1_008, 1_008, None),
        ([2, 0, 0, 2, 11, 0, 0, 0], 1_008, 1_008, None),
        ([1, 0, 0, 2, 11, 0, 0, 0], 1_007, 1_008, None),
        ([1, 0, 0, 2, 11, 0, 0, 0], 0, 1_008, None),
        ([1, 0, 0, 2, 1, 0, 0, 0], 14, 7, None),
        ([1, 0, 0, 2, 1, 0, 0, 0], 14, 0, None),
    ];
    for (header, length, payload, want) in rows {
        let mut image = [0xAA; 2_016];
        image[..8].copy_from_slice(&header);
        assert_eq!(rt;
            read_image(&image[..length.min(image.len())], payload),
            want,
            "{header:?} {length} {payload}"
        );
    }
}

#[test]
fn hands_a_late_frame_and_those_behind_it(rt: HostRuntime) {
    for window in 2..=4_u8 {
        let mut depack = Depack::new(window);
        assert_eq!(rt; depack.moved(&moved(0, 1)), None);
        depack.note(1, 2);
        assert_eq!(rt; depack.next(), Some(1));
        assert_eq!(rt; depack.next(), None);
        assert_eq!(rt; depack.moved(&moved(1, 3)), None);
        depack.note(3, 1);
        assert_eq!(rt; depack.next(), None);
        depack.note(2, 1);
        assert_eq!(rt; depack.next(), Some(2));
        assert_eq!(rt; depack.next(), Some(3));
        assert_eq!(rt; depack.next(), None);
    }
}

#[test]
fn asks_for_what_it_leaves(rt: HostRuntime) {
    // the window, and the range asked for when frame 9 comes behind a complete frame 1 and an open frame 3
    let rows = [(1, 8), (2, 7), (3, 6), (4, 5)];
    for (window, last) in rows {
        let mut depack = Depack::new(window);
        let first = depack.moved(&moved(0, 1));
        assert_eq!(rt; first, None);
        depack.note(1, 2);
        assert_eq!(rt; depack.next(), Some(1));
        let second = depack.moved(&moved(1, 3));
        let asked = if window == 1 {
            Some(Range { first: 2, last: 2 })
        } else {
            None
        };
        assert_eq!(rt; second, asked);
        let next = if window == 1 { 3 } else { 2 };
        assert_eq!(rt;
            depack.moved(&moved(3, 9)),
            Some(Range { first: next, last })
        );
        depack.note(9, 5);
        let handed = if window == 1 { Some(9) } else { None };
        assert_eq!(rt; depack.next(), handed);
        assert_eq!(rt; depack.next(), None);
    }
}

#[test]
fn waits_for_an_idr_frame_after_a_reset(rt: HostRuntime) {
    let mut depack = Depack::new(1);
    // after a reset behind frame 1: the frame before, each frame, its kind, and whether it is handed
    let rows = [
        (1, 2, 1, false),
        (2, 3, 5, false),
        (3, 4, 2, true),
        (4, 5, 1, true),
        (5, 6, 5, true),
    ];
    assert_eq!(rt; depack.moved(&moved(0, 1)), None);
    depack.note(1, 2);
    assert_eq!(rt; depack.next(), Some(1));
    depack.reset();
    for (before, frame, kind, handed) in rows {
        assert_eq!(rt; depack.moved(&moved(before, frame)), None);
        depack.note(frame, kind);
        let want = if handed { Some(frame) } else { None };
        assert_eq!(rt; depack.next(), want);
    }
}

// A datagram of a frame of one packet, whose image begins with this byte.
fn whole_frame(frame: u8, mark: u8) -> [u8; 1_040] {
    let mut bytes = [0; 1_040];
    bytes[..40].copy_from_slice(&[
        0x90, 0, 0, 0, 0, 0, 0, 0, 0, 0, 0, 1, 0, 0, 0, 0, 0, 0, 0, 0, frame, 0, 0, 0, 7, 0, 0x10,
        0, 0, 0, 0x40, 0, mark, 0, 0, 2, 8, 0, 0, 0,
    ]);
    bytes
}

#[test]
fn asks_for_a_frame_whose_image_is_none(rt: HostRuntime) -> Result<(), Fail> {
    let settings = Settings::make(1_024, 0, 0, 60, 5, 0, 1).ok_or("settings")?;
    let mut queue = Queue::new(rt.alloc(), &settings, 1)?;
    let mut depack = Depack::new(1);
    // the frame and its mark, whether it is an image, and the range asked for and the frame handed with it
    let rows = [
        (1, 2, false, None, None),
        (2, 1, true, Some(Range { first: 1, last: 1 }), Some(2)),
    ];
    for (frame, mark, is_image, ask, handed) in rows {
        let outcome = queue.add(&whole_frame(frame, mark));
        assert_eq!(rt; outcome.what, Added::FrameWhole);
        let moved = outcome.moved.ok_or("moved")?;
        assert_eq!(rt; depack.moved(&moved), ask);
        let head = read_image(queue.image(u32::from(frame)), 1_008);
        assert_eq!(rt; head.is_some(), is_image);
        if let Some(head) = head {
            depack.note(u32::from(frame), head.kind);
        }
        assert_eq!(rt; depack.next(), handed);
    }
    Ok(())
}

// A datagram of a frame of two packets, of this kind, whose unit is 1,500 zeros.
fn half(frame: u8, kind: u8, is_second: bool) -> [u8; 1_040] {
    let mut bytes = [0; 1_040];
    let index = if is_second { 0x10 } else { 0 };
    bytes[..32].copy_from_slice(&[
        0x90, 0, 0, 0, 0, 0, 0, 0, 0, 0, 0, 1, 0, 0, 0, 0, 0, 0, 0, 0, frame, 0, 0, 0, 1, 0, 0x10,
        0, 0, index, 0x80, 0,
    ]);
    if !is_second {
        bytes[32..40].copy_from_slice(&[1, 0, 0, kind, 0xF4, 1, 0, 0]);
    }
    bytes
}

#[test]
fn hands_what_needs_no_lost_frame(rt: HostRuntime) -> Result<(), Fail> {
    let settings = Settings::make(1_024, 0, 0, 60, 5, 0, 1).ok_or("settings")?;
    let mut queue = Queue::new(rt.alloc(), &settings, 1)?;
    let mut depack = Depack::new(1);
    // a datagram, the verdict, and the range asked for and the frame handed with it: half of frame 1 comes late, and
    // half of frame 3 and all of frame 5 never come; frame 4 needs frame 3
    let rows = [
        (half(1, 2, false), Added::Added, None, None),
        (
            half(2, 2, false),
            Added::Added,
            Some(Range { first: 1, last: 1 }),
            None,
        ),
        (half(1, 2, true), Added::Old { current: 2 }, None, None),
        (half(2, 2, true), Added::FrameWhole, None, Some(2)),
        (half(3, 1, false), Added::Added, None, None),
        (
            half(4, 1, false),
            Added::Added,
            Some(Range { first: 3, last: 3 }),
            None,
        ),
        (half(4, 1, true), Added::FrameWhole, None, None),
        (
            half(6, 5, true),
            Added::Added,
            Some(Range { first: 5, last: 5 }),
            None,
        ),
        (half(6, 5, false), Added::FrameWhole, None, Some(6)),
    ];
    for (datagram, what, asked, handed) in rows {
        let outcome = queue.add(&datagram);
        assert_eq!(rt; outcome.what, what);
        let ask = outcome.moved.and_then(|moved| depack.moved(&moved));
        assert_eq!(rt; ask, asked);
        if what == Added::FrameWhole {
            let frame = u32::from(datagram[20]);
            let head = read_image(queue.image(frame), 1_008).ok_or("an image")?;
            assert_eq!(rt; head.length, 1_500);
            depack.note(frame, head.kind);
        }
        assert_eq!(rt; depack.next(), handed);
    }
    Ok(())
}
