// Datagrams that are foreign, or cut, or disagree with what came before.
use crate::tests::{Place, add, datagram, payload_at, payloads, queue};
use crate::{Moved, Outcome};
use gs_frames::{Added, Shape, Why};
use std::test::Fail;

#[test]
fn takes_the_smallest_frame(rt: HostRuntime) -> Result<(), Fail> {
    let mut queue = queue(rt.alloc(), 1)?;
    let mut bytes = [0; 1040];
    bytes[..43].copy_from_slice(&[
        0x90, 0, 0, 0, 0, 0, 0, 0, 0, 0, 0, 1, 0, 0, 0, 0, 0, 0, 0, 0, 1, 0, 0, 0, 7, 0, 0x10, 0,
        0, 0, 0x40, 0, 1, 0, 0, 2, 0x0B, 0, 0, 0, 0x41, 0x42, 0x43,
    ]);
    let moved = Moved {
        from: 0,
        to: 1,
        whole: [false; 4],
    };
    assert_eq!(rt;
        queue.add(&bytes),
        Outcome {
            moved: Some(moved),
            what: Added::FrameWhole
        }
    );
    assert!(rt; queue.image(1) == &bytes[32..]);
    assert_eq!(rt;
        queue.add(&bytes),
        Outcome {
            moved: None,
            what: Added::Repeat
        }
    );
    for cut in 0..1040 {
        let outcome = queue.add(&bytes[..cut]);
        assert_eq!(rt;
            outcome,
            Outcome {
                moved: None,
                what: Added::Foreign(Why::Grammar)
            }
        );
    }
    Ok(())
}

#[test]
fn refuses_what_disagrees(rt: HostRuntime) -> Result<(), Fail> {
    let mut queue = queue(rt.alloc(), 1)?;
    let all = payloads(rt.alloc(), 4, 2, 1)?;
    let first = Place {
        frame: 3,
        block: 0,
        last_block: 1,
        shards: 4,
        percentage: 50,
    };
    assert_eq!(rt; add(&mut queue, rt.alloc(), first, 0, &all)?, Added::Added);
    let had = Shape {
        last_block: 1,
        shards: 4,
        percentage: 50,
    };
    // a datagram of the same frame, its number, and the shape that came
    let rows = [
        (Place { shards: 3, ..first }, 1, Shape { shards: 3, ..had }),
        (
            Place {
                percentage: 25,
                ..first
            },
            1,
            Shape {
                percentage: 25,
                ..had
            },
        ),
        (
            Place {
                last_block: 2,
                ..first
            },
            1,
            Shape {
                last_block: 2,
                ..had
            },
        ),
    ];
    for (place, index, came) in rows {
        let what = add(&mut queue, rt.alloc(), place, index, &all)?;
        assert_eq!(rt; what, Added::Foreign(Why::Shape { had, came }));
    }
    // the other block holds nothing: what it says of itself is taken to have been said
    let other = Place {
        block: 1,
        last_block: 3,
        shards: 2,
        ..first
    };
    let came = Shape {
        last_block: 3,
        shards: 2,
        percentage: 50,
    };
    let had = Shape {
        last_block: 1,
        ..came
    };
    let what = add(&mut queue, rt.alloc(), other, 0, &all)?;
    assert_eq!(rt; what, Added::Foreign(Why::Shape { had, came }));
    // outside the grammar
    let grammar = [
        (Place { shards: 0, ..first }, 0),
        (first, 6),
        (Place { frame: 0, ..first }, 1),
        (
            Place {
                frame: 1_048_577,
                ..first
            },
            1,
        ),
        (Place { block: 2, ..first }, 1),
        (
            Place {
                shards: 171,
                ..first
            },
            1,
        ),
    ];
    for (place, index) in grammar {
        let what = add(&mut queue, rt.alloc(), place, index, &all)?;
        assert_eq!(rt; what, Added::Foreign(Why::Grammar));
    }
    let mut bytes = datagram(rt.alloc(), first, 1, payload_at(&all, 1))?;
    if let Some(byte) = bytes.get_mut(11) {
        *byte = 2;
    }
    assert_eq!(rt;
        queue.add(&bytes).what,
        Added::Foreign(Why::Ssrc { came: 2 })
    );
    Ok(())
}
