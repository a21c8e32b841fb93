ghost use Rattle.std.specs.Prelude.{◌≡◌, ◌≤◌, ◌<◌, IfOk, length};

use crate::plain::PlainFrame;
use crate::{Plan, Splitter, plan_of};
use gs_rtp::Settings;
use std::alloc::{AllocError, Global};

// The data shards, parity shards and written percentage of each of the four places of a plan.
type Row = (u16, u16, u8);

const NONE: Row = (0, 0, 0);

fn plan(packets: u32, blocks: u8, percentage: u8, [a, b, c, d]: [Row; 4]) -> Plan {
    Plan {
        packets,
        blocks,
        percentage,
        shards: [a.0, b.0, c.0, d.0],
        parity: [a.1, b.1, c.1, d.1],
        sent: [a.2, b.2, c.2, d.2],
    }
}

fn settings(percentage: u8, minimum: u8) -> Settings
    requires percentage { percentage ≤ 100 }
    requires minimum { minimum ≤ 2 }
{
    Settings::make(1024, percentage, minimum, 60, 5, 0, 1).unwrap()
}

#[test]
fn parts_frames_into_blocks(rt: HostRuntime) {
    let at = settings(20, 0);
    let each = (200, 40, 20);
    assert_eq!(rt;
        plan_of(604_792, &at),
        plan(600, 3, 20, [each, each, each, NONE])
    );
    let most = (212, 43, 20);
    assert_eq!(rt;
        plan_of(853_768, &at),
        plan(847, 4, 20, [most, most, most, (211, 43, 20)])
    );
    assert_eq!(rt;
        plan_of(854_776, &at),
        plan(848, 4, 20, [most, most, most, most])
    );
    assert_eq!(rt;
        plan_of(854_777, &at),
        plan(849, 1, 0, [(849, 0, 0), NONE, NONE, NONE])
    );
    // the greatest unit
    let most = (993, 0, 0);
    assert_eq!(rt;
        plan_of(4_000_000, &at),
        plan(3969, 4, 0, [most, most, most, (990, 0, 0)])
    );
}

#[test]
fn parts_small_frames(rt: HostRuntime) {
    let at = settings(20, 2);
    assert_eq!(rt;
        plan_of(0, &at),
        plan(1, 1, 20, [(1, 2, 200), NONE, NONE, NONE])
    );
    assert_eq!(rt;
        plan_of(1_000, &at),
        plan(1, 1, 20, [(1, 2, 200), NONE, NONE, NONE])
    );
    assert_eq!(rt;
        plan_of(1_001, &at),
        plan(2, 1, 20, [(2, 2, 100), NONE, NONE, NONE])
    );
    assert_eq!(rt;
        plan_of(3_016, &at),
        plan(3, 1, 20, [(3, 2, 66), NONE, NONE, NONE])
    );
    let bare = settings(0, 2);
    assert_eq!(rt;
        plan_of(3_016, &bare),
        plan(3, 1, 0, [(3, 0, 0), NONE, NONE, NONE])
    );
}

// Whether these bytes stand at this place.
fn stands_at(bytes: &[u8], place: usize, want: &[u8]) -> bool {
    bytes
        .get(place..)
        .is_some_and(|rest| rest.starts_with(want))
}

#[test]
fn writes_the_first_datagram(rt: HostRuntime) {
    let mut splitter = Splitter::new(rt.alloc(), &settings(0, 0)).expect(&rt, "memory");
    assert_eq!(rt; splitter.load(1, 2, 0, b"ABC"), 1);
    let mut out = [0xAA; 1456];
    assert_eq!(rt; splitter.datagram(0, b"ABC", &mut out), 1040);
    let want: [u8; 43] = [
        0x90, 0, 0, 0, 0, 0, 0, 0, 0, 0, 0, 1, 0, 0, 0, 0, //
        0, 0, 0, 0, 1, 0, 0, 0, 7, 0, 0x10, 0, 0, 0, 0x40, 0, //
        1, 0, 0, 2, 0x0B, 0, 0, 0, b'A', b'B', b'C',
    ];
    assert!(rt; stands_at(&out, 0, &want));
    assert!(rt; stands_at(&out, 43, &[0; 997]));
    assert!(rt; stands_at(&out, 1040, &[0xAA; 416]));
    // an empty unit
    assert_eq!(rt; splitter.load(2, 2, 0, b""), 1);
    splitter.datagram(0, b"", &mut out);
    assert!(rt; stands_at(&out, 32, &[1, 0, 0, 2, 8, 0, 0, 0]));
    assert!(rt; stands_at(&out, 40, &[0; 1000]));
}

#[test]
fn writes_the_length_of_the_last_payload(rt: HostRuntime) {
    let unit = [7; 1001];
    let mut splitter = Splitter::new(rt.alloc(), &settings(0, 0)).expect(&rt, "memory");
    let mut out = [0; 1456];
    assert_eq!(rt; splitter.load(1, 2, 0, &unit[..1000]), 1);
    splitter.datagram(0, &unit[..1000], &mut out);
    assert!(rt; stands_at(&out, 36, &[0xF0, 3]));
    assert_eq!(rt; splitter.load(2, 5, 10, &unit), 2);
    splitter.datagram(1, &unit, &mut out);
    // the third datagram of the stream, at 10 ms, the last of its block, with one byte of the unit
    assert!(rt; stands_at(&out, 0, &[0x90, 0, 0, 2, 0, 0, 3, 0x84]));
    assert!(rt; stands_at(&out, 16, &[0, 2, 0, 0, 2, 0, 0, 0, 3, 0, 0x10, 0]));
    assert!(rt; stands_at(&out, 32, &[7, 0]));
    splitter.datagram(0, &unit, &mut out);
    assert!(rt; stands_at(&out, 32, &[1, 0, 0, 5, 1, 0, 0, 0]));
}

#[test]
fn writes_the_least_parity(rt: HostRuntime) {
    let mut splitter = Splitter::new(rt.alloc(), &settings(20, 2)).expect(&rt, "memory");
    let mut out = [0; 1456];
    assert_eq!(rt; splitter.load(1, 2, 0, b"ABC"), 3);
    splitter.datagram(0, b"ABC", &mut out);
    assert!(rt; stands_at(&out, 24, &[7]));
    assert!(rt; stands_at(&out, 28, &[0x80, 0x0C, 0x40, 0]));
    // the parity of the mark, and its own place in the head
    splitter.datagram(1, b"ABC", &mut out);
    assert!(rt; stands_at(&out, 28, &[0x80, 0x1C, 0x40, 0, 0x8E]));
    splitter.datagram(2, b"ABC", &mut out);
    assert!(rt; stands_at(&out, 28, &[0x80, 0x2C, 0x40, 0, 0xF4]));
    let unit = [7; 3000];
    assert_eq!(rt; splitter.load(2, 1, 0, &unit), 5);
    splitter.datagram(3, &unit, &mut out);
    assert!(rt; stands_at(&out, 2, &[0, 6]));
    assert!(rt; stands_at(&out, 28, &[0x20, 0x34, 0xC0, 0]));
}

#[test]
fn writes_ten_shards(rt: HostRuntime) {
    let unit = [9; 10_000];
    let mut splitter = Splitter::new(rt.alloc(), &settings(20, 0)).expect(&rt, "memory");
    let mut out = [0; 1456];
    assert_eq!(rt; splitter.load(1, 2, 0, &unit), 12);
    splitter.datagram(5, &unit, &mut out);
    assert!(rt; stands_at(&out, 28, &[0x40, 0x51, 0x80, 2, 9]));
    splitter.datagram(0, &unit, &mut out);
    assert!(rt; stands_at(&out, 36, &[0xA8, 3]));
}

// Bytes that differ.
fn pattern() -> [u8; 2500] {
    let mut bytes = [0; 2500];
    let mut state = 1_u32;
    for byte in bytes.iter_mut() {
        state = state.wrapping_mul(1_664_525).wrapping_add(1_013_904_223);
        *byte = (state >> 24) as u8;
    }
    bytes
}

// Whether a datagram of the loaded frame is what the format says.
fn is_plain(splitter: &mut Splitter, k: u32, frame: &PlainFrame, unit: &[u8]) -> bool
    requires number { k < splitter.old.datagrams }
    requires unit { length unit.now ≡ splitter.old.unit_length }
    ensures kept { splitter.new ≡ splitter.old }
{
    let mut out = [0xAA; 1456];
    splitter.datagram(k, unit, &mut out) == 1040 && frame.is_datagram(k, unit, &out)
}

#[test]
fn writes_frames_as_the_format_says(rt: HostRuntime) {
    let mut splitter = Splitter::new(rt.alloc(), &settings(40, 2)).expect(&rt, "memory");
    let unit = pattern();
    let first = PlainFrame {
        count: 0,
        frame: 1,
        kind: 2,
        time: 7,
        shards: 3,
        parity: 2,
        sent: 40,
        last: 492,
    };
    assert_eq!(rt; splitter.load(1, 2, 7, &unit), 5);
    assert!(rt; is_plain(&mut splitter, 4, &first, &unit));
    assert!(rt; is_plain(&mut splitter, 0, &first, &unit));
    assert!(rt; is_plain(&mut splitter, 2, &first, &unit));
    assert!(rt; is_plain(&mut splitter, 3, &first, &unit));
    assert!(rt; is_plain(&mut splitter, 1, &first, &unit));
    assert!(rt; is_plain(&mut splitter, 4, &first, &unit));
    let short = [0xA5; 1000];
    let second = PlainFrame {
        count: 5,
        frame: 1_048_576,
        kind: 5,
        time: u32::MAX,
        shards: 1,
        parity: 2,
        sent: 200,
        last: 1008,
    };
    assert_eq!(rt; splitter.load(1_048_576, 5, u32::MAX, &short), 3);
    assert!(rt; is_plain(&mut splitter, 2, &second, &short));
    assert!(rt; is_plain(&mut splitter, 1, &second, &short));
    assert!(rt; is_plain(&mut splitter, 0, &second, &short));
}

// As many bytes.
fn bytes(alloc: Global, len: usize) -> Result<Vec<u8>, AllocError>
    ensures { IfOk result (λ bytes. length bytes.items ≡ len) }
{
    vec![in alloc; 3; len]
}

#[test]
fn splits_the_largest_frame(rt: HostRuntime) {
    let unit = bytes(rt.alloc(), 854_776).expect(&rt, "memory");
    let mut splitter = Splitter::new(rt.alloc(), &settings(20, 0)).expect(&rt, "memory");
    let mut out = [0; 1456];
    assert_eq!(rt; splitter.load(1, 2, 0, &unit), 1020);
    // the first block's first and last datagrams, the first of each block behind it, the last data shard, and the
    // last datagram
    splitter.datagram(0, &unit, &mut out);
    assert!(rt; stands_at(&out, 27, &[0xC0, 0x40, 1, 0, 0x35, 1, 0, 0, 2, 0xF0, 3]));
    splitter.datagram(254, &unit, &mut out);
    assert!(rt; stands_at(&out, 27, &[0xC0, 0x40, 0xE1, 0x0F, 0x35]));
    splitter.datagram(255, &unit, &mut out);
    assert!(rt; stands_at(&out, 27, &[0xD0, 0x40, 1, 0, 0x35, 3]));
    splitter.datagram(510, &unit, &mut out);
    assert!(rt; stands_at(&out, 27, &[0xE0, 0x40, 1, 0, 0x35, 3]));
    splitter.datagram(765, &unit, &mut out);
    assert!(rt; stands_at(&out, 2, &[0x02, 0xFD]));
    assert!(rt;
        stands_at(
            &out,
            16,
            &[
                0, 0xFD, 2, 0, 1, 0, 0, 0, 5, 0, 0x10, 0xF0, 0x40, 1, 0, 0x35
            ]
        )
    );
    assert!(rt; stands_at(&out, 32, &[3; 1008]));
    splitter.datagram(976, &unit, &mut out);
    assert!(rt; stands_at(&out, 24, &[3, 0, 0x10, 0xF0, 0x40, 0x31, 0x0D, 0x35]));
    assert!(rt; stands_at(&out, 32, &[3; 1008]));
    splitter.datagram(1019, &unit, &mut out);
    assert!(rt; stands_at(&out, 27, &[0xF0, 0x40, 0xE1, 0x0F, 0x35]));
}
