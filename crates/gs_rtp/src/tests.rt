ghost use Rattle.gs_rtp.specs.Video.{IsVideoHead};

use crate::{
    AudioHead, Settings, VIDEO_HEADER_LENGTH, VideoHead, read_audio, read_video, write_audio,
    write_video,
};

// The first datagram of a session: one packet, without parity.
const FIRST: VideoHead = VideoHead {
    sequence: 0,
    timestamp: 0,
    ssrc: 1,
    stream_index: 0,
    frame: 1,
    flags: 7,
    extra: 0,
    multi_flags: 0x10,
    block: 0,
    last_block: 0,
    shards: 1,
    index: 0,
    percentage: 0,
};

#[test]
fn writes_the_first_header(rt: HostRuntime) {
    let want: [u8; VIDEO_HEADER_LENGTH] = [
        0x90, 0, 0, 0, 0, 0, 0, 0, 0, 0, 0, 1, 0, 0, 0, 0, //
        0, 0, 0, 0, 1, 0, 0, 0, 7, 0, 0x10, 0, 0, 0, 0x40, 0,
    ];
    let mut out = [0xAA; 34];
    write_video(&FIRST, &mut out);
    assert_eq!(rt; out[..VIDEO_HEADER_LENGTH], want[..]);
    assert_eq!(rt; out[VIDEO_HEADER_LENGTH..], [0xAA, 0xAA][..]);
}

#[test]
fn writes_each_field_at_its_place(rt: HostRuntime) {
    let head = VideoHead {
        sequence: 0x0102,
        timestamp: 0x0304_0506,
        ssrc: 0x0708,
        stream_index: 0x090A_0B00,
        frame: 0x0C0D,
        flags: 5,
        extra: 0x0E,
        multi_flags: 0x0F,
        block: 1,
        last_block: 3,
        shards: 10,
        index: 5,
        percentage: 20,
    };
    let want: [u8; VIDEO_HEADER_LENGTH] = [
        0x90, 0, 1, 2, 3, 4, 5, 6, 0, 0, 7, 8, 0, 0, 0, 0, //
        0, 0x0B, 0x0A, 9, 0x0D, 0x0C, 0, 0, 5, 0x0E, 0x0F, 0xD0, 0x40, 0x51, 0x80, 2,
    ];
    let mut out = [0; VIDEO_HEADER_LENGTH];
    write_video(&head, &mut out);
    assert_eq!(rt; out, want);
}

#[test]
fn makes_settings_within_each_limit(rt: HostRuntime) {
    let rows: [(u16, u8, u8, u16, u8, u16, u32, bool); 17] = [
        (1024, 0, 0, 1, 5, 0, 1, true),
        (1440, 100, 2, 240, 10, 1400, 9999, true),
        (1023, 0, 0, 1, 5, 0, 1, false),
        (1441, 0, 0, 1, 5, 0, 1, false),
        (1024, 101, 0, 1, 5, 0, 1, false),
        (1024, 0, 3, 1, 5, 0, 1, false),
        (1024, 0, 0, 0, 5, 0, 1, false),
        (1024, 0, 0, 241, 5, 0, 1, false),
        (1024, 0, 0, 1, 4, 0, 1, false),
        (1024, 0, 0, 1, 6, 0, 1, false),
        (1024, 0, 0, 1, 9, 0, 1, false),
        (1024, 0, 0, 1, 11, 0, 1, false),
        (1024, 0, 0, 1, 0, 0, 1, false),
        (1024, 0, 0, 1, 5, 1401, 1, false),
        (1024, 0, 0, 1, 5, 0, 0, false),
        (1024, 0, 0, 1, 5, 0, 10_000, false),
        (1392, 20, 1, 60, 5, 200, 2, true),
    ];
    for (packet, percentage, minimum, fps, duration, audio, ssrc, within) in rows {
        let made = Settings::make(packet, percentage, minimum, fps, duration, audio, ssrc);
        assert_eq!(rt; made.is_some(), within);
        if let Some(settings) = made {
            assert_eq!(rt; settings.packet, packet);
            assert_eq!(rt; settings.ssrc, ssrc);
        }
    }
}

// A datagram of packet size 32, in the grammar.
fn datagram(head: &VideoHead) -> [u8; 48]
    requires { IsVideoHead head.now }
{
    let mut out = [0; 48];
    write_video(head, &mut out);
    out
}

// A datagram without the four bytes behind the fixed header.
fn without_reserved(bytes: &[u8; 48]) -> [u8; 44] {
    let mut short = [0; 44];
    short[..12].copy_from_slice(&bytes[..12]);
    short[12..].copy_from_slice(&bytes[16..]);
    short
}

#[test]
fn reads_what_was_written(rt: HostRuntime) {
    let mut bytes = datagram(&FIRST);
    assert_eq!(rt; read_video(&bytes, 32), Some(FIRST));
    // without bit 0x10 of the first byte, and then without the four reserved bytes
    bytes[0] = 0x80;
    assert_eq!(rt; read_video(&bytes, 32), None);
    assert_eq!(rt; read_video(&without_reserved(&bytes), 32), Some(FIRST));
}

#[test]
fn refuses_what_is_outside_the_grammar(rt: HostRuntime) {
    let bytes = datagram(&FIRST);
    // a byte, its value there, and whether a datagram of one data shard, number 0, is read
    let rows: [(usize, u8, bool); 12] = [
        (0, 0x50, false),
        (0, 0xD0, false),
        (0, 0x80, false),
        (0, 0xBF, true),
        (1, 0xFF, true),
        (20, 0, false),
        (22, 0x10, false),
        (23, 1, false),
        (27, 0x0F, true),
        (27, 0x10, false),
        (29, 0x10, false),
        (30, 0, false),
    ];
    for (place, value, read) in rows {
        let mut changed = bytes;
        if let Some(byte) = changed.get_mut(place) {
            *byte = value;
        }
        assert_eq!(rt;
            read_video(&changed, 32).is_some(),
            read,
            "{value} at {place}"
        );
    }
    for length in [0, 1, 12, 16, 32, 47] {
        let cut = bytes.get(..length).unwrap_or(&[]);
        assert_eq!(rt; read_video(cut, 32), None, "cut at {length}");
    }
    assert_eq!(rt; read_video(&bytes, 31), None);
}

#[test]
fn writes_and_reads_audio_headers(rt: HostRuntime) {
    let settings = Settings::make(1392, 20, 2, 60, 5, 1, 1).expect(&rt, "within the limits");
    let first = [
        0x80, 0x61, 0, 0, 0, 0, 0, 0, 0, 0, 0, 1, 1, //
        0, 0, 0, 0, 0, 0, 0, 0, 0, 0, 0, 0,
    ];
    let fifth = [
        0x80, 0x7F, 0, 4, 0, 0, 0, 0, 0, 0, 0, 1, //
        0, 0x61, 0, 0, 0, 0, 0, 0, 0, 0, 0, 1, 0x77,
    ];
    for (parity, length, bytes) in [(false, 12, first), (true, 24, fifth)] {
        let head = AudioHead {
            parity,
            shard: 0,
            block: 0,
            ssrc: 1,
        };
        let mut out = [0; 25];
        let written = write_audio(&head, &settings, &mut out);
        assert_eq!(rt; written, length);
        assert_eq!(rt; out[..written], bytes[..written]);
        assert_eq!(rt; read_audio(&bytes[..written + 1], &settings), Some(head));
        assert_eq!(rt; read_audio(&bytes[..written], &settings), None);
    }
}
