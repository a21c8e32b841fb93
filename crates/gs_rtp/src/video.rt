// The header of a video datagram.

ghost use Rattle.std.specs.Prelude.{◌≡◌, ◌≤◌, ◌+◌, ◌/◌, ◌%◌, ◌^◌, ◌++◌, length, drop};
ghost use Rattle.gs_rtp.specs.Video.{
  IsVideoHead,
  ReadsBackVideo,
  ReadsShortVideo,
  ReadsVideoExactly,
  TestsVideoHead,
  block_byte,
  fec_info,
  fields_after,
  is_video_head,
  parity_count,
  rtp_length_after,
  video_head,
  video_header,
};

use crate::limits::{FRAME_GREATEST, LAST_BLOCK_GREATEST, SHARDS_GREATEST};
use crate::number::{big_u16, big_u32, little_u32};
use byteorder::{BigEndian, ByteOrder, LittleEndian};
use gs_rs::MAX_SHARDS;

/// The length of the header that `write_video` writes.
pub const VIDEO_HEADER_LENGTH: usize = 32;

// The first byte: the RTP version, and that reserved bytes follow the fixed header; and the packet type.
const RTP_VERSION_2: u8 = 0x80;

const RTP_EXTENDED: u8 = 0x10;

const PACKET_TYPE: u8 = 0;

// Where each field of the RTP part stands, and the header behind it.
const SEQUENCE: usize = 2;

const TIMESTAMP: usize = 4;

const SSRC: usize = 8;

const RESERVED: usize = 12;

const STREAM_INDEX: usize = 16;

// Where each field of that header stands in it; the number of the datagram in its stream comes first.
const OWN_FRAME: usize = 4;

const OWN_FLAGS: usize = 8;

const OWN_EXTRA: usize = 9;

const OWN_MULTI_FLAGS: usize = 10;

const OWN_BLOCKS: usize = 11;

const OWN_FEC_INFO: usize = 12;

// The first bit of each field of the byte at `BLOCKS`, and of the word at `FEC_INFO`.
const BLOCK_BIT: u32 = 4;

const LAST_BLOCK_BIT: u32 = 6;

const SHARDS_BIT: u32 = 22;

const INDEX_BIT: u32 = 12;

const PERCENTAGE_BIT: u32 = 4;

// What is left of each of them where another stands above it.
const BLOCK_MASK: u8 = 0x3;

const INDEX_MASK: u32 = 0x3FF;

const PERCENTAGE_MASK: u32 = 0xFF;

// In the first byte, the first bit of the RTP version, and the bit that says that reserved bytes follow the fixed
// header.
const VERSION_BIT: u32 = 6;

const EXTENDED_BIT: u32 = 4;

/// The fields of a video datagram's header. Beside each that isn't named so stands the protocol's own name.
#[derive(Clone, Copy, Debug, PartialEq, Eq)]
pub struct VideoHead {
    /// The RTP sequence number (`sequenceNumber`).
    pub sequence: u16,
    /// The RTP timestamp, in units of 1/90,000 s.
    pub timestamp: u32,
    /// The RTP synchronization source, which is the session's number.
    pub ssrc: u32,
    /// The number of the datagram in its stream, 256 a datagram (`streamPacketIndex`).
    pub stream_index: u32,
    /// The frame, 1 to 1,048,576 (`frameIndex`).
    pub frame: u32,
    /// 0x1 picture data, 0x2 end of the block's data, 0x4 its start.
    pub flags: u8,
    /// `extraFlags`: a host writes 0, and a client gives it no weight.
    pub extra: u8,
    /// `multiFecFlags`: a host writes 0x10, and a client gives it no weight.
    pub multi_flags: u8,
    /// The block of the frame, from 0 (bits 4 and 5 of `multiFecBlocks`).
    pub block: u8,
    /// The last block of the frame, 0 to 3 (bits 6 and 7 of `multiFecBlocks`).
    pub last_block: u8,
    /// How many data shards the block has, from 1 (`fecInfo` from bit 22 on).
    pub shards: u16,
    /// The number of this shard, from 0: the data shards come first, then the parity shards (`fecInfo` from bit 12 on).
    pub index: u16,
    /// The percentage from which the block's parity shards are counted (`fecInfo` from bit 4 on).
    pub percentage: u8,
}

// The block and the last block in one byte.
fn blocks_of(head: &VideoHead) -> u8
    requires { IsVideoHead head.now }
    ensures { result ≡ block_byte head.now }
{
    head.block << BLOCK_BIT | head.last_block << LAST_BLOCK_BIT
}

// The shards, the index and the percentage in 32 bits.
fn fec_info_of(head: &VideoHead) -> u32
    requires { IsVideoHead head.now }
    ensures { result ≡ fec_info head.now }
{
    let VideoHead {
        shards,
        index,
        percentage,
        ..
    } = *head;
    u32::from(shards) << SHARDS_BIT
        | u32::from(index) << INDEX_BIT
        | u32::from(percentage) << PERCENTAGE_BIT
}

// How many parity shards a block of so many data shards has at a percentage.
fn parity_of(shards: u16, percentage: u8) -> u32
    ensures { result ≡ parity_count shards percentage }
{
    (u32::from(shards) * u32::from(percentage)).div_ceil(100)
}

// Whether a head that was read is in the grammar.
fn is_in_grammar(head: &VideoHead) -> bool
    ensures { result ≡ is_video_head head.now }
{
    let VideoHead {
        frame,
        block,
        last_block,
        shards,
        index,
        percentage,
        ..
    } = *head;
    let all = u32::from(shards) + parity_of(shards, percentage);
    (1..=FRAME_GREATEST).contains(&frame)
        && block <= last_block
        && last_block <= LAST_BLOCK_GREATEST
        && (1..=SHARDS_GREATEST).contains(&shards)
        && u32::from(index) < all
        && (percentage == 0 || all <= MAX_SHARDS as u32)
}

// The length of the RTP part, by its first byte.
fn rtp_length(first: u8) -> usize
    ensures is { result ≡ rtp_length_after first }
    ensures most { result ≤ 16 }
    ensures least { 12 ≤ result }
{
    if first >> EXTENDED_BIT & 1 == 1 {
        STREAM_INDEX
    } else {
        RESERVED
    }
}

// The block, by the byte that has it beside the last block.
fn block_in(blocks: u8) -> u8
    ensures { result ≡ blocks / 2 ^ 4 % 2 ^ 2 }
{
    blocks >> BLOCK_BIT & BLOCK_MASK
}

// The number of the shard, by the word that has it beside the data shards and the percentage.
fn index_in(fec_info: u32) -> u16
    ensures { result ≡ fec_info / 2 ^ 12 % 2 ^ 10 }
{
    (fec_info >> INDEX_BIT & INDEX_MASK) as u16
}

// The percentage, by the same word.
fn percentage_in(fec_info: u32) -> u8
    ensures { result ≡ fec_info / 2 ^ 4 % 2 ^ 8 }
{
    (fec_info >> PERCENTAGE_BIT & PERCENTAGE_MASK) as u8
}

// The fields of a datagram whose RTP part has this length.
fn fields_at(bytes: &[u8], start: usize) -> VideoHead
    requires fixed { 12 ≤ start }
    requires most { start ≤ 16 }
    requires room { start + 16 ≤ length bytes.now }
    ensures { result ≡ fields_after start bytes.now }
{
    let fec_info = little_u32(bytes, start + OWN_FEC_INFO);
    VideoHead {
        sequence: big_u16(bytes, SEQUENCE),
        timestamp: big_u32(bytes, TIMESTAMP),
        ssrc: big_u32(bytes, SSRC),
        stream_index: little_u32(bytes, start),
        frame: little_u32(bytes, start + OWN_FRAME),
        flags: bytes[start + OWN_FLAGS],
        extra: bytes[start + OWN_EXTRA],
        multi_flags: bytes[start + OWN_MULTI_FLAGS],
        block: block_in(bytes[start + OWN_BLOCKS]),
        last_block: bytes[start + OWN_BLOCKS] >> LAST_BLOCK_BIT,
        shards: (fec_info >> SHARDS_BIT) as u16,
        index: index_in(fec_info),
        percentage: percentage_in(fec_info),
    }
}

/// Reads the header of a video datagram of a stream with this packet size, in bytes, 16 or more. `None` exactly where
/// the bytes aren't in the grammar: RTP version 2, a length of the RTP part and the packet size, and a head within the
/// limits. The RTP part has 16 bytes where bit 0x10 of the first byte says that four reserved bytes end it, which are
/// ignored, and else 12.
pub fn read_video(bytes: &[u8], packet: u16) -> Option<VideoHead>
    requires packet_size { 16 ≤ packet }
    ensures { result ≡ video_head packet bytes.now }
{
    let first = *bytes.first()?;
    let start = rtp_length(first);
    if first >> VERSION_BIT != RTP_VERSION_2 >> VERSION_BIT
        || bytes.len() != start + usize::from(packet)
    {
        return None;
    }
    let head = fields_at(bytes, start);
    is_in_grammar(&head).then_some(head)
}

/// Writes a header in front of a datagram's payload.
pub fn write_video(head: &VideoHead, out: &mut [u8])
    requires grammar { IsVideoHead head.now }
    requires room { VIDEO_HEADER_LENGTH ≤ length out.old }
    ensures { out.new ≡ video_header head.now ++ drop 32 out.old }
{
    out[0] = RTP_VERSION_2 | RTP_EXTENDED;
    out[1] = PACKET_TYPE;
    BigEndian::write_u16(&mut out[SEQUENCE..], head.sequence);
    BigEndian::write_u32(&mut out[TIMESTAMP..], head.timestamp);
    BigEndian::write_u32(&mut out[SSRC..], head.ssrc);
    BigEndian::write_u32(&mut out[RESERVED..], 0);
    LittleEndian::write_u32(&mut out[STREAM_INDEX..], head.stream_index);
    LittleEndian::write_u32(&mut out[STREAM_INDEX + OWN_FRAME..], head.frame);
    out[STREAM_INDEX + OWN_FLAGS] = head.flags;
    out[STREAM_INDEX + OWN_EXTRA] = head.extra;
    out[STREAM_INDEX + OWN_MULTI_FLAGS] = head.multi_flags;
    out[STREAM_INDEX + OWN_BLOCKS] = blocks_of(head);
    LittleEndian::write_u32(&mut out[STREAM_INDEX + OWN_FEC_INFO..], fec_info_of(head));
}

/// A law: the test `is_video_head` holds exactly at the heads in the grammar.
pub fn video_head_is_tested()
    ensures { TestsVideoHead }
{}

/// A law: a datagram has a head exactly where its bytes are in the grammar, and then its fields.
pub fn video_head_is_exact()
    ensures { ReadsVideoExactly }
{}

/// A law: what `write_video` writes, followed by a payload, is in the grammar with the same head.
pub fn video_header_reads_back()
    ensures { ReadsBackVideo }
{}

/// A law: so is a header without the four reserved bytes.
pub fn short_video_header_reads_back()
    ensures { ReadsShortVideo }
{}
