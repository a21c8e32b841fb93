// How a frame is parted into blocks of shards.

ghost use Rattle.std.specs.Prelude.{◌≡◌, ◌≤◌, ◌<◌, ◌*◌, slice_index, if◌then◌else◌};
ghost use Rattle.gs_bytes.specs.Limits.{most_unit};
ghost use Rattle.gs_rtp.specs.Limits.{most_blocks, most_minimum, most_percentage, most_shards_of_block};
ghost use Rattle.gs_rtp.specs.Stream.{numbers_of};
ghost use Rattle.gs_frames.specs.Image.{most_packets, packets};
ghost use Rattle.gs_frames.specs.Plan.{block_count, fec_plan, has_parity, most_shards, parts};
ghost use Rattle.gs_frames.specs.Shards.{least_payload, payload_of};
ghost use Rattle.gs_split.specs.Plans.{IsZeroFrom, block_plan, blocks_of, protected};

use crate::shard::PACKET_HEADER;
use gs_frames::IMAGE_HEADER_LENGTH;
use gs_rs::MAX_SHARDS;
use gs_rtp::{BLOCKS_GREATEST, SHARDS_GREATEST, Settings};

/// How a frame is parted into blocks. What is said of each block stands at the block's place; the places at and
/// above `blocks` hold 0.
#[derive(Clone, Copy, Debug, PartialEq, Eq)]
pub struct Plan {
    /// How many packets of data the frame has.
    pub packets: u32,
    /// How many blocks it has.
    pub blocks: u8,
    /// The percentage of parity that it is planned with: that of the settings, or 0.
    pub percentage: u8,
    /// How many data shards each block has.
    pub shards: [u16; BLOCKS_GREATEST],
    /// How many parity shards each block has.
    pub parity: [u16; BLOCKS_GREATEST],
    /// The percentage that is written in each block's datagrams.
    pub sent: [u8; BLOCKS_GREATEST],
}

// How many payloads a unit of this length takes, with its image's header.
fn packets_of(len: u32, payload: u16) -> u32
    requires limit { len ≤ most_unit }
    requires payload { least_payload ≤ payload }
    ensures is { result ≡ packets len payload }
    ensures least { 1 ≤ result }
    ensures most { result ≤ most_packets }
{
    (IMAGE_HEADER_LENGTH as u32 + len).div_ceil(u32::from(payload))
}

// The most data shards of a block that leave room for their parity.
fn most_shards_at(percentage: u8) -> u32
    ensures is { result ≡ most_shards percentage }
    ensures least { percentage ≤ most_percentage → 127 ≤ result }
{
    100 * MAX_SHARDS as u32 / (100 + u32::from(percentage))
}

// Whether a frame of so many packets has parity.
fn is_protected(packets: u32, percentage: u8) -> bool
    requires within { percentage ≤ most_percentage }
    ensures { result ≡ has_parity packets percentage }
{
    percentage > 0 && packets.div_ceil(most_shards_at(percentage)) as usize <= BLOCKS_GREATEST
}

// How many blocks a frame of so many packets has.
fn blocks_at(packets: u32, percentage: u8) -> u32
    requires least { 1 ≤ packets }
    requires most { packets ≤ most_packets }
    requires within { percentage ≤ most_percentage }
    ensures is { result ≡ block_count packets percentage }
    ensures some { 1 ≤ result }
    ensures few { result ≤ most_blocks }
    ensures room { packets ≤ result * most_shards_of_block }
{
    if is_protected(packets, percentage) {
        packets.div_ceil(most_shards_at(percentage))
    } else {
        packets.div_ceil(u32::from(SHARDS_GREATEST))
    }
}

// The percentage that a frame of so many packets is planned with.
fn percentage_at(packets: u32, percentage: u8) -> u8
    requires within { percentage ≤ most_percentage }
    ensures is { result ≡ (if has_parity packets percentage then percentage else 0) }
    ensures most { result ≤ most_percentage }
{
    if is_protected(packets, percentage) {
        percentage
    } else {
        0
    }
}

// How many of the packets are a block's data shards: as many in each block, and the rest in the last one.
fn part(packets: u32, blocks: u32, block: u32) -> u32
    requires some { 1 ≤ blocks }
    requires few { blocks ≤ most_blocks }
    requires block { block < most_blocks }
    requires room { packets ≤ blocks * most_shards_of_block }
    ensures is { result ≡ slice_index (parts packets blocks) block }
    ensures most { result ≤ most_shards_of_block }
{
    let each = packets.div_ceil(blocks);
    if block + 1 < blocks {
        each
    } else if block + 1 == blocks {
        packets.saturating_sub(block * each)
    } else {
        0
    }
}

// What a plan says of one block.
#[derive(Clone, Copy)]
struct Block {
    shards: u16,
    parity: u16,
    sent: u8,
}

// A block of so many data shards, at a percentage of parity, 0 for none.
fn protect(shards: u16, percentage: u8, minimum: u8) -> Block
    requires within { percentage ≤ most_percentage }
    requires least { minimum ≤ most_minimum }
    requires most { shards ≤ most_shards_of_block }
    ensures { block_plan result ≡ protected percentage minimum shards }
{
    if shards == 0 || percentage == 0 {
        return Block {
            shards,
            parity: 0,
            sent: 0,
        };
    }
    let parity = (u32::from(shards) * u32::from(percentage)).div_ceil(100) as u16;
    let minimum = u16::from(minimum);
    if parity < minimum {
        let sent = (100 * minimum / shards) as u8;
        Block {
            shards,
            parity: minimum,
            sent,
        }
    } else {
        Block {
            shards,
            parity,
            sent: percentage,
        }
    }
}

// How many packets are parted, and into how many blocks.
#[derive(Clone, Copy)]
struct Parting {
    packets: u32,
    blocks: u32,
}

// A block of a plan of so many packets in so many blocks.
fn block_of(parting: Parting, block: u32, percentage: u8, minimum: u8) -> Block
    requires some { 1 ≤ parting.blocks }
    requires few { parting.blocks ≤ most_blocks }
    requires block { block < most_blocks }
    requires room { parting.packets ≤ parting.blocks * most_shards_of_block }
    requires within { percentage ≤ most_percentage }
    requires least { minimum ≤ most_minimum }
    ensures { block_plan result
        ≡ protected percentage minimum (slice_index (parts parting.packets parting.blocks) block) }
{
    let shards = part(parting.packets, parting.blocks, block) as u16;
    protect(shards, percentage, minimum)
}

/// How a frame with a unit of `len` bytes, 0 to 4,000,000, is parted into blocks at these settings.
pub fn plan_of(len: u32, settings: &Settings) -> Plan
    requires limit { len ≤ most_unit }
    ensures packets { result.packets ≡ packets len (payload_of (numbers_of settings.now)) }
    ensures blocks { blocks_of result
        ≡ fec_plan (packets len (payload_of (numbers_of settings.now))) settings.now.percentage settings.now.minimum }
    ensures percentage { result.percentage
        ≡ (if has_parity (packets len (payload_of (numbers_of settings.now))) settings.now.percentage
        then settings.now.percentage
        else 0) }
    ensures shards { IsZeroFrom result.blocks result.shards }
    ensures parity { IsZeroFrom result.blocks result.parity }
    ensures sent { IsZeroFrom result.blocks result.sent }
{
    let packets = packets_of(len, settings.packet - PACKET_HEADER as u16);
    let blocks = blocks_at(packets, settings.percentage);
    let percentage = percentage_at(packets, settings.percentage);
    let Settings { minimum, .. } = *settings;
    let parting = Parting { packets, blocks };
    let a = block_of(parting, 0, percentage, minimum);
    let b = block_of(parting, 1, percentage, minimum);
    let c = block_of(parting, 2, percentage, minimum);
    let d = block_of(parting, 3, percentage, minimum);
    Plan {
        packets,
        blocks: blocks as u8,
        percentage,
        shards: [a.shards, b.shards, c.shards, d.shards],
        parity: [a.parity, b.parity, c.parity, d.parity],
        sent: [a.sent, b.sent, c.sent, d.sent],
    }
}
