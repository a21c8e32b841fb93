// The datagrams of a loaded frame.

ghost use Rattle.std.specs.Prelude.{ℕ, ◌≡◌, ◌≤◌, ◌<◌, ◌+◌, ◌*◌, List, Some, length, take, drop, true};
ghost use Rattle.std.specs.List.{slice_get};
ghost use Rattle.gs_rtp.specs.Limits.{most_blocks};
ghost use Rattle.gs_rtp.specs.Stream.{numbers_of};
ghost use Rattle.gs_frames.specs.Datagrams.{frame_datagrams, shard_head};
ghost use Rattle.gs_frames.specs.Shards.{read_covered};
ghost use Rattle.gs_split.specs.Plans.{blocks_of};
ghost use Rattle.gs_split.specs.Places.{IsPlaced, placed_plan};
ghost use Rattle.gs_split.specs.Splitting.{KeepsShards, has_parity_at};
ghost use Rattle.gs_split.specs.Loaded.{
  IsCarried,
  IsPlanned,
  header_of,
  loaded_outgoing,
  place_of,
};

use crate::frame::LoadedFrame;
use crate::placed::PlacedBlock;
use crate::shard::{Covered, PACKET_HEADER};
use gs_rtp::{RTP_HEADER_LENGTH, Settings, VIDEO_HEADER_LENGTH, VideoHead, write_video};

// Ticks of the RTP clock in a millisecond.
const CLOCK: u32 = 90;

const MULTI_FLAGS: u8 = 0x10;

// Copies the payload of a shard, and answers what parity covers of its packet's header.
fn copy_shard(shard: &[u8], payload: &mut [u8]) -> Covered
    requires { length shard.now ≡ 16 + length payload.old }
    ensures payload { payload.new ≡ drop 16 shard.now }
    ensures covered { header_of result ≡ read_covered shard.now }
{
    payload.copy_from_slice(&shard[PACKET_HEADER..]);
    Covered::read(shard)
}

impl LoadedFrame {
    // The head of a datagram of a block, by its index there.
    fn head(
        &self,
        settings: &Settings,
        block: &PlacedBlock,
        index: u16,
        covered: Covered,
    ) -> VideoHead
        requires blocks { 1 ≤ self.now.plan.blocks }
        requires number { block.now.number < most_blocks }
        requires few { block.now.first_datagram ≤ 400000 }
        ensures { (shard : List ℕ) → header_of covered ≡ read_covered shard
            → result
            ≡ shard_head (numbers_of settings.now) (place_of self.now block.now) (placed_plan block.now)
            (self.now.count + block.now.first_datagram + index)
            index
            shard }
    {
        let before = block.first_datagram + u32::from(index);
        VideoHead {
            sequence: (self.count.wrapping_add(before) & 0xFFFF) as u16,
            timestamp: self.time.wrapping_mul(CLOCK),
            ssrc: settings.ssrc,
            stream_index: covered.stream_index,
            frame: self.frame,
            flags: covered.flags,
            extra: covered.extra,
            multi_flags: MULTI_FLAGS,
            block: block.number as u8,
            last_block: self.plan.blocks - 1,
            shards: block.shards,
            index,
            percentage: block.sent,
        }
    }

    // Writes the payload of a datagram of a block, by its index there, and answers what parity covers of its packet's
    // header: from the kept shards, where the frame has parity, and else from the unit.
    fn put_payload(
        &self,
        settings: &Settings,
        block: &PlacedBlock,
        index: u16,
        unit: &[u8],
        kept: &[u8],
        out: &mut [u8],
    ) -> Covered
        requires planned { IsPlanned (numbers_of settings.now) self.now }
        requires placed { IsPlaced (blocks_of self.now.plan) block.now }
        requires index { index < block.now.shards + block.now.parity }
        requires unit { length unit.now ≡ self.now.unit_length }
        requires kept { has_parity_at (numbers_of settings.now) self.now.unit_length ≡ true
            → self.now.datagrams * settings.now.packet ≤ length kept.now }
        requires size { length out.old + 16 ≡ settings.now.packet }
        ensures { (has_parity_at (numbers_of settings.now) self.now.unit_length ≡ true
            → KeepsShards (numbers_of settings.now) (loaded_outgoing self.now unit.now) kept.now)
            → IsCarried (numbers_of settings.now) self.now block.now unit.now index result out.new }
    {
        if self.plan.percentage == 0 {
            self.write_data(block, index, unit, out);
            return self.covered(block, index);
        }
        let packet = usize::from(settings.packet);
        let at = (block.first_datagram as usize + usize::from(index)) * packet;
        copy_shard(&kept[at..at + packet], out)
    }

    // Writes a datagram of the frame, by its number there.
    pub(crate) fn write_datagram(
        &self,
        settings: &Settings,
        k: u32,
        unit: &[u8],
        kept: &[u8],
        out: &mut [u8],
    )
        requires planned { IsPlanned (numbers_of settings.now) self.now }
        requires unit { length unit.now ≡ self.now.unit_length }
        requires number { k < self.now.datagrams }
        requires kept { has_parity_at (numbers_of settings.now) self.now.unit_length ≡ true
            → self.now.datagrams * settings.now.packet ≤ length kept.now }
        requires room { 16 + settings.now.packet ≤ length out.old }
        ensures datagram { (has_parity_at (numbers_of settings.now) self.now.unit_length ≡ true
            → KeepsShards (numbers_of settings.now) (loaded_outgoing self.now unit.now) kept.now)
            → slice_get (frame_datagrams (numbers_of settings.now) (loaded_outgoing self.now unit.now)) k
            ≡ Some (take (16 + settings.now.packet) out.new) }
        ensures rest { drop (16 + settings.now.packet) out.new ≡ drop (16 + settings.now.packet) out.old }
    {
        let block = self.plan.block_of(k);
        let index = (k - block.first_datagram) as u16;
        let end = RTP_HEADER_LENGTH + usize::from(settings.packet);
        let payload = &mut out[VIDEO_HEADER_LENGTH..end];
        let covered = self.put_payload(settings, &block, index, unit, kept, payload);
        write_video(&self.head(settings, &block, index, covered), out);
    }
}
