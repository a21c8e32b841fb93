// The shards of a loaded frame.

ghost use Rattle.std.specs.Prelude.{◌≡◌, ◌≤◌, ◌+◌, ◌*◌, length, map, true};
ghost use Rattle.std.specs.List.{concat};
ghost use Rattle.gs_bytes.specs.Limits.{most_unit};
ghost use Rattle.gs_rtp.specs.Limits.{most_frame, most_shards_of_code};
ghost use Rattle.gs_rtp.specs.Stream.{numbers_of};
ghost use Rattle.gs_frames.specs.Datagrams.{frame_shards};
ghost use Rattle.gs_frames.specs.Image.{packets};
ghost use Rattle.gs_frames.specs.ImageLaws.{IsWrittenKind};
ghost use Rattle.gs_frames.specs.Shards.{least_payload, most_payload, payload_of};
ghost use Rattle.gs_split.specs.Splitting.{KeepsShards, has_parity_at};
ghost use Rattle.gs_split.specs.Loaded.{
  IsPlanned,
  block_data,
  covered_at,
  data_shard_at,
  header_of,
  loaded_outgoing,
  payload_at,
  placed_shards,
};

use crate::image::write_payload;
use crate::placed::PlacedBlock;
use crate::plan::{Plan, plan_of};
use crate::shard::{Covered, PACKET_HEADER};
use gs_rs::Code;
use gs_rtp::Settings;

// A frame: how many datagrams of its stream went out before it, modulo 2^32, its number, its kind, the time of its tick
// in milliseconds, the length of its unit, its plan, and how many datagrams it has.
#[derive(Clone, Copy)]
pub(crate) struct LoadedFrame {
    pub(crate) count: u32,
    pub(crate) frame: u32,
    pub(crate) kind: u8,
    pub(crate) time: u32,
    pub(crate) unit_length: u32,
    pub(crate) plan: Plan,
    pub(crate) datagrams: u32,
}

// What is said of a frame beside its unit: its number, its kind, and the time of its tick in milliseconds.
#[derive(Clone, Copy)]
pub(crate) struct FrameLabel {
    pub(crate) frame: u32,
    pub(crate) kind: u8,
    pub(crate) time: u32,
}

impl LoadedFrame {
    // A frame of a stream of these settings, with its plan.
    pub(crate) fn plan(
        settings: &Settings,
        count: u32,
        label: FrameLabel,
        unit_length: u32,
    ) -> LoadedFrame
        requires frame_least { 1 ≤ label.frame }
        requires frame_greatest { label.frame ≤ most_frame }
        requires written { IsWrittenKind label.kind }
        requires limit { unit_length ≤ most_unit }
        ensures planned { IsPlanned (numbers_of settings.now) result }
        ensures count { result.count ≡ count }
        ensures frame { result.frame ≡ label.frame }
        ensures kind { result.kind ≡ label.kind }
        ensures time { result.time ≡ label.time }
        ensures unit_length { result.unit_length ≡ unit_length }
    {
        let plan = plan_of(unit_length, settings);
        LoadedFrame {
            count,
            frame: label.frame,
            kind: label.kind,
            time: label.time,
            unit_length,
            plan,
            datagrams: plan.datagrams(),
        }
    }

    // What parity covers of a data shard's header.
    pub(crate) fn covered(&self, block: &PlacedBlock, index: u16) -> Covered
        requires few { block.now.first_datagram ≤ 400000 }
        ensures { header_of result ≡ covered_at self.now block.now index }
    {
        let before = block.first_datagram + u32::from(index);
        Covered::of_data(self.count.wrapping_add(before), block.shards, index)
    }

    // Writes the payload of a data shard.
    pub(crate) fn write_data(&self, block: &PlacedBlock, index: u16, unit: &[u8], out: &mut [u8])
        requires payload { least_payload ≤ length out.old }
        requires most { length out.old ≤ most_payload }
        requires limit { length unit.now ≤ most_unit }
        requires packets { block.now.first_packet + index + 1 ≤ packets (length unit.now) (length out.old) }
        ensures { out.new ≡ payload_at (length out.old) self.now.kind block.now.first_packet unit.now index }
    {
        let number = block.first_packet as usize + usize::from(index);
        write_payload(self.kind, unit, number, out);
    }

    // Writes a data shard of a block.
    fn write_data_shard(
        &self,
        settings: &Settings,
        block: &PlacedBlock,
        index: u16,
        unit: &[u8],
        out: &mut [u8],
    )
        requires size { length out.old ≡ settings.now.packet }
        requires few { block.now.first_datagram ≤ 400000 }
        requires limit { length unit.now ≤ most_unit }
        requires packets { block.now.first_packet + index + 1
            ≤ packets (length unit.now) (payload_of (numbers_of settings.now)) }
        ensures { out.new ≡ data_shard_at (numbers_of settings.now) self.now block.now unit.now index }
    {
        self.covered(block, index).write(out);
        self.write_data(block, index, unit, &mut out[PACKET_HEADER..]);
    }

    // Writes the data shards of a block, end to end.
    fn write_data_shards(
        &self,
        settings: &Settings,
        block: &PlacedBlock,
        unit: &[u8],
        out: &mut [u8],
    )
        requires size { length out.old ≡ block.now.shards * settings.now.packet }
        requires few { block.now.first_datagram ≤ 400000 }
        requires limit { length unit.now ≤ most_unit }
        requires packets { block.now.first_packet + block.now.shards
            ≤ packets (length unit.now) (payload_of (numbers_of settings.now)) }
        ensures { out.new ≡ concat (block_data (numbers_of settings.now) self.now block.now unit.now) }
    {
        let packet = usize::from(settings.packet);
        'shards: for index in 0..block.shards {
            let at = usize::from(index) * packet;
            self.write_data_shard(settings, block, index, unit, &mut out[at..at + packet]);
        }
    }

    // Writes the shards of a block, end to end: those of its data, and then their parity.
    fn write_block(&self, settings: &Settings, block: &PlacedBlock, unit: &[u8], out: &mut [u8])
        requires size { length out.old ≡ (block.now.shards + block.now.parity) * settings.now.packet }
        requires some { 1 ≤ block.now.shards }
        requires code { block.now.shards + block.now.parity ≤ most_shards_of_code }
        requires few { block.now.first_datagram ≤ 400000 }
        requires written { IsWrittenKind self.now.kind }
        requires limit { length unit.now ≤ most_unit }
        requires packets { block.now.first_packet + block.now.shards
            ≤ packets (length unit.now) (payload_of (numbers_of settings.now)) }
        ensures { out.new ≡ concat (placed_shards (numbers_of settings.now) self.now block.now unit.now) }
    {
        let packet = usize::from(settings.packet);
        let (data, parity) = out.split_at_mut(usize::from(block.shards) * packet);
        self.write_data_shards(settings, block, unit, data);
        let code = Code::video(usize::from(block.shards), usize::from(block.parity)).unwrap();
        code.encode(packet, data, parity);
    }

    // Writes its shards, block after block, end to end.
    pub(crate) fn write_shards(&self, settings: &Settings, unit: &[u8], out: &mut [u8])
        requires planned { IsPlanned (numbers_of settings.now) self.now }
        requires unit { length unit.now ≡ self.now.unit_length }
        requires parity { has_parity_at (numbers_of settings.now) self.now.unit_length ≡ true }
        requires size { length out.old ≡ self.now.datagrams * settings.now.packet }
        ensures { out.new ≡ concat (map (λ r.
            r.shard) (frame_shards (numbers_of settings.now) (loaded_outgoing self.now unit.now))) }
    {
        let packet = usize::from(settings.packet);
        'each: for number in 0..usize::from(self.plan.blocks) {
            let block = self.plan.block(number);
            let start = block.first_datagram as usize * packet;
            let end = block.end() as usize * packet;
            self.write_block(settings, &block, unit, &mut out[start..end]);
        }
    }

    // Writes its shards to the front of what is kept.
    pub(crate) fn write_front(&self, settings: &Settings, unit: &[u8], kept: &mut [u8])
        requires planned { IsPlanned (numbers_of settings.now) self.now }
        requires unit { length unit.now ≡ self.now.unit_length }
        requires parity { has_parity_at (numbers_of settings.now) self.now.unit_length ≡ true }
        requires room { self.now.datagrams * settings.now.packet ≤ length kept.old }
        ensures { KeepsShards (numbers_of settings.now) (loaded_outgoing self.now unit.now) kept.new }
    {
        let size = self.datagrams as usize * usize::from(settings.packet);
        self.write_shards(settings, unit, &mut kept[..size]);
    }
}
