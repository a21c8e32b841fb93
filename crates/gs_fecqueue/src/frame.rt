// A frame: its blocks, and its image where each of them is whole.

ghost use Rattle.std.specs.Prelude.{◌≡◌, ◌≤◌, ◌<◌, IfOk, length, vec_capacity};
ghost use Rattle.gs_frames.specs.Plan.{most_blocks};
ghost use Rattle.gs_frames.specs.Shards.{most_payload};
ghost use Rattle.gs_fecqueue.specs.Limits.{most_of_image};

use crate::block::{Block, DATA_GREATEST};
use crate::join::{clear_blocks, join};
use gs_bytes::OutOfMemory;
use gs_frames::Added;
use gs_rtp::{BLOCKS_GREATEST, VideoHead};
use std::alloc::Global;

// What came of a frame, by its number, 0 where there is none. One block is the image itself; that of several blocks
// stands beside them.
#[derive(Debug, Drop)]
pub(crate) struct Frame {
    pub(crate) number: u32,
    last_block: u8,
    blocks: [Block; BLOCKS_GREATEST],
    image: Vec<u8>,
    ghost four: { length blocks ≡ most_blocks },
    ghost last: { last_block < most_blocks },
    ghost reserved: { most_of_image ≤ vec_capacity image },
}

impl Frame {
    ghost use Rattle.std.specs.Prelude.{◌+◌, List, take};
    ghost use Rattle.std.specs.List.{list_all};
    ghost use Rattle.gs_rtp.specs.Stream.{StreamSettings};
    ghost use Rattle.gs_rtp.specs.Video.{IsVideoHead};
    ghost use Rattle.gs_frames.specs.Received.{Received};
    ghost use Rattle.gs_frames.specs.Verdict.{is_counting};
    ghost use Rattle.gs_frames.specs.Shards.{payload_of};
    ghost use Rattle.gs_fecqueue.specs.Holding.{Brings};
    ghost use Rattle.gs_fecqueue.specs.FrameHolding.{
      is_whole_room,
      image_held,
      HoldsBlocks,
      HoldsFrame,
      frame_verdict,
      counted_behind,
      completed,
      IsBegun,
    };

    // No frame, with room for one.
    pub(crate) fn new(alloc: Global) -> Result<Frame, OutOfMemory>
        ensures { IfOk result (λ frame. frame.number ≡ 0) }
    {
        Ok(Frame {
            number: 0,
            last_block: 0,
            blocks: [
                Block::new(alloc)?,
                Block::new(alloc)?,
                Block::new(alloc)?,
                Block::new(alloc)?,
            ],
            image: Vec::with_capacity(alloc, BLOCKS_GREATEST * DATA_GREATEST)?,
        })
    }

    // Becomes another frame, of which nothing is held.
    pub(crate) fn begin(&mut self, number: u32, last_block: u8)
        requires { last_block < most_blocks }
        ensures { IsBegun self.new number last_block }
    {
        self.number = number;
        self.last_block = last_block;
        clear_blocks(&mut self.blocks);
    }

    // The verdict on a datagram of it.
    pub(crate) fn take(&mut self, head: &VideoHead, payload: &[u8]) -> Added
        requires grammar { IsVideoHead head.now }
        requires size { length payload.now ≤ most_payload }
        ensures number { self.new.number ≡ self.old.number }
        ensures verdict { (s : StreamSettings) (counted : List Received) (first r : Received)
            → HoldsFrame s self.old counted first → r.head.frame ≡ self.old.number → Brings s head.now payload.now r
            → result ≡ frame_verdict first r counted }
        ensures holds { (s : StreamSettings) (counted : List Received) (first r : Received)
            → HoldsFrame s self.old counted first → r.head.frame ≡ self.old.number → Brings s head.now payload.now r
            → HoldsFrame s self.new (counted_behind (is_counting result) r counted) first }
    {
        match self.blocks[usize::from(head.block)].take(head, self.last_block, payload) {
            Added::BlockWhole => self.complete(payload.len()),
            what => what,
        }
    }

    // What the block that became whole makes of its frame.
    fn complete(&mut self, size: usize) -> Added
        requires { size ≤ most_payload }
        ensures number { self.new.number ≡ self.old.number }
        ensures holds { (s : StreamSettings) (counted : List Received) (first : Received) → payload_of s ≡ size
            → HoldsBlocks s self.old counted first
            → (result ≡ completed counted self.old.number first.head.last_block) × HoldsFrame s self.new counted first }
    {
        if !self.is_whole() {
            return Added::BlockWhole;
        }
        if self.last_block == 0 {
            return Added::FrameWhole;
        }
        join(
            &self.blocks[..usize::from(self.last_block) + 1],
            size,
            &mut self.image,
        );
        Added::FrameWhole
    }

    // Whether each of its blocks is whole.
    pub(crate) fn is_whole(&self) -> bool
        ensures { result ≡ list_all is_whole_room (take (self.now.last_block + 1) self.now.blocks) }
    {
        self.blocks[..usize::from(self.last_block) + 1]
            .iter()
            .all(|block| block.is_whole())
    }

    // Its image, where it is whole.
    pub(crate) fn image(&self, size: usize) -> &[u8]
        requires { size ≤ most_payload }
        ensures { result.now ≡ image_held size self.now }
    {
        if self.last_block == 0 {
            self.blocks[0].data(size)
        } else {
            &self.image
        }
    }
}
