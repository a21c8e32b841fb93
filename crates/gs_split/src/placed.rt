// Where the blocks of a frame stand in it.

ghost use Rattle.std.specs.Prelude.{◌≡◌, ◌≤◌, ◌<◌, ◌+◌, ◌*◌};
ghost use Rattle.gs_rtp.specs.Limits.{most_blocks};
ghost use Rattle.gs_split.specs.Plans.{block_at, blocks_of};
ghost use Rattle.gs_split.specs.Places.{IsPlaced, block_end, datagrams_before, placed_plan};

use crate::plan::Plan;

// A block of a frame: its number, from 0, what the plan says of it, and how many packets and how many datagrams of the
// frame stand before it.
#[derive(Clone, Copy)]
pub(crate) struct PlacedBlock {
    pub(crate) number: usize,
    pub(crate) shards: u16,
    pub(crate) parity: u16,
    pub(crate) sent: u8,
    pub(crate) first_packet: u32,
    pub(crate) first_datagram: u32,
}

impl PlacedBlock {
    // How many datagrams of the frame stand before the end of it.
    pub(crate) fn end(&self) -> u32
        requires { self.now.first_datagram ≤ 400000 }
        ensures { result ≡ block_end self.now }
    {
        self.first_datagram + u32::from(self.shards) + u32::from(self.parity)
    }
}

impl Plan {
    // The block of this number, behind so many packets and datagrams.
    fn place(&self, number: usize, first_packet: u32, first_datagram: u32) -> PlacedBlock
        requires { number < most_blocks }
        ensures number { result.number ≡ number }
        ensures plan { placed_plan result ≡ block_at self.now number }
        ensures first_packet { result.first_packet ≡ first_packet }
        ensures first_datagram { result.first_datagram ≡ first_datagram }
    {
        PlacedBlock {
            number,
            shards: self.shards[number],
            parity: self.parity[number],
            sent: self.sent[number],
            first_packet,
            first_datagram,
        }
    }

    // The first block.
    fn first(&self) -> PlacedBlock
        requires some { 1 ≤ self.now.blocks }
        ensures placed { IsPlaced (blocks_of self.now) result }
        ensures number { result.number ≡ 0 }
    {
        self.place(0, 0, 0)
    }

    // The block behind this one.
    fn next(&self, block: &PlacedBlock) -> PlacedBlock
        requires few { self.now.blocks ≤ most_blocks }
        requires behind { block.now.number + 1 < self.now.blocks }
        requires placed { IsPlaced (blocks_of self.now) block.now }
        ensures placed { IsPlaced (blocks_of self.now) result }
        ensures number { result.number ≡ block.now.number + 1 }
    {
        let first_packet = block.first_packet + u32::from(block.shards);
        self.place(block.number + 1, first_packet, block.end())
    }

    // The block of this number.
    pub(crate) fn block(&self, number: usize) -> PlacedBlock
        requires few { self.now.blocks ≤ most_blocks }
        requires number { number < self.now.blocks }
        ensures placed { IsPlaced (blocks_of self.now) result }
        ensures number { result.number ≡ number }
    {
        let mut block = self.first();
        'walk: while block.number < number {
            block = self.next(&block);
        }
        block
    }

    // The block that has this datagram of the frame, by the datagram's number in the frame.
    pub(crate) fn block_of(&self, k: u32) -> PlacedBlock
        requires some { 1 ≤ self.now.blocks }
        requires few { self.now.blocks ≤ most_blocks }
        requires number { k < datagrams_before self.now.blocks (blocks_of self.now) }
        ensures placed { IsPlaced (blocks_of self.now) result }
        ensures number { result.number < self.now.blocks }
        ensures from { result.first_datagram ≤ k }
        ensures to { k < block_end result }
    {
        let mut block = self.first();
        'walk: while block.end() <= k {
            block = self.next(&block);
        }
        block
    }

    // How many datagrams the frame has.
    pub(crate) fn datagrams(&self) -> u32
        requires some { 1 ≤ self.now.blocks }
        requires few { self.now.blocks ≤ most_blocks }
        ensures { result ≡ datagrams_before self.now.blocks (blocks_of self.now) }
    {
        self.block(usize::from(self.blocks) - 1).end()
    }
}
