// Blocks together.

ghost use Rattle.std.specs.Prelude.{◌≡◌, ◌≤◌, length, All, vec_capacity};
ghost use Rattle.std.specs.List.{flat_map};
ghost use Rattle.gs_fecqueue.specs.Holding.{data_of_block};
ghost use Rattle.gs_frames.specs.Plan.{most_blocks};
ghost use Rattle.gs_frames.specs.Shards.{most_payload};
ghost use Rattle.gs_fecqueue.specs.Limits.{most_of_image};

use crate::block::Block;

// Forgets what each block holds.
pub(crate) fn clear_blocks(blocks: &mut [Block])
    ensures { All (λ block. block.held ≡ 0) blocks.new }
{
    'clear: for block in blocks.iter_mut() {
        block.clear();
    }
}

// Writes the payloads of the blocks end to end.
pub(crate) fn join(blocks: &[Block], size: usize, image: &mut Vec<u8>)
    requires size { size ≤ most_payload }
    requires few { length blocks.now ≤ most_blocks }
    requires room { most_of_image ≤ vec_capacity image.old }
    ensures capacity { most_of_image ≤ vec_capacity image.new }
    ensures joined { image.new.items ≡ flat_map (data_of_block size) blocks.now }
{
    image.clear();
    'join: for block in blocks {
        image.extend_from_slice(block.data(size)).unwrap();
    }
}
