// Rooms for frames.

ghost use Rattle.std.specs.Prelude.{◌≡◌, IfOk, All, vec_len};

use crate::frame::Frame;
use gs_bytes::OutOfMemory;
use std::alloc::Global;

// So many rooms, with no frame in them.
pub(crate) fn no_frames(alloc: Global, count: usize) -> Result<Vec<Frame>, OutOfMemory>
    ensures count { IfOk result (λ frames. vec_len frames ≡ count) }
    ensures none { IfOk result (λ frames. All (λ frame. frame.number ≡ 0) frames.items) }
{
    let mut frames = Vec::with_capacity(alloc, count)?;
    'frames: for _ in 0..count {
        frames.push(Frame::new(alloc)?)?;
    }
    Ok(frames)
}
