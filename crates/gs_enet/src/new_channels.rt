//! The channels of a new side.

ghost use Rattle.std.specs.Prelude.{IfOk};
ghost use Rattle.gs_enet.specs.Record.{channels};
ghost use Rattle.gs_enet.specs.Channels.{AreNew};

use crate::channel::Channel;
use crate::limits::CHANNELS;
use gs_bytes::OutOfMemory;
use std::alloc::Global;

/// Channels on which nothing was given or heard.
pub fn new_channels(alloc: Global) -> Result<Vec<Channel>, OutOfMemory>
    ensures { IfOk result (λ made. AreNew made.items channels) }
{
    let mut channels = Vec::with_capacity(alloc, CHANNELS)?;
    for index in 0..CHANNELS {
        channels.push(Channel::new(alloc))?;
    }
    Ok(channels)
}
