//! Whether channels hold a message.

ghost use Rattle.std.specs.Prelude.{◌≡◌, ◌≤◌, ◌<◌, ◌↔◌, IsTrue, None, find, length, slice_index_or};
ghost use Rattle.std.specs.List.{All, AllZip};
ghost use Rattle.std.specs.Option.{option_map};
ghost use Rattle.gs_enet.specs.Record;
ghost use Rattle.gs_enet.specs.Steps.{had_last_wait, name_of};
ghost use Rattle.gs_enet.specs.Channels.{AreEmpty, LostIs, MarksDue, HasDue, AreSame, all_held};
ghost use Rattle.gs_enet.specs.Busy.{AreIdle};
ghost use Rattle.gs_enet.specs.declared.channel.Channel.{Channel};

use crate::channel::Channel;

/// Whether every message is acknowledged.
pub fn nothing_held(channels: &[Channel]) -> bool
    ensures { IsTrue result ↔ AreEmpty channels.now }
{
    channels.iter().all(|channel| channel.window.is_empty())
}

/// The channel and the number of the first message that had its last wait.
pub fn first_lost(channels: &[Channel], now: u32) -> Option<(u8, u64)>
    requires { length channels.now ≤ Record.channels }
    ensures { result ≡ option_map name_of (find (had_last_wait now) (all_held 0 channels.now)) }
{
    for (index, channel) in channels.iter().enumerate() {
        if let Some(number) = channel.first_lost(now) {
            return Some((index as u8, number));
        }
    }
    None
}

/// Makes each message due again that has waited. None had its last wait.
pub fn mark_due(channels: &mut [Channel], now: u32)
    requires { All (λ ch. LostIs now ch None) channels.old }
    ensures { AllZip (MarksDue now) channels.old channels.new }
{
    for channel in channels.iter_mut() {
        channel.mark_due(now);
    }
}

/// The place of the first channel with a message to be written, where none but those from one
/// place up to another may have one; the latter where there is none.
pub fn find_busy(channels: &mut [Channel], from: usize, to: usize) -> usize
    requires order { from ≤ to }
    requires within { to ≤ length channels.old }
    requires idle { AreIdle from to channels.old }
    ensures same { AreSame channels.old channels.new }
    ensures from { from ≤ result }
    ensures to { result ≤ to }
    ensures idle { AreIdle result to channels.new }
    ensures there { result < to → (d : Channel) → HasDue (slice_index_or channels.new result d) }
{
    let mut place = from;
    'channels: while place < to {
        if channels[place].find_due() {
            return place;
        }
        place += 1;
    }
    place
}
