// From audio units to their datagrams.

ghost use Rattle.std.specs.Prelude.{ℕ, ◌≡◌, ◌≤◌, ◌<◌, ◌+◌, ◌-◌, ◌*◌, List, [], ◌∷◌, ◌++◌, IfOk, Some, length, take};
ghost use Rattle.std.specs.Prelude.{drop, All};
ghost use Rattle.std.specs.List.{concat, slice_get};
ghost use Rattle.gs_bytes.specs.Limits.{most_audio};
ghost use Rattle.gs_rs.specs.Codeword.{shard_of};
ghost use Rattle.gs_rtp.specs.Limits.{most_stream_datagram};
ghost use Rattle.gs_rtp.specs.Stream.{numbers_of};
ghost use Rattle.gs_rtp.specs.Audio.{IsAudioHead, units_end};
ghost use Rattle.gs_audio.specs.Sending.{HasParityShards, HasPushed, last_datagrams, ready_head, ready_place};

use crate::room::{BLOCK_SHARDS, BLOCK_UNITS};
use gs_bytes::OutOfMemory;
use gs_rs::Code;
use gs_rtp::{AUDIO_BLOCK_UNITS, AUDIO_PARITY_HEADER_LENGTH, AudioHead, Settings, write_audio};
use std::alloc::Global;
use std::marker::Model;

// How many datagrams are ready behind a unit, and behind the last unit of a block, whose parity follows it.
const UNIT_DATAGRAMS: u32 = 1;

const LAST_UNIT_DATAGRAMS: u32 = 3;

/// Makes the datagrams of a session's audio, unit by unit: each unit's own, and behind the last unit of a block those
/// of its two parity shards. It takes all its memory in `new`.
#[derive(Drop)]
pub struct AudioSender {
    settings: Settings,
    pushed: u32,
    ready: u32,
    // The units of the last one's block up to it, end to end, and behind a whole block its parity shards.
    shards: Vec<u8>,
}

impl Model for AudioSender {
    ghost use Rattle.std.specs.Prelude.{vec_len};
    ghost use Rattle.gs_rtp.specs.Stream.{numbers_of};
    ghost use Rattle.gs_audio.specs.Sending.{Sending, IsSendingSound};

    ghost Value = { Sending };

    ghost view = { λ s. record {
      settings = numbers_of s.settings;
      pushed = s.pushed;
      ready = s.ready;
      shards = s.shards.items;
    } };

    ghost invariant = { λ s. IsSendingSound s.settings.audio s.pushed s.ready (vec_len s.shards) };
}

impl AudioSender {
    /// The sender of a session of these settings, with no unit pushed.
    pub fn new(alloc: Global, settings: &Settings) -> Result<AudioSender, OutOfMemory>
        ensures settings { IfOk result (λ sender. sender.settings ≡ numbers_of settings.now) }
        ensures none { IfOk result (λ sender. sender.pushed ≡ 0) }
        ensures pushed { IfOk result (λ sender. HasPushed sender []) }
    {
        Ok(AudioSender {
            settings: *settings,
            pushed: 0,
            ready: 0,
            shards: vec![in alloc; 0; BLOCK_SHARDS * usize::from(settings.audio)]?,
        })
    }

    /// Takes the session's next unit, and answers how many datagrams are ready: 1, or 3 behind the last unit of a
    /// block.
    pub fn push(&mut self, unit: &[u8]) -> u32
        requires size { length unit.now ≡ self.old.settings.audio }
        requires more { self.old.pushed < units_end }
        ensures settings { self.new.settings ≡ self.old.settings }
        ensures count { self.new.pushed ≡ self.old.pushed + 1 }
        ensures ready { self.new.ready ≡ result }
        ensures number { (units : List (List ℕ)) → HasPushed self.old units
            → result ≡ length (last_datagrams self.old.settings (units ++ unit.now ∷ [])) }
        ensures pushed { (units : List (List ℕ)) → HasPushed self.old units
            → HasPushed self.new (units ++ unit.now ∷ []) }
    {
        let place = self.pushed as usize % BLOCK_UNITS;
        put(&mut self.shards, place, unit);
        self.pushed += 1;
        if place + 1 < BLOCK_UNITS {
            self.ready = UNIT_DATAGRAMS;
            return UNIT_DATAGRAMS;
        }
        encode(&mut self.shards, unit.len());
        self.ready = LAST_UNIT_DATAGRAMS;
        LAST_UNIT_DATAGRAMS
    }

    /// Writes a datagram that is ready, by its number, from 0, and answers its length. `out` has `DATAGRAM_GREATEST`
    /// bytes or more.
    pub fn datagram(&self, k: u32, out: &mut [u8]) -> usize
        requires number { k < self.now.ready }
        requires room { most_stream_datagram ≤ length out.old }
        ensures datagram { (units : List (List ℕ)) → HasPushed self.now units
            → slice_get (last_datagrams self.now.settings units) k ≡ Some (take result out.new) }
        ensures most { result ≤ AUDIO_PARITY_HEADER_LENGTH + most_audio }
        ensures rest { drop result out.new ≡ drop result out.old }
    {
        let header = write_audio(&self.head(k), &self.settings, out);
        let shard = self.shard(k);
        let end = header + shard.len();
        out[header..end].copy_from_slice(shard);
        end
    }

    // The head of a datagram that is ready.
    fn head(&self, k: u32) -> AudioHead
        requires { k < self.now.ready }
        ensures grammar { IsAudioHead result }
        ensures is { result ≡ ready_head self.now k }
    {
        let last = self.pushed - 1;
        let block = last / AUDIO_BLOCK_UNITS;
        let ssrc = self.settings.ssrc;
        if k == 0 {
            AudioHead {
                parity: false,
                shard: (last % AUDIO_BLOCK_UNITS) as u8,
                block,
                ssrc,
            }
        } else {
            AudioHead {
                parity: true,
                shard: (k - 1) as u8,
                block,
                ssrc,
            }
        }
    }

    // The shard that it carries.
    fn shard(&self, k: u32) -> &[u8]
        requires { k < self.now.ready }
        ensures size { length result.now ≡ self.now.settings.audio }
        ensures is { result.now ≡ shard_of self.now.settings.audio self.now.shards (ready_place self.now k) }
    {
        let place = if k == 0 {
            (self.pushed - 1) as usize % BLOCK_UNITS
        } else {
            BLOCK_UNITS + (k - 1) as usize
        };
        let size = usize::from(self.settings.audio);
        &self.shards[place * size..place * size + size]
    }
}

// Writes a unit behind the units before its place.
fn put(shards: &mut [u8], place: usize, unit: &[u8])
    requires { place * length unit.now + length unit.now ≤ length shards.old }
    ensures { take (place * length unit.now + length unit.now) shards.new
        ≡ take (place * length unit.now) shards.old ++ unit.now }
{
    let at = place * unit.len();
    shards[at..at + unit.len()].copy_from_slice(unit);
}

// Writes the parity of a block behind its units, all of this size.
fn encode(shards: &mut [u8], size: usize)
    requires room { length shards.old ≡ 6 * size }
    ensures units { take (4 * size) shards.new ≡ take (4 * size) shards.old }
    ensures parity { (units : List (List ℕ)) → length units ≡ 4 → All (λ unit. length unit ≡ size) units
        → take (4 * size) shards.old ≡ concat units → HasParityShards size units shards.new }
{
    let (units, parity) = shards.split_at_mut(BLOCK_UNITS * size);
    Code::audio().encode(size, units, parity);
}
