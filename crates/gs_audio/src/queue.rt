// From audio datagrams to the units that are played.

ghost use Rattle.std.specs.Prelude.{◌≡◌, ◌<◌};
ghost use Rattle.std.specs.Option.{ForSome};
ghost use Rattle.gs_audio.specs.Received.{shard_number};

use crate::played::Played;
use crate::room::{BLOCK_UNITS, Room};
use gs_bytes::OutOfMemory;
use gs_rtp::{AUDIO_BLOCK_UNITS, AudioHead, Settings, read_audio};
use std::alloc::Global;

// What a datagram plays: nothing, or the units of the block that was left for it, or those of its own, the first of
// which has this number.
enum Plays {
    Nothing,
    Left { first: u32 },
    Whole { first: u32 },
}

/// Collects the audio datagrams of a session, block by block, and gives the units that are to be played. It takes all
/// its memory in `new`.
#[derive(Drop)]
pub struct AudioQueue {
    settings: Settings,
    // The greatest block of which something was taken, its shards, and those of the block that was left for it.
    block: Option<u32>,
    current: Room,
    left: Room,
    ghost current_size: { current.size ≡ settings.audio },
    ghost left_size: { left.size ≡ settings.audio },
    ghost few: { ForSome block (λ number. number < 4194304) },
}

impl AudioQueue {
    ghost use Rattle.std.specs.Prelude.{ℕ, ◌≤◌, ◌+◌, ◌%◌, List, [], ◌∷◌, length, true, Option, IfOk, IfSome};
    ghost use Rattle.std.specs.Borrow.{sem};
    ghost use Rattle.std.specs.Io.BufRead.{Rests};
    ghost use Rattle.gs_rtp.specs.Stream.{StreamSettings, numbers_of};
    ghost use Rattle.gs_rtp.specs.Audio.{audio_head};
    ghost use Rattle.gs_audio.specs.contracts.queue.AudioQueue.{the_row};
    ghost use Rattle.gs_audio.specs.Received.{AudioShard};
    ghost use Rattle.gs_audio.specs.Played.{greatest_block, newly_played};
    ghost use Rattle.gs_audio.specs.Units.{played_units};
    ghost use Rattle.gs_audio.specs.Standing.{IsAudioStanding, IsAudioQueueOf, FirstIsOfBlock, left_plays};
    ghost use Rattle.gs_audio.specs.Steps.{session_head, shard_of_number, is_above, TakesShard, TakesAudioDatagram};

    /// The queue of a client to which no datagram came.
    pub fn new(alloc: Global, settings: &Settings) -> Result<AudioQueue, OutOfMemory>
        ensures { IfOk result (λ queue. IsAudioQueueOf queue (numbers_of settings.now) []) }
    {
        let size = usize::from(settings.audio);
        Ok(AudioQueue {
            settings: *settings,
            block: None,
            current: Room::new(alloc, size)?,
            left: Room::new(alloc, size)?,
        })
    }

    /// What one more datagram, of any bytes, plays.
    pub fn add<'a>(&'a mut self, datagram: &[u8]) -> Played<'a>
        ensures units { (s : StreamSettings) (came : List (List ℕ)) → IsAudioQueueOf self.old s came
            → played_units result ≡ newly_played s datagram.now came }
        ensures nothing { played_units result ≡ [] → result.first ≡ 0 }
        ensures first { result.first % 4 ≡ 0 }
        ensures* stands { sem 𝓛 (Rests the_row self.entry (λ new.
            (s : StreamSettings) (came : List (List ℕ)) → IsAudioQueueOf self.old s came
            → IsAudioQueueOf new s (datagram.now ∷ came))) }
    {
        match self.take(datagram) {
            Plays::Nothing => Played::NOTHING,
            Plays::Left { first } => self.left.units(first),
            Plays::Whole { first } => self.current.units(first),
        }
    }

    // Takes a datagram.
    fn take(&mut self, datagram: &[u8]) -> Plays
        ensures first { FirstIsOfBlock result }
        ensures takes { (s : StreamSettings) (came : List (List ℕ)) → IsAudioQueueOf self.old s came
            → TakesAudioDatagram self.new result datagram.now s came }
    {
        let Some(head) = self.head_of(datagram) else {
            return Plays::Nothing;
        };
        let shard = &datagram[datagram.len() - usize::from(self.settings.audio)..];
        self.take_shard(head.block, number_of(&head), shard)
    }

    // The head of a datagram of the session.
    fn head_of(&self, datagram: &[u8]) -> Option<AudioHead>
        ensures is { result ≡ session_head self.now.settings.ssrc
            (audio_head (numbers_of self.now.settings) datagram.now) }
        ensures block { IfSome result (λ head. head.block < 4194304) }
        ensures number { IfSome result (λ head. shard_number head < 6) }
        ensures room { IfSome result (λ _. self.now.settings.audio ≤ length datagram.now) }
    {
        let head = read_audio(datagram, &self.settings)?;
        if head.ssrc == self.settings.ssrc {
            Some(head)
        } else {
            None
        }
    }

    // Takes a shard.
    fn take_shard(&mut self, block: u32, index: usize, shard: &[u8]) -> Plays
        requires block { block < 4194304 }
        requires index { index < 6 }
        requires size { length shard.now ≡ self.old.settings.audio }
        ensures first { FirstIsOfBlock result }
        ensures takes { (s : StreamSettings) (rs : List AudioShard) → IsAudioStanding self.old s rs
            → TakesShard self.new result (shard_of_number block index shard.now) s rs }
    {
        let Some(greatest) = self.block else {
            return self.advance(block, index, shard);
        };
        if greatest < block {
            self.advance(block, index, shard)
        } else if greatest == block {
            self.join(block, index, shard)
        } else {
            Plays::Nothing
        }
    }

    // Takes a shard of the greatest block.
    fn join(&mut self, block: u32, index: usize, shard: &[u8]) -> Plays
        requires block { block < 4194304 }
        requires index { index < 6 }
        requires size { length shard.now ≡ self.old.settings.audio }
        ensures first { FirstIsOfBlock result }
        ensures takes { (s : StreamSettings) (rs : List AudioShard) → IsAudioStanding self.old s rs
            → greatest_block rs ≡ Option.Some block
            → TakesShard self.new result (shard_of_number block index shard.now) s rs }
    {
        if !self.current.lacks(index) {
            return Plays::Nothing;
        }
        if self.current.hold(index, shard) {
            Plays::Whole {
                first: block * AUDIO_BLOCK_UNITS,
            }
        } else {
            Plays::Nothing
        }
    }

    // Takes a shard of a greater block.
    fn advance(&mut self, block: u32, index: usize, shard: &[u8]) -> Plays
        requires block { block < 4194304 }
        requires index { index < 6 }
        requires size { length shard.now ≡ self.old.settings.audio }
        ensures first { FirstIsOfBlock result }
        ensures takes { (s : StreamSettings) (rs : List AudioShard) → IsAudioStanding self.old s rs
            → is_above block (greatest_block rs) ≡ true
            → TakesShard self.new result (shard_of_number block index shard.now) s rs }
    {
        std::mem::swap(&mut self.current, &mut self.left);
        self.current.clear();
        self.current.hold(index, shard);
        let plays = self.plays_left();
        self.block = Some(block);
        plays
    }

    // What the block plays that was left.
    fn plays_left(&self) -> Plays
        ensures first { FirstIsOfBlock result }
        ensures is { result ≡ left_plays self.now.block self.now.left.held }
    {
        match self.block {
            Some(block) if !self.left.is_whole() => Plays::Left {
                first: block * AUDIO_BLOCK_UNITS,
            },
            _ => Plays::Nothing,
        }
    }
}

// The number of a shard in its block.
fn number_of(head: &AudioHead) -> usize
    ensures { result ≡ shard_number head.now }
{
    let shard = usize::from(head.shard);
    if head.parity {
        BLOCK_UNITS + shard
    } else {
        shard
    }
}
