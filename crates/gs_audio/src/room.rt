// A block's shards that are held, in a room with a place for each.

ghost use Rattle.std.specs.Prelude.{ℕ, ◌≡◌, ◌≢◌, ◌≤◌, ◌<◌, ◌+◌, ◌*◌, ◌%◌, List, [], length, IfOk, vec_len};
ghost use Rattle.gs_bytes.specs.Limits.{most_audio};
ghost use Rattle.gs_rs.specs.Codeword.{shard_of};
ghost use Rattle.gs_rs.specs.Shards.{HeldShard};
ghost use Rattle.gs_audio.specs.Places.{AreAudioShards, HasMarks, HasPlacedAudio, HasRestored};

use crate::played::Played;
use gs_bytes::OutOfMemory;
use gs_rs::Code;
use std::alloc::Global;

// The shards of a block: its units and its parity.
pub(crate) const BLOCK_SHARDS: usize = 6;

// How many of them are its units: as many as fix all of them.
pub(crate) const BLOCK_UNITS: usize = 4;

// Each shard stands at the place of its number: the units, and then the parity shards. Once as many are held as fix the
// block, all its units are.
#[derive(Drop)]
pub(crate) struct Room {
    pub(crate) size: usize,
    held: u8,
    present: [bool; BLOCK_SHARDS],
    bytes: Vec<u8>,
    ghost few: { held ≤ 4 },
    ghost flags: { length present ≡ 6 },
    ghost most: { size ≤ most_audio },
    ghost room: { vec_len bytes ≡ 6 * size },
}

impl Room {
    ghost use Rattle.std.specs.Prelude.{false, ◌∷◌, ◌&&◌, ◌==◌, not, nat_lt, IsTrue};
    ghost use Rattle.std.specs.Option.{option_copied};
    ghost use Rattle.gs_audio.specs.Played.{is_audio_held};
    ghost use Rattle.gs_audio.specs.Holding.{AreInRoom, HasUnits, HoldsAudioShards, room_units, marked_unit};
    ghost use Rattle.gs_audio.specs.Holding.{any_marked};
    ghost use Rattle.gs_audio.specs.Units.{played_units};
    ghost use Rattle.gs_audio.specs.Steps.{IsAudioPut};

    // A room for shards of this size, with none in it.
    pub(crate) fn new(alloc: Global, size: usize) -> Result<Room, OutOfMemory>
        requires { size ≤ most_audio }
        ensures size { IfOk result (λ room. room.size ≡ size) }
    {
        Ok(Room {
            size,
            held: 0,
            present: [false; BLOCK_SHARDS],
            bytes: vec![in alloc; 0; BLOCK_SHARDS * size]?,
        })
    }

    // Forgets what it holds.
    pub(crate) fn clear(&mut self)
        ensures size { self.new.size ≡ self.old.size }
        ensures count { self.new.held ≡ 0 }
        ensures holds { HoldsAudioShards self.new [] }
    {
        self.held = 0;
        self.present = [false; BLOCK_SHARDS];
    }

    // Whether a shard of this number would count.
    pub(crate) fn lacks(&self, index: usize) -> bool
        requires { index < 6 }
        ensures more { IsTrue result → self.now.held < 4 }
        ensures is { (held : List HeldShard) → HoldsAudioShards self.now held
            → result ≡ (not (is_audio_held index held) && nat_lt (length held) 4) }
    {
        usize::from(self.held) < BLOCK_UNITS && !self.present[index]
    }

    // Holds one shard more, and answers whether it is the one by which all units are held.
    pub(crate) fn hold(&mut self, index: usize, shard: &[u8]) -> bool
        requires index { index < 6 }
        requires size { length shard.now ≡ self.old.size }
        requires more { self.old.held < 4 }
        ensures size { self.new.size ≡ self.old.size }
        ensures holds { (held : List HeldShard) → HoldsAudioShards self.old held → is_audio_held index held ≡ false
            → (result ≡ (length held + 1 == 4))
            × HoldsAudioShards self.new (record { index = index; bytes = shard.now } ∷ held) }
    {
        self.put(index, shard);
        if !self.is_whole() {
            return false;
        }
        self.restore();
        true
    }

    // Holds a shard.
    fn put(&mut self, index: usize, shard: &[u8])
        requires index { index < 6 }
        requires size { length shard.now ≡ self.old.size }
        requires more { self.old.held < 4 }
        ensures { IsAudioPut self.old self.new index shard.now }
    {
        place(&mut self.bytes, index, shard);
        self.present[index] = true;
        self.held += 1;
    }

    // Restores the units that aren't held, where as many shards are held as fix the block.
    fn restore(&mut self)
        ensures size { self.new.size ≡ self.old.size }
        ensures count { self.new.held ≡ self.old.held }
        ensures units { (held : List HeldShard) → AreAudioShards held → AreInRoom self.old held → length held ≡ 4
            → HasUnits self.new held }
    {
        restore(&mut self.bytes, &self.present, self.size);
        self.present = [true; BLOCK_SHARDS];
    }

    // Whether all units are held.
    pub(crate) fn is_whole(&self) -> bool
        ensures { result ≡ (self.now.held == 4) }
    {
        usize::from(self.held) == BLOCK_UNITS
    }

    // The unit in this place, where it is held.
    fn unit(&self, place: usize) -> Option<&[u8]>
        requires { place < 4 }
        ensures { option_copied result ≡ marked_unit self.now place }
    {
        let at = place * self.size;
        if self.present[place] {
            Some(&self.bytes[at..at + self.size])
        } else {
            None
        }
    }

    // The units that are held, the first of which has this number.
    pub(crate) fn units(&self, first: u32) -> Played<'_>
        ensures first { first % 4 ≡ 0 → result.first % 4 ≡ 0 }
        ensures nothing { played_units result ≡ [] → result.first ≡ 0 }
        ensures units { (held : List HeldShard) (block : ℕ) → HoldsAudioShards self.now held → first ≡ block * 4
            → played_units result ≡ room_units self.now.size block held }
    {
        let units = [self.unit(0), self.unit(1), self.unit(2), self.unit(3)];
        if self.has_units() {
            Played { first, units }
        } else {
            Played::NOTHING
        }
    }

    // Whether a unit is held.
    fn has_units(&self) -> bool
        ensures { result ≡ any_marked self.now.present }
    {
        let [a, b, c, d, ..] = self.present;
        a || b || c || d
    }
}

// Writes a shard to the place of its number.
fn place(bytes: &mut [u8], index: usize, shard: &[u8])
    requires { index * length shard.now + length shard.now ≤ length bytes.old }
    ensures itself { shard_of (length shard.now) bytes.new index ≡ shard.now }
    ensures others { (i : ℕ) → i ≢ index
        → shard_of (length shard.now) bytes.new i ≡ shard_of (length shard.now) bytes.old i }
{
    let at = index * shard.len();
    bytes[at..at + shard.len()].copy_from_slice(shard);
}

// Restores the units of a block that aren't present, where as many shards are as fix it.
fn restore(bytes: &mut [u8], present: &[bool], size: usize)
    requires flags { length present.now ≡ 6 }
    requires room { length bytes.old ≡ 6 * size }
    ensures { (held : List HeldShard) → AreAudioShards held → HasMarks present.now held
        → HasPlacedAudio size bytes.old held
        → length held ≡ 4 → HasRestored size bytes.new held }
{
    let _ = Code::audio().restore(size, bytes, present);
}
