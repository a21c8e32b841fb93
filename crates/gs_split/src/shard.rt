// What a shard begins with.

ghost use Rattle.std.specs.Prelude.{◌≡◌, ◌≤◌, ◌<◌, ◌+◌, ◌*◌, ◌%◌, ◌^◌, ◌++◌, length, drop};
ghost use Rattle.gs_frames.specs.Shards.{covered_header, flags, read_covered};
ghost use Rattle.gs_split.specs.Loaded.{header_of};

use byteorder::{ByteOrder, LittleEndian};

// How many of a packet's bytes stand before its payload.
pub(crate) const PACKET_HEADER: usize = 16;

// Where the fields of a packet's header stand that parity covers; the number of the packet comes first.
const FLAGS: usize = 8;

const EXTRA: usize = 9;

// The flags of a data shard.
const PICTURE_DATA: u8 = 0x1;

const END_OF_BLOCK: u8 = 0x2;

const START_OF_BLOCK: u8 = 0x4;

// The first bit of a packet's number in its field.
const STREAM_INDEX_BIT: u32 = 8;

// What parity covers of a packet's header.
#[derive(Clone, Copy)]
pub(crate) struct Covered {
    pub(crate) stream_index: u32,
    pub(crate) flags: u8,
    pub(crate) extra: u8,
}

// The flags of a data shard of a block of so many.
fn flags_of(shards: u16, index: u16) -> u8
    ensures { result ≡ flags shards index }
{
    let mut flags = PICTURE_DATA;
    if u32::from(index) + 1 == u32::from(shards) {
        flags |= END_OF_BLOCK;
    }
    if index == 0 {
        flags |= START_OF_BLOCK;
    }
    flags
}

impl Covered {
    // Of a data shard of a block of so many, where so many datagrams went out before it.
    pub(crate) fn of_data(count: u32, shards: u16, index: u16) -> Covered
        ensures stream_index { result.stream_index ≡ count % 2 ^ 24 * 256 }
        ensures flags { result.flags ≡ flags shards index }
        ensures extra { result.extra ≡ 0 }
    {
        Covered {
            stream_index: count << STREAM_INDEX_BIT,
            flags: flags_of(shards, index),
            extra: 0,
        }
    }

    // Read from a shard.
    pub(crate) fn read(shard: &[u8]) -> Covered
        requires { 16 ≤ length shard.now }
        ensures { header_of result ≡ read_covered shard.now }
    {
        Covered {
            stream_index: LittleEndian::read_u32(shard),
            flags: shard[FLAGS],
            extra: shard[EXTRA],
        }
    }

    // Writes the bytes with which a shard begins.
    pub(crate) fn write(&self, out: &mut [u8])
        requires { 16 ≤ length out.old }
        ensures { out.new ≡ covered_header (header_of self.now) ++ drop 16 out.old }
    {
        let mut header = [0; PACKET_HEADER];
        LittleEndian::write_u32(&mut header, self.stream_index);
        header[FLAGS] = self.flags;
        header[EXTRA] = self.extra;
        out[..PACKET_HEADER].copy_from_slice(&header);
    }
}
