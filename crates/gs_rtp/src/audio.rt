// The header of an audio datagram.

ghost use Rattle.std.specs.Prelude.{◌≡◌, ◌≤◌, ◌%◌, ◌^◌, ◌++◌, IsTrue, length, drop};
ghost use Rattle.gs_rtp.specs.Stream.{numbers_of};
ghost use Rattle.gs_rtp.specs.Audio.{
  IsAudioHead,
  ReadsBackAudio,
  audio_head,
  audio_header,
  fixed_header,
  is_parity_datagram,
  is_time,
  is_unit_datagram,
  parity_head,
  unit_head,
};

use crate::Settings;
use crate::limits::{AUDIO_BLOCK_PARITY, AUDIO_BLOCK_UNITS, AUDIO_UNITS_END};
use crate::number::big_u32;
use byteorder::{BigEndian, ByteOrder};

/// The length of a unit's header.
pub const AUDIO_UNIT_HEADER_LENGTH: usize = 12;

/// The length of a parity shard's header.
pub const AUDIO_PARITY_HEADER_LENGTH: usize = 24;

/// What an audio datagram's header says: which shard of which block it carries.
#[derive(Clone, Copy, Debug, PartialEq, Eq)]
pub struct AudioHead {
    /// Whether the shard is a parity shard; a data shard is a unit.
    pub parity: bool,
    /// The number of the shard among the units, or among the parity shards, of its block.
    pub shard: u8,
    /// The number of the block, from 0: block k has the units 4k to 4k + 3.
    pub block: u32,
    /// The RTP synchronization source, which is the session's number.
    pub ssrc: u32,
}

// The second byte of the fixed header: the payload types of a unit and of parity.
const UNIT_TYPE: u8 = 97;

const PARITY_TYPE: u8 = 127;

// The first byte that is written, which says RTP version 2, and where the version begins in it.
const RTP_VERSION_2: u8 = 0x80;

const VERSION_BIT: u32 = 6;

// Where each field of the fixed header stands.
const PAYLOAD_TYPE: usize = 1;

const SEQUENCE: usize = 2;

const TIMESTAMP: usize = 4;

const SSRC: usize = 8;

// Where each field of the twelve bytes behind it stands.
const SHARD: usize = 12;

const SHARD_PAYLOAD_TYPE: usize = 13;

const BASE_SEQUENCE: usize = 14;

const BASE_TIMESTAMP: usize = 16;

const BASE_SSRC: usize = 20;

// Whether a time is that of a unit of the session, the first of so many.
fn is_unit_time(settings: &Settings, units: u32, time: u32) -> bool
    requires least { 1 ≤ units }
    requires most { units ≤ 4 }
    ensures { result ≡ is_time (numbers_of settings.now) units time }
{
    let duration = u32::from(settings.duration);
    time % (duration * units) == 0 && time / duration < AUDIO_UNITS_END
}

// Whether bytes are a unit's datagram but for the RTP version.
fn is_unit(bytes: &[u8], settings: &Settings) -> bool
    ensures is { result ≡ is_unit_datagram (numbers_of settings.now) bytes.now }
    ensures room { IsTrue result → 12 ≤ length bytes.now }
{
    let length = AUDIO_UNIT_HEADER_LENGTH + usize::from(settings.audio);
    bytes.len() == length
        && bytes[PAYLOAD_TYPE] == UNIT_TYPE
        && is_unit_time(settings, 1, big_u32(bytes, TIMESTAMP))
}

// Whether bytes are a parity shard's datagram but for the RTP version.
fn is_parity(bytes: &[u8], settings: &Settings) -> bool
    ensures is { result ≡ is_parity_datagram (numbers_of settings.now) bytes.now }
    ensures room { IsTrue result → 24 ≤ length bytes.now }
{
    let length = AUDIO_PARITY_HEADER_LENGTH + usize::from(settings.audio);
    bytes.len() == length
        && bytes[PAYLOAD_TYPE] == PARITY_TYPE
        && bytes[SHARD] < AUDIO_BLOCK_PARITY
        && is_unit_time(settings, AUDIO_BLOCK_UNITS, big_u32(bytes, BASE_TIMESTAMP))
}

// The head of a unit's datagram.
fn unit_head_of(bytes: &[u8], settings: &Settings) -> AudioHead
    requires { 12 ≤ length bytes.now }
    ensures { result ≡ unit_head (numbers_of settings.now) bytes.now }
{
    let unit = big_u32(bytes, TIMESTAMP) / u32::from(settings.duration);
    AudioHead {
        parity: false,
        shard: (unit % AUDIO_BLOCK_UNITS) as u8,
        block: unit / AUDIO_BLOCK_UNITS,
        ssrc: big_u32(bytes, SSRC),
    }
}

// The head of a parity shard's datagram.
fn parity_head_of(bytes: &[u8], settings: &Settings) -> AudioHead
    requires { 24 ≤ length bytes.now }
    ensures { result ≡ parity_head (numbers_of settings.now) bytes.now }
{
    let base = big_u32(bytes, BASE_TIMESTAMP) / u32::from(settings.duration);
    AudioHead {
        parity: true,
        shard: bytes[SHARD],
        block: base / AUDIO_BLOCK_UNITS,
        ssrc: big_u32(bytes, SSRC),
    }
}

/// Reads the header of an audio datagram of a stream with these settings. `None` exactly where the bytes aren't in the
/// grammar: RTP version 2, the payload type of a unit or of parity with its length, and the time of a unit of the
/// session, for parity of the first of a block. A stream whose audio length is 0 has no audio datagram.
pub fn read_audio(bytes: &[u8], settings: &Settings) -> Option<AudioHead>
    ensures { result ≡ audio_head (numbers_of settings.now) bytes.now }
{
    let first = *bytes.first()?;
    if settings.audio == 0 || first >> VERSION_BIT != RTP_VERSION_2 >> VERSION_BIT {
        None
    } else if is_unit(bytes, settings) {
        Some(unit_head_of(bytes, settings))
    } else if is_parity(bytes, settings) {
        Some(parity_head_of(bytes, settings))
    } else {
        None
    }
}

// The sequence number of a datagram, by its number in the stream.
fn sequence_of(number: u32) -> u16
    ensures { result ≡ number % 2 ^ 16 }
{
    (number % (1 << 16)) as u16
}

// Writes the fixed header.
fn write_fixed(kind: u8, sequence: u16, timestamp: u32, ssrc: u32, out: &mut [u8])
    requires { 12 ≤ length out.old }
    ensures { out.new ≡ fixed_header kind sequence timestamp ssrc ++ drop 12 out.old }
{
    out[0] = RTP_VERSION_2;
    out[PAYLOAD_TYPE] = kind;
    BigEndian::write_u16(&mut out[SEQUENCE..], sequence);
    BigEndian::write_u32(&mut out[TIMESTAMP..], timestamp);
    BigEndian::write_u32(&mut out[SSRC..], ssrc);
}

/// Writes a header in front of a unit or of a parity shard, and answers its length in bytes.
pub fn write_audio(head: &AudioHead, settings: &Settings, out: &mut [u8]) -> usize
    requires grammar { IsAudioHead head.now }
    requires room { AUDIO_PARITY_HEADER_LENGTH ≤ length out.old }
    ensures count { result ≡ length (audio_header (numbers_of settings.now) head.now) }
    ensures bytes { out.new ≡ audio_header (numbers_of settings.now) head.now ++ drop result out.old }
{
    let AudioHead {
        parity,
        shard,
        block,
        ssrc,
    } = *head;
    let base = block * AUDIO_BLOCK_UNITS;
    let duration = u32::from(settings.duration);
    let shard_number = u32::from(shard);
    if !parity {
        let unit = base + shard_number;
        write_fixed(UNIT_TYPE, sequence_of(unit), unit * duration, ssrc, out);
        return AUDIO_UNIT_HEADER_LENGTH;
    }
    let sequence = sequence_of(base + AUDIO_BLOCK_UNITS + shard_number);
    write_fixed(PARITY_TYPE, sequence, base * duration, ssrc, out);
    out[SHARD] = shard;
    out[SHARD_PAYLOAD_TYPE] = UNIT_TYPE;
    BigEndian::write_u16(&mut out[BASE_SEQUENCE..], sequence_of(base));
    BigEndian::write_u32(&mut out[BASE_TIMESTAMP..], base * duration);
    BigEndian::write_u32(&mut out[BASE_SSRC..], ssrc);
    AUDIO_PARITY_HEADER_LENGTH
}

/// A law: what `write_audio` writes, followed by a unit or a parity shard, is in the grammar with the same head.
pub fn audio_header_reads_back()
    ensures { ReadsBackAudio }
{}
