// The limits of a stream's settings, and of the heads of its datagrams.

/// The least packet size, in bytes.
pub const PACKET_LEAST: u16 = 1_024;

/// The greatest packet size, in bytes.
pub const PACKET_GREATEST: u16 = 1_440;

/// How many bytes of a video datagram stand before its packet.
pub const RTP_HEADER_LENGTH: usize = 16;

/// The most bytes of a datagram of video or audio.
pub const DATAGRAM_GREATEST: usize = RTP_HEADER_LENGTH + PACKET_GREATEST as usize;

/// The greatest percentage of parity.
pub const PERCENTAGE_GREATEST: u8 = 100;

/// The greatest number of parity shards that each block has at least.
pub const MINIMUM_GREATEST: u8 = 2;

/// The least number of frames per second.
pub const FPS_LEAST: u16 = 1;

/// The greatest number of frames per second.
pub const FPS_GREATEST: u16 = 240;

/// The least number of a session.
pub const SSRC_LEAST: u32 = 1;

/// The greatest number of a session.
pub const SSRC_GREATEST: u32 = 9_999;

/// The greatest index of a frame.
pub const FRAME_GREATEST: u32 = 1_048_576;

/// The most blocks of a frame.
pub const BLOCKS_GREATEST: usize = 4;

/// The greatest number that a frame's last block can have.
pub const LAST_BLOCK_GREATEST: u8 = BLOCKS_GREATEST as u8 - 1;

/// The greatest number of data shards of a block.
pub const SHARDS_GREATEST: u16 = 1_023;

/// How many units a block of audio has.
pub const AUDIO_BLOCK_UNITS: u32 = 4;

/// How many parity shards a block of audio has.
pub const AUDIO_BLOCK_PARITY: u8 = 2;

/// A session has fewer audio units than this.
pub const AUDIO_UNITS_END: u32 = 16_777_216;
