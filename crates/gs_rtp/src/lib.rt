//! The settings of a stream and the headers of its RTP datagrams.
//!
//! A video datagram begins with the fixed header of RTP (RFC 3550, section 5.1), four reserved bytes,
//! and a header of the streaming protocol's own that places the datagram in its frame: its block, its
//! number there, and how much data and parity the block has.
//!
//! An audio datagram has the same fixed header; behind it stands a unit, or twelve bytes that name a parity shard and
//! its block, and that shard.
//!
//! `Settings::make` answers exactly within the limits, `write_video` and `write_audio` write the bytes that the grammar
//! gives, and `read_video` and `read_audio` answer a head exactly where the bytes are in the grammar. The laws say that
//! a reader of what was written gets back the same head.
#![tactic(auto)]

mod audio;
mod limits;
mod number;
mod settings;
mod video;

pub use audio::{
    AUDIO_PARITY_HEADER_LENGTH, AUDIO_UNIT_HEADER_LENGTH, AudioHead, audio_header_reads_back,
    read_audio, write_audio,
};
pub use limits::{
    AUDIO_BLOCK_PARITY, AUDIO_BLOCK_UNITS, AUDIO_UNITS_END, BLOCKS_GREATEST, DATAGRAM_GREATEST,
    FPS_GREATEST, FPS_LEAST, FRAME_GREATEST, LAST_BLOCK_GREATEST, MINIMUM_GREATEST,
    PACKET_GREATEST, PACKET_LEAST, PERCENTAGE_GREATEST, RTP_HEADER_LENGTH, SHARDS_GREATEST,
    SSRC_GREATEST, SSRC_LEAST,
};
pub use settings::Settings;
pub use video::{
    VIDEO_HEADER_LENGTH, VideoHead, read_video, short_video_header_reads_back, video_head_is_exact,
    video_head_is_tested, video_header_reads_back, write_video,
};

#[cfg(test)]
mod tests;
