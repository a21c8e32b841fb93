// What host and client agree on before a stream begins.

ghost use Rattle.std.specs.Prelude.{◌≡◌, ◌≤◌, ◌↔◌, ◌||◌, ◌==◌, IsTrue, IsSome, IfSome};
ghost use Rattle.gs_bytes.specs.Limits.{most_audio, short_duration, long_duration};
ghost use Rattle.gs_rtp.specs.Limits.{least_packet, most_packet, most_percentage, most_minimum, least_fps, most_fps};
ghost use Rattle.gs_rtp.specs.Limits.{least_ssrc, most_ssrc};
ghost use Rattle.gs_rtp.specs.Settings.{AreSettingsWithinLimits};

use crate::limits::{
    FPS_GREATEST, FPS_LEAST, MINIMUM_GREATEST, PACKET_GREATEST, PACKET_LEAST, PERCENTAGE_GREATEST,
    SSRC_GREATEST, SSRC_LEAST,
};
use gs_bytes::{DURATION_LONG, DURATION_SHORT, MOST_AUDIO};

/// The settings of a session's stream.
#[derive(Clone, Copy, Debug, PartialEq, Eq)]
pub struct Settings {
    /// The packet size in bytes: that of a datagram after its RTP header.
    pub packet: u16,
    /// How many parity shards a block has, in percent of its data shards.
    pub percentage: u8,
    /// How many parity shards a block with parity has at least.
    pub minimum: u8,
    /// Frames per second.
    pub fps: u16,
    /// The duration of an audio unit in milliseconds.
    pub duration: u8,
    /// The length of an audio unit in bytes, 0 for none.
    pub audio: u16,
    /// The RTP synchronization source, which is the session's number.
    pub ssrc: u32,
    pub ghost packet_least: { least_packet ≤ packet },
    pub ghost packet_greatest: { packet ≤ most_packet },
    pub ghost percentage_greatest: { percentage ≤ most_percentage },
    pub ghost minimum_greatest: { minimum ≤ most_minimum },
    pub ghost fps_least: { least_fps ≤ fps },
    pub ghost fps_greatest: { fps ≤ most_fps },
    pub ghost duration_known: { IsTrue (duration == short_duration || duration == long_duration) },
    pub ghost audio_greatest: { audio ≤ most_audio },
    pub ghost ssrc_least: { least_ssrc ≤ ssrc },
    pub ghost ssrc_greatest: { ssrc ≤ most_ssrc },
}

impl Settings {
    /// The settings with these numbers, where each is within its limits.
    pub fn make(
        packet: u16,
        percentage: u8,
        minimum: u8,
        fps: u16,
        duration: u8,
        audio: u16,
        ssrc: u32,
    ) -> Option<Settings>
        ensures within { IsSome result ↔ AreSettingsWithinLimits (record {
          packet = packet;
          percentage = percentage;
          minimum = minimum;
          fps = fps;
          duration = duration;
          audio = audio;
          ssrc = ssrc;
        }) }
        ensures packet { IfSome result (λ s. s.packet ≡ packet) }
        ensures percentage { IfSome result (λ s. s.percentage ≡ percentage) }
        ensures minimum { IfSome result (λ s. s.minimum ≡ minimum) }
        ensures fps { IfSome result (λ s. s.fps ≡ fps) }
        ensures duration { IfSome result (λ s. s.duration ≡ duration) }
        ensures audio { IfSome result (λ s. s.audio ≡ audio) }
        ensures ssrc { IfSome result (λ s. s.ssrc ≡ ssrc) }
    {
        if !(PACKET_LEAST..=PACKET_GREATEST).contains(&packet) {
            return None;
        }
        if percentage > PERCENTAGE_GREATEST || minimum > MINIMUM_GREATEST {
            return None;
        }
        if !(FPS_LEAST..=FPS_GREATEST).contains(&fps) {
            return None;
        }
        if duration != DURATION_SHORT && duration != DURATION_LONG {
            return None;
        }
        if audio > MOST_AUDIO {
            return None;
        }
        if !(SSRC_LEAST..=SSRC_GREATEST).contains(&ssrc) {
            return None;
        }
        Some(Settings {
            packet,
            percentage,
            minimum,
            fps,
            duration,
            audio,
            ssrc,
        })
    }
}
