// The settings of a stream, as the words of a command name them.
ghost use Rattle.std.specs.Prelude.{◌≡◌, MatchResult, Some};
ghost use Rattle.gs_rtp.specs.Limits.{least_packet, most_packet, most_percentage};
ghost use Rattle.gsbench.specs.Words.{number_word};
ghost use Rattle.gsbench.specs.Workloads.{IsStopAtStream};

use crate::report::Stop;
use crate::words::number_at;
use gs_rtp::{PACKET_GREATEST, PACKET_LEAST, PERCENTAGE_GREATEST, Settings};

/// The settings with the packet size and the percentage of parity that stand at places 1 and 2.
pub fn settings_of(words: &[String]) -> Result<Settings, Stop>
    ensures { MatchResult result (λ settings. (number_word words.now 1 least_packet most_packet ≡ Some settings.packet)
        × (number_word words.now 2 0 most_percentage ≡ Some settings.percentage))
        (λ stop. IsStopAtStream words.now stop) }
{
    let packet = number_at(
        words,
        1,
        u32::from(PACKET_LEAST),
        u32::from(PACKET_GREATEST),
    )?;
    let percentage = number_at(words, 2, 0, u32::from(PERCENTAGE_GREATEST))?;
    Settings::make(packet as u16, percentage as u8, 0, 60, 5, 0, 1).ok_or(Stop::Usage { word: 2 })
}
