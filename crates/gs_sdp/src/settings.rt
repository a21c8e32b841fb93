//! The settings by a body over an offer.

ghost use Rattle.std.specs.Prelude.{◌≡◌, ◌≤◌, IfOk, IfErr, IsOk, Some, None, Err};
ghost use Rattle.gs_sdp.specs.declared.attributes.BadSetting.{BadSetting};
ghost use Rattle.gs_sdp.specs.Lines.{last_value as last_value_of};
ghost use Rattle.gs_sdp.specs.Table.{setting_name, number_in, AreSettings, IsFirstBad};

use crate::attributes::{BadSetting, SettingName};
use crate::lines::last_value;
use gs_bytes::parse_number;
use gs_rtp::{FPS_GREATEST, FPS_LEAST, MINIMUM_GREATEST, PACKET_GREATEST, PACKET_LEAST, Settings};

/// The packet size where none is announced.
const PACKET_MISSING: u32 = 1_392;

/// The frames per second where none are announced.
const FPS_MISSING: u32 = 60;

/// The least number of parity shards where none is announced.
const MINIMUM_MISSING: u32 = 2;

/// The number of a setting within its range, or another where its name is missing.
fn number(
    body: &[u8],
    name: SettingName,
    least: u32,
    most: u32,
    missing: u32,
) -> Result<u32, BadSetting>
    requires least { least ≤ missing }
    requires most { missing ≤ most }
    ensures value { IfOk result
        (λ n. number_in least most missing (last_value_of (setting_name name) body.now) ≡ Some n) }
    ensures least { IfOk result (λ n. least ≤ n) }
    ensures most { IfOk result (λ n. n ≤ most) }
    ensures bad { IfErr result (λ e. number_in least most missing (last_value_of (setting_name name) body.now) ≡ None) }
    ensures name { IfErr result (λ e. e.0 ≡ name) }
{
    let Some(value) = last_value(body, name.attribute()) else {
        return Ok(missing);
    };
    match parse_number(value, most) {
        Some(number) => {
            if number >= least {
                Ok(number)
            } else {
                Err(BadSetting(name))
            }
        }
        None => Err(BadSetting(name)),
    }
}

/// The settings that a body of attribute lines names, over what a host offers: where a name is
/// missing its setting has a value of its own, and what has no name is the offer's. A lone LF ends
/// a line too; lines of other names and of other forms are passed over, and the last line of a name
/// counts.
pub fn settings_of(body: &[u8], offer: &Settings) -> Result<Settings, BadSetting>
    ensures settings { IfOk result (λ s. AreSettings body.now offer.now s) }
    // The first of the four that is out of range or no number is named, and nothing else is.
    ensures bad { IfErr result (λ e. IsFirstBad body.now offer.now e.0) }
    ensures good { (s : _) → AreSettings body.now offer.now s → IsOk result }
    ensures first { (name : _) → IsFirstBad body.now offer.now name → result ≡ Err (record { 0 = name }) }
{
    let packet = number(
        body,
        SettingName::PacketSize,
        u32::from(PACKET_LEAST),
        u32::from(PACKET_GREATEST),
        PACKET_MISSING,
    )?;
    let fps = number(
        body,
        SettingName::MaxFps,
        u32::from(FPS_LEAST),
        u32::from(FPS_GREATEST),
        FPS_MISSING,
    )?;
    let minimum = number(
        body,
        SettingName::Minimum,
        0,
        u32::from(MINIMUM_GREATEST),
        MINIMUM_MISSING,
    )?;
    let duration = u32::from(offer.duration);
    let _same = number(body, SettingName::Duration, duration, duration, duration)?;
    Ok(Settings {
        packet: packet as u16,
        percentage: offer.percentage,
        minimum: minimum as u8,
        fps: fps as u16,
        duration: offer.duration,
        audio: offer.audio,
        ssrc: offer.ssrc,
    })
}
